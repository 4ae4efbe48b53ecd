// What was done to a device, for proofs alone.
ghost use Rattle.std.specs.Prelude.{◌≡◌, ℕ, List, [], ◌∷◌, ◌++◌, length};
ghost use Rattle.std.specs.Borrow.{ftrue};

use std::marker::Model;

/// The writes and syncs that a device has had. It has no bytes, and its calls do nothing when they run: only clauses
/// read it. It holds the stable image, the ranges written since the last sync, and for each sync what was stable, and
/// which ranges were written, just before it.
#[derive(Drop)]
pub(crate) struct History {
    pub ghost stable: { List ℕ },
    pub ghost ranges: { List (ℕ × ℕ) },
    pub ghost past: { List (List ℕ × List (ℕ × ℕ)) },
}

impl Model for History {
    ghost also_owns = { λ _. ftrue };
}

// It owns nothing.
unsafe impl Send for History {}

impl History {
    /// Nothing was done yet, and nothing is stable.
    pub(crate) fn new() -> History
        ensures { result ≡ record { stable = []; ranges = []; past = [] } }
    {
        History {}
    }

    /// One write more, at this offset.
    pub(crate) fn with_write(before: &History, off: &u64, bytes: &[u8]) -> History
        ensures { result ≡ record before.now { ranges = before.now.ranges ++ (off.now, length bytes.now) ∷ [] } }
    {
        History {}
    }

    /// One sync more, which makes these bytes stable.
    pub(crate) fn with_sync(before: &History, image: &[u8]) -> History
        ensures { result ≡ record { stable = image.now; ranges = []; past = before.now.past ++ (before.now.stable, before.now.ranges) ∷ [] } }
    {
        History {}
    }
}
