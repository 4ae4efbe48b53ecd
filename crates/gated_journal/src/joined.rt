// The bytes that a reader was fed, for proofs alone.
ghost use Rattle.std.specs.Prelude.{◌≡◌, ℕ, List, [], ◌++◌};
ghost use Rattle.std.specs.Borrow.{ftrue};

use std::marker::Model;

/// All pieces that were fed, joined. It has no bytes, and its calls do nothing when they run: only clauses read it.
#[derive(Drop)]
pub(crate) struct Joined {
    pub ghost bytes: { List ℕ },
}

impl Model for Joined {
    ghost also_owns = { λ _. ftrue };
}

// It owns nothing.
unsafe impl Send for Joined {}

impl Joined {
    /// Nothing was fed yet.
    pub(crate) fn new() -> Joined
        ensures { result ≡ record { bytes = [] } }
    {
        Joined {}
    }

    /// One piece more.
    pub(crate) fn with_piece(before: &Joined, piece: &[u8]) -> Joined
        ensures { result ≡ record { bytes = before.now.bytes ++ piece.now } }
    {
        Joined {}
    }
}
