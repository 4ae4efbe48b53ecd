// What says in proofs how a history goes on: the right to add to it, and marks of its beginnings. They have no bytes, and
// their calls do nothing when they run: only clauses read them.
ghost use Rattle.std.specs.Prelude.{◌≡◌, ◌++◌, ◌∷◌, [], ℕ, List};
ghost use mathlib.Core.List.{IsPrefix};
ghost use denote.Sharing.{said};
ghost use Rattle.ring_records.specs.declared.notice.Notice.{Notice};
ghost use Rattle.decision_board.specs.History.{coded_notices, mark_owns, right_owns};

use ring_records::Notice;
use std::marker::{Model, PhantomData};

/// The right to add to a history, which says what it is.
#[derive(Drop)]
pub(crate) struct Right {
    marker: PhantomData<()>,
    pub ghost history: { ℕ },
    pub ghost notices: { List Notice } by { coded_notices },
}

impl Model for Right {
    ghost also_owns = { λ r. right_owns r.history r.notices };
}

/// A history begins with these notices, for good.
#[derive(Drop)]
pub(crate) struct Mark {
    marker: PhantomData<()>,
    pub ghost history: { ℕ },
    pub ghost notices: { List Notice } by { coded_notices },
}

impl Model for Mark {
    ghost also_owns = { λ m. mark_owns m.history m.notices };

    ghost also_shares = { λ m _ κ. said (mark_owns m.history m.notices) κ };
}

// What it owns names no key of one thread.
unsafe impl Send for Right {}

// What it owns names no key of one thread.
unsafe impl Send for Mark {}

// What a reference to it holds names no key of one thread.
unsafe impl Sync for Mark {}

/// A history that nobody else knows, of no notices.
pub(crate) fn begin() -> (Right, Mark)
    ensures name { result.1.history ≡ result.0.history }
    ensures right { result.0.notices ≡ [] }
    ensures mark { result.1.notices ≡ [] }
{
    (
        Right {
            marker: PhantomData,
        },
        Mark {
            marker: PhantomData,
        },
    )
}

/// Adds the notice to the history, and marks what it is then.
pub(crate) fn add(right: &mut Right, notice: &Notice) -> Mark
    ensures history { right.new.history ≡ right.old.history }
    ensures notices { right.new.notices ≡ right.old.notices ++ notice.now ∷ [] }
    ensures name { result.history ≡ right.old.history }
    ensures mark { result.notices ≡ right.old.notices ++ notice.now ∷ [] }
{
    Mark {
        marker: PhantomData,
    }
}

/// Changes nothing: the history begins with what is marked.
pub(crate) fn covers(mark: &Mark, right: &mut Right)
    requires { mark.now.history ≡ right.old.history }
    ensures begins { IsPrefix mark.now.notices right.old.notices }
    ensures same { right.new ≡ right.old }
{}

/// Changes nothing: two beginnings of one history begin one list.
pub(crate) fn compare(one: &Mark, other: &Mark)
    requires { other.now.history ≡ one.now.history }
    ensures { (list : List Notice) × IsPrefix one.now.notices list × IsPrefix other.now.notices list }
{}

/// A copy.
pub(crate) fn again(mark: &Mark) -> Mark
    ensures { result ≡ mark.now }
{
    Mark {
        marker: PhantomData,
    }
}
