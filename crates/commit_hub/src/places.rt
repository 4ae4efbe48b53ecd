//! The places of a hub: how many shares it can give.
ghost use Rattle.std.specs.Prelude.{◌≡◌, ◌+◌, ◌↔◌, IsTrue};

use std::marker::{Model, PhantomData};
use std::sync::ledger::Ledger;

/// How many shares a hub can give. With the one that the hub keeps they have all parts of the ledger.
#[derive(Drop)]
pub(crate) struct Places<A: Ledger> {
    count: u32,
    of: PhantomData<A>,
}

impl<A: Ledger> Model for Places<A> {
    ghost use Rattle.std.specs.Prelude.{ℕ, ◌≡◌, ◌+◌};

    ghost Value = { ℕ };

    ghost view = { λ p. p.count };

    ghost invariant = { λ p. p.count + 1 ≡ A.parts };
}

impl<A: Ledger> Places<A> {
    /// So many.
    pub(crate) fn new(count: u32) -> Places<A>
        requires { count + 1 ≡ A.parts }
        ensures { result ≡ count }
    {
        Places {
            count,
            of: PhantomData,
        }
    }

    /// Whether so many shares are all that the hub can give.
    pub(crate) fn are_all(&self, shares: usize) -> bool
        ensures { IsTrue result ↔ 1 + shares ≡ A.parts }
    {
        shares == self.count as usize
    }
}
