//! What the holders of a hub's ledgers have.
ghost use Rattle.std.specs.Prelude.{◌≡◌};
ghost use mathlib.Core.List.{IsPrefix};
ghost use Rattle.commit_hub.specs.Props.{names-prop};

use crate::ledgers::NodeLedger;
use crate::tied::{Known, Mark, covers};
use std::marker::PhantomData;
use std::sync::ledger;

/// The right to submit to a hub. It counts what its holder submitted and the desk accepted.
#[derive(Drop)]
pub struct Share<A: NodeLedger> {
    pub(crate) count: u64,
    pub(crate) token: ledger::Share<A>,
    ghost one: { token.parts ≡ 1 },
    ghost counted: { token.amount ≡ count },
}

impl<A: NodeLedger> Share<A> {
    ghost use Rattle.commit_hub.specs.Holders.{count_of};

    /// How many inputs of its holder were accepted.
    pub fn count(&self) -> u64
        ensures { result ≡ count_of self.now }
    {
        self.count
    }
}

/// The right to make a hub's inputs durable. It knows what is durable, the inputs since the desk's opening and the area of
/// the journal that is in use; what flies; and whether the hub has failed. A hub has one, and it takes no bytes.
#[derive(Drop)]
pub struct Tie<A: NodeLedger> {
    pub(crate) known: Known,
    pub(crate) of: PhantomData<A>,
    ghost named: { known.name ≡ A.tied } by { names-prop known.name A.tied },
}

/// What a reply or a window of a hub rests on: inputs since the desk's opening that were durable when it was given out, and
/// are the first durable inputs since the opening for good. It takes no bytes.
#[derive(Drop)]
pub struct Begun<A: NodeLedger> {
    pub(crate) mark: Mark,
    pub(crate) of: PhantomData<A>,
    ghost named: { mark.history ≡ A.tied.history },
}

impl<A: NodeLedger> Tie<A> {
    ghost use Rattle.commit_hub.specs.Holders.{begun_by, known_by, view_by};

    /// Changes nothing, and nothing runs: what the tie knows to be durable begins with the inputs of the token.
    pub fn covers(&mut self, begun: &mut Begun<A>)
        ensures begins { IsPrefix (begun_by begun.old) (known_by self.old).inputs }
        ensures same { view_by self.new ≡ view_by self.old }
        ensures begun { begun_by begun.new ≡ begun_by begun.old }
    {
        covers(&mut self.known, &mut begun.mark);
    }
}
