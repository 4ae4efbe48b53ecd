//! What a hub is made of.
ghost use Rattle.std.specs.Prelude.{◌≡◌, ◌+◌, ◌≤◌};
ghost use Rattle.commit_hub.specs.Props.{names-prop, view-prop};
ghost use Rattle.commit_hub.specs.Tied.{nothing};

use crate::tied::{Held, Known, open};
use std::sync::ledger::Blank;

/// The blank page of a hub's ledger, which counts the inputs that are accepted, and the halves of what the hub and its
/// tie know.
#[derive(Drop)]
pub struct Blanks {
    pub(crate) places: u32,
    pub(crate) accepted: Blank,
    pub(crate) held: Held,
    pub(crate) known: Known,
    ghost accepted_is: { accepted.parts ≡ places + 1 },
    ghost halves: { known.name ≡ held.name } by { names-prop known.name held.name },
    ghost empty: { held.knows ≡ nothing } by { view-prop held.knows nothing },
}

impl Blanks {
    ghost use Rattle.commit_hub.specs.Places.{places_of};

    /// Those of a hub that can give so many shares, at most 1,000,000.
    pub fn new(places: u32) -> Blanks
        requires { places ≤ 1000000 }
        ensures { places_of result ≡ places }
    {
        let (held, known) = open();
        Blanks {
            places,
            accepted: Blank::new(u64::from(places) + 1),
            held,
            known,
        }
    }
}
