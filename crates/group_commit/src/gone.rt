//! What a desk let go of.
ghost use Rattle.std.specs.Prelude.{◌≡◌};

use ring_records::{Input, Summary};
use std::alloc::Global;

/// What a desk let go of. Whoever has it drops it, behind the lock.
#[derive(Drop)]
pub struct Gone {
    /// How many inputs are gone since the opening of the desk.
    pub count: u64,
    inputs: Vec<Input>,
    known: Option<Summary>,
}

impl Gone {
    // So many were gone before, and nothing more is.
    pub(crate) fn none(alloc: Global, count: u64) -> Gone
        ensures { result.count ≡ count }
    {
        Gone {
            count,
            inputs: Vec::new(alloc),
            known: None,
        }
    }

    // So many are gone now, these inputs among them, and what the node knew before them.
    pub(crate) fn new(count: u64, inputs: Vec<Input>, known: Option<Summary>) -> Gone
        ensures { result.count ≡ count }
    {
        Gone {
            count,
            inputs,
            known,
        }
    }
}
