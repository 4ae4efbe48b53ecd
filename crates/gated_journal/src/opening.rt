//! What a journal is opened with.
ghost use Rattle.std.specs.Prelude.{◌≡◌};
ghost use Rattle.ring_records.specs.Admission.{newest};
ghost use Rattle.ring_records.specs.Summary.{empty};
ghost use Rattle.gated_journal.specs.Reading.{fresh_area};
ghost use Rattle.gated_journal.specs.Opened.{reading_of_opening};

use crate::layout::LAYOUT;
use ring_records::{Input, Summary};
use std::alloc::Global;

/// What the area in use of a journal holds: a summary of the first inputs, and the inputs behind these.
#[derive(Drop)]
pub struct Opening {
    /// The layout of the area.
    pub layout: u8,
    /// Its epoch, below 2^40: each checkpoint raises it by 1.
    pub epoch: u64,
    /// What the snapshot says of the inputs that it stands for.
    pub base: Summary,
    /// The inputs of the frames, in order.
    pub inputs: Vec<Input>,
}

impl Opening {
    /// What a new journal holds: no inputs, of which none are summarised. It takes no memory.
    pub fn fresh(alloc: Global) -> Opening
        ensures { reading_of_opening result ≡ fresh_area newest 1 empty }
    {
        Opening {
            layout: LAYOUT,
            epoch: 1,
            base: Summary::empty(alloc),
            inputs: Vec::new(alloc),
        }
    }
}
