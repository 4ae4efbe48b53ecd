//! What is found of an area part after part, from its gate on. Offsets count from there.
ghost use Rattle.std.specs.Prelude.{◌≡◌, []};

use ring_records::{Input, SummaryReader};
use std::alloc::Global;

/// What stands next.
#[derive(Clone, Copy, PartialEq, Eq)]
pub(crate) enum Stage {
    Head,
    /// So many bytes of the snapshot.
    Snapshot(u32),
    /// A frame, or the closed gate.
    Frames,
    /// Nothing: the closed gate was met.
    Done,
    /// Nothing: the area is damaged at this offset.
    Damaged(u64),
}

/// What was found so far.
#[derive(Drop)]
pub(crate) struct Found {
    pub(crate) stage: Stage,
    pub(crate) snapshot: SummaryReader,
    pub(crate) inputs: Vec<Input>,
    /// How many bytes were taken.
    pub(crate) at: u64,
}

impl Found {
    /// Nothing yet of an area of this layout, of a ring of `n` nodes.
    pub(crate) fn new(alloc: Global, layout: u8, n: u8) -> Found
        ensures n { result.snapshot.n ≡ n }
        ensures layout { result.snapshot.layout ≡ layout }
        ensures stage { result.stage ≡ Stage.Head }
        ensures snapshot { result.snapshot.taken ≡ [] }
        ensures inputs { result.inputs.items ≡ [] }
        ensures at { result.at ≡ 0 }
    {
        Found {
            stage: Stage::Head,
            snapshot: SummaryReader::new(alloc, n, layout),
            inputs: Vec::new(alloc),
            at: 0,
        }
    }
}
