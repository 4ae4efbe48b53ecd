// What the area of a journal that is in use stands for beside its frames.
ghost use Rattle.std.specs.Prelude.{◌≡◌};
ghost use Rattle.ring_records.specs.Admission as admission;

use crate::LAYOUT;

/// What the area of a journal that is in use stands for beside its frames: the node's first inputs, and what is written in
/// their place.
#[derive(Clone, Copy, PartialEq, Eq)]
pub struct Base {
    /// The area's layout.
    pub layout: u8,
    /// The area's number, which rises from one area to the next: below 2^40.
    pub epoch: u64,
    /// How many inputs it stands for, at most 2^56.
    pub inputs: u64,
    /// How many bytes of the capacity these take.
    pub bytes: u32,
}

impl Base {
    /// That of a new node: the snapshot of its first area, of 42 bytes, stands for no input.
    pub const fn fresh() -> Base
        ensures { result ≡ admission.fresh }
    {
        Base {
            layout: LAYOUT,
            epoch: 1,
            inputs: 0,
            bytes: 42,
        }
    }
}
