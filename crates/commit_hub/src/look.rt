//! What a hub shows of its node.
ghost use Rattle.std.specs.Prelude.{◌≡◌};
ghost use Rattle.commit_hub.specs.Stances.{lacks_room, takes_stands};

use ring_records::{INPUT_BYTES, Shown};

/// What a hub shows of its node at one moment, as plain counts.
#[derive(Clone, Copy, PartialEq, Eq)]
pub struct Look {
    /// Its inputs, those of them that are durable, and how far its links are.
    pub shown: Shown,
    /// The bytes of its capacity that are taken, by a snapshot and by inputs.
    pub used: u64,
    /// The length of the snapshot that a checkpoint would write now, in bytes.
    pub snapshot: u64,
    /// The epoch of its journal's area in use.
    pub epoch: u64,
    /// The layout of that area.
    pub layout: u8,
    /// The bytes that they may take.
    pub capacity: u32,
    /// How many Stands it has taken that are not retired.
    pub stands: u32,
    /// How many groups have a floor.
    pub floors: u64,
    /// Whether a checkpoint is due, which makes room: it is the next that the hub has made durable.
    pub is_due: bool,
    /// Whether a checkpoint frees a sixteenth of the capacity at least: a request that is refused for room wants it then.
    pub frees_room: bool,
    /// Whether a checkpoint is to make room: it is due, or is wanted and frees some.
    pub is_room_coming: bool,
    /// Whether it takes requests: it is not closed and has not failed.
    pub is_open: bool,
}

impl Look {
    /// Whether the node takes a Stand: behind a checkpoint an eighth of its capacity stays free beside it and the two messages
    /// of its election. That reserve is for the messages of Stands that are on their way, for credits and for Retires: a
    /// request for which the rest has no room finds a sixteenth and more to be freed, so a checkpoint is wanted then.
    pub fn takes_stands(&self) -> bool
        ensures { result ≡ takes_stands self.now }
    {
        let capacity = u64::from(self.capacity);
        self.snapshot <= capacity && 8 * (self.snapshot + 3 * INPUT_BYTES) <= 7 * capacity
    }

    /// Whether the node leaves a message: the longest one would leave less than a sixteenth of the capacity free, and no checkpoint
    /// would make room. That sixteenth is for Retires, behind which a checkpoint frees as much.
    pub fn lacks_room(&self) -> bool
        ensures { result ≡ lacks_room self.now }
    {
        let capacity = u64::from(self.capacity);
        let is_filled = self.used > capacity || 15 * capacity < 16 * (self.used + INPUT_BYTES);
        !self.is_due && !self.frees_room && is_filled
    }
}
