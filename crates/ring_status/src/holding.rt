// What a node holds and does, and what that says of what it takes.
ghost use Rattle.std.specs.Prelude.{◌≡◌, ◌-◌};
ghost use Rattle.ring_status.specs.Health.{condition_of, hangs_after, is_renewable, stands_left};

use crate::values::Condition;
use ring_records::{STANDS, Shown};

/// What a node holds of what it may hold, at one moment.
#[derive(Clone, Copy, PartialEq, Eq)]
pub struct Holding {
    /// Its inputs, and how far its links are, since its first start.
    pub shown: Shown,
    /// How many bytes of its capacity are taken, by the snapshot of its last checkpoint and the inputs since.
    pub used: u64,
    /// The length of the snapshot that a checkpoint would write now, in bytes.
    pub snapshot: u64,
    /// How many bytes of a snapshot and of inputs it takes.
    pub capacity: u64,
    /// How many Stands it has taken that are not retired.
    pub stands: u64,
    /// How many groups have a floor.
    pub floors: u64,
    /// The epoch of its journal's area in use, which each checkpoint raises by 1.
    pub epoch: u64,
    /// The layout of that area.
    pub layout: u8,
    /// Whether a Stand leaves the reserve free behind a checkpoint.
    pub takes_stands: bool,
    /// Whether there is no room for the longest message, and no checkpoint would make some.
    pub lacks_room: bool,
    /// Whether it takes requests.
    pub is_open: bool,
}

/// For how many seconds a device may be busy with a batch or a checkpoint before it hangs.
const HANG_SECONDS: u64 = 10;

/// Whether a device hangs that has been busy with a batch or a checkpoint for so many seconds.
pub fn hangs(writing: u64) -> bool
    ensures { result ≡ hangs_after writing }
{
    writing >= HANG_SECONDS
}

impl Holding {
    /// What a node takes that holds so much, whose device has been busy with a batch or a checkpoint for so many seconds.
    pub fn condition(&self, writing: u64) -> Condition
        ensures { result ≡ condition_of self.now writing }
    {
        if !self.is_open {
            Condition::Failed
        } else if hangs(writing) {
            Condition::Hangs
        } else if !self.takes_stands || self.lacks_room {
            Condition::Full
        } else if self.stands >= u64::from(STANDS) {
            Condition::Limit
        } else {
            Condition::Well
        }
    }

    /// Whether another checkpoint can come: its snapshot takes a quarter of the capacity at most.
    pub fn is_renewable(&self) -> bool
        ensures { result ≡ is_renewable self.now }
    {
        self.snapshot <= self.capacity / 4
    }

    /// How many more Stands it may take.
    pub fn stands_left(&self) -> u64
        ensures { result ≡ stands_left self.now }
    {
        u64::from(STANDS).saturating_sub(self.stands)
    }
}
