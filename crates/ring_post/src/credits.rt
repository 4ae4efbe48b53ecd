// The credits of the successor that an inbox holds back.
ghost use Rattle.std.specs.Prelude.{◌≡◌, ◌-◌, ◌*◌, ◌≤◌, ◌<◌, false, true, max};
ghost use Rattle.ring_post.specs.Credits.{are_due, held_of};
ghost use Rattle.ring_post.specs.Room.{has_little_room};

use crate::room::has_little_room;
use commit_hub::Look;

/// How many messages more are credited before the node is told, at most.
const MESSAGES: u64 = 64;

/// A message that the node was not told of takes so many bytes of its snapshot at most.
const IN_SNAPSHOT: u64 = 27;

/// The greatest credit that was heard, and the last one that the node was told. Each credit that a node accepts is an
/// input, to be written and synced, and nobody waits for it; so the node is told of many at once.
#[derive(Clone, Copy, PartialEq, Eq)]
pub struct Credits {
    pub heard: u64,
    pub told: u64,
}

impl Credits {
    /// Before the first credit.
    pub fn new() -> Credits
        ensures { (result.heard ≡ 0) × (result.told ≡ 0) }
    {
        Credits { heard: 0, told: 0 }
    }

    /// Hears a credit. A later one says all that an earlier one said.
    pub fn hear(&mut self, upto: u64)
        ensures heard { self.new.heard ≡ max self.old.heard upto }
        ensures told { self.new.told ≡ self.old.told }
    {
        self.heard = self.heard.max(upto);
    }

    /// The greatest credit that was heard, where the node was not told of it yet.
    pub fn held(&self) -> Option<u64>
        ensures { result ≡ held_of self.now }
    {
        if self.told < self.heard {
            Some(self.heard)
        } else {
            None
        }
    }

    /// Whether the node is to be told: 64 messages are credited since it was told last, or more than take a sixteenth of its
    /// capacity in a snapshot. With little room nothing is held back.
    pub fn are_due(&self, look: &Look) -> bool
        ensures due { result ≡ are_due self.now look.now }
        ensures few { result ≡ false → self.now.heard - self.now.told < 64 }
        ensures none { result ≡ false → has_little_room look.now ≡ true → self.now.heard ≤ self.now.told }
        ensures some { result ≡ true → self.now.told < self.now.heard }
    {
        if self.heard <= self.told {
            return false;
        }
        let held = self.heard - self.told;
        held >= MESSAGES
            || u64::from(look.capacity) < 16 * IN_SNAPSHOT * held
            || has_little_room(look)
    }

    /// The node was told of this credit.
    pub fn tell(&mut self, upto: u64)
        ensures told { self.new.told ≡ upto }
        ensures heard { self.new.heard ≡ self.old.heard }
    {
        self.told = upto;
    }

    /// The node refused a credit for want of room, so it is to be told again.
    pub fn take_back(&mut self)
        ensures told { self.new.told ≡ 0 }
        ensures heard { self.new.heard ≡ self.old.heard }
    {
        self.told = 0;
    }
}
