// What a node does with little room.
ghost use Rattle.std.specs.Prelude.{◌≡◌};
ghost use Rattle.ring_post.specs.Room.{awaits_room, has_little_room, is_full, is_left};

use commit_hub::Look;
use ring_records::{DOORS, INPUT_BYTES};

/// The bytes that a message takes at most, and a Stand at each door.
const MOST_AT_ONCE: u64 = (1 + DOORS as u64) * INPUT_BYTES;

/// Whether the node has no room for messages, and no checkpoint would make some.
pub fn is_full(look: &Look) -> bool
    ensures { result ≡ is_full look.now }
{
    look.is_open && look.lacks_room()
}

/// Whether the node is full and leaves the message of this number: the next that it would take. Another one is refused, and needs
/// no room.
pub fn is_left(look: &Look, no: u64) -> bool
    ensures { result ≡ is_left look.now no }
{
    is_full(look) && no == look.shown.taken
}

/// Whether a message may find no room, as each door may take a Stand meanwhile. A door has one at most that is not durable.
pub fn has_little_room(look: &Look) -> bool
    ensures { result ≡ has_little_room look.now }
{
    let capacity = u64::from(look.capacity);
    look.used > capacity || 15 * capacity < 16 * (look.used + MOST_AT_ONCE)
}

/// Whether there is little room, and a checkpoint is about to make some.
pub fn awaits_room(look: &Look) -> bool
    ensures { result ≡ awaits_room look.now }
{
    look.is_open && look.is_room_coming && has_little_room(look)
}
