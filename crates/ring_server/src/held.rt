//! What a node holds of what it may hold.
ghost use Rattle.std.specs.Prelude.{◌≡◌};
ghost use Rattle.commit_hub.specs.Stances.{lacks_room, takes_stands};

use commit_hub::Look;
use ring_status::Holding;

/// What a node holds by what its hub shows.
pub(crate) fn held_by(look: &Look) -> Holding
    ensures shown { result.shown ≡ look.now.shown }
    ensures bytes { (result.used ≡ look.now.used) × (result.snapshot ≡ look.now.snapshot) × (result.capacity ≡ look.now.capacity) }
    ensures stands { (result.stands ≡ look.now.stands) × (result.floors ≡ look.now.floors) }
    ensures area { (result.epoch ≡ look.now.epoch) × (result.layout ≡ look.now.layout) }
    ensures room { (result.takes_stands ≡ takes_stands look.now) × (result.lacks_room ≡ lacks_room look.now) }
    ensures open { result.is_open ≡ look.now.is_open }
{
    Holding {
        shown: look.shown,
        used: look.used,
        snapshot: look.snapshot,
        capacity: u64::from(look.capacity),
        stands: u64::from(look.stands),
        floors: look.floors,
        epoch: look.epoch,
        layout: look.layout,
        takes_stands: look.takes_stands(),
        lacks_room: look.lacks_room(),
        is_open: look.is_open,
    }
}
