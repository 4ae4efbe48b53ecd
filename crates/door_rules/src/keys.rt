// What is asked of a key.
ghost use Rattle.std.specs.Prelude.{◌≡◌};
ghost use Rattle.ring_records.specs.Known.{drops};
ghost use Rattle.ring_records.specs.Order.{is_key};
ghost use Rattle.door_rules.specs.Stands.{is_in};

use ring_records::{GroupName, Key, Term};

#[tactic(auto, unfolding(ring_records::specs::Order::is_key))]
pub(crate) fn is_key(key: &Key, other: &Key) -> bool
    ensures { result ≡ is_key key.now other.now }
{
    key.group == other.group && key.term == other.term
}

pub(crate) fn is_in(key: &Key, group: &GroupName) -> bool
    ensures { result ≡ is_in group.now key.now }
{
    key.group == *group
}

// Whether it is of the group and below the floor.
pub(crate) fn is_below(key: &Key, group: &GroupName, floor: Term) -> bool
    ensures { result ≡ drops group.now floor key.now }
{
    key.group == *group && key.term < floor
}
