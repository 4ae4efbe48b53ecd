// The floors of groups, as they are kept.
ghost use Rattle.std.specs.Prelude.{◌≡◌, Some, IfOk, OnOk, OnErr};
ghost use Rattle.std.specs.FinMap as map;
ghost use Rattle.ring_records.specs.FloorOf.{is_below_floor};
ghost use Rattle.ring_records.specs.KeyOrder.{group_cmp};
ghost use Rattle.groups_terms.specs.Floors.{told};

use ring_records::{Floors, GroupName, Key, Term};
use std::alloc::{AllocError, Global};
use std::collections::BTreeMap;

/// For each group that has one its floor: terms below it are given up.
pub type Kept = BTreeMap<GroupName, Term>;

/// The floor of the group, if it has one.
pub fn floor_of(floors: &Kept, group: &GroupName) -> Option<Term>
    ensures { result ≡ map.get (told floors.now) group.now }
{
    floors.get(group).copied()
}

/// Whether the key is below the floor of its group.
pub fn is_below(floors: &Kept, key: &Key) -> bool
    ensures { result ≡ is_below_floor (told floors.now) key.now }
{
    match floor_of(floors, &key.group) {
        Some(floor) => key.term < floor,
        None => false,
    }
}

/// How many groups have a floor.
pub fn count_of(floors: &Kept) -> usize
    ensures { result ≡ map.len (told floors.now) }
{
    floors.len()
}

/// Gives the group this floor. An `Err` changes nothing.
pub fn put_floor(floors: &mut Kept, group: GroupName, floor: Term) -> Result<(), AllocError>
    ensures ok { OnOk result (told floors.new ≡ map.insert (told floors.old) group floor) }
    ensures err { OnErr result (told floors.new ≡ told floors.old) }
{
    floors.insert(group, floor)?;
    Ok(())
}

/// The floors in order of group. The error is that of the allocator.
pub fn list_of(alloc: Global, floors: &Kept) -> Result<Floors, AllocError>
    ensures { IfOk result (λ list. list ≡ told floors.now) }
{
    let mut items = Vec::with_capacity(alloc, floors.len())?;
    for (group, floor) in floors {
        items.push(Key {
            group: *group,
            term: *floor,
        })?;
    }
    Ok(Floors::from_sorted(items))
}

/// These floors as they are kept. The error is that of the allocator.
pub fn kept(alloc: Global, floors: &Floors) -> Result<Kept, AllocError>
    ensures { IfOk result (λ made. told made ≡ floors.now) }
{
    let mut made = BTreeMap::new(alloc);
    let items = floors.as_slice();
    // From the last floor to the first, so that those which are put are the rest of the list.
    let mut left = items.len();
    while left > 0 {
        left -= 1;
        put_floor(&mut made, items[left].group, items[left].term)?;
    }
    Ok(made)
}
