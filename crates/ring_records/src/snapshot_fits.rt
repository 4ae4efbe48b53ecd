// Whether what a snapshot tells fits.
ghost use Rattle.std.specs.Prelude.{◌≡◌, Decides};
ghost use Rattle.std.specs.List.{count_by, AllByRecursion};
ghost use Rattle.std.specs.List.Sorted.{IsStrictlySortedBy};
ghost use Rattle.std.specs.declared.cmp.Ordering.TheVariants.{Less};
ghost use Rattle.ring_records.specs.FloorOf.{is_below_floor};
ghost use Rattle.ring_records.specs.FloorLists.{by_group, floored};
ghost use Rattle.ring_records.specs.StateOrder.{by_state};
ghost use Rattle.ring_records.specs.Snapshot.{has_stood};
ghost use Rattle.ring_records.specs.SnapshotRead.{AreFitting, IsLiveState};

use crate::snapshot_read::Counts;
use crate::{Key, KeyState};
use std::cmp::Ordering;

pub(crate) fn are_fitting(counts: &Counts, states: &[KeyState], floors: &[Key]) -> bool
    ensures { Decides result (AreFitting counts.now states.now floors.now) }
{
    let stands = u64::from(counts.stands);
    counts.inputs <= 1 << 56
        && counts.taken <= counts.inputs
        && stands <= counts.inputs - counts.taken
        && counts.sent <= counts.inputs
        && stands == stood_count(states)
        && are_rising(states)
        && are_floors_rising(floors)
        && are_live(states, floors)
}

fn stood_count(states: &[KeyState]) -> u64
    ensures value { result ≡ count_by has_stood states.now }
{
    let mut count = 0;
    for state in states {
        if state.stood.is_some() {
            count += 1;
        }
    }
    count
}

fn are_rising(states: &[KeyState]) -> bool
    ensures { Decides result (IsStrictlySortedBy by_state states.now) }
{
    for i in 1..states.len() {
        if !is_before(&states[i - 1], &states[i]) {
            return false;
        }
    }
    true
}

fn is_before(state: &KeyState, other: &KeyState) -> bool
    ensures { Decides result (by_state state.now other.now ≡ Less) }
{
    match state.key.cmp(&other.key) {
        Ordering::Less => true,
        Ordering::Equal => false,
        Ordering::Greater => false,
    }
}

fn are_floors_rising(floors: &[Key]) -> bool
    ensures { Decides result (IsStrictlySortedBy by_group floors.now) }
{
    for i in 1..floors.len() {
        if !is_group_before(&floors[i - 1], &floors[i]) {
            return false;
        }
    }
    true
}

fn is_group_before(floor: &Key, other: &Key) -> bool
    ensures { Decides result (by_group floor.now other.now ≡ Less) }
{
    match floor.group.cmp(&other.group) {
        Ordering::Less => true,
        Ordering::Equal => false,
        Ordering::Greater => false,
    }
}

// Whether no key is below the floor of its group.
fn are_live(states: &[KeyState], floors: &[Key]) -> bool
    requires rising { IsStrictlySortedBy by_group floors.now }
    ensures { Decides result (AllByRecursion (IsLiveState (floored floors.now)) states.now) }
{
    for state in states {
        if is_below_floor(&state.key, floors) {
            return false;
        }
    }
    true
}

// A floor of the key's group that is above its term stands where the key would, among the floors.
fn is_below_floor(key: &Key, floors: &[Key]) -> bool
    requires rising { IsStrictlySortedBy by_group floors.now }
    ensures { result ≡ is_below_floor (floored floors.now) key.now }
{
    match floors.binary_search(key) {
        Ok(_) => false,
        Err(at) => at < floors.len() && floors[at].group == key.group,
    }
}
