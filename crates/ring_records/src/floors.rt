// The floors of groups.
ghost use Rattle.std.specs.Prelude.{◌≡◌, Decides};
ghost use Rattle.std.specs.List.Sorted.{IsStrictlySortedBy};
ghost use Rattle.std.specs.FinMap as map;
ghost use Rattle.ring_records.specs.Floors.{floor_keys};
ghost use Rattle.ring_records.specs.FloorLists.{by_group, floored};

use crate::Key;
use std::marker::Model;

/// The floors of groups, in order of group, each group once. A floor is kept as a key: its group, and the least term that
/// is not given up.
#[derive(Drop)]
pub struct Floors {
    items: Vec<Key>,
}

impl Model for Floors {
    ghost use Rattle.std.specs.Prelude.{ℕ};
    ghost use Rattle.std.specs.Coded.{coded_ℕ};
    ghost use Rattle.std.specs.FinMap as map;
    ghost use Rattle.std.specs.List.Sorted.{IsStrictlySortedBy};
    ghost use Rattle.ring_records.specs.KeyOrder.{group_cmp};
    ghost use Rattle.ring_records.specs.Coded.{coded_group};
    ghost use Rattle.ring_records.specs.FloorLists.{by_group, floored};

    ghost Value = { map.FinMap group_cmp ℕ };

    ghost coded = { map.code coded_group coded_ℕ };

    ghost view = { λ f. floored f.items.items };

    ghost invariant = { λ f. IsStrictlySortedBy by_group f.items.items };
}

impl Floors {
    /// The floors in this list, which is in order of group.
    pub fn from_sorted(items: Vec<Key>) -> Floors
        requires { IsStrictlySortedBy by_group items.items }
        ensures { result ≡ floored items.items }
    {
        Floors { items }
    }

    /// How many there are.
    pub fn len(&self) -> usize
        ensures { result ≡ map.len self.now }
    {
        let floors = self.as_slice();
        floors.len()
    }

    /// Whether there is none.
    pub fn is_empty(&self) -> bool
        ensures { Decides result (self.now ≡ map.empty) }
    {
        self.len() == 0
    }

    /// The floors, in order of group.
    pub fn as_slice(&self) -> &[Key]
        ensures value { floored result.now ≡ self.now }
        ensures values { floor_keys self.now ≡ result.now }
        ensures sorted { IsStrictlySortedBy by_group result.now }
    {
        &self.items
    }
}
