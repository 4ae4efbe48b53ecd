// The floors by group.
ghost use Rattle.std.specs.Prelude.{◌≡◌, OnOk, OnErr};
ghost use Rattle.std.specs.FinMap as map;

use ring_records::{GroupName, Term};
use std::alloc::{AllocError, Global};
use std::collections::BTreeMap;
use std::marker::Model;

/// The floors, as a finite map from group to term.
#[derive(Drop)]
pub struct Floors {
    by_group: BTreeMap<GroupName, Term>,
}

impl Model for Floors {
    ghost use Rattle.std.specs.Prelude.{ℕ};
    ghost use Rattle.std.specs.Cmp.Lexicographic.{slice_cmp};
    ghost use Rattle.std.specs.FinMap as map;
    ghost use Rattle.std.specs.Ordering.{nat_cmp};
    ghost use Rattle.decision_board.specs.Leaders.{coded_floors};

    ghost Value = { map.FinMap (slice_cmp nat_cmp) ℕ };

    ghost coded = { coded_floors };

    ghost view = { λ f. map.from_entries f.by_group.entries };
}

impl Floors {
    /// No floors.
    pub fn new(alloc: Global) -> Floors
        ensures { result ≡ map.empty }
    {
        Floors {
            by_group: BTreeMap::new(alloc),
        }
    }

    /// The floor of the group, if it has one.
    pub fn floor(&self, group: &GroupName) -> Option<Term>
        ensures { result ≡ map.get self.now group.now }
    {
        self.by_group.get(group).copied()
    }

    /// Gives the group this floor. An `Err` changes nothing.
    pub fn put(&mut self, group: GroupName, floor: Term) -> Result<(), AllocError>
        ensures ok { OnOk result (self.new ≡ map.insert self.old group floor) }
        ensures err { OnErr result (self.new ≡ self.old) }
    {
        self.by_group.insert(group, floor)?;
        Ok(())
    }
}
