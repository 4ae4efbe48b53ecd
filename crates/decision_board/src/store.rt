// One of the two copies of what the board says.
ghost use Rattle.std.specs.Prelude.{◌≡◌, ◌&&◌, nat_lt, OnOk, OnErr};
ghost use Rattle.std.specs.FinMap as map;
ghost use Rattle.ring_records.specs.Notices.{leads_in};
ghost use Rattle.ring_records.specs.Latest.{IsLatest};
ghost use Rattle.ring_records.specs.declared.notice.Notice.TheVariants.{Decided, Retired};
ghost use Rattle.decision_board.specs.Readers.{IsWho};
ghost use Rattle.decision_board.specs.Leaders.{AreOf, floor_of, reaches, taken_in};
ghost use Rattle.decision_board.specs.Next.{IsNext};
ghost use Rattle.decision_board.specs.Stores.{after, state_of};

use crate::floors::Floors;
use crate::history::Front;
use crate::leaders::Leaders;
use left_right::Absorb;
use ring_records::{Candidate, Decision, GroupName, Key, Notice, Term};
use std::alloc::{AllocError, Global};

/// A notice, and the history that ends with it.
#[derive(Drop)]
pub struct Entry {
    pub notice: Notice,
    pub front: Front,
}

/// The leaders and the floors that a beginning of the history tells.
#[derive(Drop)]
pub struct Store {
    pub leaders: Leaders,
    pub floors: Floors,
    pub front: Front,
}

impl Store {
    /// What the history says before its first notice.
    pub fn new(alloc: Global, front: Front) -> Store
        ensures leaders { result.leaders ≡ map.empty }
        ensures floors { result.floors ≡ map.empty }
        ensures front { result.front ≡ front }
    {
        Store {
            leaders: Leaders::new(alloc),
            floors: Floors::new(alloc),
            front,
        }
    }

    /// The leader for the key; an `Err` is the floor of its group, where the key is below it.
    pub fn who(&self, key: &Key) -> Result<Option<Candidate>, Term>
        requires { AreOf self.now.leaders self.now.floors self.now.front.mark.notices }
        ensures { IsWho self.now.front.mark.notices key.now result }
    {
        match self.floors.floor(&key.group) {
            Some(floor) if key.term < floor => Err(floor),
            _ => Ok(self.leaders.who(key)),
        }
    }

    /// The greatest term of the group with a leader, and that leader.
    pub fn latest(&self, group: &GroupName) -> Option<(Term, Candidate)>
        requires { AreOf self.now.leaders self.now.floors self.now.front.mark.notices }
        ensures { IsLatest (leads_in self.now.front.mark.notices group.now) result }
    {
        self.leaders.latest(group)
    }

    /// The first group behind the name that has a leader, with its greatest term and that leader.
    pub fn next(&self, after: Option<GroupName>) -> Option<Decision>
        requires { AreOf self.now.leaders self.now.floors self.now.front.mark.notices }
        ensures { IsNext (leads_in self.now.front.mark.notices) after result }
    {
        self.leaders.next(after)
    }

    // Whether the key is below its group's floor.
    fn is_retired(&self, key: &Key) -> bool
        ensures { result ≡ nat_lt key.now.term (floor_of self.now.floors key.now.group) }
    {
        match self.floors.floor(&key.group) {
            Some(floor) => key.term < floor,
            None => false,
        }
    }

    // Whether the group may be given this floor: it is above the group's, and at most its latest term.
    fn may_retire(&self, group: &GroupName, floor: Term) -> bool
        ensures { result ≡ (nat_lt (floor_of self.now.floors group.now) floor && reaches self.now.leaders group.now floor) }
    {
        let is_above = match self.floors.floor(group) {
            Some(now) => now < floor,
            None => true,
        };
        is_above && self.leaders.reaches(group, floor)
    }

    // Names the leader of the key, where the key is not below its group's floor and has none. An `Err` changes nothing.
    fn decide(&mut self, decision: &Decision) -> Result<(), AllocError>
        ensures front { self.new.front ≡ self.old.front }
        ensures ok { OnOk result ((self.new.leaders, self.new.floors) ≡ taken_in (self.old.leaders, self.old.floors) (Decided decision.now)) }
        ensures err { OnErr result (state_of self.new ≡ state_of self.old) }
    {
        if self.is_retired(&decision.key) {
            return Ok(());
        }
        let key = decision.key;
        let leader = decision.leader;
        self.leaders.put(key, leader)
    }

    // Gives the group the floor and lets go of its leaders below it, where it may. An `Err` changes nothing.
    fn retire(&mut self, group: &GroupName, floor: Term) -> Result<(), AllocError>
        ensures front { self.new.front ≡ self.old.front }
        ensures ok { OnOk result ((self.new.leaders, self.new.floors) ≡ taken_in (self.old.leaders, self.old.floors) (Retired group.now floor)) }
        ensures err { OnErr result (state_of self.new ≡ state_of self.old) }
    {
        if !self.may_retire(group, floor) {
            return Ok(());
        }
        self.floors.put(*group, floor)?;
        self.leaders.drop_under(group, floor);
        Ok(())
    }

    /// Takes in the next notice. An `Err` changes nothing.
    pub fn take_in(&mut self, entry: &Entry) -> Result<(), AllocError>
        ensures ok { OnOk result (state_of self.new ≡ after (state_of self.old) entry.now) }
        ensures err { OnErr result (state_of self.new ≡ state_of self.old) }
    {
        match &entry.notice {
            Notice::Decided(decision) => self.decide(decision)?,
            Notice::Retired { group, floor } => self.retire(group, *floor)?,
        }
        self.front = entry.front.again();
        Ok(())
    }
}

impl Absorb<Entry> for Store {
    type State = (Leaders, Floors, Front);

    ghost state = { state_of };

    ghost applied = { after };

    fn absorb_first(&mut self, entry: &Entry, _other: &Store) -> Result<(), AllocError> {
        self.take_in(entry)
    }
}
