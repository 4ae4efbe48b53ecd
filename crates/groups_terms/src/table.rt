// The ballots of one node.
ghost use Rattle.std.specs.Prelude.{◌≡◌, ◌+◌, ◌-◌, ◌<◌, ◌≤◌, ◌^◌, ℕ, false, not, if◌then◌else◌, map as list_map, Option, Some, None, IfOk, OnOk, OnErr};
ghost use Rattle.std.specs.List.{count_by, sum_by};
ghost use Rattle.std.specs.FinMap as map;
ghost use Rattle.ring_records.specs.declared.candidate.Candidate.{Candidate};
ghost use Rattle.ring_records.specs.declared.key.Key.{Key};
ghost use Rattle.ring_records.specs.declared.msg.Msg.TheVariants.{Token};
ghost use Rattle.ring_records.specs.Admission.{state_len};
ghost use Rattle.ring_records.specs.FloorOf.{is_below_floor};
ghost use Rattle.ring_records.specs.KeyOrder.{key_cmp};
ghost use Rattle.ring_records.specs.KeyStates.{keyed};
ghost use Rattle.ring_records.specs.Known.{drops, passed};
ghost use Rattle.ring_records.specs.Leader.{term_of};
ghost use Rattle.ring_records.specs.Latest.{IsLatest};
ghost use Rattle.ring_records.specs.Message.{key_of};
ghost use Rattle.ring_records.specs.Snapshot.{has_stood};
ghost use Rattle.groups_terms.specs.Dropped.{HaveTerms};
ghost use Rattle.groups_terms.specs.Table.{state_at, heard};

use crate::dropped::{bytes_under, drop_under};
use crate::floors::{Kept, count_of, floor_of, is_below, kept, list_of, put_floor};
use crate::latest::{Latest, latest_leader, make_room, note};
use cr_automaton::Ballot;
use ring_records::{
    Bid, Candidate, Floors, GroupName, Key, KeyState, KeyStates, Msg, NodeNo, Term,
};
use std::alloc::{AllocError, Global};
use std::collections::BTreeMap;
use std::marker::Model;

/// What one node knows of each key, as a finite map from key to ballot: a key that no input named has none. Beside it are
/// the floors of groups.
#[derive(Drop)]
pub struct Table {
    me: NodeNo,
    ballots: BTreeMap<Key, Ballot>,
    latest: Latest,
    stands: u32,
    floors: Kept,
}

impl Model for Table {
    ghost use Rattle.groups_terms.specs.Dropped.{HaveTerms};
    ghost use Rattle.groups_terms.specs.Floors.{told};
    ghost use Rattle.groups_terms.specs.Table.{TableView, coded_table, AreLatest};
    ghost use Rattle.std.specs.FinMap as map;

    ghost Value = { TableView };

    ghost coded = { coded_table };

    ghost view = { λ t. record { me = t.me; ballots = map.from_entries t.ballots.entries; stands = t.stands; floors = told t.floors } };

    ghost invariant = { λ t. AreLatest (map.from_entries t.ballots.entries) t.latest × HaveTerms (map.from_entries t.ballots.entries) };
}

impl Table {
    ghost use Rattle.groups_terms.specs.Table.{TableView, ballot_at, ballot_of, heard_by, passes_on, states_in, leads};

    /// The table of a node that has accepted nothing.
    pub fn new(alloc: Global, me: NodeNo) -> Table
        ensures { result ≡ record { me = me; ballots = map.empty; stands = 0; floors = map.empty } }
    {
        Table {
            me,
            ballots: BTreeMap::new(alloc),
            latest: BTreeMap::new(alloc),
            stands: 0,
            floors: BTreeMap::new(alloc),
        }
    }

    /// The ballot of the key, where an input named it.
    pub fn ballot(&self, key: &Key) -> Option<Ballot>
        ensures { result ≡ map.get self.now.ballots key.now }
    {
        self.ballots.get(key).copied()
    }

    /// The leader for the key, if one is known.
    pub fn who(&self, key: &Key) -> Option<Candidate>
        ensures { result ≡ (ballot_at self.now key.now).leader }
    {
        match self.ballot(key) {
            Some(ballot) => ballot.leader,
            None => None,
        }
    }

    /// The greatest term of the group with a known leader, and that leader.
    pub fn latest(&self, group: &GroupName) -> Option<(Term, Candidate)>
        ensures { IsLatest (leads self.now.ballots group.now) result }
    {
        latest_leader(&self.latest, group)
    }

    /// The floor of the group, if it has one.
    pub fn floor(&self, group: &GroupName) -> Option<Term>
        ensures { result ≡ map.get self.now.floors group.now }
    {
        floor_of(&self.floors, group)
    }

    /// Whether the key is below the floor of its group.
    pub fn is_below(&self, key: &Key) -> bool
        ensures { result ≡ is_below_floor self.now.floors key.now }
    {
        is_below(&self.floors, key)
    }

    /// How many groups have a floor.
    pub fn floor_count(&self) -> usize
        ensures { result ≡ map.len self.now.floors }
    {
        count_of(&self.floors)
    }

    /// How many Stands it made.
    pub fn stands(&self) -> u32
        ensures { result ≡ self.now.stands }
    {
        self.stands
    }

    /// Stands for a key for which the node has not stood: the token that it sends. An `Err` changes nothing.
    pub fn stand(&mut self, key: Key, bid: Bid) -> Result<Msg, AllocError>
        requires fresh { (ballot_at self.old key).stood ≡ None }
        requires few { self.old.stands + 1 < 2 ^ 32 }
        ensures me { self.new.me ≡ self.old.me }
        ensures token { IfOk result (λ token. token ≡ Token key (record { bid = bid; node = self.old.me })) }
        ensures one_key { OnOk result (self.new.ballots ≡ map.insert self.old.ballots key (record { stood = Some bid; leader = (ballot_at self.old key).leader })) }
        ensures stands { OnOk result (self.new.stands ≡ self.old.stands + 1) }
        ensures floors { self.new.floors ≡ self.old.floors }
        ensures err { OnErr result (self.new ≡ self.old) }
    {
        let mut ballot = self.known(&key);
        let token = ballot.stand(self.me, key, bid);
        put(&mut self.ballots, &key, &ballot)?;
        self.stands += 1;
        Ok(token)
    }

    /// Takes a message: what the node sends on, which is nothing where its key is below a floor. An `Err` changes nothing.
    pub fn hear(&mut self, msg: &Msg) -> Result<Option<Msg>, AllocError>
        ensures me { self.new.me ≡ self.old.me }
        ensures passes { IfOk result (λ on. on ≡ (if is_below_floor self.old.floors (key_of msg.now) then None else passes_on self.old msg.now)) }
        ensures one_key { OnOk result (self.new.ballots ≡ (if is_below_floor self.old.floors (key_of msg.now) then self.old.ballots else heard_by self.old msg.now)) }
        ensures stands { self.new.stands ≡ self.old.stands }
        ensures floors { self.new.floors ≡ self.old.floors }
        ensures err { OnErr result (self.new ≡ self.old) }
    {
        if self.is_below(&msg.key()) {
            return Ok(None);
        }
        self.hear_live(msg)
    }

    // Takes a message for a key that is not below a floor.
    fn hear_live(&mut self, msg: &Msg) -> Result<Option<Msg>, AllocError>
        ensures me { self.new.me ≡ self.old.me }
        ensures passes { IfOk result (λ on. on ≡ passes_on self.old msg.now) }
        ensures one_key { OnOk result (self.new.ballots ≡ heard_by self.old msg.now) }
        ensures stands { self.new.stands ≡ self.old.stands }
        ensures floors { self.new.floors ≡ self.old.floors }
        ensures err { OnErr result (self.new ≡ self.old) }
    {
        let key = msg.key();
        let mut ballot = self.known(&key);
        let before = ballot.leader;
        let on = hear(&mut ballot, self.me, msg);
        make_room(&mut self.latest, &key.group, &before, &ballot.leader)?;
        put(&mut self.ballots, &key, &ballot)?;
        note(&mut self.latest, &key, before, ballot.leader);
        Ok(on)
    }

    /// Gives the group the floor, which is at most its greatest term with a known leader, and lets go of its keys below it,
    /// with the Stands for them. An `Err` changes nothing.
    pub fn retire(&mut self, group: GroupName, floor: Term) -> Result<(), AllocError>
        requires { (led : Option (ℕ × Candidate)) → IsLatest (leads self.old.ballots group) led → floor ≤ term_of led }
        ensures me { self.new.me ≡ self.old.me }
        ensures keys { OnOk result (states_in self.new ≡ map.retain_keys (states_in self.old) (λ key. not (drops group floor key))) }
        ensures stands { OnOk result (self.new.stands ≡ self.old.stands - count_by has_stood (map.values (map.retain_keys (states_in self.old) (drops group floor)))) }
        ensures floors { OnOk result (self.new.floors ≡ map.insert self.old.floors group floor) }
        ensures err { OnErr result (self.new ≡ self.old) }
    {
        put_floor(&mut self.floors, group, floor)?;
        drop_under(&mut self.ballots, &mut self.stands, &group, floor);
        Ok(())
    }

    /// The bytes that what it knows of the group's keys below the floor takes in a snapshot: of what `retire` lets go.
    pub fn bytes_under(&self, group: &GroupName, floor: Term) -> u64
        requires { sum_by state_len (map.values (map.retain_keys (states_in self.now) (drops group.now floor))) < 2 ^ 64 }
        ensures { result ≡ sum_by state_len (map.values (map.retain_keys (states_in self.now) (drops group.now floor))) }
    {
        bytes_under(&self.ballots, group, floor)
    }

    /// What hearing the message would change, where its key is not below a floor: the key's ballot, if an input named it,
    /// that ballot then, and what the node would send on.
    pub fn would_hear(&self, msg: &Msg) -> (Option<Ballot>, Ballot, Option<Msg>)
        ensures before { result.0 ≡ map.get self.now.ballots (key_of msg.now) }
        ensures heard { result.1 ≡ heard self.now.me (ballot_at self.now (key_of msg.now)) msg.now }
        ensures passes { result.2 ≡ passes_on self.now msg.now }
    {
        let before = self.ballot(&msg.key());
        let mut ballot = match &before {
            Some(ballot) => *ballot,
            None => Ballot::new(),
        };
        let on = hear(&mut ballot, self.me, msg);
        (before, ballot, on)
    }

    /// A table that has the same ballots.
    pub fn try_copy(&self) -> Result<Table, AllocError>
        ensures { IfOk result (λ copy. copy ≡ self.now) }
    {
        Ok(Table {
            me: self.me,
            ballots: self.ballots.clone()?,
            latest: self.latest.clone()?,
            stands: self.stands,
            floors: self.floors.clone()?,
        })
    }

    /// What it knows of each key that an input named, in order of key. The error is that of the allocator.
    pub fn key_states(&self, alloc: Global) -> Result<KeyStates, AllocError>
        ensures { IfOk result (λ states. states ≡ states_in self.now) }
    {
        states_of(alloc, &self.ballots)
    }

    /// The floors, in order of group. The error is that of the allocator.
    pub fn floors(&self, alloc: Global) -> Result<Floors, AllocError>
        ensures { IfOk result (λ floors. floors ≡ self.now.floors) }
    {
        list_of(alloc, &self.floors)
    }

    /// The table of node `me`, which knows this of its keys, made so many Stands and has these floors. The error is that of
    /// the allocator.
    pub fn restore(
        alloc: Global,
        me: NodeNo,
        states: &KeyStates,
        count: u32,
        floors: &Floors,
    ) -> Result<Table, AllocError>
        ensures me { IfOk result (λ table. table.me ≡ me) }
        ensures value { IfOk result (λ table. states_in table ≡ states.now) }
        ensures count { IfOk result (λ table. table.stands ≡ count) }
        ensures floors { IfOk result (λ table. table.floors ≡ floors.now) }
    {
        let mut table = Table::new(alloc, me);
        table.stands = count;
        table.floors = kept(alloc, floors)?;
        let items = states.as_slice();
        // From the last state to the first, so that those which are put are the rest of the list.
        let mut left = items.len();
        while left > 0 {
            left -= 1;
            table.put_state(&items[left])?;
        }
        Ok(table)
    }

    // Puts what is known of a key that has no ballot.
    fn put_state(&mut self, state: &KeyState) -> Result<(), AllocError>
        requires { map.get self.old.ballots state.now.key ≡ None }
        ensures me { self.new.me ≡ self.old.me }
        ensures stands { self.new.stands ≡ self.old.stands }
        ensures floors { self.new.floors ≡ self.old.floors }
        ensures ballots { OnOk result (self.new.ballots ≡ map.insert self.old.ballots state.now.key (ballot_of state.now)) }
    {
        let key = state.key;
        let leader = state.leader;
        let ballot = Ballot {
            stood: state.stood,
            leader,
        };
        make_room(&mut self.latest, &key.group, &None, &leader)?;
        put(&mut self.ballots, &key, &ballot)?;
        note(&mut self.latest, &key, None, leader);
        Ok(())
    }

    // The ballot of the key, an empty one where no input named it.
    fn known(&self, key: &Key) -> Ballot
        ensures { result ≡ ballot_at self.now key.now }
    {
        match self.ballot(key) {
            Some(ballot) => ballot,
            None => Ballot::new(),
        }
    }
}

fn states_of(alloc: Global, ballots: &BTreeMap<Key, Ballot>) -> Result<KeyStates, AllocError>
    ensures { IfOk result (λ states. states ≡ keyed (list_map state_at ballots.now.entries)) }
{
    let mut items = Vec::with_capacity(alloc, ballots.len())?;
    for (key, ballot) in ballots {
        items.push(KeyState {
            key: *key,
            stood: ballot.stood,
            leader: ballot.leader,
        })?;
    }
    Ok(KeyStates::from_sorted(items))
}

fn put(ballots: &mut BTreeMap<Key, Ballot>, key: &Key, ballot: &Ballot) -> Result<(), AllocError>
    ensures ok { OnOk result (map.from_entries {R = key_cmp} ballots.new.entries ≡ map.insert (map.from_entries ballots.old.entries) key.now ballot.now) }
    ensures terms { OnOk result (HaveTerms (map.from_entries ballots.old.entries) → HaveTerms (map.from_entries ballots.new.entries)) }
    ensures err { OnErr result (ballots.new.entries ≡ ballots.old.entries) }
{
    // The number that is read is known to be in its range, which `retire` looks through.
    let _number = key.term.number();
    let stood: Option<Bid> = ballot.stood;
    let leader: Option<Candidate> = ballot.leader;
    ballots.insert(*key, Ballot { stood, leader })?;
    Ok(())
}

fn hear(ballot: &mut Ballot, me: NodeNo, msg: &Msg) -> Option<Msg>
    ensures leader { (c : Candidate) → ballot.old.leader ≡ Some c → ballot.new.leader ≡ Some c }
    ensures passes { result ≡ passed me ballot.old.stood ballot.old.leader msg.now }
    ensures heard { ballot.new ≡ heard me ballot.old msg.now }
{
    match msg {
        Msg::Token { key, candidate } => ballot.hear_token(me, *key, *candidate),
        Msg::Elected { key, candidate } => ballot.hear_elected(me, *key, *candidate),
    }
}
