// A node by what it knows, whatever its journal has room for.
ghost use Rattle.std.specs.Prelude.{◌≡◌, ◌≤◌, ◌<◌, ◌^◌, ℕ, ◌+◌, length, is_some, IfOk, OnOk, OnErr};
ghost use Rattle.std.specs.List.{sum_by};
ghost use Rattle.std.specs.Option.{option_map};
ghost use Rattle.ring_records.specs.Admission.{state_len};
ghost use Rattle.ring_records.specs.FloorOf.{is_below_floor};
ghost use Rattle.ring_records.specs.Known.{Objects, drops, heard, stepped, known_of, leader_of, leads_in, passed, stood_of};
ghost use Rattle.ring_records.specs.Latest.{IsLatest};
ghost use Rattle.ring_records.specs.Message.{key_of};
ghost use Rattle.ring_records.specs.Snapshot.{IsSound};
ghost use Rattle.ring_records.specs.Summary.{empty};
ghost use Rattle.groups_terms.specs.Table.{state_at};
ghost use Rattle.node_core.specs.Brought.{brought, who_by};
ghost use Rattle.std.specs.FinMap as map;
ghost use Rattle.node_core.specs.Core.{IsNodeOf};

use crate::accept::accept;
use crate::effects::Effects;
use crate::judge::{against_acked, against_retire, against_stand, against_take};
use crate::ranges::look_at;
use cr_automaton::Ballot;
use groups_terms::Table;
use neighbour_link::{Inlink, Outlink};
use ring_records::{
    Candidate, GroupName, Input, Key, KeyState, Messages, Msg, NodeNo, Refusal, Summary, Term,
};
use std::alloc::{AllocError, Global};
use std::marker::Model;

/// A node of a ring, with no bound on the bytes of its journal: its ballots, its two links and a count, in place of
/// the history of its accepted inputs. It is seen as what it knows of them, which may be that of no history.
#[derive(Drop)]
pub struct FreeCore {
    size: u8,
    table: Table,
    outlink: Outlink,
    inlink: Inlink,
    // How many inputs it accepted.
    inputs: u64,
}

impl Model for FreeCore {
    ghost use Rattle.node_core.specs.Codes.{coded_free};
    ghost use Rattle.node_core.specs.FreeCore.{FreeView};
    ghost use Rattle.node_core.specs.Kept.{known_with, IsCounted};

    ghost Value = { FreeView };

    ghost coded = { coded_free };

    ghost view = { λ c. record { me = c.table.me; size = c.size; known = known_with c.inputs c.table c.outlink.link c.inlink } };

    ghost invariant = { λ c. IsCounted c.table.me c.size (known_with c.inputs c.table c.outlink.link c.inlink) };
}

impl FreeCore {
    /// Node `node` of a ring of `n` nodes, that has accepted nothing.
    pub fn new(alloc: Global, node: NodeNo, n: u8) -> FreeCore
        ensures { result ≡ record { me = node; size = n; known = empty } }
    {
        FreeCore {
            size: n,
            table: Table::new(alloc, node),
            outlink: Outlink::new(alloc),
            inlink: Inlink::new(),
            inputs: 0,
        }
    }

    /// Node `node` of a ring of `n` nodes, that knows this. The caller sees that it is sound. The error is that of the
    /// allocator.
    pub fn restore(
        alloc: Global,
        node: NodeNo,
        n: u8,
        from: &Summary,
    ) -> Result<FreeCore, AllocError>
        requires { IsSound n from.now }
        ensures { IfOk result (λ core. core ≡ record { me = node; size = n; known = from.now }) }
    {
        Ok(FreeCore {
            size: n,
            table: Table::restore(alloc, node, &from.keys, from.stands as u32, &from.floors)?,
            outlink: Outlink::restore(alloc, from.sent, from.window.as_slice())?,
            inlink: Inlink::restore(from.taken),
            inputs: from.inputs,
        })
    }

    /// What it knows. The error is that of the allocator.
    pub fn summary(&self, alloc: Global) -> Result<Summary, AllocError>
        ensures value { IfOk result (λ given. given ≡ self.now.known) }
        ensures sound { OnOk result (IsNodeOf self.now.size self.now.me → IsSound self.now.size self.now.known) }
    {
        Ok(Summary {
            inputs: self.inputs,
            taken: self.inlink.expected(),
            credit: self.outlink.credited(),
            sent: self.outlink.sent(),
            stands: self.table.stands() as u16,
            keys: self.table.key_states(alloc)?,
            window: Messages::from_slice(alloc, self.outlink.window())?,
            floors: self.table.floors(alloc)?,
        })
    }

    /// What is said against the input: the first cause that there is, as `NodeCore::admit` has them, the capacity aside.
    pub fn objection(&self, input: &Input) -> Option<Refusal>
        ensures { Objects self.now.size self.now.known input.now result }
    {
        match input {
            Input::Stand { key, .. } => self.stand_objection(key),
            Input::Take { no, msg } => against_take(self.size, &self.inlink, self.inputs, *no, msg),
            Input::Acked { upto } => against_acked(&self.outlink, self.inputs, *upto),
            Input::Retire { group, floor } => self.retire_objection(group, *floor),
        }
    }

    /// Accepts an input to which `objection` has nothing: what it brings. An `Err` changes nothing.
    pub fn apply(&mut self, input: Input) -> Result<Effects, AllocError>
        requires { Objects self.old.size self.old.known input None }
        ensures steps { OnOk result (self.new ≡ record self.old { known = stepped self.old.me self.old.known input }) }
        ensures brings { IfOk result (λ effects. effects ≡ brought self.old.me self.old.known input) }
        ensures err { OnErr result (self.new ≡ self.old) }
    {
        look_at(&input);
        self.outlink.reserve(1)?;
        let effects = accept(&mut self.table, &mut self.outlink, &mut self.inlink, input)?;
        self.inputs += 1;
        Ok(effects)
    }

    /// A core that knows the same.
    pub fn try_copy(&self) -> Result<FreeCore, AllocError>
        ensures { IfOk result (λ copy. copy ≡ self.now) }
    {
        Ok(FreeCore {
            size: self.size,
            table: self.table.try_copy()?,
            outlink: self.outlink.try_copy()?,
            inlink: self.inlink,
            inputs: self.inputs,
        })
    }
}

impl FreeCore {
    /// What it knows of the key, where an input named it.
    pub fn state(&self, key: &Key) -> Option<KeyState>
        ensures { result ≡ known_of self.now.known key.now }
    {
        state_by(key, &self.table.ballot(key))
    }

    /// What hearing the message would change, where its key is not below a floor: what it knows of the key, what it would
    /// know of it then, and what it would send on.
    pub fn would_hear(&self, msg: &Msg) -> (Option<KeyState>, KeyState, Option<Msg>)
        ensures before { result.0 ≡ known_of self.now.known (key_of msg.now) }
        ensures heard { result.1 ≡ heard self.now.me self.now.known msg.now }
        ensures passes { result.2 ≡ passed self.now.me (stood_of (known_of self.now.known (key_of msg.now))) (leader_of (known_of self.now.known (key_of msg.now))) msg.now }
    {
        let key = msg.key();
        let (before, heard, on) = self.table.would_hear(msg);
        (state_by(&key, &before), state_of(&key, &heard), on)
    }

    /// Whether the group has a floor.
    pub fn has_floor(&self, group: &GroupName) -> bool
        ensures { result ≡ is_some (map.get self.now.known.floors group.now) }
    {
        self.table.floor(group).is_some()
    }

    /// Whether the key is below the floor of its group.
    pub fn is_below(&self, key: &Key) -> bool
        ensures { result ≡ is_below_floor self.now.known.floors key.now }
    {
        self.table.is_below(key)
    }

    /// The bytes that what it knows of the group's keys below the floor takes in a snapshot.
    pub fn bytes_under(&self, group: &GroupName, floor: Term) -> u64
        requires { sum_by state_len (map.values (map.retain_keys self.now.known.keys (drops group.now floor))) < 2 ^ 64 }
        ensures { result ≡ sum_by state_len (map.values (map.retain_keys self.now.known.keys (drops group.now floor))) }
    {
        self.table.bytes_under(group, floor)
    }

    /// The leader for the key, if one is known. Refused as 23 with the floor of its group where the key is below it.
    pub fn who(&self, key: &Key) -> Result<Option<Candidate>, Refusal>
        ensures { result ≡ who_by self.now.known key.now }
    {
        if let Some(floor) = self.table.floor(&key.group) {
            if key.term < floor {
                return Err(Refusal::Retired(floor));
            }
        }
        Ok(self.table.who(key))
    }

    /// The greatest term of the group with a known leader, and that leader.
    pub fn latest(&self, group: &GroupName) -> Option<(Term, Candidate)>
        ensures { IsLatest (leads_in self.now.known group.now) result }
    {
        self.table.latest(group)
    }

    /// How many inputs it accepted, at most 2^56.
    pub fn inputs(&self) -> u64
        ensures { result ≡ self.now.known.inputs }
    {
        self.inputs
    }

    /// How many messages it sent, no more than it accepted inputs.
    pub fn sent(&self) -> u64
        ensures value { result ≡ self.now.known.sent }
        ensures few { result ≤ self.now.known.inputs }
    {
        self.outlink.sent()
    }

    /// How many messages it took, which is the number that it expects.
    pub fn taken(&self) -> u64
        ensures { result ≡ self.now.known.taken }
    {
        self.inlink.expected()
    }

    /// How many of its messages its successor is known to have taken.
    pub fn credit(&self) -> u64
        ensures { result ≡ self.now.known.credit }
    {
        self.outlink.credited()
    }

    /// The messages sent and not credited, oldest first.
    pub fn window(&self) -> &[Msg]
        ensures value { result.now ≡ self.now.known.window }
        ensures count { self.now.known.sent ≡ self.now.known.credit + length result.now }
    {
        self.outlink.window()
    }

    /// How many groups have a floor.
    pub fn floor_count(&self) -> usize
        ensures { result ≡ map.len self.now.known.floors }
    {
        self.table.floor_count()
    }

    /// How many Stands it made.
    pub fn stands(&self) -> u32
        ensures { result ≡ self.now.known.stands }
    {
        self.table.stands()
    }

    fn stand_objection(&self, key: &Key) -> Option<Refusal>
        ensures { (n bid : ℕ) → Objects n self.now.known (Input.Stand key.now bid) result }
    {
        against_stand(
            self.table.floor(&key.group),
            key.term,
            self.table.ballot(key),
            self.table.latest(&key.group),
            self.table.stands(),
            self.inputs,
        )
    }

    fn retire_objection(&self, group: &GroupName, floor: Term) -> Option<Refusal>
        ensures { (n : ℕ) → Objects n self.now.known (Input.Retire group.now floor) result }
    {
        // The number that is read is known to be 1 at least, which is no floor of a group without one.
        let _number = floor.number();
        against_retire(
            self.table.floor(group),
            floor,
            self.table.latest(group),
            self.inputs,
        )
    }
}

// What the ballot says of the key.
fn state_of(key: &Key, ballot: &Ballot) -> KeyState
    ensures { result ≡ state_at (key.now, ballot.now) }
{
    KeyState {
        key: *key,
        stood: ballot.stood,
        leader: ballot.leader,
    }
}

// What it says of the key, if there is one.
fn state_by(key: &Key, ballot: &Option<Ballot>) -> Option<KeyState>
    ensures { result ≡ option_map (λ b. state_at (key.now, b)) ballot.now }
{
    match ballot {
        Some(ballot) => Some(state_of(key, ballot)),
        None => None,
    }
}
