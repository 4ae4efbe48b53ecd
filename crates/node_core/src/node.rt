// A node by what it knows, with the capacity of its journal.
ghost use Rattle.std.specs.Prelude.{◌≡◌, ◌+◌, ◌<◌, ◌≤◌, ◌^◌, List, [], ◌∷◌, ◌++◌, false, nat_lt, ◌&&◌, None, IfOk, OnOk, OnErr};
ghost use Rattle.std.specs.FinMap as map;
ghost use Rattle.std.specs.Result.{result_err};
ghost use Rattle.ring_records.specs.declared.base.Base.{Base};
ghost use Rattle.ring_records.specs.declared.input.Input.{Input};
ghost use Rattle.ring_records.specs.Admission.{fresh, must_renew, newest, no_area, no_room, snapshot_len};
ghost use Rattle.ring_records.specs.Answering.{refusal};
ghost use Rattle.ring_records.specs.declared.limits.TheConstants.{INPUT_BYTES};
ghost use Rattle.ring_records.specs.Known.{Objects, stepped, leads_in};
ghost use Rattle.ring_records.specs.Latest.{IsLatest};
ghost use Rattle.ring_records.specs.Snapshot.{IsSound};
ghost use Rattle.ring_records.specs.Summary as summed;
ghost use Rattle.node_core.specs.Brought.{brought, who_by};
ghost use Rattle.node_core.specs.Core.{IsNodeOf, Refuses};
ghost use Rattle.node_core.specs.FreeCore.{CoreStandsFor, taking};

use crate::effects::Effects;
use crate::free::FreeCore;
use ring_records::{
    Candidate, EPOCHS, GroupName, Input, Key, LAYOUT, Msg, NodeNo, Refusal, Room, Summary, Term,
    summary_len,
};
use std::alloc::{AllocError, Global};
use std::marker::Model;

/// A node of a ring with the capacity of its journal: what it knows of its accepted inputs, in place of their history.
#[derive(Drop)]
pub struct NodeCore {
    core: FreeCore,
    capacity: u32,
    room: Room,
    // The length of the snapshot of what it knows.
    snapshot: u64,
}

impl Model for NodeCore {
    ghost use Rattle.node_core.specs.Codes.{coded_core};
    ghost use Rattle.node_core.specs.Core.{CoreView};
    ghost use Rattle.node_core.specs.Kept.{IsMeasured};

    ghost Value = { CoreView };

    ghost coded = { coded_core };

    ghost view = { λ c. record { me = c.core.me; size = c.core.size; capacity = c.capacity; known = c.core.known; room = c.room } };

    ghost invariant = { λ c. IsMeasured c.core.known c.snapshot c.room };
}

impl NodeCore {
    /// Node `node` of a ring of `n` nodes, with a capacity in bytes, that has accepted nothing. The snapshot of that takes
    /// 42 of them.
    pub fn new(alloc: Global, node: NodeNo, n: u8, capacity: u32) -> NodeCore
        ensures me { result.me ≡ node }
        ensures ring { result.size ≡ n }
        ensures capacity { result.capacity ≡ capacity }
        ensures value { (result.known ≡ summed.empty) × (result.room ≡ record { layout = newest; epoch = 1; taken = 42; waits = false }) }
        ensures empty { CoreStandsFor result fresh [] }
    {
        NodeCore {
            core: FreeCore::new(alloc, node, n),
            capacity,
            room: Room {
                layout: LAYOUT,
                epoch: 1,
                taken: 42,
                waits: false,
            },
            snapshot: 42,
        }
    }

    /// Node `node` of a ring of `n` nodes, with a capacity in bytes and this room, that knows this. The caller sees that it
    /// is sound, and that less than 2^63 + 2^62 bytes are taken. The error is that of the allocator.
    pub fn restore(
        alloc: Global,
        node: NodeNo,
        n: u8,
        capacity: u32,
        room: Room,
        from: &Summary,
    ) -> Result<NodeCore, AllocError>
        requires sound { IsSound n from.now }
        requires taken { room.taken < 2 ^ 63 + 2 ^ 62 }
        requires floors { map.len from.now.floors < 2 ^ 32 }
        ensures { IfOk result (λ core. core ≡ record { me = node; size = n; capacity = capacity; known = from.now; room = room }) }
    {
        let core = FreeCore::restore(alloc, node, n, from)?;
        Ok(NodeCore {
            core,
            capacity,
            room,
            snapshot: summary_len(from, LAYOUT),
        })
    }

    /// What it knows. The error is that of the allocator.
    pub fn summary(&self, alloc: Global) -> Result<Summary, AllocError>
        ensures value { IfOk result (λ given. given ≡ self.now.known) }
        ensures sound { OnOk result (IsNodeOf self.now.size self.now.me → IsSound self.now.size self.now.known) }
    {
        self.core.summary(alloc)
    }

    /// The length of the snapshot of what it knows in the newest layout, in bytes.
    pub fn summary_len(&self) -> u64
        ensures { result ≡ snapshot_len newest self.now.known }
    {
        self.snapshot
    }

    /// From now on an area of this number stands for all that it knows, and its snapshot takes the bytes of the capacity.
    pub fn rebase(&mut self, epoch: u64)
        ensures { self.new ≡ record self.old { room = record { layout = newest; epoch = epoch; taken = snapshot_len newest self.old.known; waits = false } } }
    {
        self.room = Room {
            layout: LAYOUT,
            epoch,
            taken: self.snapshot,
            waits: false,
        };
    }

    /// Whether the input may be accepted now. Refused by the first cause that there is: a Stand as 3 where the node
    /// stood for the key, 4 where it only relayed, 5 where a greater term of the group has a leader, 6 at 1,024
    /// Stands; a Take as 2 where its candidate's node is above n, 13 where its number is not the next; an Acked as 13
    /// where it is not above the credit, 14 where it is above the count sent; a Retire as 23 where its floor is not above
    /// the group's, 26 where it is above the group's latest term with a leader; each as 6 at 2^56 inputs, and as 7 where
    /// its cost does not fit the capacity. In place of that rule, where the area in use is of an earlier layout, a Retire
    /// and each input behind one are refused as 6 where no further area may be written, and as 7 where the snapshot behind
    /// the input is longer than the capacity.
    pub fn admit(&self, input: &Input) -> Result<(), Refusal>
        ensures value { Refuses self.now input.now (result_err result) }
        ensures known { (base : Base) (h : List Input) → CoreStandsFor self.now base h → result_err result ≡ refusal self.now.me self.now.size self.now.capacity base h input.now }
    {
        if let Some(refusal) = self.core.objection(input) {
            return Err(refusal);
        }
        match self.no_room(input) {
            Some(refusal) => Err(refusal),
            None => Ok(()),
        }
    }

    /// Accepts an input that `admit` answers Ok of: what it brings. An `Err` changes nothing.
    pub fn apply(&mut self, input: Input) -> Result<Effects, AllocError>
        requires { Refuses self.old input None }
        ensures steps { OnOk result (self.new ≡ record self.old { known = stepped self.old.me self.old.known input; room = taking input self.old.room }) }
        ensures brings { IfOk result (λ effects. effects ≡ brought self.old.me self.old.known input) }
        ensures me { self.new.me ≡ self.old.me }
        ensures ring { self.new.size ≡ self.old.size }
        ensures capacity { self.new.capacity ≡ self.old.capacity }
        ensures stands { OnOk result ((base : Base) (h : List Input) → CoreStandsFor self.old base h → CoreStandsFor self.new base (h ++ input ∷ [])) }
        ensures err { OnErr result (self.new ≡ self.old) }
    {
        let room = room_behind(&self.room, &input);
        let snapshot = self.core.len_after(self.snapshot, &input);
        let effects = self.core.apply(input)?;
        self.snapshot = snapshot;
        self.room = room;
        Ok(effects)
    }

    /// A core that knows the same, with the same capacity.
    pub fn try_copy(&self) -> Result<NodeCore, AllocError>
        ensures { IfOk result (λ copy. copy ≡ self.now) }
    {
        Ok(NodeCore {
            core: self.core.try_copy()?,
            capacity: self.capacity,
            room: self.room,
            snapshot: self.snapshot,
        })
    }

    // What room says against an input against which nothing is known.
    fn no_room(&self, input: &Input) -> Option<Refusal>
        requires { Objects self.now.size self.now.known input.now None }
        ensures { result ≡ no_room self.now.capacity self.now.room input.now (snapshot_len newest (stepped self.now.me self.now.known input.now)) }
    {
        if self.must_renew(input) {
            return self.no_area(self.core.len_after(self.snapshot, input));
        }
        if self.is_short(input.cost()) {
            return Some(Refusal::Full);
        }
        None
    }

    // Whether the input becomes durable by a checkpoint alone.
    fn must_renew(&self, input: &Input) -> bool
        ensures { result ≡ must_renew self.now.room input.now }
    {
        self.room.layout < LAYOUT && (self.room.waits || input.is_retire())
    }

    // Why no further area may be written, whose snapshot has so many bytes.
    fn no_area(&self, renewed: u64) -> Option<Refusal>
        ensures { result ≡ no_area self.now.capacity self.now.room renewed }
    {
        if self.room.epoch >= EPOCHS - 1 {
            return Some(Refusal::Limit);
        }
        if renewed > u64::from(self.capacity) {
            return Some(Refusal::Full);
        }
        None
    }

    // Whether so many bytes more do not fit the capacity.
    fn is_short(&self, cost: u32) -> bool
        ensures { result ≡ nat_lt self.now.capacity (self.now.room.taken + cost) }
    {
        let capacity = self.capacity as u64;
        self.room.taken > capacity || cost as u64 > capacity - self.room.taken
    }
}

impl NodeCore {
    /// The leader for the key, if one is known. Refused as 23 with the floor of its group where the key is below it.
    pub fn who(&self, key: &Key) -> Result<Option<Candidate>, Refusal>
        ensures { result ≡ who_by self.now.known key.now }
    {
        self.core.who(key)
    }

    /// The greatest term of the group with a known leader, and that leader.
    pub fn latest(&self, group: &GroupName) -> Option<(Term, Candidate)>
        ensures { IsLatest (leads_in self.now.known group.now) result }
    {
        self.core.latest(group)
    }

    /// How many inputs it accepted, at most 2^56.
    pub fn inputs(&self) -> u64
        ensures { result ≡ self.now.known.inputs }
    {
        self.core.inputs()
    }

    /// The bytes of the capacity that are taken.
    pub fn used(&self) -> u64
        ensures { result ≡ self.now.room.taken }
    {
        self.room.taken
    }

    /// Whether an input waits which only an area of the newest layout may hold, and the area in use is of an earlier one.
    pub fn needs_area(&self) -> bool
        ensures { result ≡ (nat_lt self.now.room.layout newest && self.now.room.waits) }
    {
        self.room.layout < LAYOUT && self.room.waits
    }

    /// How many messages it sent.
    pub fn sent(&self) -> u64
        ensures { result ≡ self.now.known.sent }
    {
        self.core.sent()
    }

    /// How many messages it took, which is the number that it expects.
    pub fn taken(&self) -> u64
        ensures { result ≡ self.now.known.taken }
    {
        self.core.taken()
    }

    /// How many of its messages its successor is known to have taken.
    pub fn credit(&self) -> u64
        ensures { result ≡ self.now.known.credit }
    {
        self.core.credit()
    }

    /// The messages sent and not credited, oldest first.
    pub fn window(&self) -> &[Msg]
        ensures { result.now ≡ self.now.known.window }
    {
        self.core.window()
    }

    /// How many groups have a floor.
    pub fn floor_count(&self) -> usize
        ensures { result ≡ map.len self.now.known.floors }
    {
        self.core.floor_count()
    }

    /// How many Stands it made.
    pub fn stands(&self) -> u32
        ensures { result ≡ self.now.known.stands }
    {
        self.core.stands()
    }
}

// What room is told from behind one input more.
fn room_behind(room: &Room, input: &Input) -> Room
    requires { room.now.taken + INPUT_BYTES < 2 ^ 64 }
    ensures value { result ≡ taking input.now room.now }
    ensures range { result.taken ≤ room.now.taken + INPUT_BYTES }
{
    Room {
        layout: room.layout,
        epoch: room.epoch,
        taken: room.taken + u64::from(input.cost()),
        waits: room.waits || input.is_retire(),
    }
}
