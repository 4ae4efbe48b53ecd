// A ring of durable nodes in memory, by its events.
ghost use Rattle.std.specs.Prelude.{◌≡◌, ◌≢◌, ◌+◌, ◌≤◌, ◌<◌, ◌⊎◌, false, true, IsTrue, IfOk, IfErr, OnOk, OnErr, MatchBool, None, Some, length};
ghost use Rattle.std.specs.List.{Contains};
ghost use Rattle.ring_records.specs.declared.candidate.Candidate.{Candidate as TheCandidate};
ghost use Rattle.ring_records.specs.Emission.{sent};
ghost use Rattle.ring_records.specs.History.{taken, credit};
ghost use Rattle.ring_records.specs.Order.{is_less};
ghost use Rattle.ring_world.specs.declared.announced.Announced.{Announced as TheAnnounced};
ghost use Rattle.ring_world.specs.Announced.{announced, Stands};
ghost use Rattle.ring_audit.specs.Audits.{HasShape};
ghost use Rattle.ring_audit.specs.Placement.{lists, IsWhole};
ghost use Rattle.ring_world.specs.Capacity.{committed, state_after, all_fresh};
ghost use Rattle.ring_world.specs.CapacitySchedule.{IsSchedule};
ghost use Rattle.ring_world.specs.Dropped.{withheld};
ghost use Rattle.ring_world.specs.Histories.{histories};
ghost use Rattle.ring_world.specs.Step.{told, Steps, refusal_of};
ghost use Rattle.ring_world.specs.Worlds.{is_lasting};

use crate::announced::Announced;
use crate::event::Event;
use crate::happened::Happened;
use crate::log::Log;
use crate::outcome::Outcome;
use crate::working::Working;
use crate::{fits, laws};
use ring_records::{GREATEST_CAPACITY, Input, LEAST_CAPACITY, NodeNo, Refusal, Shown};
use std::alloc::{AllocError, Global};
use std::marker::Model;
use std::mem::replace;

/// A ring of 2 to 16 durable nodes over devices in memory, and the list of all that happened to it. It is not let go:
/// `end` ends it.
pub struct World {
    stage: Stage,
}

/// A ring works until a growth is refused within an event; then what was told is left of it.
pub enum Stage {
    Working(Working),
    Failed(Log),
}

impl Model for World {
    ghost use Rattle.ring_world.specs.Stage.{state_of};
    ghost use Rattle.ring_world.specs.State.{State};
    ghost use Rattle.ring_world.specs.Worlds.{IsWorld};

    ghost Value = { State };

    ghost view = { λ w. state_of w.stage };

    ghost invariant = { λ w. IsWorld (state_of w.stage) };
}

impl World {
    ghost use Rattle.ring_world.specs.State.{State, opened};
    ghost use Rattle.ring_world.specs.Worlds.{is_ring, by_log};

    /// A ring of n nodes in which nothing has happened. In an eager one each input is made durable as it is accepted;
    /// else it waits for a flush. Refused as 2 where n is not 2 to 16 or the capacity of each node not 4,096 to
    /// 1,048,576 bytes, and as 8.
    pub fn new(alloc: Global, n: u8, eager: bool, capacity: u32) -> Result<World, Refusal>
        ensures made { IfOk result (λ world. world ≡ opened n eager capacity) }
        ensures accepted { OnOk result (is_ring n capacity ≡ true) }
        ensures refused { IfErr result (λ refusal. MatchBool (is_ring n capacity) (refusal ≡ Refusal.OutOfMemory) (refusal ≡ Refusal.BadNumber)) }
    {
        if n < 2 || n > 16 || capacity < LEAST_CAPACITY || capacity > GREATEST_CAPACITY {
            return Err(Refusal::BadNumber);
        }
        match Working::new(alloc, n, eager, capacity) {
            Ok(ring) => Ok(World {
                stage: Stage::Working(ring),
            }),
            Err(_) => Err(Refusal::OutOfMemory),
        }
    }

    /// Ends it, and gives up its open tickets.
    pub fn end(self) {
        let World { stage } = self;
        let _log = ended(stage);
    }

    /// How many nodes it has, 2 to 16.
    pub fn size(&self) -> u8
        ensures value { result ≡ self.now.ring.size }
        ensures range { (2 ≤ result) × (result ≤ 16) }
    {
        let _ = &self.stage;
        self.log().size
    }

    // How it was made, and what happened.
    fn log(&self) -> &Log
        ensures { by_log result.now self.now.ring.failed self.now.ring.held ≡ self.now }
    {
        match &self.stage {
            Stage::Working(ring) => ring.log(),
            Stage::Failed(log) => log,
        }
    }

    /// Lets an event happen. Refused, in this order: 9 after a refused growth; 2 where there is no such node, a message
    /// is of none, or a device call is none of the event's; 21 where a packet that it brings was never released to the node; 6
    /// where 2^60 ticket numbers are taken or 2^60 events happened, or where the journal of a checkpoint's node may write
    /// no other area; 7 where the checkpoint's snapshot is longer than the capacity; 8. A refusal changes nothing, save
    /// that an 8 leaves a failed world; but not where a node of a ring that is not eager was asked.
    #[tactic(auto, unfolding(crate::specs::Step::refusal_of))]
    pub fn step(&mut self, event: Event) -> Result<Outcome, Refusal>
        ensures steps { IfOk result (λ outcome. Steps self.old event (told outcome) self.new) }
        ensures accepted { OnOk result (refusal_of self.old event ≡ None) }
        ensures refused { IfErr result (λ refusal. (refusal ≡ Refusal.OutOfMemory) ⊎ ((refusal_of self.old event ≡ Some refusal) × (self.new ≡ self.old))) }
        ensures memory_last { IfErr result (λ refusal. refusal ≡ Refusal.OutOfMemory → refusal_of self.old event ≡ None) }
        ensures memory { IfErr result (λ refusal. refusal ≡ Refusal.OutOfMemory → MatchBool (is_lasting self.old event) (self.new ≡ self.old) (self.new.ring.failed ≡ true)) }
        ensures untold { OnErr result (self.new.ring.told ≡ self.old.ring.told) }
        ensures size { (self.new.ring.size ≡ self.old.ring.size) × (self.new.ring.capacity ≡ self.old.ring.capacity) }
        ensures few { IfOk result (λ outcome. length outcome.replies.items + length outcome.lost.items ≤ self.old.tickets + 1) }
        ensures tickets { OnOk result (self.new.tickets ≤ self.old.tickets + 1) }
    {
        let nothing = Stage::Failed(Log::nothing(self.log().alloc));
        match replace(&mut self.stage, nothing) {
            Stage::Working(ring) => {
                let (after, answer) = ring.step(event);
                put(&mut self.stage, after);
                answer
            }
            Stage::Failed(log) => {
                put(&mut self.stage, Stage::Failed(log));
                Err(Refusal::Failed)
            }
        }
    }

    /// The leaders that the replies of its outcomes named, each with its node and key, in order. All that are named for
    /// one key are one: the greatest candidate that stands among the inputs that became durable. The list is the same
    /// after a refused growth.
    pub fn announced(&self) -> Result<Vec<Announced>, AllocError>
        ensures list { IfOk result (λ list. list.items ≡ announced self.now.ring.told) }
        ensures lawful { IsSchedule all_fresh self.now.ring.size self.now.ring.capacity self.now.ring.told }
        ensures same { IfOk result (λ list. (a b : TheAnnounced) → Contains list.items a → Contains list.items b → a.key ≡ b.key → a.leader ≡ b.leader) }
        ensures stands { IfOk result (λ list. (a : TheAnnounced) → Contains list.items a → Stands self.now.ring a.key a.leader) }
        ensures greatest { IfOk result (λ list. (a : TheAnnounced) (d : TheCandidate) → Contains list.items a → Stands self.now.ring a.key d → d ≢ a.leader → IsTrue (is_less d a.leader)) }
    {
        laws::headline();
        let _ = &self.stage;
        let log = self.log();
        let list = announced_in(log.alloc, &log.events)?;
        Ok(list)
    }

    /// What a node shows. Refused as 9 after a refused growth, and as 2 where there is no such node.
    pub fn show(&self, node: NodeNo) -> Result<Shown, Refusal>
        ensures inputs { IfOk result (λ shown. shown.inputs ≡ length (state_after all_fresh self.now.ring.size self.now.ring.capacity self.now.ring.events node).inputs) }
        ensures durable { IfOk result (λ shown. shown.durable ≡ (state_after all_fresh self.now.ring.size self.now.ring.capacity self.now.ring.events node).durable) }
        ensures eager { IfOk result (λ shown. self.now.ring.eager ≡ true → shown.durable ≡ shown.inputs) }
        ensures sent { IfOk result (λ shown. shown.sent ≡ length (sent node (state_after all_fresh self.now.ring.size self.now.ring.capacity self.now.ring.events node).inputs)) }
        ensures taken { IfOk result (λ shown. shown.taken ≡ length (taken (state_after all_fresh self.now.ring.size self.now.ring.capacity self.now.ring.events node).inputs)) }
        ensures credit { IfOk result (λ shown. shown.credit ≡ credit (state_after all_fresh self.now.ring.size self.now.ring.capacity self.now.ring.events node).inputs) }
        ensures failed { IfErr result (λ refusal. self.now.ring.failed ≡ true → refusal ≡ Refusal.Failed) }
        ensures outside { IfErr result (λ refusal. self.now.ring.failed ≡ false → (refusal ≡ Refusal.BadNumber) × (self.now.ring.size < node)) }
        ensures shown { OnOk result ((self.now.ring.failed ≡ false) × (node ≤ self.now.ring.size)) }
    {
        match &self.stage {
            Stage::Failed(_) => Err(Refusal::Failed),
            Stage::Working(ring) => {
                if node.number() > ring.log().size {
                    return Err(Refusal::BadNumber);
                }
                Ok(ring.shown(node))
            }
        }
    }

    /// The durable inputs of each node, in ring order: the parts of one legal run, so an audit finds one. Refused, in
    /// this order: 9 after a refused growth; 27 where a node has its first inputs no more, by the lowest such; 8.
    pub fn histories(&self) -> Result<Vec<Vec<Input>>, Refusal>
        ensures lists { IfOk result (λ hs. lists hs.items ≡ histories all_fresh self.now.ring.size self.now.ring.capacity self.now.ring.events) }
        ensures shape { IfOk result (λ hs. HasShape (lists hs.items)) }
        ensures whole { IfOk result (λ hs. IsWhole (lists hs.items) (committed all_fresh self.now.ring.size self.now.ring.capacity self.now.ring.events)) }
        ensures given { OnOk result (withheld self.now ≡ None) }
        ensures refused { IfErr result (λ why. (why ≡ Refusal.OutOfMemory) ⊎ (withheld self.now ≡ Some why)) }
        ensures memory_last { IfErr result (λ why. why ≡ Refusal.OutOfMemory → withheld self.now ≡ None) }
    {
        fits::whole_histories();
        match &self.stage {
            Stage::Failed(_) => Err(Refusal::Failed),
            Stage::Working(ring) => ring.histories(),
        }
    }
}

// Puts another stage at the place of one, which ends.
fn put(place: &mut Stage, stage: Stage)
    ensures { place.new ≡ stage }
{
    let _log = ended(replace(place, stage));
}

// Ends the nodes of a ring that works: what was told.
fn ended(stage: Stage) -> Log {
    match stage {
        Stage::Working(ring) => ring.fail(),
        Stage::Failed(log) => log,
    }
}

// The leaders that are named, in order.
fn announced_in(alloc: Global, events: &[Happened]) -> Result<Vec<Announced>, AllocError>
    ensures { IfOk result (λ list. list.items ≡ announced events.now) }
{
    let mut list = Vec::new(alloc);
    for event in events {
        if let Some(named) = event.announced() {
            list.push(named)?;
        }
    }
    Ok(list)
}
