// What a node makes durable at once: a batch, or a checkpoint.
ghost use Rattle.std.specs.Prelude.{◌≡◌, ◌-◌, ◌*◌, ◌≤◌, List, true, None, length, IfOk, IfErr, OnOk, OnErr};
ghost use Rattle.disk_model.specs.Disk.{Reaches};
ghost use Rattle.ring_records.specs.declared.input.Input.{Input};
ghost use Rattle.ring_records.specs.Admission.{newest};
ghost use Rattle.ring_records.specs.Release.{packets};
ghost use Rattle.ring_records.specs.States.{durable_in, flying_in};
ghost use Rattle.gated_journal.specs.Reading.{device_size};
ghost use Rattle.group_commit.specs.Desk.{landed, seen};
ghost use Rattle.group_commit.specs.DeskCalls.{HasFlown};
ghost use Rattle.group_commit.specs.Past.{IsPast};
ghost use Rattle.node_store.specs.Node as nodes;
ghost use Rattle.ring_node.specs.Held.{reach_of, MayBegin, MayFly, launched_by};
ghost use Rattle.ring_node.specs.Node.{state_of, launched_as, made_durable};

use crate::messages::add_carried;
use crate::node::{Disk, RingNode, memory_alone};
use group_commit::{Desk, Landed};
use node_store::Node;
use ring_records::Refusal;
use std::alloc::AllocError;

/// What a node makes durable at once.
#[derive(Clone, Copy, PartialEq, Eq)]
pub enum Flight {
    /// The first inputs that wait, at most 64.
    Batch,
    /// All that it accepted, as a summary in place of what its journal holds.
    Checkpoint,
}

impl RingNode {
    // Makes this durable, where it may begin: how many inputs became so. Refused for memory, nothing has changed.
    pub(crate) fn make_durable(&mut self, flight: Flight) -> Result<u32, AllocError>
        requires free { MayBegin flight self.old.member (state_of self.old) }
        ensures next { OnOk result (self.new ≡ made_durable flight self.old) }
        ensures count { IfOk result (λ count. count ≡ (made_durable flight self.old).durable - self.old.durable) }
        ensures err { OnErr result (self.new ≡ self.old) }
    {
        let most = waiting(self.node.desk()) as usize;
        self.messages.reserve(most)?;
        match launch(&mut self.node, flight) {
            Ok(landed) => {
                add_carried(&mut self.messages, &landed.packets);
                Ok(landed.count as u32)
            }
            Err(refusal) => Err(memory_alone(refusal)),
        }
    }
}

// How many inputs of the desk are not durable yet: a thirteenth of its capacity's bytes at most, where no checkpoint flies
// and the area in use is of the newest layout.
fn waiting(desk: &Desk) -> u64
    ensures value { result ≡ length desk.now.view.state.inputs - desk.now.view.state.durable }
    ensures few { desk.now.view.state.checkpoint ≡ None → desk.now.view.state.base.layout ≡ newest → 13 * result ≤ desk.now.view.member.capacity }
{
    desk.accepted() - desk.durable()
}

// Lets this fly on the node's device, which may fail. Where nothing is objected to it, it is refused for memory, and
// nothing has changed, or the device failed, and it flies for good.
pub(crate) fn launch(node: &mut Node<Disk>, flight: Flight) -> Result<Landed, Refusal>
    requires free { MayFly flight (nodes.desk_of node.old) }
    ensures next { OnOk result (nodes.desk_of node.new ≡ record (nodes.desk_of node.old) { view = landed (launched_by flight (nodes.desk_of node.old)) }) }
    ensures count { IfOk result (λ l. l.count ≡ (launched_by flight (nodes.desk_of node.old)).state.flying - (nodes.state_of node.old).durable) }
    ensures packets { IfOk result (λ l. (past : List Input) → IsPast (nodes.member_of node.old) (nodes.desk_of node.old).opening past → l.packets.items
        ≡ packets (nodes.member_of node.old).node (durable_in (seen past (nodes.desk_of node.old)).state) (flying_in (launched_as flight (nodes.member_of node.old).node (seen past (nodes.desk_of node.old)).state))) }
    ensures failed { IfErr result (λ why. (why ≡ Refusal.OutOfMemory → ⊥) → nodes.desk_of node.new
        ≡ record (nodes.desk_of node.old) { view = record (launched_by flight (nodes.desk_of node.old)) { failed = true } }) }
    ensures same { IfErr result (λ why. why ≡ Refusal.OutOfMemory → (nodes.desk_of node.new ≡ nodes.desk_of node.old) × (nodes.device_of node.new ≡ nodes.device_of node.old)) }
    ensures in_reach { Reaches (reach_of (nodes.device_of node.old)) (device_size (nodes.member_of node.old).capacity) → IfErr result (λ why. why ≡ Refusal.OutOfMemory) }
    ensures stays { HasFlown (nodes.desk_of node.old) (nodes.desk_of node.new) }
    ensures reach { reach_of (nodes.device_of node.new) ≡ reach_of (nodes.device_of node.old) }
{
    match flight {
        Flight::Batch => node.flush_batch(),
        Flight::Checkpoint => node.checkpoint(),
    }
}
