// A node that loses its memory, and is opened again from its device.
ghost use Rattle.gated_journal.specs.Reading.{device_size};
ghost use Rattle.std.specs.Prelude.{◌≡◌, ◌+◌, ◌≤◌, ◌<◌, ◌++◌, ◌||◌, ℕ, nat_lt, List, length, Bool, true, None, take, IfOk};
ghost use Rattle.std.specs.List.{filter_map};
ghost use Rattle.disk_model.specs.Disk.{Reaches};
ghost use Rattle.disk_model.specs.FuseDevice.{inner_of};
ghost use Rattle.disk_model.specs.MemDevice.{disk_of, limit_of};
ghost use Rattle.ring_records.specs.declared.input.Input.{Input};
ghost use Rattle.ring_records.specs.States.{NodeState, opened, left_by};
ghost use Rattle.ring_records.specs.Lawful.{IsLawfulState};
ghost use Rattle.ring_records.specs.Emission.{sent};
ghost use Rattle.ring_records.specs.History.{credit};
ghost use Rattle.ring_records.specs.Member.{member};
ghost use Rattle.group_commit.specs.Desk.{seen};
ghost use Rattle.group_commit.specs.Past.{IsPast};
ghost use Rattle.node_store.specs.Node as nodes;
ghost use Rattle.node_store.specs.State.{Holds, IsOpenedAs};
ghost use Rattle.ring_node.specs.Held.{reach_of, AreHeld, MayFly, MayStop};
ghost use Rattle.ring_node.specs.Node.{state_of, durable_in, launched_as, reopened as reopened_in, left, is_credited};
ghost use Rattle.ring_node.specs.Refusals.{checkpoint_refusal};
ghost use Rattle.ring_node.specs.Open.{serial_of};

use crate::flight::{Flight, launch};
use crate::held::{Held, closed, serials_in};
use crate::messages::add_carried;
use crate::node::{Disk, RingNode, memory_alone};
use disk_model::{FuseDevice, MemDevice, Tear};
use group_commit::Desk;
use node_store::Node;
use ring_records::{Input, Msg, NodeNo, Refusal};
use std::alloc::{AllocError, Global};
use std::collections::VecDeque;

impl RingNode {
    /// It loses its memory and is opened again from its device: the node, and the numbers of the tickets that were
    /// open, in order. Refused for memory, there is no node any more.
    pub fn crash(self) -> Result<(RingNode, Vec<u64>), AllocError>
        ensures next { IfOk result (λ r. r.0 ≡ reopened_in (opened self.base (durable_in self)) self) }
        ensures lost { IfOk result (λ r. r.1.items ≡ filter_map serial_of self.held) }
    {
        let RingNode {
            alloc,
            me,
            n,
            capacity,
            runs,
            node,
            past,
            held,
            messages,
        } = self;
        let lost = serials_in(alloc, &held);
        let past = joined(past, &node);
        let device = closed(node, held);
        let lost = lost?;
        let past = past?;
        let runs = runs.wrapping_add(1);
        let node = reopened(alloc, device, me, n, capacity, runs)?;
        let past = summarised(past, &node);
        let held = VecDeque::new(alloc);
        let again = RingNode {
            alloc,
            me,
            n,
            capacity,
            runs,
            node,
            past,
            held,
            messages,
        };
        Ok((again, lost))
    }

    /// It is stopped at a device call of a flush, 1 to 4, with the device left by the tear, and is opened again: the
    /// node, whether it holds the batch then, and the numbers of the tickets that were open, in order. An input waits,
    /// so that the flush calls the device, and no more messages are credited than its durable inputs sent. Refused for
    /// memory, there is no node any more.
    pub fn stop(self, call: u64, tear: Tear) -> Result<(RingNode, bool, Vec<u64>), AllocError>
        requires credited { is_credited self ≡ true }
        requires waits { self.durable < length self.inputs }
        ensures next { IfOk result (λ r. r.0 ≡ reopened_in (left Flight.Batch r.1 self) self) }
        ensures lost { IfOk result (λ r. r.2.items ≡ filter_map serial_of self.held) }
    {
        self.stop_within(Flight::Batch, call, tear)
    }

    /// It is stopped at a device call of a checkpoint, 1 to 6, with the device left by the tear, and is opened again: the
    /// node, whether it holds the summary of all inputs then, and the numbers of the tickets that were open, in order.
    /// Nothing is objected to the checkpoint, and no more messages are credited than its durable inputs sent. Refused for
    /// memory, there is no node any more.
    pub fn stop_checkpoint(
        self,
        call: u64,
        tear: Tear,
    ) -> Result<(RingNode, bool, Vec<u64>), AllocError>
        requires credited { is_credited self ≡ true }
        requires free { checkpoint_refusal self.member (state_of self) ≡ None }
        ensures next { IfOk result (λ r. r.0 ≡ reopened_in (left Flight.Checkpoint r.1 self) self) }
        ensures lost { IfOk result (λ r. r.2.items ≡ filter_map serial_of self.held) }
    {
        self.stop_within(Flight::Checkpoint, call, tear)
    }

    // It is stopped at a device call while this flies, with the device left by the tear, and is opened again.
    fn stop_within(
        self,
        flight: Flight,
        call: u64,
        tear: Tear,
    ) -> Result<(RingNode, bool, Vec<u64>), AllocError>
        requires credited { is_credited self ≡ true }
        requires free { MayStop flight self }
        ensures next { IfOk result (λ r. r.0 ≡ reopened_in (left flight r.1 self) self) }
        ensures lost { IfOk result (λ r. r.2.items ≡ filter_map serial_of self.held) }
    {
        let RingNode {
            alloc,
            me,
            n,
            capacity,
            runs,
            node,
            past,
            held,
            messages,
        } = self;
        let (durable, epoch) = (node.durable(), node.epoch());
        let lost = serials_in(alloc, &held);
        let past = joined(past, &node);
        let device = stopped(node, held, flight, call, tear)?;
        let lost = lost?;
        let past = past?;
        let runs = runs.wrapping_add(1);
        let node = reopened(alloc, device, me, n, capacity, runs)?;
        let past = summarised(past, &node);
        let keeps = has_gained(&node, durable, epoch);
        let messages = caught_up(messages, node.desk(), &past)?;
        let again = RingNode {
            alloc,
            me,
            n,
            capacity,
            runs,
            node,
            past,
            held: VecDeque::new(alloc),
            messages,
        };
        Ok((again, keeps, lost))
    }
}

// Stops the node at a device call while this flies, gives up its open tickets, and tears its device. Refused where no
// call was made, for want of memory.
fn stopped(
    mut node: Node<Disk>,
    held: VecDeque<Held>,
    flight: Flight,
    call: u64,
    tear: Tear,
) -> Result<MemDevice, AllocError>
    requires free { MayFly flight (nodes.desk_of node) }
    requires held { (from top : ℕ) × AreHeld (nodes.member_of node).node (nodes.desk_of node).view.run from top (nodes.desk_of node).view.tickets held.items }
    ensures holds { IfOk result (λ device. (past : List Input) → IsPast (nodes.member_of node) (nodes.desk_of node).opening past
        → IsLawfulState (nodes.member_of node) (seen past (nodes.desk_of node)).state
        → Holds (nodes.member_of node) (disk_of device) (launched_as flight (nodes.member_of node).node (seen past (nodes.desk_of node)).state)) }
    ensures limit { IfOk result (λ device. limit_of device ≡ limit_of (inner_of (nodes.device_of node))) }
{
    node.arm(call.saturating_sub(1), false);
    let flown = launch(&mut node, flight);
    let mut device = closed(node, held);
    device.crash(tear);
    match flown {
        Ok(_landed) => Ok(device),
        Err(refusal) => match refusal {
            Refusal::OutOfMemory => Err(AllocError),
            _ => Ok(device),
        },
    }
}

// Whether more of its inputs are durable than so many, or another area is in use than that of this epoch.
fn has_gained(node: &Node<Disk>, durable: u64, epoch: u64) -> bool
    ensures { result ≡ nat_lt durable ((nodes.desk_of node.now).opening.inputs + (nodes.state_of node.now).durable) || nat_lt epoch (nodes.state_of node.now).base.epoch }
{
    durable < node.durable() || epoch < node.epoch()
}

// Opens the node that the device holds.
pub(crate) fn reopened(
    alloc: Global,
    device: MemDevice,
    me: NodeNo,
    n: u8,
    capacity: u32,
    run: u64,
) -> Result<Node<Disk>, AllocError>
    requires in_ring { me ≤ n }
    requires long { device_size capacity ≤ limit_of device }
    requires holds { (s : NodeState) × IsLawfulState (member me n capacity) s × Holds (member me n capacity) (disk_of device) s }
    ensures desk { IfOk result (λ node. (s : NodeState) → IsLawfulState (member me n capacity) s → Holds (member me n capacity) (disk_of device) s
        → (keep : Bool) × IsOpenedAs (member me n capacity) run (left_by keep s) (nodes.desk_of node)) }
    ensures reaches { IfOk result (λ node. Reaches (reach_of (nodes.device_of node)) (device_size capacity)) }
{
    match Node::recover(alloc, FuseDevice::idle(device), me, n, run) {
        Ok(node) => Ok(node),
        Err((_device, refusal)) => Err(memory_alone(refusal)),
    }
}

// The inputs of the past, and those since of the node.
pub(crate) fn joined(mut past: Vec<Input>, node: &Node<Disk>) -> Result<Vec<Input>, AllocError>
    ensures { IfOk result (λ all. all.items ≡ past.items ++ (nodes.state_of node.now).inputs) }
{
    past.extend_from_slice(node.history())?;
    Ok(past)
}

// The first of these inputs, as many as the node's opening stands for.
pub(crate) fn summarised(mut all: Vec<Input>, node: &Node<Disk>) -> Vec<Input>
    ensures { result.items ≡ take (nodes.desk_of node.now).opening.inputs all.items }
{
    all.truncate(node.desk().first() as usize);
    all
}

// The messages that the first inputs of the desk's whole history sent, behind its past, and those that the others sent. All
// its inputs are durable.
pub(crate) fn caught_up(
    mut messages: Vec<Msg>,
    desk: &Desk,
    past: &Vec<Input>,
) -> Result<Vec<Msg>, AllocError>
    requires behind { IsPast desk.now.view.member desk.now.opening past.now.items }
    requires durable { (seen past.now.items desk.now).state.durable ≡ length (seen past.now.items desk.now).state.inputs }
    requires sent { (k : ℕ) × (messages.items ≡ sent desk.now.view.member.node (take k (seen past.now.items desk.now).state.inputs)) }
    requires credited { credit (seen past.now.items desk.now).state.inputs ≤ length messages.items }
    ensures { IfOk result (λ all. all.items ≡ sent desk.now.view.member.node (seen past.now.items desk.now).state.inputs) }
{
    let window = desk.window()?;
    messages.reserve(window.len())?;
    let known = messages.len() as u64 - desk.credit();
    add_carried(&mut messages, &window[known as usize..]);
    Ok(messages)
}
