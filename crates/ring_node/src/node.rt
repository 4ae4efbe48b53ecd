// A node of a ring: what the tickets wait for, and what it may hand on.
ghost use Rattle.std.specs.Prelude.{◌≡◌, ◌+◌, ◌-◌, ◌≤◌, ◌<◌, ◌^◌, ◌∷◌, [], true, false, length, slice_get, IfSome, IfNone, IfOk, OnOk, OnErr};
ghost use Rattle.std.specs.List.{filter};
ghost use Rattle.ring_records.specs.Emission.{sent};
ghost use Rattle.ring_records.specs.Member.{member};
ghost use Rattle.ring_records.specs.Message.{candidate_of};
ghost use Rattle.ring_records.specs.Outside.{is_outside};
ghost use Rattle.gated_journal.specs.Reading.{is_header};
ghost use Rattle.ring_node.specs.Held.{IsShownBy};
ghost use Rattle.ring_node.specs.Node.{new_node, durable_in, asked_with, flown, flushed, is_credited};
ghost use Rattle.ring_node.specs.Open.{is_due, open_with};

use crate::flight::Flight;
use crate::held::{Held, closed, is_due};
use disk_model::{FuseDevice, MemDevice};
use gated_journal::device_size;
use group_commit::{Desk, Stub};
use node_store::Node;
use ring_records::{Input, Msg, NodeNo, Refusal, Request};
use std::alloc::{AllocError, Global};
use std::collections::VecDeque;
use std::marker::Model;

/// A device in memory that may be stopped.
pub(crate) type Disk = FuseDevice<MemDevice>;

/// A node of a ring of 2 to 16 on a device in memory, with its open tickets, the oldest first. Between its calls
/// nothing flies and no fuse is armed. It is not let go: `end` ends it.
pub struct RingNode {
    pub(crate) alloc: Global,
    pub(crate) me: NodeNo,
    pub(crate) n: u8,
    pub(crate) capacity: u32,
    // How often it was opened again.
    pub(crate) runs: u64,
    pub(crate) node: Node<Disk>,
    // The inputs that the node's opening stands for, the oldest first: it and the node hold each input once.
    pub(crate) past: Vec<Input>,
    pub(crate) held: VecDeque<Held>,
    // All messages that its durable inputs sent, the oldest first.
    pub(crate) messages: Vec<Msg>,
}

impl Model for RingNode {
    ghost use Rattle.std.specs.Prelude.{length};
    ghost use Rattle.ring_records.specs.Member.{member};
    ghost use Rattle.group_commit.specs.Desk.{seen};
    ghost use Rattle.node_store.specs.Node as nodes;
    ghost use Rattle.ring_node.specs.Held.{view_with, reach_of, IsRingNode};
    ghost use Rattle.ring_node.specs.Node.{NodeView};

    ghost Value = { NodeView };

    ghost view = { λ r. view_with (length r.past.items) (seen r.past.items (nodes.desk_of r.node)) r.held.items };

    ghost invariant = { λ r. IsRingNode (member r.me r.n r.capacity) r.past.items (nodes.desk_of r.node) (reach_of (nodes.device_of r.node)) r.held.items r.messages.items };
}

impl RingNode {
    /// Node `me` of a ring of `n`, of this capacity in bytes, which has accepted nothing. Refused for memory alone.
    pub fn new(alloc: Global, me: NodeNo, n: u8, capacity: u32) -> Result<RingNode, AllocError>
        requires range { is_header (member me n capacity) ≡ true }
        ensures made { IfOk result (λ node. node ≡ new_node me n capacity) }
    {
        let device = MemDevice::new(alloc, device_size(capacity) as usize)?;
        match Node::create(alloc, FuseDevice::idle(device), me, n, capacity, 0) {
            Ok(node) => Ok(RingNode {
                alloc,
                me,
                n,
                capacity,
                runs: 0,
                node,
                past: Vec::new(alloc),
                held: VecDeque::new(alloc),
                messages: Vec::new(alloc),
            }),
            Err((_device, refusal)) => Err(memory_alone(refusal)),
        }
    }

    /// Asks the node. The ticket stays open until its reply is released; `serial` is its number in the ring, if any.
    /// Refused for memory, nothing has changed.
    pub fn ask(&mut self, serial: Option<u64>, question: Request) -> Result<(), AllocError>
        requires inside { is_outside self.old.member.n question ≡ false }
        requires numbers { self.old.issued < 2 ^ 60 }
        ensures next { OnOk result (self.new ≡ asked_with serial question self.old) }
        ensures err { OnErr result (self.new ≡ self.old) }
    {
        self.held.reserve(1)?;
        match self.node.submit(question) {
            Ok(ticket) => {
                self.held.push_back_reserved(Held { serial, ticket });
                Ok(())
            }
            Err(refusal) => Err(memory_alone(refusal)),
        }
    }

    /// Makes the first inputs that wait durable, at most 64: how many. Refused for memory, nothing has changed.
    pub fn flush(&mut self) -> Result<u32, AllocError>
        ensures next { OnOk result (self.new ≡ flushed self.old) }
        ensures count { IfOk result (λ count. count ≡ flown self.old - self.old.durable) }
        ensures err { OnErr result (self.new ≡ self.old) }
    {
        self.make_durable(Flight::Batch)
    }

    /// Releases the reply of the oldest open ticket, if that rests on durable inputs alone, and ends the ticket: the
    /// number that the ring gave it, if any, and the stub of the reply.
    pub fn release(&mut self) -> Option<(Option<u64>, Stub)>
        ensures none { IfNone result ((filter (is_due self.old.durable) self.old.held ≡ []) × (self.new ≡ self.old)) }
        ensures some { IfSome result (λ r. (self.old.held ≡ open_with r.0 r.1 ∷ self.new.held) × (is_due self.old.durable (open_with r.0 r.1) ≡ true)) }
        ensures rest { self.new ≡ record self.old { held = self.new.held } }
    {
        if !is_due(&self.held, self.node.durable()) {
            return None;
        }
        let Some(first) = self.held.pop_front() else {
            return None;
        };
        let Held { serial, ticket } = first;
        match self.node.redeem(ticket) {
            Ok((_reply, stub)) => Some((serial, stub)),
            Err(_) => unreachable!(),
        }
    }

    /// Ends the node and gives up its open tickets.
    pub fn end(self) {
        let RingNode {
            alloc: _,
            me: _,
            n: _,
            capacity: _,
            runs: _,
            node,
            past: _,
            held,
            messages: _,
        } = self;
        let _device = closed(node, held);
    }

    /// Its desk, which tells what it accepted.
    pub fn desk(&self) -> &Desk
        ensures member { result.now.view.member ≡ self.now.member }
        ensures inputs { result.now.opening.inputs + length result.now.view.state.inputs ≡ length self.now.inputs }
        ensures durable { result.now.opening.inputs + result.now.view.state.durable ≡ self.now.durable }
        ensures within { self.now.durable ≤ length self.now.inputs }
        ensures shows { IsShownBy self.now.member self.now.inputs self.now.durable result.now }
        ensures tickets { length result.now.view.tickets ≡ length self.now.held }
    {
        self.node.desk()
    }

    /// How many first inputs it has no more, as a summary stood for them when it was opened.
    pub fn dropped(&self) -> u64
        ensures { result ≡ self.now.dropped }
    {
        self.node.desk().first()
    }

    /// Its durable inputs, all of which it has. Refused for memory alone.
    pub fn durable_history(&self) -> Result<Vec<Input>, AllocError>
        requires whole { self.now.dropped ≡ 0 }
        ensures { IfOk result (λ inputs. inputs.items ≡ durable_in self.now) }
    {
        let durable = self.node.durable() as usize;
        let mut inputs = Vec::new(self.alloc);
        inputs.extend_from_slice(&self.node.history()[..durable])?;
        Ok(inputs)
    }

    /// Whether no more messages are credited than its durable inputs sent, so that it may be stopped.
    pub fn is_credited(&self) -> bool
        ensures { result ≡ is_credited self.now }
    {
        self.node.desk().credit() <= self.messages.len() as u64
    }

    /// Message `no` that its durable inputs sent, counted from 0; its candidate is a node of the ring.
    pub fn message(&self, no: u64) -> Option<Msg>
        ensures value { result ≡ slice_get (sent self.now.member.node (durable_in self.now)) no }
        ensures inside { IfSome result (λ msg. (candidate_of msg).node ≤ self.now.member.n) }
    {
        self.messages.get(no as usize).copied()
    }
}

/// What is answered to a refusal that only want of memory explains.
pub(crate) fn memory_alone(refusal: Refusal) -> AllocError
    requires { refusal ≡ Refusal.OutOfMemory }
{
    match refusal {
        Refusal::OutOfMemory => AllocError,
        _ => unreachable!(),
    }
}
