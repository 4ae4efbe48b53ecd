// A ring of durable nodes in memory that works: what its events are made of.
ghost use Rattle.std.specs.Prelude.{◌≡◌, ◌+◌, ◌≤◌, [], length, take, true, false, OnOk, IfOk, IfSome};
ghost use Rattle.ring_records.specs.History.{taken as taken_in};
ghost use Rattle.ring_records.specs.Member.{member};
ghost use Rattle.ring_records.specs.Message.{candidate_of};
ghost use Rattle.ring_world.specs.Ring.{is_msg, launch};
ghost use Rattle.ring_records.specs.Serving.{shown_in};
ghost use Rattle.ring_records.specs.States.{durable_in};
ghost use Rattle.ring_node.specs.Held.{IsShownBy};
ghost use Rattle.ring_node.specs.Node.{state_of};
ghost use Rattle.ring_world.specs.Capacity.{process, all_fresh};
ghost use Rattle.ring_world.specs.CapacitySchedule.{IsSchedule};
ghost use Rattle.ring_world.specs.Happened.{action_of};
ghost use Rattle.ring_world.specs.Shows.{new_nodes};
ghost use Rattle.ring_world.specs.Worlds.{is_ring, by_log};

use crate::happened::{Deed, Happened, Thing};
use crate::log::Log;
use group_commit::Desk;
use ring_node::{Flight, RingNode};
use ring_records::{Msg, NodeNo, Packet, Reply, Request, Shown};
use std::alloc::{AllocError, Global};
use std::marker::Model;

/// A ring whose nodes are those that its events reach. It is not let go: `fail` ends its nodes.
pub struct Working {
    log: Log,
    // Node i stands at place i - 1.
    nodes: Vec<RingNode>,
}

impl Model for Working {
    ghost use Rattle.std.specs.Prelude.{◌≤◌, false, length, map};
    ghost use Rattle.ring_world.specs.Shows.{IsSound, held_of};
    ghost use Rattle.ring_world.specs.State.{State};
    ghost use Rattle.ring_world.specs.Worlds.{by_log};

    ghost Value = { State };

    ghost view = { λ w. by_log w.log false (map held_of w.nodes.items) };

    ghost invariant = { λ w. (w.log.told ≤ length w.log.events.items) × IsSound w.log.size w.log.capacity w.log.events.items w.nodes.items };
}

impl Working {
    ghost use Rattle.ring_world.specs.Ring.{node_at, waits, message, is_earned, is_released, is_full};
    ghost use Rattle.ring_world.specs.State.{opened};
    ghost use Rattle.ring_world.specs.Worlds.{failed, IsWorld};

    /// A ring of `size` nodes of this capacity in bytes, in which nothing has happened. In an eager one each input is
    /// made durable as it is accepted.
    pub fn new(alloc: Global, size: u8, eager: bool, capacity: u32) -> Result<Working, AllocError>
        requires range { is_ring size capacity ≡ true }
        ensures made { IfOk result (λ ring. ring ≡ opened size eager capacity) }
        ensures world { IfOk result (λ ring. IsWorld ring) }
    {
        let mut nodes = Vec::new(alloc);
        if let Err(error) = fill(alloc, &mut nodes, size, capacity) {
            end_all(nodes);
            return Err(error);
        }
        let log = Log {
            alloc,
            size,
            capacity,
            eager,
            tickets: 0,
            events: Vec::new(alloc),
            told: 0,
        };
        Ok(Working { log, nodes })
    }

    /// Ends its nodes, and gives up their open tickets: what was told.
    pub fn fail(self) -> Log
        ensures { by_log result true [] ≡ failed self }
    {
        let Working { log, nodes } = self;
        ended(log, nodes)
    }

    /// How it was made, and what happened.
    pub fn log(&self) -> &Log
        ensures log { by_log result.now false self.now.ring.held ≡ self.now }
        ensures works { self.now.ring.failed ≡ false }
    {
        &self.log
    }

    /// All that happened is told. It may happen.
    pub fn tell(&mut self)
        ensures next { self.new ≡ record self.old { ring = record self.old.ring { told = self.old.ring.events } } }
        ensures lawful { IsSchedule all_fresh self.new.ring.size self.new.ring.capacity self.new.ring.told }
    {
        self.log.told = self.log.events.len();
    }

    fn at(&self, node: NodeNo) -> &RingNode
        requires inside { node ≤ self.now.ring.size }
        ensures member { result.now.member ≡ member node self.now.ring.size self.now.ring.capacity }
        ensures inputs { result.now.inputs ≡ (node_at self.now.ring node).inputs }
        ensures durable { result.now.durable ≡ (node_at self.now.ring node).durable }
        ensures dropped { result.now.dropped ≡ (process all_fresh self.now.ring.size self.now.ring.capacity self.now.ring.events node).dropped }
        ensures state { state_of result.now ≡ node_at self.now.ring node }
    {
        &self.nodes[node.number() as usize - 1]
    }

    fn desk(&self, node: NodeNo) -> &Desk
        requires inside { node ≤ self.now.ring.size }
        ensures inputs { result.now.opening.inputs + length result.now.view.state.inputs ≡ length (node_at self.now.ring node).inputs }
        ensures durable { result.now.opening.inputs + result.now.view.state.durable ≡ (node_at self.now.ring node).durable }
        ensures shows { IsShownBy (member node self.now.ring.size self.now.ring.capacity) (node_at self.now.ring node).inputs (node_at self.now.ring node).durable result.now }
    {
        self.at(node).desk()
    }

    // How many inputs the node accepted.
    fn count(&self, node: NodeNo) -> u64
        requires inside { node ≤ self.now.ring.size }
        ensures { result ≡ length (node_at self.now.ring node).inputs }
    {
        self.desk(node).accepted()
    }

    // How many messages they took.
    fn taken(&self, node: NodeNo) -> u64
        requires inside { node ≤ self.now.ring.size }
        ensures { result ≡ length (taken_in (node_at self.now.ring node).inputs) }
    {
        self.desk(node).taken()
    }

    /// What the node shows.
    pub fn shown(&self, node: NodeNo) -> Shown
        requires inside { node ≤ self.now.ring.size }
        ensures { result ≡ shown_in node (node_at self.now.ring node) }
    {
        self.desk(node).shown()
    }

    // Whether inputs of the node are not durable yet.
    fn waits(&self, node: NodeNo) -> bool
        requires inside { node ≤ self.now.ring.size }
        ensures { result ≡ waits self.now.ring node }
    {
        let desk = self.desk(node);
        desk.durable() < desk.accepted()
    }

    // Message `no` that the durable inputs of the node sent.
    fn message(&self, node: NodeNo, no: u64) -> Option<Msg>
        requires inside { node ≤ self.now.ring.size }
        ensures value { result ≡ message self.now.ring node no }
        ensures of_ring { IfSome result (λ msg. (candidate_of msg).node ≤ self.now.ring.size) }
    {
        self.at(node).message(no)
    }

    // Whether the node's durable inputs took so many messages, at least one.
    fn is_earned(&self, node: NodeNo, upto: u64) -> bool
        requires inside { node ≤ self.now.ring.size }
        ensures { result ≡ is_earned self.now.ring node upto }
    {
        1 <= upto && upto <= self.durable_taken(node)
    }

    // How many messages its durable inputs took.
    fn durable_taken(&self, node: NodeNo) -> u64
        requires inside { node ≤ self.now.ring.size }
        ensures { result ≡ length (taken_in (durable_in (node_at self.now.ring node))) }
    {
        self.desk(node).durable_taken()
    }

    // Whether a neighbour may release what the request brings the node, if it brings anything.
    #[tactic(auto, unfolding(crate::specs::Ring::is_released))]
    fn is_released(&self, node: NodeNo, request: &Request) -> bool
        requires inside { node ≤ self.now.ring.size }
        ensures { result ≡ is_released self.now.ring node request.now }
    {
        match request {
            Request::Take(no, msg) => {
                let from = node.predecessor(self.log.size);
                match self.message(from, *no) {
                    Some(sent) => is_same(&sent, msg),
                    None => false,
                }
            }
            Request::Acked(upto) => {
                let from = node.successor(self.log.size);
                self.is_earned(from, *upto)
            }
            Request::Stand(..) | Request::Retire(..) => true,
            Request::Who(_) | Request::Latest(_) => true,
        }
    }

    // Whether 2^60 events happened, after which it takes no more.
    fn is_full(&self) -> bool
        ensures { result ≡ is_full self.now.ring }
    {
        self.log.events.len() >= EVENTS
    }
}

/// The most events. A node gives at most a ticket an event, so it has one for the next.
const EVENTS: usize = 1 << 60;

mod changes;
mod crashes;
mod deliveries;
mod histories;
mod objections;
mod parts;

// What is told of a node that launches this.
fn launch(flight: Flight) -> Deed
    ensures { action_of result ≡ launch flight }
{
    match flight {
        Flight::Batch => Deed::Launch,
        Flight::Checkpoint => Deed::LaunchAll,
    }
}

// Whether they are one message.
fn is_same(a: &Msg, b: &Msg) -> bool
    ensures { result ≡ is_msg a.now b.now }
{
    a == b
}

// Adds nodes 1 to `size`.
fn fill(alloc: Global, nodes: &mut Vec<RingNode>, size: u8, capacity: u32) -> Result<(), AllocError>
    requires range { is_ring size capacity ≡ true }
    requires empty { nodes.old.items ≡ [] }
    ensures nodes { OnOk result (nodes.new.items ≡ new_nodes size capacity size) }
{
    nodes.reserve(size as usize)?;
    let mut node = NodeNo::first();
    for _ in 0..size {
        nodes.push_reserved(RingNode::new(alloc, node, size, capacity)?);
        node = node.successor(size);
    }
    Ok(())
}

// Ends them all.
fn end_all(nodes: Vec<RingNode>) {
    let mut nodes = nodes;
    while let Some(node) = nodes.pop() {
        node.end();
    }
    nodes.destroy_empty();
}

// Ends the nodes, and forgets what was not told.
fn ended(log: Log, nodes: Vec<RingNode>) -> Log
    ensures events { result.events.items ≡ take log.told log.events.items }
    ensures rest { result ≡ record log { events = result.events } }
{
    let mut log = log;
    end_all(nodes);
    log.events.truncate(log.told);
    log
}
