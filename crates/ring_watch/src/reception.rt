//! Where the clerks of a ring's nodes are asked.
ghost use Rattle.std.specs.Prelude.{◌≡◌, ◌+◌};

use crate::roll::Roll;
use client_stream::Deadline;
use crossbeam_channel::{Receiver, Sender, bounded, unbounded};
use door_rules::Presence;
use ring_records::{Decision, GroupName, Key, NodeNo, Term};
use ring_status::NodeStatus;
use std::alloc::{AllocError, Global};
use std::sync::{Mutex, Wait};
use std::time::Clock;

/// Groups with their latest leaders, in order of name, and whether there are more behind them.
#[derive(Drop)]
pub struct Page {
    pub leads: Vec<Decision>,
    pub more: bool,
}

/// What a node's clerk is asked, with where the answer goes. Where it has none, it lets go of that.
#[derive(Drop)]
pub enum Inquiry {
    /// What is told of the node.
    Status(Sender<NodeStatus>),
    /// The groups behind this one, by the node's board.
    Page(Option<GroupName>, Sender<Page>),
    /// The latest leader of the group, by the node's board.
    Latest(GroupName, Sender<Option<Decision>>),
    /// Whether no door of the node was free for a while but the one that is kept.
    Doors(Sender<bool>),
}

/// Where a node stands in lists of all nodes.
fn place_of(node: NodeNo) -> usize
    ensures { result + 1 ≡ node }
{
    usize::from(node.number()) - 1
}

/// The node at which its client stood, whichever node tells of it.
pub(crate) fn home_of(lead: &Decision) -> NodeNo
    ensures { result ≡ lead.now.leader.node }
{
    lead.leader.node
}

/// Where the clerks of a ring's nodes are asked, until each of them is dismissed, and where it is known for what the sessions
/// stood that are open.
#[derive(Drop)]
pub struct Reception {
    clerks: Vec<Mutex<Option<Sender<Inquiry>>>>,
    rolls: Vec<Roll>,
}

impl Reception {
    /// With a clerk for each of so many nodes, and what each of them is asked, in order of node.
    pub fn new(
        alloc: Global,
        nodes: u8,
    ) -> Result<(Reception, Vec<Receiver<Inquiry>>), AllocError> {
        let mut clerks = Vec::with_capacity(alloc, usize::from(nodes))?;
        let mut rolls = Vec::with_capacity(alloc, usize::from(nodes))?;
        let mut asked = Vec::with_capacity(alloc, usize::from(nodes))?;
        for _ in 0..nodes {
            let (sender, receiver) = unbounded(alloc)?;
            clerks.push(Mutex::new(Some(sender)))?;
            rolls.push(Roll::new(alloc)?)?;
            asked.push(receiver)?;
        }
        Ok((Reception { clerks, rolls }, asked))
    }

    /// How many nodes the ring has.
    pub fn nodes(&self) -> usize {
        self.clerks.len()
    }

    fn clerk(&self, node: NodeNo) -> Option<&Mutex<Option<Sender<Inquiry>>>> {
        self.clerks.get(place_of(node))
    }

    fn roll(&self, node: NodeNo) -> Option<&Roll> {
        self.rolls.get(place_of(node))
    }

    /// The session at this door of the node, counted from 0, stood for the key.
    pub fn enrol<R: Wait>(&self, rt: &R, node: NodeNo, door: u32, key: Key) {
        if let Some(roll) = self.roll(node) {
            roll.enrol(rt, door, key);
        }
    }

    /// The session at this door of the node has ended.
    pub fn withdraw<R: Wait>(&self, rt: &R, node: NodeNo, door: u32) {
        if let Some(roll) = self.roll(node) {
            roll.withdraw(rt, door);
        }
    }

    /// The node gave up the terms of the group below this floor.
    pub fn retire<R: Wait>(&self, rt: &R, node: NodeNo, group: &GroupName, floor: Term) {
        if let Some(roll) = self.roll(node) {
            roll.retire(rt, group, floor);
        }
    }

    /// The client of the session at this door of the node tells a text of the group. Whether it stood for a term of it. Refused
    /// for want of memory alone.
    pub fn tell<R: Wait>(
        &self,
        rt: &R,
        node: NodeNo,
        door: u32,
        group: &GroupName,
        text: &str,
    ) -> Result<bool, AllocError> {
        match self.roll(node) {
            Some(roll) => roll.tell(rt, door, group, text),
            None => Ok(false),
        }
    }

    /// The client of the session at this door of the node resigns for the key. Whether it stood for it. Refused for want of
    /// memory alone.
    pub fn resign<R: Wait>(
        &self,
        rt: &R,
        node: NodeNo,
        door: u32,
        key: Key,
    ) -> Result<bool, AllocError> {
        match self.roll(node) {
            Some(roll) => roll.resign(rt, door, key),
            None => Ok(false),
        }
    }

    /// What is known of who stood at the node for the key. `None` where there is no such node, or memory is wanting.
    pub(crate) fn presence<R: Wait>(&self, rt: &R, node: NodeNo, key: &Key) -> Option<Presence> {
        self.roll(node)?.presence(rt, key).ok()
    }

    /// Whether the inquiry was left with the node's clerk.
    fn leave<R: Wait>(&self, rt: &R, node: NodeNo, inquiry: Inquiry) -> bool {
        let Some(clerk) = self.clerk(node) else {
            return false;
        };
        match clerk.lock(rt).as_ref() {
            Some(sender) => sender.send(rt, inquiry).is_ok(),
            None => false,
        }
    }

    /// What is told of the node, or `None` where no answer comes in time, or memory is wanting.
    pub fn status<R: Wait + Clock>(
        &self,
        rt: &R,
        alloc: Global,
        node: NodeNo,
        deadline: Deadline,
    ) -> Option<NodeStatus> {
        let (sender, receiver) = bounded(alloc, 1).ok()?;
        if !self.leave(rt, node, Inquiry::Status(sender)) {
            return None;
        }
        answer(rt, &receiver, deadline)
    }

    /// The groups behind this one by the node's board, or `None` as for `status`.
    pub fn page<R: Wait + Clock>(
        &self,
        rt: &R,
        alloc: Global,
        node: NodeNo,
        after: Option<GroupName>,
        deadline: Deadline,
    ) -> Option<Page> {
        let (sender, receiver) = bounded(alloc, 1).ok()?;
        if !self.leave(rt, node, Inquiry::Page(after, sender)) {
            return None;
        }
        answer(rt, &receiver, deadline)
    }

    /// The latest leader of the group by the node's board, where there is one, or `None` as for `status`.
    pub fn latest<R: Wait + Clock>(
        &self,
        rt: &R,
        alloc: Global,
        node: NodeNo,
        group: GroupName,
        deadline: Deadline,
    ) -> Option<Option<Decision>> {
        let (sender, receiver) = bounded(alloc, 1).ok()?;
        if !self.leave(rt, node, Inquiry::Latest(group, sender)) {
            return None;
        }
        answer(rt, &receiver, deadline)
    }

    /// Whether no door of the node was free for a while but the one that is kept, or `None` as for `status`.
    pub fn has_no_door<R: Wait + Clock>(
        &self,
        rt: &R,
        alloc: Global,
        node: NodeNo,
        deadline: Deadline,
    ) -> Option<bool> {
        let (sender, receiver) = bounded(alloc, 1).ok()?;
        if !self.leave(rt, node, Inquiry::Doors(sender)) {
            return None;
        }
        answer(rt, &receiver, deadline)
    }

    /// The node's clerk is asked nothing more, and ends.
    pub fn dismiss<R: Wait>(&self, rt: &R, node: NodeNo) {
        if let Some(clerk) = self.clerk(node) {
            *clerk.lock(rt) = None;
        }
    }
}

/// What comes before the deadline.
fn answer<R: Wait + Clock, T: Drop>(
    rt: &R,
    receiver: &Receiver<T>,
    deadline: Deadline,
) -> Option<T> {
    match deadline.left(rt).ok()? {
        Some(left) => receiver.recv_timeout(rt, left).ok(),
        None => receiver.recv(rt).ok(),
    }
}
