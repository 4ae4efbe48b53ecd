// The open tickets of a node, with the numbers that the ring gave them.
ghost use Rattle.std.specs.Prelude.{◌≡◌, ◌≤◌, ◌<◌, ℕ, List, [], true, false, IfOk};
ghost use Rattle.std.specs.List.{filter_map};
ghost use Rattle.disk_model.specs.FuseDevice.{inner_of};
ghost use Rattle.disk_model.specs.MemDevice.{disk_of};
ghost use Rattle.ring_records.specs.Answer.{Answered};
ghost use Rattle.ring_records.specs.declared.input.Input.{Input};
ghost use Rattle.group_commit.specs.Desk.{seen, ended, IsHere};
ghost use Rattle.group_commit.specs.Past.{IsPast};
ghost use Rattle.node_store.specs.Node as nodes;
ghost use Rattle.node_store.specs.State.{Holds};
ghost use Rattle.ring_node.specs.Held.{MatchFirst, AreHeld};

use crate::node::Disk;
use disk_model::MemDevice;
use group_commit::Ticket;
use node_store::Node;
use std::alloc::{AllocError, Global};
use std::collections::VecDeque;
use std::marker::Model;

/// An open ticket, with the number that the ring gave it, if any.
pub(crate) struct Held {
    pub(crate) serial: Option<u64>,
    pub(crate) ticket: Ticket,
}

impl Model for Held {
    ghost use Rattle.group_commit.specs.Ticket.{shown};
    ghost use Rattle.ring_node.specs.Held.{HeldView};

    ghost Value = { HeldView };

    ghost view = { λ h. record { serial = h.serial; ticket = shown h.ticket } };
}

/// The numbers that the ring gave these tickets, in order.
pub(crate) fn serials_in(alloc: Global, held: &VecDeque<Held>) -> Result<Vec<u64>, AllocError>
    ensures { IfOk result (λ serials. serials.items ≡ filter_map (λ h. h.serial) held.now.items) }
{
    held.iter().filter_map(|h| h.serial).collect(alloc)
}

/// Whether the oldest of these tickets rests on so many inputs at most.
pub(crate) fn is_due(held: &VecDeque<Held>, durable: u64) -> bool
    ensures yes { result ≡ true → MatchFirst (λ h. h.ticket.number ≤ durable) held.now.items }
    ensures no { result ≡ false → MatchFirst (λ h. durable < h.ticket.number) held.now.items }
{
    match held.front() {
        Some(first) => first.ticket.number() <= durable,
        None => false,
    }
}

/// Closes the node and gives up its open tickets. Its device.
pub(crate) fn closed(mut node: Node<Disk>, held: VecDeque<Held>) -> MemDevice
    requires held { (from top : ℕ) × AreHeld (nodes.member_of node).node (nodes.desk_of node).view.run from top (nodes.desk_of node).view.tickets held.items }
    ensures holds { (past : List Input) → IsPast (nodes.member_of node) (nodes.desk_of node).opening past → Holds (nodes.member_of node) (disk_of result) (seen past (nodes.desk_of node)).state }
    ensures device { result ≡ inner_of (nodes.device_of node) }
{
    node.close();
    forfeit_all(&mut node, held);
    node.into_device().into_inner()
}

// Gives up the tickets.
fn forfeit_all(node: &mut Node<Disk>, mut held: VecDeque<Held>)
    requires over { (nodes.desk_of node.old).view.closed ≡ true }
    requires held { (from top : ℕ) × AreHeld (nodes.member_of node.old).node (nodes.desk_of node.old).view.run from top (nodes.desk_of node.old).view.tickets held.items }
    ensures next { nodes.desk_of node.new ≡ record (nodes.desk_of node.old) { view = record (nodes.desk_of node.old).view { tickets = [] } } }
    ensures device { nodes.device_of node.new ≡ nodes.device_of node.old }
{
    while let Some(first) = held.pop_front() {
        forfeit(node, first);
    }
    held.destroy_empty();
}

// Gives up a ticket that is open.
fn forfeit(node: &mut Node<Disk>, held: Held)
    requires over { (nodes.desk_of node.old).view.closed ≡ true }
    requires here { (kept : Answered) × IsHere (nodes.desk_of node.old).view held.ticket kept }
    ensures next { nodes.desk_of node.new ≡ record (nodes.desk_of node.old) { view = ended held.ticket.own (nodes.desk_of node.old).view } }
    ensures device { nodes.device_of node.new ≡ nodes.device_of node.old }
{
    let Held { serial: _, ticket } = held;
    match node.forfeit(ticket) {
        Ok(()) => {}
        Err(_) => unreachable!(),
    }
}
