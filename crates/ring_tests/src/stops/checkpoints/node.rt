// A durable node in memory that may be stopped, and its calls, each of which ends the ticket that it is given.
use disk_model::{FuseDevice, MemDevice, Tear};
use gated_journal::device_size;
use group_commit::Ticket;
use node_store::Node;
use ring_records::{NodeNo, Refusal, Reply};
use std::alloc::AllocGlobal;
use std::process::Abort;
use test_rows::Ask;

/// A device whose calls may fail, and which may be torn.
pub type Disk = FuseDevice<MemDevice>;

/// Node 1 of 3.
pub type Stored = Node<Disk>;

/// The bytes that the inputs of the node may take.
const CAPACITY: u32 = 4_096;

/// How inputs become durable.
#[derive(Clone, Copy)]
pub enum Round {
    Flush,
    Checkpoint,
}

/// A disk that holds nothing.
pub fn new_disk<R: Abort + AllocGlobal>(rt: &R) -> Disk {
    let size = usize::try_from(device_size(CAPACITY)).expect(rt, "a size");
    FuseDevice::idle(MemDevice::new(rt.alloc(), size).expect(rt, "ample memory"))
}

/// A new node on the disk.
pub fn created<R: Abort + AllocGlobal>(rt: &R, disk: Disk) -> Stored {
    match Node::create(rt.alloc(), disk, NodeNo::first(), 3, CAPACITY, 0) {
        Ok(node) => node,
        Err((_disk, refusal)) => panic!(rt; "{refusal}"),
    }
}

/// The disk of a node that has no open ticket.
pub fn end(rt: &impl Abort, node: Stored) -> Disk {
    let mut node = node;
    node.close();
    assert!(rt; !node.is_open());
    assert!(rt; node.open_tickets() == 0);
    node.into_device()
}

/// The node that a stop leaves, with this tear, of one that has no open ticket.
pub fn recovered<R: Abort + AllocGlobal>(rt: &R, node: Stored, tear: Tear) -> Stored {
    let mut device = end(rt, node).into_inner();
    device.crash(tear);
    match Node::recover(rt.alloc(), FuseDevice::idle(device), NodeNo::first(), 3, 1) {
        Ok(node) => node,
        Err((_disk, refusal)) => panic!(rt; "{refusal}"),
    }
}

/// Makes a batch of what waits durable: how many inputs.
fn flushed(rt: &impl Abort, node: &mut Stored) -> u64 {
    node.flush().expect(rt, "a device that works").count
}

/// Makes a summary of all that the node accepted durable: how many inputs that made durable.
pub fn emptied(rt: &impl Abort, node: &mut Stored) -> u64 {
    node.checkpoint().expect(rt, "a device that works").count
}

/// A checkpoint fails at this call of its device, counted from 1.
pub fn fails(rt: &impl Abort, node: &mut Stored, call: u64) {
    node.arm(call.saturating_sub(1), true);
    assert!(rt; node.checkpoint().err() == Some(Refusal::Device(1)));
}

fn asks(rt: &impl Abort, node: &mut Stored, ask: Ask) -> Ticket {
    let request = ask.request().expect(rt, "a request");
    node.submit(request).expect(rt, "a ticket")
}

fn redeems(rt: &impl Abort, node: &mut Stored, ticket: Ticket) -> Reply {
    match node.redeem(ticket) {
        Ok((reply, _stub)) => reply,
        Err((_ticket, refusal)) => panic!(rt; "{refusal}"),
    }
}

/// Closes the node, and ends the ticket.
fn forfeits(rt: &impl Abort, node: &mut Stored, ticket: Ticket) {
    node.close();
    match node.forfeit(ticket) {
        Ok(()) => {}
        Err((_ticket, refusal)) => panic!(rt; "{refusal}"),
    }
}

/// What the node answers once one input more is durable, by such a round.
pub fn lasts(rt: &impl Abort, node: &mut Stored, ask: Ask, round: Round) -> Reply {
    let ticket = asks(rt, node, ask);
    let count = match round {
        Round::Flush => flushed(rt, node),
        Round::Checkpoint => emptied(rt, node),
    };
    assert!(rt; count == 1);
    redeems(rt, node, ticket)
}

/// What the node answers at once.
pub fn answers(rt: &impl Abort, node: &mut Stored, ask: Ask) -> Reply {
    let ticket = asks(rt, node, ask);
    redeems(rt, node, ticket)
}

/// A checkpoint fails at this call of its device, counted from 1, while this input waits.
pub fn breaks(rt: &impl Abort, node: &mut Stored, ask: Ask, call: u64) {
    let ticket = asks(rt, node, ask);
    fails(rt, node, call);
    forfeits(rt, node, ticket);
}
