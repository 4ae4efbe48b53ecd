// A node in memory, or the device that one leaves.
use crate::node::fault::Fault;
use disk_model::{Device, FuseDevice, MemDevice, Tear};
use gated_journal::device_size;
use group_commit::{Landed, Ticket};
use node_store::Node;
use ring_records::{GREATEST_CAPACITY, NodeNo, Refusal, Request};
use std::alloc::{AllocError, Global};

/// A device in memory whose calls fail where a row wants it.
pub type Disk = FuseDevice<MemDevice>;

/// A node on such a device.
pub type Stored = Node<Disk>;

/// Where a node is to stand in its ring, and how much it may hold.
#[derive(Clone, Copy)]
pub struct Shape {
    pub me: NodeNo,
    pub n: u8,
    /// Of its journal, in bytes.
    pub capacity: u32,
}

/// What stands at a place.
#[derive(Drop)]
pub enum Seat {
    Empty,
    Device(Disk),
    Node(Stored),
}

/// A device that holds nothing, with room for a journal of this capacity.
pub fn new_device(alloc: Global, capacity: u32) -> Result<Disk, AllocError> {
    let size = device_size(capacity.min(GREATEST_CAPACITY)) as usize;
    Ok(FuseDevice::idle(MemDevice::new(alloc, size)?))
}

/// A new node on the device, or why there is none, and what stands there then.
pub fn created(alloc: Global, device: Disk, shape: &Shape) -> (Seat, Option<Fault>) {
    match Node::create(alloc, device, shape.me, shape.n, shape.capacity, 0) {
        Ok(node) => (Seat::Node(node), None),
        Err((device, refusal)) => (Seat::Device(device), Some(Fault::from(refusal))),
    }
}

/// The node that the device holds, at its opening 1, or why there is none, and what stands there then.
pub fn recovered(alloc: Global, device: Disk, me: NodeNo, n: u8) -> (Seat, Option<Fault>) {
    if me.number() > n {
        return (Seat::Device(device), Some(Fault::from(Refusal::BadNumber)));
    }
    match Node::recover(alloc, device, me, n, 1) {
        Ok(node) => (Seat::Node(node), None),
        Err((device, refusal)) => (Seat::Device(device), Some(Fault::from(refusal))),
    }
}

// What a stop leaves of a device, whose calls work again.
fn left(device: Disk, tear: Option<Tear>) -> Disk {
    let mut inner = device.into_inner();
    if let Some(tear) = tear {
        inner.crash(tear);
    }
    FuseDevice::idle(inner)
}

// Ends a node, and leaves its device.
fn ended(mut node: Stored, tear: Option<Tear>) -> (Seat, Option<Fault>) {
    if node.open_tickets() > 0 {
        return (Seat::Node(node), Some(Fault::OpenTickets));
    }
    node.close();
    (Seat::Device(left(node.into_device(), tear)), None)
}

/// Ends the node that stands here and has no open ticket, or the device's work, and leaves the device so.
pub fn stopped(seat: Seat, tear: Option<Tear>) -> (Seat, Option<Fault>) {
    match seat {
        Seat::Empty => (Seat::Empty, Some(Fault::NoNode)),
        Seat::Device(device) => (Seat::Device(left(device, tear)), None),
        Seat::Node(node) => ended(node, tear),
    }
}

/// Has the device's calls fail behind so many, the next one or that and all later ones.
pub fn arm(seat: &mut Seat, after: u64, once: bool) -> Result<(), Fault> {
    match seat {
        Seat::Empty => Err(Fault::NoDevice),
        Seat::Device(device) => {
            device.arm(after, once);
            Ok(())
        }
        Seat::Node(node) => {
            node.arm(after, once);
            Ok(())
        }
    }
}

/// Writes the bytes to the device from this offset on, and makes them stable.
pub fn write(seat: &mut Seat, off: u64, bytes: &[u8]) -> Result<(), Fault> {
    let Seat::Device(device) = seat else {
        return Err(Fault::NoDevice);
    };
    if device.write_at(off, bytes).is_ok() && device.sync().is_ok() {
        Ok(())
    } else {
        Err(Fault::from(Refusal::Device(device.failures())))
    }
}

/// Reads the bytes of the device from this offset on.
pub fn read(seat: &mut Seat, off: u64, bytes: &mut [u8]) -> Result<(), Fault> {
    let Seat::Device(device) = seat else {
        return Err(Fault::NoDevice);
    };
    if device.read_at(off, bytes).is_ok() {
        Ok(())
    } else {
        Err(Fault::from(Refusal::Device(device.failures())))
    }
}

/// The node that stands here.
pub fn node_of(seat: &Seat) -> Result<&Stored, Fault> {
    match seat {
        Seat::Node(node) => Ok(node),
        _ => Err(Fault::NoNode),
    }
}

/// A ticket for the request.
pub fn submitted(seat: &mut Seat, question: Request) -> Result<Ticket, Fault> {
    let Seat::Node(node) = seat else {
        return Err(Fault::NoNode);
    };
    match node.submit(question) {
        Ok(ticket) => Ok(ticket),
        Err(refusal) => Err(Fault::from(refusal)),
    }
}

/// Makes the first inputs that wait durable, or all by a checkpoint.
pub fn landed(seat: &mut Seat, is_checkpoint: bool) -> Result<Landed, Fault> {
    let Seat::Node(node) = seat else {
        return Err(Fault::NoNode);
    };
    let answer = if is_checkpoint {
        node.checkpoint()
    } else {
        node.flush()
    };
    match answer {
        Ok(landed) => Ok(landed),
        Err(refusal) => Err(Fault::from(refusal)),
    }
}

/// Takes no more requests.
pub fn close(seat: &mut Seat) -> Result<(), Fault> {
    match seat {
        Seat::Node(node) => {
            node.close();
            Ok(())
        }
        _ => Err(Fault::NoNode),
    }
}
