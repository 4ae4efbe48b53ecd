// What nodes are given and give. All numbers and names of rows are in their ranges.
use crate::calls::refused;
use disk_model::{Device, MemDevice};
use gated_journal::device_size;
use node_store::Node;
use ring_records::{Bid, Candidate, GroupName, Key, NodeNo, Refusal, Reply, Request, Term};
use std::alloc::{AllocError, AllocGlobal};
use std::process::Abort;
use test_rows::{Ask, Note, Say};

pub fn node(rt: &impl Abort, number: u8) -> NodeNo {
    NodeNo::new(number).expect(rt, "a node")
}

pub fn group(rt: &impl Abort, name: &str) -> GroupName {
    GroupName::read(name.as_bytes()).expect(rt, "a group")
}

pub fn request(rt: &impl Abort, ask: Ask) -> Request {
    ask.request().expect(rt, "a request")
}

pub fn reply(rt: &impl Abort, say: Say) -> Reply {
    say.reply().expect(rt, "a reply")
}

pub fn bid(rt: &impl Abort, number: u32) -> Bid {
    Bid::new(number).expect(rt, "a bid")
}

pub fn key(rt: &impl Abort, group: &str, term: u32) -> Key {
    test_rows::key(group, term).expect(rt, "a key")
}

/// What a read answers where this node leads with the bid.
pub fn leader(rt: &impl Abort, bid: u32, node: u8) -> Result<Option<Candidate>, Refusal> {
    let leader = test_rows::candidate(bid, node).expect(rt, "a candidate");
    Ok(Some(leader))
}

/// What a read of the latest leader answers.
pub type Latest = Result<Option<(Term, Candidate)>, Refusal>;

/// The term, the bid and the node of a leader.
pub type Leads = (u32, u32, u8);

/// What a read of the latest leader answers where this one leads, or none.
pub fn latest(rt: &impl Abort, leads: Option<Leads>) -> Latest {
    match leads {
        None => Ok(None),
        Some((term, bid, node)) => {
            let term = Term::new(term).expect(rt, "a term");
            let leader = test_rows::candidate(bid, node).expect(rt, "a candidate");
            Ok(Some((term, leader)))
        }
    }
}

/// A device that holds nothing, with room for a journal of this capacity.
pub fn device_for<R: Abort + AllocGlobal>(rt: &R, capacity: u32) -> Result<MemDevice, AllocError> {
    let size = usize::try_from(device_size(capacity)).expect(rt, "a size");
    MemDevice::new(rt.alloc(), size)
}

/// A device that holds nothing, with room for a journal of capacity 8,192.
pub fn empty_device<R: Abort + AllocGlobal>(rt: &R) -> MemDevice {
    device_for(rt, 8192).expect(rt, "ample memory")
}

/// The message of number `no` that a node drops which stood for red 5 with bid 10. It takes 29 bytes of the capacity.
pub fn dropped(no: u64) -> Ask {
    Ask::Take(no, Note::Token("red", 5, 5, 3))
}

/// The input of the request becomes durable.
fn lasts<V: Device>(rt: &impl Abort, made: &mut Node<V>, ask: Ask) {
    let question = request(rt, ask);
    let ticket = made.submit(question).expect(rt, "a ticket");
    let landed = made.flush();
    assert!(rt; landed.is_ok());
    drop(landed);
    match made.redeem(ticket) {
        Ok((reply, stub)) => assert!(rt; stub.reply() == reply),
        Err((_ticket, refusal)) => refused(rt, refusal),
    }
}

/// A new node stands and takes 69 messages, all of which become durable: a checkpoint is due.
pub fn fills<V: Device>(rt: &impl Abort, made: &mut Node<V>) {
    lasts(rt, made, Ask::Stand("red", 5, 10));
    for no in 0..69 {
        lasts(rt, made, dropped(no));
    }
}

/// The node that the device holds, node 1 of 3, opened again.
pub fn reopened<V: Device + Drop, R: Abort + AllocGlobal>(rt: &R, device: V) -> Node<V> {
    match Node::recover(rt.alloc(), device, NodeNo::first(), 3, 1) {
        Ok(made) => made,
        Err((_device, refusal)) => refused(rt, refusal),
    }
}

/// The node's epoch, how many inputs its summary stands for, how many it has in all, and how many messages they sent.
pub type Told = (u64, u64, u64, u64);

pub fn told<V: Device>(made: &Node<V>) -> Told {
    let desk = made.desk();
    (made.epoch(), desk.first(), made.durable(), desk.sent())
}

/// What the node tells that this device holds.
pub fn told_by<R: Abort + AllocGlobal>(rt: &R, device: MemDevice) -> Told {
    let made = reopened(rt, device);
    let told = told(&made);
    drop(made);
    told
}
