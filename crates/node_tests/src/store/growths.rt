// Calls of a node that are refused for want of memory change nothing, and succeed when they are made again.
use crate::rows::node;
use crate::store::journal::empty_device;
use crate::store::rows::Tells::{GaveUp, Leads};
use crate::store::rows::{Tells, request, sends_are, tells_are};
use disk_model::{Device, FuseDevice, MemDevice};
use group_commit::Ticket;
use node_store::Node;
use ring_records::Refusal;
use std::alloc::AllocGlobal;
use std::process::Abort;
use test_rows::Sends::Carry;
use test_rows::{Ask, Note, Sends};

type Stored = Node<FuseDevice<MemDevice>>;

/// What is refused, once, for want of memory.
fn is_memory(rt: &impl Abort, refusal: Refusal) {
    assert!(rt; refusal == Refusal::OutOfMemory);
}

/// A new node of 3, at the second call where the first finds no memory.
fn created<R: Abort + AllocGlobal>(rt: &R, number: u8) -> Stored {
    let device = empty_device(rt);
    let (device, refusal) = match Node::create(rt.alloc(), device, node(rt, number), 3, 4096, 0) {
        Ok(made) => return made,
        Err(refused) => refused,
    };
    is_memory(rt, refusal);
    match Node::create(rt.alloc(), device, node(rt, number), 3, 4096, 0) {
        Ok(made) => made,
        Err((_device, refusal)) => panic!(rt; "{refusal}"),
    }
}

/// The node of 3 that the device holds, at the second call where the first finds no memory.
fn recovered<R: Abort + AllocGlobal>(rt: &R, device: FuseDevice<MemDevice>, number: u8) -> Stored {
    let node = node(rt, number);
    assert!(rt; node.number() <= 3);
    let (device, refusal) = match Node::recover(rt.alloc(), device, node, 3, 1) {
        Ok(made) => return made,
        Err(refused) => refused,
    };
    is_memory(rt, refusal);
    match Node::recover(rt.alloc(), device, node, 3, 1) {
        Ok(made) => made,
        Err((_device, refusal)) => panic!(rt; "{refusal}"),
    }
}

/// What a node tells: the epoch of its journal, how many inputs its summary stands for, how many it has behind that, and
/// how many are durable, of all.
fn told(made: &Stored) -> (u64, u64, usize, u64) {
    let first = made.desk().first();
    (made.epoch(), first, made.history().len(), made.durable())
}

/// A ticket for the request.
fn asked(rt: &impl Abort, made: &mut Stored, ask: Ask) -> Ticket {
    let before = told(made);
    match made.submit(request(rt, ask)) {
        Ok(ticket) => ticket,
        Err(refusal) => {
            is_memory(rt, refusal);
            assert!(rt; told(made) == before);
            made.submit(request(rt, ask)).expect(rt, "a ticket")
        }
    }
}

/// The one input that waits becomes durable.
fn flushes(rt: &impl Abort, made: &mut Stored) {
    let before = told(made);
    let landed = match made.flush() {
        Ok(landed) => landed,
        Err(refusal) => {
            is_memory(rt, refusal);
            assert!(rt; told(made) == before);
            made.flush().expect(rt, "a device that works")
        }
    };
    assert!(rt; landed.count == 1);
}

/// A checkpoint, where nothing waits.
fn checkpoints(rt: &impl Abort, made: &mut Stored) {
    let before = told(made);
    let landed = match made.checkpoint() {
        Ok(landed) => landed,
        Err(refusal) => {
            is_memory(rt, refusal);
            assert!(rt; told(made) == before);
            made.checkpoint().expect(rt, "a device that works")
        }
    };
    assert!(rt; landed.count == 0);
}

/// The request is accepted, becomes durable, and is answered.
fn lasts(rt: &impl Abort, made: &mut Stored, ask: Ask) {
    let ticket = asked(rt, made, ask);
    flushes(rt, made);
    match made.redeem(ticket) {
        Ok(_) => {}
        Err((_ticket, refusal)) => panic!(rt; "{refusal}"),
    }
}

fn last(rt: &impl Abort, made: &mut Stored, asks: &[Ask]) {
    for ask in asks {
        lasts(rt, made, *ask);
    }
}

/// It may send these again.
fn has_window(rt: &impl Abort, made: &Stored, sends: &[Sends]) {
    let window = match made.desk().window() {
        Ok(window) => window,
        Err(_) => made.desk().window().expect(rt, "ample memory"),
    };
    sends_are(rt, &window, sends);
}

/// It knows these leaders and floors.
fn decides(rt: &impl Abort, made: &Stored, tells: &[Tells]) {
    let told = match made.desk().decisions() {
        Ok(told) => told,
        Err(_) => made.desk().decisions().expect(rt, "ample memory"),
    };
    tells_are(rt, &told, tells);
}

/// The node, which has no open ticket, is closed, and recovered from its device.
fn reopened<R: Abort + AllocGlobal>(rt: &R, made: Stored, number: u8) -> Stored {
    let mut made = made;
    made.close();
    assert!(rt; !made.is_open());
    assert!(rt; made.open_tickets() == 0);
    recovered(rt, made.into_device(), number)
}

/// A node, what it is asked, and what it may send again and knows at the end.
type Life = (u8, &'static [Ask], &'static [Sends], &'static [Tells]);

const TOKEN: Note = Note::Token("red", 5, 10, 1);

/// The messages of node 3, and of node 2, which stands with the greatest bid.
const SMALLER: Note = Note::Token("red", 5, 20, 3);

const GREATEST: Note = Note::Token("red", 5, 30, 2);

const ELECTED: Note = Note::Elected("red", 5, 30, 2);

const LEADS: Tells = Leads("red", 5, 30, 2);

static ELECTION: [Life; 3] = [
    (
        1,
        &[
            Ask::Stand("red", 5, 10),
            Ask::Take(0, SMALLER),
            Ask::Take(1, GREATEST),
            Ask::Take(2, ELECTED),
        ],
        &[
            Carry(0, TOKEN),
            Carry(1, SMALLER),
            Carry(2, GREATEST),
            Carry(3, ELECTED),
        ],
        &[LEADS],
    ),
    (
        2,
        &[
            Ask::Stand("red", 5, 30),
            Ask::Take(0, TOKEN),
            Ask::Take(1, SMALLER),
            Ask::Take(2, GREATEST),
            Ask::Take(3, ELECTED),
        ],
        &[Carry(0, GREATEST), Carry(1, ELECTED)],
        &[LEADS],
    ),
    (
        3,
        &[
            Ask::Stand("red", 5, 20),
            Ask::Take(0, GREATEST),
            Ask::Take(1, ELECTED),
        ],
        &[Carry(0, SMALLER), Carry(1, GREATEST), Carry(2, ELECTED)],
        &[LEADS],
    ),
];

/// A new node lives so, with a stop before a checkpoint and one behind it.
fn lives<R: Abort + AllocGlobal>(rt: &R, life: &Life) {
    let (number, asks, sends, tells) = *life;
    let mut made = created(rt, number);
    last(rt, &mut made, asks);
    let mut made = reopened(rt, made, number);
    checkpoints(rt, &mut made);
    let made = reopened(rt, made, number);
    has_window(rt, &made, sends);
    decides(rt, &made, tells);
    drop(made);
}

#[test]
fn refused_growths_of_a_first_election(rt: HostRuntime) {
    for life in &ELECTION {
        lives(&rt, life);
    }
}

/// A journal of layout 1 of node 1 of 3, capacity 4,096, with one frame: a Stand of group `red`, term 5, bid 10.
const LAYOUT_1: [u8; 37] = [
    0x43, 0x52, 0x4A, 0x52, 0x4E, 0x4C, 0x30, 0x31, 1, 3, 0, 0, 0x10, 0, 0, 0, 1, 0, 1, 0, 0, 0,
    0x0D, 1, 3, 0x72, 0x65, 0x64, 0, 0, 0, 5, 0, 0, 0, 0x0A, 0,
];

/// A device with this image.
fn device_with<R: Abort + AllocGlobal>(rt: &R, image: &[u8]) -> FuseDevice<MemDevice> {
    let mut device = empty_device(rt);
    assert!(rt; device.write_at(0, image).is_ok());
    device
}

static WINS: [Ask; 2] = [Ask::Take(0, TOKEN), Ask::Retire("red", 5)];

static WINDOW: [Sends; 2] = [Carry(0, TOKEN), Carry(1, Note::Elected("red", 5, 10, 1))];

static DECIDED: [Tells; 2] = [Leads("red", 5, 10, 1), GaveUp("red", 5)];

/// Node 1 of an earlier layout wins, and gives up the terms below by a checkpoint.
#[test]
fn refused_growths_of_a_floor(rt: HostRuntime) {
    let mut made = recovered(&rt, device_with(&rt, &LAYOUT_1), 1);
    last(&rt, &mut made, &WINS);
    let made = reopened(&rt, made, 1);
    has_window(&rt, &made, &WINDOW);
    decides(&rt, &made, &DECIDED);
    drop(made);
}
