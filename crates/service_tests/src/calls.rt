// Calls of hubs and flushers that go well, or are refused as they are to be.

use crate::rows::request;
use commit_hub::{Hub, NodeLedger, Share};
use decision_board::Naming;
use disk_model::Device;
use group_commit::{Stub, Ticket};
use ring_records::{Refusal, Reply};
use ring_service::{Flusher, Gate};
use std::process::Abort;
use std::sync::Wait;
use std::sync::atomic::{AtomicBool, Ordering};
use test_rows::Ask;

/// Flushes until the hub is closed, which is told before, and nothing waits, or the device fails. Where a growth is
/// refused it goes on.
pub fn flush_all<V: Device, J: Naming, A: NodeLedger, R: Wait + Abort, G: Gate>(
    rt: &R,
    hub: &Hub<A>,
    flusher: &mut Flusher<V, J, A>,
    gate: &mut G,
    closing: &AtomicBool,
) {
    for _ in rt.forever() {
        let is_last = match round(rt, hub, flusher, gate) {
            Ok(Some(_)) | Err(Refusal::OutOfMemory) => false,
            Ok(None) => closes(rt, closing),
            Err(Refusal::Device(_)) => true,
            Err(refusal) => refused(rt, refusal),
        };
        if is_last {
            break;
        }
    }
}

/// A refusal that is not to be.
pub fn refused(rt: &impl Abort, refusal: Refusal) -> ! {
    panic!(rt; "{refusal}")
}

/// A round: how many inputs it makes durable, and how many leaders and floors they make known.
pub fn round<V: Device, J: Naming, A: NodeLedger, R: Wait, G: Gate>(
    rt: &R,
    hub: &Hub<A>,
    flusher: &mut Flusher<V, J, A>,
    gate: &mut G,
) -> Result<Option<(u64, usize)>, Refusal> {
    let round = flusher.flush_round(rt, hub, gate);
    let counts = match &round {
        Ok(Some(landed)) => Ok(Some((landed.count, landed.notices.len()))),
        Ok(None) => Ok(None),
        Err(refusal) => Err(*refusal),
    };
    drop(round);
    counts
}

/// It was told before that the hub closes.
fn closes(rt: &impl Abort, closing: &AtomicBool) -> bool {
    assert!(rt; closing.load(Ordering::SeqCst));
    true
}

/// Keeps what it was told last.
#[derive(Drop)]
pub struct Noted {
    pub first: u64,
    pub count: usize,
}

impl Gate for Noted {
    fn before_commit(&mut self, first: u64, count: usize) {
        self.first = first;
        self.count = count;
    }
}

/// A ticket for the request. Where a growth is refused it is asked again.
pub fn submits<A: NodeLedger, R: Wait + Abort>(
    rt: &R,
    hub: &Hub<A>,
    share: &mut Share<A>,
    ask: Ask,
) -> Ticket {
    match hub.submit(rt, share, request(rt, ask)) {
        Ok(ticket) => ticket,
        Err(refusal) => submits_again(rt, hub, share, ask, refusal),
    }
}

/// A ticket for the request, which was refused a growth.
fn submits_again<A: NodeLedger, R: Wait + Abort>(
    rt: &R,
    hub: &Hub<A>,
    share: &mut Share<A>,
    ask: Ask,
    refusal: Refusal,
) -> Ticket {
    assert!(rt; refusal == Refusal::OutOfMemory);
    hub.submit(rt, share, request(rt, ask))
        .expect(rt, "ample memory")
}

/// The stub of the ticket's reply. A ticket that is refused is forfeited.
pub fn released<A: NodeLedger, R: Wait + Abort>(
    rt: &R,
    hub: &Hub<A>,
    ticket: Ticket,
) -> Result<Stub, Refusal> {
    match hub.redeem_wait(rt, ticket) {
        Ok((reply, stub, _begun)) => Ok(answered(rt, reply, stub)),
        Err((ticket, refusal)) => {
            forfeits(rt, hub, ticket);
            Err(refusal)
        }
    }
}

/// The stub is of this reply.
fn answered(rt: &impl Abort, reply: Reply, stub: Stub) -> Stub {
    assert!(rt; stub.reply() == reply);
    stub
}

/// The ticket is forfeited.
fn forfeits<A: NodeLedger, R: Wait + Abort>(rt: &R, hub: &Hub<A>, ticket: Ticket) {
    assert!(rt; hub.forfeit(rt, ticket).is_ok());
}

/// How many inputs a round makes durable, and how many leaders and floors they make known. Where a growth is refused it is tried
/// again.
pub fn rounds<V: Device, J: Naming, A: NodeLedger, R: Wait + Abort, G: Gate>(
    rt: &R,
    hub: &Hub<A>,
    flusher: &mut Flusher<V, J, A>,
    gate: &mut G,
) -> (u64, usize) {
    let landed = round(rt, hub, flusher, gate);
    if landed == Err(Refusal::OutOfMemory) {
        return counts_of(rt, round(rt, hub, flusher, gate));
    }
    counts_of(rt, landed)
}

/// What a round landed that makes something durable.
fn counts_of(rt: &impl Abort, landed: Result<Option<(u64, usize)>, Refusal>) -> (u64, usize) {
    match landed {
        Ok(Some(counts)) => counts,
        Ok(None) => panic!(rt; "nothing waits"),
        Err(refusal) => refused(rt, refusal),
    }
}

/// A round that makes a leader or a floor known.
pub fn leads<V: Device, J: Naming, A: NodeLedger, R: Wait + Abort>(
    rt: &R,
    hub: &Hub<A>,
    flusher: &mut Flusher<V, J, A>,
    share: &mut Share<A>,
    ask: Ask,
) {
    let ticket = submits(rt, hub, share, ask);
    assert!(rt; rounds(rt, hub, flusher, &mut ()) == (1, 1));
    assert!(rt; released(rt, hub, ticket).is_ok());
}

/// The device fails within the round that makes the ticket's input durable: the flusher has ended, and the ticket is given
/// back with no reply.
pub fn fails_next<V: Device, J: Naming, A: NodeLedger, R: Wait + Abort>(
    rt: &R,
    hub: &Hub<A>,
    flusher: &mut Flusher<V, J, A>,
    ticket: Ticket,
) {
    assert!(rt; round(rt, hub, flusher, &mut ()) == Err(Refusal::Device(1)));
    assert!(rt; round(rt, hub, flusher, &mut ()) == Err(Refusal::Failed));
    match released(rt, hub, ticket) {
        Ok(_stub) => panic!(rt; "a reply"),
        Err(refusal) => assert!(rt; refusal == Refusal::Failed),
    }
}
