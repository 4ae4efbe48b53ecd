// A ring of three hubs, each with a flusher and a client in threads of their own, and what the flushers tell in the
// letterboxes of the neighbours; and an audit of the histories that they leave.

use crate::calls::{refused, released};
use crate::hub_clients::Client;
use crate::hubs::{Play, ends_settled};
use crate::rows::{empty_device, key, leader, node, reply, request};
use commit_hub::{Hub, NodeLedger, Share};
use decision_board::Naming;
use disk_model::Device;
use ring_audit::{AuditFault, audit};
use ring_records::{Input, Packet, Request};
use ring_service::Flusher;
use std::alloc::{AllocGlobal, Global};
use std::mem::replace;
use std::process::Abort;
use std::sync::atomic::{AtomicBool, Ordering};
use std::sync::{Mutex, Wait};
use std::test::*;
use std::thread::{Threads, join, map_vec};
use std::time::{Clock, Duration};
use test_rows::{Ask, Note, Op, Say};

/// How many turns of a millisecond an election may take.
const TURNS: u32 = 5_000;

/// A node of the ring, and the bid with which it stands for `red` 5.
#[derive(Clone, Copy)]
pub struct Seat {
    pub number: u8,
    pub bid: u32,
}

const SEATS: [Seat; 3] = [
    Seat { number: 1, bid: 10 },
    Seat { number: 2, bid: 30 },
    Seat { number: 3, bid: 20 },
];

/// What came for a node and it has not taken, and whether its board tells that node 2 leads with 30.
#[derive(Drop)]
struct Place {
    inbox: Mutex<Vec<Packet>>,
    is_told: AtomicBool,
}

impl Place {
    fn new(alloc: Global) -> Place {
        Place {
            inbox: Mutex::new(Vec::new(alloc)),
            is_told: AtomicBool::new(false),
        }
    }
}

/// The places of the three nodes.
#[derive(Drop)]
pub struct Ring {
    first: Place,
    second: Place,
    third: Place,
}

/// The node behind the one of this number, and the one before it.
fn neighbours(number: u8) -> (u8, u8) {
    match number {
        1 => (2, 3),
        2 => (3, 1),
        _ => (1, 2),
    }
}

impl Ring {
    fn new(alloc: Global) -> Ring {
        Ring {
            first: Place::new(alloc),
            second: Place::new(alloc),
            third: Place::new(alloc),
        }
    }

    fn at(&self, number: u8) -> &Place {
        match number {
            1 => &self.first,
            2 => &self.second,
            _ => &self.third,
        }
    }

    /// Whether all three boards tell it.
    fn is_told(&self) -> bool {
        self.first.is_told.load(Ordering::SeqCst)
            && self.second.is_told.load(Ordering::SeqCst)
            && self.third.is_told.load(Ordering::SeqCst)
    }

    fn posts<R: Wait + Abort>(&self, rt: &R, to: u8, packet: Packet) {
        let mut inbox = self.at(to).inbox.lock(rt);
        inbox.push(packet).expect(rt, "ample memory");
    }

    /// Puts what the node tells into the letterboxes of its neighbours.
    fn sends<R: Wait + Abort>(&self, rt: &R, number: u8, packets: &[Packet]) {
        let (after, before) = neighbours(number);
        for packet in packets {
            match packet {
                Packet::Carry { .. } => self.posts(rt, after, *packet),
                Packet::Credit { .. } => self.posts(rt, before, *packet),
            }
        }
    }

    /// All that lies in the letterbox of the node, oldest first, which is empty then.
    fn empties<R: Wait + AllocGlobal>(&self, rt: &R, number: u8) -> Vec<Packet> {
        let mut inbox = self.at(number).inbox.lock(rt);
        replace(&mut *inbox, Vec::new(rt.alloc()))
    }
}

/// Asks, and waits for this reply.
fn asks<A: NodeLedger, R: Wait + Abort>(
    rt: &R,
    hub: &Hub<A>,
    share: &mut Share<A>,
    question: Request,
    say: Say,
) {
    let ticket = hub.submit(rt, share, question).expect(rt, "a ticket");
    match released(rt, hub, ticket) {
        Ok(stub) => assert!(rt; stub.reply() == reply(rt, say)),
        Err(refusal) => refused(rt, refusal),
    }
}

/// Takes the packet.
fn takes<A: NodeLedger, R: Wait + Abort>(
    rt: &R,
    hub: &Hub<A>,
    share: &mut Share<A>,
    packet: Packet,
) {
    match packet {
        Packet::Carry { no, msg } => asks(rt, hub, share, Request::Take(no, msg), Say::Taken),
        Packet::Credit { upto } => asks(rt, hub, share, Request::Acked(upto), Say::Acked),
    }
}

/// Takes what lies in the letterbox, and tells once the board knows that node 2 leads.
fn turns<J: Naming, A: NodeLedger, R: Wait + Abort + AllocGlobal>(
    rt: &R,
    hub: &Hub<A>,
    client: &mut Client<J, A>,
    ring: &Ring,
    number: u8,
) {
    let packets = ring.empties(rt, number);
    for packet in &packets {
        takes(rt, hub, &mut client.share, *packet);
    }
    drop(packets);
    if client.reader.who(&key(rt, "red", 5)) == leader(rt, 30, 2) {
        ring.at(number).is_told.store(true, Ordering::SeqCst);
    }
}

/// Stands, takes what comes until all boards tell that node 2 leads, and closes the hub.
fn campaigns<J: Naming, A: NodeLedger, R: Wait + Clock + Abort + AllocGlobal>(
    rt: &R,
    hub: &Hub<A>,
    client: &mut Client<J, A>,
    ring: &Ring,
    seat: Seat,
) {
    let stand = request(rt, Ask::Stand("red", 5, seat.bid));
    asks(rt, hub, &mut client.share, stand, Say::Stood);
    for _ in 0..TURNS {
        turns(rt, hub, client, ring, seat.number);
        if ring.is_told() {
            break;
        }
        rt.sleep(Duration::from_millis(1));
    }
    hub.close(rt);
    assert!(rt; ring.is_told());
}

/// Flushes until the hub is closed, and sends what each round tells.
fn flushes<V: Device, J: Naming, A: NodeLedger, R: Wait + Abort>(
    rt: &R,
    hub: &Hub<A>,
    flusher: &mut Flusher<V, J, A>,
    ring: &Ring,
    number: u8,
) {
    for _ in rt.forever() {
        let round = flusher.flush_round(rt, hub, &mut ());
        let is_last = match &round {
            Ok(Some(landed)) => {
                ring.sends(rt, number, &landed.packets);
                false
            }
            Ok(None) => true,
            Err(refusal) => refused(rt, *refusal),
        };
        drop(round);
        if is_last {
            break;
        }
    }
}

/// The client has its part in the election beside the flusher.
pub fn takes_part<
    V: Device + Send,
    J: Naming + Send + Sync,
    A: NodeLedger + Send + Sync,
    R: Threads + Wait + Clock + Abort + AllocGlobal + Sync,
>(
    rt: &R,
    hub: &Hub<A>,
    flusher: &mut Flusher<V, J, A>,
    client: &mut Client<J, A>,
    ring: &Ring,
    seat: Seat,
) {
    let ((), ()) = join(
        rt,
        || -> () { flushes(rt, hub, flusher, ring, seat.number) },
        || -> () { campaigns(rt, hub, client, ring, seat) },
    );
}

/// The history that the node's desk has behind the election.
fn history<R: Threads + Wait + Clock + Abort + AllocGlobal + Sync>(
    rt: &R,
    ring: &Ring,
    seat: Seat,
) -> Vec<Input> {
    let play = Play::InRing(ring, seat);
    let (journal, settled) = ends_settled(rt, empty_device(rt), play);
    let inputs = Vec::from_slice(rt.alloc(), settled.desk.history());
    drop((journal, settled));
    inputs.expect(rt, "ample memory")
}

/// The histories of the three nodes, each of which has a thread.
fn histories<R: Threads + Wait + Clock + Abort + AllocGlobal + Sync>(rt: &R) -> Vec<Vec<Input>> {
    let ring = Ring::new(rt.alloc());
    let ring = &ring;
    let seats = Vec::from_array(rt.alloc(), SEATS).expect(rt, "ample memory");
    let each = map_vec(rt, seats, &|seat| history(rt, ring, seat));
    each.expect(rt, "ample memory")
}

/// How many steps the run of the histories has, or why there is none.
fn steps(alloc: Global, histories: &[Vec<Input>]) -> Result<usize, AuditFault> {
    let run = audit(alloc, histories)?;
    Ok(run.len())
}

/// How many inputs the histories have.
fn inputs(histories: &[Vec<Input>]) -> usize {
    let mut count: usize = 0;
    for history in histories {
        count = count.saturating_add(history.len());
    }
    count
}

/// Gives the first message that the history took another bid. Tells its place.
fn changes(rt: &impl Abort, history: &mut Vec<Input>) -> u64 {
    let first = Op::Take(0, Note::Token("red", 5, 20, 3));
    let first = first.input().expect(rt, "an input");
    let other = Op::Take(0, Note::Token("red", 5, 21, 3));
    let place = history.iter().position(|input| *input == first);
    let place = place.expect(rt, "a token");
    let taken = history.get_mut(place).expect(rt, "a place");
    *taken = other.input().expect(rt, "an input");
    place as u64
}

/// What the hubs hold in the end is one run, and no run where node 1 took what node 3 never sent.
#[test]
fn three_hubs_hold_an_election(rt: HostRuntime) {
    let mut histories = histories(&rt);
    let count = inputs(&histories);
    assert!(&rt; steps(rt.alloc(), &histories) == Ok(count));
    let first = histories.get_mut(0).expect(&rt, "a history");
    let place = changes(&rt, first);
    let node = node(&rt, 1);
    assert!(&rt; steps(rt.alloc(), &histories) == Err(AuditFault::Stuck { node, place }));
}
