//! A node's doors.
ghost use Rattle.std.specs.Prelude.{◌≡◌, ◌≤◌, length, IfSome};

use crate::enrolled::EnrolledService;
use crate::event::Event;
use crate::links::Links;
use crate::marks::{Booth, MarkReader};
use crate::site::Doors;
use crate::start_latch::StartLatch;
use crate::window::send_what_may_miss;
use client_stream::{ClientReader, ClientWriter, next_client, part};
use commit_hub::{Hub, NodeLedger, Share};
use decision_board::{Board, BoardReader, Naming};
use ring_service::{EntryService, HubService};
use ring_watch::TallyWriter;
use sessions::{Service, serve};
use std::alloc::Global;
use std::io::BufReader;
use std::net::TcpListener;
use std::sync::Wait;
use std::sync::atomic::{AtomicU64, Ordering};
use std::time::{Clock, Duration};

/// What a door serves by: its number, counted from 0, its share of the hub, and its reader of the board.
#[derive(Drop)]
pub(crate) struct Seat<J: Naming, A: NodeLedger> {
    number: u32,
    share: Share<A>,
    reader: BoardReader<J>,
}

/// A seat for each of so many doors, or `None` where memory or a place is wanting.
pub(crate) fn take_seats<J: Naming, A: NodeLedger, R: Wait>(
    rt: &R,
    alloc: Global,
    hub: &Hub<A>,
    board: &Board<J>,
    count: u32,
) -> Option<Vec<Seat<J, A>>>
    ensures { IfSome result (λ seats. length seats.items ≡ count) }
{
    let mut seats = Vec::with_capacity(alloc, count as usize).ok()?;
    for number in 0..count {
        let (Ok(share), Ok(reader)) = (hub.enter(rt), board.reader()) else {
            return None;
        };
        let seat = Seat {
            number,
            share,
            reader,
        };
        if seats.push(seat).is_err() {
            return None;
        }
    }
    Some(seats)
}

/// What the doors of a node share: where clients come, and how many sessions are begun and how many doors are not done.
#[derive(Drop)]
pub(crate) struct Doorway {
    listener: TcpListener,
    idle: Option<Duration>,
    leap: u32,
    sessions: u64,
    begun: AtomicU64,
    open: AtomicU64,
    ghost bounded: { leap ≤ 999999999 },
}

impl Doorway {
    /// Before the first session.
    pub(crate) fn new(listener: TcpListener, doors: Doors) -> Doorway {
        Doorway {
            listener,
            idle: doors.idle,
            leap: doors.leap,
            sessions: doors.sessions,
            begun: AtomicU64::new(0),
            open: AtomicU64::new(u64::from(doors.count)),
        }
    }

    /// Whether there is a session more, which the door that asked serves.
    fn takes_turn(&self) -> bool {
        self.begun.fetch_add(1, Ordering::SeqCst) < self.sessions
    }

    /// A door is done, which each says once. Whether it was the last one.
    fn closes(&self) -> bool {
        self.open.fetch_sub(1, Ordering::SeqCst) == 1
    }
}

/// Serves a client to its session's end, however it ends, and counts the refusals that it is told. From then on it is not known
/// for what it stood.
fn serve_client<'a, S: Service, R: Wait + Clock>(
    rt: &'a R,
    alloc: Global,
    booth: &'a Booth<'a>,
    service: &mut EnrolledService<'_, R, S>,
) {
    let (stream, idle) = (booth.stream, booth.idle);
    let _ = stream.set_nodelay(true);
    let Ok(reader) = ClientReader::new(rt, stream, idle, booth.stay) else {
        return;
    };
    if let Ok(lines) = BufReader::new(alloc, reader) {
        if let Ok(mut lines) = BufReader::new(alloc, MarkReader::new(rt, alloc, booth, lines)) {
            let writer = ClientWriter::new(rt, stream, idle);
            let mut answers = TallyWriter::new(writer, booth.tally, booth.stay);
            let _ = serve(alloc, &mut lines, &mut answers, service);
        }
    }
    service.withdraw();
    part(rt, stream);
}

/// Serves the next session, where there is one more, and then sends what the successor may miss. Whether there was one.
fn serve_next<S: Service, A: NodeLedger, R: Wait + Clock>(
    rt: &R,
    alloc: Global,
    hub: &Hub<A>,
    doorway: &Doorway,
    links: &Links<'_>,
    door: u32,
    service: &mut EnrolledService<'_, R, S>,
) -> bool {
    if !doorway.takes_turn() {
        return false;
    }
    let Some(stream) = next_client(rt, &doorway.listener) else {
        return false;
    };
    links.tally.begin_session(rt);
    links.watch.hear(rt, Event::Opened(links.node, door));
    let stay = links.turnstile.begin(rt, door);
    let booth = Booth {
        reception: links.reception,
        node: links.node,
        door,
        stream: &stream,
        idle: doorway.idle,
        tally: links.tally,
        stay: &stay,
    };
    serve_client(rt, alloc, &booth, service);
    drop(booth);
    drop(stay);
    drop(stream);
    links.turnstile.end(rt);
    links.tally.end_session(rt);
    links.watch.hear(rt, Event::Ended(links.node, door));
    send_what_may_miss(rt, hub, links);
    true
}

/// Serves a door: one session after the other, while there are some left. The last door of the node says that all are
/// done. Where the ring does not start, nothing is served.
pub(crate) fn serve_door<'a, J: Naming, A: NodeLedger, R: Wait + Clock>(
    rt: &'a R,
    alloc: Global,
    hub: &'a Hub<A>,
    seat: Seat<J, A>,
    doorway: &Doorway,
    links: &'a Links<'a>,
    latch: &StartLatch,
) -> Share<A> {
    let Seat {
        number,
        share,
        reader,
    } = seat;
    if !latch.wait(rt) {
        return share;
    }
    let service = HubService::new(rt, hub, share, reader);
    let service = EntryService::new(rt, hub, doorway.leap, service);
    let mut service = EnrolledService::new(rt, links, number, service);
    for _ in rt.forever() {
        if !serve_next(rt, alloc, hub, doorway, links, number, &mut service) {
            break;
        }
    }
    let service = service.into_service().into_service();
    let (share, _reader, _last) = service.into_parts();
    if doorway.closes() {
        links.leave(rt);
    }
    share
}
