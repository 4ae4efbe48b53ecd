// Events of which a growth is refused: what they leave, and the course that begins again.
use crate::rows::node;
use crate::worlds::{answers, is_refused, is_sealed, submit};
use disk_model::Tear;
use ring_records::{Refusal, Shown};
use ring_world::{Event, Outcome, World};
use std::alloc::Global;
use std::process::Abort;
use test_rows::{Ask, Say};

/// An event in plain numbers.
#[derive(Clone, Copy)]
enum Move {
    Asks(u8, Ask),
    Delivers(u8, u64),
    Credits(u8, u64),
    DeliversAll,
    Flushes(u8),
    Checkpoints(u8),
    Crashes(u8),
    StopsCheckpoint(u8, u64, Tear),
}

/// What it brings.
#[derive(Clone, Copy)]
enum Brings {
    /// This ticket, and no reply.
    Sealed(u64),
    /// This ticket, and the reply to it.
    Answers(u64, Say),
    /// The same, which names a leader.
    Names(u64, Say),
    /// So many inputs are durable, and so many replies are released.
    Lands(u32, usize),
    /// So many deliveries.
    Delivered(u32),
    /// The node has so many inputs, and so many tickets are lost.
    Up(u64, usize),
    /// It is refused, since the packet was never released.
    Unknown,
}

/// A ring of so many nodes, whether it is eager, and what happens to it.
type Row = (u8, bool, &'static [(Move, Brings)]);

static ROWS: [Row; 3] = [
    // Row credit_after_sync.
    (
        3,
        false,
        &[
            (Move::Asks(1, Ask::Stand("red", 5, 10)), Brings::Sealed(1)),
            (Move::Flushes(1), Brings::Lands(1, 1)),
            (Move::Delivers(1, 0), Brings::Sealed(2)),
            (Move::Crashes(2), Brings::Up(0, 1)),
            (Move::Credits(2, 1), Brings::Unknown),
            (Move::Delivers(1, 0), Brings::Sealed(3)),
            (Move::Flushes(2), Brings::Lands(1, 1)),
            (Move::Credits(2, 1), Brings::Sealed(4)),
            (Move::Flushes(1), Brings::Lands(1, 1)),
        ],
    ),
    // Row stopped_checkpoint.
    (
        3,
        false,
        &[
            (Move::Asks(1, Ask::Stand("red", 5, 10)), Brings::Sealed(1)),
            (Move::StopsCheckpoint(1, 4, Tear::New), Brings::Up(0, 1)),
            (Move::Asks(1, Ask::Stand("red", 5, 10)), Brings::Sealed(2)),
            (Move::Checkpoints(1), Brings::Lands(1, 1)),
            (Move::StopsCheckpoint(1, 6, Tear::Old), Brings::Up(1, 0)),
        ],
    ),
    // An election, and what is asked behind it.
    (
        2,
        true,
        &[
            (
                Move::Asks(1, Ask::Stand("red", 9, 5)),
                Brings::Answers(1, Say::Stood),
            ),
            (Move::DeliversAll, Brings::Delivered(4)),
            (
                Move::Asks(2, Ask::Who("red", 9)),
                Brings::Names(2, Say::Leader(5, 1)),
            ),
            (Move::Checkpoints(1), Brings::Lands(0, 0)),
            (Move::Crashes(1), Brings::Up(3, 0)),
            (
                Move::Asks(1, Ask::Latest("red")),
                Brings::Names(3, Say::Latest(9, 5, 1)),
            ),
        ],
    ),
];

impl Move {
    /// Whether a node is asked.
    fn is_request(self) -> bool {
        matches!(
            self,
            Move::Asks(..) | Move::Delivers(..) | Move::Credits(..)
        )
    }

    fn event(self, rt: &impl Abort) -> Event {
        match self {
            Move::Asks(number, ask) => submit(rt, number, ask),
            Move::Delivers(number, no) => {
                let from = node(rt, number);
                Event::Deliver { from, no }
            }
            Move::Credits(number, upto) => {
                let from = node(rt, number);
                Event::Credit { from, upto }
            }
            Move::DeliversAll => Event::DeliverAll,
            Move::Flushes(number) => Event::Flush(node(rt, number)),
            Move::Checkpoints(number) => Event::Checkpoint(node(rt, number)),
            Move::Crashes(number) => Event::Crash(node(rt, number)),
            Move::StopsCheckpoint(number, call, tear) => {
                let node = node(rt, number);
                Event::StopCheckpoint { node, call, tear }
            }
        }
    }
}

/// What the nodes show to which something happens.
fn shown(rt: &impl Abort, world: &World) -> (Shown, Shown) {
    let first = world.show(node(rt, 1)).expect(rt, "a node of the ring");
    let second = world.show(node(rt, 2)).expect(rt, "a node of the ring");
    (first, second)
}

/// The outcome is this.
fn comes(rt: &impl Abort, outcome: &Outcome, brings: Brings) {
    match brings {
        Brings::Sealed(ticket) => is_sealed(rt, outcome, ticket),
        Brings::Answers(ticket, say) | Brings::Names(ticket, say) => {
            answers(rt, outcome, ticket, say)
        }
        Brings::Lands(count, replies) => lands(rt, outcome, count, replies),
        Brings::Delivered(count) => assert!(rt; outcome.delivered == Some(count)),
        Brings::Up(inputs, lost) => is_up(rt, outcome, inputs, lost),
        Brings::Unknown => panic!(rt; "not refused"),
    }
}

/// So many inputs became durable, and so many replies were released.
fn lands(rt: &impl Abort, outcome: &Outcome, count: u32, replies: usize) {
    assert!(rt; outcome.flushed == Some(count));
    assert!(rt; outcome.replies.len() == replies);
}

/// The node has so many inputs, and so many tickets are lost.
fn is_up(rt: &impl Abort, outcome: &Outcome, inputs: u64, lost: usize) {
    assert!(rt; outcome.up == Some(inputs));
    assert!(rt; outcome.lost.len() == lost);
}

/// What the event brings. A request that a lazy ring refuses for want of memory changes nothing, and is made again.
fn stepped(
    rt: &impl Abort,
    world: &mut World,
    is_eager: bool,
    moved: Move,
) -> Result<Outcome, Refusal> {
    let before = shown(rt, world);
    let first = world.step(moved.event(rt));
    let again = !is_eager && moved.is_request() && matches!(first, Err(Refusal::OutOfMemory));
    if !again {
        return first;
    }
    assert!(rt; shown(rt, world) == before);
    world.step(moved.event(rt))
}

/// Whether it happens and brings this, or memory is wanting.
fn happens(
    rt: &impl Abort,
    world: &mut World,
    is_eager: bool,
    moved: Move,
    brings: Brings,
) -> bool {
    match stepped(rt, world, is_eager, moved) {
        Ok(outcome) => {
            comes(rt, &outcome, brings);
            true
        }
        Err(Refusal::OutOfMemory) => false,
        Err(refusal) => {
            assert!(rt; matches!(brings, Brings::Unknown));
            assert!(rt; refusal == Refusal::Unknown);
            true
        }
    }
}

/// So many replies that were handed out named a leader, also behind a growth that was refused.
fn are_named(rt: &impl Abort, world: &World, count: usize) {
    let list = match world.announced() {
        Ok(list) => list,
        Err(_) => world.announced().expect(rt, "ample memory"),
    };
    assert!(rt; list.len() == count);
}

/// Whether all of it happens. Where a growth is refused the world has failed.
fn is_played(rt: &impl Abort, alloc: Global, row: &Row) -> bool {
    let (n, is_eager, steps) = *row;
    let Ok(mut world) = World::new(alloc, n, is_eager, 4_096) else {
        return false;
    };
    let mut all = true;
    let mut named = 0usize;
    for (moved, brings) in steps {
        all = happens(rt, &mut world, is_eager, *moved, *brings);
        if !all {
            is_refused(rt, &mut world, Event::DeliverAll, Refusal::Failed);
            break;
        }
        if matches!(brings, Brings::Names(..)) {
            named = named.saturating_add(1);
        }
    }
    are_named(rt, &world, named);
    world.end();
    all
}

#[test]
fn refused_growths(rt: HostRuntime) {
    for row in &ROWS {
        let played = is_played(&rt, rt.alloc(), row) || is_played(&rt, rt.alloc(), row);
        assert!(rt; played);
    }
}
