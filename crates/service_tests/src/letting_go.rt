// A hub that lets go of its inputs behind a checkpoint, as each round does, and goes on.
use crate::hubs::{Play, ends_settled};
use crate::rows::{empty_device, told_by};
use crate::station::Step;
use crate::station::Step::*;
use crate::together::Settled;
use disk_model::MemDevice;
use gated_journal::Journal;
use std::alloc::AllocGlobal;
use std::process::Abort;
use std::sync::Wait;
use std::test::*;
use std::thread::Threads;
use std::time::Clock;
use test_rows::{Ask, Note, Op};

const RED: Ask = Ask::Take(0, Note::Elected("red", 5, 30, 2));

const STAND_RED: Ask = Ask::Stand("red", 5, 10);

const STAND_GREEN: Ask = Ask::Stand("green", 1, 3);

/// What comes behind the checkpoint.
const BEHIND: Op = Op::Stand("green", 1, 3);

/// A Stand, a leader and 70 messages are durable by a checkpoint, and are let go of; a batch before lets go of nothing. A Stand
/// follows in a batch, and the node tells what it knew before.
const LETS_GO: &[Step] = &[
    Submits(STAND_RED),
    Rounds(0, 1, 0),
    Redeems,
    Submits(RED),
    Takes(1, 71),
    IsDue(true),
    Rounds(1, 71, 1),
    Epoch(2),
    Redeems,
    Submits(STAND_GREEN),
    Rounds(72, 1, 0),
    Redeems,
    Submits(Ask::Who("red", 5)),
    Redeems,
    Closes,
    RoundsNot,
];

/// The same with nothing behind the checkpoint; the last stub rests on the first two inputs, which are gone.
const FORGETS: &[Step] = &[
    Submits(STAND_RED),
    Submits(RED),
    Takes(1, 71),
    Rounds(0, 72, 1),
    Redeems,
    Redeems,
    Closes,
    RoundsNot,
];

/// Two checkpoints, behind each of which the hub lets go, and then a Stand in a batch.
const LETS_GO_TWICE: &[Step] = &[
    Submits(STAND_RED),
    Submits(RED),
    Takes(1, 71),
    Rounds(0, 72, 1),
    Redeems,
    Redeems,
    Takes(71, 145),
    IsDue(true),
    Rounds(72, 74, 0),
    Epoch(3),
    Submits(STAND_GREEN),
    Rounds(146, 1, 0),
    Redeems,
    Submits(Ask::Who("red", 5)),
    Redeems,
    Closes,
    RoundsNot,
];

/// What the steps leave of a hub of capacity 4,096, and its journal.
fn left<R: Threads + Wait + Clock + Abort + AllocGlobal + Sync>(
    rt: &R,
    steps: &'static [Step],
) -> (Journal<MemDevice>, Settled) {
    ends_settled(rt, empty_device(rt), Play::Settled(steps))
}

/// Whether the desk vouches for the last stub.
fn is_vouched(rt: &impl Abort, settled: &Settled) -> bool {
    match &settled.first {
        Some(stub) => settled.desk.vouch(stub).expect(rt, "ample memory"),
        None => panic!(rt; "no stub"),
    }
}

/// From which input on the desk keeps them, how many it keeps, and how many are durable.
fn counts(settled: &Settled) -> (u64, usize, u64) {
    let desk = &settled.desk;
    (desk.first_kept(), desk.history().len(), desk.durable())
}

/// The desk keeps what comes behind the checkpoint, and vouches for the last stub.
fn goes_on(rt: &impl Abort, settled: &Settled) {
    assert!(rt; counts(settled) == (72, 1, 73));
    let behind = BEHIND.input().expect(rt, "an input");
    assert!(rt; settled.desk.history() == [behind].as_slice());
    assert!(rt; is_vouched(rt, settled));
}

#[test]
fn a_node_goes_on_behind_what_it_let_go_of(rt: HostRuntime) -> Result<(), Fail> {
    let (journal, settled) = left(&rt, LETS_GO);
    goes_on(&rt, &settled);
    drop(settled);
    assert!(rt; told_by(&rt, journal.into_device()) == (2, 72, 73, 3));
    Ok(())
}

#[test]
fn a_node_lets_go_behind_each_checkpoint(rt: HostRuntime) -> Result<(), Fail> {
    let (journal, settled) = left(&rt, LETS_GO_TWICE);
    assert!(rt; counts(&settled) == (146, 1, 147));
    assert!(rt; is_vouched(&rt, &settled));
    drop(settled);
    assert!(rt; told_by(&rt, journal.into_device()) == (3, 146, 147, 3));
    Ok(())
}

#[test]
fn a_node_vouches_for_nothing_that_it_let_go_of(rt: HostRuntime) -> Result<(), Fail> {
    let (journal, settled) = left(&rt, FORGETS);
    assert!(rt; counts(&settled) == (72, 0, 72));
    assert!(rt; !is_vouched(&rt, &settled));
    drop((journal, settled));
    Ok(())
}
