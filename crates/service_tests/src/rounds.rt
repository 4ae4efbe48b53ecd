// Rounds by calls: the one thread that the tests have is client and flusher in turn.
use crate::calls::refused;
use crate::hubs::{Ended, Play, plays};
use crate::rows::{Told, device_for, empty_device, key, leader, reopened, told, told_by};
use crate::station::Step;
use crate::station::Step::*;
use disk_model::{Device, FuseDevice, Tear};
use node_store::Node;
use ring_records::{Input, Refusal};
use std::alloc::AllocGlobal;
use std::process::Abort;
use std::sync::Wait;
use std::test::*;
use std::thread::Threads;
use std::time::Clock;
use test_rows::{Ask, Note, Op};

const RED: Ask = Ask::Take(0, Note::Elected("red", 5, 30, 2));

const BLUE: Ask = Ask::Take(1, Note::Elected("blue", 1, 30, 2));

const ELECTED_GREEN: Ask = Ask::Take(2, Note::Elected("green", 7, 30, 2));

const PINK: Ask = Ask::Take(3, Note::Elected("pink", 2, 30, 2));

const LATER_BLUE: Ask = Ask::Take(140, Note::Elected("blue", 1, 30, 2));

const STAND_RED: Ask = Ask::Stand("red", 5, 10);

const STAND_GREEN: Ask = Ask::Stand("green", 1, 3);

/// How many inputs the journal has, whether it is spoiled, and how many rounds the board is owed.
fn counts<V: Device + Drop>(
    ended: Result<Ended<V>, Refusal>,
) -> Result<(u64, bool, usize), Refusal> {
    match ended {
        Ok(ended) => {
            let journal = &ended.journal;
            let counts = (journal.len(), journal.is_spoiled(), ended.owed);
            drop(ended);
            Ok(counts)
        }
        Err(refusal) => Err(refusal),
    }
}

/// Two rounds, the first with two leaders; then the hub is closed.
const PUBLISHES: &[Step] = &[
    Submits(RED),
    Submits(BLUE),
    Reads("red", None),
    IsPublished(false),
    Rounds(0, 2, 2),
    IsPublished(true),
    Reads("red", Some((5, 30, 2))),
    Reads("blue", Some((1, 30, 2))),
    Leader("red", 5, 30, 2),
    Redeems,
    Redeems,
    Submits(STAND_GREEN),
    Rounds(2, 1, 0),
    IsPublished(true),
    Redeems,
    Closes,
    RoundsNot,
];

#[test]
fn a_round_publishes_what_it_makes_durable(rt: HostRuntime) -> Result<(), Fail> {
    let ended = plays(&rt, empty_device(&rt), 4096, Play::Alone(PUBLISHES));
    assert!(rt; counts(ended) == Ok((3, false, 0)));
    Ok(())
}

/// A leader and a floor are made known by a round, and a floor by the next.
const GIVES_UP: &[Step] = &[
    Submits(RED),
    Submits(Ask::Retire("red", 4)),
    Rounds(0, 2, 2),
    Below("red", 3, 4),
    Redeems,
    Redeems,
    Submits(Ask::Retire("red", 5)),
    Below("red", 3, 4),
    Rounds(2, 1, 1),
    Below("red", 4, 5),
    Leader("red", 5, 30, 2),
    Redeems,
    Closes,
    RoundsNot,
];

#[test]
fn a_round_publishes_floors(rt: HostRuntime) -> Result<(), Fail> {
    let ended = plays(&rt, empty_device(&rt), 4096, Play::Alone(GIVES_UP));
    assert!(rt; counts(ended) == Ok((3, false, 0)));
    Ok(())
}

/// The device fails with a batch.
const FAILS: &[Step] = &[Submits(RED), Fails, Reads("red", None)];

#[test]
fn a_flusher_ends_with_its_device(rt: HostRuntime) -> Result<(), Fail> {
    let device = FuseDevice::new(empty_device(&rt), 2, false);
    assert!(rt; counts(plays(&rt, device, 4096, Play::Alone(FAILS))) == Ok((0, true, 0)));
    Ok(())
}

/// Leaders and a floor are made known, a round for each.
const GROWS: &[Step] = &[
    Leads(RED),
    Leads(BLUE),
    Leads(Ask::Retire("red", 5)),
    Leads(ELECTED_GREEN),
    Leads(PINK),
    Reads("red", Some((5, 30, 2))),
    Below("red", 4, 5),
    Reads("blue", Some((1, 30, 2))),
    Reads("green", Some((7, 30, 2))),
];

/// What the steps leave of a hub on a new device.
fn grown<R: Threads + Wait + Clock + Abort + AllocGlobal + Sync>(
    rt: &R,
    steps: &'static [Step],
) -> Result<(u64, bool, usize), Refusal> {
    match device_for(rt, 4096) {
        Ok(device) => counts(plays(rt, device, 4096, Play::Alone(steps))),
        Err(_) => Err(Refusal::OutOfMemory),
    }
}

/// The same. Where making it was refused, it is made again.
fn grown_at_last<R: Threads + Wait + Clock + Abort + AllocGlobal + Sync>(
    rt: &R,
    steps: &'static [Step],
) -> Result<(u64, bool, usize), Refusal> {
    match grown(rt, steps) {
        Err(Refusal::OutOfMemory) => grown(rt, steps),
        seen => seen,
    }
}

/// The test passes as it stands, with memory enough. `rt try --test --fail-alloc N` has its growth N refused.
#[test]
fn refused_growths(rt: HostRuntime) -> Result<(), Fail> {
    assert!(rt; grown_at_last(&rt, GROWS) == Ok((5, false, 0)));
    Ok(())
}

/// Two appenders stand, one behind the other, and a round makes both durable. Then a leader and 69 messages wait, which a
/// round makes durable by a checkpoint; behind it two more leaders are made known, the last of which may stay unpublished.
const RENEWS_AT_LAST: &[Step] = &[
    Submits(STAND_RED),
    Submits(STAND_GREEN),
    RoundsAtLast(0, 2, 0),
    Redeems,
    Redeems,
    Submits(RED),
    Takes(1, 70),
    IsDue(true),
    RoundsAtLast(2, 70, 1),
    Epoch(2),
    IsDue(false),
    Redeems,
    Leads(Ask::Take(70, Note::Elected("blue", 1, 30, 2))),
    Leads(Ask::Take(71, Note::Elected("pink", 2, 30, 2))),
    Reads("red", Some((5, 30, 2))),
    Reads("blue", Some((1, 30, 2))),
    Closes,
    RoundsNot,
];

#[test]
fn refused_growths_of_a_checkpoint(rt: HostRuntime) -> Result<(), Fail> {
    assert!(rt; grown_at_last(&rt, RENEWS_AT_LAST) == Ok((74, false, 0)));
    Ok(())
}

/// What the device keeps of the node behind the play, after which nothing is owed.
fn ends<V: Device + Drop + Send, R: Threads + Wait + Clock + Abort + AllocGlobal + Sync>(
    rt: &R,
    device: V,
    capacity: u32,
    play: Play<'_>,
) -> V {
    match plays(rt, device, capacity, play) {
        Ok(ended) => {
            let Ended {
                journal,
                owed,
                settled,
            } = ended;
            drop(settled);
            assert!(rt; owed == 0);
            journal.into_device()
        }
        Err(refusal) => refused(rt, refusal),
    }
}

/// A Stand, 66 leaders and 74 messages wait, which take 20 + 140 * 29 bytes beside the 42 of no inputs, more than half of
/// 8,192. The round makes all of them durable by a checkpoint, which tells the leaders, more than a batch may. The next
/// rounds are batches, in the new area. Then the hub is closed.
const RENEWS: &[Step] = &[
    Submits(STAND_RED),
    Submits(RED),
    TakesLeaders,
    Takes(66, 140),
    Used(42 + 20 + 140 * 29),
    IsDue(true),
    Reads("red", None),
    Epoch(1),
    Rounds(0, 141, 66),
    Reads("red", Some((70, 30, 2))),
    Epoch(2),
    IsPublished(true),
    IsDue(false),
    Redeems,
    Redeems,
    Submits(STAND_GREEN),
    Rounds(141, 1, 0),
    Epoch(2),
    Redeems,
    Leads(LATER_BLUE),
    Reads("blue", Some((1, 30, 2))),
    Epoch(2),
    Closes,
    RoundsNot,
];

/// What comes behind the checkpoint.
const BEHIND: [Op; 2] = [
    Op::Stand("green", 1, 3),
    Op::Take(140, Note::Elected("blue", 1, 30, 2)),
];

fn input(rt: &impl Abort, op: Op) -> Input {
    op.input().expect(rt, "an input")
}

/// The node has what comes behind the checkpoint, and knows the leaders that were made known before and behind it.
fn is_renewed<V: Device>(rt: &impl Abort, made: &Node<V>) {
    assert!(rt; told(made) == (2, 141, 143, 69));
    assert!(rt; made.history() == [input(rt, BEHIND[0]), input(rt, BEHIND[1])].as_slice());
    assert!(rt; Ok(made.desk().who(&key(rt, "red", 5))) == leader(rt, 30, 2));
    assert!(rt; Ok(made.desk().who(&key(rt, "blue", 1))) == leader(rt, 30, 2));
}

#[test]
fn a_checkpoint_makes_all_that_waits_durable(rt: HostRuntime) -> Result<(), Fail> {
    let device = ends(&rt, empty_device(&rt), 8192, Play::Alone(RENEWS));
    let made = reopened(&rt, device);
    is_renewed(&rt, &made);
    drop(made);
    Ok(())
}

/// A Stand is made durable, and its reply released. Then a leader and 69 messages wait, the hub is closed, and the device
/// fails within the checkpoint of these.
const FAILS_DUE: &[Step] = &[
    Submits(STAND_RED),
    Rounds(0, 1, 0),
    Redeems,
    Submits(RED),
    Takes(1, 70),
    IsDue(true),
    Closes,
    Fails,
    Reads("red", None),
];

/// Which call of a checkpoint's six fails, counted from 0, what becomes of the bytes that were not synced, and what the
/// node holds then. Its Stand and the message of that were released before.
static STOPS: [(u64, Tear, Told); 10] = [
    (0, Tear::New, (1, 0, 1, 1)),
    (1, Tear::Old, (1, 0, 1, 1)),
    (2, Tear::Old, (1, 0, 1, 1)),
    (2, Tear::New, (1, 0, 1, 1)),
    (3, Tear::Fill(1), (1, 0, 1, 1)),
    (4, Tear::Old, (1, 0, 1, 1)),
    (4, Tear::Fill(1), (2, 71, 71, 2)),
    (4, Tear::New, (2, 71, 71, 2)),
    (5, Tear::Old, (1, 0, 1, 1)),
    (5, Tear::New, (2, 71, 71, 2)),
];

/// What the device keeps of the node where that call fails: two calls made the journal, and four the Stand durable.
fn stopped<R: Threads + Wait + Clock + Abort + AllocGlobal + Sync>(
    rt: &R,
    call: u64,
    tear: Tear,
) -> Told {
    let device = FuseDevice::new(empty_device(rt), call.saturating_add(2 + 4), true);
    let mut device = ends(rt, device, 4096, Play::Alone(FAILS_DUE)).into_inner();
    device.crash(tear);
    told_by(rt, device)
}

#[test]
fn a_device_that_fails_within_a_checkpoint(rt: HostRuntime) -> Result<(), Fail> {
    for row in &STOPS {
        let (call, tear, left) = *row;
        assert!(rt; stopped(&rt, call, tear) == left);
    }
    Ok(())
}

/// The hub is closed before there is a round.
const CLOSES: &[Step] = &[IsDue(true), Closes, IsDue(true), RoundsNot];

/// The round of the open hub makes the checkpoint, of no inputs more.
const RENEWS_NOTHING: &[Step] = &[
    IsDue(true),
    Rounds(70, 0, 0),
    Epoch(2),
    Closes,
    IsDue(false),
    RoundsNot,
];

/// What the device keeps of the node of which a checkpoint is due, all of whose 70 inputs are durable, behind the steps.
fn filled<R: Threads + Wait + Clock + Abort + AllocGlobal + Sync>(
    rt: &R,
    steps: &'static [Step],
) -> Told {
    told_by(rt, ends(rt, empty_device(rt), 4096, Play::Filled(steps)))
}

#[test]
fn a_closed_hub_makes_no_checkpoint_of_nothing(rt: HostRuntime) -> Result<(), Fail> {
    assert!(rt; filled(&rt, CLOSES) == (1, 0, 70, 1));
    assert!(rt; filled(&rt, RENEWS_NOTHING) == (2, 70, 70, 1));
    Ok(())
}
