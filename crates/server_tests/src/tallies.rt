// What is counted of a node, and what is told of that at moments that the test tells.
use group_commit::Landed;
use ring_post::{Letter, RingPlace};
use ring_records::{Bid, Candidate, GroupName, Key, Msg, NodeNo, Packet, Shown, Term};
use ring_server::Post;
use ring_status::{
    Bound, CommitTimes, Condition, Counts, Holding, Landing, Letters, NodeStatus, Place,
    node_status,
};
use ring_watch::{Stopwatch, Tally};
use std::alloc::{AllocError, Global};
use std::process::Abort;
use std::sync::Wait;
use std::test::*;
use std::time::{Duration, Instant};

/// The device is busy from this moment on, for so many microseconds.
fn commit<R: Abort + Wait>(rt: &R, tally: &Tally, begun: Instant, micros: u64) {
    let mut stopwatch = Stopwatch::new(tally);
    stopwatch.begin(rt, Some(begun));
    stopwatch.end(rt, begun.checked_add(Duration::from_micros(micros)));
}

/// The bounds in microseconds and in seconds.
static BOUNDS: [(u64, &str); 8] = [
    (200, "0.0002"),
    (1_000, "0.001"),
    (5_000, "0.005"),
    (25_000, "0.025"),
    (100_000, "0.1"),
    (500_000, "0.5"),
    (2_500_000, "2.5"),
    (10_000_000, "10"),
];

/// A commit that was not begun is not counted, nor one of which no clock tells.
fn counts_none<R: Abort + Wait>(rt: &R, alloc: Global, tally: &Tally, begun: Instant) {
    Stopwatch::new(tally).end(rt, Some(begun));
    let mut stopwatch = Stopwatch::new(tally);
    stopwatch.begin(rt, None);
    stopwatch.end(rt, Some(begun));
    let told = tally.commits(alloc).expect(rt, "ample memory");
    assert!(rt; told.count == 0);
    drop(told);
}

/// Each bound was met, and was missed by a microsecond.
fn are_counted(rt: &impl Abort, told: &CommitTimes) {
    assert!(rt; told.within.len() == 8);
    assert!(rt; (told.count, told.micros) == (16, 26_262_408));
    let mut within = 1u64;
    for (row, told) in BOUNDS.iter().zip(&told.within) {
        assert!(rt; (told.bound.micros(), told.bound.seconds()) == *row);
        assert!(rt; told.count == within);
        within = within.saturating_add(2);
    }
}

#[test]
fn commits_are_counted_by_how_long_they_took(rt: HostRuntime) -> Result<(), Fail> {
    let tally = Tally::new(rt.alloc(), None)?;
    let begun = Instant::now(&rt)?;
    counts_none(&rt, rt.alloc(), &tally, begun);
    for row in &BOUNDS {
        commit(&rt, &tally, begun, row.0);
        commit(&rt, &tally, begun, row.0.saturating_add(1));
    }
    let told = tally.commits(rt.alloc())?;
    are_counted(&rt, &told);
    drop(told);
    assert!(rt; Bound::all().len() == 8);
    Ok(())
}

/// What node 2 holds, which is well.
const HELD: Holding = Holding {
    shown: Shown {
        inputs: 0,
        durable: 0,
        sent: 0,
        taken: 0,
        credit: 0,
    },
    used: 42,
    snapshot: 42,
    capacity: 4_096,
    stands: 0,
    floors: 0,
    epoch: 2,
    layout: 3,
    takes_stands: true,
    lacks_room: false,
    is_open: true,
};

/// What is told of node 2 so many milliseconds behind that moment.
fn told_behind<R: Abort + Wait>(
    rt: &R,
    alloc: Global,
    tally: &Tally,
    begun: Instant,
    millis: u64,
) -> Result<NodeStatus, AllocError> {
    let node = NodeNo::new(2).expect(rt, "a node");
    let place = Place {
        node,
        port: 7_102,
        doors: 1,
    };
    let letters = Letters { node, count: 0 };
    let now = begun.checked_add(Duration::from_millis(millis));
    let commits = tally.commits(alloc)?;
    let refusals = tally.refusals(alloc)?;
    Ok(node_status(
        place,
        HELD,
        tally.counts(rt),
        now,
        letters,
        commits,
        refusals,
    ))
}

/// So many milliseconds behind its beginning a commit takes so many seconds, and the node is so.
const WRITINGS: [(u64, u64, Condition); 4] = [
    (0, 0, Condition::Well),
    (9_999, 9, Condition::Well),
    (10_000, 10, Condition::Hangs),
    (11_000, 11, Condition::Hangs),
];

/// Behind so many milliseconds a commit takes so many seconds, and the node is so.
fn is_writing<R: Abort + Wait>(
    rt: &R,
    alloc: Global,
    tally: &Tally,
    begun: Instant,
    millis: u64,
    expected: (u64, Condition),
) {
    let told = told_behind(rt, alloc, tally, begun, millis).expect(rt, "ample memory");
    assert!(rt; (told.writing, told.condition) == expected);
    drop(told);
}

#[test]
fn a_hang_is_told_from_the_tenth_second_on(rt: HostRuntime) -> Result<(), Fail> {
    let tally = Tally::new(rt.alloc(), None)?;
    let begun = Instant::now(&rt)?;
    let mut stopwatch = Stopwatch::new(&tally);
    stopwatch.begin(&rt, Some(begun));
    for (millis, writing, condition) in WRITINGS {
        is_writing(&rt, rt.alloc(), &tally, begun, millis, (writing, condition));
    }
    // it is done, as it may be where it failed
    stopwatch.end(&rt, begun.checked_add(Duration::from_secs(11)));
    is_writing(&rt, rt.alloc(), &tally, begun, 30_000, (0, Condition::Well));
    let told = told_behind(&rt, rt.alloc(), &tally, begun, 30_000)?;
    assert!(rt; (told.commits.count, told.commits.micros) == (1, 11_000_000));
    drop(told);
    Ok(())
}

#[test]
fn the_last_checkpoint_has_an_age(rt: HostRuntime) -> Result<(), Fail> {
    let begun = Instant::now(&rt)?;
    let tally = Tally::new(rt.alloc(), Some(begun))?;
    // what lands so many seconds behind the start, and how old the last checkpoint is a minute behind it
    for (is_checkpoint, seconds, age) in [(false, 10, 60), (true, 20, 40), (false, 30, 40)] {
        let landing = Landing {
            is_checkpoint,
            syncs: 1,
            elections: 0,
            at: begun.checked_add(Duration::from_secs(seconds)),
        };
        tally.land(&rt, landing);
        let told = told_behind(&rt, rt.alloc(), &tally, begun, 60_000)?;
        assert!(rt; told.checkpoint_age == age);
    }
    Ok(())
}

#[test]
fn each_is_counted_as_what_it_is(rt: HostRuntime) -> Result<(), Fail> {
    let tally = Tally::new(rt.alloc(), None)?;
    let times = [(true, 3, 0), (false, 2, 5), (false, 2, 0)];
    for (is_checkpoint, syncs, elections) in times {
        tally.land(
            &rt,
            Landing {
                is_checkpoint,
                syncs,
                elections,
                at: None,
            },
        );
    }
    tally.refuse_round(&rt);
    tally.refuse_message(&rt);
    tally.refuse_message(&rt);
    for _ in 0..4 {
        tally.begin_session(&rt);
    }
    tally.end_session(&rt);
    let counted = Counts {
        batches: 2,
        checkpoints: 1,
        syncs: 7,
        refused_rounds: 1,
        refused_messages: 2,
        elections: 5,
        begun: 4,
        busy: 3,
        since: None,
        renewed: None,
    };
    assert!(rt; tally.counts(&rt) == counted);
    Ok(())
}

/// A token of node 1.
fn token(rt: &impl Abort) -> Msg {
    let key = Key {
        group: GroupName::read(b"red").expect(rt, "a group"),
        term: Term::first(),
    };
    let candidate = Candidate {
        bid: Bid::new(10).expect(rt, "a bid"),
        node: NodeNo::first(),
    };
    Msg::Token { key, candidate }
}

/// What landed has this message too, as the one of that number.
fn carries(landed: &mut Landed, no: u64, msg: &Msg) -> Result<(), AllocError> {
    landed.packets.push(Packet::Carry { no, msg: *msg })?;
    Ok(())
}

/// Node 1 of three sends what is at this index of what landed there.
fn sends<R: Abort + Wait>(rt: &R, post: &Post, landed: &Landed, index: usize) {
    let first = RingPlace {
        node: NodeNo::first(),
        nodes: 3,
    };
    let letter = Letter::of_landed(first, landed, index).expect(rt, "a letter");
    post.send(rt, letter);
}

#[test]
fn letters_wait_at_the_node_that_they_were_sent_to(rt: HostRuntime) -> Result<(), Fail> {
    let (post, _inboxes) = Post::new(rt.alloc(), 3)?;
    let mut landed = Landed::new(rt.alloc());
    let msg: Msg = token(&rt);
    carries(&mut landed, 0, &msg)?;
    carries(&mut landed, 1, &msg)?;
    // for a credit nobody waits
    landed.packets.push(Packet::Credit { upto: 1 })?;
    for index in 0..3 {
        sends(&rt, &post, &landed, index);
    }
    post.done(NodeNo::new(2).expect(&rt, "a node"));
    for (number, count) in [(1, 0), (2, 1), (3, 0)] {
        let node = NodeNo::new(number).expect(&rt, "a node");
        assert!(rt; post.letters(node) == Letters { node, count });
    }
    Ok(())
}
