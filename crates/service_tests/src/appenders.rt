// Two appenders beside a flusher, each in a thread of its own.
ghost use Rattle.ring_records.specs.Snapshot.{IsSound};

use crate::calls::refused;
use crate::hub_clients::Act;
use crate::hubs::plays_duo;
use crate::rows::{empty_device, node, request};
use crate::slow::{Flags, SlowDevice};
use crate::together::Duo;
use disk_model::{Device, FuseDevice};
use gated_journal::{Journal, Opening};
use group_commit::{Desk, Stub};
use ring_records::laws::summary_sound;
use std::alloc::AllocGlobal;
use std::process::Abort;
use std::sync::Wait;
use std::test::*;
use std::thread::Threads;
use std::time::Clock;
use test_rows::{Ask, Note, Op, Say};

const RED: Ask = Ask::Stand("red", 5, 10);

const BLUE: Ask = Ask::Stand("blue", 1, 3);

const STOOD: Option<Say> = Some(Say::Stood);

/// The first appender submits at once, the second once a sync has begun.
const APPENDERS: Duo = Duo {
    first: &[Act::Appends(RED, STOOD)],
    second: &[Act::AwaitsHold, Act::AppendsAndFrees(BLUE, STOOD)],
    later: &[],
    holds_rounds: false,
};

/// What a journal holds in which node 2 leads `red` 5.
fn other_opening<R: Abort + AllocGlobal>(rt: &R) -> Opening
    ensures { IsSound 3 result.base }
{
    summary_sound();
    let taken = Op::Take(0, Note::Elected("red", 5, 30, 2));
    let input = taken.input().expect(rt, "an input");
    let mut opening = Opening::fresh(rt.alloc());
    opening.inputs.push(input).expect(rt, "ample memory");
    opening
}

/// The stub of a desk that holds another history.
fn other_stub<R: Abort + AllocGlobal>(rt: &R) -> Stub {
    let desk = Desk::open(rt.alloc(), node(rt, 1), 3, 4096, 1, other_opening(rt));
    let mut desk = desk.expect(rt, "lawful inputs");
    let stub = stub_of(rt, &mut desk);
    drop(desk);
    stub
}

fn stub_of(rt: &impl Abort, desk: &mut Desk) -> Stub {
    let ticket = desk.submit(request(rt, Ask::Latest("red")));
    match desk.redeem(ticket.expect(rt, "a ticket")) {
        Ok((_, stub)) => stub,
        Err((_ticket, refusal)) => refused(rt, refusal),
    }
}

/// The journal, opened again, holds the desk's inputs.
fn holds<V: Device + Drop, R: Abort + AllocGlobal>(rt: &R, journal: Journal<V>, desk: &Desk) {
    match Journal::reopen(rt.alloc(), journal.into_device(), node(rt, 1), 3) {
        Ok((reopened, opening)) => {
            assert!(rt; opening.inputs.as_slice() == desk.history());
            drop((reopened, opening));
        }
        Err((_device, refusal)) => refused(rt, refusal),
    }
}

/// Both are told that they stood beside this device, and the journal holds what the desk does.
fn append<V: Device + Drop + Send, R: Threads + Wait + Clock + Abort + AllocGlobal + Sync>(
    rt: &R,
    device: V,
    flags: &Flags,
) {
    let (journal, settled) = plays_duo(rt, device, flags, APPENDERS);
    assert!(rt; settled.window == 2);
    settled.vouches(rt, true, true);
    assert!(rt; settled.desk.vouch(&other_stub(rt)) == Ok(false));
    holds(rt, journal, &settled.desk);
    drop(settled);
}

#[test]
fn two_appenders(rt: HostRuntime) -> Result<(), Fail> {
    let flags = Flags::new();
    let device = SlowDevice {
        rt: &rt,
        flags: &flags,
        inner: empty_device(&rt),
    };
    append(&rt, device, &flags);
    Ok(())
}

/// The same, and both are told that the hub has failed.
const FAILED: Duo = Duo {
    first: &[Act::Appends(RED, None)],
    second: &[Act::AwaitsHold, Act::AppendsAndFrees(BLUE, None)],
    later: &[],
    holds_rounds: false,
};

/// Both are told so beside this device, and the journal is spoiled.
fn fails<V: Device + Drop + Send, R: Threads + Wait + Clock + Abort + AllocGlobal + Sync>(
    rt: &R,
    device: V,
    flags: &Flags,
) {
    let (journal, settled) = plays_duo(rt, device, flags, FAILED);
    assert!(rt; settled.window == 0);
    settled.vouches(rt, false, false);
    assert!(rt; journal.is_spoiled());
    drop((journal, settled));
}

/// The first sync of a batch fails once the second appender's input is accepted.
#[test]
fn two_appenders_of_a_device_that_fails(rt: HostRuntime) -> Result<(), Fail> {
    let flags = Flags::new();
    let device = SlowDevice {
        rt: &rt,
        flags: &flags,
        inner: FuseDevice::new(empty_device(&rt), 3, false),
    };
    fails(&rt, device, &flags);
    Ok(())
}
