// A fuse in both modes at each call: which calls fail, what is passed on, and what is counted.
use super::{Step, memory_device, plays, read};
use disk_model::{Device, FuseDevice, MemDevice, SystemCall, SystemFault, Tear};
use std::alloc::AllocGlobal;
use std::io::ErrorKind;
use std::process::Abort;

/// A device of at most 8 bytes that holds `abcd`, not synced.
fn written<R: Abort + AllocGlobal>(rt: &R) -> MemDevice {
    memory_device(rt, 8, &[Step::Write(0, b"abcd")])
}

/// The same under a fuse that fails one call, behind so many; with which this was done.
fn failing<R: Abort + AllocGlobal>(
    rt: &R,
    after: u64,
    steps: &[Step<'_>],
) -> FuseDevice<MemDevice> {
    let mut device = FuseDevice::new(written(rt), after, true);
    plays(rt, &mut device, steps);
    device
}

/// Whether the call fails: a read, a write or a sync, in turn.
fn fails_at(device: &mut FuseDevice<MemDevice>, call: usize) -> bool {
    let called = match call % 3 {
        0 => device.read_at(0, &mut [0]),
        1 => device.write_at(0, b"1"),
        _ => device.sync(),
    };
    called.is_err()
}

/// Whether calls that read, write and sync in turn fail.
fn fail_in_turn(device: &mut FuseDevice<MemDevice>) -> [bool; 6] {
    let mut fails = [false; 6];
    for call in 0..6 {
        fails[call] = fails_at(device, call);
    }
    fails
}

/// The calls of a device with such a fuse fail so, and so many are counted.
fn fails<R: Abort + AllocGlobal>(rt: &R, after: u64, once: bool, calls: [bool; 6], count: u64) {
    let mut device = FuseDevice::new(written(rt), after, once);
    assert!(rt; fail_in_turn(&mut device) == calls);
    assert!(rt; device.failures() == count);
    drop(device);
}

#[test]
fn one_call_fails_or_all_from_it_on(rt: HostRuntime) {
    for after in 0..7 {
        let mut once = [false; 6];
        let mut all = [false; 6];
        for call in 0..6 {
            once[call] = call as u64 == after;
            all[call] = call as u64 >= after;
        }
        fails(&rt, after, true, once, if after < 6 { 1 } else { 0 });
        fails(&rt, after, false, all, 6u64.saturating_sub(after));
    }
}

/// Where a fuse that is idle at first is armed, and which calls fail then.
static ARMED: [(u64, bool, [bool; 6]); 2] = [
    (1, true, [false, true, false, false, false, false]),
    (4, false, [false, false, false, false, true, true]),
];

#[test]
fn an_idle_fuse_passes_until_it_is_armed(rt: HostRuntime) {
    let mut device = FuseDevice::idle(written(&rt));
    assert!(rt; fail_in_turn(&mut device) == [false; 6]);
    assert!(rt; device.failures() == 0);
    for (after, once, calls) in &ARMED {
        device.arm(*after, *once);
        assert!(rt; fail_in_turn(&mut device) == *calls);
    }
    assert!(rt; device.failures() == 3);
    let inner = device.into_inner();
    assert!(rt; inner.failures() == 0);
    drop(inner);
}

static FAILS_TO_WRITE: [Step<'static>; 2] = [Step::WriteFails(3, b"XY"), Step::Holds(b"abcXY")];

#[test]
fn a_write_that_fails_is_there(rt: HostRuntime) {
    drop(failing(&rt, 0, &FAILS_TO_WRITE));
}

#[test]
fn a_sync_that_fails_makes_nothing_stable(rt: HostRuntime) {
    let mut device = failing(&rt, 0, &[Step::SyncFails]).into_inner();
    device.crash(Tear::Old);
    assert!(rt; device.size() == 0);
    drop(device);
}

#[test]
fn a_read_that_fails_reads_nothing(rt: HostRuntime) {
    let mut device = failing(&rt, 0, &[]);
    let (fails, bytes) = read(&rt, &mut device, 0, 2);
    drop(device);
    assert!(rt; fails && bytes.as_slice() == [9; 2].as_slice());
    drop(bytes);
}

static FAILS_TWICE: [Step<'static>; 3] = [
    Step::WriteFails(9, b""),
    Step::SyncFails,
    Step::Failed(2),
];

#[test]
fn faults_of_both_are_counted(rt: HostRuntime) {
    drop(failing(&rt, 1, &FAILS_TWICE));
}

/// What the system would have answered is told once a call failed, whichever it was.
#[test]
fn what_a_fuse_answers(rt: HostRuntime) {
    let mut device = FuseDevice::new(written(&rt), 1, true);
    assert!(&rt; device.read_at(0, &mut [0]).is_ok());
    assert!(&rt; device.cause().is_none());
    assert!(&rt; device.sync().is_err());
    let told = SystemFault::of_kind(SystemCall::Write, ErrorKind::Other);
    assert!(&rt; device.cause() == Some(told));
    drop(device);
}
