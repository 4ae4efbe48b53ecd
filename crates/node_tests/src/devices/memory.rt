// What each tear leaves, over writes that overlap, grow or lie apart; and that calls succeed and fail at the limit. The
// values are worked out by hand from what the tears say.
use super::{Step, memory_device, plays};
use disk_model::{MemDevice, Tear};
use std::alloc::AllocGlobal;
use std::process::Abort;

/// What is done with a device, a tear that follows, and the bytes that it leaves.
type Stop = (&'static [Step<'static>], Tear, &'static [u8]);

fn leaves<R: Abort + AllocGlobal>(rt: &R, device: &mut MemDevice, stop: &Stop) {
    plays(rt, device, stop.0);
    device.crash(stop.1);
    plays(rt, device, &[Step::Holds(stop.2)]);
}

/// A device of at most so many bytes goes through these stops.
fn goes_through<R: Abort + AllocGlobal>(rt: &R, limit: usize, stops: &[Stop]) {
    let mut device = memory_device(rt, limit, &[]);
    for stop in stops {
        leaves(rt, &mut device, stop);
    }
    drop(device);
}

/// Writes over `abcdefgh`, what is there then, and what the tear Fill(7) leaves.
type Row = (&'static [Step<'static>], &'static [u8], &'static [u8]);

static ROWS: [Row; 5] = [
    // Writes that overlap, that grow, that lie apart; and no bytes, which change nothing.
    (
        &[Step::Write(2, b"123"), Step::Write(4, b"45")],
        b"ab1245gh",
        b"ab\x07\x07\x07\x07gh",
    ),
    (
        &[Step::Write(6, b"XYZ")],
        b"abcdefXYZ",
        b"abcdef\x07\x07\x07",
    ),
    (
        &[Step::Write(10, b"Q")],
        b"abcdefgh\x00\x00Q",
        b"abcdefgh\x07\x07\x07",
    ),
    (
        &[Step::Write(1, b"1"), Step::Write(6, b"6")],
        b"a1cdef6h",
        b"a\x07cdef\x07h",
    ),
    (
        &[Step::Write(3, b""), Step::Write(12, b"")],
        b"abcdefgh",
        b"abcdefgh",
    ),
];

static SETTLED: [Step<'static>; 2] = [Step::Write(0, b"abcdefgh"), Step::Sync];

/// Behind the writes of the row this tear leaves these bytes.
fn is_torn<R: Abort + AllocGlobal>(rt: &R, row: &Row, tear: Tear, left: &[u8]) {
    let mut device = memory_device(rt, 12, &SETTLED);
    plays(rt, &mut device, row.0);
    plays(rt, &mut device, &[Step::Holds(row.1)]);
    device.crash(tear);
    plays(rt, &mut device, &[Step::Holds(left)]);
    drop(device);
}

#[test]
fn what_tears_leave(rt: HostRuntime) {
    for row in &ROWS {
        is_torn(&rt, row, Tear::New, row.1);
        is_torn(&rt, row, Tear::Old, b"abcdefgh");
        is_torn(&rt, row, Tear::Fill(7), row.2);
    }
}

/// A write that failed has left its range unsynced.
static AT_THE_LIMIT: [Stop; 1] = [(
    &[
        Step::Write(0, b"abcdefgh"),
        Step::Sync,
        Step::Write(8, b"1234"),
        Step::Failed(0),
        Step::WriteFails(6, b"seven b"),
        Step::WriteFails(13, b""),
        Step::WriteFails(u64::MAX, b"x"),
        Step::Failed(3),
        Step::Holds(b"abcdefgh1234"),
    ],
    Tear::Fill(7),
    b"abcdef\x07\x07\x07\x07\x07\x07",
)];

#[test]
fn a_write_past_the_limit_is_a_fault(rt: HostRuntime) {
    goes_through(&rt, 12, &AT_THE_LIMIT);
}

static PAST_THE_END: [Step<'static>; 6] = [
    Step::Write(0, b"abcdefgh"),
    Step::Sync,
    Step::Reads(6, b"gh\x00\x00"),
    Step::Reads(8, b"\x00\x00\x00\x00"),
    Step::ReadFails(9, 4),
    Step::Failed(1),
];

#[test]
fn past_the_end_are_zeros(rt: HostRuntime) {
    drop(memory_device(&rt, 12, &PAST_THE_END));
}

static STOPS: [Stop; 5] = [
    (
        &[
            Step::Write(0, b"abcdefgh"),
            Step::Sync,
            Step::Write(0, b"ABC"),
        ],
        Tear::New,
        b"ABCdefgh",
    ),
    (
        &[Step::Write(7, b"HIJ")],
        Tear::Fill(0),
        b"\x00\x00\x00defg\x00\x00\x00",
    ),
    (&[], Tear::Old, b"abcdefgh"),
    (&[Step::Write(3, b"D"), Step::Sync], Tear::Old, b"abcDefgh"),
    (&[], Tear::Fill(7), b"abcDefgh"),
];

#[test]
fn only_a_sync_makes_stable(rt: HostRuntime) {
    goes_through(&rt, 12, &STOPS);
}

static AT_FIRST: [Stop; 1] = [(&[Step::Holds(b""), Step::Write(0, b"abc")], Tear::Old, b"")];

#[test]
fn nothing_is_stable_at_first(rt: HostRuntime) {
    goes_through(&rt, 3, &AT_FIRST);
}
