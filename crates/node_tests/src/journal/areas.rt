// An area with changed bytes: what it may hold, where its first fault is, and that it has one answer, in pieces of any length.
ghost use Rattle.std.specs.Prelude.{◌<◌, ◌≤◌, ◌^◌, length};

use super::pieces::{change, count, in_pieces};
use super::verdict::Verdict::{self, Damaged, Reads};
use super::{AREA_B, COMMITTED, FRESH, SECOND_AREA};
use ring_records::{LAYOUT, Refusal};
use std::alloc::AllocGlobal;
use std::process::Abort;

/// Bytes that are changed, and what is read then.
type Row = (&'static [(u64, u8)], Verdict);

/// With these changes area A of the image has one answer.
fn one_area(rt: &(impl Abort + AllocGlobal), image: &mut [u8], row: &Row)
    requires size { (16 ≤ length image.old) × (length image.old < 2 ^ 32) }
{
    change(image, row.0);
    let area = in_pieces(rt, LAYOUT, 16, &image[16..]);
    assert!(rt; count(area) == count(row.1.answer()));
}

/// What is told of a device with two areas is told of one of them, or none is chosen.
fn two_areas(rt: &(impl Abort + AllocGlobal), row: &Row) {
    let mut image = [0; 4211];
    image[..93].copy_from_slice(&COMMITTED);
    image[4127..].copy_from_slice(&SECOND_AREA);
    change(&mut image, row.0);
    let a = count(in_pieces(rt, LAYOUT, 16, &image[16..]));
    let b = count(in_pieces(rt, LAYOUT, AREA_B, &image[4127..]));
    let told = count(row.1.answer());
    assert!(rt; told == a || told == b || told == Err(Refusal::Damaged(16)));
}

/// Changes of area A of a journal with one frame.
static ONE_AREA: [Row; 38] = [
    // The gate and the layout of the area.
    (&[(16, 0)], Damaged(16)),
    (&[(16, 2)], Damaged(16)),
    (&[(17, 1)], Damaged(16)),
    (&[(17, 2)], Damaged(16)),
    (&[(17, 4)], Damaged(16)),
    // Epochs of 0, 2^39, 2^40 and 2^56.
    (&[(25, 0)], Reads(1, 0)),
    (&[(21, 0x80), (25, 0)], Reads(1, 1 << 39)),
    (&[(20, 1)], Damaged(16)),
    (&[(18, 1)], Damaged(16)),
    // A size one too small, one too large, all there is, one more, and far too large.
    (&[(29, 41)], Damaged(16)),
    (&[(29, 43)], Damaged(16)),
    (&[(29, 63)], Damaged(16)),
    (&[(29, 64)], Damaged(16)),
    (&[(26, 255)], Damaged(16)),
    // A snapshot of one input, of a Take among none, of a key that is not there, of a floor.
    (&[(37, 1)], Reads(2, 1)),
    (&[(45, 1)], Damaged(16)),
    (&[(67, 1)], Damaged(16)),
    (&[(71, 1)], Damaged(16)),
    // A first gate that is closed by another byte; counts of 0, 2, 65 and 257.
    (&[(72, 7)], Reads(0, 1)),
    (&[(74, 0)], Damaged(72)),
    (&[(74, 2)], Damaged(72)),
    (&[(74, 65)], Damaged(72)),
    (&[(73, 1)], Damaged(72)),
    // A length one too small, one too large, and far too large.
    (&[(78, 12)], Damaged(72)),
    (&[(78, 14)], Damaged(72)),
    (&[(75, 1)], Damaged(72)),
    // A record's kind, name and term; and a next gate with nothing behind it.
    (&[(79, 6)], Damaged(72)),
    (&[(81, b'R')], Damaged(72)),
    (&[(87, 0)], Damaged(72)),
    (&[(92, 1)], Damaged(92)),
    // Two faults: the first one.
    (&[(20, 1), (74, 0)], Damaged(16)),
    // A Retire, and one with bytes behind it; numbers of 0, of 10^9 - 1 and of 10^9; the shortest, and a name of no letters.
    (&[(78, 9), (79, 5)], Reads(1, 1)),
    (&[(79, 5)], Damaged(72)),
    (&[(78, 9), (79, 5), (87, 0)], Damaged(72)),
    (
        &[
            (78, 9),
            (79, 5),
            (84, 0x3B),
            (85, 0x9A),
            (86, 0xC9),
            (87, 0xFF),
        ],
        Reads(1, 1),
    ),
    (
        &[(78, 9), (79, 5), (84, 0x3B), (85, 0x9A), (86, 0xCA)],
        Damaged(72),
    ),
    (
        &[(78, 7), (79, 5), (80, 1), (82, 0), (83, 0), (85, 5)],
        Reads(1, 1),
    ),
    (
        &[
            (78, 6),
            (79, 5),
            (80, 0),
            (81, 0),
            (82, 0),
            (83, 0),
            (84, 5),
        ],
        Damaged(72),
    ),
];

/// Changes of the same with area B behind it, which is read, and what is read of the device then.
static TWO_AREAS: [Row; 17] = [
    // Area B in epoch 2, in A's epoch, and in an earlier one.
    (&[], Reads(1, 2)),
    (&[(4136, 1)], Damaged(16)),
    (&[(4136, 0)], Reads(1, 1)),
    // One of them does not count, or none.
    (&[(4127, 0)], Reads(1, 1)),
    (&[(4127, 7)], Reads(1, 1)),
    (&[(4128, 1)], Reads(1, 1)),
    (&[(4128, 4)], Reads(1, 1)),
    (&[(16, 0)], Reads(1, 2)),
    (&[(17, 4), (4136, 0)], Reads(1, 0)),
    (&[(16, 0), (4127, 0)], Damaged(16)),
    // The one that is read is broken: its epoch, its size, its snapshot, its first gate.
    (&[(4131, 1)], Damaged(4127)),
    (&[(20, 1)], Damaged(16)),
    (&[(4140, 68)], Damaged(4127)),
    (&[(4140, 70)], Damaged(4127)),
    (&[(4205, 4)], Damaged(4127)),
    (&[(4210, 1)], Damaged(4210)),
    // The one that is not read is broken.
    (&[(26, 255), (74, 0)], Reads(1, 2)),
];

/// Changes of the area of a new journal.
static NEW_AREA: [Row; 6] = [
    (&[], Reads(0, 1)),
    // The gate and the layout of the area.
    (&[(16, 0)], Damaged(16)),
    (&[(17, 1)], Damaged(16)),
    // A snapshot that is one byte too short, and one too long.
    (&[(29, 41)], Damaged(16)),
    (&[(29, 43)], Damaged(16)),
    // An open gate with nothing behind it.
    (&[(72, 1)], Damaged(72)),
];

#[test]
fn each_area_has_one_answer(rt: HostRuntime) {
    for row in &ONE_AREA {
        let mut image = COMMITTED;
        one_area(&rt, &mut image, row);
    }
    for row in &TWO_AREAS {
        two_areas(&rt, row);
    }
    for row in &NEW_AREA {
        let mut image = FRESH;
        one_area(&rt, &mut image, row);
    }
}

/// An area of layout 2 with the frame of a Retire behind its snapshot.
static EARLIER_RETIRE: [u8; 69] = [
    1, 2, 0, 0, 0, 0, 0, 0, 0, 1, 0, 0, 0, 0x26, 0, 0, 0, 0, 0, 0, 0, 0, 0, 0, 0, 0, 0, 0, 0, 0, 0,
    0, 0, 0, 0, 0, 0, 0, 0, 0, 0, 0, 0, 0, 0, 0, 0, 0, 0, 0, 0, 0, 1, 0, 1, 0, 0, 0, 9, 5, 3, 0x72,
    0x65, 0x64, 0, 0, 0, 5, 0,
];

#[test]
fn an_area_of_layout_2_with_a_retire_is_damaged(rt: HostRuntime) {
    assert!(rt; in_pieces(&rt, 2, 16, &EARLIER_RETIRE) == Err(Refusal::Damaged(68)));
}
