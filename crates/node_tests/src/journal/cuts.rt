// Journals cut at each length, and what a header that is cut tells other nodes.
use super::verdict::Verdict::{Damaged, NotFormatted, Reads};
use super::verdict::{Verdict, found, found_by};
use super::{AREA_B, COMMITTED, PLAIN, SECOND_AREA, device};
use ring_records::{NodeNo, Refusal};
use std::alloc::AllocGlobal;
use std::process::Abort;

/// What is told from so many bytes on, up to fewer than so many.
type Row = (usize, usize, Verdict);

/// A new journal with two frames: a Stand and an Acked of 1.
static TWO_FRAMES: [u8; 109] = [
    0x43, 0x52, 0x4A, 0x52, 0x4E, 0x4C, 0x30, 0x32, 1, 3, 0, 0, 0x10, 0, 0, 0, 1, 3, 0, 0, 0, 0, 0,
    0, 0, 1, 0, 0, 0, 0x2A, 0, 0, 0, 0, 0, 0, 0, 0, 0, 0, 0, 0, 0, 0, 0, 0, 0, 0, 0, 0, 0, 0, 0, 0,
    0, 0, 0, 0, 0, 0, 0, 0, 0, 0, 0, 0, 0, 0, 0, 0, 0, 0, 1, 0, 1, 0, 0, 0, 0x0D, 1, 3, 0x72, 0x65,
    0x64, 0, 0, 0, 5, 0, 0, 0, 0x0A, 1, 0, 1, 0, 0, 0, 9, 4, 0, 0, 0, 0, 0, 0, 0, 1, 0,
];

/// The first frame stands from 72 on and takes 20 bytes, the second from 92 on and takes 16, and the closed gate is at 108.
static OF_TWO_FRAMES: [Row; 6] = [
    (0, 17, NotFormatted),
    (17, 72, Damaged(16)),
    (72, 92, Damaged(72)),
    (92, 108, Damaged(92)),
    (108, 109, Damaged(108)),
    (109, 110, Reads(2, 1)),
];

/// A new journal with the frame of a Retire, which takes 16 bytes.
static RETIRE: [u8; 89] = [
    0x43, 0x52, 0x4A, 0x52, 0x4E, 0x4C, 0x30, 0x32, 1, 3, 0, 0, 0x10, 0, 0, 0, 1, 3, 0, 0, 0, 0, 0,
    0, 0, 1, 0, 0, 0, 0x2A, 0, 0, 0, 0, 0, 0, 0, 0, 0, 0, 0, 0, 0, 0, 0, 0, 0, 0, 0, 0, 0, 0, 0, 0,
    0, 0, 0, 0, 0, 0, 0, 0, 0, 0, 0, 0, 0, 0, 0, 0, 0, 0, 1, 0, 1, 0, 0, 0, 9, 5, 3, 0x72, 0x65,
    0x64, 0, 0, 0, 5, 0,
];

static OF_A_RETIRE: [Row; 5] = [
    (0, 17, NotFormatted),
    (17, 72, Damaged(16)),
    (72, 88, Damaged(72)),
    (88, 89, Damaged(88)),
    (89, 90, Reads(1, 1)),
];

/// Of area B, behind a journal whose area A counts. Its epoch, 2, is there with its tenth byte: until then it counts as 0, or
/// the area does not count. Its first gate is its last byte.
static OF_A_SECOND_AREA: [Row; 4] = [
    (0, 10, Reads(1, 1)),
    (10, 83, Damaged(4127)),
    (83, 84, Damaged(4210)),
    (84, 85, Reads(1, 2)),
];

/// Where so many of these bytes stand at this offset, behind an image, this is told.
fn is_cut<R: Abort + AllocGlobal>(
    rt: &R,
    image: &[u8],
    at: u64,
    bytes: &[u8],
    len: usize,
    verdict: Verdict,
) {
    assert!(rt; len <= bytes.len());
    let device = device(rt, &[(0, image), (at, &bytes[..len])]);
    assert!(rt; found(rt.alloc(), device) == verdict.answer());
}

/// What is told of each length.
fn each_length<R: Abort + AllocGlobal>(rt: &R, image: &[u8], at: u64, bytes: &[u8], rows: &[Row]) {
    for (from, end, verdict) in rows {
        for len in *from..*end {
            is_cut(rt, image, at, bytes, len, *verdict);
        }
    }
}

#[test]
fn journals_cut_at_every_length(rt: HostRuntime) {
    each_length(&rt, &[], 0, &TWO_FRAMES, &OF_TWO_FRAMES);
    each_length(&rt, &[], 0, &RETIRE, &OF_A_RETIRE);
    each_length(&rt, &COMMITTED, AREA_B, &SECOND_AREA, &OF_A_SECOND_AREA);
}

#[test]
fn a_cut_header_is_of_one_node(rt: HostRuntime) {
    for number in 2..=16 {
        let node = NodeNo::new(number).expect(&rt, "a node");
        let cut = device(&rt, &[(0, &PLAIN[..17])]);
        assert!(rt; found_by(rt.alloc(), cut, node) == Err(Refusal::WrongNode));
        let cut = device(&rt, &[(0, &PLAIN[..16])]);
        assert!(rt; found_by(rt.alloc(), cut, node) == Err(Refusal::NotFormatted));
    }
}
