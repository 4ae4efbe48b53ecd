// An area that is read in pieces: one answer, however its bytes are cut, when it is told, and what is kept until then.
ghost use Rattle.std.specs.Prelude.{◌≡◌, ◌+◌, ◌<◌, ◌≤◌, ◌^◌, length};

use super::verdict::Verdict::{Damaged, Reads};
use super::verdict::{Verdict, found};
use super::{AREA_B, COMMITTED, SECOND_AREA};
use crate::store::journal::{commits_all, journal_with};
use disk_model::{Device, FuseDevice, MemDevice};
use gated_journal::{AreaReader, Fed};
use ring_records::{LAYOUT, NodeNo, Refusal};
use std::alloc::AllocGlobal;
use std::process::Abort;
use test_rows::{Note, Op};

/// How many inputs are read of an area, those that are summarised among them, and the offset of the closed gate.
pub type Answer = Result<(u64, u64), Refusal>;

/// What the reader makes of the next bytes, at the second call where the first finds no memory.
fn feeds_at_last(reader: &mut AreaReader, piece: &[u8]) -> Result<Fed, Refusal>
    requires room { reader.old.offset + (length reader.old.bytes + length piece.now) < 2 ^ 64 }
    ensures offset { reader.new.offset ≡ reader.old.offset }
    ensures size { length reader.new.bytes ≤ length reader.old.bytes + length piece.now }
{
    match reader.feed(piece) {
        Err(Refusal::OutOfMemory) => reader.feed(piece),
        told => told,
    }
}

/// Whether it asks for more behind the next bytes: then it keeps 2,246 bytes at most, and else none.
fn goes_on(rt: &impl Abort, reader: &mut AreaReader, piece: &[u8]) -> bool
    requires room { reader.old.offset + (length reader.old.bytes + length piece.now) < 2 ^ 64 }
    ensures offset { reader.new.offset ≡ reader.old.offset }
    ensures size { length reader.new.bytes ≤ length reader.old.bytes + length piece.now }
{
    let told = feeds_at_last(reader, piece);
    assert!(rt; told != Err(Refusal::OutOfMemory));
    let goes_on = told == Ok(Fed::More);
    let most = if goes_on { 2246 } else { 0 };
    assert!(rt; reader.kept_len() <= most);
    goes_on
}

/// What is read of the area of this layout whose gate stands at this offset, in pieces of these lengths in turn, and behind
/// how many of them it asked for more. All bytes are fed, also behind a closed gate or behind what is damaged.
fn fed(
    rt: &(impl Abort + AllocGlobal),
    layout: u8,
    offset: u64,
    area: &[u8],
    lengths: &[usize],
) -> (Answer, usize)
    requires room { offset + length area.now < 2 ^ 64 }
    requires some { 0 < length lengths.now }
{
    let mut reader = AreaReader::new(rt.alloc(), offset, layout, 3);
    let mut rest = area;
    let mut asked = 0;
    for i in 0..area.len() {
        let there = lengths[i % lengths.len()].min(rest.len());
        if goes_on(rt, &mut reader, &rest[..there]) {
            asked = i + 1;
        }
        rest = &rest[there..];
    }
    (read(reader), asked)
}

/// What was read by it.
fn read(reader: AreaReader) -> Answer
    requires { reader.offset + length reader.bytes < 2 ^ 64 }
{
    let (base, inputs, gate_at) = reader.finish()?;
    Ok((base.inputs.saturating_add(inputs.len() as u64), gate_at))
}

#[test]
fn one_commit_in_pieces(rt: HostRuntime) {
    for size in &[1, 2, 77] {
        let (area, _) = fed(&rt, LAYOUT, 16, &COMMITTED[16..], &[*size]);
        assert!(rt; area == Ok((1, 92)));
    }
}

#[test]
fn refused_growths(rt: HostRuntime) {
    let (area, _) = fed(&rt, LAYOUT, 16, &COMMITTED[16..], &[7]);
    assert!(rt; area == Ok((1, 92)));
    let (area, _) = fed(&rt, LAYOUT, AREA_B, &SECOND_AREA, &[7]);
    assert!(rt; area == Ok((1, AREA_B + 83)));
}

/// Changes of area A of a journal with one frame and sevens behind it, behind how many of its bytes more is asked for, and
/// what is told behind the next one.
static TOLD: [(&[(u64, u8)], usize, Verdict); 21] = [
    (&[], 76, Reads(1, 1)),
    // A closed gate, another layout, an epoch that is too great: once the 14 bytes of the head are there.
    (&[(16, 0)], 13, Damaged(16)),
    (&[(17, 2)], 13, Damaged(16)),
    (&[(20, 1)], 13, Damaged(16)),
    // A snapshot of 0, of 37 and of 41 bytes, and one of 4 GB, once 38 bytes behind the number of floors are no part of it.
    (&[(29, 0)], 13, Damaged(16)),
    (&[(29, 37)], 50, Damaged(16)),
    (&[(29, 41)], 54, Damaged(16)),
    (&[(26, 255)], 93, Damaged(16)),
    // More credited than sent, once the counts are there, and a Take among no inputs and a floor, once all is there.
    (&[(53, 1)], 51, Damaged(16)),
    (&[(45, 1)], 55, Damaged(16)),
    (&[(71, 1)], 55, Damaged(16)),
    // Frames of 0, 65 and 257 inputs, and an input of 36 bytes and of 4 GB, once both numbers are there.
    (&[(74, 0)], 62, Damaged(72)),
    (&[(74, 65)], 62, Damaged(72)),
    (&[(73, 1)], 62, Damaged(72)),
    (&[(78, 36)], 62, Damaged(72)),
    (&[(75, 255)], 62, Damaged(72)),
    // One of 35 bytes and of 12, and another kind, once the records are there.
    (&[(78, 35)], 97, Damaged(72)),
    (&[(78, 12)], 74, Damaged(72)),
    (&[(79, 6)], 75, Damaged(72)),
    // A Retire, once the closed gate behind it is there, and one of number 0, once its record is.
    (&[(78, 9), (79, 5)], 72, Reads(1, 1)),
    (&[(78, 9), (79, 5), (87, 0)], 71, Damaged(72)),
];

#[test]
fn a_fault_is_told_once_it_is_there(rt: HostRuntime) {
    for (changes, asked, verdict) in &TOLD {
        let mut image = [7; 200];
        image[..93].copy_from_slice(&COMMITTED);
        change(&mut image, changes);
        let (area, behind) = fed(&rt, LAYOUT, 16, &image[16..], &[1]);
        assert!(rt; count(area) == count(verdict.answer()));
        assert!(rt; behind == *asked);
    }
}

/// How many bytes are kept of the first ones of an area, which are so many.
fn kept_of(rt: &(impl Abort + AllocGlobal), area: &[u8], first: usize) -> usize
    requires { 16 + length area.now < 2 ^ 64 }
{
    let mut reader = AreaReader::new(rt.alloc(), 16, LAYOUT, 3);
    goes_on(rt, &mut reader, &area[..first.min(area.len())]);
    let kept = reader.kept_len();
    drop(reader);
    kept
}

/// The longest inputs.
static LONGEST: [Op; 64] = [Op::Take(0, Note::Token("abcdefghijklmnop", 1, 1, 1)); 64];

/// The shortest ones, of 7 bytes.
static SHORTEST: [Op; 64] = [Op::Retire("r", 1); 64];

/// The device of a new journal with so many frames of these inputs.
fn with_frames<R: Abort + AllocGlobal>(rt: &R, ops: &[Op], frames: usize) -> FuseDevice<MemDevice> {
    let mut journal = journal_with(rt, NodeNo::first(), 4096);
    for _ in 0..frames {
        commits_all(rt, &mut journal, ops).into_parts();
    }
    journal.into_device()
}

/// How many bytes of an area are there, and how many of them are kept.
static KEPT: [(usize, usize); 9] = [
    (13, 13),
    (14, 0),
    (51, 37),
    (52, 0),
    (55, 3),
    (56, 0),
    (2302, 2246),
    (2303, 0),
    (2304, 0),
];

#[test]
fn the_bytes_that_are_kept(rt: HostRuntime) {
    // A head of 14 bytes, a snapshot of 42, a gate with a frame of 64 of the longest inputs, and a gate.
    let mut device = with_frames(&rt, &LONGEST, 1);
    let mut image = [0; 2320];
    assert!(rt; device.read_at(0, &mut image).is_ok());
    drop(device);
    for (first, kept) in &KEPT {
        assert!(rt; kept_of(&rt, &image[16..], *first) == *kept);
    }
}

/// In pieces of any length it reads as whole.
pub fn in_pieces(rt: &(impl Abort + AllocGlobal), layout: u8, offset: u64, area: &[u8]) -> Answer
    requires { offset + length area.now < 2 ^ 64 }
{
    let (whole, _) = fed(rt, layout, offset, area, &[5000]);
    for size in [1, 2, 3, 7, 4096] {
        let (cut, _) = fed(rt, layout, offset, area, &[size]);
        assert!(rt; cut == whole);
    }
    whole
}

/// Changes the bytes of an image, of which some may be behind its end.
pub fn change(image: &mut [u8], changes: &[(u64, u8)]) {
    for (at, byte) in changes {
        let at = *at as usize;
        if at < image.len() {
            image[at] = *byte;
        }
    }
}

/// How many inputs were read, or the fault.
pub fn count(answer: Answer) -> Result<u64, Refusal> {
    match answer {
        Ok((inputs, _)) => Ok(inputs),
        Err(refusal) => Err(refusal),
    }
}

#[test]
fn frames_of_the_shortest_inputs(rt: HostRuntime) {
    let mut device = with_frames(&rt, &SHORTEST, 4);
    // Each frame has 455 bytes with its gate.
    assert!(rt; device.size() == 1893);
    let mut image = [0; 1893];
    assert!(rt; device.read_at(0, &mut image).is_ok());
    assert!(rt; in_pieces(&rt, LAYOUT, 16, &image[16..]) == Ok((256, 1892)));
    assert!(rt; found(rt.alloc(), device.into_inner()) == Ok((256, 1)));
}

/// Numbers that look random, from a seed that is not 0.
#[derive(Drop)]
struct Random {
    seed: u32,
}

impl Random {
    fn below(&mut self, limit: usize) -> usize
        requires { 0 < limit }
        ensures { result < limit }
    {
        let mut x = self.seed;
        x ^= x << 13;
        x ^= x >> 17;
        x ^= x << 5;
        self.seed = x;
        x as usize % limit
    }

    fn lengths(&mut self) -> [usize; 5] {
        [
            1 + self.below(2),
            1 + self.below(3),
            1 + self.below(20),
            1 + self.below(50),
            1 + self.below(100),
        ]
    }

    /// Changes up to two bytes.
    fn change(&mut self, image: &mut [u8])
        requires { 0 < length image.old }
    {
        for _ in 0..self.below(3) {
            let at = self.below(image.len());
            image[at] = [0, 1, 2, self.below(256) as u8][self.below(4)];
        }
    }
}

/// Area B with two frames behind its snapshot: of a Stand, and of an Acked of 1.
fn two_frames() -> [u8; 120] {
    let mut area = [0; 120];
    area[..83].copy_from_slice(&SECOND_AREA[..83]);
    area[83..103].copy_from_slice(&COMMITTED[72..92]);
    area[103..119].copy_from_slice(&[1, 0, 1, 0, 0, 0, 9, 4, 0, 0, 0, 0, 0, 0, 0, 1]);
    area
}

#[test]
fn random_cuts_of_random_images(rt: HostRuntime) {
    assert!(rt; in_pieces(&rt, LAYOUT, AREA_B, &two_frames()) == Ok((3, AREA_B + 119)));
    let mut random = Random {
        seed: 2_463_534_242,
    };
    for _ in 0..500 {
        let mut image = two_frames();
        random.change(&mut image);
        let area = &image[..120 - random.below(60)];
        let (whole, _) = fed(&rt, LAYOUT, AREA_B, area, &[120]);
        for _ in 0..5 {
            let lengths = random.lengths();
            let (cut, _) = fed(&rt, LAYOUT, AREA_B, area, &lengths);
            assert!(rt; cut == whole);
        }
    }
}
