// Records byte for byte, and each fault at its border.
use crate::rows::input;
use ring_records::{GroupName, Input, RecordFault, Refusal, read_record, write_record};
use std::process::Abort;
use test_rows::Note::{Elected, Token};
use test_rows::Op::{self, Acked, Retire, Stand, Take};

/// An input, its record, and its cost.
type Row = (Op, &'static [u8], u32);

const STAND_RED: Row = (
    Stand("red", 5, 10),
    &[
        0x01, 0x03, 0x72, 0x65, 0x64, 0x00, 0x00, 0x00, 0x05, 0x00, 0x00, 0x00, 0x0A,
    ],
    20,
);

const LONGEST: Row = (
    Take(0, Token("abcdefghijklmnop", 999_999_999, 999_999_999, 16)),
    &[
        0x02, 0x00, 0x00, 0x00, 0x00, 0x00, 0x00, 0x00, 0x00, 0x10, 0x61, 0x62, 0x63, 0x64, 0x65,
        0x66, 0x67, 0x68, 0x69, 0x6A, 0x6B, 0x6C, 0x6D, 0x6E, 0x6F, 0x70, 0x3B, 0x9A, 0xC9, 0xFF,
        0x3B, 0x9A, 0xC9, 0xFF, 0x10,
    ],
    42,
);

const ELECTED_RED: Row = (
    Take(256, Elected("red", 5, 10, 2)),
    &[
        0x03, 0x00, 0x00, 0x00, 0x00, 0x00, 0x00, 0x01, 0x00, 0x03, 0x72, 0x65, 0x64, 0x00, 0x00,
        0x00, 0x05, 0x00, 0x00, 0x00, 0x0A, 0x02,
    ],
    29,
);

const ACKED: Row = (
    Acked(72_623_859_790_382_856),
    &[0x04, 0x01, 0x02, 0x03, 0x04, 0x05, 0x06, 0x07, 0x08],
    16,
);

const RETIRE_RED: Row = (
    Retire("red", 5),
    &[0x05, 0x03, 0x72, 0x65, 0x64, 0x00, 0x00, 0x00, 0x05],
    16,
);

/// The record is this one, and what stands behind it is untouched.
fn is_record(rt: &impl Abort, out: &[u8], size: usize, want: &[u8]) {
    let (record, behind) = out.split_at(size.min(out.len()));
    assert!(rt; record == want);
    assert!(rt; behind.iter().all(|byte| *byte == 0xEE));
}

/// The bytes begin with the record of this input, of this size.
fn begins_with(rt: &impl Abort, bytes: &[u8], input: &Input, size: usize) {
    assert!(rt; read_record(bytes) == Ok((*input, size)));
}

/// The input stands in these bytes, costs so much of the capacity, and is read back, with more behind it and alone.
fn goes_there_and_back(rt: &impl Abort, row: &Row) {
    let (op, want, cost) = *row;
    let input = input(rt, op);
    assert!(rt; input.cost() == cost);
    let mut out = [0xEE; 35];
    let size = write_record(&input, &mut out);
    is_record(rt, &out, size, want);
    begins_with(rt, &out, &input, size);
    begins_with(rt, want, &input, size);
}

#[test]
fn record_of_a_stand(rt: HostRuntime) {
    goes_there_and_back(&rt, &STAND_RED);
}

#[test]
fn longest_record(rt: HostRuntime) {
    goes_there_and_back(&rt, &LONGEST);
    let longer = GroupName::read(b"abcdefghijklmnopq");
    assert!(rt; longer.err() == Some(Refusal::BadName));
}

static EACH_KIND: [Row; 5] = [STAND_RED, LONGEST, ELECTED_RED, ACKED, RETIRE_RED];

#[test]
fn writes_and_reads_each_kind(rt: HostRuntime) {
    for row in &EACH_KIND {
        goes_there_and_back(&rt, row);
    }
}

fn fault_of(bytes: &[u8]) -> Option<RecordFault> {
    match read_record(bytes) {
        Ok(_) => None,
        Err(fault) => Some(fault),
    }
}

fn is_short_in_front(rt: &impl Abort, record: &[u8]) {
    for n in 0..record.len() {
        let fault = fault_of(&record[..n]);
        assert!(rt; fault == Some(RecordFault::Short));
    }
}

#[test]
fn a_prefix_is_short(rt: HostRuntime) {
    for row in &EACH_KIND {
        is_short_in_front(&rt, row.1);
    }
}

/// Bytes, and their first fault.
static FAULTS: [(&[u8], RecordFault); 28] = [
    (b"\x00", RecordFault::Kind),
    (b"\x06", RecordFault::Kind),
    (b"\xFF", RecordFault::Kind),
    (b"\x01\x00", RecordFault::Name),
    (b"\x01\x11abcdefghijklmnop", RecordFault::Short),
    (b"\x01\x11abcdefghijklmnopq", RecordFault::Name),
    (b"\x01\x03re", RecordFault::Short),
    (b"\x01\x03Red", RecordFault::Name),
    (b"\x01\x03rEd", RecordFault::Name),
    (b"\x01\x031ed", RecordFault::Name),
    (b"\x01\x021a", RecordFault::Name),
    (b"\x01\x02-a", RecordFault::Name),
    (b"\x01\x04re d", RecordFault::Name),
    (b"\x01\x04re_d", RecordFault::Name),
    (b"\x01\x03r_d\x00\x00\x00\x00", RecordFault::Name),
    (b"\x01\x03red\x00\x00\x00\x00", RecordFault::Number),
    (b"\x01\x03red\x3B\x9A\xC9\xFF", RecordFault::Short),
    (b"\x01\x03red\x3B\x9A\xCA\x00", RecordFault::Number),
    (b"\x01\x03red\xFF\xFF\xFF\xFF", RecordFault::Number),
    (
        b"\x01\x03red\x00\x00\x00\x05\x3B\x9A\xCA\x00",
        RecordFault::Number,
    ),
    (
        b"\x01\x03red\x00\x00\x00\x05\xFF\xFF\xFF\xFF",
        RecordFault::Number,
    ),
    (
        b"\x02\x00\x00\x00\x00\x00\x00\x00\x00\x01a\x00\x00\x00\x01\x00\x00\x00\x00\x00",
        RecordFault::Number,
    ),
    (
        b"\x03\x00\x00\x00\x00\x00\x00\x00\x00\x01a\x00\x00\x00\x01\x00\x00\x00\x00\x11",
        RecordFault::Number,
    ),
    (
        b"\x03\x00\x00\x00\x00\x00\x00\x00\x00\x01a\x00\x00\x00\x01\x00\x00\x00\x00\xFF",
        RecordFault::Number,
    ),
    (b"\x05\x00", RecordFault::Name),
    (b"\x05\x03Red", RecordFault::Name),
    (b"\x05\x03red\x00\x00\x00\x00", RecordFault::Number),
    (b"\x05\x03red\x3B\x9A\xCA\x00", RecordFault::Number),
];

#[test]
fn the_first_fault_is_told(rt: HostRuntime) {
    for row in &FAULTS {
        let (bytes, fault) = *row;
        assert!(rt; fault_of(bytes) == Some(fault));
    }
}

/// The bytes are read as this input.
fn is_read(rt: &impl Abort, bytes: &[u8], op: Op) {
    let (found, _) = read_record(bytes).expect(rt, "a record");
    assert!(rt; found == input(rt, op));
}

#[test]
fn the_ends_of_the_ranges_are_read(rt: HostRuntime) {
    let least = b"\x01\x01a\x00\x00\x00\x01\x00\x00\x00\x00";
    is_read(&rt, least, Stand("a", 1, 0));
    let most = b"\x01\x02z-\x3B\x9A\xC9\xFF\x3B\x9A\xC9\xFF\x07";
    is_read(&rt, most, Stand("z-", 999_999_999, 999_999_999));
    let ones = b"\x01\x03a-1\x00\x00\x00\x01\x00\x00\x00\x01";
    is_read(&rt, ones, Stand("a-1", 1, 1));
    let first = b"\x03\x00\x00\x00\x00\x00\x00\x00\x00\x02a-\x00\x00\x00\x01\x00\x00\x00\x00\x01";
    is_read(&rt, first, Take(0, Elected("a-", 1, 0, 1)));
}
