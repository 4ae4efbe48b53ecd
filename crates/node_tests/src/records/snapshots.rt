// Snapshots byte for byte, in each layout, and bytes that are none, beside the rows of a node.
use ring_records::{Refusal, Summary, SummaryReader, read_summary, summary_len, write_summary};
use std::alloc::Global;
use std::process::Abort;

/// The snapshot in layout 2 of node 1 that stood for red 5 with bid 10, and whose token is not credited yet.
static STOOD: [u8; 65] = [
    0, 0, 0, 0, 0, 0, 0, 1, 0, 0, 0, 0, 0, 0, 0, 0, 0, 0, 0, 0, 0, 0, 0, 0, 0, 0, 0, 0, 0, 0, 0, 1,
    0, 1, 0, 0, 0, 1, 3, 0x72, 0x65, 0x64, 0, 0, 0, 5, 1, 0, 0, 0, 10, 2, 3, 0x72, 0x65, 0x64, 0,
    0, 0, 5, 0, 0, 0, 10, 1,
];

/// That of a node that took a message for a 1 and one for b 1, and passed none on.
static TOOK: [u8; 52] = [
    0, 0, 0, 0, 0, 0, 0, 2, 0, 0, 0, 0, 0, 0, 0, 2, 0, 0, 0, 0, 0, 0, 0, 0, 0, 0, 0, 0, 0, 0, 0, 0,
    0, 0, 0, 0, 0, 2, 1, 0x61, 0, 0, 0, 1, 0, 1, 0x62, 0, 0, 0, 1, 0,
];

/// The bytes are the summary's snapshot in this layout.
fn is_written(rt: &impl Abort, alloc: Global, summary: &Summary, layout: u8, bytes: &[u8]) {
    assert!(rt; summary.keys.len() <= u32::MAX as usize);
    assert!(rt; summary.floors.len() <= u32::MAX as usize);
    assert!(rt; layout > 2 || summary.floors.is_empty());
    assert!(rt; summary_len(summary, layout) == (bytes.len() as u64));
    let written = write_summary(alloc, summary, layout).expect(rt, "ample memory");
    assert!(rt; written.as_slice() == bytes);
    drop(written);
}

/// The bytes are refused as damaged.
fn is_damaged(rt: &impl Abort, alloc: Global, bytes: &[u8]) {
    let refusal = read_summary(alloc, bytes, 3, 2).err();
    assert!(rt; refusal == Some(Refusal::Damaged(0)));
}

#[test]
fn a_snapshot_is_whole(rt: HostRuntime) {
    let alloc = rt.alloc();
    for n in 0..STOOD.len() {
        is_damaged(&rt, alloc, &STOOD[..n]);
    }
    let mut longer = [0; 66];
    longer[..65].copy_from_slice(&STOOD);
    is_damaged(&rt, alloc, &longer);
}

/// With the byte there the bytes are damaged, or they are the snapshot of another summary.
fn is_none_or_another(rt: &impl Abort, alloc: Global, at: usize, byte: u8) {
    let mut bytes = Vec::from_slice(alloc, &STOOD).expect(rt, "ample memory");
    if at < bytes.len() {
        bytes[at] = byte;
    }
    match read_summary(alloc, &bytes, 3, 2) {
        Ok(summary) => is_written(rt, alloc, &summary, 2, &bytes),
        Err(refusal) => assert!(rt; refusal == Refusal::Damaged(0)),
    }
}

#[test]
fn each_byte_counts(rt: HostRuntime) {
    let alloc = rt.alloc();
    for (at, byte) in STOOD.iter().enumerate() {
        is_none_or_another(&rt, alloc, at, byte ^ 1);
        is_none_or_another(&rt, alloc, at, byte ^ 4);
        is_none_or_another(&rt, alloc, at, byte ^ 0x80);
    }
}

/// What these bytes are read as in this layout, part after part, where they are a snapshot.
fn read_in_parts(rt: &impl Abort, alloc: Global, bytes: &[u8], layout: u8) -> Option<Summary> {
    let mut reader = SummaryReader::new(alloc, 3, layout);
    let mut rest = bytes;
    for _ in 0..bytes.len() {
        reader.reserve(rest.len()).expect(rt, "ample memory");
        match reader.take(rest) {
            Some(size) => rest = &rest[size..],
            None => break,
        }
    }
    if !rest.is_empty() {
        return None;
    }
    reader.finish().ok()
}

/// What a row begins with.
#[derive(Clone, Copy)]
enum Begins {
    Nothing,
    /// The parts of a node without inputs.
    NoInputs,
    /// Those of the node that stood.
    Stood,
    /// Those of the node that took two messages.
    Took,
}

impl Begins {
    fn bytes(self) -> &'static [u8] {
        match self {
            Begins::Nothing => &[],
            Begins::NoInputs => &[0; 38],
            Begins::Stood => &STOOD,
            Begins::Took => &TOOK,
        }
    }
}

/// The snapshots of layouts 1, 2 and 3, and bytes that are none there: what they begin with, and what stands behind it.
static LAYOUTS: [(u8, Begins, &[u8], bool); 20] = [
    (1, Begins::Nothing, &[], true),
    (1, Begins::Nothing, &[0], false),
    (1, Begins::NoInputs, &[], false),
    (1, Begins::Stood, &[], false),
    (2, Begins::Nothing, &[], false),
    (2, Begins::NoInputs, &[], true),
    (2, Begins::Stood, &[], true),
    (2, Begins::Took, &[], true),
    (2, Begins::Stood, &[0, 0, 0, 0], false), // bytes left over
    (2, Begins::Stood, &[0, 0, 0, 1, 1, 0x61, 0, 0, 0, 9], false), // a floor
    (3, Begins::Nothing, &[0, 0, 0, 0], false),
    (3, Begins::NoInputs, &[0, 0, 0, 0], true),
    (3, Begins::Stood, &[0, 0, 0, 0], true),
    (3, Begins::Stood, &[], false), // the number of floors is not there
    (3, Begins::Stood, &[0], false),
    (3, Begins::Stood, &[0, 0, 0], false),
    (3, Begins::Stood, &[0, 0, 0, 1], false), // a floor that is not there
    (3, Begins::Stood, &[1, 0, 0, 0], false),
    (3, Begins::NoInputs, &[0, 0, 1, 0], false),
    (3, Begins::Stood, &[0, 0, 0, 0, 0], false), // a byte left over
];

/// What stands behind the node that stood for red 5, in layout 3: floors that it may have, and bytes that are none.
static FLOORS: [(&[u8], bool); 22] = [
    (&[0, 0, 0, 1, 1, 0x61, 0, 0, 0, 9], true), // a 9
    (&[0, 0, 0, 1, 3, 0x72, 0x65, 0x64, 0, 0, 0, 5], true), // red 5
    (&[0, 0, 0, 1, 3, 0x72, 0x65, 0x64, 0, 0, 0, 6], false), // red 6, and the key is below it
    (&[0, 0, 0, 1, 3, 0x72, 0x65, 0x65, 0, 0, 0, 6], true), // ree 6
    (&[0, 0, 0, 1, 2, 0x72, 0x65, 0, 0, 0, 6], true), // re 6
    (&[0, 0, 0, 1, 1, 0x61, 0, 0, 0, 1], true), // a 1
    (&[0, 0, 0, 1, 1, 0x61, 0, 0, 0, 0], false), // a 0
    (&[0, 0, 0, 1, 1, 0x61, 0x3B, 0x9A, 0xC9, 0xFF], true), // a 999,999,999
    (&[0, 0, 0, 1, 1, 0x61, 0x3B, 0x9A, 0xCA, 0], false), // a 1,000,000,000
    (&[0, 0, 0, 1, 0, 0, 0, 0, 9], false), // no name
    (&[0, 0, 0, 1, 1, 0x41, 0, 0, 0, 9], false), // a capital
    (&[0, 0, 0, 1, 1, 0x61, 0, 0, 0], false), // a byte too few
    (&[0, 0, 0, 1, 1, 0x61, 0, 0, 0, 9, 0], false), // a byte left over
    (&[0, 0, 0, 2, 1, 0x61, 0, 0, 0, 9], false), // a floor too few
    (&[0, 0, 0, 0, 1, 0x61, 0, 0, 0, 9], false), // a floor that is not counted
    (
        &[0, 0, 0, 2, 1, 0x61, 0, 0, 0, 9, 1, 0x62, 0, 0, 0, 2],
        true,
    ), // a 9, b 2
    (
        &[0, 0, 0, 2, 1, 0x61, 0, 0, 0, 2, 1, 0x61, 0, 0, 0, 9],
        false,
    ), // a 2, a 9
    (
        &[0, 0, 0, 2, 1, 0x62, 0, 0, 0, 2, 1, 0x61, 0, 0, 0, 9],
        false,
    ), // b 2, a 9
    (
        &[0, 0, 0, 2, 2, 0x61, 0x61, 0, 0, 0, 2, 1, 0x62, 0, 0, 0, 9],
        true,
    ), // aa 2, b 9
    (
        &[0, 0, 0, 2, 1, 0x62, 0, 0, 0, 2, 2, 0x61, 0x61, 0, 0, 0, 9],
        false,
    ), // b 2, aa 9
    (
        &[
            0, 0, 0, 2, 1, 0x61, 0, 0, 0, 2, 3, 0x72, 0x65, 0x64, 0, 0, 0, 5,
        ],
        true,
    ), // a 2, red 5
    (
        &[
            0, 0, 0, 2, 1, 0x61, 0, 0, 0, 2, 3, 0x72, 0x65, 0x64, 0, 0, 0, 9,
        ],
        false,
    ), // a 2, red 9
];

/// The bytes are this row's.
fn bytes_of(rt: &impl Abort, alloc: Global, begins: Begins, end: &[u8]) -> Vec<u8> {
    let mut bytes = Vec::from_slice(alloc, begins.bytes()).expect(rt, "ample memory");
    bytes.extend_from_slice(end).expect(rt, "ample memory");
    bytes
}

/// Whether the bytes are read as a snapshot, which is written again as they are. Else they are refused as damaged.
fn is_snapshot(rt: &impl Abort, alloc: Global, layout: u8, bytes: &[u8]) -> bool {
    match read_summary(alloc, bytes, 3, layout) {
        Ok(summary) => {
            is_written(rt, alloc, &summary, layout, bytes);
            true
        }
        Err(refusal) => {
            assert!(rt; refusal == Refusal::Damaged(0));
            false
        }
    }
}

/// Whether the bytes are read so part after part.
fn is_snapshot_in_parts(rt: &impl Abort, alloc: Global, layout: u8, bytes: &[u8]) -> bool {
    match read_in_parts(rt, alloc, bytes, layout) {
        Some(summary) => {
            is_written(rt, alloc, &summary, layout, bytes);
            true
        }
        None => false,
    }
}

/// The bytes are read as the snapshot that they are, whole and part after part, and written again; or they are refused.
fn is_judged(
    rt: &impl Abort,
    alloc: Global,
    layout: u8,
    begins: Begins,
    end: &[u8],
    expected: bool,
) {
    let bytes = bytes_of(rt, alloc, begins, end);
    assert!(rt; is_snapshot(rt, alloc, layout, &bytes) == expected);
    assert!(rt; is_snapshot_in_parts(rt, alloc, layout, &bytes) == expected);
    drop(bytes);
}

#[test]
fn snapshots_by_layout(rt: HostRuntime) {
    let alloc = rt.alloc();
    for row in &LAYOUTS {
        let (layout, begins, end, is_snapshot) = *row;
        is_judged(&rt, alloc, layout, begins, end, is_snapshot);
    }
}

#[test]
fn floors_of_snapshots(rt: HostRuntime) {
    let alloc = rt.alloc();
    for row in &FLOORS {
        let (end, is_snapshot) = *row;
        is_judged(&rt, alloc, 3, Begins::Stood, end, is_snapshot);
    }
}

#[test]
fn each_byte_of_floors_counts(rt: HostRuntime) {
    let alloc = rt.alloc();
    let end = [
        0, 0, 0, 2, 1, 0x61, 0, 0, 0, 9, 3, 0x72, 0x65, 0x64, 0, 0, 0, 5,
    ];
    for n in 0..end.len() {
        is_judged(&rt, alloc, 3, Begins::Stood, &end[..n], false);
    }
    is_judged(&rt, alloc, 3, Begins::Stood, &end, true);
}
