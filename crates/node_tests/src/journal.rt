// The journals of gated_journal: what no clause says, and no row of a node asks. The bytes are worked out by hand from the
// layout.
use crate::devices::{self, memory_device};
use disk_model::MemDevice;
use std::alloc::AllocGlobal;
use std::process::Abort;

mod areas;
mod cuts;
mod files;
mod growths;
mod pieces;
mod suits;
mod verdict;

/// A new journal of node 1 of 3, capacity 4,096: the header, and area A with a snapshot of 42 zeros.
static FRESH: [u8; 73] = [
    0x43, 0x52, 0x4A, 0x52, 0x4E, 0x4C, 0x30, 0x32, 1, 3, 0, 0, 0x10, 0, 0, 0, 1, 3, 0, 0, 0, 0, 0,
    0, 0, 1, 0, 0, 0, 42, 0, 0, 0, 0, 0, 0, 0, 0, 0, 0, 0, 0, 0, 0, 0, 0, 0, 0, 0, 0, 0, 0, 0, 0,
    0, 0, 0, 0, 0, 0, 0, 0, 0, 0, 0, 0, 0, 0, 0, 0, 0, 0, 0,
];

/// The same with one frame: a Stand of group `red`, term 5, bid 10.
static COMMITTED: [u8; 93] = [
    0x43, 0x52, 0x4A, 0x52, 0x4E, 0x4C, 0x30, 0x32, 1, 3, 0, 0, 0x10, 0, 0, 0, 1, 3, 0, 0, 0, 0, 0,
    0, 0, 1, 0, 0, 0, 42, 0, 0, 0, 0, 0, 0, 0, 0, 0, 0, 0, 0, 0, 0, 0, 0, 0, 0, 0, 0, 0, 0, 0, 0,
    0, 0, 0, 0, 0, 0, 0, 0, 0, 0, 0, 0, 0, 0, 0, 0, 0, 0, 1, 0, 1, 0, 0, 0, 0x0D, 1, 3, 0x72, 0x65,
    0x64, 0, 0, 0, 5, 0, 0, 0, 0x0A, 0,
];

/// Where area B begins.
const AREA_B: u64 = 4127;

/// Area B in epoch 2, with the snapshot of that Stand: 69 bytes.
static SECOND_AREA: [u8; 84] = [
    1, 3, 0, 0, 0, 0, 0, 0, 0, 2, 0, 0, 0, 69, 0, 0, 0, 0, 0, 0, 0, 1, 0, 0, 0, 0, 0, 0, 0, 0, 0,
    0, 0, 0, 0, 0, 0, 0, 0, 0, 0, 0, 0, 0, 0, 1, 0, 1, 0, 0, 0, 1, 3, 0x72, 0x65, 0x64, 0, 0, 0, 5,
    1, 0, 0, 0, 10, 2, 3, 0x72, 0x65, 0x64, 0, 0, 0, 5, 0, 0, 0, 10, 1, 0, 0, 0, 0, 0,
];

/// A journal of node 1 of 3 that began without areas, capacity 4,096: the header, and one frame, the Stand.
static PLAIN: [u8; 37] = [
    0x43, 0x52, 0x4A, 0x52, 0x4E, 0x4C, 0x30, 0x31, 1, 3, 0, 0, 0x10, 0, 0, 0, 1, 0, 1, 0, 0, 0,
    0x0D, 1, 3, 0x72, 0x65, 0x64, 0, 0, 0, 5, 0, 0, 0, 0x0A, 0,
];

/// A journal of layout 2 of node 1 of 3, capacity 4,096, with one frame, the Stand: its snapshot is 38 zeros.
static EARLIER: [u8; 89] = [
    0x43, 0x52, 0x4A, 0x52, 0x4E, 0x4C, 0x30, 0x32, 1, 3, 0, 0, 0x10, 0, 0, 0, 1, 2, 0, 0, 0, 0, 0,
    0, 0, 1, 0, 0, 0, 38, 0, 0, 0, 0, 0, 0, 0, 0, 0, 0, 0, 0, 0, 0, 0, 0, 0, 0, 0, 0, 0, 0, 0, 0,
    0, 0, 0, 0, 0, 0, 0, 0, 0, 0, 0, 0, 0, 0, 1, 0, 1, 0, 0, 0, 0x0D, 1, 3, 0x72, 0x65, 0x64, 0, 0,
    0, 5, 0, 0, 0, 0x0A, 0,
];

/// A device with these bytes at these offsets, written one after the other.
fn device<R: Abort + AllocGlobal>(rt: &R, puts: &[(u64, &[u8])]) -> MemDevice {
    let mut device = memory_device(rt, 10_000, &[]);
    for (at, bytes) in puts {
        devices::plays(rt, &mut device, &[devices::Step::Write(*at, bytes)]);
    }
    device
}
