// A snapshot that is refused for want of memory is read or written by the next call.
use ring_records::{Refusal, Summary, read_summary, write_summary};
use std::alloc::Global;
use std::process::Abort;

/// The snapshot in layout 3 of node 1 of 3 that stood for red 5 with bid 10, and whose token is not credited yet.
static STOOD: [u8; 69] = [
    0, 0, 0, 0, 0, 0, 0, 1, 0, 0, 0, 0, 0, 0, 0, 0, 0, 0, 0, 0, 0, 0, 0, 0, 0, 0, 0, 0, 0, 0, 0, 1,
    0, 1, 0, 0, 0, 1, 3, 0x72, 0x65, 0x64, 0, 0, 0, 5, 1, 0, 0, 0, 10, 2, 3, 0x72, 0x65, 0x64, 0,
    0, 0, 5, 0, 0, 0, 10, 1, 0, 0, 0, 0,
];

/// What is read, at the second call where the first finds no memory.
fn read_at_last(rt: &impl Abort, alloc: Global) -> Summary {
    match read_summary(alloc, &STOOD, 3, 3) {
        Ok(summary) => summary,
        Err(refusal) => {
            assert!(rt; refusal == Refusal::OutOfMemory);
            read_summary(alloc, &STOOD, 3, 3).expect(rt, "ample memory")
        }
    }
}

/// What is written, at the second call where the first finds no memory.
fn written_at_last(rt: &impl Abort, alloc: Global, summary: &Summary) -> Vec<u8> {
    assert!(rt; summary.keys.len() <= u32::MAX as usize);
    assert!(rt; summary.floors.len() <= u32::MAX as usize);
    match write_summary(alloc, summary, 3) {
        Ok(bytes) => bytes,
        Err(_) => write_summary(alloc, summary, 3).expect(rt, "ample memory"),
    }
}

#[test]
fn refused_growths(rt: HostRuntime) {
    let summary = read_at_last(&rt, rt.alloc());
    let bytes = written_at_last(&rt, rt.alloc(), &summary);
    assert!(rt; bytes.as_slice() == STOOD.as_slice());
}
