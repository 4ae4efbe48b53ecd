// What rows name, as values.
ghost use Rattle.ring_records.specs.Snapshot.{IsSound};

use ring_records::{
    Candidate, Input, Key, LAYOUT, Msg, NodeNo, Summary, read_summary, write_summary,
};
use std::alloc::Global;
use std::process::Abort;
use test_rows::{Note, Op};

pub fn node(rt: &impl Abort, number: u8) -> NodeNo {
    NodeNo::new(number).expect(rt, "a node")
}

pub fn key(rt: &impl Abort, group: &str, term: u32) -> Key {
    test_rows::key(group, term).expect(rt, "a key")
}

/// The candidate of this bid and node.
pub fn candidate(rt: &impl Abort, numbers: (u32, u8)) -> Candidate {
    test_rows::candidate(numbers.0, numbers.1).expect(rt, "a candidate")
}

/// The leader of this bid and node, or none.
pub fn leader(rt: &impl Abort, numbers: Option<(u32, u8)>) -> Option<Candidate> {
    match numbers {
        Some(numbers) => Some(candidate(rt, numbers)),
        None => None,
    }
}

pub fn msg(rt: &impl Abort, note: Note) -> Msg {
    note.msg().expect(rt, "a message")
}

pub fn input(rt: &impl Abort, op: Op) -> Input {
    op.input().expect(rt, "an input")
}

/// The inputs in their order. Where the first growth is refused it is asked again.
pub fn inputs(rt: &impl Abort, alloc: Global, ops: &[Op]) -> Vec<Input> {
    let mut inputs = Vec::new(alloc);
    if inputs.reserve(ops.len()).is_err() {
        inputs.reserve(ops.len()).expect(rt, "ample memory");
    }
    for op in ops {
        inputs.push(input(rt, *op)).expect(rt, "ample memory");
    }
    inputs
}

/// The snapshot of this summary.
pub fn written(rt: &impl Abort, alloc: Global, summary: &Summary) -> Vec<u8> {
    assert!(rt; summary.keys.len() <= u32::MAX as usize);
    assert!(rt; summary.floors.len() <= u32::MAX as usize);
    write_summary(alloc, summary, LAYOUT).expect(rt, "ample memory")
}

/// The summary whose snapshot these bytes are, in a ring of three.
pub fn read(rt: &impl Abort, alloc: Global, bytes: &[u8]) -> Summary
    ensures { IsSound 3 result }
{
    match read_summary(alloc, bytes, 3, LAYOUT) {
        Ok(summary) => summary,
        Err(refusal) => panic!(rt; "{refusal}"),
    }
}
