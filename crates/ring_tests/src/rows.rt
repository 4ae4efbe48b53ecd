// What rows name, as values.
use ring_records::{Input, NodeNo};
use std::process::Abort;
use test_rows::Op;

pub fn node(rt: &impl Abort, number: u8) -> NodeNo {
    NodeNo::new(number).expect(rt, "a node")
}

pub fn input(rt: &impl Abort, op: Op) -> Input {
    op.input().expect(rt, "an input")
}
