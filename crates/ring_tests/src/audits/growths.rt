// Audits of which a growth is refused.
use super::{CUT, FIRST, WHOLE, built, steps};
use crate::rows::node;
use ring_audit::AuditFault;
use ring_records::Input;
use std::alloc::Global;
use std::process::Abort;
use test_rows::Op;

/// The histories of these inputs; where a growth is refused they are made again.
fn built_at_last(rt: &impl Abort, alloc: Global, rows: &[&[Op]]) -> Vec<Vec<Input>> {
    match built(rt, alloc, rows) {
        Ok(histories) => histories,
        Err(_) => built(rt, alloc, rows).expect(rt, "ample memory"),
    }
}

/// The audit says this; where a growth is refused it says so, and the next one says this.
fn comes_at_last(
    rt: &impl Abort,
    alloc: Global,
    rows: &[&[Op]],
    expected: Result<usize, AuditFault>,
) {
    let histories = built_at_last(rt, alloc, rows);
    let mut told = steps(alloc, &histories);
    if told == Err(AuditFault::Memory) {
        told = steps(alloc, &histories);
    }
    assert!(rt; told == expected);
}

#[test]
fn refused_growths(rt: HostRuntime) {
    comes_at_last(&rt, rt.alloc(), &WHOLE, Ok(12));
}

#[test]
fn refused_growths_where_inputs_are_stuck(rt: HostRuntime) {
    let (node, place) = (node(&rt, 1), 3);
    let stuck = AuditFault::Stuck { node, place };
    comes_at_last(&rt, rt.alloc(), &CUT, Err(stuck));
}

static ALONE: [&[Op]; 1] = [&FIRST];

#[test]
fn refused_growths_of_one_history(rt: HostRuntime) {
    comes_at_last(&rt, rt.alloc(), &ALONE, Err(AuditFault::Shape));
}
