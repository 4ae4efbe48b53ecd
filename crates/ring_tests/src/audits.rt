// Whether the histories of nodes can be told as one run, on worked ones.
mod growths;

use crate::rows::{input, node};
use ring_audit::{AuditFault, audit};
use ring_records::Input;
use std::alloc::{AllocError, Global};
use std::process::Abort;
use test_rows::Note::{Elected, Token};
use test_rows::Op::{self, Acked, Stand, Take};

/// The election of three nodes, in the inputs of each.
const FIRST: [Op; 4] = [
    Stand("red", 5, 10),
    Take(0, Token("red", 5, 20, 3)),
    Take(1, Token("red", 5, 30, 2)),
    Take(2, Elected("red", 5, 30, 2)),
];

const SECOND: [Op; 5] = [
    Stand("red", 5, 30),
    Take(0, Token("red", 5, 10, 1)),
    Take(1, Token("red", 5, 20, 3)),
    Take(2, Token("red", 5, 30, 2)),
    Take(3, Elected("red", 5, 30, 2)),
];

const THIRD: [Op; 3] = [
    Stand("red", 5, 20),
    Take(0, Token("red", 5, 30, 2)),
    Take(1, Elected("red", 5, 30, 2)),
];

/// The second without its last input, and the third without.
const SECOND_CUT: [Op; 4] = [
    Stand("red", 5, 30),
    Take(0, Token("red", 5, 10, 1)),
    Take(1, Token("red", 5, 20, 3)),
    Take(2, Token("red", 5, 30, 2)),
];

const THIRD_CUT: [Op; 2] = [Stand("red", 5, 20), Take(0, Token("red", 5, 30, 2))];

static WHOLE: [&[Op]; 3] = [&FIRST, &SECOND, &THIRD];

static CUT: [&[Op]; 3] = [&FIRST, &SECOND, &THIRD_CUT];

fn history(rt: &impl Abort, alloc: Global, ops: &[Op]) -> Result<Vec<Input>, AllocError> {
    let mut inputs = Vec::new(alloc);
    for op in ops {
        inputs.extend_from_slice(&[input(rt, *op)])?;
    }
    Ok(inputs)
}

/// The histories of these inputs.
fn built(rt: &impl Abort, alloc: Global, rows: &[&[Op]]) -> Result<Vec<Vec<Input>>, AllocError> {
    let mut all = Vec::new(alloc);
    for ops in rows {
        all.push(history(rt, alloc, ops)?)?;
    }
    Ok(all)
}

/// The same, with memory enough.
fn histories(rt: &impl Abort, alloc: Global, rows: &[&[Op]]) -> Vec<Vec<Input>> {
    built(rt, alloc, rows).expect(rt, "ample memory")
}

/// How many steps the run of the histories has, or why there is none.
fn steps(alloc: Global, histories: &[Vec<Input>]) -> Result<usize, AuditFault> {
    let run = audit(alloc, histories)?;
    Ok(run.len())
}

fn has_steps(rt: &impl Abort, alloc: Global, rows: &[&[Op]], count: usize) {
    let histories = histories(rt, alloc, rows);
    assert!(rt; steps(alloc, &histories) == Ok(count));
}

fn is_stuck(rt: &impl Abort, alloc: Global, rows: &[&[Op]], at: u8, place: u64) {
    let histories = histories(rt, alloc, rows);
    let node = node(rt, at);
    assert!(rt; steps(alloc, &histories) == Err(AuditFault::Stuck { node, place }));
}

static WITHOUT_THE_LAST: [&[Op]; 3] = [&FIRST, &SECOND_CUT, &THIRD];

#[test]
fn an_election_is_one_run(rt: HostRuntime) {
    has_steps(&rt, rt.alloc(), &WHOLE, 12);
    has_steps(&rt, rt.alloc(), &WITHOUT_THE_LAST, 11);
}

static FROM_NOBODY: [&[Op]; 2] = [&[], &[Take(0, Token("red", 9, 5, 1))]];

#[test]
fn what_nobody_sent_is_not_placed(rt: HostRuntime) {
    is_stuck(&rt, rt.alloc(), &FROM_NOBODY, 2, 0);
    is_stuck(&rt, rt.alloc(), &CUT, 1, 3);
}

const SWAPPED: [Op; 5] = [
    Stand("red", 5, 30),
    Take(1, Token("red", 5, 20, 3)),
    Take(0, Token("red", 5, 10, 1)),
    Take(2, Token("red", 5, 30, 2)),
    Take(3, Elected("red", 5, 30, 2)),
];

static TOO_EARLY: [&[Op]; 3] = [&FIRST, &SWAPPED, &THIRD];

#[test]
fn what_was_sent_later_is_not_placed(rt: HostRuntime) {
    is_stuck(&rt, rt.alloc(), &TOO_EARLY, 1, 3);
}

const ANOTHER: [Op; 3] = [
    Stand("red", 5, 20),
    Take(0, Token("red", 5, 31, 2)),
    Take(1, Elected("red", 5, 30, 2)),
];

static OF_ANOTHER_BID: [&[Op]; 3] = [&FIRST, &SECOND, &ANOTHER];

#[test]
fn another_message_is_not_placed(rt: HostRuntime) {
    is_stuck(&rt, rt.alloc(), &OF_ANOTHER_BID, 1, 2);
}

const CREDITED: [Op; 5] = [
    Stand("red", 5, 10),
    Take(0, Token("red", 5, 20, 3)),
    Take(1, Token("red", 5, 30, 2)),
    Take(2, Elected("red", 5, 30, 2)),
    Acked(4),
];

static NOT_TAKEN: [&[Op]; 3] = [&CREDITED, &SECOND_CUT, &THIRD];

static TAKEN: [&[Op]; 3] = [&CREDITED, &SECOND, &THIRD];

#[test]
fn more_is_not_credited_than_was_taken(rt: HostRuntime) {
    is_stuck(&rt, rt.alloc(), &NOT_TAKEN, 1, 4);
    has_steps(&rt, rt.alloc(), &TAKEN, 13);
}

/// So many histories of no inputs.
fn empty(rt: &impl Abort, alloc: Global, count: usize) -> Vec<Vec<Input>> {
    let mut all = Vec::new(alloc);
    for _ in 0..count {
        all.push(Vec::new(alloc)).expect(rt, "ample memory");
    }
    all
}

/// How many histories there are, and whether they are those of a ring.
static SHAPES: [(usize, bool); 5] = [(0, false), (1, false), (2, true), (16, true), (17, false)];

#[test]
fn rings_have_two_to_sixteen_histories(rt: HostRuntime) {
    for row in &SHAPES {
        let (count, is_ring) = *row;
        let histories = empty(&rt, rt.alloc(), count);
        let expected = if is_ring {
            Ok(0)
        } else {
            Err(AuditFault::Shape)
        };
        assert!(rt; steps(rt.alloc(), &histories) == expected);
    }
}

#[test]
fn inputs_that_are_all_stuck_end_soon(rt: HostRuntime) {
    let alloc = rt.alloc();
    let mut inputs = Vec::new(alloc);
    for upto in 1..65_537 {
        inputs
            .extend_from_slice(&[Input::Acked { upto }])
            .expect(&rt, "ample memory");
    }
    let mut histories = empty(&rt, alloc, 1);
    histories.push(inputs).expect(&rt, "ample memory");
    let node = node(&rt, 2);
    assert!(rt; steps(alloc, &histories) == Err(AuditFault::Stuck { node, place: 0 }));
}
