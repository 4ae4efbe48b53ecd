// Which receipts a desk takes, and what it does once the device has failed.
use super::Step::{
    Asks, Fails, Forfeits, IsForeign, Lands, LandsNot, Launches, LaunchesNone, Redeems, Returns,
};
use super::*;
use test_rows::Sends::{Carry, Credit};

/// A receipt of these inputs of this node, behind those before them.
fn receipt_of<R: Abort + AllocGlobal>(rt: &R, number: u8, before: &[Op], ops: &[Op]) -> Receipt {
    let mut journal = journal_of(rt, node(rt, number));
    if !before.is_empty() {
        commits_all(rt, &mut journal, before).into_parts();
    }
    commits_all(rt, &mut journal, ops)
}

/// The receipt, which the desk does not take, comes back.
fn not_landed(rt: &impl Abort, desk: &mut Desk, receipt: Receipt) -> Receipt {
    match desk.land(receipt) {
        Ok(_landed) => panic!(rt; "landed"),
        Err((receipt, refusal)) => {
            assert!(rt; refusal == Refusal::Foreign);
            receipt
        }
    }
}

/// The desk does not take the receipt, which comes back as it was, and nothing changes.
fn gives_back(rt: &impl Abort, desk: &mut Desk, receipt: Receipt) {
    let before = counts(desk);
    let numbers = numbers_of(&receipt);
    let receipt = not_landed(rt, desk, receipt);
    assert!(rt; numbers_of(&receipt) == numbers);
    receipt.into_parts();
    assert!(rt; counts(desk) == before);
}

/// What comes of a batch of this one input on a device that fails.
fn spoiled<R: Abort + AllocGlobal>(rt: &R, op: Op) -> Spoiled {
    let mut journal = journal_of(rt, node(rt, 1));
    journal.arm(0, false);
    let inputs = inputs(rt, rt.alloc(), &[op]);
    let same = Batch::new(rt.alloc(), node(rt, 1), 0, &inputs).expect(rt, "one input");
    match commit(rt, &mut journal, same) {
        Ok(_receipt) => panic!(rt; "committed"),
        Err(spoiled) => spoiled,
    }
}

/// A desk that has not launched the spoiled batch does not fail by it.
fn not_failed(rt: &impl Abort, other: &mut Desk, spoiled: Spoiled) -> Spoiled {
    match other.fail(spoiled) {
        Ok(()) => panic!(rt; "failed"),
        Err((spoiled, refusal)) => {
            assert!(rt; refusal == Refusal::Foreign);
            assert!(rt; other.is_open());
            spoiled
        }
    }
}

impl Station {
    /// The desk does not take a receipt of these inputs of this node, behind those before them.
    pub(super) fn is_foreign<R: Abort + AllocGlobal>(
        &mut self,
        rt: &R,
        number: u8,
        before: &[Op],
        ops: &[Op],
    ) {
        let receipt = receipt_of(rt, number, before, ops);
        gives_back(rt, &mut self.desk, receipt);
    }

    /// The desk does not take the receipt of what flies.
    pub(super) fn lands_not(&mut self, rt: &impl Abort) {
        let receipt = self.receipt(rt);
        gives_back(rt, &mut self.desk, receipt);
    }

    /// The device fails with this one input. The desk, which has launched it, fails; another one, which has it, does not.
    pub(super) fn fails<R: Abort + AllocGlobal>(&mut self, rt: &R, op: Op) {
        let mut other = opened(rt, &[op]);
        let spoiled = not_failed(rt, &mut other, spoiled(rt, op));
        drop(other);
        match self.desk.fail(spoiled) {
            Ok(()) => assert!(rt; !self.desk.is_open()),
            Err((_spoiled, refusal)) => panic!(rt; "{refusal}"),
        }
    }
}

const TOKEN: Note = Note::Token("red", 5, 20, 3);

const TAKEN: Op = Op::Take(0, TOKEN);

static THE_BATCH_THAT_FLIES: [Step; 16] = [
    Asks(STAND, 1),
    Asks(Ask::Take(0, TOKEN), 2),
    IsForeign(1, &[], &[STOOD, TAKEN]),
    Launches(2),
    // Of another node, number, bid, order, or count.
    IsForeign(2, &[], &[STOOD, TAKEN]),
    IsForeign(1, &[Op::Stand("red", 6, 1)], &[STOOD, TAKEN]),
    IsForeign(1, &[], &[Op::Stand("red", 5, 11), TAKEN]),
    IsForeign(1, &[], &[TAKEN, STOOD]),
    IsForeign(1, &[], &[STOOD]),
    IsForeign(1, &[], &[STOOD, TAKEN, Op::Acked(1)]),
    Returns(0, No::Early),
    Returns(1, No::Early),
    Lands(2, &[Carry(0, OWN), Carry(1, TOKEN), Credit(1)], &[]),
    IsForeign(1, &[], &[STOOD, TAKEN]),
    Redeems(0, Say::Stood),
    Redeems(0, Say::Taken),
];

#[test]
fn of_the_batch_that_flies_alone(rt: HostRuntime) {
    plays(&rt, &THE_BATCH_THAT_FLIES);
}

static FAILED: [Step; 7] = [
    Asks(STAND, 1),
    Launches(1),
    Fails(STOOD),
    LandsNot,
    LaunchesNone(Some(No::Failed)),
    Returns(0, No::Failed),
    Forfeits(0),
];

#[test]
fn none_once_the_device_failed(rt: HostRuntime) {
    plays(&rt, &FAILED);
}
