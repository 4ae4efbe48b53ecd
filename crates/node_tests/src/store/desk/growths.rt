// Calls that are refused for want of memory change nothing, and succeed when they are made again.
use super::Step::{Asks, Has, Lands, Launches, Redeems};
use super::*;
use crate::store::rows::Tells::Leads;
use test_rows::Cause;
use test_rows::Sends::{Carry, Credit};

const ANNOUNCED: Note = Note::Elected("red", 5, 20, 3);

static GROWTHS: [Step; 9] = [
    Asks(STAND, 1),
    Asks(WHO, 1),
    Asks(Ask::Take(0, ANNOUNCED), 2),
    Has(2, 0, 0),
    Launches(2),
    Lands(
        2,
        &[Carry(0, OWN), Carry(1, ANNOUNCED), Credit(1)],
        &[Leads("red", 5, 20, 3)],
    ),
    Redeems(0, Say::Stood),
    Redeems(0, Say::Nobody),
    Redeems(0, Say::Taken),
];

#[test]
fn refused_growths(rt: HostRuntime) {
    plays(&rt, &GROWTHS);
}

// What follows wants nothing proved of the call.
fn vouched(desk: &Desk, stub: &Stub) -> Result<bool, Refusal> {
    desk.vouch(stub)
}

/// The desk vouches for the stub, at the second call where the first finds no memory.
fn vouches_at_last(rt: &impl Abort, desk: &Desk, stub: &Stub) {
    match vouched(desk, stub) {
        Ok(vouched) => assert!(rt; vouched),
        Err(refusal) => {
            assert!(rt; refusal == Refusal::OutOfMemory);
            assert!(rt; vouched(desk, stub).expect(rt, "ample memory"));
        }
    }
}

static AGAIN: [Step; 1] = [Asks(Ask::Stand("red", 5, 20), 1)];

#[test]
fn refused_growths_of_a_stub(rt: HostRuntime) {
    let mut station = station_of(&rt, &[STOOD]);
    station.plays(&rt, &AGAIN);
    let stub = station.redeems(&rt, 0, Say::Refused(Cause::Already(10)));
    vouches_at_last(&rt, &station.desk, &stub);
    drop(stub);
    station.ends(&rt);
}
