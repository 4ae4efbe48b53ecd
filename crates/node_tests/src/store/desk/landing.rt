// What is asked while a batch flies waits for the next one.
use super::Step::{Asks, Closes, Forfeits, Has, Lands, Launches, LaunchesNone, Redeems, Returns};
use super::*;
use crate::store::rows::Tells::Leads;
use test_rows::Sends::{Carry, Credit};

const TOLD: Note = Note::Elected("red", 5, 20, 3);

static WHAT_WAITS: [Step; 23] = [
    LaunchesNone(None),
    Asks(STAND, 1),
    Launches(1),
    Asks(Ask::Take(0, TOLD), 2),
    LaunchesNone(Some(No::Busy)),
    Lands(1, &[Carry(0, OWN)], &[]),
    Has(2, 1, 1),
    Redeems(0, Say::Stood),
    Returns(0, No::Early),
    Launches(1),
    Lands(1, &[Carry(1, TOLD), Credit(1)], &[Leads("red", 5, 20, 3)]),
    Redeems(0, Say::Taken),
    // Both fly, and land at a desk that is closed and has no ticket of them any more.
    Asks(Ask::Stand("red", 6, 10), 3),
    Asks(Ask::Acked(1), 4),
    Has(4, 2, 2),
    Launches(2),
    Has(4, 4, 2),
    LaunchesNone(Some(No::Busy)),
    Returns(0, No::Early),
    Closes,
    Forfeits(0),
    Forfeits(0),
    Lands(2, &[Carry(2, Note::Token("red", 6, 10, 1))], &[]),
];

#[test]
fn what_waits_does_not_land(rt: HostRuntime) {
    plays(&rt, &WHAT_WAITS);
}
