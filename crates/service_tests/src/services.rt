// Two services on one hub, each in a thread of its own beside a flusher.
use crate::hub_clients::Act;
use crate::hubs::plays_duo;
use crate::rows::empty_device;
use crate::slow::Flags;
use crate::together::Duo;
use std::test::*;
use test_rows::{Ask, Note, Say};

const SERVICES: Duo = Duo {
    first: &[Act::StandsTwice("red")],
    second: &[Act::StandsTwice("blue")],
    later: &[],
    holds_rounds: false,
};

#[test]
fn two_services_on_one_hub(rt: HostRuntime) -> Result<(), Fail> {
    let (journal, settled) = plays_duo(&rt, empty_device(&rt), &Flags::new(), SERVICES);
    settled.vouches(&rt, true, true);
    drop((journal, settled));
    Ok(())
}

/// One leads `red`, and gives up the terms below; the other is told so by the board.
const GIVES_UP: Duo = Duo {
    first: &[
        Act::Appends(
            Ask::Take(0, Note::Elected("red", 5, 30, 2)),
            Some(Say::Taken),
        ),
        Act::GivesUp("red"),
    ],
    second: &[],
    later: &[
        Act::IsBelow("red", 4, 5),
        Act::Reads("red", Some((5, 30, 2))),
    ],
    holds_rounds: false,
};

#[test]
fn a_service_gives_up_terms(rt: HostRuntime) -> Result<(), Fail> {
    let (journal, settled) = plays_duo(&rt, empty_device(&rt), &Flags::new(), GIVES_UP);
    settled.vouches(&rt, true, false);
    drop((journal, settled));
    Ok(())
}
