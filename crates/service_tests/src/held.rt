// A reader that reads while the publisher's round is held before its commit, each in a thread of its own.
use crate::hub_clients::Act;
use crate::hubs::plays_duo;
use crate::rows::empty_device;
use crate::slow::Flags;
use crate::together::Duo;
use std::test::*;
use test_rows::{Ask, Note, Say};

const RED: Ask = Ask::Take(0, Note::Elected("red", 5, 30, 2));

const BLUE: Ask = Ask::Take(1, Note::Elected("blue", 1, 30, 2));

/// The appender submits twice, in turn; the reader reads while the second round is held.
const HELD: Duo = Duo {
    first: &[
        Act::Appends(RED, Some(Say::Taken)),
        Act::Appends(BLUE, Some(Say::Taken)),
    ],
    second: &[
        Act::AwaitsHold,
        Act::Reads("red", Some((5, 30, 2))),
        Act::Reads("blue", None),
        Act::Frees,
    ],
    later: &[Act::Reads("blue", Some((1, 30, 2)))],
    holds_rounds: true,
};

#[test]
fn a_reader_reads_while_a_round_is_held(rt: HostRuntime) -> Result<(), Fail> {
    let (journal, settled) = plays_duo(&rt, empty_device(&rt), &Flags::new(), HELD);
    settled.vouches(&rt, true, false);
    drop((journal, settled));
    Ok(())
}
