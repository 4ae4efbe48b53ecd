// Packets come from neighbours alone, and only what these released.
use crate::worlds::{answers, asks, is_refused, ring, submit};
use ring_records::Refusal;
use test_rows::{Ask, Cause, Note, Say};

/// The request to take a token for term 5 of `red`, under this number, with the bid and the node of its candidate.
fn take(no: u64, bid: u32, of: u8) -> Ask {
    Ask::Take(no, Note::Token("red", 5, bid, of))
}

#[test]
fn nobody_takes_what_was_not_released(rt: HostRuntime) {
    let mut world = ring(&rt, rt.alloc(), 3, true);
    let stood = asks(&rt, &mut world, 1, Ask::Stand("red", 5, 10));
    answers(&rt, &stood, 1, Say::Stood);
    let first = take(0, 10, 1);
    for (to, ask, refusal) in [
        (2, take(0, 11, 1), Refusal::Unknown),
        (2, take(1, 10, 1), Refusal::Unknown),
        (2, take(0, 10, 4), Refusal::BadNumber),
        (3, first, Refusal::Unknown),
        (4, first, Refusal::BadNumber),
        (1, Ask::Acked(1), Refusal::Unknown),
    ] {
        let event = submit(&rt, to, ask);
        is_refused(&rt, &mut world, event, refusal);
    }
    for (to, ask, ticket, say) in [
        (2, first, 2, Say::Taken),
        (2, Ask::Stand("red", 5, 40), 3, Say::Refused(Cause::Late)),
        (1, Ask::Acked(1), 4, Say::Acked),
        (2, first, 5, Say::Refused(Cause::Old(1))),
    ] {
        let outcome = asks(&rt, &mut world, to, ask);
        answers(&rt, &outcome, ticket, say);
    }
    world.end();
}
