// Events of a world, in plain numbers, and what they bring.
use crate::rows::node;
use ring_records::Refusal;
use ring_world::{Event, Outcome, World};
use std::alloc::Global;
use std::process::Abort;
use test_rows::{Ask, Say};

/// A ring of so many nodes of 4,096 bytes.
pub fn ring(rt: &impl Abort, alloc: Global, n: u8, eager: bool) -> World {
    World::new(alloc, n, eager, 4_096).expect(rt, "a ring")
}

/// The event that this node is asked.
pub fn submit(rt: &impl Abort, to: u8, ask: Ask) -> Event {
    let request = ask.request().expect(rt, "a request");
    Event::Submit(node(rt, to), request)
}

/// What the event brings, which is not refused.
pub fn happens(rt: &impl Abort, world: &mut World, event: Event) -> Outcome {
    world.step(event).expect(rt, "an event that is not refused")
}

/// The event is refused so.
pub fn is_refused(rt: &impl Abort, world: &mut World, event: Event, refusal: Refusal) {
    match world.step(event) {
        Ok(_) => panic!(rt; "not refused"),
        Err(was) => assert!(rt; was == refusal),
    }
}

/// What it brings that this node is asked.
pub fn asks(rt: &impl Abort, world: &mut World, to: u8, ask: Ask) -> Outcome {
    let event = submit(rt, to, ask);
    happens(rt, world, event)
}

/// The event took this ticket, and the reply to it alone was released.
pub fn answers(rt: &impl Abort, outcome: &Outcome, ticket: u64, say: Say) {
    let reply = say.reply().expect(rt, "a reply");
    assert!(rt; outcome.ticket == Some(ticket));
    assert!(rt; outcome.replies.len() == 1);
    let (number, released) = outcome.replies[0];
    assert!(rt; number == ticket);
    assert!(rt; released == reply);
}

/// The event took this ticket, and no reply was released.
pub fn is_sealed(rt: &impl Abort, outcome: &Outcome, ticket: u64) {
    assert!(rt; outcome.ticket == Some(ticket));
    assert!(rt; outcome.replies.is_empty());
}
