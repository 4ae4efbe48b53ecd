// Tickets that wait for a flush.
use crate::rows::node;
use crate::worlds::{asks, happens, is_sealed, ring};
use ring_records::Reply;
use ring_world::{Event, World};
use std::process::Abort;
use test_rows::Ask;

#[test]
fn a_request_asks_for_room_for_its_own_reply(rt: HostRuntime) {
    let mut world = ring(&rt, rt.alloc(), 3, false);
    for term in 1..101_u32 {
        let stood = asks(&rt, &mut world, 1, Ask::Stand("red", term, 10));
        is_sealed(&rt, &stood, u64::from(term));
        assert!(rt; stood.replies.capacity() == 1);
    }
    lands(&rt, &mut world, 64, 1);
    lands(&rt, &mut world, 36, 65);
    world.end();
}

/// A flush of node 1 makes so many Stands durable, and releases their replies, the first under this ticket.
fn lands(rt: &impl Abort, world: &mut World, count: u32, first: u64) {
    let node = node(rt, 1);
    let flushed = happens(rt, world, Event::Flush(node));
    assert!(rt; flushed.flushed == Some(count));
    stood(rt, &flushed.replies, count, first);
    drop(flushed);
}

/// These are so many replies to Stands, the first under this ticket.
fn stood(rt: &impl Abort, replies: &[(u64, Reply)], count: u32, first: u64) {
    assert!(rt; replies.len() == (count as usize));
    for ((ticket, reply), expected) in replies.iter().zip(first..) {
        assert!(rt; (*ticket, *reply) == (expected, Reply::Stood));
    }
}
