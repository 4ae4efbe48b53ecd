// What the nodes of a ring hold durably, where a growth is refused.
use crate::rows::node;
use crate::worlds::submit;
use ring_records::{Input, Refusal};
use ring_world::{Event, World};
use std::alloc::Global;
use std::process::Abort;
use test_rows::Ask;

/// A lazy ring of two whose node 1 stood and flushed. Where a growth was refused in that, there is none.
fn stood(rt: &impl Abort, alloc: Global) -> Option<World> {
    let Ok(mut world) = World::new(alloc, 2, false, 4_096) else {
        return None;
    };
    let stand = submit(rt, 1, Ask::Stand("red", 5, 10));
    let asked = world.step(stand).is_ok();
    let flushed = world.step(Event::Flush(node(rt, 1)));
    if let (true, Ok(outcome)) = (asked, &flushed) {
        assert!(rt; outcome.flushed == Some(1));
        return Some(world);
    }
    if flushed.is_err() {
        is_failed(rt, &world);
    }
    world.end();
    None
}

/// It gives no histories behind a refused growth.
fn is_failed(rt: &impl Abort, world: &World) {
    match world.histories() {
        Ok(_) => panic!(rt; "not refused"),
        Err(was) => assert!(rt; was == Refusal::Failed),
    }
}

/// The histories; where a growth is refused, nothing has changed, and the next call gives them.
fn given(rt: &impl Abort, world: &World) -> Vec<Vec<Input>> {
    match world.histories() {
        Ok(histories) => histories,
        Err(refusal) => {
            assert!(rt; refusal == Refusal::OutOfMemory);
            world.histories().expect(rt, "ample memory")
        }
    }
}

#[test]
fn refused_growths(rt: HostRuntime) {
    let world = match stood(&rt, rt.alloc()) {
        Some(world) => world,
        None => stood(&rt, rt.alloc()).expect(&rt, "ample memory"),
    };
    let histories = given(&rt, &world);
    assert!(&rt; histories.len() == 2);
    assert!(&rt; histories[0].len() == 1);
    assert!(&rt; histories[1].len() == 0);
    world.end();
}
