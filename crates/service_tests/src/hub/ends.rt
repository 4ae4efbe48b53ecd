// Hubs that are settled with some of their shares.
ghost use Rattle.std.specs.Prelude.{◌≤◌};

use crate::hub::calls::*;
use commit_hub::{Hub, NodeLedger, Share};
use ring_records::Refusal;
use std::alloc::AllocGlobal;
use std::process::Abort;
use std::sync::Wait;
use test_rows::Ask;

/// A share of which so many Stands are accepted, for terms of this group.
fn holder<A: NodeLedger, R: Wait + Abort>(
    rt: &R,
    hub: &Hub<A>,
    group: &'static str,
    count: u32,
) -> Share<A>
    requires { count ≤ 2 }
{
    let mut share = hub.enter(rt).expect(rt, "a place");
    for term in 0..count {
        let ticket = asks(rt, hub, &mut share, Ask::Stand(group, term + 1, 10));
        forfeits(rt, hub, ticket);
    }
    assert!(rt; share.count() == u64::from(count));
    share
}

/// Four shares of a hub count 0, 1, 0 and 2 inputs: those that the mask names, and the others.
fn holders<A: NodeLedger, R: Wait + Abort + AllocGlobal>(
    rt: &R,
    hub: &Hub<A>,
    mask: u8,
) -> (Vec<Share<A>>, Vec<Share<A>>) {
    let mut named = Vec::new(rt.alloc());
    let mut others = Vec::new(rt.alloc());
    for (bit, group, count) in [
        (1, "red", 0),
        (2, "blue", 1),
        (4, "green", 0),
        (8, "pink", 2),
    ] {
        let share = holder(rt, hub, group, count);
        if mask & bit != 0 {
            keeps(rt, &mut named, share);
        } else {
            keeps(rt, &mut others, share);
        }
    }
    (named, others)
}

/// The hub is settled with those of its four shares that this mask names exactly where both that count some are among
/// them, and else with the others too.
pub fn settles_some<A: NodeLedger, R: Wait + Abort + AllocGlobal>(rt: &R, hub: Hub<A>, mask: u8) {
    let (named, others) = holders(rt, &hub, mask);
    match hub.settle(named) {
        Ok(desk) => {
            assert!(rt; mask & 10 == 10 && desk.history().len() == 3);
            drop((desk, others));
        }
        Err((hub, named, refusal)) => {
            assert!(rt; mask & 10 != 10 && refusal == Refusal::Mismatch);
            settles_all(rt, hub, named, others);
        }
    }
}

/// All four shares, of which three inputs were accepted, settle the hub.
fn settles_all<A: NodeLedger, R: Abort>(
    rt: &R,
    hub: Hub<A>,
    shares: Vec<Share<A>>,
    others: Vec<Share<A>>,
) {
    let (mut shares, mut others) = (shares, others);
    assert!(rt; shares.append(&mut others).is_ok() && shares.len() == 4);
    let desk = settled(rt, hub, shares);
    assert!(rt; desk.history().len() == 3);
    drop(desk);
}
