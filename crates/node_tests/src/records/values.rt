// How candidates are ordered, and the way round a ring.
use crate::rows::candidate;
use ring_records::NodeNo;
use std::process::Abort;

/// The first candidate is below the second.
fn orders_candidates(rt: &impl Abort, low: (u32, u8), high: (u32, u8)) {
    let (lesser, greater) = (candidate(rt, low), candidate(rt, high));
    assert!(rt; lesser < greater);
    assert!(rt; lesser.is_below(&greater));
    assert!(rt; !greater.is_below(&lesser));
    assert!(rt; !lesser.is_below(&lesser));
}

#[test]
fn orders_candidates_by_bid_and_node(rt: HostRuntime) {
    for pair in [(0, 2), (10, 1), (10, 16), (11, 1)].windows(2) {
        orders_candidates(&rt, pair[0], pair[1]);
    }
}

#[test]
fn goes_round_the_ring(rt: HostRuntime) {
    let first = NodeNo::new(1).expect(&rt, "a node");
    let second = NodeNo::new(2).expect(&rt, "a node");
    let last = NodeNo::new(3).expect(&rt, "a node");
    assert!(rt; (first.successor(3), last.successor(3)) == (second, first));
    assert!(rt; (first.predecessor(3), second.predecessor(3)) == (last, first));
}
