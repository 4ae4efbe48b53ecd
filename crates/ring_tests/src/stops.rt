// Stops of nodes at every device call, and what is left.
//
// An election of two groups is played in a lazy ring of 3 nodes: once with no stop, and once for each flush of it, each
// of the flush's device calls and each of five tears, with a stop there, which is a crash where nothing waits. Clients
// whose tickets were lost ask again. When nothing waits any more all nodes are crashed, and every message and each
// node's credit is delivered again. Each key has to have one leader, the greatest that stood, at every node and before
// and after the crashes; each repeat has to be told as old; no node may lose what it showed as durable; and every Stand
// has to be acknowledged, and known at its node in the end.
//
// And one node is stopped at two checkpoints, one behind the other, each while an input waits: once for each pair of
// stops at one of a checkpoint's six device calls with one of the tears, and this for each of four things that the area
// may be which is not in use before: missing, closed, open, or written and not opened. The node that is recovered has to
// be what it was, or, where the stop left the new gate open, what the checkpoint makes of it: in its epoch and its
// counts, in its window and in what it answers. Then a checkpoint has to work, and the node that is recovered has no
// inputs behind its summary.
mod checkpoints;
mod election;

use disk_model::Tear;
use election::{Point, run};
use std::alloc::{AllocGlobal, Global};

/// What a stop leaves of the bytes that are not synced.
const TEARS: [Tear; 5] = [
    Tear::Old,
    Tear::New,
    Tear::Fill(0),
    Tear::Fill(1),
    Tear::Fill(165),
];

/// How many runs there were, and in how many all was as it has to be.
#[derive(Drop)]
struct Count {
    runs: u32,
    good: u32,
}

impl Count {
    fn note(&mut self, is_good: bool) {
        self.runs = self.runs.saturating_add(1);
        self.good = self.good.saturating_add(u32::from(is_good));
    }
}

/// One run for each tear at this device call of this flush.
fn walk_tears(alloc: Global, flush: u32, call: u64, count: &mut Count) {
    for tear in TEARS {
        let point = Point { flush, call, tear };
        count.note(match run(alloc, Some(point)) {
            Some(end) => end.is_good,
            None => false,
        });
    }
}

/// One run for each stop at this flush.
fn walk_calls(alloc: Global, flush: u32, count: &mut Count) {
    for call in 1..5 {
        walk_tears(alloc, flush, call, count);
    }
}

#[test]
fn an_election_is_stopped_at_each_flush(rt: HostRuntime) {
    let plain = run(rt.alloc(), None).expect(&rt, "events that are taken");
    assert!(rt; plain.is_good);
    let mut count = Count { runs: 0, good: 0 };
    for flush in 0..plain.flushes {
        walk_calls(rt.alloc(), flush, &mut count);
    }
    assert!(rt; (plain.flushes, count.runs, count.good) == (27, 540, 540));
}
