// Runs in which one node is stopped at two checkpoints.
mod node;
mod story;

use super::TEARS;
use disk_model::Tear;
use node::{Disk, Round, Stored, breaks, created, emptied, end, fails, new_disk, recovered};
use std::alloc::AllocGlobal;
use std::process::Abort;
use story::{Place, is_at, next};

/// A stop within a checkpoint.
#[derive(Clone, Copy)]
struct Stop {
    /// At which device call of the checkpoint, 1 to 6.
    call: u64,
    /// What is left of the bytes that are not synced.
    tear: Tear,
}

/// How many stops there are: five tears at each of six calls.
const STOPS: u64 = 30;

impl Stop {
    fn numbered(number: u64) -> Stop {
        Stop {
            call: number / 5 + 1,
            tear: TEARS[(number % 5) as usize],
        }
    }

    /// Whether the checkpoint stays: its last write is the gate's, and leaves it open.
    fn keeps(self) -> bool {
        self.call >= 5 && (self.tear == Tear::New || self.tear == Tear::Fill(1))
    }
}

/// What the area is that is not in use, before the first stop.
#[derive(Clone, Copy)]
enum Other {
    /// The device does not go that far.
    Missing,
    /// The journal before had it in use, and the device was formatted again.
    Closed,
    /// It was in use until a checkpoint.
    Open,
    /// A checkpoint was stopped before it opened it.
    Left,
}

/// A node with two inputs, all durable, and where it is.
fn prepared<R: Abort + AllocGlobal>(rt: &R, other: Other) -> (Stored, Place) {
    let mut place = Place::new();
    let mut node = created(rt, disk_for(rt, other));
    next(rt, &mut node, Round::Flush, &mut place);
    let mut node = with_other(rt, node, other, &mut place);
    next(rt, &mut node, Round::Flush, &mut place);
    (node, place)
}

/// What the node is created on.
fn disk_for<R: Abort + AllocGlobal>(rt: &R, other: Other) -> Disk {
    match other {
        Other::Closed => given_up(rt),
        _ => new_disk(rt),
    }
}

/// A disk with a journal whose second area is in use.
fn given_up<R: Abort + AllocGlobal>(rt: &R) -> Disk {
    let mut node = created(rt, new_disk(rt));
    emptied(rt, &mut node);
    end(rt, node)
}

/// The node, whose other area is made so.
fn with_other<R: Abort + AllocGlobal>(
    rt: &R,
    node: Stored,
    other: Other,
    place: &mut Place,
) -> Stored {
    let mut node = node;
    match other {
        Other::Missing | Other::Closed => node,
        Other::Open => {
            emptied(rt, &mut node);
            place.summarise();
            node
        }
        Other::Left => {
            fails(rt, &mut node, 4);
            recovered(rt, node, Tear::New)
        }
    }
}

/// The node is stopped at a checkpoint while its next input waits, and recovered: it is at its place then.
fn stopped<R: Abort + AllocGlobal>(rt: &R, node: Stored, stop: Stop, place: &mut Place) -> Stored {
    let mut node = node;
    let (ask, _) = place.input(rt);
    breaks(rt, &mut node, ask, stop.call);
    let mut node = recovered(rt, node, stop.tear);
    if stop.keeps() {
        place.accept();
        place.summarise();
    }
    is_at(rt, &mut node, *place);
    node
}

/// The node makes its next input durable by a checkpoint, and is recovered: it is at its place then.
fn ends<R: Abort + AllocGlobal>(rt: &R, node: Stored, place: &mut Place) {
    let mut node = node;
    next(rt, &mut node, Round::Checkpoint, place);
    place.summarise();
    let mut node = recovered(rt, node, Tear::Old);
    is_at(rt, &mut node, *place);
    drop(node);
}

/// One run for each pair of stops, over such an area.
fn walks<R: Abort + AllocGlobal>(rt: &R, other: Other) {
    for first in 0..STOPS {
        for second in 0..STOPS {
            let (node, mut place) = prepared(rt, other);
            let node = stopped(rt, node, Stop::numbered(first), &mut place);
            let node = stopped(rt, node, Stop::numbered(second), &mut place);
            ends(rt, node, &mut place);
        }
    }
}

#[test]
fn two_stopped_checkpoints_over_a_missing_area(rt: HostRuntime) {
    walks(&rt, Other::Missing);
}

#[test]
fn two_stopped_checkpoints_over_a_closed_area(rt: HostRuntime) {
    walks(&rt, Other::Closed);
}

#[test]
fn two_stopped_checkpoints_over_an_open_area(rt: HostRuntime) {
    walks(&rt, Other::Open);
}

#[test]
fn two_stopped_checkpoints_over_an_area_left_unopened(rt: HostRuntime) {
    walks(&rt, Other::Left);
}
