// One run of the election.
mod clients;
mod leaders;
mod links;

use disk_model::Tear;
use ring_records::{GroupName, Key, NodeNo, Term};
use ring_world::{Event, World};
use std::alloc::Global;

/// Where a node is stopped.
#[derive(Clone, Copy)]
pub struct Point {
    /// At which flush of the run, counted from 0.
    pub flush: u32,
    /// At which device call of that flush, 1 to 4.
    pub call: u64,
    /// What is left of the bytes that are not synced.
    pub tear: Tear,
}

/// How a run ended.
#[derive(Drop)]
pub struct End {
    /// How many flushes it had.
    pub flushes: u32,
    /// Whether all was as it has to be.
    pub is_good: bool,
}

/// How many nodes the ring has.
const NODES: u8 = 3;

/// Who stands: the node, the first letter of the group, and the bid.
const STANDS: [(u8, u8, u32); 5] = [
    (1, b'r', 10),
    (2, b'r', 30),
    (3, b'b', 20),
    (1, b'b', 20),
    (3, b'r', 25),
];

/// The most rounds of flushes and deliveries until nothing waits.
const ROUNDS: u32 = 100;

struct Walk {
    world: World,
    // Where a node will be stopped, if anywhere.
    point: Option<Point>,
    flushes: u32,
    // Whether all was as it has to be so far.
    is_good: bool,
    // The last ticket of each Stand, and whether the Stand was acknowledged.
    tickets: [u64; 5],
    acknowledged: [bool; 5],
    // The most inputs that each node showed as durable.
    durable: [u64; 3],
}

/// A run in which a node is stopped there, if anywhere; `None` where an event was refused.
pub fn run(alloc: Global, point: Option<Point>) -> Option<End> {
    let world = World::new(alloc, NODES, false, 4_096).ok()?;
    let mut walk = Walk {
        world,
        point,
        flushes: 0,
        is_good: true,
        tickets: [0; 5],
        acknowledged: [false; 5],
        durable: [0; 3],
    };
    let played = walk.play();
    let Walk {
        world,
        point: left,
        flushes,
        is_good,
        tickets: _,
        acknowledged: _,
        durable: _,
    } = walk;
    world.end();
    played?;
    let is_good = is_good && left.is_none();
    Some(End { flushes, is_good })
}

impl Walk {
    fn play(&mut self) -> Option<()> {
        self.stand_all()?;
        self.settle()?;
        self.ask_leaders()?;
        self.crash_all()?;
        self.repeat_all()?;
        self.ask_leaders()?;
        self.ask_stands()
    }

    // Flushes, credits and deliveries, until nothing waits.
    fn settle(&mut self) -> Option<()> {
        for _ in 0..ROUNDS {
            let waited = self.flush_all()?;
            let all = self.world.step(Event::DeliverAll).ok()?;
            if !waited && all.delivered == Some(0) {
                return Some(());
            }
        }
        None
    }

    // Each node is flushed, and then tells its predecessor what it has taken: whether anything waited.
    fn flush_all(&mut self) -> Option<bool> {
        let mut waited = false;
        for number in 1..NODES + 1 {
            let node = node(number)?;
            waited |= self.flush(node)?;
            waited |= self.credit(node)?;
        }
        Some(waited)
    }

    // A flush, or the stop there: whether anything waited.
    fn flush(&mut self, node: NodeNo) -> Option<bool> {
        let number = self.flushes;
        self.flushes = number.saturating_add(1);
        if let Some(Point { flush, call, tear }) = self.point {
            if flush == number {
                self.point = None;
                let stopped = self.world.step(Event::Stop { node, call, tear }).ok()?;
                self.look_at(node)?;
                self.ask_again(&stopped)?;
                return Some(true);
            }
        }
        let flushed = self.world.step(Event::Flush(node)).ok()?;
        self.look_at(node)?;
        self.note(&flushed);
        Some(flushed.flushed != Some(0))
    }

    // All nodes lose their memory.
    fn crash_all(&mut self) -> Option<()> {
        for number in 1..NODES + 1 {
            let node = node(number)?;
            self.world.step(Event::Crash(node)).ok()?;
            self.look_at(node)?;
        }
        Some(())
    }

    // The node, where nothing waits, holds all that it ever showed as durable.
    fn look_at(&mut self, node: NodeNo) -> Option<()> {
        let shown = self.world.show(node).ok()?;
        let most = self.durable.get_mut(node.number() as usize - 1)?;
        self.is_good &= *most <= shown.inputs && shown.durable == shown.inputs;
        *most = shown.durable;
        Some(())
    }
}

fn node(number: u8) -> Option<NodeNo> {
    NodeNo::new(number).ok()
}

/// Term 5 of the group of this letter.
fn key(group: u8) -> Option<Key> {
    let group = GroupName::read(&[group]).ok()?;
    let term = Term::new(5).ok()?;
    Some(Key { group, term })
}
