//! What is told of the troubles of a ring's nodes while they serve.
use crate::shared::Shared;
use log_lines::{Level, Turn};
use ring_news::{NodeTroubles, WantsTold, place};
use ring_records::NodeNo;
use ring_start::Log;
use ring_status::hangs;
use std::io::Write;
use std::sync::Wait;
use std::time::{Clock, Instant};

/// Tells that its disk hangs, or goes on.
fn tell_hang<C: Clock, E: Write>(log: &mut Log<'_, C, E>, node: NodeNo, turn: Option<Turn>) {
    let _ = match turn {
        Some(Turn::Begins) => { writeln!(log.line(Level::Warning), "ringd: node {node} hangs") }
        Some(Turn::Ends) => { writeln!(log.line(Level::Warning), "ringd: node {node} goes on") }
        None => Ok(()),
    };
}

/// Tells what it wants, and that it wants that no more.
fn tell_wants<C: Clock, E: Write>(log: &mut Log<'_, C, E>, node: NodeNo, told: WantsTold) {
    if told.full {
        let _ = writeln!(log.line(Level::Warning), "ringd: node {node} full");
    }
    if told.memory {
        let _ = writeln!(log.line(Level::Warning), "ringd: node {node} memory");
    }
    if told.at_limit {
        let _ = writeln!(log.line(Level::Warning), "ringd: node {node} at limit");
    }
    if told.well_again {
        let _ = writeln!(log.line(Level::Warning), "ringd: node {node} well again");
    }
}

/// What is told of the troubles of each node.
#[derive(Drop)]
pub(crate) struct Troubles {
    begun: Option<Instant>,
    // the second of the last look
    looked: u64,
    told: [NodeTroubles; 16],
}

impl Troubles {
    /// Where nothing is told.
    pub(crate) fn new<R: Clock>(rt: &R) -> Troubles {
        Troubles {
            begun: Instant::now(rt).ok(),
            looked: 0,
            told: [NodeTroubles::new(); 16],
        }
    }

    /// The node has failed: nothing else is told of it.
    pub(crate) fn fail(&mut self, node: NodeNo) {
        if let Some(told) = self.told.get_mut(place(node)) {
            told.fail();
        }
    }

    /// How many seconds have passed since the beginning.
    fn second(&self, now: Option<Instant>) -> u64 {
        match (self.begun, now) {
            (Some(begun), Some(now)) => now.saturating_duration_since(begun).as_secs(),
            _ => 0,
        }
    }

    /// Looks at each node where that was not done in this second.
    pub(crate) fn look_each_second<R: Wait + Clock, E: Write>(
        &mut self,
        rt: &R,
        shared: &Shared,
        log: &mut Log<'_, R, E>,
    ) {
        if self.second(Instant::now(rt).ok()) != self.looked {
            self.look(rt, shared, log);
        }
    }

    /// Looks at each node, and tells what is new.
    pub(crate) fn look<R: Wait + Clock, E: Write>(
        &mut self,
        rt: &R,
        shared: &Shared,
        log: &mut Log<'_, R, E>,
    ) {
        let now = Instant::now(rt).ok();
        let second = self.second(now);
        if second != self.looked {
            shared.watch.begin_second(rt);
        }
        self.looked = second;
        let mut number = 0u8;
        for (told, tally) in self.told.iter_mut().zip(&shared.tallies) {
            number = number.saturating_add(1);
            let Ok(node) = NodeNo::new(number) else {
                break;
            };
            let counts = tally.counts(rt);
            let turn = told.look_at_disk(hangs(counts.writing(now)), second);
            tell_hang(log, node, turn);
            let wants = shared.watch.wants(rt, node);
            tell_wants(log, node, told.look_at_wants(wants, second));
        }
    }
}
