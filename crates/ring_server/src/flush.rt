//! The flusher's thread.
ghost use Rattle.std.specs.Prelude.{◌≡◌, count_by};
ghost use Rattle.gated_journal.specs.WorkTaken.{syncs_of};
ghost use Rattle.ring_server.specs.Landings.{names_a_leader};

use crate::event::Event;
use crate::links::Links;
use commit_hub::{Hub, NodeLedger};
use decision_board::Naming;
use disk_model::Device;
use group_commit::Landed;
use ring_post::Letter;
use ring_records::{Notice, Refusal};
use ring_service::{Flusher, Gate};
use ring_status::Landing;
use ring_watch::{Stopwatch, Tally};
use std::sync::Wait;
use std::time::{Clock, Duration, Instant};

/// After how many seconds of refused rounds it is told that memory is wanting.
const STARVES: u64 = 1;

/// Tells when the device is given something to write.
struct Writing<'a, R> {
    rt: &'a R,
    stopwatch: Stopwatch<'a>,
}

impl<R: Wait + Clock> Gate for Writing<'_, R> {
    fn before_commit(&mut self, _first: u64, _count: usize) {
        self.stopwatch.begin(self.rt, Instant::now(self.rt).ok());
    }
}

/// One round of the flusher, and what it landed. While its device is busy the tally knows since when.
fn flush_once<V: Device, J: Naming, A: NodeLedger, R: Wait + Clock>(
    rt: &R,
    hub: &Hub<A>,
    flusher: &mut Flusher<V, J, A>,
    tally: &Tally,
) -> Result<Option<Landed>, Refusal> {
    let stopwatch = Stopwatch::new(tally);
    let mut gate = Writing { rt, stopwatch };
    let landed = flusher.flush_round(rt, hub, &mut gate);
    let Writing { rt: _, stopwatch } = gate;
    stopwatch.end(rt, Instant::now(rt).ok());
    landed
}

fn names_a_leader(notice: &Notice) -> bool
    ensures { result ≡ names_a_leader notice.now }
{
    matches!(notice, Notice::Decided(_))
}

/// How many leaders the notices tell.
fn leaders_in(notices: &[Notice]) -> u64
    ensures { result ≡ count_by names_a_leader notices.now }
{
    notices
        .iter()
        .filter(|notice| names_a_leader(notice))
        .count() as u64
}

/// What is counted of a batch or a checkpoint that is durable since this moment.
fn landing_of(landed: &Landed, now: Option<Instant>) -> Landing
    ensures kind { result.is_checkpoint ≡ landed.now.is_checkpoint }
    ensures syncs { result.syncs ≡ syncs_of landed.now.is_checkpoint }
    ensures elections { result.elections ≡ count_by names_a_leader landed.now.notices.items }
    ensures moment { result.at ≡ now }
{
    Landing {
        is_checkpoint: landed.is_checkpoint,
        syncs: landed.syncs(),
        elections: leaders_in(&landed.notices),
        at: now,
    }
}

/// Has each leader told that the notices tell.
fn tell_leaders<R: Wait>(rt: &R, notices: &[Notice], links: &Links<'_>) {
    if !links.watch.is_verbose() {
        return;
    }
    for notice in notices {
        if let Notice::Decided(decision) = notice {
            links.watch.hear(rt, Event::Elected(links.node, *decision));
        }
    }
}

/// Counts what landed, sends what that releases, and has the leaders told.
fn release<R: Wait + Clock>(rt: &R, landed: &Landed, links: &Links<'_>) {
    links
        .tally
        .land(rt, landing_of(landed, Instant::now(rt).ok()));
    for index in 0..landed.packets.len() {
        if let Some(letter) = Letter::of_landed(links.place(), landed, index) {
            links.post.send(rt, letter);
        }
    }
    tell_leaders(rt, &landed.notices, links);
}

/// A round was refused for want of memory, as were all since then: counts it, has that told where it lasts, and waits a
/// little. Since when they are refused.
fn starve<R: Wait + Clock>(rt: &R, links: &Links<'_>, since: Option<Instant>) -> Option<Instant> {
    links.tally.refuse_round(rt);
    let now = Instant::now(rt).ok();
    let since = since.or(now);
    if let (Some(since), Some(now)) = (since, now) {
        if now.saturating_duration_since(since) >= Duration::from_secs(STARVES) {
            links.starve(rt);
        }
    }
    rt.sleep(Duration::from_millis(1));
    since
}

/// Flushes until the hub is closed and nothing waits, and sends what that releases. Where a growth is refused it tries again;
/// whatever else is refused fails the node, which is told, so that nobody waits for ever. Whether it came to its end.
pub(crate) fn flush_all<V: Device, J: Naming, A: NodeLedger, R: Wait + Clock>(
    rt: &R,
    hub: &Hub<A>,
    flusher: &mut Flusher<V, J, A>,
    links: &Links<'_>,
) -> bool {
    let mut since = None;
    for _ in rt.forever() {
        match flush_once(rt, hub, flusher, links.tally) {
            Ok(Some(landed)) => {
                if since.is_some() {
                    links.has_memory(rt);
                }
                since = None;
                release(rt, &landed, links);
            }
            Ok(None) => return true,
            Err(Refusal::OutOfMemory) => since = starve(rt, links, since),
            Err(_) => break,
        }
    }
    flusher.abandon(rt, hub);
    links.fail(rt, flusher.cause());
    false
}
