//! What the threads of a node count.
ghost use Rattle.std.specs.Prelude.{◌≡◌, nat_le, position};
ghost use Rattle.ring_status.specs.Bounds.{bounds, micros_of};

use door_rules::is_listed;
use ring_records::REFUSALS;
use ring_status::{Bound, CommitTimes, Counts, Landing, RefusalCount, WithinCount};
use std::alloc::{AllocError, Global};
use std::sync::atomic::{AtomicU64, Ordering};
use std::sync::{Mutex, Wait};
use std::time::Instant;

/// What the threads of a node count since the start, each under a lock that is held while a count is changed or copied. How
/// long commits took, and which refusals clients were told, is read while it is counted.
#[derive(Drop)]
pub struct Tally {
    counts: Mutex<Counts>,
    // how many commits took no longer than each bound, and than the one below it longer; how many took longer than all
    took: Vec<AtomicU64>,
    took_longer: AtomicU64,
    micros: AtomicU64,
    // by their numbers, from 1 on
    refusals: Vec<AtomicU64>,
}

/// Which bound counts a commit that took so many microseconds: the first that is no shorter.
fn place_within(micros: u64) -> Option<usize>
    ensures { result ≡ position (λ bound. nat_le micros (micros_of bound)) bounds }
{
    Bound::all()
        .iter()
        .position(|bound| micros <= bound.micros())
}

impl Tally {
    /// Of a node that is started at this moment, where there is a clock, and has done nothing yet.
    pub fn new(alloc: Global, now: Option<Instant>) -> Result<Tally, AllocError> {
        let mut refusals = Vec::with_capacity(alloc, usize::from(REFUSALS))?;
        for _ in 0..REFUSALS {
            refusals.push(AtomicU64::new(0))?;
        }
        let mut took = Vec::with_capacity(alloc, Bound::all().len())?;
        for _ in Bound::all() {
            took.push(AtomicU64::new(0))?;
        }
        Ok(Tally {
            counts: Mutex::new(Counts::new(now)),
            took,
            took_longer: AtomicU64::new(0),
            micros: AtomicU64::new(0),
            refusals,
        })
    }

    /// What is counted by now.
    pub fn counts<R: Wait>(&self, rt: &R) -> Counts {
        *self.counts.lock(rt)
    }

    /// The device is given a batch or a checkpoint at this moment, where there is a clock.
    pub(crate) fn begin_writing<R: Wait>(&self, rt: &R, now: Option<Instant>) {
        self.counts.lock(rt).begin_writing(now);
    }

    /// The device is done with it, however. Counts how long it took.
    pub(crate) fn end_writing<R: Wait>(&self, rt: &R, now: Option<Instant>) {
        let took = self.counts.lock(rt).end_writing(now);
        if let Some(micros) = took {
            self.count_commit(micros);
        }
    }

    /// A batch or a checkpoint took so many microseconds.
    fn count_commit(&self, micros: u64) {
        self.micros.fetch_add(micros, Ordering::SeqCst);
        let count = match place_within(micros) {
            Some(at) => self.took.get(at),
            None => None,
        };
        count
            .unwrap_or(&self.took_longer)
            .fetch_add(1, Ordering::SeqCst);
    }

    /// A batch is durable, or a checkpoint.
    pub fn land<R: Wait>(&self, rt: &R, landing: Landing) {
        self.counts.lock(rt).land(landing);
    }

    /// A round was refused for want of memory.
    pub fn refuse_round<R: Wait>(&self, rt: &R) {
        self.counts.lock(rt).refuse_round();
    }

    /// A message was refused for want of room.
    pub fn refuse_message<R: Wait>(&self, rt: &R) {
        self.counts.lock(rt).refuse_message();
    }

    /// A session begins at one of the doors.
    pub fn begin_session<R: Wait>(&self, rt: &R) {
        self.counts.lock(rt).begin_session();
    }

    /// It has ended. Its door calls this once for each that it began.
    pub fn end_session<R: Wait>(&self, rt: &R) {
        self.counts.lock(rt).end_session();
    }

    /// A client was told the refusal of this number.
    pub fn count_refusal(&self, number: u8) {
        let place = usize::from(number.saturating_sub(1));
        if let Some(count) = self.refusals.get(place) {
            count.fetch_add(1, Ordering::SeqCst);
        }
    }

    /// How long batches and checkpoints took.
    pub fn commits(&self, alloc: Global) -> Result<CommitTimes, AllocError> {
        let mut within = Vec::new(alloc);
        let mut total = 0u64;
        for (bound, count) in Bound::all().iter().zip(&self.took) {
            total = total.saturating_add(count.load(Ordering::SeqCst));
            within.push(WithinCount {
                bound: *bound,
                count: total,
            })?;
        }
        Ok(CommitTimes {
            within,
            count: total.saturating_add(self.took_longer.load(Ordering::SeqCst)),
            micros: self.micros.load(Ordering::SeqCst),
        })
    }

    /// The refusals that clients were told, in order of their numbers. Those that none was told are left out, but those from
    /// 3 to 9 are told from the start on, so that a rate shows the first one.
    pub fn refusals(&self, alloc: Global) -> Result<Vec<RefusalCount>, AllocError> {
        let mut told = Vec::new(alloc);
        let mut number = 0u8;
        for count in &self.refusals {
            number = number.saturating_add(1);
            let count = count.load(Ordering::SeqCst);
            if is_listed(number, count) {
                told.push(RefusalCount { number, count })?;
            }
        }
        Ok(told)
    }
}
