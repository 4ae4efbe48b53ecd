//! The doors of a node, and which session holds the last free one.
use client_stream::Stay;
use door_rules::Turns;
use std::sync::atomic::{AtomicU64, Ordering};
use std::sync::{Mutex, Wait};
use std::time::{Clock, Instant};

/// No door has this number.
const NO_DOOR: u64 = u64::MAX;

/// Which doors of a node serve a session: the turns that they take, and at which door one holds the last free one.
#[derive(Drop)]
pub(crate) struct Turnstile {
    turns: Mutex<Turns>,
    short: AtomicU64,
    born: Option<Instant>,
}

impl Turnstile {
    /// Of so many doors, which are all free.
    pub(crate) fn new<R: Clock>(rt: &R, doors: u32) -> Turnstile {
        Turnstile {
            turns: Mutex::new(Turns::new(doors)),
            short: AtomicU64::new(NO_DOOR),
            born: Instant::now(rt).ok(),
        }
    }

    /// For how many seconds it has been there; 0 where there is no clock.
    fn now<R: Clock>(&self, rt: &R) -> u64 {
        match (self.born, Instant::now(rt)) {
            (Some(born), Ok(now)) => now.saturating_duration_since(born).as_secs(),
            _ => 0,
        }
    }

    /// The turns are these.
    fn set(&self, turns: &mut Turns, next: Turns) {
        *turns = next;
        let short = match next.short {
            Some(door) => u64::from(door),
            None => NO_DOOR,
        };
        self.short.store(short, Ordering::SeqCst);
    }

    /// A session begins at this door.
    pub(crate) fn begin<R: Wait + Clock>(&self, rt: &R, door: u32) -> Stay<'_> {
        let now = self.now(rt);
        let mut turns = self.turns.lock(rt);
        let next = turns.begun(door, now);
        self.set(&mut turns, next);
        Stay::new(&self.short, door)
    }

    /// A session has ended.
    pub(crate) fn end<R: Wait + Clock>(&self, rt: &R) {
        let now = self.now(rt);
        let mut turns = self.turns.lock(rt);
        let next = turns.ended(now);
        self.set(&mut turns, next);
    }

    /// Whether no door was free for a while but the one that is kept.
    pub(crate) fn was_none_free<R: Wait + Clock>(&self, rt: &R) -> bool {
        let now = self.now(rt);
        self.turns.lock(rt).was_none_free(now)
    }
}
