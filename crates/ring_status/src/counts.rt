// What the threads of a node count.
ghost use Rattle.std.specs.Prelude.{◌≡◌, ◌-◌, Some, None, if◌then◌else◌, MatchOption};
ghost use Rattle.std.specs.Duration.{as_nanos};
ghost use Rattle.ring_status.specs.Counts.{micros_of, more, nanos_passed, seconds_of};

use std::time::{Duration, Instant};

/// What the threads of a node have counted since the start, at one moment.
#[derive(Clone, Copy, PartialEq, Eq)]
pub struct Counts {
    /// How many batches are durable.
    pub batches: u64,
    /// How many checkpoints are durable.
    pub checkpoints: u64,
    /// How many syncs of its device all of these took.
    pub syncs: u64,
    /// How many rounds were refused for want of memory, each of which it tried again.
    pub refused_rounds: u64,
    /// How many messages it refused for want of room.
    pub refused_messages: u64,
    /// How many leaders became known to it.
    pub elections: u64,
    /// How many sessions were begun at its doors.
    pub begun: u64,
    /// How many of its doors serve a session.
    pub busy: u64,
    /// When its device was given the batch or the checkpoint that it writes, where it writes one and there was a clock.
    pub since: Option<Instant>,
    /// When its last checkpoint was durable, or when it was started where none has come since, where there was a clock.
    pub renewed: Option<Instant>,
}

/// A batch that is durable, or a checkpoint: how many syncs it took, how many leaders it made known, and since when it is durable,
/// where there was a clock.
#[derive(Clone, Copy, PartialEq, Eq)]
pub struct Landing {
    pub is_checkpoint: bool,
    pub syncs: u64,
    pub elections: u64,
    pub at: Option<Instant>,
}

/// How much time has passed since then, `None` where there is no such moment or no clock.
fn time_since(since: Option<Instant>, now: Option<Instant>) -> Option<Duration>
    ensures { MatchOption result (nanos_passed since now ≡ None) (λ time. nanos_passed since now ≡ Some (as_nanos time)) }
{
    let since = since?;
    let now = now?;
    Some(now.saturating_duration_since(since))
}

/// The same in whole seconds, 0 where it is not known.
fn seconds_since(since: Option<Instant>, now: Option<Instant>) -> u64
    ensures { result ≡ seconds_of (nanos_passed since now) }
{
    match time_since(since, now) {
        Some(time) => time.as_secs(),
        None => 0,
    }
}

impl Counts {
    /// Of a node that is started at this moment, where there is a clock, and has done nothing yet.
    pub fn new(now: Option<Instant>) -> Counts
        ensures { result ≡ record { batches = 0; checkpoints = 0; syncs = 0; refused_rounds = 0; refused_messages = 0; elections = 0; begun = 0; busy = 0; since = None; renewed = now } }
    {
        Counts {
            batches: 0,
            checkpoints: 0,
            syncs: 0,
            refused_rounds: 0,
            refused_messages: 0,
            elections: 0,
            begun: 0,
            busy: 0,
            since: None,
            renewed: now,
        }
    }

    /// A batch is durable, or a checkpoint.
    pub fn land(&mut self, landing: Landing)
        ensures batches { self.new.batches ≡ more self.old.batches (if landing.is_checkpoint then 0 else 1) }
        ensures checkpoints { self.new.checkpoints ≡ more self.old.checkpoints (if landing.is_checkpoint then 1 else 0) }
        ensures syncs { self.new.syncs ≡ more self.old.syncs landing.syncs }
        ensures elections { self.new.elections ≡ more self.old.elections landing.elections }
        ensures renewed { self.new.renewed ≡ (if landing.is_checkpoint then landing.at else self.old.renewed) }
        ensures same { self.new ≡ record self.old {
          batches = self.new.batches;
          checkpoints = self.new.checkpoints;
          syncs = self.new.syncs;
          elections = self.new.elections;
          renewed = self.new.renewed;
        } }
    {
        let batches = u64::from(!landing.is_checkpoint);
        self.batches = self.batches.saturating_add(batches);
        let checkpoints = u64::from(landing.is_checkpoint);
        self.checkpoints = self.checkpoints.saturating_add(checkpoints);
        self.syncs = self.syncs.saturating_add(landing.syncs);
        self.elections = self.elections.saturating_add(landing.elections);
        if landing.is_checkpoint {
            self.renewed = landing.at;
        }
    }

    /// A round was refused for want of memory.
    pub fn refuse_round(&mut self)
        ensures { self.new ≡ record self.old { refused_rounds = more self.old.refused_rounds 1 } }
    {
        self.refused_rounds = self.refused_rounds.saturating_add(1);
    }

    /// A message was refused for want of room.
    pub fn refuse_message(&mut self)
        ensures { self.new ≡ record self.old { refused_messages = more self.old.refused_messages 1 } }
    {
        self.refused_messages = self.refused_messages.saturating_add(1);
    }

    /// A session begins at one of the doors.
    pub fn begin_session(&mut self)
        ensures { self.new ≡ record self.old { begun = more self.old.begun 1; busy = more self.old.busy 1 } }
    {
        self.begun = self.begun.saturating_add(1);
        self.busy = self.busy.saturating_add(1);
    }

    /// It has ended.
    pub fn end_session(&mut self)
        ensures { self.new ≡ record self.old { busy = self.old.busy - 1 } }
    {
        self.busy = self.busy.saturating_sub(1);
    }

    /// The device is given a batch or a checkpoint at this moment. Where there is no clock, nothing is told of how long it
    /// takes.
    pub fn begin_writing(&mut self, now: Option<Instant>)
        ensures { self.new ≡ record self.old { since = now } }
    {
        self.since = now;
    }

    /// The device is done with it, however. Tells how many microseconds it took, where that is known.
    pub fn end_writing(&mut self, now: Option<Instant>) -> Option<u64>
        ensures took { result ≡ micros_of (nanos_passed self.old.since now) }
        ensures over { self.new ≡ record self.old { since = None } }
    {
        let since = self.since;
        self.since = None;
        match time_since(since, now) {
            Some(time) => Some(time.as_micros().min(u128::from(u64::MAX)) as u64),
            None => None,
        }
    }

    /// For how many seconds the device has been busy with a batch or a checkpoint, 0 where it is with none.
    pub fn writing(&self, now: Option<Instant>) -> u64
        ensures { result ≡ seconds_of (nanos_passed self.now.since now) }
    {
        seconds_since(self.since, now)
    }

    /// How many seconds ago its last checkpoint was durable, or it was started where none has come since, 0 where there is no clock.
    pub fn checkpoint_age(&self, now: Option<Instant>) -> u64
        ensures { result ≡ seconds_of (nanos_passed self.now.renewed now) }
    {
        seconds_since(self.renewed, now)
    }
}
