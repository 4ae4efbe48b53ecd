//! Who sleeps beside a hub's lock, and who is woken. Which condvar a waiter sleeps on is no matter of safety: it asks
//! again after each wake-up. docs/ARCHITECTURE.md says why no waiter is left asleep.
ghost use Rattle.std.specs.Prelude.{◌≡◌, false};
ghost use Rattle.std.specs.Sync.Mutex.{mutex_guard_value};
ghost use Rattle.commit_hub.specs.Desks.{is_resting};

use crate::ledgers::NodeLedger;
use crate::locked::Locked;
use std::sync::{Condvar, MutexGuard, Wait};

/// The batches take turns, so that a batch that landed wakes its own waiters alone.
#[derive(Clone, Copy)]
pub(crate) enum Turn {
    Even,
    Odd,
}

impl Turn {
    /// The turn of the batch behind this one.
    pub(crate) fn next(self) -> Turn {
        match self {
            Turn::Even => Turn::Odd,
            Turn::Odd => Turn::Even,
        }
    }
}

/// What the lock guards: the desk with its books, the turn of the batch that lands next, and whether the flusher
/// sleeps.
#[derive(Drop)]
pub(crate) struct Guarded<A: NodeLedger> {
    pub(crate) locked: Locked<A>,
    turn: Turn,
    is_asleep: bool,
}

impl<A: NodeLedger> Guarded<A> {
    /// Before the first batch, with a flusher that does not sleep.
    pub(crate) fn new(locked: Locked<A>) -> Guarded<A> {
        Guarded {
            locked,
            turn: Turn::Even,
            is_asleep: false,
        }
    }

    /// The desk with its books.
    pub(crate) fn into_locked(self) -> Locked<A>
        ensures { result ≡ self.locked }
    {
        let Guarded { locked, .. } = self;
        locked
    }

    /// Whether the flusher is to sleep, which it does then: nothing waits, and more may come.
    pub(crate) fn lets_sleep(&mut self) -> bool
        ensures locked { self.new.locked ≡ self.old.locked }
        ensures sleeps { result ≡ is_resting self.old.locked.is_wanted self.old.locked.shared.desk }
    {
        self.is_asleep = self.locked.is_idle();
        self.is_asleep
    }

    /// Whether the flusher is to be woken: it sleeps, and something waits or the desk takes nothing more. It is woken
    /// by the one who was told so.
    pub(crate) fn must_wake(&mut self) -> bool
        ensures { self.new.locked ≡ self.old.locked }
    {
        if !self.is_asleep || self.locked.is_idle() {
            return false;
        }
        self.is_asleep = false;
        true
    }

    /// The turn of the batch that a reply waits for which rests on so many inputs: of the one that lands next, or of
    /// one behind it.
    pub(crate) fn turn_of(&self, number: u64) -> Turn {
        if self.locked.lands_next(number) {
            self.turn
        } else {
            self.turn.next()
        }
    }

    /// The turn of what lands next.
    pub(crate) fn next_turn(&self) -> Turn {
        self.turn
    }

    /// The turn of the batch that landed. The next turn has come.
    pub(crate) fn pass_turn(&mut self) -> Turn
        ensures { self.new.locked ≡ self.old.locked }
    {
        let landed = self.turn;
        self.turn = landed.next();
        landed
    }
}

/// The condvars beside the lock: one for the flusher, and two for those who wait for a reply.
#[derive(Drop)]
pub(crate) struct Bells {
    work: Condvar,
    even: Condvar,
    odd: Condvar,
}

impl Bells {
    pub(crate) fn new() -> Bells {
        Bells {
            work: Condvar::new(),
            even: Condvar::new(),
            odd: Condvar::new(),
        }
    }

    /// The one of those who wait for a batch of this turn.
    pub(crate) fn waiters(&self, turn: Turn) -> &Condvar {
        match turn {
            Turn::Even => &self.even,
            Turn::Odd => &self.odd,
        }
    }

    /// Waits until there is something to launch, or nothing more comes.
    pub(crate) fn wait_for_work<'a, R: Wait, A: NodeLedger>(
        &self,
        rt: &R,
        guard: MutexGuard<'a, Guarded<A>>,
    ) -> MutexGuard<'a, Guarded<A>>
        ensures { is_resting (mutex_guard_value result).locked.is_wanted (mutex_guard_value result).locked.shared.desk ≡ false }
    {
        self.work
            .wait_while(rt, guard, |guarded| guarded.lets_sleep())
    }

    /// Wakes the flusher.
    pub(crate) fn tell_flusher(&self) {
        self.work.notify_one();
    }

    /// Wakes all who wait for a reply.
    pub(crate) fn tell_waiters(&self) {
        self.even.notify_all();
        self.odd.notify_all();
    }
}
