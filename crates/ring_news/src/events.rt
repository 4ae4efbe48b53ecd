// What has happened and is not told yet.
ghost use Rattle.std.specs.Prelude.{◌≡◌, ◌≤◌, IfNone, IfOk, drop, length, slice_get};
ghost use Rattle.log_lines.specs.Quotas.{begun};

use crate::Event;
use log_lines::{MOST_LINES, Quota};
use std::alloc::{AllocError, Global};
use std::collections::VecDeque;
use std::marker::Model;

/// How many are kept at most that are not told yet.
const KEPT: usize = MOST_LINES as usize;

/// What is to be told of what has happened, where that is asked for: it takes no memory once it is there, and who adds to it
/// never waits. Where too much comes in a second, or waits, what comes last is left out, and counted.
#[derive(Drop)]
pub struct Events {
    is_asked: bool,
    kept: VecDeque<Event>,
    quota: Quota,
}

impl Model for Events {
    ghost use Rattle.std.specs.Prelude.{◌≤◌, IsTrue};
    ghost use Rattle.std.specs.VecDeque.{deque_capacity, deque_len};
    ghost use Rattle.ring_news.specs.Happenings.{Happenings};
    ghost use Rattle.log_lines.specs.declared.quota.TheConstants.{MOST_LINES};

    ghost Value = { Happenings };

    ghost view = { λ events. record { is_asked = events.is_asked; waiting = events.kept.items; quota = events.quota } };

    ghost invariant = { λ events. (deque_len events.kept ≤ MOST_LINES) × (IsTrue events.is_asked → MOST_LINES ≤ deque_capacity events.kept) };
}

impl Events {
    ghost use Rattle.ring_news.specs.Happenings.{has_place, heard, left_out, none_yet};

    /// Where nothing has happened. Refused for want of memory alone.
    pub fn new(alloc: Global, is_asked: bool) -> Result<Events, AllocError>
        ensures { IfOk result (λ events. events ≡ none_yet is_asked) }
    {
        let places = if is_asked { KEPT } else { 0 };
        Ok(Events {
            is_asked,
            kept: VecDeque::with_capacity(alloc, places)?,
            quota: Quota::new(),
        })
    }

    /// This has happened. It is to be told where that is asked for, one more may be told in this second, and fewer wait than
    /// may; else it is left out, and counted. Whether it is to be told.
    pub fn add(&mut self, event: Event) -> bool
        ensures told { result ≡ has_place self.old }
        ensures after { self.new ≡ heard self.old event }
        ensures few { length self.new.waiting ≤ MOST_LINES }
    {
        if !self.is_asked {
            return false;
        }
        let is_told = self.quota.has_more() && self.kept.len() < KEPT;
        if is_told {
            self.kept.push_back_reserved(event);
        }
        self.quota.count(is_told);
        is_told
    }

    /// A second begins, or nothing more happens: what was left out before is to be told.
    pub fn begin_second(&mut self)
        ensures { self.new ≡ record self.old { quota = begun self.old.quota } }
    {
        self.quota.begin_second();
    }

    /// The next that is to be told: the first that waits.
    pub fn next(&mut self) -> Option<Event>
        ensures first { result ≡ slice_get self.old.waiting 0 }
        ensures rest { self.new ≡ record self.old { waiting = drop 1 self.old.waiting } }
        ensures none { IfNone result (self.new ≡ self.old) }
    {
        self.kept.pop_front()
    }

    /// How many were left out before this second, where some were and it was not told.
    pub fn left_out(&mut self) -> Option<u64>
        ensures count { result ≡ left_out self.old.quota }
        ensures told { self.new ≡ record self.old { quota = record self.old.quota { due = 0 } } }
        ensures none { IfNone result (self.new ≡ self.old) }
    {
        self.quota.left_out()
    }
}
