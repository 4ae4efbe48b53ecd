// What a ring's threads have its program tell, and in which order.
ghost use Rattle.std.specs.Prelude.{◌≡◌, ◌+◌, ◌-◌, ◌<◌, IfOk, position, slice_set};
ghost use Rattle.std.specs.List.{list_any};
ghost use Rattle.std.specs.Option.{option_or};
ghost use Rattle.ring_news.specs.Books.{calm, count_due, end_due, event_due, failing, failure_news, is_due, news_of, told, wanting, wants_of};
ghost use Rattle.ring_news.specs.Calls.{ended, in_next_second};
ghost use Rattle.ring_news.specs.Happenings.{has_place, heard};
ghost use Rattle.ring_news.specs.Wanting.{are_some};
ghost use Rattle.ring_news.specs.declared.failure.Failure.TheVariants.{Told};

use crate::{Event, Events, Failure, News, Wants};
use disk_model::SystemFault;
use ring_records::NodeNo;
use std::alloc::{AllocError, Global};

/// The place of a node among all of a ring, counted from 0.
pub fn place(node: NodeNo) -> usize
    ensures value { result ≡ node - 1 }
    ensures range { result < 16 }
{
    usize::from(node.number()) - 1
}

// The node of this place.
fn node_at(at: usize) -> NodeNo
    requires { at < 16 }
    ensures { result ≡ at + 1 }
{
    match NodeNo::new(at as u8 + 1) {
        Ok(node) => node,
        Err(_) => unreachable!(),
    }
}

/// What is to be told of a ring of up to 16 nodes: which failed, what each wants and whether that changed since it was last
/// looked at, what has happened, and whether no node runs any more.
#[derive(Drop)]
pub struct Book {
    pub failures: [Failure; 16],
    pub wants: [Wants; 16],
    pub has_changed: bool,
    pub events: Events,
    pub has_ended: bool,
}

impl Book {
    /// Of a ring in which all is well, where all that happens is told or not. Refused for want of memory alone.
    pub fn new(alloc: Global, is_verbose: bool) -> Result<Book, AllocError>
        ensures { IfOk result (λ book. book ≡ calm is_verbose) }
    {
        Ok(Book {
            failures: [Failure::Absent; 16],
            wants: [Wants::nothing(); 16],
            has_changed: false,
            events: Events::new(alloc, is_verbose)?,
            has_ended: false,
        })
    }

    /// The node has failed so. A cause that is known already stays, and what was told is not told again.
    pub fn fail(&mut self, node: NodeNo, cause: Option<SystemFault>)
        ensures { self.new ≡ failing self.old node cause }
    {
        let at = place(node);
        self.failures[at] = self.failures[at].again(cause);
    }

    /// What the node wants.
    pub fn wants(&self, node: NodeNo) -> Wants
        ensures { result ≡ wants_of self.now node }
    {
        self.wants[place(node)]
    }

    /// The node wants this from now on. Where that is new, it is to be looked at.
    pub fn want(&mut self, node: NodeNo, wants: Wants)
        ensures { self.new ≡ wanting self.old node wants }
    {
        let at = place(node);
        if self.wants[at].differ(&wants) {
            self.has_changed = true;
        }
        self.wants[at] = wants;
    }

    /// Whether some node wants something.
    pub fn is_anything_wanted(&self) -> bool
        ensures { result ≡ list_any are_some self.now.wants }
    {
        self.wants.iter().any(|wants| wants.are_some())
    }

    /// This has happened. Whether it is to be told.
    pub fn hear(&mut self, event: Event) -> bool
        ensures told { result ≡ has_place self.old.events }
        ensures after { self.new ≡ record self.old { events = heard self.old.events event } }
    {
        self.events.add(event)
    }

    /// A second begins in which a ring is told of.
    pub fn begin_second(&mut self)
        ensures { self.new ≡ in_next_second self.old }
    {
        self.events.begin_second();
    }

    /// No node runs any more: what was left out is to be told, and behind all else the end.
    pub fn end(&mut self)
        ensures { self.new ≡ ended self.old }
    {
        self.begin_second();
        self.has_ended = true;
    }

    // The first node whose failure is to be told.
    fn first_due(&self) -> Option<usize>
        ensures { result ≡ position is_due self.now.failures }
    {
        self.failures.iter().position(|failure| failure.is_due())
    }

    // The failure of the node at this place is told.
    fn tell_failure(&mut self, at: usize) -> News
        requires { at < 16 }
        ensures news { result ≡ failure_news self.old.failures at }
        ensures after { self.new ≡ record self.old { failures = slice_set self.old.failures at Told } }
    {
        let cause = self.failures[at].cause();
        self.failures[at] = Failure::Told;
        News::Failed(node_at(at), cause)
    }

    // The next that is to be told where no node has failed, and none is to be looked at.
    fn next_event(&mut self) -> Option<News>
        ensures next { result ≡ option_or (event_due self.old) (option_or (count_due self.old) (end_due self.old)) }
        ensures after { self.new ≡ told self.old result }
    {
        if let Some(event) = self.events.next() {
            return Some(News::Happened(event));
        }
        if let Some(count) = self.events.left_out() {
            return Some(News::LeftOut(count));
        }
        if self.has_ended {
            Some(News::Ended)
        } else {
            None
        }
    }

    /// The next that is to be told: a failed node before all else, the first of several and each once; then a look, where
    /// something changed since the last; then what has happened, in its order; then how many were left out; and the end
    /// behind all. What is told is not due any more, and all else stays.
    pub fn next(&mut self) -> Option<News>
        ensures next { result ≡ news_of self.old }
        ensures after { self.new ≡ told self.old result }
    {
        if let Some(at) = self.first_due() {
            return Some(self.tell_failure(at));
        }
        if self.has_changed {
            self.has_changed = false;
            return Some(News::Look);
        }
        self.next_event()
    }
}
