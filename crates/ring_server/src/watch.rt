//! What the threads of a ring have the program tell while they serve.
use disk_model::SystemFault;
use ring_news::{Book, Event, News, Wants};
use ring_records::NodeNo;
use std::alloc::{AllocError, Global};
use std::sync::atomic::{AtomicBool, Ordering};
use std::sync::{Condvar, Mutex, Wait};
use std::time::{Clock, Duration};

/// For how many milliseconds nothing is looked at where nobody leaves word.
const PAUSE: u64 = 1_000;

/// Where the threads of a ring leave word for the program. It takes no memory, and none of them waits for what is told.
#[derive(Drop)]
pub(crate) struct Watch {
    is_verbose: bool,
    // whether some node wants something
    wanting: AtomicBool,
    book: Mutex<Book>,
    bell: Condvar,
}

impl Watch {
    /// Of a ring in which all is well, where all that happens is told or not. Refused for want of memory alone.
    pub(crate) fn new(alloc: Global, is_verbose: bool) -> Result<Watch, AllocError> {
        Ok(Watch {
            is_verbose,
            wanting: AtomicBool::new(false),
            book: Mutex::new(Book::new(alloc, is_verbose)?),
            bell: Condvar::new(),
        })
    }

    /// Whether all that happens is told.
    pub(crate) fn is_verbose(&self) -> bool {
        self.is_verbose
    }

    /// The node has failed, with what the system answered, where that is known.
    pub(crate) fn fail<R: Wait>(&self, rt: &R, node: NodeNo, cause: Option<SystemFault>) {
        self.book.lock(rt).fail(node, cause);
        self.bell.notify_all();
    }

    /// This has happened. It is told where all is.
    pub(crate) fn hear<R: Wait>(&self, rt: &R, event: Event) {
        if !self.is_verbose {
            return;
        }
        let is_told = self.book.lock(rt).hear(event);
        if is_told {
            self.bell.notify_all();
        }
    }

    /// A second begins in which a ring is told of.
    pub(crate) fn begin_second<R: Wait>(&self, rt: &R) {
        if self.is_verbose {
            self.book.lock(rt).begin_second();
        }
    }

    /// The node refused a message or a client for want of room.
    pub(crate) fn fill<R: Wait>(&self, rt: &R, node: NodeNo) {
        let mut book = self.book.lock(rt);
        let mut wants = book.wants(node);
        wants.room = true;
        self.change(&mut book, node, wants);
    }

    /// The node refused a client, since it has all Stands that it may take.
    pub(crate) fn limit<R: Wait>(&self, rt: &R, node: NodeNo) {
        let mut book = self.book.lock(rt);
        let mut wants = book.wants(node);
        wants.stands = true;
        self.change(&mut book, node, wants);
    }

    /// The node's rounds have been refused for a while for want of memory.
    pub(crate) fn starve<R: Wait>(&self, rt: &R, node: NodeNo) {
        let mut book = self.book.lock(rt);
        let mut wants = book.wants(node);
        wants.memory = true;
        self.change(&mut book, node, wants);
    }

    /// Whether some node wants something, as far as is known.
    pub(crate) fn is_anything_wanted(&self) -> bool {
        self.wanting.load(Ordering::SeqCst)
    }

    /// The node has room for messages and for Stands.
    pub(crate) fn has_room<R: Wait>(&self, rt: &R, node: NodeNo) {
        let mut book = self.book.lock(rt);
        let mut wants = book.wants(node);
        wants.room = false;
        self.change(&mut book, node, wants);
    }

    /// The node had memory for a round.
    pub(crate) fn has_memory<R: Wait>(&self, rt: &R, node: NodeNo) {
        let mut book = self.book.lock(rt);
        let mut wants = book.wants(node);
        wants.memory = false;
        self.change(&mut book, node, wants);
    }

    /// The node stands for a client, durably: so it has room and memory.
    pub(crate) fn ease<R: Wait>(&self, rt: &R, node: NodeNo) {
        if self.is_anything_wanted() {
            self.change(&mut self.book.lock(rt), node, Wants::nothing());
        }
    }

    /// The node wants this from now on. Where that is new it is looked at.
    fn change(&self, book: &mut Book, node: NodeNo, wants: Wants) {
        book.want(node, wants);
        self.wanting
            .store(book.is_anything_wanted(), Ordering::SeqCst);
        if book.has_changed {
            self.bell.notify_all();
        }
    }

    /// What the node wants now.
    pub(crate) fn wants<R: Wait>(&self, rt: &R, node: NodeNo) -> Wants {
        self.book.lock(rt).wants(node)
    }

    /// No node runs any more.
    pub(crate) fn end<R: Wait>(&self, rt: &R) {
        self.book.lock(rt).end();
        self.bell.notify_all();
    }

    /// Waits for what is to be told next, for a second at most.
    pub(crate) fn next<R: Wait + Clock>(&self, rt: &R) -> News {
        let mut book = self.book.lock(rt);
        if let Some(news) = book.next() {
            return news;
        }
        let pause = Duration::from_millis(PAUSE);
        let (guard, _) = self.bell.wait_timeout(rt, book, pause);
        book = guard;
        match book.next() {
            Some(news) => news,
            None => News::Look,
        }
    }
}
