//! The port at which an operator is told of a ring.
use crate::exchange::exchange;
use crate::lobby::Lobby;
use crate::reception::Reception;
use crate::watchers::{Watchers, attend};
use libc::net::{SHUT_RDWR, listen, shutdown};
use std::alloc::{AllocError, Global};
use std::fs::File;
use std::net::TcpListener;
use std::os::fd::AsRawFd;
use std::sync::atomic::{AtomicBool, AtomicUsize, Ordering};
use std::sync::{Arc, Condvar, Mutex, Wait};
use std::thread;
use std::thread::Threads;
use std::time::Clock;

/// How many clients are answered side by side, each in a thread.
const THREADS: usize = 8;

/// How many more may wait in the system's memory, as far as the system allows.
const BACKLOG: i32 = 4_096;

/// What is told of a ring beside its nodes.
#[derive(Drop)]
pub struct Facts {
    /// The version of the program.
    pub version: &'static str,
    /// The ring's identity, where it has one.
    pub ring: Option<String>,
    /// The folder of its nodes.
    pub dir: String,
    /// When it was started, in seconds of Unix time.
    pub started: u64,
    /// The words that it was started with, behind the program's name, with a space between two.
    pub words: String,
    /// How many seconds a session may go without a whole line or a whole answer; 0 is for ever.
    pub idle: u32,
    /// What the system says of the process's memory: `/proc/self/statm`, where that was had.
    pub statm: Option<File>,
}

/// The port at which an operator is told of a ring: one request a connection. One of its eight threads waits for all
/// clients that have not asked yet, answers the first that asks, and leaves the others to the next thread. A ninth is with
/// those that wait for a leader.
#[derive(Drop)]
pub struct StatusPort {
    listener: TcpListener,
    lobby: Mutex<Lobby>,
    /// How many threads answer a client.
    away: AtomicUsize,
    pub(crate) is_over: AtomicBool,
    pub(crate) watchers: Watchers,
    /// How many threads are not at their end, and whether one more is.
    threads: Mutex<usize>,
    ended: Condvar,
    pub(crate) facts: Facts,
    pub(crate) reception: Reception,
}

impl StatusPort {
    /// At this listener, where nobody is served yet. So many clients may wait for a leader, 64 at most.
    pub fn new(
        listener: TcpListener,
        facts: Facts,
        reception: Reception,
        watchers: usize,
    ) -> StatusPort {
        StatusPort {
            listener,
            lobby: Mutex::new(Lobby::new()),
            away: AtomicUsize::new(0),
            is_over: AtomicBool::new(false),
            watchers: Watchers::new(watchers),
            threads: Mutex::new(0),
            ended: Condvar::new(),
            facts,
            reception,
        }
    }

    /// The ring has this identity, or none.
    pub fn name_ring(&mut self, ring: Option<String>) {
        self.facts.ring = ring;
    }

    /// Where the ring's clerks are asked.
    pub fn reception(&self) -> &Reception {
        &self.reception
    }

    /// Whether all threads answer a client, and none waits for the next one.
    pub(crate) fn is_deserted(&self) -> bool {
        self.away.load(Ordering::SeqCst) >= THREADS
    }

    /// Serves, in threads of its own, until its end. `false` where one is wanting, or memory; the others are there.
    pub fn open<R: Threads + Wait + Clock + Send + Copy + 'static>(
        port: &Arc<StatusPort>,
        rt: &R,
        alloc: Global,
    ) -> Result<bool, AllocError> {
        if port.listener.set_nonblocking(true).is_err() {
            return Ok(false);
        }
        listen(port.listener.as_raw_fd(), BACKLOG);
        for number in 0..THREADS + 1 {
            let (own, theirs) = (*rt, Arc::try_clone(port)?);
            port.enter(rt);
            if thread::spawn(rt, move || work(&own, alloc, &theirs, number < THREADS)).is_err() {
                port.leave(rt);
                return Ok(false);
            }
        }
        Ok(true)
    }

    /// A thread begins.
    fn enter<R: Wait>(&self, rt: &R) {
        let mut threads = self.threads.lock(rt);
        *threads = threads.saturating_add(1);
    }

    /// It is at its end.
    fn leave<R: Wait>(&self, rt: &R) {
        let mut threads = self.threads.lock(rt);
        *threads = threads.saturating_sub(1);
        self.ended.notify_all();
    }

    /// Ends, and waits for that: the port takes no client any more, those that have not asked are left, and each thread
    /// ends once it has answered its client.
    pub fn end<R: Wait>(&self, rt: &R) {
        self.is_over.store(true, Ordering::SeqCst);
        shutdown(self.listener.as_raw_fd(), SHUT_RDWR);
        self.watchers.end(rt);
        let threads = self.threads.lock(rt);
        let _ended = self.ended.wait_while(rt, threads, |threads| *threads > 0);
    }
}

/// Serves who comes, or answers who waits, until the end.
fn work<R: Wait + Clock>(rt: &R, alloc: Global, port: &StatusPort, serves: bool) {
    if serves {
        serve(rt, alloc, port);
    } else {
        attend(rt, alloc, port);
    }
    port.leave(rt);
}

/// Serves one client after the other, until the end.
fn serve<R: Wait + Clock>(rt: &R, alloc: Global, port: &StatusPort) {
    for _ in rt.forever() {
        let next = port
            .lobby
            .lock(rt)
            .next(rt, alloc, &port.listener, &port.is_over);
        let Some(caller) = next else {
            break;
        };
        port.away.fetch_add(1, Ordering::SeqCst);
        exchange(rt, alloc, port, caller);
        port.away.fetch_sub(1, Ordering::SeqCst);
    }
}
