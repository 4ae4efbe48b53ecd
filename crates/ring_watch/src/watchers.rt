//! The clients of the status port that wait for a leader.
use crate::exchange::answer_watcher;
use crate::status_port::StatusPort;
use client_stream::{Deadline, send_all};
use libc::net::{POLLIN, poll};
use libc::types::pollfd;
use ring_status::HttpRequest;
use std::alloc::Global;
use std::net::TcpStream;
use std::os::fd::AsRawFd;
use std::sync::atomic::{AtomicBool, Ordering};
use std::sync::{Condvar, Mutex, Wait};
use std::time::{Clock, Duration, Instant};

/// How many clients may wait at most.
const PLACES: usize = 64;

/// For how many milliseconds nobody looks whether there is a leader.
const PAUSE: u64 = 20;

/// For how many seconds an answer is waited for.
const ANSWER: u64 = 5;

/// A client that waits for what it asked, and until when.
#[derive(Drop)]
pub(crate) struct Watcher {
    stream: TcpStream,
    request: HttpRequest,
    until: Instant,
}

impl Watcher {
    /// Who waits from now on for so many seconds.
    pub(crate) fn new<R: Clock>(
        rt: &R,
        stream: TcpStream,
        request: HttpRequest,
        seconds: u64,
    ) -> Option<Watcher> {
        let until = Instant::now(rt)
            .ok()?
            .checked_add(Duration::from_secs(seconds))?;
        Some(Watcher {
            stream,
            request,
            until,
        })
    }

    /// What it asked.
    pub(crate) fn request(&self) -> HttpRequest {
        self.request
    }

    /// Until when an answer that is asked for now is waited for.
    pub(crate) fn deadline<R: Clock>(&self, rt: &R) -> Option<Deadline> {
        Deadline::after(rt, Some(Duration::from_secs(ANSWER))).ok()
    }

    /// Sends it an answer.
    pub(crate) fn send<R: Wait + Clock>(&self, rt: &R, text: &str) {
        if let Some(deadline) = self.deadline(rt) {
            let _ = send_all(rt, &self.stream, deadline, text.as_bytes());
        }
    }

    /// Whether its time is over, or there is no clock.
    pub(crate) fn is_over<R: Clock>(&self, rt: &R) -> bool {
        match Instant::now(rt) {
            Ok(now) => self.until <= now,
            Err(_) => true,
        }
    }

    /// Whether it said something more, or ended its side.
    fn has_left(&self) -> bool {
        let mut signs = [pollfd {
            fd: self.stream.as_raw_fd(),
            events: POLLIN,
            revents: 0,
        }];
        poll(&mut signs, 0) != 0
    }
}

/// The places of those that wait, and that of the one which is just answered, if there is one.
#[derive(Drop)]
struct Room {
    places: [Option<Watcher>; PLACES],
    answered: Option<usize>,
}

/// Those that wait: as many as there may be, 64 at most.
#[derive(Drop)]
pub(crate) struct Watchers {
    most: usize,
    room: Mutex<Room>,
    bell: Condvar,
}

impl Watchers {
    /// Where nobody waits yet.
    pub(crate) fn new(most: usize) -> Watchers {
        let room = Room {
            places: Default::default(),
            answered: None,
        };
        Watchers {
            most,
            room: Mutex::new(room),
            bell: Condvar::new(),
        }
    }

    /// Takes a client in. It comes back where no place is free.
    pub(crate) fn enter<R: Wait>(&self, rt: &R, watcher: Watcher) -> Option<Watcher> {
        let mut room = self.room.lock(rt);
        let answered = room.answered;
        for (number, place) in room.places.iter_mut().enumerate() {
            if number < self.most && place.is_none() && answered != Some(number) {
                *place = Some(watcher);
                self.bell.notify_all();
                return None;
            }
        }
        Some(watcher)
    }

    /// Waits until somebody waits, or for the end. Whether somebody does.
    fn are_there<R: Wait>(&self, rt: &R, is_over: &AtomicBool) -> bool {
        let mut room = self.room.lock(rt);
        for _ in rt.forever() {
            if is_over.load(Ordering::SeqCst) {
                break;
            }
            if room.places.iter().any(|place| place.is_some()) {
                return true;
            }
            room = self.bell.wait(rt, room);
        }
        false
    }

    /// Takes the client of this place out, to be answered.
    fn take<R: Wait>(&self, rt: &R, number: usize) -> Option<Watcher> {
        let mut room = self.room.lock(rt);
        room.answered = Some(number);
        room.places.get_mut(number)?.take()
    }

    /// The place has this client again, or is free.
    fn put_back<R: Wait>(&self, rt: &R, number: usize, watcher: Option<Watcher>) {
        let mut room = self.room.lock(rt);
        room.answered = None;
        if let Some(place) = room.places.get_mut(number) {
            *place = watcher;
        }
    }

    /// The end has come.
    pub(crate) fn end<R: Wait>(&self, rt: &R) {
        let _room = self.room.lock(rt);
        self.bell.notify_all();
    }
}

/// Answers those that wait, each as soon as there is something to be told or its time is over, until the end.
pub(crate) fn attend<R: Wait + Clock>(rt: &R, alloc: Global, port: &StatusPort) {
    for _ in rt.forever() {
        if !port.watchers.are_there(rt, &port.is_over) {
            break;
        }
        for number in 0..PLACES {
            let watcher = match port.watchers.take(rt, number) {
                Some(watcher) if !watcher.has_left() => answer_watcher(rt, alloc, port, watcher),
                _ => None,
            };
            port.watchers.put_back(rt, number, watcher);
        }
        rt.sleep(Duration::from_millis(PAUSE));
    }
}
