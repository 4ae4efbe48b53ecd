//! The clients of the status port that have not asked yet.
use crate::visitor::{Caller, Heard, Visitor};
use libc::net::{POLLIN, poll};
use libc::types::pollfd;
use std::alloc::Global;
use std::io::ErrorKind;
use std::net::{TcpListener, TcpStream};
use std::os::fd::AsRawFd;
use std::sync::Wait;
use std::sync::atomic::{AtomicBool, Ordering};
use std::time::{Clock, Duration, Instant};

/// How many clients are waited for side by side.
const PLACES: usize = 64;

/// How many come in at most before those that wait are heard again.
const ROUND: usize = 8;

/// For how many milliseconds nobody is asked for where no client is to be had, as for want of a descriptor.
const PAUSE: u64 = 10;

/// What the system is asked of the port, and behind it of each place.
type Signs = [pollfd; PLACES + 1];

/// The clients that have not asked yet: 64 at most, and no place is kept from the next one.
#[derive(Drop)]
pub(crate) struct Lobby {
    places: [Option<Visitor>; PLACES],
}

impl Lobby {
    /// Where nobody waits.
    pub(crate) fn new() -> Lobby {
        Lobby {
            places: Default::default(),
        }
    }

    /// For how many milliseconds nothing has to be done unless a client does something, or -1 where that is for ever.
    fn rest<R: Clock>(&self, rt: &R) -> i32 {
        let Ok(now) = Instant::now(rt) else {
            return 1;
        };
        let mut rest = -1;
        for visitor in self.places.iter().flatten() {
            let left = i32::try_from(visitor.left(now).as_millis()).unwrap_or(i32::MAX);
            if rest < 0 || left < rest {
                rest = left.saturating_add(1);
            }
        }
        rest
    }

    /// Waits for a sign of a client, or for the end of a client's time.
    fn signs<R: Clock>(&self, rt: &R, listener: &TcpListener) -> Signs {
        let mut signs = [pollfd {
            fd: -1,
            events: POLLIN,
            revents: 0,
        }; PLACES + 1];
        signs[0].fd = listener.as_raw_fd();
        let mut asked = 1usize;
        for ((at, visitor), sign) in self.places.iter().enumerate().zip(&mut signs[1..]) {
            if let Some(visitor) = visitor {
                sign.fd = visitor.as_raw_fd();
                asked = at.saturating_add(2);
            }
        }
        // The system takes no more of them than a program may have descriptors. Free places are taken from the first on.
        let asked = asked.min(PLACES + 1);
        if poll(&mut signs[..asked], self.rest(rt)) < 0 {
            rt.sleep(Duration::from_millis(1));
        }
        signs
    }

    /// Hears those that gave a sign, and lets go of those that ended or have no time left. Gives the first that has asked.
    fn hear<R: Clock>(&mut self, rt: &R, signs: &Signs) -> Option<Caller> {
        let now = Instant::now(rt).ok()?;
        for (place, sign) in self.places.iter_mut().zip(&signs[1..]) {
            let Some(visitor) = place else {
                continue;
            };
            let heard = if sign.revents == 0 {
                Heard::Part
            } else {
                visitor.hear()
            };
            match heard {
                Heard::Part if !visitor.left(now).is_zero() => {}
                Heard::Part | Heard::End => *place = None,
                Heard::Whole(asked) => return place.take()?.into_caller(asked),
            }
        }
        None
    }

    /// Takes a client in. Where no place is free, the one that was waited for longest is closed for it.
    fn seat<R: Clock>(&mut self, rt: &R, alloc: Global, stream: TcpStream) {
        let visitor = Visitor::new(rt, alloc, stream);
        let longest = self
            .places
            .iter_mut()
            .min_by_key(|place| place.as_ref().map(Visitor::since));
        if let (Some(place), Some(visitor)) = (longest, visitor) {
            *place = Some(visitor);
        }
    }

    /// Takes in the next clients.
    fn admit<R: Clock>(&mut self, rt: &R, alloc: Global, listener: &TcpListener) {
        for _ in 0..ROUND {
            match listener.accept() {
                Ok((stream, _)) => self.seat(rt, alloc, stream),
                Err(error) if error.kind() == ErrorKind::WouldBlock => return,
                Err(_) => {
                    rt.sleep(Duration::from_millis(PAUSE));
                    return;
                }
            }
        }
    }

    /// The next client that has asked. `None` once it is over, where nobody is waited for any more.
    pub(crate) fn next<R: Wait + Clock>(
        &mut self,
        rt: &R,
        alloc: Global,
        listener: &TcpListener,
        is_over: &AtomicBool,
    ) -> Option<Caller> {
        for _ in rt.forever() {
            if is_over.load(Ordering::SeqCst) {
                break;
            }
            let signs = self.signs(rt, listener);
            if let Some(caller) = self.hear(rt, &signs) {
                return Some(caller);
            }
            if signs[0].revents != 0 {
                self.admit(rt, alloc, listener);
            }
        }
        *self = Lobby::new();
        None
    }
}
