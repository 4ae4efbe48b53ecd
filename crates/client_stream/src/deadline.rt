//! How long something may take.
use std::io;
use std::io::ErrorKind;
use std::time::{Clock, Duration, Instant};

/// The shortest wait, in microseconds: for what is there already where the time is over.
const LEAST: u64 = 1;

/// When a time is over, or never.
#[derive(Clone, Copy)]
pub struct Deadline(Option<Instant>);

impl Deadline {
    /// So long after now.
    pub fn after<R: Clock>(rt: &R, time: Option<Duration>) -> io::Result<Deadline> {
        match time {
            Some(time) => Ok(Deadline(Instant::now(rt)?.checked_add(time))),
            None => Ok(Deadline(None)),
        }
    }

    /// What is left of the time, and the shortest wait where it is over.
    pub fn left<R: Clock>(self, rt: &R) -> io::Result<Option<Duration>> {
        match self.0 {
            Some(at) => {
                let left = at.duration_since(Instant::now(rt)?);
                Ok(Some(left.max(Duration::from_micros(LEAST))))
            }
            None => Ok(None),
        }
    }

    /// Whether the time is over. Where there is no end of it, or no clock, it is told to be.
    pub fn is_over<R: Clock>(self, rt: &R) -> bool {
        match (self.0, Instant::now(rt)) {
            (Some(at), Ok(now)) => at <= now,
            _ => true,
        }
    }

    /// Whether a call that failed so is made again: it was interrupted, or its wait ended before the time is over.
    pub(crate) fn tries_again<R: Clock>(self, rt: &R, error: &io::Error) -> bool {
        match error.kind() {
            ErrorKind::Interrupted => true,
            ErrorKind::WouldBlock => !self.is_over(rt),
            _ => false,
        }
    }
}
