//! What an inbox comes upon.
use crossbeam_channel::Receiver;
use ring_post::{Letter, Pace};
use std::sync::Wait;
use std::time::{Clock, Duration};

/// For how many microseconds messages gather between two rounds.
const GATHER: u64 = 1_000;

/// Where none comes for so many microseconds, the count begins anew.
const REST: u64 = 200;

/// Where none comes for so many milliseconds, a message may be lost.
const SILENCE: u64 = 500;

/// What an inbox comes upon.
pub(crate) enum Coming {
    /// A letter.
    Letter(Letter),
    /// Nothing, for half a second.
    Silence,
    /// The letterbox is closed and empty.
    End,
}

/// The next letter, a silence, or the end.
pub(crate) fn next<R: Wait + Clock>(rt: &R, pace: &mut Pace, inbox: &Receiver<Letter>) -> Coming {
    if pace.gathers() {
        rt.sleep(Duration::from_micros(GATHER));
    }
    match within(rt, inbox, Duration::from_micros(REST)) {
        Coming::Letter(letter) => {
            pace.begin();
            Coming::Letter(letter)
        }
        Coming::Silence => {
            pace.rest();
            within(rt, inbox, Duration::from_millis(SILENCE))
        }
        Coming::End => Coming::End,
    }
}

/// What an inbox comes upon within this time.
fn within<R: Wait + Clock>(rt: &R, inbox: &Receiver<Letter>, time: Duration) -> Coming {
    match inbox.recv_timeout(rt, time) {
        Ok(letter) => Coming::Letter(letter),
        Err(fault) => {
            if fault.is_timeout() {
                Coming::Silence
            } else {
                Coming::End
            }
        }
    }
}
