//! How long the device of a node is busy.
use crate::tally::Tally;
use std::sync::Wait;
use std::time::Instant;

/// Tells a tally since when the device is busy with a batch or a checkpoint. It is no value that may be let go of, so whoever
/// has it says too when the device is done, however that comes.
pub struct Stopwatch<'a> {
    tally: &'a Tally,
}

impl<'a> Stopwatch<'a> {
    /// Of a device that is given something yet.
    pub fn new(tally: &'a Tally) -> Stopwatch<'a> {
        Stopwatch { tally }
    }

    /// The device is given a batch or a checkpoint at this moment, where there is a clock.
    pub fn begin<R: Wait>(&mut self, rt: &R, now: Option<Instant>) {
        self.tally.begin_writing(rt, now);
    }

    /// The device is done with it, if it was given one. Its time is counted.
    pub fn end<R: Wait>(self, rt: &R, now: Option<Instant>) {
        let Stopwatch { tally } = self;
        tally.end_writing(rt, now);
    }
}
