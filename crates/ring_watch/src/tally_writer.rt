//! The answers of a session, whose refusals are counted.
use crate::tally::Tally;
use client_stream::Stay;
use door_rules::keeps;
use line_words::read_number;
use ring_records::REFUSALS;
use std::io;
use std::io::Write;

/// The number of the refusal that an answer tells, as `no 4 late`, where it tells one.
fn refusal_in(answer: &[u8]) -> Option<u8> {
    if !answer.starts_with(b"no ") {
        return None;
    }
    let rest = &answer[3..];
    let end = rest
        .iter()
        .position(|byte| *byte == b' ' || *byte == b'\n')?;
    let number = read_number(&rest[..end], 1, u64::from(REFUSALS)).ok()?;
    Some(number as u8)
}

/// Writes answers on, each of which begins in one write and ends with a flush, and counts the refusals among those that
/// went out whole. An answer to a line that asks something keeps the session from being idle.
#[derive(Drop)]
pub struct TallyWriter<'a, W> {
    writer: W,
    tally: &'a Tally,
    stay: &'a Stay<'a>,
    has_begun: bool,
    told: Option<u8>,
}

impl<'a, W> TallyWriter<'a, W> {
    /// Before the first answer.
    pub fn new(writer: W, tally: &'a Tally, stay: &'a Stay<'a>) -> TallyWriter<'a, W> {
        TallyWriter {
            writer,
            tally,
            stay,
            has_begun: false,
            told: None,
        }
    }
}

impl<W: Write> Write for TallyWriter<'_, W> {
    fn write(&mut self, buf: &[u8]) -> io::Result<usize> {
        if !self.has_begun {
            self.has_begun = true;
            self.told = refusal_in(buf);
        }
        self.writer.write(buf)
    }

    fn flush(&mut self) -> io::Result<()> {
        self.writer.flush()?;
        self.has_begun = false;
        let told = self.told.take();
        if let Some(number) = told {
            self.tally.count_refusal(number);
        }
        if keeps(told) {
            self.stay.keep();
        }
        Ok(())
    }
}
