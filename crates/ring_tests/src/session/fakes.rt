// Services and clients that a test can look into.
use ring_records::{Bid, Candidate, NodeNo, Refusal, Reply, Term};
use sessions::{Question, Service};
use std::cell::Cell;
use std::io::{self, ErrorKind, Read, Write};

/// Answers with the rows of a table, one after the other, and with `none` after them.
#[derive(Drop)]
pub struct Parrot<'a> {
    pub answers: &'a [Result<Reply, Refusal>],
    pub asked: usize,
}

impl<'a> Parrot<'a> {
    fn next(&mut self) -> Result<Reply, Refusal> {
        let answer = match self.answers.get(self.asked) {
            Some(answer) => *answer,
            None => Ok(Reply::Leader(None)),
        };
        self.asked = self.asked.saturating_add(1);
        answer
    }
}

impl<'a> Service for Parrot<'a> {
    ghost answers = { λ s q r t. Unit {0} };

    fn ask(&mut self, _question: Question) -> Result<Reply, Refusal> {
        self.next()
    }
}

/// Node 2 with bid 30, in term 5.
pub fn led() -> Result<(Term, Candidate), Refusal> {
    let bid = Bid::new(30)?;
    let node = NodeNo::new(2)?;
    Ok((Term::new(5)?, Candidate { bid, node }))
}

/// A client that sends a line only once all its lines before were answered: so many answers were flushed out to it.
#[derive(Drop)]
pub struct Client<'a> {
    pub lines: &'a [&'a [u8]],
    pub sent: usize,
    pub heard: &'a Cell<usize>,
}

impl<'a> Read for Client<'a> {
    fn read(&mut self, buf: &mut [u8]) -> io::Result<usize> {
        if self.heard.get() != self.sent {
            return Err(io::Error::from(ErrorKind::BrokenPipe));
        }
        let line = match self.lines.get(self.sent) {
            Some(line) => *line,
            None => return Ok(0),
        };
        self.sent = self.sent.saturating_add(1);
        let count = line.len().min(buf.len());
        buf[..count].copy_from_slice(&line[..count]);
        Ok(count)
    }
}

/// Where the client hears the answers that were flushed out; fails to flush after so many.
#[derive(Drop)]
pub struct Ear<'a> {
    pub heard: &'a Cell<usize>,
    pub flushes: usize,
}

impl<'a> Write for Ear<'a> {
    fn write(&mut self, buf: &[u8]) -> io::Result<usize> {
        Ok(buf.len())
    }

    fn flush(&mut self) -> io::Result<()> {
        if self.heard.get() == self.flushes {
            return Err(io::Error::from(ErrorKind::BrokenPipe));
        }
        self.heard.set(self.heard.get().saturating_add(1));
        Ok(())
    }
}
