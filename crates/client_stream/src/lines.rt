//! The lines of a client, and the answers to it, each of which has its time.
ghost use Rattle.std.specs.Prelude.{◌≡◌, Some, None, MatchOption};
ghost use Rattle.std.specs.Io.{ReadsAtMost};
ghost use Rattle.client_stream.specs.Beginnings.{rest_of};

use crate::deadline::Deadline;
use crate::stay::Stay;
use crate::transfer::{receive, send};
use std::io;
use std::io::{ErrorKind, Read, Write};
use std::net::TcpStream;
use std::sync::Wait;
use std::time::{Clock, Duration};

/// A client does not begin so, but a browser that posts what a page of anybody's has it send to any port.
const POST: &[u8] = b"POST ";

/// What is to come yet for a session to begin so, behind these bytes of what was to come; `None` where it begins otherwise.
#[tactic(auto, using(crate::proofs::Rests::whole, crate::proofs::Rests::part, crate::proofs::Rests::other))]
fn rest_behind(rest: &'static [u8], bytes: &[u8]) -> Option<&'static [u8]>
    ensures { MatchOption result (rest_of rest.now bytes.now ≡ None) (λ left. rest_of rest.now bytes.now ≡ Some left.now) }
{
    if bytes.starts_with(rest) {
        return Some(b"");
    }
    let left = rest.strip_prefix(bytes)?;
    Some(left)
}

/// For how many milliseconds the last free door waits for a line.
const SHORT: u64 = 1_000;

/// Reads the lines of a client, each of which has to be whole within the idle time. That begins with the session, and then when
/// more is asked for than the lines that came, if one of them kept it from being idle: these are answered by then. At the last
/// free door each line has a second alone, as long as no other is free. A session that begins as a POST of HTTP, in
/// however many pieces that comes, is at its end, refused as `InvalidData`.
#[derive(Drop)]
pub struct ClientReader<'a, R> {
    rt: &'a R,
    stream: &'a TcpStream,
    idle: Option<Duration>,
    stay: &'a Stay<'a>,
    deadline: Deadline,
    short: Deadline,
    // what is to come yet of a POST's first bytes, while all that came may be one's
    rest: Option<&'static [u8]>,
}

/// When a line is to be whole that is waited for from now on at the last free door.
fn short_from_now<R: Clock>(rt: &R) -> io::Result<Deadline> {
    Deadline::after(rt, Some(Duration::from_millis(SHORT)))
}

impl<'a, R: Clock> ClientReader<'a, R> {
    /// Of a session that begins now.
    pub fn new(
        rt: &'a R,
        stream: &'a TcpStream,
        idle: Option<Duration>,
        stay: &'a Stay<'a>,
    ) -> io::Result<ClientReader<'a, R>> {
        Ok(ClientReader {
            rt,
            stream,
            idle,
            stay,
            deadline: Deadline::after(rt, idle)?,
            short: short_from_now(rt)?,
            rest: Some(POST),
        })
    }
}

impl<'a, R: Wait + Clock> ClientReader<'a, R> {
    /// Reads what comes in the time that is left.
    fn receive(&self, buf: &mut [u8]) -> io::Result<usize>
        ensures { ReadsAtMost result buf.new }
    {
        if self.stay.is_short() {
            match receive(self.rt, self.stream, self.short, buf) {
                // another door is free again
                Err(error) if error.kind() == ErrorKind::WouldBlock && !self.stay.is_short() => {}
                done => return done,
            }
        }
        receive(self.rt, self.stream, self.deadline, buf)
    }
}

impl<'a, R: Wait + Clock> Read for ClientReader<'a, R> {
    fn read(&mut self, buf: &mut [u8]) -> io::Result<usize> {
        if self.stay.take_kept() {
            self.deadline = Deadline::after(self.rt, self.idle)?;
            self.short = short_from_now(self.rt)?;
        }
        let count = self.receive(buf)?;
        if let Some(rest) = self.rest {
            self.rest = rest_behind(rest, &buf[..count]);
        }
        if self.rest == Some(b"") {
            return Err(io::Error::from(ErrorKind::InvalidData));
        }
        Ok(count)
    }
}

/// Writes the answers to a client, each of which has to be taken whole within the idle time. A flush ends an answer.
#[derive(Drop)]
pub struct ClientWriter<'a, R> {
    rt: &'a R,
    stream: &'a TcpStream,
    idle: Option<Duration>,
    deadline: Option<Deadline>,
}

impl<'a, R> ClientWriter<'a, R> {
    /// Before the first answer.
    pub fn new(rt: &'a R, stream: &'a TcpStream, idle: Option<Duration>) -> ClientWriter<'a, R> {
        ClientWriter {
            rt,
            stream,
            idle,
            deadline: None,
        }
    }
}

impl<'a, R: Wait + Clock> Write for ClientWriter<'a, R> {
    fn write(&mut self, buf: &[u8]) -> io::Result<usize> {
        let deadline = match self.deadline {
            Some(deadline) => deadline,
            None => Deadline::after(self.rt, self.idle)?,
        };
        self.deadline = Some(deadline);
        send(self.rt, self.stream, deadline, buf)
    }

    fn flush(&mut self) -> io::Result<()> {
        self.deadline = None;
        Ok(())
    }
}
