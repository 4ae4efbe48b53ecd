//! A client of the status port that has not asked yet.
use client_stream::Deadline;
use ring_status::{HEAD_BYTES, HttpRequest, Method, Status, read_request};
use std::alloc::Global;
use std::io::{ErrorKind, Read};
use std::net::TcpStream;
use std::os::fd::{AsRawFd, RawFd};
use std::time::{Clock, Duration, Instant};

/// For how many seconds the first byte of a head is waited for, the whole head, and the end of its answer.
const FIRST_BYTE: u64 = 1;

const WHOLE_HEAD: u64 = 2;

const ANSWER: u64 = 5;

/// What a client asks, or how it asks and why that is refused.
pub(crate) type Asked = Result<HttpRequest, (Method, Status)>;

/// A client that has asked.
#[derive(Drop)]
pub(crate) struct Caller {
    pub(crate) stream: TcpStream,
    pub(crate) asked: Asked,
    /// Until when its answer is waited for.
    pub(crate) deadline: Deadline,
}

/// What was heard of a client.
pub(crate) enum Heard {
    /// Its head is not whole yet.
    Part,
    Whole(Asked),
    /// It ended, or memory is wanting.
    End,
}

/// A client whose head is not whole yet, and what came of that.
#[derive(Drop)]
pub(crate) struct Visitor {
    stream: TcpStream,
    head: Vec<u8>,
    since: Instant,
    deadline: Deadline,
}

/// How a head that is refused asks, which may begin with empty lines. No body follows where it asks for none.
fn method_of(head: &[u8]) -> Method {
    let first = head
        .iter()
        .position(|byte| *byte != b'\r' && *byte != b'\n')
        .unwrap_or(0);
    match head.get(first..) {
        Some(line) if line.starts_with(b"HEAD ") => Method::Head,
        _ => Method::Get,
    }
}

impl Visitor {
    /// Who comes now.
    pub(crate) fn new<R: Clock>(rt: &R, alloc: Global, stream: TcpStream) -> Option<Visitor> {
        stream.set_nonblocking(true).ok()?;
        Some(Visitor {
            stream,
            head: Vec::new(alloc),
            since: Instant::now(rt).ok()?,
            deadline: Deadline::after(rt, Some(Duration::from_secs(ANSWER))).ok()?,
        })
    }

    /// Since when it is waited for.
    pub(crate) fn since(&self) -> Instant {
        self.since
    }

    /// For how long it is waited for yet.
    pub(crate) fn left(&self, now: Instant) -> Duration {
        let time = if self.head.is_empty() {
            FIRST_BYTE
        } else {
            WHOLE_HEAD
        };
        Duration::from_secs(time).saturating_sub(now.duration_since(self.since))
    }

    /// Reads what it has sent by now.
    pub(crate) fn hear(&mut self) -> Heard {
        let mut bytes = [0u8; HEAD_BYTES];
        let room = HEAD_BYTES.saturating_sub(self.head.len());
        let mut stream = &self.stream;
        let count = match stream.read(&mut bytes[..room]) {
            Ok(0) => return Heard::End,
            Ok(count) => count,
            Err(error) => match error.kind() {
                ErrorKind::WouldBlock | ErrorKind::Interrupted => return Heard::Part,
                _ => return Heard::End,
            },
        };
        if self.head.extend_from_slice(&bytes[..count]).is_err() {
            return Heard::End;
        }
        match read_request(&self.head) {
            Ok(Some(request)) => Heard::Whole(Ok(request)),
            Ok(None) if self.head.len() < HEAD_BYTES => Heard::Part,
            Ok(None) => Heard::Whole(Err((method_of(&self.head), Status::TooLarge))),
            Err(status) => Heard::Whole(Err((method_of(&self.head), status))),
        }
    }

    /// What it asked is answered from now on.
    pub(crate) fn into_caller(self, asked: Asked) -> Option<Caller> {
        self.stream.set_nonblocking(false).ok()?;
        Some(Caller {
            stream: self.stream,
            asked,
            deadline: self.deadline,
        })
    }
}

impl AsRawFd for Visitor {
    fn as_raw_fd(&self) -> RawFd {
        self.stream.as_raw_fd()
    }
}
