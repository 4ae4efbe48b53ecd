//! Bytes from a client and to it, and how it is left.
ghost use Rattle.std.specs.Io.{ReadsAtMost, WritesAtMost};

use crate::deadline::Deadline;
use std::io;
use std::io::{ErrorKind, Read, Write};
use std::net::{Shutdown, TcpStream};
use std::sync::Wait;
use std::time::{Clock, Duration};

/// For how many milliseconds a client may go on sending behind its session, and how many bytes.
const LINGER: u64 = 1_000;

const LINGER_BYTES: usize = 1 << 16;

/// Reads what the client sends, until the deadline, whatever an earlier read waited for.
pub fn receive<R: Wait + Clock>(
    rt: &R,
    stream: &TcpStream,
    deadline: Deadline,
    buf: &mut [u8],
) -> io::Result<usize>
    ensures { ReadsAtMost result buf.new }
{
    let mut stream = stream;
    for _ in rt.forever() {
        stream.set_read_timeout(deadline.left(rt)?)?;
        match stream.read(buf) {
            Err(error) if deadline.tries_again(rt, &error) => {}
            done => return done,
        }
    }
    unreachable!()
}

/// Sends to the client, until the deadline.
pub fn send<R: Wait + Clock>(
    rt: &R,
    stream: &TcpStream,
    deadline: Deadline,
    buf: &[u8],
) -> io::Result<usize>
    ensures { WritesAtMost result buf.now }
{
    let mut stream = stream;
    for _ in rt.forever() {
        if let Some(left) = deadline.left(rt)? {
            stream.set_write_timeout(Some(left))?;
        }
        match stream.write(buf) {
            Err(error) if deadline.tries_again(rt, &error) => {}
            done => return done,
        }
    }
    unreachable!()
}

/// Sends all of it before the deadline. Refused where the time is over before, though the client goes on to take bytes.
pub fn send_all<R: Wait + Clock>(
    rt: &R,
    stream: &TcpStream,
    deadline: Deadline,
    bytes: &[u8],
) -> io::Result<()> {
    let mut rest = bytes;
    for _ in rt.forever() {
        if rest.is_empty() {
            break;
        }
        let count = send(rt, stream, deadline, rest)?;
        if count == 0 {
            return Err(io::Error::from(ErrorKind::WriteZero));
        }
        rest = &rest[count..];
        if deadline.is_over(rt) && !rest.is_empty() {
            return Err(io::Error::from(ErrorKind::TimedOut));
        }
    }
    Ok(())
}

/// Ends a connection. The client reads to the end of its answers, and what it still sends is read and dropped until it
/// ends too, for a second and 65,536 bytes at most: a connection that is closed with bytes unread is reset, and answers
/// that are on their way are lost.
pub fn part<R: Wait + Clock>(rt: &R, stream: &TcpStream) {
    if stream.shutdown(Shutdown::Write).is_err() {
        return;
    }
    let Ok(deadline) = Deadline::after(rt, Some(Duration::from_millis(LINGER))) else {
        return;
    };
    let mut rest = [0u8; 1024];
    let mut left = LINGER_BYTES;
    for _ in 0..LINGER_BYTES {
        match receive(rt, stream, deadline, &mut rest) {
            Ok(count) if 0 < count && count < left => left -= count,
            _ => return,
        }
        if deadline.is_over(rt) {
            return;
        }
    }
}
