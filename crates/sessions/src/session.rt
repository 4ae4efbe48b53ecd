// A session, from its first line to its end.
ghost use Rattle.sessions.specs.Session.{Serves};

use crate::Service;
use crate::line::{Ended, LINE_BYTES, read_line};
use crate::respond::respond;
use std::alloc::Global;
use std::io::{BufRead, Write};

/// Why a session ended before its end.
#[derive(Clone, Copy, PartialEq, Eq)]
pub enum SessionFault {
    /// The reader failed.
    Read,
    /// The writer failed, or took nothing.
    Write,
    /// A growth of the session's own buffers was refused.
    Memory,
}

/// The most lines of a session.
const LINES: u64 = 10_000;

/// The bytes of the longest answer and its line feed, and some more.
const ANSWER_BYTES: usize = 64;

/// Answers the lines of a client, each before the next is read, until it says `bye`, its input ends, 202 bytes come
/// without a line feed, or 10,000 lines are answered; gives the number of lines answered. What follows the last line
/// that was read is left unread. Refused as `Read`, after the answers to the lines before; as `Write`, after a front of
/// the text; as `Memory`, after whole answers: the last line that was read may have been asked of the service, and is
/// not answered. A read or write that was interrupted counts as failed.
pub fn serve<R: BufRead, W: Write, S: Service>(
    alloc: Global,
    reader: &mut R,
    writer: &mut W,
    service: &mut S,
) -> Result<u64, SessionFault>
    ensures { Serves S.answers service.old service.new (R.remaining reader.old) (R.remaining reader.new) (W.contents writer.old) (W.contents writer.new) result }
{
    let Ok(mut line) = Vec::with_capacity(alloc, LINE_BYTES) else {
        return Err(SessionFault::Memory);
    };
    // so that an answer finds its memory before the service is asked
    let Ok(mut out) = String::with_capacity(alloc, ANSWER_BYTES) else {
        return Err(SessionFault::Memory);
    };
    for answered in 0..LINES {
        match read_line(reader, &mut line) {
            Ok(Ended::Line) => {}
            Ok(Ended::Input) => return Ok(answered),
            Err(fault) => return Err(fault),
        }
        match respond(alloc, writer, service, &line, &mut out) {
            Ok(false) => {}
            Ok(true) => return Ok(answered + 1),
            Err(fault) => return Err(fault),
        }
    }
    Ok(LINES)
}
