// A line of a client, as it comes.
ghost use Rattle.std.specs.Prelude.{◌≡◌, ◌≢◌, ◌++◌, ◌<◌, ◌≤◌, length, IfOk, IfErr, OnErr, vec_capacity};
ghost use Rattle.std.specs.List.{All};
ghost use Rattle.std.specs.Io.KnownBytes.{Consumes, IsAtEnd};
ghost use Rattle.sessions.specs.Session.{end_of};

use crate::session::SessionFault;
use std::io::BufRead;

/// The most bytes that are read of one line, a carriage return among them.
pub const LINE_BYTES: usize = 202;

/// How the reading of a line ended.
#[derive(Clone, Copy)]
pub enum Ended {
    /// With the line: by its line feed, or after 202 bytes without one.
    Line,
    /// With the input.
    Input,
}

/// Reads a line in place of the one that is there, without its line feed, and nothing of what follows it. Refused as
/// `Read`: what was read of the line is there.
pub fn read_line<R: BufRead>(reader: &mut R, line: &mut Vec<u8>) -> Result<Ended, SessionFault>
    requires room { 202 ≤ vec_capacity line.old }
    ensures line { IfOk result (λ e. e ≡ Ended.Line → Consumes (R.remaining reader.old) (R.remaining reader.new) (line.new.items ++ end_of line.new.items)) }
    ensures input { IfOk result (λ e. e ≡ Ended.Input → IsAtEnd (R.remaining reader.new) × (length line.new.items < 202) × Consumes (R.remaining reader.old) (R.remaining reader.new) line.new.items) }
    ensures err { OnErr result ((length line.new.items < 202) × Consumes (R.remaining reader.old) (R.remaining reader.new) line.new.items) }
    ensures fault { IfErr result (λ e. e ≡ SessionFault.Read) }
    ensures short { length line.new.items ≤ 202 }
    ensures plain { All (λ b. b ≢ 10) line.new.items }
    ensures room { 202 ≤ vec_capacity line.new }
{
    line.truncate(0);
    for _ in 0..LINE_BYTES {
        let mut byte = [0u8; 1];
        match reader.read(&mut byte) {
            Err(_) => return Err(SessionFault::Read),
            Ok(0) => return Ok(Ended::Input),
            Ok(_) => {}
        }
        if byte[0] == b'\n' {
            return Ok(Ended::Line);
        }
        line.push_reserved(byte[0]);
    }
    Ok(Ended::Line)
}
