// Reading a script, and writing what it prints.
ghost use Rattle.std.specs.Prelude.{◌≡◌, ◌⊎◌, ◌<◌, ◌≤◌, [], None, IfOk, IfSome, IsErrOf, length};
ghost use Rattle.std.specs.Io.KnownBytes.{Appends};
ghost use Rattle.script_run.specs.Written.{IsCut, IsUpTo, IsWhole, Wrote, WroteOf};

use fault_console::Console;
use line_words::{first_line, write_whole};
use std::alloc::Global;
use std::io::{Read, Write};
use thiserror::Error;

/// Why a run ended before its script did. Displayed as a text without the program's name.
#[derive(Clone, Copy, Debug, PartialEq, Eq, Error)]
pub enum RunFault {
    /// The reader failed.
    #[error("script cannot be read")]
    Read,
    /// The writer failed, or took nothing.
    #[error("output cannot be written")]
    Write,
    /// A growth was refused.
    #[error("out of memory")]
    Memory,
    /// The script has more than 1,000,000 bytes.
    #[error("script too long")]
    Long,
}

/// The most bytes of a script.
const SCRIPT_BYTES: usize = 1_000_000;

// Reads the whole script, by at most 1,000,001 reads.
fn read_script<R: Read>(alloc: Global, reader: &mut R) -> Result<Vec<u8>, RunFault>
    ensures ok { IfOk result (λ v. IfSome (R.remaining reader.old) (λ script. script ≡ v.items)) }
    ensures few { IfOk result (λ v. length v.items ≤ 1000000) }
    ensures long { IsErrOf result RunFault.Long → IfSome (R.remaining reader.old) (λ script. 1000000 < length script) }
    ensures other { IsErrOf result RunFault.Write → ⊥ }
{
    let mut script = Vec::new(alloc);
    let mut piece = [0u8; 4096];
    for _ in 0..SCRIPT_BYTES + 1 {
        let count = match reader.read(&mut piece) {
            Ok(count) => count,
            Err(_) => return Err(RunFault::Read),
        };
        if count == 0 {
            return Ok(script);
        }
        if script.len() + count > SCRIPT_BYTES {
            return Err(RunFault::Long);
        }
        if script.extend_from_slice(&piece[..count]).is_err() {
            return Err(RunFault::Memory);
        }
    }
    Err(RunFault::Long)
}

// Prints what a script prints, one line of it after the other, so that want of memory leaves whole lines.
fn obey_all<W: Write>(
    console: &mut Console,
    alloc: Global,
    script: &[u8],
    writer: &mut W,
) -> Result<u64, RunFault>
    requires few { length script.now ≤ 1000000 }
    requires fresh { console.old.world ≡ None }
    ensures ok { IfOk result (λ count. Wrote (W.contents writer.old) (W.contents writer.new) (IsWhole script.now count)) }
    ensures write { IsErrOf result RunFault.Write → Wrote (W.contents writer.old) (W.contents writer.new) (IsCut script.now) }
    ensures memory { IsErrOf result RunFault.Memory → Wrote (W.contents writer.old) (W.contents writer.new) (IsUpTo script.now) }
    ensures read { IsErrOf result RunFault.Read → ⊥ }
    ensures long { IsErrOf result RunFault.Long → ⊥ }
{
    let mut out = String::new(alloc);
    let mut rest = script;
    let mut count: u64 = 0;
    while !rest.is_empty() {
        let (line, after) = first_line(rest);
        out.clear();
        let lines = match console.obey(alloc, line, &mut out) {
            Ok(lines) => lines,
            Err(_) => return Err(RunFault::Memory),
        };
        match write_whole(writer, out.as_bytes()) {
            Ok(()) => count += lines,
            Err(_) => return Err(RunFault::Write),
        }
        rest = after;
    }
    Ok(count)
}

// A console that obeys the script, and is ended whatever comes of it.
fn play<W: Write>(alloc: Global, script: &[u8], writer: &mut W) -> Result<u64, RunFault>
    requires { length script.now ≤ 1000000 }
    ensures ok { IfOk result (λ count. Wrote (W.contents writer.old) (W.contents writer.new) (IsWhole script.now count)) }
    ensures write { IsErrOf result RunFault.Write → Wrote (W.contents writer.old) (W.contents writer.new) (IsCut script.now) }
    ensures memory { IsErrOf result RunFault.Memory → Wrote (W.contents writer.old) (W.contents writer.new) (IsUpTo script.now) }
    ensures read { IsErrOf result RunFault.Read → ⊥ }
    ensures long { IsErrOf result RunFault.Long → ⊥ }
{
    let mut console = Console::new();
    let answer = obey_all(&mut console, alloc, script, writer);
    console.end();
    answer
}

/// Reads a script to its end and writes what it prints, of `specs/Written`; gives the number of lines printed. A script
/// has at most 1,000,000 bytes, and is read whole, by at most 1,000,001 reads, before the first byte is written.
/// Refused as `Long` above that, and as `Read`, with nothing written; as `Write` after a front of the text; as `Memory`
/// after the lines of the commands before. A read or write that was interrupted counts as failed.
pub fn run<R: Read, W: Write>(
    alloc: Global,
    reader: &mut R,
    writer: &mut W,
) -> Result<u64, RunFault>
    ensures ok { IfOk result (λ count. WroteOf (R.remaining reader.old) (W.contents writer.old) (W.contents writer.new) (λ script. IsWhole script count)) }
    ensures read { IsErrOf result RunFault.Read → Appends (W.contents writer.old) (W.contents writer.new) [] }
    ensures long { IsErrOf result RunFault.Long → IfSome (R.remaining reader.old) (λ script. 1000000 < length script)
        × Appends (W.contents writer.old) (W.contents writer.new) [] }
    ensures write { IsErrOf result RunFault.Write → WroteOf (R.remaining reader.old) (W.contents writer.old) (W.contents writer.new) IsCut }
    ensures memory { IsErrOf result RunFault.Memory → Appends (W.contents writer.old) (W.contents writer.new) []
        ⊎ WroteOf (R.remaining reader.old) (W.contents writer.old) (W.contents writer.new) IsUpTo }
{
    match read_script(alloc, reader) {
        Ok(script) => play(alloc, &script, writer),
        Err(fault) => Err(fault),
    }
}
