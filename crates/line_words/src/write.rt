// Bytes that go out whole.
ghost use Rattle.std.specs.Prelude.{ℕ, List, OnOk};
ghost use Rattle.std.specs.Io.KnownBytes.{Appends};
ghost use Rattle.line_words.specs.Texts.{IsFront};

use std::io::Write;

/// The writer failed, or took nothing.
#[derive(Clone, Copy, PartialEq, Eq)]
pub struct WriteFault;

/// Writes the bytes whole, by at most as many writes. Refused where a write fails or takes nothing: a front of the
/// bytes was written then. A write that was interrupted counts as failed.
pub fn write_whole<W: Write>(writer: &mut W, bytes: &[u8]) -> Result<(), WriteFault>
    ensures ok { OnOk result (Appends (W.contents writer.old) (W.contents writer.new) bytes.now) }
    ensures front { (front : List ℕ) × IsFront front bytes.now × Appends (W.contents writer.old) (W.contents writer.new) front }
{
    let mut rest = bytes;
    for _ in 0..bytes.len() {
        if rest.is_empty() {
            return Ok(());
        }
        match writer.write(rest) {
            Ok(0) => return Err(WriteFault),
            Ok(count) => rest = rest.split_at(count).1,
            Err(_) => return Err(WriteFault),
        }
    }
    Ok(())
}
