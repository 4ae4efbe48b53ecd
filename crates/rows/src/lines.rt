// Lines, and what is printed.
ghost use Rattle.std.specs.Prelude.{◌≡◌, ◌++◌, ◌∷◌, [], OnOk};

use std::alloc::AllocError;

/// What a line begins with that the line above it printed, and no other.
pub const INDENT: &[u8] = b"  ";

/// Adds a line of these parts. After want of memory, the only refusal, `out` has no meaning.
pub fn add_line(out: &mut Vec<u8>, front: &[u8], line: &[u8]) -> Result<(), AllocError>
    ensures { OnOk result (out.new.items ≡ out.old.items ++ front.now ++ line.now ++ 10 ∷ []) }
{
    out.extend_from_slice(front)?;
    out.extend_from_slice(line)?;
    out.extend_from_slice(b"\n")
}

/// Adds each line of the text as one that is printed. After want of memory, the only refusal, `out` has no meaning.
pub fn add_printed(out: &mut Vec<u8>, text: &str) -> Result<(), AllocError> {
    for line in text.lines() {
        add_line(out, INDENT, line.as_bytes())?;
    }
    Ok(())
}
