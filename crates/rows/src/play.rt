// The rows, one by one.
use crate::lines::{INDENT, add_line};
use line_words::first_line;
use std::alloc::{AllocError, Global};

/// What plays a row.
pub trait Player {
    /// Plays the lines of a row, and adds each with what it prints now. After want of memory, the only refusal, `out` has
    /// no meaning.
    fn play_row(alloc: Global, lines: &[&[u8]], out: &mut Vec<u8>) -> Result<(), AllocError>;
}

// Plays the lines up to each empty one, without those that were printed before.
fn play_rows<P: Player>(alloc: Global, rows: &[u8], out: &mut Vec<u8>) -> Result<(), AllocError> {
    let mut lines: Vec<&[u8]> = Vec::new(alloc);
    let mut rest = rows;
    while !rest.is_empty() {
        let (line, after) = first_line(rest);
        rest = after;
        if line.is_empty() {
            P::play_row(alloc, &lines, out)?;
            lines.clear();
            add_line(out, b"", line)?;
        } else if !line.starts_with(INDENT) {
            lines.push(line)?;
        }
    }
    P::play_row(alloc, &lines, out)
}

/// The rows, with what their lines print now.
pub fn played<P: Player>(alloc: Global, rows: &[u8]) -> Result<Vec<u8>, AllocError> {
    let mut out = Vec::new(alloc);
    play_rows::<P>(alloc, rows, &mut out)?;
    Ok(out)
}
