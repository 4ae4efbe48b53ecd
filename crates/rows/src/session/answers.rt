// Lines of a session, and below each what it was answered.
ghost use Rattle.std.specs.Prelude.{◌<◌, length};

use crate::lines::{INDENT, add_line, add_printed};
use crate::session::course::Course;
use line_words::first_line;
use std::alloc::{AllocError, Global};

/// A line of the rows, and how many line feeds the client sends for it.
#[derive(Clone, Copy)]
pub struct Sent<'a> {
    pub line: &'a [u8],
    pub feeds: usize,
}

/// How many of the first answers, at most `most`, are the same as the first one, and what follows them.
fn same_answers(answers: &[u8], most: usize) -> (usize, &[u8])
    requires { 0 < length answers.now }
{
    let (answer, mut rest) = first_line(answers);
    let mut times: usize = 1;
    for _ in 1..most {
        if rest.is_empty() {
            break;
        }
        let (next, after) = first_line(rest);
        if next != answer {
            break;
        }
        rest = after;
        times = times.saturating_add(1);
    }
    (times, rest)
}

/// Adds an answer that came so often.
fn add_answer(
    alloc: Global,
    out: &mut Vec<u8>,
    answer: &[u8],
    times: usize,
) -> Result<(), AllocError> {
    out.extend_from_slice(INDENT)?;
    if times > 1 {
        let told = format!(in alloc; "{times} times ")?;
        out.extend_from_slice(told.as_bytes())?;
    }
    add_line(out, b"", answer)
}

/// Adds the next answers, at most so many, and gives what follows them.
fn add_answers<'a>(
    alloc: Global,
    out: &mut Vec<u8>,
    answers: &'a [u8],
    most: usize,
) -> Result<&'a [u8], AllocError> {
    let mut rest = answers;
    let mut left = most;
    for _ in 0..most {
        if left == 0 || rest.is_empty() {
            break;
        }
        let (answer, _) = first_line(rest);
        let (times, after) = same_answers(rest, left);
        add_answer(alloc, out, answer, times)?;
        left = left.saturating_sub(times);
        rest = after;
    }
    Ok(rest)
}

/// Adds the lines of a session, each with its answers; those that are left come below the last one.
pub fn add_session(
    alloc: Global,
    out: &mut Vec<u8>,
    lines: &[Sent<'_>],
    answers: &[u8],
) -> Result<(), AllocError> {
    let mut rest = answers;
    for sent in lines {
        add_line(out, b"", sent.line)?;
        rest = add_answers(alloc, out, rest, sent.feeds)?;
    }
    let count = rest.len();
    add_answers(alloc, out, rest, count)?;
    Ok(())
}

/// Adds what is unusual of a session that ended: bytes that it left unread, or another count of lines than of answers.
fn add_end(text: &mut String, lines: u64, unread: usize, answers: &[u8]) -> Result<(), AllocError> {
    if unread > 0 {
        writeln!(text, "! {unread} bytes unread")?;
    }
    let count = answers.iter().filter(|byte| **byte == b'\n').count();
    if lines == count as u64 {
        return Ok(());
    }
    writeln!(text, "! {lines} lines answered")
}

/// Adds what is unusual of how a session went, or why it was broken off.
pub fn add_course(
    alloc: Global,
    out: &mut Vec<u8>,
    course: Course,
    answers: &[u8],
) -> Result<(), AllocError> {
    let mut text = String::new(alloc);
    match course {
        Course::Ended { lines, unread } => add_end(&mut text, lines, unread, answers)?,
        Course::Broken => text.push_str("! broken off")?,
        Course::Refused(refusal) => write!(text, "! {refusal}")?,
    }
    add_printed(out, &text)
}
