// A row, line by line.
use crate::lines::{add_line, add_printed};
use crate::play::Player;
use crate::session::answers::{Sent, add_course, add_session};
use crate::session::bytes::add_bytes;
use crate::session::course::Counts;
use crate::session::marks::{Mark, read_mark};
use crate::session::stage::Stage;
use line_words::behind;
use ring_records::{Msg, Refusal, Reply};
use std::alloc::{AllocError, Global};

/// How many nodes the ring of a row has that tells none.
const NODES: u8 = 3;

/// The most bytes that the marks of all rows send.
const SENT_BYTES: usize = 1_000_000;

/// The node of the row; the session that is gathered, by its lines and their bytes; and how many bytes marks may send.
#[derive(Drop)]
struct Playing<'a> {
    stage: Stage,
    lines: Vec<Sent<'a>>,
    input: Vec<u8>,
    left: usize,
}

/// What a mark prints.
#[derive(Clone, Copy)]
enum Told {
    Nothing,
    Reply(Reply),
    Counts(Counts),
}

/// Adds what a node told as it was let go.
fn add_counts(text: &mut String, counts: Counts) -> Result<(), AllocError> {
    let Counts {
        accepted,
        durable,
        tickets,
        unanswered,
    } = counts;
    write!(
        text,
        "accepted {accepted} durable {durable} tickets {tickets}"
    )?;
    match unanswered {
        Some(number) => write!(text, "\nunanswered {number}"),
        None => Ok(()),
    }
}

/// Adds what a mark prints.
fn add_answer(text: &mut String, told: &Result<Told, Refusal>) -> Result<(), AllocError> {
    match told {
        Ok(Told::Nothing) => Ok(()),
        Ok(Told::Counts(counts)) => add_counts(text, *counts),
        Ok(Told::Reply(reply)) => write!(text, "{reply}"),
        Err(refusal) => write!(text, "{refusal}"),
    }
}

/// Adds the line of a mark, and what it prints.
fn add_told(
    alloc: Global,
    out: &mut Vec<u8>,
    line: &[u8],
    told: &Result<Told, Refusal>,
) -> Result<(), AllocError> {
    add_line(out, b"", line)?;
    let mut text = String::new(alloc);
    add_answer(&mut text, told)?;
    add_printed(out, &text)
}

impl<'a> Playing<'a> {
    fn new(alloc: Global) -> Playing<'a> {
        Playing {
            stage: Stage::new(NODES),
            lines: Vec::new(alloc),
            input: Vec::new(alloc),
            left: SENT_BYTES,
        }
    }

    /// Plays the session that is gathered, if there is one.
    fn end_session(&mut self, alloc: Global, out: &mut Vec<u8>) -> Result<(), AllocError> {
        if self.lines.is_empty() {
            return Ok(());
        }
        let mut answers = Vec::new(alloc);
        let course = self.stage.serves(alloc, &self.input, &mut answers);
        add_session(alloc, out, &self.lines, &answers)?;
        self.lines.clear();
        self.input.clear();
        add_course(alloc, out, course, &answers)
    }

    /// Gathers a line that a client sends.
    fn gathers(&mut self, line: &'a [u8]) -> Result<(), AllocError> {
        self.input.extend_from_slice(line)?;
        self.input.push(b'\n')?;
        self.lines.push(Sent { line, feeds: 1 })?;
        Ok(())
    }

    /// Gathers what a mark sends. Refused as 2 where a backslash has no meaning, and where it is too much.
    fn sends(
        &mut self,
        alloc: Global,
        line: &'a [u8],
        times: u64,
        text: &[u8],
    ) -> Result<Result<(), Refusal>, AllocError> {
        let mut bytes = Vec::new(alloc);
        let is_read = add_bytes(&mut bytes, text)?;
        let count = bytes.len().max(1).saturating_mul(times as usize);
        if !is_read || count > self.left {
            return Ok(Err(Refusal::BadNumber));
        }
        self.left -= count;
        for _ in 0..times {
            self.input.extend_from_slice(&bytes)?;
        }
        let feeds = bytes.iter().filter(|byte| **byte == b'\n').count();
        let feeds = feeds.saturating_mul(times as usize);
        self.lines.push(Sent { line, feeds })?;
        Ok(Ok(()))
    }

    /// The node's device holds the bytes that the text writes. Refused as 2 where a backslash has no meaning, and as 7.
    fn takes_image(
        &mut self,
        alloc: Global,
        text: &[u8],
    ) -> Result<Result<Told, Refusal>, AllocError> {
        let mut image = Vec::new(alloc);
        if !add_bytes(&mut image, text)? {
            return Ok(Err(Refusal::BadNumber));
        }
        match self.stage.takes_image(alloc, &image) {
            Ok(()) => Ok(Ok(Told::Nothing)),
            Err(refusal) => Ok(Err(refusal)),
        }
    }

    /// The node takes a message.
    fn takes(&mut self, alloc: Global, no: u64, msg: Msg) -> Result<Told, Refusal> {
        match self.stage.takes(alloc, no, msg) {
            Ok(reply) => Ok(Told::Reply(reply)),
            Err(refusal) => Err(refusal),
        }
    }

    /// Does what a mark says to the node.
    fn obeys(
        &mut self,
        alloc: Global,
        mark: &Mark<'_>,
    ) -> Result<Result<Told, Refusal>, AllocError> {
        match mark {
            Mark::Image(text) => return self.takes_image(alloc, text),
            Mark::Takes(no, msg) => return Ok(self.takes(alloc, *no, *msg)),
            Mark::Counts => return Ok(Ok(Told::Counts(self.stage.counts()))),
            Mark::Ring(n) => self.stage = Stage::new(*n),
            Mark::Fails => self.stage.fails(),
            Mark::Sends(_, _) => {}
        }
        Ok(Ok(Told::Nothing))
    }

    /// Prints a mark that is refused, behind the session that it ends.
    fn refuses(
        &mut self,
        alloc: Global,
        line: &[u8],
        refusal: Refusal,
        out: &mut Vec<u8>,
    ) -> Result<(), AllocError> {
        self.end_session(alloc, out)?;
        add_told(alloc, out, line, &Err(refusal))
    }

    /// Plays a mark that sends something.
    fn play_sent(
        &mut self,
        alloc: Global,
        line: &'a [u8],
        times: u64,
        text: &[u8],
        out: &mut Vec<u8>,
    ) -> Result<(), AllocError> {
        match self.sends(alloc, line, times, text)? {
            Ok(()) => Ok(()),
            Err(refusal) => self.refuses(alloc, line, refusal, out),
        }
    }

    /// Plays a mark that sends nothing.
    fn play_told(
        &mut self,
        alloc: Global,
        line: &[u8],
        mark: &Mark<'_>,
        out: &mut Vec<u8>,
    ) -> Result<(), AllocError> {
        self.end_session(alloc, out)?;
        match self.obeys(alloc, mark) {
            Ok(told) => add_told(alloc, out, line, &told),
            Err(error) => Err(error),
        }
    }

    /// Plays a line that begins with a mark.
    fn play_mark(
        &mut self,
        alloc: Global,
        line: &'a [u8],
        mark: &[u8],
        out: &mut Vec<u8>,
    ) -> Result<(), AllocError> {
        let read = read_mark(mark);
        match &read {
            Ok(Mark::Sends(times, text)) => self.play_sent(alloc, line, *times, text, out),
            Ok(mark) => self.play_told(alloc, line, mark, out),
            Err(refusal) => self.refuses(alloc, line, *refusal, out),
        }
    }

    /// Plays a line of the row.
    fn play_line(
        &mut self,
        alloc: Global,
        line: &'a [u8],
        out: &mut Vec<u8>,
    ) -> Result<(), AllocError> {
        if let Some(mark) = behind(line, b"! ") {
            return self.play_mark(alloc, line, mark, out);
        }
        if !line.starts_with(b"#") {
            return self.gathers(line);
        }
        self.end_session(alloc, out)?;
        add_line(out, b"", line)
    }
}

/// Sessions over a node.
pub struct Row;

impl Player for Row {
    fn play_row(alloc: Global, lines: &[&[u8]], out: &mut Vec<u8>) -> Result<(), AllocError> {
        let mut playing = Playing::new(alloc);
        for line in lines {
            playing.play_line(alloc, line, out)?;
        }
        playing.end_session(alloc, out)
    }
}
