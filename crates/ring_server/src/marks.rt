//! What a client says of what its session stood for, which is taken in front of the session.
use client_stream::{ClientWriter, Stay};
use door_rules::{MARK_BYTES, Mark, is_over, read_mark};
use line_words::without_return;
use ring_records::NodeNo;
use ring_watch::{Reception, Tally, TallyWriter};
use std::alloc::{AllocError, Global};
use std::io::{Read, Write};
use std::net::TcpStream;
use std::sync::Wait;
use std::time::{Clock, Duration};
use std::{io, str};

/// A line that may have more bytes than others begins so.
const TELL: &[u8] = b"tell ";

/// The most bytes that are read of any other line before it is handed on.
const LINE_BYTES: usize = 202;

/// The session at a door, and where it is known what its client says of what it stood for.
#[derive(Drop)]
pub(crate) struct Booth<'a> {
    pub(crate) reception: Option<&'a Reception>,
    pub(crate) node: NodeNo,
    pub(crate) door: u32,
    pub(crate) stream: &'a TcpStream,
    pub(crate) idle: Option<Duration>,
    pub(crate) tally: &'a Tally,
    pub(crate) stay: &'a Stay<'a>,
}

/// What a question that finds something is answered, or that there is nothing, or no memory.
fn answer_of(found: Result<bool, AllocError>, answer: &'static [u8]) -> &'static [u8] {
    match found {
        Ok(true) => answer,
        Ok(false) => b"none\n",
        Err(_) => b"no 8 memory\n",
    }
}

/// The last so many bytes.
fn last(line: &[u8], len: usize) -> &[u8] {
    line.get(line.len().saturating_sub(len)..).unwrap_or(&[])
}

impl<'a> Booth<'a> {
    /// Does what the line says, and gives the answer.
    fn obey<R: Wait>(&self, rt: &R, mark: Mark, line: &[u8]) -> &'static [u8] {
        let Some(reception) = self.reception else {
            return b"none\n";
        };
        match mark {
            Mark::Tell(group, len) => match str::from_utf8(last(line, len)) {
                Ok(text) => {
                    let told = reception.tell(rt, self.node, self.door, &group, text);
                    answer_of(told, b"told\n")
                }
                Err(_) => b"no 25 line\n",
            },
            Mark::Resign(key) => {
                let resigned = reception.resign(rt, self.node, self.door, key);
                answer_of(resigned, b"resigned\n")
            }
        }
    }

    /// Sends an answer.
    fn answer<R: Wait + Clock>(&self, rt: &R, text: &[u8]) -> io::Result<()> {
        let writer = ClientWriter::new(rt, self.stream, self.idle);
        let mut answers = TallyWriter::new(writer, self.tally, self.stay);
        answers.write_all(text)?;
        answers.flush()
    }
}

/// Hands the lines of a client on to its session, but those which say something of what it stood for: these it answers itself.
/// A session at the last free door ends behind ten lines, as long as no other is free.
#[derive(Drop)]
pub(crate) struct MarkReader<'a, R, L> {
    rt: &'a R,
    booth: &'a Booth<'a>,
    lines: L,
    line: Vec<u8>,
    /// How much of the line was handed on, and how many there were.
    at: usize,
    count: u64,
}

/// How many bytes of a line are read at most that begins so.
fn most_of(line: &[u8]) -> usize {
    if line.starts_with(TELL) {
        MARK_BYTES + 1
    } else {
        LINE_BYTES
    }
}

/// Reads a byte behind the others of a line. Whether the line is whole, or at its end.
fn read_byte<L: Read>(lines: &mut L, line: &mut Vec<u8>) -> io::Result<bool> {
    let mut byte = [0u8; 1];
    if lines.read(&mut byte)? == 0 {
        return Ok(true);
    }
    line.extend_from_slice(&byte)?;
    Ok(byte[0] == b'\n' || line.len() >= most_of(line))
}

/// Reads a line, with its line feed, in place of the one that is there; nothing where the input is at its end.
fn read_line<L: Read>(lines: &mut L, line: &mut Vec<u8>) -> io::Result<()> {
    line.clear();
    for _ in 0..MARK_BYTES + 1 {
        if read_byte(lines, line)? {
            break;
        }
    }
    Ok(())
}

/// The line without its end.
fn without_end(line: &[u8]) -> &[u8] {
    match line.strip_suffix(b"\n") {
        Some(rest) => without_return(rest),
        None => line,
    }
}

impl<'a, R: Wait + Clock, L: Read> MarkReader<'a, R, L> {
    /// Of a session that begins now.
    pub(crate) fn new(
        rt: &'a R,
        alloc: Global,
        booth: &'a Booth<'a>,
        lines: L,
    ) -> MarkReader<'a, R, L> {
        MarkReader {
            rt,
            booth,
            lines,
            line: Vec::new(alloc),
            at: 0,
            count: 0,
        }
    }

    /// Answers the line, where it says something of what the session stood for. Whether it does.
    fn answers(&self) -> io::Result<bool> {
        if !self.line.ends_with(b"\n") {
            return Ok(false);
        }
        let line = without_end(&self.line);
        let Some(mark) = mark_of(line) else {
            return Ok(false);
        };
        let text = self.booth.obey(self.rt, mark, line);
        self.booth.answer(self.rt, text)?;
        Ok(true)
    }

    /// Reads the next line that the session answers, or nothing where there is none.
    fn next_line(&mut self) -> io::Result<()> {
        self.at = 0;
        for _ in self.rt.forever() {
            self.line.clear();
            if is_over(self.booth.stay.is_short(), self.count) {
                break;
            }
            read_line(&mut self.lines, &mut self.line)?;
            self.count = self.count.saturating_add(1);
            if !self.answers()? {
                break;
            }
        }
        Ok(())
    }
}

/// What the line says of what its session stood for, if anything.
fn mark_of(line: &[u8]) -> Option<Mark> {
    if line.len() <= MARK_BYTES {
        read_mark(line)
    } else {
        None
    }
}

impl<R: Wait + Clock, L: Read> Read for MarkReader<'_, R, L> {
    fn read(&mut self, buf: &mut [u8]) -> io::Result<usize> {
        if self.at >= self.line.len() {
            self.next_line()?;
        }
        let mut rest = self.line.get(self.at..).unwrap_or(&[]);
        let count = rest.read(buf)?;
        self.at = self.at.saturating_add(count);
        Ok(count)
    }
}
