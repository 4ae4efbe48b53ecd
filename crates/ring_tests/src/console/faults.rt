// Scripts that are read and told by readers and writers that fail, or that do little at a time.
use crate::console::session::{FIRST_ELECTION, Line, Session};
use crate::streams::{Drip, Narrow};
use script_run::{RunFault, run};
use std::alloc::{AllocGlobal, Global};
use std::io::{self, Read};
use std::process::Abort;
use std::test::Fail;

// A short script over small devices.
const SHORT: &[Line] = &[
    ("ring 2 lazy 4096", &["ring 2"]),
    ("stand 1 red 5 10", &["1: sealed"]),
    ("flush 1", &["flushed 1", "1: stood"]),
];

// Reads one byte at a time, and fails after so many reads: whether then nothing was printed, and else all was.
fn is_read(alloc: Global, session: &Session, reads: usize) -> bool {
    let mut reader = Drip {
        rest: &session.script,
        size: 1,
        reads,
    };
    let mut out = Vec::new(alloc);
    let answer = run(alloc, &mut reader, &mut out);
    let is_read = match answer {
        Ok(lines) => lines == 8 && out.as_slice() == session.text.as_bytes(),
        Err(fault) => fault == RunFault::Read && out.is_empty(),
    };
    drop(out);
    is_read && answer.is_err() == (reads <= session.script.len())
}

#[test]
fn each_read_fails_in_turn(rt: HostRuntime) -> Result<(), Fail> {
    let session = Session::of(rt.alloc(), FIRST_ELECTION)?;
    // one byte a read, and one read that finds the end
    for reads in 0..session.script.len() + 2 {
        assert!(rt; is_read(rt.alloc(), &session, reads));
    }
    drop(session);
    Ok(())
}

// Whether all of a text of four lines was written, or, where a write failed, what was written before it.
fn is_told(text: &[u8], answer: Result<u64, RunFault>, out: &[u8], writes: usize) -> bool {
    match answer {
        Ok(lines) => lines == 4 && out == text,
        Err(fault) => {
            fault == RunFault::Write && out != text && text.starts_with(out) && writes <= out.len()
        }
    }
}

// Whether the text of the session is written as far as the writer takes it.
fn is_written(alloc: Global, session: &Session, writer: Narrow) -> bool {
    let mut writer = writer;
    let mut reader = session.script.as_slice();
    let writes = writer.writes;
    let answer = run(alloc, &mut reader, &mut writer);
    let told = is_told(session.text.as_bytes(), answer, &writer.text, writes);
    drop(writer);
    told
}

// Each write of so many bytes fails in turn, or takes nothing.
fn assert_written<R: Abort + AllocGlobal>(
    rt: &R,
    session: &Session,
    size: usize,
    takes_nothing: bool,
) {
    for writes in 0..session.text.len() + 1 {
        let writer = Narrow {
            text: Vec::new(rt.alloc()),
            size,
            writes,
            takes_nothing,
        };
        let written = is_written(rt.alloc(), session, writer);
        assert!(rt; written);
    }
}

// How many bytes a write takes, and whether the last one takes nothing.
static WRITES: [(usize, bool); 5] = [
    (1, false),
    (1, true),
    (3, false),
    (1_000, false),
    (1_000, true),
];

#[test]
fn each_write_fails_in_turn(rt: HostRuntime) -> Result<(), Fail> {
    let session = Session::of(rt.alloc(), SHORT)?;
    for row in &WRITES {
        let (size, takes_nothing) = *row;
        assert_written(&rt, &session, size, takes_nothing);
    }
    drop(session);
    Ok(())
}

// Gives one byte a read, and counts the reads.
#[derive(Drop)]
struct Slow {
    left: usize,
    reads: usize,
}

impl Read for Slow {
    fn read(&mut self, buf: &mut [u8]) -> io::Result<usize> {
        self.reads = self.reads.wrapping_add(1);
        if self.left == 0 || buf.is_empty() {
            return Ok(0);
        }
        self.left -= 1;
        buf[0] = b'#';
        Ok(1)
    }
}

// What a run over so many bytes answers, which reads 1,000,001 bytes at most and prints nothing.
fn answer_to(rt: &impl Abort, alloc: Global, left: usize) -> Result<u64, RunFault> {
    let mut reader = Slow { left, reads: 0 };
    let mut out = Vec::new(alloc);
    let answer = run(alloc, &mut reader, &mut out);
    assert!(rt; out.is_empty());
    drop(out);
    assert!(rt; reader.reads == 1_000_001);
    answer
}

#[test]
fn reads_are_bounded(rt: HostRuntime) {
    assert!(rt; answer_to(&rt, rt.alloc(), 1_000_000) == Ok(0));
    assert!(rt; answer_to(&rt, rt.alloc(), 2_000_000) == Err(RunFault::Long));
}

static TEXTS: [(RunFault, &str); 4] = [
    (RunFault::Read, "script cannot be read"),
    (RunFault::Write, "output cannot be written"),
    (RunFault::Memory, "out of memory"),
    (RunFault::Long, "script too long"),
];

#[test]
fn faults_have_texts(rt: HostRuntime) -> Result<(), Fail> {
    for row in &TEXTS {
        let (fault, text) = *row;
        let shown = fault.to_string(rt.alloc())?;
        assert!(rt; shown.as_str() == text);
        drop(shown);
    }
    Ok(())
}
