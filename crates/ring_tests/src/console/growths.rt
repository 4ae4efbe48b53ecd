// A script of which a growth is refused.
use crate::console::session::{FIRST_ELECTION, Line, Session, played};
use script_run::{RunFault, run};
use std::alloc::{AllocGlobal, Global};
use std::process::Abort;
use std::test::Fail;

// What is audited: a run, and then what node 1 has no more.
const AUDITED: &[Line] = &[
    ("ring 2", &["ring 2"]),
    ("stand 1 red 9 5", &["1: stood"]),
    ("deliver all", &["delivered 4"]),
    ("audit", &["audit ok 5"]),
    ("checkpoint 1", &["checkpointed 0"]),
    ("crash 1", &["up 1 3"]),
    ("audit", &["no 27 dropped 1"]),
];

// What is made durable: a command that prints two lines.
const FLUSHED: &[Line] = &[
    ("ring 2 lazy", &["ring 2"]),
    ("stand 1 red 9 5", &["1: sealed"]),
    ("flush 1", &["flushed 1", "1: stood"]),
];

// The session; where a growth is refused it is made again.
fn session<R: Abort + AllocGlobal>(rt: &R, lines: &[Line]) -> Session {
    match Session::of(rt.alloc(), lines) {
        Ok(session) => session,
        Err(_) => Session::of(rt.alloc(), lines).expect(rt, "ample memory"),
    }
}

// An empty text with room for so many bytes; where a growth is refused it is made again.
fn page(rt: &impl Abort, alloc: Global, room: usize) -> Vec<u8> {
    let mut page = Vec::new(alloc);
    if page.reserve(room).is_err() {
        page.reserve(room).expect(rt, "ample memory");
    }
    page
}

// Whether the text of the first commands, whole, has so many bytes.
fn is_whole(lines: &[Line], len: usize) -> bool {
    let mut end = 0usize;
    let mut found = len == 0;
    for (_, printed) in lines {
        for line in printed.iter() {
            end = end.saturating_add(line.len()).saturating_add(1);
        }
        found = found || end == len;
    }
    found
}

// The script prints its text, or, where a growth is refused, the text of its first commands, whole.
fn prints<R: Abort + AllocGlobal>(
    rt: &R,
    session: &Session,
    lines: &[Line],
) -> Result<u64, RunFault> {
    let text = session.text.as_bytes();
    let mut out = page(rt, rt.alloc(), text.len());
    let mut rest = session.script.as_slice();
    let answer = run(rt.alloc(), &mut rest, &mut out);
    let is_printed = is_printed(text, lines, answer.is_ok(), &out);
    drop(out);
    assert!(rt; is_printed);
    answer
}

// Whether all of the text was printed, or, where the run was refused a growth, that of its first commands, whole.
fn is_printed(text: &[u8], lines: &[Line], is_all: bool, out: &[u8]) -> bool {
    if is_all {
        return out == text;
    }
    text.starts_with(out) && is_whole(lines, out.len())
}

// The script prints its text, at the second run where the first is refused a growth, and has so many lines.
fn prints_at_last<R: Abort + AllocGlobal>(rt: &R, lines: &[Line], count: u64) {
    let session = session(rt, lines);
    let mut answer = prints(rt, &session, lines);
    if answer == Err(RunFault::Memory) {
        answer = prints(rt, &session, lines);
    }
    assert!(rt; answer == Ok(count));
}

#[test]
fn refused_growths(rt: HostRuntime) {
    prints_at_last(&rt, AUDITED, 7);
}

#[test]
fn refused_growths_of_a_flush(rt: HostRuntime) {
    prints_at_last(&rt, FLUSHED, 4);
}

#[test]
fn refused_growths_of_a_first_election(rt: HostRuntime) {
    prints_at_last(&rt, FIRST_ELECTION, 8);
}

// A whole run with ample memory, shown, so that one without can be held beside it.
#[test]
fn a_run_is_shown(rt: HostRuntime) -> Result<(), Fail> {
    let first = Session::of(rt.alloc(), FIRST_ELECTION)?;
    let (answer, out) = played(rt.alloc(), &first.script);
    show(&rt, &out, answer);
    let is_whole = out.as_slice() == first.text.as_bytes();
    drop((first, out));
    assert!(rt; is_whole);
    assert!(rt; answer == Ok(8));
    Ok(())
}

fn show(rt: &HostRuntime, out: &[u8], answer: Result<u64, RunFault>) {
    let text = str::from_utf8(out).unwrap_or("bytes that are no text");
    let _ = println!(rt; "{text}{answer:?}");
}
