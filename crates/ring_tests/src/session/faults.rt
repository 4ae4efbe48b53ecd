// Readers and writers that fail, or that do little at a time.
use crate::session::fakes::{Client, Ear, Parrot, led};
use crate::streams::{Drip, Narrow};
use ring_records::{Refusal, Reply};
use sessions::{SessionFault, serve};
use std::alloc::{AllocGlobal, Global};
use std::cell::Cell;
use std::io::BufReader;
use std::process::Abort;
use std::test::Fail;

// A session with what stands behind its end, and the text of it.
const SHORT: (&[u8], &str) = (
    b"who red 5\r\nhello\nlatest Red\nbye\nwho red 5\n",
    "none\nno 25 line\nno 1 name\nbye\n",
);

// How many bytes SHORT has up to its `bye`, with its line feed.
const BYE: usize = 32;

// How many bytes the first lines of SHORT's text have: none, one, two and three of them.
const LENGTHS: [usize; 4] = [0, 5, 16, 26];

// Whether these are so many of the first lines of SHORT's text.
fn are_first_lines(out: &[u8], lines: usize) -> bool {
    SHORT.1.as_bytes().starts_with(out) && LENGTHS.get(lines) == Some(&out.len())
}

#[test]
fn each_read_fails_in_turn(rt: HostRuntime) -> Result<(), Fail> {
    // one byte a read; the reader fails at the next one
    for reads in 0..BYE + 1 {
        let drip = Drip {
            rest: SHORT.0,
            size: 1,
            reads,
        };
        let mut reader = BufReader::with_capacity(rt.alloc(), 16, drip)?;
        let mut out = Vec::new(rt.alloc());
        let mut service = Parrot {
            answers: &[],
            asked: 0,
        };
        let answer = serve(rt.alloc(), &mut reader, &mut out, &mut service);
        assert!(rt; is_read(answer, &out, reads));
    }
    Ok(())
}

// Whether the session broke off behind so many reads with what stands in them, or came to its end.
fn is_read(answer: Result<u64, SessionFault>, out: &[u8], reads: usize) -> bool {
    if reads < BYE {
        let lines = SHORT.0.iter().take(reads).filter(|b| **b == b'\n').count();
        answer == Err(SessionFault::Read) && are_first_lines(out, lines)
    } else {
        answer == Ok(4) && out == SHORT.1.as_bytes()
    }
}

#[test]
fn the_input_ends_at_each_byte(rt: HostRuntime) {
    for bytes in 0..BYE {
        let mut reader = &SHORT.0[..bytes.min(SHORT.0.len())];
        let lines = reader.iter().filter(|b| **b == b'\n').count();
        let mut out = Vec::new(rt.alloc());
        let mut service = Parrot {
            answers: &[],
            asked: 0,
        };
        let answer = serve(rt.alloc(), &mut reader, &mut out, &mut service);
        let are_told = answer == Ok(lines as u64) && are_first_lines(&out, lines);
        assert!(rt; are_told);
    }
}

#[test]
fn reads_of_any_size(rt: HostRuntime) -> Result<(), Fail> {
    for size in [1, 2, 3, 7, 1_000] {
        for capacity in [1, 5, 8_192] {
            let drip = Drip {
                rest: SHORT.0,
                size,
                reads: 1_000,
            };
            let mut reader = BufReader::with_capacity(rt.alloc(), capacity, drip)?;
            let mut out = Vec::new(rt.alloc());
            let mut service = Parrot {
                answers: &[],
                asked: 0,
            };
            let answer = serve(rt.alloc(), &mut reader, &mut out, &mut service);
            let is_whole = answer == Ok(4) && out.as_slice() == SHORT.1.as_bytes();
            assert!(rt; is_whole);
        }
    }
    Ok(())
}

// What SHORT answers over such a writer, and what that took.
fn written(
    alloc: Global,
    size: usize,
    writes: usize,
    takes_nothing: bool,
) -> (Result<u64, SessionFault>, Vec<u8>) {
    let mut reader = SHORT.0;
    let mut writer = Narrow {
        text: Vec::new(alloc),
        size,
        writes,
        takes_nothing,
    };
    let mut service = Parrot {
        answers: &[],
        asked: 0,
    };
    let answer = serve(alloc, &mut reader, &mut writer, &mut service);
    (answer, writer.text)
}

// Whether all of SHORT's text was written, or where a write failed, what was written before it.
fn is_told(answer: Result<u64, SessionFault>, out: &[u8], writes: usize) -> bool {
    let text = SHORT.1.as_bytes();
    if out == text {
        return answer == Ok(4);
    }
    answer == Err(SessionFault::Write) && text.starts_with(out) && writes <= out.len()
}

#[test]
fn each_write_fails_in_turn(rt: HostRuntime) {
    for (size, takes_nothing) in [
        (1, false),
        (1, true),
        (3, false),
        (1_000, false),
        (1_000, true),
    ] {
        for writes in 0..SHORT.1.len() + 1 {
            let (answer, out) = written(rt.alloc(), size, writes, takes_nothing);
            assert!(rt; is_told(answer, &out, writes));
        }
    }
}

// What a session with a client answers that waits for each answer, over a writer that can flush so often.
fn talked<R: Abort + AllocGlobal>(rt: &R, flushes: usize) -> (Result<u64, SessionFault>, usize) {
    let lines: [&[u8]; 4] = [b"who red 5\n", b"hello\n", b"latest red\n", b"bye\n"];
    let heard = Cell::new(0);
    let client = Client {
        lines: &lines,
        sent: 0,
        heard: &heard,
    };
    let mut reader = BufReader::new(rt.alloc(), client).expect(rt, "ample memory");
    let mut writer = Ear {
        heard: &heard,
        flushes,
    };
    let mut service = Parrot {
        answers: &[],
        asked: 0,
    };
    let answer = serve(rt.alloc(), &mut reader, &mut writer, &mut service);
    (answer, heard.get())
}

#[test]
fn each_answer_goes_out_before_the_next_line_is_read(rt: HostRuntime) {
    assert!(rt; talked(&rt, 5) == (Ok(4), 4));
}

#[test]
fn each_flush_fails_in_turn(rt: HostRuntime) {
    for flushes in 0..4 {
        assert!(rt; talked(&rt, flushes) == (Err(SessionFault::Write), flushes));
    }
}

#[test]
fn answers_of_a_service(rt: HostRuntime) -> Result<(), Fail> {
    let latest = led().expect(&rt, "a leader");
    let (term, leader) = led().expect(&rt, "a leader");
    let answers = [
        Ok(Reply::Latest(Some(latest))),
        Ok(Reply::Leader(Some(leader))),
        Ok(Reply::Refused(Refusal::Stale(term))),
        Ok(Reply::Retired),
        Ok(Reply::Refused(Refusal::Retired(term))),
        Err(Refusal::OutOfMemory),
        Err(Refusal::Failed),
        Err(Refusal::Device(1)),
        Ok(Reply::Latest(None)),
    ];
    let mut service = Parrot {
        answers: &answers,
        asked: 0,
    };
    let mut reader: &[u8] =
        b"latest red\nwho red 5\nstand red 4 1\nretire red 5\nretire red 5\nwho Red 5\nwho red 5\nlatest red\nwho red 5\nlatest red\nwho red 5\n";
    let mut out = Vec::new(rt.alloc());
    let answer = serve(rt.alloc(), &mut reader, &mut out, &mut service);
    assert!(rt; answer == Ok(11));
    let text =
        b"term 5 leader 2 30\nleader 2 30\nno 5 stale 5\nretired\nno 23 retired 5\nno 1 name\nno 8 memory\nno 9 failed\nno 15 device 1\nnone\nnone\n";
    assert!(rt; out.as_slice() == text.as_slice());
    assert!(rt; service.asked == 10);
    Ok(())
}
