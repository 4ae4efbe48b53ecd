// How long a line and a script may be.
use crate::console::session::{assert_prints, played};
use script_run::RunFault;
use std::alloc::{AllocError, Global};
use std::process::Abort;
use std::test::Fail;

// Adds a line that makes a ring of 2, of so many bytes (at least 5), and its end.
fn add_ring(line: &mut Vec<u8>, bytes: usize, end: &[u8]) -> Result<(), AllocError> {
    line.extend_from_slice(b"ring")?;
    for _ in 5..bytes {
        line.push(b' ')?;
    }
    line.push(b'2')?;
    line.extend_from_slice(end)
}

// Such a line prints this text.
fn assert_line(rt: &impl Abort, alloc: Global, row: &Row) {
    let (name, bytes, end, text) = *row;
    let mut line = Vec::new(alloc);
    add_ring(&mut line, bytes, end).expect(rt, "ample memory");
    assert_prints(rt, alloc, name, &line, text);
    drop(line);
}

// A line of 5,000 such bytes prints nothing, and the next one is read.
fn assert_silent(rt: &impl Abort, alloc: Global, name: &str, byte: u8) {
    let mut script = vec![in alloc; byte; 5_000].expect(rt, "ample memory");
    script
        .extend_from_slice(b"\nring 2\n")
        .expect(rt, "ample memory");
    assert_prints(rt, alloc, name, &script, "ring 2\n");
    drop(script);
}

/// A line's name and length, its end, and what is printed.
type Row = (&'static str, usize, &'static [u8], &'static str);

static LINES: [Row; 8] = [
    ("200", 200, b"", "ring 2\n"),
    ("200, LF", 200, b"\n", "ring 2\n"),
    ("200, CR, LF", 200, b"\r\n", "ring 2\n"),
    ("199, CR", 199, b"\r", "no 2 number\n"),
    ("200, CR", 200, b"\r", "no 25 line\n"),
    ("201", 201, b"", "no 25 line\n"),
    ("201, LF", 201, b"\n", "no 25 line\n"),
    ("201, CR, LF", 201, b"\r\n", "no 25 line\n"),
];

#[test]
fn lines_have_200_bytes(rt: HostRuntime) {
    for row in &LINES {
        assert_line(&rt, rt.alloc(), row);
    }
    assert_silent(&rt, rt.alloc(), "a long comment", b'#');
    assert_silent(&rt, rt.alloc(), "many spaces", b' ');
}

// A script of one byte more than is allowed is refused, and prints nothing.
fn assert_too_long(rt: &impl Abort, alloc: Global, script: &[u8]) {
    let (answer, out) = played(alloc, script);
    assert!(rt; out.is_empty());
    drop(out);
    assert!(rt; answer == Err(RunFault::Long));
}

#[test]
fn scripts_have_1_000_000_bytes(rt: HostRuntime) -> Result<(), Fail> {
    for byte in [b'#', b'\n'] {
        let mut script = vec![in rt.alloc(); byte; 1_000_000]?;
        assert_prints(&rt, rt.alloc(), "silent", &script, "");
        script.push(byte)?;
        assert_too_long(&rt, rt.alloc(), &script);
    }
    let mut script = Vec::new(rt.alloc());
    script.extend_from_slice(b"ring 2\n")?;
    for _ in 7..1_000_000 {
        script.push(b'#')?;
    }
    assert_prints(&rt, rt.alloc(), "a ring", &script, "ring 2\n");
    script.push(b'#')?;
    assert_too_long(&rt, rt.alloc(), &script);
    Ok(())
}
