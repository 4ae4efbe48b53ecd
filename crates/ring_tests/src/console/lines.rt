// What a line is.
use crate::console::session::{Ended, Session, assert_played};
use std::alloc::AllocGlobal;
use std::process::Abort;

static LINES: &[(&str, &[Ended])] = &[
    (
        "a carriage return is dropped",
        &[
            (b"ring 2\r\n", &["ring 2"]),
            (b"ring 2\r\n", &["no 25 line"]),
        ],
    ),
    (
        "a last line without a line feed",
        &[(b"#\n", &[]), (b"ring 2", &["ring 2"])],
    ),
    (
        "a last carriage return without a line feed spoils the last word",
        &[(b"ring 2\r", &["no 2 number"])],
    ),
    ("as it does a word of its own", &[(b"\r", &["no 25 line"])]),
    (
        "only one carriage return is dropped",
        &[(b"ring 2\r\r\n", &["no 2 number"])],
    ),
    (
        "a carriage return within a line is a byte like others",
        &[(b"ring\r 2\n", &["no 25 line"])],
    ),
    ("spaces", &[(b"   ring    2   \n", &["ring 2"])]),
    ("a tab is no space", &[(b"ring\t2\n", &["no 25 line"])]),
    (
        "lines that print nothing",
        &[
            (b"\n", &[]),
            (b"\r\n", &[]),
            (b" \n", &[]),
            (b"     \r\n", &[]),
            (b"#\n", &[]),
            (b"# ring 2\r\n", &[]),
            (b"#ring 2\n", &[]),
        ],
    ),
    (
        "a comment begins with the first byte",
        &[(b" # ring 2\n", &["no 25 line"])],
    ),
    (
        "bytes that are no text",
        &[
            (b"\xff\xfe\n", &["no 25 line"]),
            (b"#\xff\n", &[]),
            (b"ring \xb2\n", &["no 2 number"]),
            (b"ring 2\n", &["ring 2"]),
            (b"who 1 r\xe9d 1\n", &["no 1 name"]),
        ],
    ),
    (
        "a zero byte is a byte like others",
        &[
            (b"\0\n", &["no 25 line"]),
            (b"ring 2\0\n", &["no 2 number"]),
        ],
    ),
];

// The lines, with these ends, print what they say, and nothing else.
fn assert_ended<R: Abort + AllocGlobal>(rt: &R, name: &str, lines: &[Ended]) {
    let mut session = Session::new(rt.alloc());
    for (line, printed) in lines {
        session.add(line, printed).expect(rt, "ample memory");
    }
    assert_played(rt, name, &session);
    drop(session);
}

#[test]
fn lines(rt: HostRuntime) {
    for (name, lines) in LINES {
        assert_ended(&rt, name, lines);
    }
}
