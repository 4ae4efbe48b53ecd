// A script beside the text that it prints.
use script_run::{RunFault, run};
use std::alloc::{AllocError, AllocGlobal, Global};
use std::process::Abort;

/// A command without its line feed, and the lines that it prints.
pub type Line = (&'static str, &'static [&'static str]);

/// A line with its end, and the lines that it prints.
pub type Ended = (&'static [u8], &'static [&'static str]);

/// Row first_election.
pub const FIRST_ELECTION: &[Line] = &[
    ("ring 3", &["ring 3"]),
    ("stand 1 red 5 10", &["1: stood"]),
    ("stand 2 red 5 30", &["2: stood"]),
    ("stand 3 red 5 20", &["3: stood"]),
    ("deliver all", &["delivered 9"]),
    ("who 1 red 5", &["4: leader 2 30"]),
    ("who 2 red 5", &["5: leader 2 30"]),
    ("who 3 red 5", &["6: leader 2 30"]),
];

/// A script, and the text that it prints.
#[derive(Drop)]
pub struct Session {
    pub script: Vec<u8>,
    pub text: String,
}

impl Session {
    /// The empty script, which prints nothing.
    pub fn new(alloc: Global) -> Session {
        Session {
            script: Vec::new(alloc),
            text: String::new(alloc),
        }
    }

    /// The session of these commands.
    pub fn of(alloc: Global, lines: &[Line]) -> Result<Session, AllocError> {
        let mut session = Session::new(alloc);
        session.add_lines(lines)?;
        Ok(session)
    }

    /// These bytes come next in the script, and print these lines.
    pub fn add(&mut self, bytes: &[u8], printed: &[&str]) -> Result<(), AllocError> {
        self.script.extend_from_slice(bytes)?;
        for line in printed {
            writeln!(self.text, "{line}")?;
        }
        Ok(())
    }

    /// These commands come next, and print what they say.
    pub fn add_lines(&mut self, lines: &[Line]) -> Result<(), AllocError> {
        for (command, printed) in lines {
            self.add(command.as_bytes(), printed)?;
            self.script.push(b'\n')?;
        }
        Ok(())
    }
}

/// What a run answers, and what it writes.
pub fn played(alloc: Global, script: &[u8]) -> (Result<u64, RunFault>, Vec<u8>) {
    let mut rest = script;
    let mut out = Vec::new(alloc);
    let answer = run(alloc, &mut rest, &mut out);
    (answer, out)
}

/// The script prints this text, and the number of its lines is answered.
pub fn assert_prints(rt: &impl Abort, alloc: Global, name: &str, script: &[u8], text: &str) {
    let (answer, out) = played(alloc, script);
    let is_written = out.as_slice() == text.as_bytes();
    drop(out);
    assert!(rt; is_written);
    let lines = text.bytes().filter(|b| *b == b'\n').count();
    assert!(rt; answer == Ok(lines as u64));
}

/// The script of the session prints its text.
pub fn assert_played<R: Abort + AllocGlobal>(rt: &R, name: &str, session: &Session) {
    assert_prints(rt, rt.alloc(), name, &session.script, session.text.as_str());
}
