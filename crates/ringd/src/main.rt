//! `ringd` serves a ring of journalled nodes.
#![tactic(auto)]

use log_lines::is_stream;
use ring_server::start;
use std::alloc::{AllocError, Global};
use std::fs::File;
use std::io::ErrorKind;
use std::os::fd::AsRawFd;
use std::process::ExitCode;
use std::{env, fs, io};

// Why the words of the program are not there.
#[derive(Clone, Copy)]
enum NoWords {
    Memory,
    Text,
}

impl From<AllocError> for NoWords {
    fn from(_: AllocError) -> NoWords {
        NoWords::Memory
    }
}

fn take_words(rt: &HostRuntime) -> Result<Vec<String>, NoWords> {
    match env::args(rt) {
        Ok(args) => Ok(args.collect(rt.alloc())?),
        Err(error) if error.kind() == ErrorKind::OutOfMemory => Err(NoWords::Memory),
        Err(_) => Err(NoWords::Text),
    }
}

// Opens each standard stream that is closed, so that no file of the ring gets its number, over which a text would be
// written then. The root folder can be neither read nor written as a stream.
fn hold_streams(rt: &HostRuntime) -> [Option<File>; 3] {
    let mut held: [Option<File>; 3] = Default::default();
    for place in &mut held {
        match File::open(rt, "/") {
            Ok(file) if file.as_raw_fd() < 3 => *place = Some(file),
            _ => break,
        }
    }
    held
}

fn texts_of(alloc: Global, words: &[String]) -> Result<Vec<&str>, AllocError> {
    words.iter().map(|word| word.as_str()).collect(alloc)
}

// Whether standard error is systemd's journal, by JOURNAL_STREAM and what the system says of the stream.
fn is_journal(rt: &HostRuntime) -> bool {
    let Ok(told) = env::var(rt, "JOURNAL_STREAM") else {
        return false;
    };
    let Ok(link) = fs::read_link(rt, "/proc/self/fd/2") else {
        return false;
    };
    is_stream(rt.alloc(), told.as_str(), link.as_str()).unwrap_or(false)
}

fn main(rt: HostRuntime) -> ExitCode {
    let _held = hold_streams(&rt);
    let alloc = rt.alloc();
    let is_journal = is_journal(&rt);
    // the level of an error
    let mark = if is_journal { "<3>" } else { "" };
    let words = match take_words(&rt) {
        Ok(words) => words,
        Err(NoWords::Text) => {
            let _ = eprintln!(rt; "{mark}ringd: words are not text");
            return ExitCode::from(2);
        }
        Err(NoWords::Memory) => {
            let _ = eprintln!(rt; "{mark}ringd: out of memory");
            return ExitCode::FAILURE;
        }
    };
    let Ok(texts) = texts_of(alloc, &words) else {
        let _ = eprintln!(rt; "{mark}ringd: out of memory");
        return ExitCode::FAILURE;
    };
    let mut input = rt.reader();
    let mut out = io::writer(&rt);
    let mut err = rt.stderr();
    let status = start(
        &rt,
        alloc,
        texts.as_slice(),
        is_journal,
        &mut input,
        &mut out,
        &mut err,
    );
    ExitCode::from(status)
}
