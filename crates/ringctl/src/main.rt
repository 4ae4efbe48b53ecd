//! `ringctl` reads a script from standard input and prints what it brings to standard output.
#![tactic(auto)]

use script_run::{RunFault, run};
use std::io::ErrorKind;
use std::process::ExitCode;
use std::{env, io};

// Whether the command line has a word behind the program's name. A word that is no text counts.
fn has_words(rt: &HostRuntime) -> Result<bool, RunFault> {
    match env::args(rt) {
        Ok(args) => Ok(args.count() > 1),
        Err(error) if error.kind() == ErrorKind::OutOfMemory => Err(RunFault::Memory),
        Err(_) => Ok(true),
    }
}

fn control(rt: &HostRuntime) -> Result<ExitCode, RunFault> {
    if has_words(rt)? {
        let _ = eprintln!(rt; "ringctl: no words are taken");
        return Ok(ExitCode::from(2));
    }
    run(rt.alloc(), &mut rt.reader(), &mut io::writer(rt))?;
    Ok(ExitCode::SUCCESS)
}

fn main(rt: HostRuntime) -> ExitCode {
    match control(&rt) {
        Ok(code) => code,
        Err(fault) => {
            let _ = eprintln!(rt; "ringctl: {fault}");
            ExitCode::FAILURE
        }
    }
}
