//! `rows KIND FILE ..` plays the rows of each file as the kind before it says, `node` or `session`, and prints them with what
//! they print now: rows that hold are printed as they were read. README.md tells their form. Where a file is not played, why
//! stands on standard error, and the status is 1, or 2 where the words are wrong.
#![tactic(auto)]

mod kind;
mod lines;
mod node;
mod play;
mod program;
mod session;

use crate::program::{print, read_all, refuse};
use std::process::ExitCode;

fn main(rt: HostRuntime) -> ExitCode {
    let all = match read_all(&rt) {
        Ok(all) => all,
        Err(fault) => return refuse(&rt, fault),
    };
    for rows in &all {
        let played = rows.kind.played(rt.alloc(), &rows.text);
        if let Err(fault) = print(&rt, played) {
            return refuse(&rt, fault);
        }
    }
    ExitCode::SUCCESS
}
