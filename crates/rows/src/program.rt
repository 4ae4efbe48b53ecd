// Files of rows, one by one.
ghost use Rattle.std.specs.Prelude.{◌≤◌, length, IfOk};

use crate::kind::Kind;
use line_words::write_whole;
use std::alloc::AllocError;
use std::process::ExitCode;
use std::{env, fs, io};
use thiserror::Error;

/// The most bytes of a file.
const ROWS_BYTES: usize = 1_000_000;

/// Why rows are not printed.
#[derive(Clone, Copy, Debug, Error)]
pub enum RowsFault {
    /// A word is no kind, or no file stands behind one.
    #[error("usage: rows KIND FILE .., a KIND being node or session")]
    Words,
    /// The file cannot be read.
    #[error("rows cannot be read")]
    Read,
    /// There are more than 1,000,000 bytes.
    #[error("rows too long")]
    Long,
    /// Standard output failed, or took nothing.
    #[error("rows cannot be written")]
    Write,
    /// A growth was refused.
    #[error("out of memory")]
    Memory,
}

/// The rows of a file, and what they ask.
#[derive(Drop)]
pub struct Rows {
    pub kind: Kind,
    pub text: Vec<u8>,
}

fn read_rows(rt: &HostRuntime, path: &str) -> Result<Vec<u8>, RowsFault>
    ensures { IfOk result (λ rows. length rows.items ≤ 1000000) }
{
    match fs::read(rt, path) {
        Ok(rows) if rows.len() <= ROWS_BYTES => Ok(rows),
        Ok(_) => Err(RowsFault::Long),
        Err(_) => Err(RowsFault::Read),
    }
}

/// Reads a file behind its kind.
fn read_named(rt: &HostRuntime, kind: &str, path: Option<String>) -> Result<Rows, RowsFault> {
    match (Kind::named(kind), path) {
        (Some(kind), Some(path)) => {
            let text = read_rows(rt, path.as_str())?;
            Ok(Rows { kind, text })
        }
        _ => Err(RowsFault::Words),
    }
}

/// Reads what the words say.
pub fn read_all(rt: &HostRuntime) -> Result<Vec<Rows>, RowsFault> {
    let mut words = env::args(rt).map_err(|_| RowsFault::Words)?;
    let _program = words.next();
    let mut all = Vec::new(rt.alloc());
    for _ in 0..words.len() {
        let Some(kind) = words.next() else {
            return Ok(all);
        };
        let rows = read_named(rt, kind.as_str(), words.next())?;
        all.push(rows).map_err(|_| RowsFault::Memory)?;
    }
    Ok(all)
}

/// Prints rows, as they were played.
pub fn print(rt: &HostRuntime, played: Result<Vec<u8>, AllocError>) -> Result<(), RowsFault> {
    match played {
        Ok(out) => write_whole(&mut io::writer(rt), &out).map_err(|_| RowsFault::Write),
        Err(_) => Err(RowsFault::Memory),
    }
}

/// Says why rows are not printed. The status of the program.
pub fn refuse(rt: &HostRuntime, fault: RowsFault) -> ExitCode {
    let _ = eprintln!(rt; "rows: {fault}");
    match fault {
        RowsFault::Words => ExitCode::from(2),
        _ => ExitCode::FAILURE,
    }
}
