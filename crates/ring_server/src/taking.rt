//! The settings as they are taken.
use crate::run_fault::RunFault;
use disk_model::{SystemCall, SystemFault};
use ring_service::{Settings, read_settings};
use std::alloc::{AllocError, Global};
use std::fs::File;
use std::io::{ErrorKind, Read, Write};
use std::rt::Files;
use std::{io, str};

/// The settings of a file, or of the input where the path is `-`, and their text.
pub(crate) fn take_settings<R: Files<File = File>, I: Read>(
    rt: &R,
    alloc: Global,
    path: &str,
    input: &mut I,
    text: &mut Vec<u8>,
) -> Result<Settings, RunFault> {
    *text = if path == "-" {
        read_all(alloc, input)?
    } else {
        match File::open(rt, path) {
            Ok(mut file) => read_all(alloc, &mut file)?,
            Err(error) => return Err(unread(SystemCall::Open, &error)),
        }
    };
    match str::from_utf8(text) {
        Ok(text) => Ok(read_settings(alloc, text)?),
        Err(_) => Err(RunFault::Settings(None)),
    }
}

/// What the system answered in place of the settings.
fn unread(call: SystemCall, error: &io::Error) -> RunFault {
    RunFault::Settings(Some(SystemFault::new(call, error)))
}

/// At most so many bytes of settings are read.
const SETTINGS_BYTES: usize = 1_000_000;

fn read_all<I: Read>(alloc: Global, input: &mut I) -> Result<Vec<u8>, RunFault> {
    let mut bytes = Vec::new(alloc);
    match input
        .take(SETTINGS_BYTES as u64 + 1)
        .read_to_end(&mut bytes)
    {
        Ok(_) if bytes.len() <= SETTINGS_BYTES => Ok(bytes),
        Ok(_) => Err(RunFault::Settings(None)),
        Err(error) if error.kind() == ErrorKind::OutOfMemory => Err(RunFault::Memory(AllocError)),
        Err(error) => Err(unread(SystemCall::Read, &error)),
    }
}

/// Prints a line for each setting.
pub(crate) fn print_settings<O: Write>(out: &mut O, settings: &Settings) -> io::Result<()> {
    let Settings {
        nodes,
        dir,
        port,
        capacity,
    } = settings;
    write!(
        out,
        "nodes {nodes}\ndir {dir}\nport {port}\ncapacity {capacity}\n"
    )?;
    out.flush()
}
