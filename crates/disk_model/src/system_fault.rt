// What the system answered to a call that failed.
ghost use Rattle.std.specs.Prelude.{◌≡◌, Ok, Err, IfOk, IfErr};
ghost use Rattle.std.specs.IoError.{error_kind, raw_os_error};

use std::fmt::{Display, Formatter, Write};
use std::io::ErrorKind;
use std::{fmt, io};

/// A call of the system, of those that are asked of it for a file, a folder or a port.
#[derive(Clone, Copy, Debug, PartialEq, Eq)]
pub enum SystemCall {
    /// Opens what is there, or makes it.
    Open,
    /// Takes the exclusive lock.
    Lock,
    /// Asks how long it is, or whether it is there.
    Stat,
    /// Reads bytes.
    Read,
    /// Writes bytes.
    Write,
    /// Has what was written, or named, outlive a stop.
    Sync,
    /// Gives a file another name.
    Rename,
    /// Takes a file's name away.
    Remove,
    /// Listens at a port.
    Listen,
}

impl SystemCall {
    /// Its word.
    pub fn name(self) -> &'static str {
        match self {
            SystemCall::Open => "open",
            SystemCall::Lock => "lock",
            SystemCall::Stat => "stat",
            SystemCall::Read => "read",
            SystemCall::Write => "write",
            SystemCall::Sync => "sync",
            SystemCall::Rename => "rename",
            SystemCall::Remove => "remove",
            SystemCall::Listen => "listen",
        }
    }
}

/// What the system answered to a call that failed: the kind, and its own number where it told one. Displayed as the call,
/// and the system's words with the number, or else the kind in words, `in use` where somebody else holds the lock.
#[derive(Clone, Copy, Debug, PartialEq, Eq)]
pub struct SystemFault {
    pub call: SystemCall,
    pub kind: ErrorKind,
    pub number: Option<i32>,
}

impl SystemFault {
    /// Of this call, which answered so.
    pub fn new(call: SystemCall, error: &io::Error) -> SystemFault
        ensures call { result.call ≡ call }
        ensures kind { result.kind ≡ error_kind error.now }
        ensures number { result.number ≡ raw_os_error error.now }
    {
        SystemFault {
            call,
            kind: error.kind(),
            number: error.raw_os_error(),
        }
    }

    /// Of this call, of which the system told no number.
    pub fn of_kind(call: SystemCall, kind: ErrorKind) -> SystemFault {
        SystemFault {
            call,
            kind,
            number: None,
        }
    }
}

impl Display for SystemFault {
    fn fmt<W: Write>(&self, f: &mut Formatter<W>) -> fmt::Result {
        let call = self.call.name();
        match (self.number, self.kind) {
            (Some(number), _) => write!(f, "{call}: {}", io::Error::from_raw_os_error(number)),
            (None, ErrorKind::ResourceBusy) => write!(f, "{call}: in use"),
            (None, kind) => write!(f, "{call}: {kind}"),
        }
    }
}

/// What the call gave, or why it was refused.
pub fn asked<T>(call: SystemCall, answer: io::Result<T>) -> Result<T, SystemFault>
    ensures given { IfOk answer (λ value. result ≡ Ok value) }
    ensures refused { IfErr result (λ fault. fault.call ≡ call) }
{
    match answer {
        Ok(value) => Ok(value),
        Err(error) => Err(SystemFault::new(call, &error)),
    }
}
