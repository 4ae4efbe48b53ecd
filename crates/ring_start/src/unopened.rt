//! Why a node was not opened, and what the system answered.
ghost use Rattle.std.specs.Prelude.{◌≡◌, Some, None, IfErr, IfSome, IfNone};

use crate::log::Log;
use disk_model::{OpenFault, SystemCall, SystemFault, asked};
use log_lines::Level;
use ring_records::{Cause, NodeNo, Refusal};
use std::alloc::AllocError;
use std::io::{ErrorKind, Write};
use std::time::Clock;
use std::{fmt, io};

/// Where the system draws by chance.
pub(crate) const CHANCE: &str = "/dev/urandom";

/// Which file of a node the system was asked for.
#[derive(Clone, Copy, PartialEq, Eq)]
pub enum Place {
    /// The folder.
    Folder,
    /// `ring.made` in it.
    Mark,
    /// `ring.id` in it.
    Identity,
    /// What the system draws by chance.
    Chance,
    /// `node-I.crj` in it.
    Journal,
    /// `node-I.crj.new` in it.
    New,
}

impl Place {
    /// Its path, of this node in this folder.
    fn print<E: Write>(self, err: &mut E, dir: &str, node: NodeNo) -> io::Result<()> {
        match self {
            Place::Folder => write!(err, "{dir}"),
            Place::Mark => write!(err, "{dir}/ring.made"),
            Place::Identity => write!(err, "{dir}/ring.id"),
            Place::Chance => write!(err, "{CHANCE}"),
            Place::Journal => write!(err, "{dir}/node-{node}.crj"),
            Place::New => write!(err, "{dir}/node-{node}.crj.new"),
        }
    }
}

/// What is told beside a refusal.
#[derive(Clone, Copy, PartialEq, Eq)]
pub enum FileFault {
    /// The system refused a call of this file so.
    Fault(Place, SystemFault),
    /// No call was refused: this is told of what is there, or is not.
    Found(Place, ErrorKind),
    /// The journal is of this layout, which is newer than all that this program reads.
    Newer(u8),
}

/// What the call of this file gave, or why the node is not opened.
pub(crate) fn ask<T>(place: Place, call: SystemCall, answer: io::Result<T>) -> Result<T, Unopened>
    ensures { IfErr result (λ why. why.refusal ≡ Refusal.Device 1) }
{
    match asked(call, answer) {
        Ok(value) => Ok(value),
        Err(fault) => Err(Unopened::at(place, fault)),
    }
}

/// A line of how the system refused a call of this file of a node in this folder.
pub fn print_fault<C: Clock, E: Write>(
    log: &mut Log<'_, C, E>,
    dir: &str,
    place: Place,
    node: NodeNo,
    fault: SystemFault,
) -> io::Result<()> {
    let err = log.line(Level::Error);
    write!(err, "ringd: ")?;
    place.print(err, dir, node)?;
    writeln!(err, ": {fault}")
}

/// A line of what is told of this file of a node in this folder.
fn print_found<C: Clock, E: Write>(
    log: &mut Log<'_, C, E>,
    dir: &str,
    place: Place,
    node: NodeNo,
    kind: ErrorKind,
) -> io::Result<()> {
    let err = log.line(Level::Error);
    write!(err, "ringd: ")?;
    place.print(err, dir, node)?;
    writeln!(err, ": {kind}")
}

/// Why a node was not opened: the refusal of its journal or its desk, 15 with one failure where the system refused its
/// file, and 8. Where the system refused something, what that was and what it answered; where the file is there and not
/// this node's, that it is `invalid data`, or of a newer layout.
#[derive(Clone, Copy)]
pub struct Unopened {
    pub refusal: Refusal,
    pub told: Option<FileFault>,
}

impl Unopened {
    /// Of this refusal, of which nothing is told.
    pub fn new(refusal: Refusal) -> Unopened
        ensures { (result.refusal ≡ refusal) × (result.told ≡ None) }
    {
        Unopened {
            refusal,
            told: None,
        }
    }

    /// Of this refusal of a file, which the system answered so, where it answered anything.
    pub(crate) fn caused(refusal: Refusal, place: Place, cause: Option<SystemFault>) -> Unopened
        ensures refusal { result.refusal ≡ refusal }
        ensures told { IfSome cause (λ fault. result.told ≡ Some (FileFault.Fault place fault)) }
        ensures nothing { IfNone cause (result.told ≡ None) }
    {
        match cause {
            Some(fault) => Unopened {
                refusal,
                told: Some(FileFault::Fault(place, fault)),
            },
            None => Unopened::new(refusal),
        }
    }

    /// Of this file, which was not opened.
    pub(crate) fn closed(place: Place, fault: OpenFault) -> Unopened {
        match fault {
            OpenFault::Device(fault) => Unopened::at(place, fault),
            OpenFault::Memory => Unopened::new(Refusal::OutOfMemory),
        }
    }

    /// There is no file of the node, where there has to be one.
    pub fn gone() -> Unopened
        ensures { result.refusal ≡ Refusal.NotFormatted }
    {
        Unopened {
            refusal: Refusal::NotFormatted,
            told: Some(FileFault::Found(Place::Journal, ErrorKind::NotFound)),
        }
    }

    /// The system refused this file or folder so.
    pub fn at(place: Place, fault: SystemFault) -> Unopened
        ensures { (result.refusal ≡ Refusal.Device 1) × (result.told ≡ Some (FileFault.Fault place fault)) }
    {
        Unopened {
            refusal: Refusal::Device(1),
            told: Some(FileFault::Fault(place, fault)),
        }
    }

    /// A line of what is told beside the refusal, of this node in this folder, where something is.
    pub(crate) fn print<C: Clock, E: Write>(
        &self,
        log: &mut Log<'_, C, E>,
        dir: &str,
        node: NodeNo,
    ) -> io::Result<()> {
        match self.told {
            Some(FileFault::Fault(place, fault)) => print_fault(log, dir, place, node, fault),
            Some(FileFault::Found(place, kind)) => print_found(log, dir, place, node, kind),
            Some(FileFault::Newer(layout)) => writeln!(
                log.line(Level::Error),
                "ringd: node {node}: layout {layout} is newer than this ringd"
            ),
            None => Ok(()),
        }
    }
}

impl fmt::Display for Unopened {
    fn fmt<W: fmt::Write>(&self, f: &mut fmt::Formatter<W>) -> fmt::Result {
        write!(f, "{}", Cause(self.refusal))
    }
}

// As it is displayed: an error has to have one, and nothing prints it.
impl fmt::Debug for Unopened {
    fn fmt<W: fmt::Write>(&self, f: &mut fmt::Formatter<W>) -> fmt::Result {
        write!(f, "{self}")
    }
}

impl From<AllocError> for Unopened {
    fn from(_: AllocError) -> Unopened {
        Unopened::new(Refusal::OutOfMemory)
    }
}
