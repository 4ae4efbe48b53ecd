//! What a start goes by, and what it does to the folder of its ring.
ghost use Rattle.std.specs.Prelude.{◌≡◌, ◌≤◌, length, Ok, Err, IfOk, IfErr};
ghost use Rattle.ring_records.specs.declared.limits.TheConstants.{GREATEST_CAPACITY, LEAST_CAPACITY};
ghost use Rattle.ring_start.specs.Fits.{found_as, IsInOrder, Fits};
ghost use Rattle.ring_start.specs.Written.{ready_as, AreReady};

use crate::check::tell_ring;
use crate::folder::Folder;
use crate::found::Found;
use crate::identity::of_ring;
use crate::limits::look_at_files;
use crate::log::Log;
use crate::opening::{find_ring, open_ring};
use crate::ready::Ready;
use crate::ring_fault::RingFault;
use crate::tellings::{tell_capacities, tell_identity, tell_kept, tell_start};
use crate::unopened::Unopened;
use disk_model::FileDevice;
use folder_plan::{FolderStep, Identity};
use ring_records::NodeNo;
use std::alloc::Global;
use std::fs::File;
use std::io::Write;
use std::rt::Files;
use std::time::Clock;

/// The ring that a start is for: how many nodes it has, 2 to 16, how many bytes of inputs a node takes that has no file yet, 4,096
/// to 1,048,576, and its identity, where one is asked for.
#[derive(Drop)]
pub struct Target {
    pub nodes: u8,
    pub capacity: u32,
    pub ring: Option<Identity>,
    ghost nodes_range: { (2 ≤ nodes) × (nodes ≤ 16) },
    ghost capacity_range: { (LEAST_CAPACITY ≤ capacity) × (capacity ≤ GREATEST_CAPACITY) },
}

/// What a start goes by: the target, its folder, whose lock is held until this is let go, and whether a ring was made there
/// before.
#[derive(Drop)]
pub struct Basis<'a> {
    pub target: &'a Target,
    pub alloc: Global,
    folder: Folder<'a>,
    is_made: bool,
}

/// A refusal of the folder.
fn of_folder<T>(answer: Result<T, Unopened>) -> Result<T, RingFault>
    ensures given { IfOk answer (λ value. result ≡ Ok value) }
    ensures refused { IfErr answer (λ why. result ≡ Err (RingFault.Node 1 why)) }
{
    match answer {
        Ok(value) => Ok(value),
        Err(why) => Err(RingFault::Node(NodeNo::first(), why)),
    }
}

impl<'a> Basis<'a> {
    /// Of the folder of this path, for this target. Refused where that is not there, or is in use, and where its ring has not the identity
    /// that is asked for.
    pub fn open<R: Files<File = File>>(
        rt: &R,
        alloc: Global,
        dir: &'a str,
        target: &'a Target,
    ) -> Result<Basis<'a>, RingFault>
        ensures { IfOk result (λ basis. basis.target.now ≡ target.now) }
    {
        let folder = of_folder(Folder::open(rt, dir))?;
        let folder = of_ring(rt, alloc, folder, target.ring)?;
        let is_made = of_folder(folder.is_made(rt, alloc))?;
        Ok(Basis {
            target,
            alloc,
            folder,
            is_made,
        })
    }

    /// The same, whose files are read alone, and where a ring has to be.
    fn look<R: Files<File = File>>(
        rt: &R,
        alloc: Global,
        dir: &'a str,
        target: &'a Target,
    ) -> Result<Basis<'a>, RingFault>
        ensures { IfOk result (λ basis. basis.target.now ≡ target.now) }
    {
        let folder = of_folder(Folder::look(rt, dir))?;
        let folder = of_ring(rt, alloc, folder, target.ring)?;
        Ok(Basis {
            target,
            alloc,
            folder,
            is_made: true,
        })
    }

    /// Nodes 1 to the last as their files have them, which fit. Nothing is made. With `existing`, and where a ring was made
    /// before, each has to have a file. Those that keep another capacity than the target says are named.
    pub fn find<R: Files<File = File>, C: Clock, E: Write>(
        &self,
        rt: &R,
        existing: bool,
        log: &mut Log<'_, C, E>,
    ) -> Result<Vec<Found<FileDevice>>, RingFault>
        ensures order { IfOk result (λ found. IsInOrder found_as found.items) }
        ensures count { IfOk result (λ found. length found.items ≡ self.now.target.now.nodes) }
        ensures fits { IfOk result (λ found. Fits found_as self.now.target.now.nodes found.items) }
    {
        let existing = self.is_made || existing;
        let found = find_ring(rt, self.alloc, &self.folder, self.target, existing)?;
        tell_capacities(log, self.target.capacity, &found);
        look_at_files(&found)?;
        Ok(found)
    }

    /// The nodes that were found, as they may be served: each was made by this start, or made a checkpoint, or can make none.
    /// They go on from what was found. The folder is marked as one where a ring was made. `begun` gets the steps in the folder
    /// that were begun. The program's version is told, where notices are.
    pub fn make_ready<R: Files<File = File>, C: Clock, E: Write>(
        &self,
        rt: &R,
        version: &str,
        found: Vec<Found<FileDevice>>,
        begun: &mut Vec<FolderStep>,
        log: &mut Log<'_, C, E>,
    ) -> Result<Vec<Ready<FileDevice>>, RingFault>
        requires order { IsInOrder found_as found.items }
        requires count { length found.items ≡ self.now.target.now.nodes }
        requires fits { Fits found_as self.now.target.now.nodes found.items }
        ensures ready { IfOk result (λ ring. AreReady found.items ring.items) }
        ensures order { IfOk result (λ ring. IsInOrder ready_as ring.items) }
        ensures count { IfOk result (λ ring. length ring.items ≡ self.now.target.now.nodes) }
        ensures fits { IfOk result (λ ring. Fits ready_as self.now.target.now.nodes ring.items) }
    {
        tell_start(log, version, &found);
        let ready = open_ring(
            rt,
            self.alloc,
            &self.folder,
            self.target.nodes,
            found,
            begun,
        )?;
        tell_kept(log, &ready);
        self.mark(rt, begun)?;
        tell_identity(rt, self.alloc, &self.folder, log);
        Ok(ready)
    }

    /// Marks the folder as one where a ring was made, where none was made before.
    fn mark<R: Files<File = File>>(
        &self,
        rt: &R,
        begun: &mut Vec<FolderStep>,
    ) -> Result<(), RingFault> {
        if self.is_made {
            return Ok(());
        }
        of_folder(self.folder.mark_made(rt, self.alloc, begun))
    }

    /// The path of its folder.
    pub fn dir(&self) -> &str {
        self.folder.path()
    }

    /// Takes back what a refused start left, of which these steps were begun.
    pub fn take_back<R: Files<File = File>>(&self, rt: &R, begun: &[FolderStep]) {
        self.folder.take_back(rt, self.alloc, begun);
    }

    /// The ring's identity, where it is there and can be read.
    pub fn identity<R: Files<File = File>>(&self, rt: &R) -> Option<Identity> {
        match self.folder.identity(rt, self.alloc) {
            Ok(identity) => identity,
            Err(_) => None,
        }
    }
}

/// Looks at the nodes, each of which has to be there, and tells what an audit says of them, with `leaders` also the latest
/// leader of each group that each knows; then the status to end with. Nothing is changed.
pub fn check_ring<R: Files<File = File>, O: Write>(
    rt: &R,
    alloc: Global,
    dir: &str,
    target: &Target,
    leaders: bool,
    out: &mut O,
) -> Result<u8, RingFault> {
    let basis = Basis::look(rt, alloc, dir, target)?;
    let found = find_ring(rt, alloc, &basis.folder, target, true)?;
    tell_ring(alloc, &found, leaders, out)
}

/// Makes the nodes that are not there, as a start does, and serves nothing; prints the ring's identity, where it has one. Where
/// it is refused, what it made is gone, but for a line that is not printed. An identity that is asked for is that of a ring that
/// was made before.
pub fn make_ring<R: Files<File = File>, C: Clock, O: Write, E: Write>(
    rt: &R,
    alloc: Global,
    dir: &str,
    target: &Target,
    version: &str,
    out: &mut O,
    log: &mut Log<'_, C, E>,
) -> Result<u8, RingFault> {
    let basis = Basis::open(rt, alloc, dir, target)?;
    let found = basis.find(rt, false, log)?;
    let mut begun = Vec::new(alloc);
    match basis.make_ready(rt, version, found, &mut begun, log) {
        Ok(_) => print_identity(basis.identity(rt), out),
        Err(fault) => {
            basis.take_back(rt, &begun);
            Err(fault)
        }
    }
}

/// Prints the identity, where there is one: the status to end with.
fn print_identity<O: Write>(identity: Option<Identity>, out: &mut O) -> Result<u8, RingFault> {
    if let Some(identity) = identity {
        if writeln!(out, "ring {identity}").is_err() || out.flush().is_err() {
            return Err(RingFault::Output);
        }
    }
    Ok(0)
}
