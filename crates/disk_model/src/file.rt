// A real file as a device.
//
// What is proved of it and what is a premise. A `FileDevice` keeps in memory what its file is to hold, and answers reads
// from there. Each clause below, and each of the trait, speaks of this memory and is proved with no premise. That the
// file holds the same bytes, that a stop leaves of it what the trait says, and that nobody else writes it, no contract
// can say: that is the premise under which what is proved of a device is true of the file. So that the premise is not
// asked of a file that has told an error, each call after one is a fault until the file is opened again. An exclusive
// lock keeps out whoever asks for one.
ghost use Rattle.std.specs.Prelude.{◌≡◌, ◌↔◌, ◌+◌, ◌-◌, ◌^◌, ◌≤◌, min, [], false, IsTrue, IsOk, IsErr, IfOk, OnOk, OnErr, length};
ghost use Rattle.disk_model.specs.Disk.{synced};
ghost use Rattle.disk_model.specs.Calls.{IsPart, Puts, Unsyncs, Elapses, HasCause, IsInReach};
ghost use Rattle.disk_model.specs.Buffer as buffer;

use crate::buffer::Buffer;
use crate::{Device, DeviceFault, SystemCall, SystemFault, asked};
use libc::{POSIX_FADV_DONTNEED, posix_fadvise};
use std::alloc::{AllocError, Global};
use std::fs::{OpenOptions, TryLockError};
use std::io::ErrorKind;
use std::os::fd::AsRawFd;
use std::os::unix::fs::FileExt;
use std::path::Path;
use std::rt::Files;
use std::{fs, io};

/// How long a file may be that is a device, in bytes.
pub const FILE_LIMIT: usize = (1 << 21) + (1 << 12);

// How much of a file is read at once.
const PIECE: usize = 1 << 12;

/// Why a file was not opened.
#[derive(Clone, Copy, Debug, PartialEq, Eq)]
pub enum OpenFault {
    /// The system refused it, as it does what is in use, or it is longer than `FILE_LIMIT`: so it answered.
    Device(SystemFault),
    /// Want of memory.
    Memory,
}

impl From<AllocError> for OpenFault {
    ghost use Rattle.disk_model.specs.declared.file.OpenFault.TheVariants as open_fault;

    ghost from_gives = { λ _ fault. fault ≡ open_fault.Memory };

    fn from(_: AllocError) -> OpenFault {
        OpenFault::Memory
    }
}

impl From<SystemFault> for OpenFault {
    ghost use Rattle.disk_model.specs.declared.file.OpenFault.TheVariants as open_fault;

    ghost from_gives = { λ why fault. fault ≡ open_fault.Device why };

    fn from(why: SystemFault) -> OpenFault {
        OpenFault::Device(why)
    }
}

/// A real file, of at most `FILE_LIMIT` bytes. A read or write that ends past that is a fault, and so is a read that
/// ends past the file's end. After an error of the file each later call is a fault. It holds the file's exclusive lock.
#[derive(Drop)]
pub struct FileDevice {
    file: fs::File,
    // What the file is to hold.
    held: Buffer,
    has_failed: bool,
    cause: Option<SystemFault>,
    faults: u64,
}

/// Takes the exclusive lock of a file or a folder, which ends as that is closed. Refused where somebody else holds it, of
/// which the system tells no number, or the system refuses it.
pub fn lock(file: &fs::File) -> Result<(), SystemFault> {
    match file.try_lock() {
        Ok(()) => Ok(()),
        Err(TryLockError::Error(error)) => Err(SystemFault::new(SystemCall::Lock, &error)),
        Err(TryLockError::WouldBlock) => {
            Err(SystemFault::of_kind(SystemCall::Lock, ErrorKind::ResourceBusy))
        }
    }
}

// What is told of a file that is longer than `FILE_LIMIT`.
fn too_long() -> SystemFault {
    SystemFault::of_kind(SystemCall::Read, ErrorKind::FileTooLarge)
}

/// Makes the entry of a new file in its folder outlive a stop. Refused by what the system answers, also where the path has
/// no folder before its last name.
pub fn sync_folder<R: Files<File = fs::File>>(files: &R, path: &str) -> io::Result<()> {
    let folder = match Path::new(path).parent() {
        Some(folder) if folder.as_str() != "" => fs::File::open(files, folder)?,
        _ => fs::File::open(files, ".")?,
    };
    folder.sync_all()
}

// Has the next reads of the file come from the disk. Behind a write-back that failed the system's cache of the file holds
// what the disk does not; it is written first, and then let go. A file system may ignore that. What knows no sync, as
// some special files, has no such cache.
fn forget_cached(file: &fs::File) -> io::Result<()> {
    match file.sync_data() {
        Err(fault) if fault.kind() != ErrorKind::InvalidInput => return Err(fault),
        _ => {}
    }
    posix_fadvise(file.as_raw_fd(), 0, 0, POSIX_FADV_DONTNEED);
    Ok(())
}

// Reads the file into the memory, in which nothing is stable then.
fn load(file: &fs::File, held: &mut Buffer, len: usize) -> Result<(), SystemFault>
    ensures stable { (buffer.disk_of held.new).stable ≡ (buffer.disk_of held.old).stable }
    ensures limit { buffer.limit_of held.new ≡ buffer.limit_of held.old }
{
    let mut piece = [0; PIECE];
    let mut at = 0;
    while at < len {
        let n = PIECE.min(len - at);
        asked(
            SystemCall::Read,
            file.read_exact_at(&mut piece[..n], at as u64),
        )?;
        if held.write_at(at as u64, &piece[..n]).is_err() {
            return Err(too_long());
        }
        at += n;
    }
    Ok(())
}

impl FileDevice {
    ghost use Rattle.disk_model.specs.FileDevice.{disk_of, limit_of, count_of, has_failed};

    /// A new, empty file. Refused as `Device` where the system refuses it, as where there is a file of this name; a
    /// file may have been made then.
    pub fn create<R: Files<File = fs::File>>(
        alloc: Global,
        files: &R,
        path: &str,
    ) -> Result<FileDevice, OpenFault>
        ensures empty { IfOk result (λ device. disk_of device ≡ record { image = []; stable = []; ranges = [] }) }
        ensures count { IfOk result (λ device. count_of device ≡ 0) }
        ensures works { IfOk result (λ device. has_failed device ≡ false) }
        ensures limit { IfOk result (λ device. limit_of device ≡ 2 ^ 21 + 2 ^ 12) }
    {
        let held = Buffer::new(alloc, FILE_LIMIT)?;
        let made = OpenOptions::new()
            .read(true)
            .write(true)
            .create_new(true)
            .open(files, path);
        let file = asked(SystemCall::Open, made)?;
        lock(&file)?;
        asked(SystemCall::Sync, file.sync_all())?;
        asked(SystemCall::Sync, sync_folder(files, path))?;
        Ok(FileDevice {
            file,
            held,
            has_failed: false,
            cause: None,
            faults: 0,
        })
    }

    /// A file that is there. What it holds is synced and read now, from the disk and not from the system's cache;
    /// nothing of it is known to be stable before the first sync of the device. Refused as `Device` where the system
    /// refuses it, where another open of it holds the lock, or where it is too long.
    pub fn open<R: Files<File = fs::File>>(
        alloc: Global,
        files: &R,
        path: &str,
    ) -> Result<FileDevice, OpenFault>
        ensures stable { IfOk result (λ device. (disk_of device).stable ≡ []) }
        ensures count { IfOk result (λ device. count_of device ≡ 0) }
        ensures works { IfOk result (λ device. has_failed device ≡ false) }
        ensures limit { IfOk result (λ device. limit_of device ≡ 2 ^ 21 + 2 ^ 12) }
    {
        let opened = OpenOptions::new().read(true).write(true).open(files, path);
        FileDevice::of(alloc, asked(SystemCall::Open, opened)?)
    }

    /// The same of a file that is read alone, as on a file system where nothing can be written: the system refuses each
    /// write to it.
    pub fn look<R: Files<File = fs::File>>(
        alloc: Global,
        files: &R,
        path: &str,
    ) -> Result<FileDevice, OpenFault>
        ensures stable { IfOk result (λ device. (disk_of device).stable ≡ []) }
        ensures count { IfOk result (λ device. count_of device ≡ 0) }
        ensures works { IfOk result (λ device. has_failed device ≡ false) }
        ensures limit { IfOk result (λ device. limit_of device ≡ 2 ^ 21 + 2 ^ 12) }
    {
        FileDevice::of(alloc, asked(SystemCall::Open, fs::File::open(files, path))?)
    }

    // The device of a file that was opened.
    fn of(alloc: Global, file: fs::File) -> Result<FileDevice, OpenFault>
        ensures stable { IfOk result (λ device. (disk_of device).stable ≡ []) }
        ensures count { IfOk result (λ device. count_of device ≡ 0) }
        ensures works { IfOk result (λ device. has_failed device ≡ false) }
        ensures limit { IfOk result (λ device. limit_of device ≡ 2 ^ 21 + 2 ^ 12) }
    {
        let mut held = Buffer::new(alloc, FILE_LIMIT)?;
        lock(&file)?;
        let len = asked(SystemCall::Stat, file.metadata())?.len();
        if len > FILE_LIMIT as u64 {
            return Err(OpenFault::Device(too_long()));
        }
        asked(SystemCall::Sync, forget_cached(&file))?;
        load(&file, &mut held, len as usize)?;
        Ok(FileDevice {
            file,
            held,
            has_failed: false,
            cause: None,
            faults: 0,
        })
    }
}

// Whether a range ends within so many bytes.
fn ends_within(size: u64, off: u64, len: usize) -> bool
    ensures { IsTrue result ↔ (off + len ≤ size) }
{
    off <= size && len as u64 <= size - off
}

// Counts a fault.
fn fault(faults: &mut u64) -> DeviceFault
    ensures later { faults.old ≤ faults.new }
    ensures rises { min (faults.old + 1) (2 ^ 64 - 1) ≤ faults.new }
{
    *faults = faults.saturating_add(1);
    DeviceFault
}

impl Device for FileDevice {
    ghost use Rattle.disk_model.specs.FileDevice.{disk_of, limit_of, reach_of, count_of, past_count, left_since, has_failed};
    ghost use Rattle.disk_model.specs.Stretches.{same_now, still_now};

    ghost disk = { disk_of };

    ghost clock = { past_count };

    ghost left_since = { left_since };

    ghost count = { count_of };

    ghost reach = { reach_of };

    ghost may_stay = { λ device. device.held.torn };

    ghost counts_now = { λ device t image le now. same_now device.held.history.past (disk_of device) t image now };

    ghost only_now = { λ device image left. still_now device.held.history.past (disk_of device) image left };

    fn size(&self) -> u64 {
        self.held.size()
    }

    fn failures(&self) -> u64 {
        self.faults
    }

    fn cause(&self) -> Option<SystemFault> {
        self.cause
    }

    fn read_at(&mut self, off: u64, buf: &mut [u8]) -> Result<(), DeviceFault>
        ensures read { OnOk result (IsPart off buf.new (disk_of self.old).image) }
        ensures disk { disk_of self.new ≡ disk_of self.old }
        ensures time { Elapses (past_count self.old) (past_count self.new) (left_since self.old) (left_since self.new) (disk_of self.new) }
        ensures cause { HasCause (count_of self.old) (count_of self.new) result }
        ensures reach { IsInReach (off + length buf.old) (reach_of self.old) (reach_of self.new) result }
        ensures within { OnOk result (off + length buf.old ≤ length (disk_of self.old).image) }
        ensures works { has_failed self.old ≡ false → off + length buf.old ≤ length (disk_of self.old).image → IsOk result }
        ensures broken { IsTrue (has_failed self.old) → IsErr result × IsTrue (has_failed self.new) }
    {
        let within = ends_within(self.held.size(), off, buf.len());
        if self.has_failed || !within || self.held.read_at(off, buf).is_err() {
            return Err(fault(&mut self.faults));
        }
        Ok(())
    }

    fn write_at(&mut self, off: u64, bytes: &[u8]) -> Result<(), DeviceFault>
        ensures written { OnOk result (Puts off bytes.now (disk_of self.old).image (disk_of self.new).image) }
        ensures disk { Unsyncs off (length bytes.now) (disk_of self.old) (disk_of self.new) }
        ensures time { Elapses (past_count self.old) (past_count self.new) (left_since self.old) (left_since self.new) (disk_of self.new) }
        ensures cause { HasCause (count_of self.old) (count_of self.new) result }
        ensures reach { IsInReach (off + length bytes.now) (reach_of self.old) (reach_of self.new) result }
        ensures within { OnOk result (off + length bytes.now ≤ limit_of self.old) }
        ensures breaks { OnErr result (off + length bytes.now ≤ limit_of self.old → IsTrue (has_failed self.new)) }
        ensures broken { IsTrue (has_failed self.old) → IsErr result × IsTrue (has_failed self.new) }
    {
        let held = self.held.write_at(off, bytes);
        if self.has_failed || held.is_err() {
            return Err(fault(&mut self.faults));
        }
        if let Err(error) = self.file.write_all_at(bytes, off) {
            self.has_failed = true;
            self.cause = Some(SystemFault::new(SystemCall::Write, &error));
            return Err(fault(&mut self.faults));
        }
        Ok(())
    }

    fn sync(&mut self) -> Result<(), DeviceFault>
        ensures synced { OnOk result (disk_of self.new ≡ synced (disk_of self.old)) }
        ensures failed { OnErr result (disk_of self.new ≡ disk_of self.old) }
        ensures time { Elapses (past_count self.old) (past_count self.new) (left_since self.old) (left_since self.new) (disk_of self.new) }
        ensures cause { HasCause (count_of self.old) (count_of self.new) result }
        ensures reach { IsInReach 0 (reach_of self.old) (reach_of self.new) result }
        ensures breaks { OnErr result (IsTrue (has_failed self.new)) }
        ensures broken { IsTrue (has_failed self.old) → IsErr result × IsTrue (has_failed self.new) }
    {
        if self.has_failed {
            return Err(fault(&mut self.faults));
        }
        if let Err(error) = self.file.sync_data() {
            self.has_failed = true;
            self.cause = Some(SystemFault::new(SystemCall::Sync, &error));
            return Err(fault(&mut self.faults));
        }
        if self.held.sync().is_err() {
            self.has_failed = true;
            return Err(fault(&mut self.faults));
        }
        Ok(())
    }
}
