// Files of the system: what was written and synced is read back after the file is opened again; what is refused.
use super::{Step, plays};
use disk_model::{Device, FILE_LIMIT, FileDevice, OpenFault, sync_folder};
use std::alloc::AllocGlobal;
use std::fs;
use std::process::Abort;
use std::rt::Files;

/// A new file in place of any that is there, with which this was done.
pub fn create<R: Abort + AllocGlobal + Files<File = fs::File>>(
    rt: &R,
    path: &str,
    steps: &[Step<'_>],
) -> FileDevice {
    let _ = fs::remove_file(rt, path);
    let mut device = FileDevice::create(rt.alloc(), rt, path).expect(rt, "a new file");
    plays(rt, &mut device, steps);
    device
}

/// The file, with which this was done.
pub fn open<R: Abort + AllocGlobal + Files<File = fs::File>>(
    rt: &R,
    path: &str,
    steps: &[Step<'_>],
) -> FileDevice {
    let mut device = FileDevice::open(rt.alloc(), rt, path).expect(rt, "a file");
    plays(rt, &mut device, steps);
    device
}

pub fn remove<R: Abort + Files>(rt: &R, path: &str) {
    fs::remove_file(rt, path).expect(rt, "a file that can be removed");
}

/// The file has these bytes.
pub fn holds<R: Abort + AllocGlobal + Files>(rt: &R, path: &str, wanted: &[u8]) {
    let bytes = fs::read(rt, path).expect(rt, "a file");
    assert!(rt; bytes.as_slice() == wanted);
    drop(bytes);
}

static WRITTEN: [Step<'static>; 6] = [
    Step::HasSize(0),
    Step::Write(0, b"abcdefgh"),
    Step::Write(6, b"XYZ"),
    Step::Write(11, b"Q"),
    Step::Sync,
    Step::Failed(0),
];

static WRITTEN_AGAIN: [Step<'static>; 4] = [
    Step::Holds(b"abcdefXYZ\x00\x00Q"),
    Step::Reads(5, b"fXY"),
    Step::Write(1, b"BC"),
    Step::Sync,
];

fn reads_back<R: Abort + AllocGlobal + Files<File = fs::File>>(rt: &R) {
    let path = "disk_model_kept.bin";
    drop(create(rt, path, &WRITTEN));
    holds(rt, path, b"abcdefXYZ\x00\x00Q");
    drop(open(rt, path, &WRITTEN_AGAIN));
    holds(rt, path, b"aBCdefXYZ\x00\x00Q");
    remove(rt, path);
}

#[test]
fn what_was_synced_is_read_back(rt: HostRuntime) {
    reads_back(&rt);
}

static LONG: [Step<'static>; 3] = [
    Step::Write(4095, b"first"),
    Step::Write(10_000, b"last"),
    Step::Sync,
];

static LONG_AGAIN: [Step<'static>; 3] = [
    Step::HasSize(10_004),
    Step::Reads(4094, b"\x00first\x00"),
    Step::Reads(9997, b"\x00\x00\x00last"),
];

fn reads_in_pieces<R: Abort + AllocGlobal + Files<File = fs::File>>(rt: &R) {
    let path = "disk_model_long.bin";
    drop(create(rt, path, &LONG));
    drop(open(rt, path, &LONG_AGAIN));
    remove(rt, path);
}

#[test]
fn a_long_file_is_read_in_pieces(rt: HostRuntime) {
    reads_in_pieces(&rt);
}

static SHORT: [Step<'static>; 5] = [
    Step::HasSize(3),
    Step::ReadFails(0, 4),
    Step::ReadFails(u64::MAX, 4),
    Step::Failed(2),
    Step::Reads(0, b"abc"),
];

fn reads_past<R: Abort + AllocGlobal + Files<File = fs::File>>(rt: &R) {
    let path = "disk_model_short.bin";
    fs::write(rt, path, "abc").expect(rt, "a file");
    drop(open(rt, path, &SHORT));
    remove(rt, path);
}

#[test]
fn a_read_past_a_short_file_is_a_fault(rt: HostRuntime) {
    reads_past(&rt);
}

fn is_refused(rt: &impl Abort, made: Result<FileDevice, OpenFault>) {
    assert!(rt; matches!(made.err(), Some(OpenFault::Device(_))));
}

/// No device is made of what the path leads to.
fn open_is_refused<R: Abort + AllocGlobal + Files<File = fs::File>>(rt: &R, path: &str) {
    is_refused(rt, FileDevice::open(rt.alloc(), rt, path));
}

/// No file is made there.
fn create_is_refused<R: Abort + AllocGlobal + Files<File = fs::File>>(rt: &R, path: &str) {
    is_refused(rt, FileDevice::create(rt.alloc(), rt, path));
}

fn are_refused<R: Abort + AllocGlobal + Files<File = fs::File>>(rt: &R) {
    let path = "disk_model_refused.bin";
    let _ = fs::remove_file(rt, path);
    open_is_refused(rt, path);
    create_is_refused(rt, "disk_model_no_folder/file.bin");
    fs::write(rt, path, "abc").expect(rt, "a file");
    create_is_refused(rt, path);
    holds(rt, path, b"abc");
    lengthen(rt, path, FILE_LIMIT as u64 + 1);
    open_is_refused(rt, path);
    remove(rt, path);
}

#[test]
fn what_cannot_be_a_device_is_refused(rt: HostRuntime) {
    are_refused(&rt);
}

static LOOKED_AT: [Step<'static>; 4] = [
    Step::HasSize(3),
    Step::Reads(0, b"abc"),
    Step::Sync,
    Step::WriteFails(0, b"x"),
];

fn is_looked_at<R: Abort + AllocGlobal + Files<File = fs::File>>(rt: &R) {
    let path = "disk_model_looked_at.bin";
    fs::write(rt, path, "abc").expect(rt, "a file");
    let Ok(looked) = FileDevice::look(rt.alloc(), rt, path) else {
        panic!(rt; "a file that is there");
    };
    let mut device = looked;
    plays(rt, &mut device, &LOOKED_AT);
    drop(device);
    holds(rt, path, b"abc");
    remove(rt, path);
}

#[test]
fn a_file_that_is_looked_at_takes_no_write(rt: HostRuntime) {
    is_looked_at(&rt);
}

/// No other device is made of the path while there is this one, with which this is done then.
fn is_in_use<R: Abort + AllocGlobal + Files<File = fs::File>>(
    rt: &R,
    path: &str,
    device: FileDevice,
    steps: &[Step<'_>],
) {
    let mut device = device;
    open_is_refused(rt, path);
    plays(rt, &mut device, steps);
    drop(device);
}

static IN_USE: [Step<'static>; 2] = [Step::Write(0, b"abc"), Step::Sync];

fn uses<R: Abort + AllocGlobal + Files<File = fs::File>>(rt: &R) {
    let path = "disk_model_in_use.bin";
    let new = create(rt, path, &[]);
    is_in_use(rt, path, new, &IN_USE);
    let old = open(rt, path, &[]);
    is_in_use(rt, path, old, &[]);
    drop(open(rt, path, &[Step::Reads(0, b"abc")]));
    remove(rt, path);
}

#[test]
fn a_file_in_use_is_refused(rt: HostRuntime) {
    uses(&rt);
}

/// Gives the file so many bytes.
fn lengthen<R: Abort + Files<File = fs::File>>(rt: &R, path: &str, bytes: u64) {
    let file = fs::OpenOptions::new().write(true).open(rt, path);
    let file = file.expect(rt, "a file");
    file.set_len(bytes).expect(rt, "a length");
}

static AT_THE_LIMIT: [Step<'static>; 4] = [
    Step::WriteFails(FILE_LIMIT as u64, b"x"),
    Step::Failed(1),
    Step::Write(FILE_LIMIT as u64 - 1, b"x"),
    Step::Sync,
];

fn writes_past<R: Abort + AllocGlobal + Files<File = fs::File>>(rt: &R) {
    let path = "disk_model_limit.bin";
    let device = create(rt, path, &AT_THE_LIMIT);
    let about = fs::metadata(rt, path).expect(rt, "a file");
    assert!(rt; about.len() == (FILE_LIMIT as u64));
    drop(device);
    remove(rt, path);
}

#[test]
fn a_write_past_the_limit_is_a_fault(rt: HostRuntime) {
    writes_past(&rt);
}

/// The system refuses each write to the file.
static NOT_WRITTEN: [Step<'static>; 6] = [
    Step::Reads(0, b""),
    Step::WriteFails(0, b"abc"),
    Step::ReadFails(0, 0),
    Step::WriteFails(0, b""),
    Step::SyncFails,
    Step::Failed(4),
];

/// And each sync of it.
static NOT_SYNCED: [Step<'static>; 5] = [
    Step::SyncFails,
    Step::ReadFails(0, 0),
    Step::WriteFails(0, b""),
    Step::SyncFails,
    Step::Failed(4),
];

fn fails_for_good<R: Abort + AllocGlobal + Files<File = fs::File>>(rt: &R) {
    drop(open(rt, "/dev/full", &NOT_WRITTEN));
    drop(open(rt, "/dev/full", &NOT_SYNCED));
}

#[test]
fn after_an_error_of_the_file_each_call_is_a_fault(rt: HostRuntime) {
    fails_for_good(&rt);
}

#[test]
fn a_folder_that_is_not_synced_is_told(rt: HostRuntime) {
    // The system syncs no file of the first name, and has no folder of the second.
    assert!(rt; sync_folder(&rt, "/dev/full/file.bin").is_err());
    assert!(rt; sync_folder(&rt, "disk_model_no_folder/file.bin").is_err());
    assert!(rt; sync_folder(&rt, "disk_model_any.bin").is_ok());
}
