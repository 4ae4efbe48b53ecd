// The devices of disk_model. A test is a script: what is done with a device step by step, and what comes of each step.
use disk_model::{Device, FileDevice, FuseDevice, MemDevice};
use std::alloc::AllocGlobal;
use std::process::Abort;

pub mod file;
mod fuse;
mod memory;
mod through;

/// What is done with a device, and what comes of it.
#[derive(Clone, Copy)]
pub enum Step<'a> {
    /// These bytes are written at this offset.
    Write(u64, &'a [u8]),
    /// The same write is a fault.
    WriteFails(u64, &'a [u8]),
    Sync,
    SyncFails,
    /// A read of as many bytes from this offset on gives these.
    Reads(u64, &'a [u8]),
    /// A read from this offset on, of so many bytes, is a fault.
    ReadFails(u64, usize),
    /// It has so many bytes.
    HasSize(u64),
    /// The whole device has these bytes.
    Holds(&'a [u8]),
    /// So many calls have failed.
    Failed(u64),
}

/// This is done with the device, step by step.
pub fn plays<D: Device, R: Abort + AllocGlobal>(rt: &R, device: &mut D, steps: &[Step<'_>]) {
    for step in steps {
        does(rt, device, step);
    }
}

fn does<D: Device, R: Abort + AllocGlobal>(rt: &R, device: &mut D, step: &Step<'_>) {
    match *step {
        Step::Write(off, bytes) => writes(rt, device, off, bytes, true),
        Step::WriteFails(off, bytes) => writes(rt, device, off, bytes, false),
        Step::Sync => syncs(rt, device, true),
        Step::SyncFails => syncs(rt, device, false),
        Step::Reads(off, wanted) => reads(rt, device, off, wanted),
        Step::ReadFails(off, len) => fails_to_read(rt, device, off, len),
        Step::HasSize(size) => has(rt, device.size(), size),
        Step::Holds(wanted) => holds(rt, device, wanted),
        Step::Failed(calls) => has(rt, device.failures(), calls),
    }
}

/// Whether the write succeeds.
fn writes<D: Device>(rt: &impl Abort, device: &mut D, off: u64, bytes: &[u8], is_done: bool) {
    assert!(rt; device.write_at(off, bytes).is_ok() == is_done);
}

/// Whether the sync succeeds.
fn syncs<D: Device>(rt: &impl Abort, device: &mut D, is_done: bool) {
    assert!(rt; device.sync().is_ok() == is_done);
}

fn has(rt: &impl Abort, count: u64, wanted: u64) {
    assert!(rt; count == wanted);
}

fn holds<D: Device, R: Abort + AllocGlobal>(rt: &R, device: &mut D, wanted: &[u8]) {
    assert!(rt; device.size() == (wanted.len() as u64));
    reads(rt, device, 0, wanted);
}

fn fails_to_read<D: Device, R: Abort + AllocGlobal>(rt: &R, device: &mut D, off: u64, len: usize) {
    let (fails, bytes) = read(rt, device, off, len);
    drop(bytes);
    assert!(rt; fails);
}

/// Whether a read from `off` on, of so many bytes, fails; and the buffer then, which has nines at first.
fn read<D: Device, R: Abort + AllocGlobal>(
    rt: &R,
    device: &mut D,
    off: u64,
    len: usize,
) -> (bool, Vec<u8>) {
    let mut bytes = vec![in rt.alloc(); 9; len].expect(rt, "ample memory");
    let fails = device.read_at(off, &mut bytes).is_err();
    (fails, bytes)
}

pub fn reads<D: Device, R: Abort + AllocGlobal>(rt: &R, device: &mut D, off: u64, wanted: &[u8]) {
    let (fails, bytes) = read(rt, device, off, wanted.len());
    assert!(rt; !fails && bytes.as_slice() == wanted);
    drop(bytes);
}

/// A device of at most so many bytes, with which this was done.
pub fn memory_device<R: Abort + AllocGlobal>(
    rt: &R,
    limit: usize,
    steps: &[Step<'_>],
) -> MemDevice {
    let mut device = MemDevice::new(rt.alloc(), limit).expect(rt, "ample memory");
    plays(rt, &mut device, steps);
    device
}

fn may_go_to_another_thread<D: Send>() {}

#[test]
fn each_device_may_go_to_another_thread() {
    may_go_to_another_thread::<MemDevice>();
    may_go_to_another_thread::<FuseDevice<MemDevice>>();
    may_go_to_another_thread::<FileDevice>();
}
