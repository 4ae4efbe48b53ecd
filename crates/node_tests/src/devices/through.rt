// The step that durable parts are made of.
use super::memory_device;
use disk_model::{Device, FuseDevice, Tear, write_through};
use std::alloc::AllocGlobal;
use std::process::Abort;

/// What is written through a device, the first calls of which pass: whether that fails, and how many bytes a stop leaves
/// which takes back what was not stable.
fn left<R: Abort + AllocGlobal>(rt: &R, passed: u64) -> (bool, u64) {
    let mut device = FuseDevice::new(memory_device(rt, 8, &[]), passed, true);
    let fails = write_through(&mut device, 0, b"abc").is_err();
    assert!(rt; device.size() == 3);
    let mut inner = device.into_inner();
    inner.crash(Tear::Old);
    let size = inner.size();
    drop(inner);
    (fails, size)
}

#[test]
fn what_is_written_through_outlives_a_stop(rt: HostRuntime) {
    // The device's calls are a write and a sync. The fuse fails the first, the second, or none.
    assert!(rt; left(&rt, 0) == (true, 0));
    assert!(rt; left(&rt, 1) == (true, 0));
    assert!(rt; left(&rt, 2) == (false, 3));
}
