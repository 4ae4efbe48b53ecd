// A sync of a device, and a round of a flusher, that last until a test has done something else.

use disk_model::{Device, DeviceFault, SystemFault};
use ring_service::Gate;
use std::sync::atomic::{AtomicBool, Ordering};
use std::time::{Clock, Duration};

/// What a test and what is held tell each other.
#[derive(Drop)]
pub struct Flags {
    /// The next sync is to be held.
    pub armed: AtomicBool,
    /// A sync or a round is held.
    pub held: AtomicBool,
    /// It may go on.
    pub freed: AtomicBool,
    /// It went on before it was told to.
    pub late: AtomicBool,
    /// The hub is being closed.
    pub closing: AtomicBool,
}

impl Flags {
    pub fn new() -> Flags {
        Flags {
            armed: AtomicBool::new(false),
            held: AtomicBool::new(false),
            freed: AtomicBool::new(false),
            late: AtomicBool::new(false),
            closing: AtomicBool::new(false),
        }
    }

    /// Tells that the caller is held, and waits until it may go on.
    fn hold<R: Clock>(&self, rt: &R) {
        self.held.store(true, Ordering::SeqCst);
        if !await_flag(rt, &self.freed) {
            self.late.store(true, Ordering::SeqCst);
        }
    }
}

/// Whether the flag is set within 10,000 turns of a millisecond.
pub fn await_flag<R: Clock>(rt: &R, flag: &AtomicBool) -> bool {
    for _ in 0..10_000 {
        if flag.load(Ordering::SeqCst) {
            return true;
        }
        rt.sleep(Duration::from_millis(1));
    }
    false
}

/// Passes all calls on. The first sync once it is armed is held.
#[derive(Drop)]
pub struct SlowDevice<'a, R: Clock, D: Device> {
    pub rt: &'a R,
    pub flags: &'a Flags,
    pub inner: D,
}

impl<R: Clock, D: Device> Device for SlowDevice<'_, R, D> {
    ghost disk = { λ device. D.Device.disk device.inner };

    ghost clock = { λ device. D.Device.clock device.inner };

    ghost left_since = { λ device. D.Device.left_since device.inner };

    ghost count = { λ device. D.Device.count device.inner };

    ghost reach = { λ device. D.Device.reach device.inner };

    ghost may_stay = { λ device. D.Device.may_stay device.inner };

    ghost counts_now = { λ device. D.Device.counts_now device.inner };

    ghost only_now = { λ device. D.Device.only_now device.inner };

    fn size(&self) -> u64 {
        self.inner.size()
    }

    fn failures(&self) -> u64 {
        self.inner.failures()
    }

    fn cause(&self) -> Option<SystemFault> {
        self.inner.cause()
    }

    fn read_at(&mut self, off: u64, buf: &mut [u8]) -> Result<(), DeviceFault> {
        self.inner.read_at(off, buf)
    }

    fn write_at(&mut self, off: u64, bytes: &[u8]) -> Result<(), DeviceFault> {
        self.inner.write_at(off, bytes)
    }

    fn sync(&mut self) -> Result<(), DeviceFault> {
        if self.flags.armed.swap(false, Ordering::SeqCst) {
            self.flags.hold(self.rt);
        }
        self.inner.sync()
    }
}

/// Holds each round but the first.
#[derive(Drop)]
pub struct HeldGate<'a, R: Clock> {
    pub rt: &'a R,
    pub flags: &'a Flags,
}

impl<R: Clock> Gate for HeldGate<'_, R> {
    fn before_commit(&mut self, first: u64, _count: usize) {
        if first > 0 {
            self.flags.hold(self.rt);
        }
    }
}
