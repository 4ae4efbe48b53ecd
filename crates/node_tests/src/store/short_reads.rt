// A device that reads a little at a time.
ghost use Rattle.std.specs.Prelude.{◌+◌, ◌-◌, ◌^◌, min, false};

use disk_model::{Device, DeviceFault, SystemFault};

/// How many bytes it reads at once, at most.
pub const MOST: usize = 4096;

/// Fails each longer read, and passes all other calls on.
#[derive(Drop)]
pub struct ShortReads<D: Device> {
    pub inner: D,
    pub faults: u64,
}

impl<D: Device> Device for ShortReads<D> {
    ghost disk = { λ device. D.Device.disk device.inner };

    ghost clock = { λ device. D.Device.clock device.inner };

    ghost left_since = { λ device. D.Device.left_since device.inner };

    ghost count = { λ device. min (D.Device.count device.inner + device.faults) (2 ^ 64 - 1) };

    ghost reach = { λ device. record { limit = 0; reliable = false } };

    ghost may_stay = { λ device. D.Device.may_stay device.inner };

    ghost counts_now = { λ device. D.Device.counts_now device.inner };

    ghost only_now = { λ device. D.Device.only_now device.inner };

    fn size(&self) -> u64 {
        self.inner.size()
    }

    fn failures(&self) -> u64 {
        self.inner.failures().saturating_add(self.faults)
    }

    fn cause(&self) -> Option<SystemFault> {
        self.inner.cause()
    }

    fn read_at(&mut self, off: u64, buf: &mut [u8]) -> Result<(), DeviceFault> {
        if buf.len() > MOST {
            self.faults = self.faults.saturating_add(1);
            return Err(DeviceFault);
        }
        self.inner.read_at(off, buf)
    }

    fn write_at(&mut self, off: u64, bytes: &[u8]) -> Result<(), DeviceFault> {
        self.inner.write_at(off, bytes)
    }

    fn sync(&mut self) -> Result<(), DeviceFault> {
        self.inner.sync()
    }
}
