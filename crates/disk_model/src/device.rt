// What a device promises to those who write on it.
ghost use Rattle.std.specs.Prelude.{◌≡◌, ◌+◌, ◌≤◌, ℕ, List, length, OnOk, OnErr};
ghost use Rattle.disk_model.specs.Disk.{Disk, MayLeave, synced, Reach};
ghost use Rattle.disk_model.specs.Calls.{IsPart, Puts, Unsyncs, Elapses, HasCause, IsInReach};

use crate::system_fault::SystemFault;

/// A device's call failed. The device's count of failures tells of it.
#[derive(Clone, Copy, PartialEq, Eq)]
pub struct DeviceFault;

/// A device of bytes, from offset 0 to `size()`, that a stop may come upon at any moment, within a call too. What is
/// written is certain to outlive a stop only after a sync that succeeds.
pub trait Device {
    /// What a read gives, what is stable, and the ranges written since the last sync that succeeded.
    ghost disk: { Self → Disk };

    /// The moment, as a number that never falls.
    ghost clock: { Self → ℕ };

    /// The images that a stop at some moment from this one until now might have left, within a call or between two.
    ghost left_since: { Self → ℕ → List ℕ → Type 0 };

    /// How many calls have failed; 2^64 - 1 stands for more, too.
    ghost count: { Self → ℕ };

    /// How far it goes, and whether it is reliable: then no sync fails, and no read or write that ends at or below that.
    ghost reach: { Self → Reach };

    /// How many bytes a read gives: the device's end.
    fn size(&self) -> u64
        ensures { result ≡ length (disk self.now).image };

    /// How many calls have failed. At 2^64 - 1 it stays.
    fn failures(&self) -> u64
        ensures { result ≡ count self.now };

    /// What the system answered to the first call that failed, where that is known.
    fn cause(&self) -> Option<SystemFault>;

    /// Reads the bytes from `off` on into the whole of `buf`; past the device's end they are zeros. At a fault nothing
    /// is known of what `buf` holds.
    fn read_at(&mut self, off: u64, buf: &mut [u8]) -> Result<(), DeviceFault>
        ensures read { OnOk result (IsPart off buf.new (disk self.old).image) }
        ensures disk { disk self.new ≡ disk self.old }
        ensures time { Elapses (clock self.old) (clock self.new) (left_since self.old) (left_since self.new) (disk self.new) }
        ensures cause { HasCause (count self.old) (count self.new) result }
        ensures reach { IsInReach (off + length buf.old) (reach self.old) (reach self.new) result };

    /// Writes the bytes from `off` on. A gap behind the old end is filled with zeros. Until the next sync that succeeds
    /// a stop may leave any bytes in this range, also where the write fails, and past the old end.
    fn write_at(&mut self, off: u64, bytes: &[u8]) -> Result<(), DeviceFault>
        ensures written { OnOk result (Puts off bytes.now (disk self.old).image (disk self.new).image) }
        ensures disk { Unsyncs off (length bytes.now) (disk self.old) (disk self.new) }
        ensures time { Elapses (clock self.old) (clock self.new) (left_since self.old) (left_since self.new) (disk self.new) }
        ensures cause { HasCause (count self.old) (count self.new) result }
        ensures reach { IsInReach (off + length bytes.now) (reach self.old) (reach self.new) result };

    /// Makes all that a read gives stable: from then on a stop leaves it. A sync that fails makes nothing stable.
    fn sync(&mut self) -> Result<(), DeviceFault>
        ensures synced { OnOk result (disk self.new ≡ synced (disk self.old)) }
        ensures failed { OnErr result (disk self.new ≡ disk self.old) }
        ensures time { Elapses (clock self.old) (clock self.new) (left_since self.old) (left_since self.new) (disk self.new) }
        ensures cause { HasCause (count self.old) (count self.new) result }
        ensures reach { IsInReach 0 (reach self.old) (reach self.new) result };

    /// What a read gives is one of the images that a stop may leave.
    ghost may_stay: { (device : Self) → MayLeave (disk device) (disk device).image };

    /// This moment is one of those since an earlier one.
    ghost counts_now: { (device : Self) (t : ℕ) (image : List ℕ) → t ≤ clock device → MayLeave (disk device) image → left_since device t image };

    /// Since this moment there was no other.
    ghost only_now: { (device : Self) (image : List ℕ) → left_since device (clock device) image → MayLeave (disk device) image };
}
