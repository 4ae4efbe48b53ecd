// A device in memory, for tests and simulations.
ghost use Rattle.std.specs.Prelude.{◌≡◌, ◌↔◌, ◌+◌, ◌<◌, ◌≤◌, [], ℕ, List, length, true, false, slice_index, IsOk, IfOk, OnOk, OnErr};
ghost use Rattle.disk_model.specs.Disk.{MayLeave, IsOutside};
ghost use Rattle.disk_model.specs.Synced.{with_image};
ghost use Rattle.disk_model.specs.Calls.{IsUnsynced, IsPart, Puts, Unsyncs, Fills, Elapses, HasCause, IsInReach};
ghost use Rattle.disk_model.specs.Buffer as buffer;
ghost use Rattle.disk_model.specs.Shadow.{is_written, byte_before};

use crate::buffer::Buffer;
use crate::shadow::Shadow;
use crate::{Device, DeviceFault, SystemFault};
use std::alloc::{AllocError, Global};

/// What a stop makes of the ranges written since the last sync that succeeded.
#[derive(Clone, Copy, PartialEq, Eq)]
pub enum Tear {
    /// They get their old bytes, and the device its old end: no write took effect.
    Old,
    /// They stay: all writes took effect.
    New,
    /// Each of their bytes up to the new end becomes this one, and so does a gap behind the old end.
    Fill(u8),
}

/// A device in memory, empty at first. It takes all its memory when it is made. A read or write that ends past its
/// limit is a fault; no other call fails.
#[derive(Drop)]
pub struct MemDevice {
    held: Buffer,
    shadow: Shadow,
    ghost same: { length shadow.bytes.items ≡ length held.bytes.items },
    ghost end: { shadow.size ≡ length held.history.stable },
    ghost clean: { (i : ℕ) → i < length held.history.stable → IsOutside held.history.ranges i → is_written shadow i ≡ false },
    ghost marked: { (i : ℕ) → i < length (buffer.disk_of held).image → IsUnsynced (buffer.disk_of held) i → is_written shadow i ≡ true },
    ghost before: { (i : ℕ) → byte_before shadow (buffer.disk_of held).image i ≡ slice_index held.history.stable i },
}

impl MemDevice {
    ghost use Rattle.disk_model.specs.MemDevice.{disk_of, limit_of, count_of, past_count, left_since};

    /// A device of at most `limit` bytes.
    pub fn new(alloc: Global, limit: usize) -> Result<MemDevice, AllocError>
        ensures empty { IfOk result (λ device. disk_of device ≡ record { image = []; stable = []; ranges = [] }) }
        ensures limit { IfOk result (λ device. limit_of device ≡ limit) }
        ensures count { IfOk result (λ device. count_of device ≡ 0) }
    {
        let held = Buffer::new(alloc, limit)?;
        let shadow = Shadow::new(alloc, limit)?;
        Ok(MemDevice { held, shadow })
    }

    /// What the stop leaves is what is read from now on. It may be torn again until a sync.
    pub fn crash(&mut self, tear: Tear)
        ensures left { MayLeave (disk_of self.old) (disk_of self.new).image }
        ensures old { tear ≡ Tear.Old → (disk_of self.new).image ≡ (disk_of self.old).stable }
        ensures new { tear ≡ Tear.New → (disk_of self.new).image ≡ (disk_of self.old).image }
        ensures fill { (byte : ℕ) → tear ≡ Tear.Fill byte → Fills byte (disk_of self.old) (disk_of self.new).image }
        ensures disk { disk_of self.new ≡ with_image (disk_of self.old) (disk_of self.new).image }
        ensures limit { limit_of self.new ≡ limit_of self.old }
        ensures count { count_of self.new ≡ count_of self.old }
        ensures clock { past_count self.new ≡ past_count self.old }
        ensures since { (t : ℕ) (image : List ℕ) → left_since self.new t image ↔ left_since self.old t image }
    {
        match tear {
            Tear::Old => self.held.take_back(&self.shadow),
            Tear::New => {}
            Tear::Fill(byte) => self.held.fill(&self.shadow, byte),
        }
    }
}

impl Device for MemDevice {
    ghost use Rattle.disk_model.specs.MemDevice.{disk_of, limit_of, reach_of, count_of, past_count, left_since};
    ghost use Rattle.disk_model.specs.Stretches.{same_now, still_now};

    ghost disk = { disk_of };

    ghost clock = { past_count };

    ghost left_since = { left_since };

    ghost count = { count_of };

    ghost reach = { reach_of };

    ghost may_stay = { λ device. device.held.torn };

    ghost counts_now = { λ device t image le now. same_now device.held.history.past (disk_of device) t image now };

    ghost only_now = { λ device image left. still_now device.held.history.past (disk_of device) image left };

    fn size(&self) -> u64 {
        self.held.size()
    }

    fn failures(&self) -> u64 {
        self.held.failures()
    }

    fn cause(&self) -> Option<SystemFault> {
        None
    }

    fn read_at(&mut self, off: u64, buf: &mut [u8]) -> Result<(), DeviceFault>
        ensures read { OnOk result (IsPart off buf.new (disk_of self.old).image) }
        ensures disk { disk_of self.new ≡ disk_of self.old }
        ensures time { Elapses (past_count self.old) (past_count self.new) (left_since self.old) (left_since self.new) (disk_of self.new) }
        ensures cause { HasCause (count_of self.old) (count_of self.new) result }
        ensures reach { IsInReach (off + length buf.old) (reach_of self.old) (reach_of self.new) result }
        ensures limit { IsOk result ↔ (off + length buf.old ≤ limit_of self.old) }
    {
        self.held.read_at(off, buf)
    }

    fn write_at(&mut self, off: u64, bytes: &[u8]) -> Result<(), DeviceFault>
        ensures written { OnOk result (Puts off bytes.now (disk_of self.old).image (disk_of self.new).image) }
        ensures disk { Unsyncs off (length bytes.now) (disk_of self.old) (disk_of self.new) }
        ensures time { Elapses (past_count self.old) (past_count self.new) (left_since self.old) (left_since self.new) (disk_of self.new) }
        ensures cause { HasCause (count_of self.old) (count_of self.new) result }
        ensures reach { IsInReach (off + length bytes.now) (reach_of self.old) (reach_of self.new) result }
        ensures limit { IsOk result ↔ (off + length bytes.now ≤ limit_of self.old) }
        ensures err { OnErr result ((disk_of self.new).image ≡ (disk_of self.old).image) }
    {
        let limit = self.held.limit();
        let at = off.min(limit as u64) as usize;
        let end = at + bytes.len().min(limit - at);
        // A gap behind the old end is unsynced with the range.
        let from = at.min(self.held.size() as usize);
        self.shadow.note(self.held.memory(), from, end);
        self.held.write_at(off, bytes)
    }

    fn sync(&mut self) -> Result<(), DeviceFault> {
        self.held.sync()?;
        self.shadow.forget(self.held.size() as usize);
        Ok(())
    }
}
