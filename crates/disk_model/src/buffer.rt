// A device's bytes in memory.
ghost use Rattle.std.specs.Prelude.{◌≡◌, ◌↔◌, ◌⊎◌, ◌+◌, ◌^◌, ◌<◌, ◌≤◌, ◌++◌, ◌∷◌, [], ℕ, min, max, length, take, drop, true, false, slice_index, IfOk, OnOk, OnErr, IsOk};
ghost use Rattle.disk_model.specs.Disk.{IsTorn, IsOutside};
ghost use Rattle.disk_model.specs.Synced.{with_image};
ghost use Rattle.disk_model.specs.Calls.{IsUnsynced, IsPart, Puts, Unsyncs, Fills, Elapses, HasCause, IsInReach};
ghost use Rattle.disk_model.specs.Shadow.{room_of, is_written, byte_before};

use crate::history::History;
use crate::shadow::{Shadow, fill, put_back};
use crate::{Device, DeviceFault, SystemFault};
use std::alloc::{AllocError, Global};

/// A device whose bytes are kept in memory that was taken once. A call that ends past that memory is a fault; no other
/// call fails.
#[derive(Drop)]
pub(crate) struct Buffer {
    // All the memory. Behind the first `size` bytes it is zeros.
    bytes: Vec<u8>,
    size: usize,
    faults: u64,
    history: History,
    ghost fits: { size ≤ length bytes.items },
    ghost blank: { (i : ℕ) → size ≤ i → slice_index bytes.items i ≡ 0 },
    ghost torn: { IsTorn history.stable history.ranges (take size bytes.items) },
}

// Where a range begins in so much memory, or a fault, which is counted.
fn place(limit: usize, off: u64, len: usize, faults: &mut u64) -> Result<usize, DeviceFault>
    ensures ok { IfOk result (λ at. (at ≡ off) × (at + len ≤ limit)) }
    ensures limit { IsOk result ↔ (off + len ≤ limit) }
    ensures cause { HasCause faults.old faults.new result }
{
    if off <= limit as u64 {
        let at = off as usize;
        if len <= limit - at {
            return Ok(at);
        }
    }
    *faults = faults.saturating_add(1);
    Err(DeviceFault)
}

// Puts the piece at its place in the memory.
fn overwrite(bytes: &mut Vec<u8>, at: usize, piece: &[u8])
    requires { at + length piece.now ≤ length bytes.old.items }
    ensures { bytes.new.items ≡ take at bytes.old.items ++ piece.now ++ drop (at + length piece.now) bytes.old.items }
{
    bytes[at..at + piece.len()].copy_from_slice(piece);
}

// The end, once so many bytes stand at this place.
fn end_with(size: usize, at: usize, len: usize) -> usize
    requires { at + len < 2 ^ 64 }
    ensures some { 0 < len → result ≡ max size (at + len) }
    ensures none { len ≡ 0 → result ≡ size }
{
    if len == 0 { size } else { size.max(at + len) }
}

impl Buffer {
    ghost use Rattle.disk_model.specs.Buffer.{disk_of, limit_of, count_of, past_of};

    /// An empty device, with this much memory for it.
    pub(crate) fn new(alloc: Global, limit: usize) -> Result<Buffer, AllocError>
        ensures empty { IfOk result (λ buffer. disk_of buffer ≡ record { image = []; stable = []; ranges = [] }) }
        ensures limit { IfOk result (λ buffer. limit_of buffer ≡ limit) }
        ensures count { IfOk result (λ buffer. count_of buffer ≡ 0) }
    {
        Ok(Buffer {
            bytes: vec![in alloc; 0; limit]?,
            size: 0,
            faults: 0,
            history: History::new(),
        })
    }

    /// How many bytes it can hold.
    pub(crate) fn limit(&self) -> usize
        ensures { result ≡ limit_of self.now }
    {
        self.bytes.len()
    }

    /// All the memory: the bytes that a read gives, and zeros behind them.
    pub(crate) fn memory(&self) -> &[u8]
        ensures len { length result.now ≡ limit_of self.now }
        ensures value { (i : ℕ) → slice_index result.now i ≡ slice_index (disk_of self.now).image i }
    {
        &self.bytes
    }

    /// A stop takes back all that was written since the last sync. The shadow is of this device's writes.
    pub(crate) fn take_back(&mut self, shadow: &Shadow)
        requires room { room_of shadow.now ≡ limit_of self.old }
        requires size { shadow.now.size ≡ length (disk_of self.old).stable }
        requires before { (i : ℕ) → byte_before shadow.now (disk_of self.old).image i ≡ slice_index (disk_of self.old).stable i }
        ensures disk { disk_of self.new ≡ with_image (disk_of self.old) (disk_of self.old).stable }
        ensures limit { limit_of self.new ≡ limit_of self.old }
        ensures count { count_of self.new ≡ count_of self.old }
        ensures past { past_of self.new ≡ past_of self.old }
    {
        put_back(
            &mut self.bytes,
            &shadow.stamps,
            shadow.stretch,
            &shadow.bytes,
        );
        self.size = shadow.size;
    }

    /// A stop leaves this byte in place of each unsynced one. The shadow is of this device's writes.
    pub(crate) fn fill(&mut self, shadow: &Shadow, byte: u8)
        requires room { room_of shadow.now ≡ limit_of self.old }
        requires clean { (i : ℕ) → i < length (disk_of self.old).stable → IsOutside (disk_of self.old).ranges i → is_written shadow.now i ≡ false }
        requires marked { (i : ℕ) → i < length (disk_of self.old).image → IsUnsynced (disk_of self.old) i → is_written shadow.now i ≡ true }
        ensures others { (i : ℕ) → is_written shadow.now i ≡ false → slice_index (disk_of self.new).image i ≡ slice_index (disk_of self.old).image i }
        ensures fills { Fills byte (disk_of self.old) (disk_of self.new).image }
        ensures disk { disk_of self.new ≡ with_image (disk_of self.old) (disk_of self.new).image }
        ensures limit { limit_of self.new ≡ limit_of self.old }
        ensures count { count_of self.new ≡ count_of self.old }
        ensures past { past_of self.new ≡ past_of self.old }
    {
        fill(
            &mut self.bytes,
            self.size,
            &shadow.stamps,
            shadow.stretch,
            byte,
        );
    }
}

impl Device for Buffer {
    ghost use Rattle.disk_model.specs.Buffer.{disk_of, limit_of, reach_of, count_of, past_count, left_since};
    ghost use Rattle.disk_model.specs.Stretches.{same_now, still_now};

    ghost disk = { disk_of };

    ghost clock = { past_count };

    ghost left_since = { left_since };

    ghost count = { count_of };

    ghost reach = { reach_of };

    ghost may_stay = { λ buffer. buffer.torn };

    ghost counts_now = { λ buffer t image le now. same_now buffer.history.past (disk_of buffer) t image now };

    ghost only_now = { λ buffer image left. still_now buffer.history.past (disk_of buffer) image left };

    fn size(&self) -> u64 {
        self.size as u64
    }

    fn failures(&self) -> u64 {
        self.faults
    }

    fn cause(&self) -> Option<SystemFault> {
        None
    }

    fn read_at(&mut self, off: u64, buf: &mut [u8]) -> Result<(), DeviceFault>
        ensures read { OnOk result (IsPart off buf.new (disk_of self.old).image) }
        ensures disk { disk_of self.new ≡ disk_of self.old }
        ensures time { Elapses (past_count self.old) (past_count self.new) (left_since self.old) (left_since self.new) (disk_of self.new) }
        ensures cause { HasCause (count_of self.old) (count_of self.new) result }
        ensures reach { IsInReach (off + length buf.old) (reach_of self.old) (reach_of self.new) result }
        ensures limit { IsOk result ↔ (off + length buf.old ≤ limit_of self.old) }
    {
        let at = place(self.bytes.len(), off, buf.len(), &mut self.faults)?;
        buf.copy_from_slice(&self.bytes[at..at + buf.len()]);
        Ok(())
    }

    fn write_at(&mut self, off: u64, bytes: &[u8]) -> Result<(), DeviceFault>
        ensures written { OnOk result (Puts off bytes.now (disk_of self.old).image (disk_of self.new).image) }
        ensures disk { Unsyncs off (length bytes.now) (disk_of self.old) (disk_of self.new) }
        ensures time { Elapses (past_count self.old) (past_count self.new) (left_since self.old) (left_since self.new) (disk_of self.new) }
        ensures cause { HasCause (count_of self.old) (count_of self.new) result }
        ensures reach { IsInReach (off + length bytes.now) (reach_of self.old) (reach_of self.new) result }
        ensures limit { IsOk result ↔ (off + length bytes.now ≤ limit_of self.old) }

        ensures err { OnErr result ((disk_of self.new).image ≡ (disk_of self.old).image) }
        ensures end { length (disk_of self.new).image ≤ max (length (disk_of self.old).image) (min (off + length bytes.now) (limit_of self.old)) }

        // At a fault too.
        ensures elsewhere { (i : ℕ) → (i < off) ⊎ (min (off + length bytes.now) (limit_of self.old) ≤ i) → slice_index (disk_of self.new).image i ≡ slice_index (disk_of self.old).image i }
    {
        self.history = History::with_write(&self.history, &off, bytes);
        let at = place(self.bytes.len(), off, bytes.len(), &mut self.faults)?;
        overwrite(&mut self.bytes, at, bytes);
        self.size = end_with(self.size, at, bytes.len());
        Ok(())
    }

    fn sync(&mut self) -> Result<(), DeviceFault> {
        self.history = History::with_sync(&self.history, &self.bytes[..self.size]);
        Ok(())
    }
}
