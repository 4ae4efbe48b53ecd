// What a stop may bring back.
ghost use Rattle.std.specs.Prelude.{◌≡◌, ◌⊎◌, ◌+◌, ◌<◌, ◌≤◌, ◌↔◌, ℕ, true, false, length, slice_index, IfOk, IsTrue, List};
ghost use Rattle.disk_model.specs.Old.{is_stamped, old_byte};

use std::alloc::{AllocError, Global};

/// What was stable at the last sync, as far as it was written over since: the old byte of each byte that was written,
/// and the old end.
#[derive(Drop)]
pub(crate) struct Shadow {
    // The old bytes, where the stamp is that of this stretch.
    pub(crate) bytes: Vec<u8>,
    // The stretch between two syncs in which a byte was last written. So the next stretch forgets all by its number.
    pub(crate) stamps: Vec<u32>,
    pub(crate) stretch: u32,
    pub(crate) size: usize,
    ghost same: { length stamps.items ≡ length bytes.items },
    ghost counted: { 0 < stretch },
    ghost bounded: { (i : ℕ) → slice_index stamps.items i ≤ stretch },
}

// Stamps the bytes of a range, and keeps what is there now of those that had no stamp of this stretch.
fn save(stamps: &mut Vec<u32>, bytes: &mut Vec<u8>, stretch: u32, now: &[u8], at: usize, end: usize)
    requires order { at ≤ end }
    requires same { length stamps.old.items ≡ length bytes.old.items }
    requires all { length now.now ≡ length bytes.old.items }
    requires room { end ≤ length bytes.old.items }
    ensures stamps_len { length stamps.new.items ≡ length stamps.old.items }
    ensures bytes_len { length bytes.new.items ≡ length bytes.old.items }
    ensures inside { (i : ℕ) → at ≤ i → i < end → slice_index stamps.new.items i ≡ stretch }
    ensures outside { (i : ℕ) → (i < at) ⊎ (end ≤ i) → slice_index stamps.new.items i ≡ slice_index stamps.old.items i }
    ensures kept { (i : ℕ) → old_byte stamps.new.items stretch bytes.new.items now.now i ≡ old_byte stamps.old.items stretch bytes.old.items now.now i }
{
    for i in at..end {
        if stamps[i] != stretch {
            stamps[i] = stretch;
            bytes[i] = now[i];
        }
    }
}

// Gives each stamped byte back what it was.
pub(crate) fn put_back(bytes: &mut Vec<u8>, stamps: &[u32], stretch: u32, old: &[u8])
    requires stamped { length stamps.now ≡ length bytes.old.items }
    requires same { length old.now ≡ length bytes.old.items }
    ensures len { length bytes.new.items ≡ length bytes.old.items }
    ensures value { (i : ℕ) → i < length bytes.old.items → slice_index bytes.new.items i ≡ old_byte stamps.now stretch old.now bytes.old.items i }
{
    for i in 0..bytes.len() {
        if stamps[i] == stretch {
            bytes[i] = old[i];
        }
    }
}

// Gives each stamped byte below the end this value.
pub(crate) fn fill(bytes: &mut Vec<u8>, end: usize, stamps: &[u32], stretch: u32, byte: u8)
    requires stamped { length stamps.now ≡ length bytes.old.items }
    requires room { end ≤ length bytes.old.items }
    ensures len { length bytes.new.items ≡ length bytes.old.items }
    ensures stamped { (i : ℕ) → i < end → is_stamped stamps.now stretch i ≡ true → slice_index bytes.new.items i ≡ byte }
    ensures others { (i : ℕ) → is_stamped stamps.now stretch i ≡ false → slice_index bytes.new.items i ≡ slice_index bytes.old.items i }
    ensures behind { (i : ℕ) → end ≤ i → slice_index bytes.new.items i ≡ slice_index bytes.old.items i }
{
    for i in 0..end {
        if stamps[i] == stretch {
            bytes[i] = byte;
        }
    }
}

impl Shadow {
    ghost use Rattle.disk_model.specs.Shadow.{room_of, is_written, byte_before};

    /// Nothing was written, and nothing is stable.
    pub(crate) fn new(alloc: Global, limit: usize) -> Result<Shadow, AllocError>
        ensures limit { IfOk result (λ shadow. room_of shadow ≡ limit) }
        ensures size { IfOk result (λ shadow. shadow.size ≡ 0) }
        ensures none { IfOk result (λ shadow. (i : ℕ) → is_written shadow i ≡ false) }
    {
        Ok(Shadow {
            bytes: vec![in alloc; 0; limit]?,
            stamps: vec![in alloc; 0; limit]?,
            stretch: 1,
            size: 0,
        })
    }

    /// These bytes are written next, where `now` are all bytes that are there.
    pub(crate) fn note(&mut self, now: &[u8], at: usize, end: usize)
        requires order { at ≤ end }
        requires all { length now.now ≡ room_of self.old }
        requires room { end ≤ room_of self.old }
        ensures limit { room_of self.new ≡ room_of self.old }
        ensures size { self.new.size ≡ self.old.size }
        ensures inside { (i : ℕ) → at ≤ i → i < end → is_written self.new i ≡ true }
        ensures outside { (i : ℕ) → (i < at) ⊎ (end ≤ i) → is_written self.new i ≡ is_written self.old i }
        ensures kept { (i : ℕ) → byte_before self.new now.now i ≡ byte_before self.old now.now i }
    {
        save(
            &mut self.stamps,
            &mut self.bytes,
            self.stretch,
            now,
            at,
            end,
        );
    }

    /// All is stable now, to this end.
    pub(crate) fn forget(&mut self, size: usize)
        ensures limit { room_of self.new ≡ room_of self.old }
        ensures size { self.new.size ≡ size }
        ensures none { (i : ℕ) → is_written self.new i ≡ false }
    {
        self.size = size;
        if self.stretch == u32::MAX {
            self.stamps.fill(0);
            self.stretch = 0;
        }
        self.stretch += 1;
    }
}
