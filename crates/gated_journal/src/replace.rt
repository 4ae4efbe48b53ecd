//! The six device calls of a checkpoint.
ghost use Rattle.std.specs.Prelude.{◌≡◌, ◌+◌, ◌≤◌, ◌<◌, ◌^◌, ℕ, List, length, OnOk};
ghost use Rattle.disk_model.specs.Disk.{LeavesOnly};
ghost use Rattle.disk_model.specs.Synced.{IsSynced};
ghost use Rattle.disk_model.specs.Calls.{HasCause, IsInReach};
ghost use Rattle.ring_records.specs.declared.summary.Summary.{Summary};
ghost use Rattle.ring_records.specs.Admission.{epochs, newest};
ghost use Rattle.ring_records.specs.Member.{Member};
ghost use Rattle.ring_records.specs.Snapshot.{Spells, snapshot_of, snapshot_len};
ghost use Rattle.gated_journal.specs.Areas.{ReadsAt, head_len};
ghost use Rattle.gated_journal.specs.AreaWritten.{ReadsAtOneOf, IsGate, leaves_closed, IsStaged, MayReplace, new_area};
ghost use Rattle.gated_journal.specs.Reading.{Reading, fresh_area};

use disk_model::{Device, DeviceFault, write_through};

/// Closes the area at `other`, which is not in use, and writes a new one behind its gate. A gate that is closed already
/// is left alone, since a write over it might open what an earlier checkpoint has left there: the layout behind it is
/// overwritten.
pub(crate) fn write_area<D: Device>(
    device: &mut D,
    other: u64,
    is_closed: bool,
    bytes: &[u8],
) -> Result<(), DeviceFault>
    requires fits { other + 1 + length bytes.now < 2 ^ 64 }
    requires some { 0 < length bytes.now }
    // A stop at any moment of the call leaves what is read as it is.
    ensures any_moment { (header : Member) (r : Reading) (start offset gate_at : ℕ) → IsSynced (D.disk device.old) → ReadsAt header (D.disk device.old).image r start other offset gate_at
        → IsGate is_closed other (D.disk device.old).image → length bytes.now ≤ head_len + header.capacity
        → LeavesOnly D.clock D.left_since device.old device.new (λ image. ReadsAt header image r start other offset gate_at) }
    ensures done { OnOk result ((header : Member) (r : Reading) (start offset gate_at : ℕ) → ReadsAt header (D.disk device.old).image r start other offset gate_at
        → IsGate is_closed other (D.disk device.old).image → length bytes.now ≤ head_len + header.capacity → ReadsAt header (D.disk device.new).image r start other offset gate_at) }

    // At Ok the new area stands there, whole.
    ensures staged { OnOk result ((n epoch : ℕ) (s : Summary) → bytes.now ≡ new_area newest epoch s → epoch < epochs
        → snapshot_len newest s < 2 ^ 32 → Spells newest n (snapshot_of newest s) s
        → IsStaged n other (D.disk device.new).image (fresh_area newest epoch s) (other + head_len + snapshot_len newest s)) }
    ensures synced { OnOk result (IsSynced (D.disk device.new)) }
    ensures cause { HasCause (D.count device.old) (D.count device.new) result }
    ensures reach { IsInReach (other + 1 + length bytes.now) (D.reach device.old) (D.reach device.new) result }
{
    let first = if is_closed { other + 1 } else { other };
    write_through(device, first, &[0])?;
    write_through(device, other + 1, bytes)
}

/// Opens the area at `other`, which is the one that is read then.
pub(crate) fn open_area<D: Device>(device: &mut D, other: u64) -> Result<(), DeviceFault>
    // A stop at any moment of the call leaves what was read before, or the new area.
    ensures any_moment { (header : Member) (old r : Reading) (start offset gate_at next : ℕ) → IsSynced (D.disk device.old)
        → ReadsAt header (D.disk device.old).image old start other offset gate_at
        → IsStaged header.n other (D.disk device.old).image r next → next ≤ other + head_len + header.capacity → old.epoch < r.epoch
        → LeavesOnly D.clock D.left_since device.old device.new (ReadsAtOneOf header old start other offset gate_at r next) }
    ensures done { OnOk result ((header : Member) (old r : Reading) (start offset gate_at next : ℕ) → ReadsAt header (D.disk device.old).image old start other offset gate_at
        → IsStaged header.n other (D.disk device.old).image r next → next ≤ other + head_len + header.capacity → old.epoch < r.epoch
        → ReadsAt header (D.disk device.new).image r other start next next × IsGate (leaves_closed old.layout start gate_at) start (D.disk device.new).image) }
    ensures synced { OnOk result (IsSynced (D.disk device.new)) }
    ensures cause { HasCause (D.count device.old) (D.count device.new) result }
    ensures reach { IsInReach (other + 1) (D.reach device.old) (D.reach device.new) result }
{
    write_through(device, other, &[1])
}

/// Replaces all that is read by the new area at `other`.
pub(crate) fn replace_area<D: Device>(
    device: &mut D,
    other: u64,
    is_closed: bool,
    bytes: &[u8],
) -> Result<(), DeviceFault>
    requires fits { other + 1 + length bytes.now < 2 ^ 64 }
    requires some { 0 < length bytes.now }
    // A stop at any moment of the call leaves what was read before, or the new area.
    ensures any_moment { (header : Member) (old : Reading) (start offset gate_at epoch : ℕ) (s : Summary) → IsSynced (D.disk device.old)
        → MayReplace header (D.disk device.old).image old start other offset gate_at is_closed epoch s → bytes.now ≡ new_area newest epoch s
        → LeavesOnly D.clock D.left_since device.old device.new (ReadsAtOneOf header old start other offset gate_at (fresh_area newest epoch s) (other + head_len + snapshot_len newest s)) }
    ensures done { OnOk result ((header : Member) (old : Reading) (start offset gate_at epoch : ℕ) (s : Summary)
        → MayReplace header (D.disk device.old).image old start other offset gate_at is_closed epoch s → bytes.now ≡ new_area newest epoch s
        → ReadsAt header (D.disk device.new).image (fresh_area newest epoch s) other start (other + head_len + snapshot_len newest s) (other + head_len + snapshot_len newest s)
        × IsGate (leaves_closed old.layout start gate_at) start (D.disk device.new).image) }
    ensures synced { OnOk result (IsSynced (D.disk device.new)) }
    ensures cause { HasCause (D.count device.old) (D.count device.new) result }
    ensures reach { IsInReach (other + 1 + length bytes.now) (D.reach device.old) (D.reach device.new) result }
{
    write_area(device, other, is_closed, bytes)?;
    open_area(device, other)
}
