//! The four device calls of a commit.
ghost use Rattle.std.specs.Prelude.{◌≡◌, ◌+◌, ◌++◌, ◌<◌, ◌^◌, ℕ, List, length, OnOk};
ghost use Rattle.disk_model.specs.Disk.{LeavesOnly};
ghost use Rattle.disk_model.specs.Synced.{IsSynced};
ghost use Rattle.disk_model.specs.Calls.{Changes, HasCause, IsInReach};
ghost use Rattle.ring_records.specs.declared.input.Input.{Input};
ghost use Rattle.gated_journal.specs.Frames.{ReadsTo};
ghost use Rattle.gated_journal.specs.AreaWritten.{IsFrame, Appends};

use disk_model::{Device, DeviceFault, write_through};

/// Writes a frame behind the closed gate at `gate_at`, and opens the gate once the frame is stable.
pub(crate) fn append<D: Device>(
    device: &mut D,
    gate_at: u64,
    bytes: &[u8],
) -> Result<(), DeviceFault>
    requires fits { gate_at + 1 + length bytes.now < 2 ^ 64 }
    ensures any_moment { (layout offset : ℕ) (inputs batch : List Input) → IsSynced (D.disk device.old) → ReadsTo layout offset (D.disk device.old).image inputs gate_at
        → IsFrame layout batch bytes.now
        → LeavesOnly D.clock D.left_since device.old device.new (Appends layout offset inputs batch gate_at (length bytes.now) (D.disk device.old).image) }
    ensures done { OnOk result ((layout offset : ℕ) (inputs batch : List Input) → IsSynced (D.disk device.old) → ReadsTo layout offset (D.disk device.old).image inputs gate_at
        → IsFrame layout batch bytes.now
        → ReadsTo layout offset (D.disk device.new).image (inputs ++ batch) (gate_at + length bytes.now)
        × Changes gate_at (1 + length bytes.now) (D.disk device.old).image (D.disk device.new).image) }
    ensures synced { OnOk result (IsSynced (D.disk device.new)) }
    ensures cause { HasCause (D.count device.old) (D.count device.new) result }
    ensures reach { IsInReach (gate_at + 1 + length bytes.now) (D.reach device.old) (D.reach device.new) result }
{
    write_through(device, gate_at + 1, bytes)?;
    write_through(device, gate_at, &[1])
}
