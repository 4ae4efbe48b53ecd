// The step that durable parts are made of.
ghost use Rattle.std.specs.Prelude.{◌≡◌, ◌+◌, ◌++◌, ◌∷◌, [], length, OnOk};
ghost use Rattle.disk_model.specs.Disk.{IsTorn, LeavesOnly};
ghost use Rattle.disk_model.specs.Synced.{IsSynced};
ghost use Rattle.disk_model.specs.Calls.{Puts, HasCause, IsInReach};

use crate::{Device, DeviceFault};

/// Writes the bytes from `off` on and syncs: at Ok they are stable. A stop at any moment of the call leaves what it
/// might have left before, torn in this range.
pub fn write_through<D: Device>(device: &mut D, off: u64, bytes: &[u8]) -> Result<(), DeviceFault>
    ensures written { OnOk result (Puts off bytes.now (D.disk device.old).image (D.disk device.new).image) }
    ensures synced { OnOk result (IsSynced (D.disk device.new)) }
    ensures any_moment { LeavesOnly D.clock D.left_since device.old device.new
        (IsTorn (D.disk device.old).stable ((D.disk device.old).ranges ++ (off, length bytes.now) ∷ [])) }
    ensures cause { HasCause (D.count device.old) (D.count device.new) result }
    ensures reach { IsInReach (off + length bytes.now) (D.reach device.old) (D.reach device.new) result }
{
    device.write_at(off, bytes)?;
    device.sync()
}
