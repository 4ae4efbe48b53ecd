//! A new device of two areas.
ghost use Rattle.std.specs.Prelude.{◌≡◌, ◌+◌, ◌*◌, true, IfOk, OnOk};
ghost use Rattle.disk_model.specs.Synced.{IsSynced};
ghost use Rattle.disk_model.specs.Calls.{HasCause, IsInReach};
ghost use Rattle.ring_records.specs.Admission.{newest};
ghost use Rattle.ring_records.specs.Member.{member};
ghost use Rattle.ring_records.specs.Summary.{empty};
ghost use Rattle.gated_journal.specs.Areas.{area_a, area_b, ReadsAt};
ghost use Rattle.gated_journal.specs.AreaWritten.{new_areas, IsGate};
ghost use Rattle.gated_journal.specs.Reading.{device_size, fresh_area, is_header};

use crate::layout::area_b;
use disk_model::{Device, DeviceFault};
use ring_records::NodeNo;

// A header, and area A with the snapshot of a node without inputs.
fn new_areas(node: NodeNo, n: u8, capacity: u32) -> [u8; 73]
    ensures { result ≡ new_areas (member node n capacity) }
{
    let c = capacity.to_be_bytes();
    let node = node.number();
    [
        b'C', b'R', b'J', b'R', b'N', b'L', b'0', b'2', node, n, c[0], c[1], c[2], c[3], 0, 0, 1,
        3, 0, 0, 0, 0, 0, 0, 0, 1, 0, 0, 0, 42, 0, 0, 0, 0, 0, 0, 0, 0, 0, 0, 0, 0, 0, 0, 0, 0, 0,
        0, 0, 0, 0, 0, 0, 0, 0, 0, 0, 0, 0, 0, 0, 0, 0, 0, 0, 0, 0, 0, 0, 0, 0, 0, 0,
    ]
}

/// Writes a journal without inputs, and tells whether the gate of area B is there; then it is closed, so that no area
/// of an earlier journal counts.
pub(crate) fn lay_out<D: Device>(
    device: &mut D,
    node: NodeNo,
    n: u8,
    capacity: u32,
) -> Result<bool, DeviceFault>
    requires range { is_header (member node n capacity) ≡ true }
    ensures reads { OnOk result (ReadsAt (member node n capacity) (D.disk device.new).image (fresh_area newest 1 empty) area_a (area_b capacity) 72 72) }
    ensures gate { IfOk result (λ is_closed. IsGate is_closed (area_b capacity) (D.disk device.new).image) }
    ensures synced { OnOk result (IsSynced (D.disk device.new)) }
    ensures cause { HasCause (D.count device.old) (D.count device.new) result }
    ensures reach { IsInReach (device_size capacity) (D.reach device.old) (D.reach device.new) result }
{
    let second = area_b(capacity);
    let is_there = second < device.size();
    device.write_at(0, &new_areas(node, n, capacity))?;
    if is_there {
        device.write_at(second, &[0])?;
    }
    device.sync()?;
    Ok(is_there)
}
