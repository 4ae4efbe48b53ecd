//! Where a journal stands on its device, and how it comes to stand behind a work.
ghost use Rattle.std.specs.Prelude.{◌≡◌, ◌+◌, ◌≤◌, ◌^◌, length, OnOk};
ghost use Rattle.disk_model.specs.Disk.{LeavesOnly};
ghost use Rattle.disk_model.specs.Synced.{IsSynced};
ghost use Rattle.disk_model.specs.Calls.{HasCause, IsInReach};
ghost use Rattle.ring_records.specs.declared.limits.TheConstants.{GREATEST_CAPACITY, LEAST_CAPACITY};
ghost use Rattle.ring_records.specs.Admission.{costs_of};
ghost use Rattle.ring_records.specs.Member.{Member};
ghost use Rattle.gated_journal.specs.Areas.{head_len, AreAreas, ReadsAsOneOf};
ghost use Rattle.gated_journal.specs.Reading.{Reading, device_size};

use crate::area::{Chosen, leaves_closed};
use crate::checkpoint::number;
use crate::commit::append;
use crate::flown::Flown;
use crate::layout::LAYOUT;
use crate::replace::replace_area;
use crate::{Batch, Checkpoint, Work};
use disk_model::{Device, DeviceFault};
use ring_records::summary_len;

/// Where what a journal holds stands and ends.
#[derive(Drop)]
pub(crate) struct Place {
    pub(crate) capacity: u32,
    // the area in use, and where its closed gate is
    pub(crate) area: Chosen,
    pub(crate) gate_at: u64,
    // how many inputs there are, and the bytes of the capacity that they and the snapshot take
    pub(crate) count: u64,
    pub(crate) used: u64,
    ghost areas: { AreAreas capacity area.start area.other },
    ghost within: { gate_at ≤ area.start + head_len + used },
    ghost counted: { count ≤ 2 ^ 56 + used },
    ghost least: { LEAST_CAPACITY ≤ capacity },
    ghost small: { capacity ≤ GREATEST_CAPACITY },
}

impl Place {
    ghost use Rattle.gated_journal.specs.Batch.{kept_in};
    ghost use Rattle.gated_journal.specs.Place.{reading_behind, IsTakenAt, Stands};
    ghost use Rattle.gated_journal.specs.Works.{flown_by, summary_by};
    ghost use Rattle.gated_journal.specs.WorkTaken.{count_after, used_after, layout_after, epoch_after};

    /// Writes the work, whose gate is opened once all else is stable: what flew, where the journal stands once that is
    /// durable, and whether it is.
    pub(crate) fn put<D: Device>(
        &self,
        device: &mut D,
        work: Work,
    ) -> (Flown, Place, Result<(), DeviceFault>)
        requires { (header : Member) × IsTakenAt header self.now work }
        // A stop at any moment of the call leaves what is read, or what is read behind the work.
        ensures any_moment { (header : Member) (r : Reading) → IsTakenAt header self.now work → Stands header (D.disk device.old) self.now r
            → LeavesOnly D.clock D.left_since device.old device.new (ReadsAsOneOf header r (reading_behind self.now work r)) }
        ensures done { OnOk result.2 ((header : Member) (r : Reading) → IsTakenAt header self.now work → Stands header (D.disk device.old) self.now r
            → Stands header (D.disk device.new) result.1 (reading_behind self.now work r)) }
        ensures synced { OnOk result.2 (IsSynced (D.disk device.new)) }
        ensures cause { HasCause (D.count device.old) (D.count device.new) result.2 }
        ensures reach { IsInReach (device_size self.now.capacity) (D.reach device.old) (D.reach device.new) result.2 }
        ensures flown { kept_in result.0 ≡ flown_by work }
        ensures capacity { result.1.capacity ≡ self.now.capacity }
        ensures count { result.1.count ≡ count_after (summary_by work) (length (flown_by work).inputs) self.now.count }
        ensures used { result.1.used ≡ used_after (flown_by work).snapshot (costs_of (flown_by work).inputs) self.now.used }
        ensures layout { result.1.area.layout ≡ layout_after (flown_by work).snapshot self.now.area.layout }
        ensures epoch { result.1.area.epoch ≡ epoch_after (flown_by work).snapshot self.now.area.epoch }
    {
        match work {
            Work::Batch(batch) => {
                let Batch { flown, cost, bytes } = batch;
                let next = Place {
                    capacity: self.capacity,
                    area: self.area,
                    gate_at: self.gate_at + bytes.len() as u64,
                    count: self.count + flown.inputs.len() as u64,
                    used: self.used + u64::from(cost),
                };
                let written = append(device, self.gate_at, &bytes);
                (flown, next, written)
            }
            Work::Checkpoint(made) => {
                let Checkpoint {
                    flown,
                    base,
                    mut bytes,
                } = made;
                let used = summary_len(&base, LAYOUT);
                let offset = self.area.other + 14 + used;
                let next = Place {
                    capacity: self.capacity,
                    area: Chosen {
                        start: self.area.other,
                        other: self.area.start,
                        is_closed: leaves_closed(&self.area, self.gate_at),
                        layout: LAYOUT,
                        epoch: self.area.epoch + 1,
                        offset,
                    },
                    gate_at: offset,
                    count: base.inputs,
                    used,
                };
                number(&mut bytes, next.area.epoch);
                let written = replace_area(device, self.area.other, self.area.is_closed, &bytes);
                (flown, next, written)
            }
        }
    }
}
