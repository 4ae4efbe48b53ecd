ghost use Rattle.std.specs.Prelude.{◌≡◌, ◌+◌, ◌-◌, ◌*◌, ◌⊎◌, ◌<◌, ◌≤◌, ◌^◌, ℕ, List, true, false, length, min, is_err, Decides, IfOk, IfErr, OnOk, OnErr, IsOk};
ghost use Rattle.disk_model.specs.Disk.{Reaches};
ghost use Rattle.disk_model.specs.Calls.{HasCause};
ghost use Rattle.ring_records.specs.declared.limits.TheConstants.{GREATEST_CAPACITY, LEAST_CAPACITY};
ghost use Rattle.ring_records.specs.Admission.{costs_of, newest};
ghost use Rattle.ring_records.specs.Member.{member};
ghost use Rattle.ring_records.specs.Snapshot.{IsSound, snapshot_len};
ghost use Rattle.ring_records.specs.Summary.{empty};
ghost use Rattle.gated_journal.specs.Areas.{ReadsAs, AllReadAs, ReadsAsOneOf};
ghost use Rattle.gated_journal.specs.Frames.{AreSuited};
ghost use Rattle.gated_journal.specs.OnlyReads.{IsOnlySynced};
ghost use Rattle.gated_journal.specs.Place.{IsInUse};
ghost use Rattle.gated_journal.specs.Reading.{Reading, device_size, with_more, fresh_area, is_header};
ghost use Rattle.gated_journal.specs.Opened.{reading_of_opening, count_in, used_in};
ghost use Rattle.gated_journal.specs.Unread.{IsUnread, IsUnopened};
ghost use Rattle.gated_journal.specs.WorkTaken.{IsTaken};

use crate::area::Chosen;
use crate::contents::Contents;
use crate::format::lay_out;
use crate::layout::{AREA_A, LAYOUT, are_suited, area_b, is_header};
use crate::open::{Opened, open};
use crate::place::Place;
use crate::{Batch, Checkpoint, Opening, Receipt, Spoiled, Work};
use disk_model::{Device, FuseDevice, SystemFault};
use ring_records::{Input, NodeNo, Refusal, costs_of, summary_len};
use std::alloc::Global;

/// The durable inputs of one node, on a device of its own.
#[derive(Drop)]
pub struct Journal<D: Device> {
    pub(crate) device: D,
    node: NodeNo,
    n: u8,
    place: Place,
    is_spoiled: bool,
    ghost settled: { is_spoiled ≡ false → IsInUse (member node n place.capacity) (D.disk device) place },
}

impl<D: Device> Journal<D> {
    ghost use Rattle.gated_journal.specs.Batch.{shown, numbered_by, base_by};
    ghost use Rattle.gated_journal.specs.Holding.{HoldsReading};
    ghost use Rattle.gated_journal.specs.Journal.{device_of, member_of, len_of, room_of, layout_of, epoch_of, is_spoiled};
    ghost use Rattle.gated_journal.specs.Written.{IsWritten};
    ghost use Rattle.gated_journal.specs.declared.work.Work.TheVariants as Work;

    /// A journal without inputs: one write and one sync, and between them a write of one byte that closes area B, where
    /// the device goes that far. Refused as 2 where `n` is not 2 to 16, `node` is above it, or the capacity is not 4,096 to 1,048,576
    /// bytes, and as 15.
    pub fn format(device: D, node: NodeNo, n: u8, capacity: u32) -> Result<Journal<D>, (D, Refusal)>
        ensures empty { IfOk result (λ journal. AllReadAs (member node n capacity) (D.disk (device_of journal)) (fresh_area newest 1 empty)) }
        ensures header { IfOk result (λ journal. member_of journal ≡ member node n capacity) }
        ensures ready { IfOk result (λ journal. is_spoiled journal ≡ false) }
        ensures len { IfOk result (λ journal. len_of journal ≡ 0) }
        ensures room { IfOk result (λ journal. room_of journal ≡ capacity - 42) }
        ensures layout { IfOk result (λ journal. layout_of journal ≡ newest) }
        ensures epoch { IfOk result (λ journal. epoch_of journal ≡ 1) }
        ensures range { OnOk result (is_header (member node n capacity) ≡ true) }
        ensures same { IfOk result (λ journal. D.count (device_of journal) ≡ D.count device) }

        // Refused as 2, the device is as it was; as 15, the device failed.
        ensures number { IfErr result (λ e. is_header (member node n capacity) ≡ false → (e.1 ≡ Refusal.BadNumber) × (e.0 ≡ device)) }
        ensures fault { IfErr result (λ e. is_header (member node n capacity) ≡ true → (e.1 ≡ Refusal.Device (D.count e.0)) × (min (D.count device + 1) (2 ^ 64 - 1) ≤ D.count e.0)) }
        ensures works { is_header (member node n capacity) ≡ true → Reaches (D.reach device) (device_size capacity) → IsOk result }
        ensures reach { IfOk result (λ journal. D.reach (device_of journal) ≡ D.reach device) }
    {
        if !is_header(node, n, capacity) {
            return Err((device, Refusal::BadNumber));
        }
        let mut device = device;
        match lay_out(&mut device, node, n, capacity) {
            Ok(is_closed) => {
                let area = Chosen {
                    start: AREA_A,
                    other: area_b(capacity),
                    is_closed,
                    layout: LAYOUT,
                    epoch: 1,
                    offset: 72,
                };
                let place = Place {
                    capacity,
                    area,
                    gate_at: 72,
                    count: 0,
                    used: 42,
                };
                Ok(Journal {
                    device,
                    node,
                    n,
                    place,
                    is_spoiled: false,
                })
            }
            Err(_) => {
                let failures = device.failures();
                Err((device, Refusal::Device(failures)))
            }
        }
    }

    /// The journal that a device holds, which it makes stable first, and what its area in use holds. What was committed
    /// is there, and of a batch that a stop came upon all or nothing. A journal that began without areas is read too.
    /// Refused as 15; as 17 where there is no header; as 19 where it names another node or ring size; as 16 with the offset
    /// of what is damaged; and as 8.
    pub fn reopen(
        alloc: Global,
        device: D,
        node: NodeNo,
        n: u8,
    ) -> Result<(Journal<D>, Opening), (D, Refusal)>
        // What is read stood there at the start, and stands in every image that a stop may leave afterwards.
        ensures reads { IfOk result (λ r. ReadsAs (member_of r.0) (D.disk device).image (reading_of_opening r.1)) }
        ensures holds { IfOk result (λ r. HoldsReading r.0 (reading_of_opening r.1)) }
        ensures header { IfOk result (λ r. ((member_of r.0).node ≡ node) × ((member_of r.0).n ≡ n)) }
        ensures sound { IfOk result (λ r. IsSound n r.1.base) }

        // A refusal has its cause. While the device works it is the image's, or want of memory.
        ensures refusal { IfErr result (λ e. IsUnopened node n (D.count device) (D.count e.0) (D.disk device).image e.1) }
        ensures works { Reaches (D.reach device) (length (D.disk device).image) → IfErr result (λ e. (e.1 ≡ Refusal.OutOfMemory) ⊎ IsUnread node n (D.disk device).image e.1) }
        ensures device { IsOnlySynced D.Device (λ r. device_of r.0) device result }
    {
        let mut device = device;
        match open(alloc, &mut device, node, n) {
            Err(refusal) => Err((device, refusal)),
            Ok(
                Opened {
                    capacity,
                    area,
                    contents,
                },
            ) => {
                let Contents {
                    base,
                    inputs,
                    gate_at,
                } = contents;
                let place = Place {
                    capacity,
                    area,
                    gate_at,
                    count: base.inputs + inputs.len() as u64,
                    used: summary_len(&base, area.layout) + costs_of(&inputs),
                };
                let journal = Journal {
                    device,
                    node,
                    n,
                    place,
                    is_spoiled: false,
                };
                let opening = Opening {
                    layout: area.layout,
                    epoch: area.epoch,
                    base,
                    inputs,
                };
                Ok((journal, opening))
            }
        }
    }

    /// The node whose inputs it holds.
    pub fn node(&self) -> NodeNo
        ensures { result ≡ (member_of self.now).node }
    {
        self.node
    }

    /// The bytes that its snapshot and its inputs may take, the inputs by their costs, 4,096 to 1,048,576.
    pub fn capacity(&self) -> u32
        ensures value { result ≡ (member_of self.now).capacity }
        ensures from { LEAST_CAPACITY ≤ result }
        ensures to { result ≤ GREATEST_CAPACITY }
    {
        self.place.capacity
    }

    /// How many inputs it holds, those that are summarised among them.
    pub fn len(&self) -> u64
        ensures value { result ≡ len_of self.now }
        ensures reading { is_spoiled self.now ≡ false → (r : Reading) → AllReadAs (member_of self.now) (D.disk (device_of self.now)) r → result ≡ count_in r }
    {
        self.place.count
    }

    /// How many bytes of the capacity are left.
    pub fn room(&self) -> u32
        ensures value { result ≡ room_of self.now }
        ensures reading { is_spoiled self.now ≡ false → (r : Reading) → AllReadAs (member_of self.now) (D.disk (device_of self.now)) r
            → result ≡ (member_of self.now).capacity - used_in r }
    {
        u64::from(self.place.capacity).saturating_sub(self.place.used) as u32
    }

    /// The layout of its area in use, 1 to 3: 1 where frames alone are read, and 3 behind a checkpoint.
    pub fn layout(&self) -> u8
        ensures value { result ≡ layout_of self.now }
        ensures reading { is_spoiled self.now ≡ false → (r : Reading) → AllReadAs (member_of self.now) (D.disk (device_of self.now)) r → result ≡ r.layout }
    {
        self.place.area.layout
    }

    /// The epoch of its area in use, below 2^40: each checkpoint raises it by 1.
    pub fn epoch(&self) -> u64
        ensures value { result ≡ epoch_of self.now }
        ensures reading { is_spoiled self.now ≡ false → (r : Reading) → AllReadAs (member_of self.now) (D.disk (device_of self.now)) r → result ≡ r.epoch }
    {
        self.place.area.epoch
    }

    /// Whether its area in use may hold the inputs: a Retire only in layout 3.
    pub fn suits(&self, inputs: &[Input]) -> bool
        ensures { Decides result (AreSuited (layout_of self.now) inputs.now) }
    {
        are_suited(inputs, self.place.area.layout)
    }

    /// Whether the device has failed in a `commit` or a `checkpoint`: then it may hold what was to become durable or not,
    /// and nothing more is committed.
    pub fn is_spoiled(&self) -> bool
        ensures { result ≡ is_spoiled self.now }
    {
        self.is_spoiled
    }

    /// What the system answered to the first call of its device that failed, where that is known.
    pub fn cause(&self) -> Option<SystemFault> {
        self.device.cause()
    }

    /// How many calls of its device have failed.
    pub fn failures(&self) -> u64
        ensures { result ≡ D.count (device_of self.now) }
    {
        self.device.failures()
    }

    /// Ends the journal, and gives its device.
    pub fn into_device(self) -> D
        ensures { result ≡ device_of self }
    {
        let Journal {
            device,
            node: _,
            n: _,
            place: _,
            is_spoiled: _,
        } = self;
        device
    }

    /// Makes a batch durable, whole, by four device calls. A Retire goes only to an area of layout 3. At `Err` the device
    /// failed, and the journal is spoiled.
    pub fn commit(&mut self, batch: Batch) -> Result<Receipt, Spoiled>
        requires ready { is_spoiled self.old ≡ false }
        requires node { (shown batch).node ≡ (member_of self.old).node }
        requires first { (shown batch).first ≡ len_of self.old }
        requires room { costs_of (shown batch).inputs ≤ room_of self.old }
        requires suits { AreSuited (layout_of self.old) (shown batch).inputs }
        ensures { IsWritten self.old self.new (Work.Batch batch) result }
    {
        self.write(Work::Batch(batch))
    }

    /// Makes a summary of all inputs durable in place of what the area in use holds, by six device calls. It takes no
    /// memory. At `Err` the device failed, and the journal is spoiled.
    pub fn checkpoint(&mut self, checkpoint: Checkpoint) -> Result<Receipt, Spoiled>
        requires ready { is_spoiled self.old ≡ false }
        requires node { (numbered_by checkpoint).node ≡ (member_of self.old).node }
        requires first { (numbered_by checkpoint).first ≡ len_of self.old }
        requires fits { snapshot_len newest (base_by checkpoint) ≤ (member_of self.old).capacity }
        requires sound { IsSound (member_of self.old).n (base_by checkpoint) }
        requires epoch { epoch_of self.old + 1 < 2 ^ 40 }
        ensures { IsWritten self.old self.new (Work.Checkpoint checkpoint) result }
    {
        self.write(Work::Checkpoint(checkpoint))
    }

    /// Makes a work durable, whole, as `commit` and `checkpoint` do. At `Err` the device failed, and the journal is spoiled.
    pub fn write(&mut self, work: Work) -> Result<Receipt, Spoiled>
        requires ready { is_spoiled self.old ≡ false }
        requires taken { IsTaken (member_of self.old) (len_of self.old) (room_of self.old) (layout_of self.old) (epoch_of self.old) work }
        ensures { IsWritten self.old self.new work result }
    {
        self.is_spoiled = true;
        let (flown, next, written) = self.place.put(&mut self.device, work);
        match written {
            Ok(()) => {
                self.place = next;
                self.is_spoiled = false;
                Ok(Receipt { flown })
            }
            Err(_) => Err(Spoiled { flown }),
        }
    }
}

impl<D: Device> Journal<FuseDevice<D>> {
    ghost use Rattle.disk_model.specs.Fuse.{planned};
    ghost use Rattle.disk_model.specs.FuseDevice.{inner_of, will_fail, own_faults};
    ghost use Rattle.gated_journal.specs.Journal.{device_of, member_of, len_of, room_of, layout_of, epoch_of, is_spoiled};

    /// Sets the device's fuse anew: from now on `after` of its calls pass, and then the next fails if `once`, else all
    /// later ones.
    pub fn arm(&mut self, after: u64, once: bool)
        ensures fuse { (k : ℕ) → will_fail (device_of self.new) k ≡ planned after once k }
        ensures inner { inner_of (device_of self.new) ≡ inner_of (device_of self.old) }
        ensures faults { own_faults (device_of self.new) ≡ own_faults (device_of self.old) }
        ensures header { member_of self.new ≡ member_of self.old }
        ensures len { len_of self.new ≡ len_of self.old }
        ensures room { room_of self.new ≡ room_of self.old }
        ensures layout { layout_of self.new ≡ layout_of self.old }
        ensures epoch { epoch_of self.new ≡ epoch_of self.old }
        ensures spoiled { is_spoiled self.new ≡ is_spoiled self.old }
    {
        self.device.arm(after, once);
    }
}
