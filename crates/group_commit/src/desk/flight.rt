//! What a desk has fly: batches and checkpoints, until the device took them or failed.
ghost use Rattle.std.specs.Prelude.{◌≡◌, ◌+◌, ◌-◌, ◌*◌, ◌<◌, ◌≤◌, ◌⊎◌, List, true, false, Some, None, length, nat_lt, nat_le, IfSome, MatchOption, IfOk, IfErr, OnOk, OnErr};
ghost use Rattle.ring_records.specs.declared.input.Input.{Input};
ghost use Rattle.ring_records.specs.Admission.{epochs, used, newest};
ghost use Rattle.ring_records.specs.Release.{packets, notices};
ghost use Rattle.ring_records.specs.Snapshot.{IsSound, snapshot_len};
ghost use Rattle.ring_records.specs.Launching as launching;
ghost use Rattle.ring_records.specs.States.{launched_base, durable_in, flown_in, flying_in};
ghost use Rattle.ring_records.specs.Summary.{summary};
ghost use Rattle.node_core.specs.Core.{IsNodeOf};
ghost use Rattle.gated_journal.specs.Frames.{AreSuited};
ghost use Rattle.group_commit.specs.Desk.{launched, landed};

use crate::desk::Desk;
use crate::desk::parts::{prepare, summarise};
use crate::landed::Landed;
use gated_journal::{Batch, Checkpoint, Flown, Receipt, Spoiled};
use ring_records::{BATCH_INPUTS, EPOCHS, LAYOUT, Refusal};

impl Desk {
    ghost use Rattle.group_commit.specs.Desk.{known_all, seen, frees_room, is_due};
    ghost use Rattle.group_commit.specs.DeskCalls.{IsFlying, flown_with};
    ghost use Rattle.group_commit.specs.Launching.{launched_all, launch_objection, checkpoint_objection, needs_checkpoint, MayRenew};
    ghost use Rattle.group_commit.specs.Past.{IsPast};
    ghost use Rattle.gated_journal.specs.Batch.{shown as batch_shown, is_checkpoint, kept_in, landed as receipted, lost, numbered_by, base_by};

    /// The first inputs that wait, at most 64, as a batch to be made durable; they fly from then on. The caller sees that no
    /// checkpoint is needed. `None` exactly where none waits. Refused as 9 where the desk has failed, as 12 where a batch or a checkpoint is flying, and as 8.
    pub fn launch(&mut self) -> Result<Option<Batch>, Refusal>
        requires plain { needs_checkpoint self.old ≡ false }
        ensures batch { IfOk result (λ some. IfSome some (λ batch. batch_shown batch
            ≡ flown_with self.old (flying_in self.new.view.state) None)) }
        ensures none { IfOk result (λ some. MatchOption some (self.old.view.state.durable ≡ length self.old.view.state.inputs) (λ _. self.old.view.state.durable < length self.old.view.state.inputs)) }
        ensures fits { IfOk result (λ some. IfSome some (λ batch. used self.new.view.state.base (flown_in self.new.view.state) ≤ self.new.view.member.capacity)) }
        ensures suits { IfOk result (λ some. IfSome some (λ batch. AreSuited self.old.view.state.base.layout (batch_shown batch).inputs)) }
        ensures next { OnOk result (self.new ≡ record self.old { view = launched self.old.view }) }
        ensures free { OnOk result (launch_objection self.old.view ≡ None) }
        ensures refusal { IfErr result (λ refusal. (launch_objection self.old.view ≡ Some refusal) ⊎ ((launch_objection self.old.view ≡ None) × (refusal ≡ Refusal.OutOfMemory))) }
        ensures same { OnErr result (self.new ≡ self.old) }
    {
        if let Some(refusal) = self.launch_objection() {
            return Err(refusal);
        }
        let start = self.durable;
        let end = self.inputs.count.min(start + BATCH_INPUTS as u64);
        if start == end {
            return Ok(None);
        }
        let first = self.durable();
        let inputs = self.inputs.between(start, end);
        match prepare(&mut self.outbox, self.node, first, inputs) {
            Ok(batch) => {
                self.flying = end;
                Ok(Some(batch))
            }
            Err(refusal) => Err(refusal),
        }
    }

    /// All inputs that wait, any number, with the summary that stands for these and all before them, as a checkpoint to be
    /// made durable; they fly from then on, and room is counted from that summary. Refused as 9 where the desk has failed,
    /// as 12 where a batch or a checkpoint is flying, as 6 where the journal may write no other area, as 7 where the
    /// summary's snapshot is longer than the capacity, and as 8.
    pub fn launch_checkpoint(&mut self) -> Result<Checkpoint, Refusal>
        ensures checkpoint { IfOk result (λ made. numbered_by made ≡ flown_with self.old (flying_in self.new.view.state) (Some (snapshot_len newest (known_all self.old)))) }
        ensures summary { IfOk result (λ made. base_by made ≡ known_all self.old) }
        ensures known { IfOk result (λ made. (past : List Input) → IsPast self.old.view.member self.old.opening past
            → base_by made ≡ summary self.old.view.member.node (seen past self.old).state.inputs) }
        ensures sound { IfOk result (λ made. IsNodeOf self.old.view.member.n self.old.view.member.node → IsSound self.old.view.member.n (base_by made)) }
        ensures fits { IfOk result (λ made. snapshot_len newest (base_by made) ≤ self.old.view.member.capacity) }
        ensures epoch { OnOk result (self.old.view.state.base.epoch + 1 < epochs) }
        ensures next { OnOk result (self.new ≡ record self.old { view = launched_all self.old }) }
        ensures lifted { OnOk result ((past : List Input) → IsPast self.old.view.member self.old.opening past
            → seen past self.new ≡ record (seen past self.old) { state = launching.launched_all self.old.view.member.node (seen past self.old).state }) }
        ensures free { OnOk result (checkpoint_objection self.old ≡ None) }
        ensures refusal { IfErr result (λ refusal. (checkpoint_objection self.old ≡ Some refusal) ⊎ ((checkpoint_objection self.old ≡ None) × (refusal ≡ Refusal.OutOfMemory))) }
        ensures same { OnErr result (self.new ≡ self.old) }
    {
        if let Some(refusal) = self.checkpoint_objection() {
            return Err(refusal);
        }
        let first = self.durable();
        let epoch = self.epoch + 1;
        let length = self.core.summary_len();
        let Ok(known) = self.core.summary(self.inputs.allocator()) else {
            return Err(Refusal::OutOfMemory);
        };
        let count = self.inputs.count;
        let inputs = self.inputs.between(self.durable, count);
        match summarise(
            &mut self.core,
            &mut self.outbox,
            self.node,
            first,
            epoch,
            inputs,
        ) {
            Ok(checkpoint) => {
                self.flying = count;
                self.pending = Some(length);
                self.inputs.stand_for(known);
                Ok(checkpoint)
            }
            Err(refusal) => Err(refusal),
        }
    }

    /// Whether an input waits that the area in use can't hold: then no batch is launched, but a checkpoint, which is refused
    /// neither as 6 nor as 7.
    pub fn needs_checkpoint(&self) -> bool
        ensures needs { result ≡ needs_checkpoint self.now }
        ensures may { result ≡ true → MayRenew self.now }
    {
        self.core.needs_area()
    }

    /// Whether a checkpoint is worth its device calls: more than half of the capacity is taken, the snapshot of all
    /// accepted inputs takes a quarter of it at most, and the journal may write another area.
    pub fn due(&self) -> bool
        ensures { result ≡ is_due self.now }
    {
        is_over_half(self.core.used(), self.capacity)
            && is_quarter(self.core.summary_len(), self.capacity)
            && self.has_epoch()
    }

    /// Whether a checkpoint frees room where it is asked for: what is taken, less the snapshot of all accepted inputs, is a
    /// sixteenth of the capacity at least, that snapshot fits the capacity, and the journal may write another area.
    pub fn frees_room(&self) -> bool
        ensures { result ≡ frees_room self.now }
    {
        let length = self.core.summary_len();
        is_sixteenth(self.core.used().saturating_sub(length), self.capacity)
            && length <= u64::from(self.capacity)
            && self.has_epoch()
    }

    /// What flies is durable, a batch or a checkpoint: what it lets the node release. It takes no memory. Refused as 10
    /// where this is not the receipt of what flies, or the desk has failed, and it comes back.
    pub fn land(&mut self, receipt: Receipt) -> Result<Landed, (Receipt, Refusal)>
        ensures flying { OnOk result (IsFlying self.old (receipted receipt)) }
        ensures works { OnOk result (self.old.view.failed ≡ false) }
        ensures count { IfOk result (λ landed. landed.count ≡ self.old.view.state.flying - self.old.view.state.durable) }
        ensures kind { IfOk result (λ landed. landed.is_checkpoint ≡ is_checkpoint (receipted receipt)) }
        ensures few { IfOk result (λ landed. length landed.notices.items ≤ landed.count) }
        ensures again { IfOk result (λ landed. landed.again.items ≡ landed.notices.items) }
        ensures fits { OnOk result (used self.new.view.state.base (durable_in self.new.view.state) ≤ self.new.view.member.capacity) }
        ensures packets { IfOk result (λ landed. (past : List Input) → IsPast self.old.view.member self.old.opening past
            → landed.packets.items ≡ packets self.old.view.member.node (durable_in (seen past self.old).state) (flying_in (seen past self.old).state)) }
        ensures notices { IfOk result (λ landed. (past : List Input) → IsPast self.old.view.member self.old.opening past
            → landed.notices.items ≡ notices self.old.view.member.node (durable_in (seen past self.old).state) (flying_in (seen past self.old).state)) }
        ensures next { OnOk result (self.new ≡ record self.old { view = landed self.old.view }) }
        ensures foreign { IfErr result (λ e. (e.1 ≡ Refusal.Foreign) × (IsFlying self.old (receipted receipt) → self.old.view.failed ≡ false → ⊥)) }
        ensures back { IfErr result (λ e. receipted e.0 ≡ receipted receipt) }
        ensures same { OnErr result (self.new ≡ self.old) }
    {
        let flies = self.is_flying(&receipt);
        if self.is_failed || !flies {
            return Err((receipt, Refusal::Foreign));
        }
        let is_checkpoint = receipt.is_checkpoint();
        let _ = receipt.into_parts();
        let flown = self.inputs.between(self.durable, self.flying);
        let mut landed = self.outbox.land(flown);
        landed.is_checkpoint = is_checkpoint;
        self.durable = self.flying;
        if let Some(length) = self.pending {
            self.layout = LAYOUT;
            self.epoch += 1;
            self.summarised = self.flying;
            self.area = length;
            self.pending = None;
        }
        Ok(landed)
    }

    /// The device failed with what flies: nothing more is launched, nor becomes durable. Refused as 10 where this is not
    /// what flies, and it comes back.
    pub fn fail(&mut self, spoiled: Spoiled) -> Result<(), (Spoiled, Refusal)>
        ensures flying { OnOk result (IsFlying self.old (lost spoiled)) }
        ensures next { OnOk result (self.new ≡ record self.old { view = record self.old.view { failed = true } }) }
        ensures foreign { IfErr result (λ e. (e.1 ≡ Refusal.Foreign) × (IsFlying self.old (lost spoiled) → ⊥)) }
        ensures back { IfErr result (λ e. lost e.0 ≡ lost spoiled) }
        ensures same { OnErr result (self.new ≡ self.old) }
    {
        if !self.is_flying(&spoiled) {
            return Err((spoiled, Refusal::Foreign));
        }
        let _ = spoiled.into_parts();
        self.is_failed = true;
        Ok(())
    }

    // Whether this is what flies: these inputs, as a batch, or as a checkpoint whose snapshot has this length.
    fn is_flying(&self, flown: &Flown) -> bool
        ensures yes { result ≡ true → IsFlying self.now (kept_in flown.now) }
        ensures no { result ≡ false → IsFlying self.now (kept_in flown.now) → ⊥ }
    {
        let node = flown.node();
        let first = flown.first();
        let inputs = flown.inputs();
        let snapshot = flown.snapshot();
        let flying = self.inputs.between(self.durable, self.flying);
        is_same(&snapshot, &self.pending)
            && node == self.node
            && first == self.durable()
            && inputs == flying
    }

    // Why no batch is launched, before memory is asked for.
    fn launch_objection(&self) -> Option<Refusal>
        ensures { result ≡ launch_objection self.now.view }
    {
        if self.is_failed {
            return Some(Refusal::Failed);
        }
        if self.flying > self.durable || self.pending.is_some() {
            return Some(Refusal::Busy);
        }
        None
    }

    /// Why no checkpoint is launched, want of memory aside: 9 where the desk has failed, 12 where a batch or a checkpoint
    /// is flying, 6 where the journal may write no other area, 7 where the snapshot is longer than the capacity.
    pub fn checkpoint_objection(&self) -> Option<Refusal>
        ensures { result ≡ checkpoint_objection self.now }
    {
        if let Some(refusal) = self.launch_objection() {
            return Some(refusal);
        }
        if self.epoch >= EPOCHS - 1 {
            return Some(Refusal::Limit);
        }
        if self.core.summary_len() > u64::from(self.capacity) {
            return Some(Refusal::Full);
        }
        None
    }

    // Whether the journal may write another area, once what flies is durable.
    fn has_epoch(&self) -> bool
        ensures { result ≡ nat_lt ((launched_base self.now.view.state).epoch + 1) epochs }
    {
        match self.pending {
            Some(_) => self.epoch < EPOCHS - 2,
            None => self.epoch < EPOCHS - 1,
        }
    }
}

// Whether so many bytes are more than half of the capacity.
fn is_over_half(used: u64, capacity: u32) -> bool
    ensures { result ≡ nat_lt capacity (2 * used) }
{
    let capacity = u64::from(capacity);
    used > capacity || used > capacity - used
}

// Whether so many bytes are a quarter of the capacity at most.
fn is_quarter(length: u64, capacity: u32) -> bool
    ensures { result ≡ nat_le (4 * length) capacity }
{
    let capacity = u64::from(capacity);
    length <= capacity && 4 * length <= capacity
}

// Whether so many bytes are a sixteenth of the capacity at least.
fn is_sixteenth(bytes: u64, capacity: u32) -> bool
    ensures { result ≡ nat_le capacity (16 * bytes) }
{
    let capacity = u64::from(capacity);
    bytes >= capacity || 16 * bytes >= capacity
}

// Whether both are the same length, or none.
fn is_same(a: &Option<u64>, b: &Option<u64>) -> bool
    ensures yes { result ≡ true → a.now ≡ b.now }
    ensures no { result ≡ false → a.now ≡ b.now → ⊥ }
{
    match (a, b) {
        (Some(a), Some(b)) => *a == *b,
        (None, None) => true,
        _ => false,
    }
}
