// What a desk has its core and its outbox do.
ghost use Rattle.std.specs.Prelude.{◌≡◌, ◌+◌, ◌-◌, ◌^◌, ◌++◌, ◌∷◌, ◌≤◌, ◌<◌, ◌⊎◌, [], false, Some, None, length, take, IfSome, IfOk, IfErr, OnOk, OnErr};
ghost use Rattle.std.specs.List.{cons_option};
ghost use Rattle.std.specs.Option.{option_map};
ghost use Rattle.ring_records.specs.declared.input.Input.{Input};
ghost use Rattle.ring_records.specs.Admission.{newest};
ghost use Rattle.ring_records.specs.Known.{after, stepped};
ghost use Rattle.ring_records.specs.Snapshot.{IsSound, snapshot_len};
ghost use Rattle.gated_journal.specs.Batch.{shown as batch_shown, numbered, numbered_with, numbered_by, base_by};
ghost use Rattle.node_core.specs.Brought.{brought};
ghost use Rattle.node_core.specs.Core.{IsNodeOf, Refuses};
ghost use Rattle.node_core.specs.FreeCore.{taking};
ghost use Rattle.group_commit.specs.Inputs.{KeepsMarks};
ghost use Rattle.group_commit.specs.Opening.{core_after, IsKnownLawful, IsUnlawful};
ghost use Rattle.group_commit.specs.Outbox.{Holds, IsLoaded, IsStill, IsWith};

use crate::inputs::Inputs;
use crate::outbox::Outbox;
use gated_journal::{Batch, Checkpoint};
use node_core::NodeCore;
use ring_records::{BATCH_INPUTS, Input, NodeNo, Refusal};
use std::alloc::AllocError;

// Has a core and an outbox take the inputs of a node since its opening, all of them durable.
pub(super) fn replay(
    core: &mut NodeCore,
    outbox: &mut Outbox,
    inputs: &[Input],
) -> Result<(), Refusal>
    requires { Holds core.old.me outbox.old core.old.known [] 0 }
    ensures knows { OnOk result (core.new ≡ core_after core.old inputs.now) }
    ensures lawful { OnOk result (IsKnownLawful core.old inputs.now) }
    ensures holds { OnOk result (Holds core.old.me outbox.new (after core.old.me core.old.known inputs.now) [] 0) }
    ensures refusal { IfErr result (λ refusal. (refusal ≡ Refusal.OutOfMemory) ⊎ IsUnlawful core.old inputs.now refusal) }
{
    for i in 0..inputs.len() {
        let input = inputs[i];
        if core.admit(&input).is_err() {
            return Err(Refusal::Unlawful(i as u64));
        }
        let Ok(effects) = core.apply(input) else {
            return Err(Refusal::OutOfMemory);
        };
        if outbox.add(&input, &effects).is_err() {
            return Err(Refusal::OutOfMemory);
        }
    }
    Ok(())
}

// Accepts an input that the core admits, if there is one. An `Err` changes nothing.
pub(super) fn accept(
    core: &mut NodeCore,
    inputs: &mut Inputs,
    outbox: &mut Outbox,
    input: &Option<Input>,
) -> Result<(), AllocError>
    requires free { IfSome input.now (λ x. Refuses core.old x None) }
    requires counted { length inputs.old.all.list ≤ core.old.known.inputs }
    ensures inputs { OnOk result (inputs.new.all.list ≡ inputs.old.all.list ++ cons_option input.now []) }
    ensures marks { KeepsMarks inputs.old inputs.new }
    ensures knows { OnOk result (core.new ≡ core_after core.old (cons_option input.now [])) }
    ensures waits { OnOk result (IsWith outbox.old outbox.new (outbox.old.waiting.items ++ cons_option (option_map (brought core.old.me core.old.known) input.now) [])) }
    ensures err { OnErr result ((inputs.new.all.list ≡ inputs.old.all.list) × (core.new ≡ core.old)) }
    ensures same { OnErr result (IsWith outbox.old outbox.new outbox.old.waiting.items) }
{
    match input {
        Some(input) => accept_one(core, inputs, outbox, input),
        None => Ok(()),
    }
}

fn accept_one(
    core: &mut NodeCore,
    inputs: &mut Inputs,
    outbox: &mut Outbox,
    input: &Input,
) -> Result<(), AllocError>
    requires free { Refuses core.old input.now None }
    requires counted { length inputs.old.all.list ≤ core.old.known.inputs }
    ensures inputs { OnOk result (inputs.new.all.list ≡ inputs.old.all.list ++ input.now ∷ []) }
    ensures marks { KeepsMarks inputs.old inputs.new }
    ensures steps { OnOk result (core.new ≡ record core.old { known = stepped core.old.me core.old.known input.now; room = taking input.now core.old.room }) }
    ensures waits { OnOk result (IsWith outbox.old outbox.new (outbox.old.waiting.items ++ brought core.old.me core.old.known input.now ∷ [])) }
    ensures err { OnErr result ((inputs.new.all.list ≡ inputs.old.all.list) × (core.new ≡ core.old)) }
    ensures same { OnErr result (IsWith outbox.old outbox.new outbox.old.waiting.items) }
{
    inputs.reserve()?;
    outbox.accept(core, input)?;
    inputs.push(input);
    Ok(())
}

// These inputs, of which the first has this number, as a batch, and the memory for what they bring, so that they may fly.
pub(super) fn prepare(
    outbox: &mut Outbox,
    node: NodeNo,
    first: u64,
    inputs: &[Input],
) -> Result<Batch, Refusal>
    requires some { 0 < length inputs.now }
    requires few { length inputs.now ≤ BATCH_INPUTS }
    ensures batch { IfOk result (λ batch. batch_shown batch ≡ numbered node first inputs.now) }
    ensures loaded { OnOk result (IsLoaded outbox.old outbox.new (length inputs.now)) }
    ensures refusal { IfErr result (λ refusal. refusal ≡ Refusal.OutOfMemory) }
    ensures err { OnErr result (IsStill outbox.old outbox.new) }
{
    if outbox.load(inputs.len() as u64).is_err() {
        return Err(Refusal::OutOfMemory);
    }
    let alloc = *outbox.waiting.allocator();
    Batch::new(alloc, node, first, inputs)
}

// These inputs, which are all that wait and of which the first has this number, as a checkpoint for an area of this epoch, and
// the memory for what they bring, so that they may fly. All memory is taken before room is counted from the summary.
pub(super) fn summarise(
    core: &mut NodeCore,
    outbox: &mut Outbox,
    node: NodeNo,
    first: u64,
    epoch: u64,
    inputs: &[Input],
) -> Result<Checkpoint, Refusal>
    requires short { snapshot_len newest core.old.known < 2 ^ 32 }
    ensures checkpoint { IfOk result (λ made. numbered_by made ≡ numbered_with node first inputs.now (Some (snapshot_len newest core.old.known))) }
    ensures summary { IfOk result (λ made. base_by made ≡ core.old.known) }
    ensures sound { OnOk result (IsNodeOf core.old.size core.old.me → IsSound core.old.size core.old.known) }
    ensures rebased { OnOk result (core.new ≡ record core.old { room = record { layout = newest; epoch = epoch; taken = snapshot_len newest core.old.known; waits = false } }) }
    ensures loaded { OnOk result (IsLoaded outbox.old outbox.new (length inputs.now)) }
    ensures refusal { IfErr result (λ refusal. refusal ≡ Refusal.OutOfMemory) }
    ensures same { OnErr result (core.new ≡ core.old) }
    ensures err { OnErr result (IsStill outbox.old outbox.new) }
{
    let count = inputs.len() as u64;
    if outbox.load(count).is_err() {
        return Err(Refusal::OutOfMemory);
    }
    let alloc = *outbox.waiting.allocator();
    let Ok(from) = core.summary(alloc) else {
        return Err(Refusal::OutOfMemory);
    };
    match Checkpoint::new(alloc, node, first, inputs, from) {
        Ok(checkpoint) => {
            core.rebase(epoch);
            Ok(checkpoint)
        }
        Err(refusal) => Err(refusal),
    }
}
