// What a node may release, and what waits until it may be.
ghost use Rattle.std.specs.Prelude.{◌≡◌, ◌+◌, ◌^◌, ◌++◌, ◌∷◌, ◌<◌, ℕ, List, [], take, length, None, IfOk, OnOk, OnErr};
ghost use Rattle.ring_records.specs.declared.input.Input.{Input};
ghost use Rattle.ring_records.specs.declared.summary.Summary.{Summary};
ghost use Rattle.ring_records.specs.Known.{Objects, stepped, after};
ghost use Rattle.ring_records.specs.Snapshot.{IsSound};
ghost use Rattle.node_core.specs.Brought.{brought};
ghost use Rattle.node_core.specs.Core.{Refuses};
ghost use Rattle.node_core.specs.FreeCore.{taking};

use crate::landed::Landed;
use crate::released::Released;
use node_core::{Effects, NodeCore};
use ring_records::{Input, Summary};
use std::alloc::{AllocError, Global};
use std::collections::VecDeque;
use std::marker::Model;

/// What an input brings that is not durable yet.
#[derive(Drop)]
pub(crate) struct Brought {
    effects: Effects,
}

impl Model for Brought {
    ghost use Rattle.node_core.specs.declared.effects.Effects.{Effects};

    ghost Value = { Effects };

    ghost view = { λ brought. brought.effects };
}

/// What the durable inputs of a node let it release, what each input that is not durable yet brings, and the memory for
/// what flies.
#[derive(Drop)]
pub(crate) struct Outbox {
    pub(crate) released: Released,
    pub(crate) waiting: VecDeque<Brought>,
    pub(crate) landing: Landed,
}

impl Outbox {
    ghost use Rattle.group_commit.specs.Outbox.{Holds, IsLoaded, IsStill, IsWith, AreFree, carried, told_in, credit_since};

    /// That of a node that knows this by its durable inputs. The caller sees that it is sound for a ring of `n`. The error is
    /// that of the allocator.
    pub(crate) fn restore(alloc: Global, n: u8, from: &Summary) -> Result<Outbox, AllocError>
        requires { IsSound n from.now }
        ensures { IfOk result (λ outbox. (me : ℕ) → Holds me outbox from.now [] 0) }
    {
        Ok(Outbox {
            released: Released::restore(alloc, n, from)?,
            waiting: VecDeque::new(alloc),
            landing: Landed::new(alloc),
        })
    }

    /// Adds what a durable input lets the node release, where none waits.
    pub(crate) fn add(&mut self, input: &Input, effects: &Effects) -> Result<(), AllocError>
        requires free { (me n : ℕ) × (s : Summary) × Holds me self.old s [] 0 × Objects n s input.now None × (effects.now ≡ brought me s input.now) }
        ensures holds { OnOk result ((me n : ℕ) (s : Summary) → Holds me self.old s [] 0 → Objects n s input.now None → effects.now ≡ brought me s input.now
            → Holds me self.new (stepped me s input.now) [] 0) }
    {
        self.released.reserve(1)?;
        self.released.add(input, effects);
        Ok(())
    }

    /// Has the core accept an input that it admits, and keeps what that brings until it is durable. An `Err` changes
    /// nothing.
    pub(crate) fn accept(&mut self, core: &mut NodeCore, input: &Input) -> Result<(), AllocError>
        requires { Refuses core.old input.now None }
        ensures steps { OnOk result (core.new ≡ record core.old { known = stepped core.old.me core.old.known input.now; room = taking input.now core.old.room }) }
        ensures waits { OnOk result (IsWith self.old self.new (self.old.waiting.items ++ brought core.old.me core.old.known input.now ∷ [])) }
        ensures err { OnErr result (core.new ≡ core.old) }
        ensures same { OnErr result (IsWith self.old self.new self.old.waiting.items) }
    {
        self.waiting.reserve(1)?;
        match core.apply(*input) {
            Ok(effects) => {
                self.waiting.push_back_reserved(Brought { effects });
                Ok(())
            }
            Err(error) => Err(error),
        }
    }

    /// Takes the memory for what so many inputs bring, which fly from now on.
    pub(crate) fn load(&mut self, count: u64) -> Result<(), AllocError>
        requires few { count < 2 ^ 63 }
        ensures loaded { OnOk result (IsLoaded self.old self.new count) }
        ensures err { OnErr result (IsStill self.old self.new) }
    {
        let alloc = *self.waiting.allocator();
        self.released.reserve(count as usize)?;
        self.landing = Landed::with_room(alloc, count)?;
        Ok(())
    }

    /// Adds what these inputs bring, which flew and are durable now: the first of those that wait. A checkpoint may have
    /// none.
    pub(crate) fn land(&mut self, inputs: &[Input]) -> Landed
        requires holds { (me n : ℕ) × (s : Summary) × (rest : List Input) × Holds me self.old s (inputs.now ++ rest) (length inputs.now) × AreFree me n s inputs.now }
        ensures count { result.count ≡ length inputs.now }
        ensures packets { result.packets.items ≡ carried (take (length inputs.now) self.old.waiting.items) ++ credit_since self.old.released.taken self.new.released.taken }
        ensures notices { result.notices.items ≡ told_in (take (length inputs.now) self.old.waiting.items) }
        ensures again { result.again.items ≡ result.notices.items }
        ensures holds { (me n : ℕ) (s : Summary) (rest : List Input) → Holds me self.old s (inputs.now ++ rest) (length inputs.now) → AreFree me n s inputs.now
            → Holds me self.new (after me s inputs.now) rest 0 }
    {
        if inputs.is_empty() {
            return Landed::new(*self.waiting.allocator());
        }
        self.settle(inputs)
    }

    // Adds what these inputs bring, one at least.
    fn settle(&mut self, inputs: &[Input]) -> Landed
        requires some { 0 < length inputs.now }
        requires holds { (me n : ℕ) × (s : Summary) × (rest : List Input) × Holds me self.old s (inputs.now ++ rest) (length inputs.now) × AreFree me n s inputs.now }
        ensures count { result.count ≡ length inputs.now }
        ensures packets { result.packets.items ≡ carried (take (length inputs.now) self.old.waiting.items) ++ credit_since self.old.released.taken self.new.released.taken }
        ensures notices { result.notices.items ≡ told_in (take (length inputs.now) self.old.waiting.items) }
        ensures again { result.again.items ≡ result.notices.items }
        ensures holds { (me n : ℕ) (s : Summary) (rest : List Input) → Holds me self.old s (inputs.now ++ rest) (length inputs.now) → AreFree me n s inputs.now
            → Holds me self.new (after me s inputs.now) rest 0 }
    {
        let mut landed = self.landing.hand_out();
        let taken = self.released.taken;
        for i in 0..inputs.len() {
            let Some(brought) = self.waiting.pop_front() else {
                unreachable!();
            };
            self.released.add(&inputs[i], &brought.effects);
            landed.add(&brought.effects);
        }
        if self.released.taken > taken {
            landed.credit(self.released.taken);
        }
        landed
    }
}
