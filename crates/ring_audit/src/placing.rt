// A run that places inputs of the histories of a ring's nodes, and what they leave.
ghost use Rattle.std.specs.Prelude.{◌≡◌, ℕ, ◌+◌, ◌-◌, ◌≤◌, ◌<◌, ◌↔◌, length, slice_index_or, IfOk, IfSome, IfNone, OnOk, IsTrue, vec_len};
ghost use Rattle.std.specs.List.{sum_by};
ghost use Rattle.ring_records.specs.declared.input.Input.{Input};
ghost use Rattle.ring_records.specs.Ring.{IsCarried};
ghost use Rattle.ring_records.specs.Part.{part as part_of};
ghost use Rattle.ring_audit.specs.Part.{PartStandsFor};
ghost use Rattle.ring_audit.specs.Placement.{history_of, lists};
ghost use Rattle.ring_audit.specs.Placed.{IsPlacement, IsNext};
ghost use Rattle.ring_audit.specs.Placing.{IsPlacing, left};

use crate::part::Part;
use ring_records::{Input, Msg, NodeNo};
use std::alloc::{AllocError, Global};

/// A legal run whose parts are prefixes of the histories of a ring of `n`, and what the parts leave, in ring order.
#[derive(Drop)]
pub struct Placing {
    pub n: u8,
    pub parts: Vec<Part>,
    pub run: Vec<(NodeNo, Input)>,
}

impl Placing {
    /// No input of the histories is placed.
    pub fn new(alloc: Global, histories: &[Vec<Input>]) -> Result<Placing, AllocError>
        requires least { 2 ≤ length histories.now }
        requires most { length histories.now ≤ 16 }
        ensures { IfOk result (λ placing. IsPlacing (lists histories.now) placing) }
    {
        let n = histories.len() as u8;
        let mut parts = Vec::new(alloc);
        let mut node = NodeNo::first();
        for history in histories {
            parts.push(Part::new(alloc, node, n, history.len()))?;
            node = node.successor(n);
        }
        Ok(Placing {
            n,
            parts,
            run: Vec::new(alloc),
        })
    }

    fn at(&self, node: NodeNo) -> &Part
        requires inside { node ≤ vec_len self.now.parts }
        ensures value { result.now ≡ slice_index_or self.now.parts.items (node - 1) result.now }
        ensures low { 1 ≤ node }
    {
        &self.parts[node.number() as usize - 1]
    }

    // Whether the neighbours of the node have what the input says of them.
    fn is_carried(&self, histories: &[Vec<Input>], node: NodeNo, input: &Input) -> bool
        requires placing { IsPlacing (lists histories.now) self.now }
        requires inside { node ≤ self.now.n }
        ensures { IsTrue result ↔ IsCarried self.now.n self.now.run.items node input.now }
    {
        match input {
            Input::Stand { .. } => true,
            Input::Take { no, msg } => self.at(node.predecessor(self.n)).has_sent(*no, msg),
            Input::Acked { upto } => *upto <= self.at(node.successor(self.n)).taken(),
            Input::Retire { .. } => true,
        }
    }

    // The next input of the node's history, if it can be placed now.
    fn next_of(&self, histories: &[Vec<Input>], node: NodeNo) -> Option<Input>
        requires placing { IsPlacing (lists histories.now) self.now }
        requires inside { node ≤ self.now.n }
        ensures some { IfSome result (λ input. IsNext (lists histories.now) self.now.run.items node input) }
        ensures none { IfNone result ((input : Input) → IsNext (lists histories.now) self.now.run.items node input → ⊥) }
    {
        let part = self.at(node);
        let history = &histories[node.number() as usize - 1];
        let placed = part.placed() as usize;
        if placed >= history.len() {
            return None;
        }
        let input = history[placed];
        let carried = self.is_carried(histories, node, &input);
        if carried && part.allows(&input) {
            Some(input)
        } else {
            None
        }
    }

    // A node and the next input of its history that can be placed now.
    fn next(&self, histories: &[Vec<Input>]) -> Option<(NodeNo, Input)>
        requires placing { IsPlacing (lists histories.now) self.now }
        ensures some { IfSome result (λ step. (step.0 ≤ self.now.n) × IsNext (lists histories.now) self.now.run.items step.0 step.1) }
        ensures none { IfNone result ((i : ℕ) (input : Input) → 1 ≤ i → i ≤ self.now.n → IsNext (lists histories.now) self.now.run.items i input → ⊥) }
    {
        for part in &self.parts {
            if let Some(input) = self.next_of(histories, part.node) {
                return Some((part.node, input));
            }
        }
        None
    }

    fn place(
        &mut self,
        histories: &[Vec<Input>],
        node: NodeNo,
        input: Input,
    ) -> Result<(), AllocError>
        requires placing { IsPlacing (lists histories.now) self.old }
        requires inside { node ≤ self.old.n }
        requires next { IsNext (lists histories.now) self.old.run.items node input }
        ensures placing { OnOk result (IsPlacing (lists histories.now) self.new) }
        ensures fewer { OnOk result (sum_by left self.new.parts.items < sum_by left self.old.parts.items) }
    {
        let _inner: Option<Msg> = None;
        self.run.push(step(node, &input))?;
        let at = node.number() as usize - 1;
        self.parts[at].place(input)
    }

    /// Places inputs until no further one can be placed.
    pub fn place_all(&mut self, histories: &[Vec<Input>]) -> Result<(), AllocError>
        requires placing { IsPlacing (lists histories.now) self.old }
        ensures placing { OnOk result (IsPlacing (lists histories.now) self.new) }
        ensures greatest { OnOk result (IsPlacement (lists histories.now) self.new.run.items) }
    {
        while let Some((node, input)) = self.next(histories) {
            self.place(histories, node, input)?;
        }
        Ok(())
    }

    /// The lowest node with an input that is not placed, and how many of its inputs are.
    pub fn stuck(&self, histories: &[Vec<Input>]) -> Option<(NodeNo, u64)>
        requires placing { IsPlacing (lists histories.now) self.now }
        ensures none { IfNone result ((i : ℕ) → 1 ≤ i → i ≤ self.now.n → part_of self.now.run.items i ≡ history_of (lists histories.now) i) }
        ensures high { IfSome result (λ found. found.0 ≤ self.now.n) }
        ensures count { IfSome result (λ found. found.1 ≡ length (part_of self.now.run.items found.0)) }
        ensures left { IfSome result (λ found. found.1 < length (history_of (lists histories.now) found.0)) }
        ensures lowest { IfSome result (λ found. (i : ℕ) → 1 ≤ i → i < found.0 → part_of self.now.run.items i ≡ history_of (lists histories.now) i) }
    {
        for part in &self.parts {
            if part.left > 0 {
                return Some((part.node, part.placed()));
            }
        }
        None
    }
}

fn step(node: NodeNo, input: &Input) -> (NodeNo, Input)
    ensures { result ≡ record { 0 = node; 1 = input.now } }
{
    (node, *input)
}
