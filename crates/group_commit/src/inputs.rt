// What a desk keeps of its inputs since its opening.
ghost use Rattle.std.specs.Prelude.{◌≡◌, ◌-◌, ◌^◌, ◌≤◌, ◌<◌, true, Some, None, OnSome, is_some, length, take, drop};
ghost use Rattle.group_commit.specs.Props.{inputs-prop, behind-prop};

use crate::all_inputs::AllInputs;
use crate::gone::Gone;
use ring_records::{Input, Summary};
use std::alloc::Global;
use std::mem::replace;

/// The inputs of a desk since its opening. It keeps those behind the first `gone`. Those behind the last checkpoint that
/// was launched it keeps twice, so that the others go in one move.
#[derive(Drop)]
pub(crate) struct Inputs {
    pub(crate) all: AllInputs,
    // How many there are, how many of the first are gone, what the node knew by these, if there is one, and the others.
    pub(crate) count: u64,
    pub(crate) gone: u64,
    pub(crate) known: Option<Summary>,
    pub(crate) kept: Vec<Input>,
    // For how many the last checkpoint stands, what the node knew by these, and the others, until these are gone.
    pub(crate) marked: u64,
    pub(crate) mark: Option<Summary>,
    pub(crate) behind: Vec<Input>,
    ghost counted: { count ≡ length all.list },
    ghost few: { count < 2 ^ 63 },
    ghost gone_in: { gone ≤ count },
    ghost kept_is: { kept.items ≡ drop gone all.list } by { inputs-prop kept.items (drop gone all.list) },
    ghost marked_in: { marked ≤ count },
    ghost behind_is: { OnSome mark (behind.items ≡ drop marked all.list) } by { behind-prop mark behind.items (drop marked all.list) },
}

impl Inputs {
    /// These inputs, of which none is gone.
    pub(crate) fn new(alloc: Global, inputs: Vec<Input>) -> Inputs
        ensures all { result.all.list ≡ inputs.items }
        ensures gone { result.gone ≡ 0 }
        ensures known { result.known ≡ None }
        ensures mark { result.mark ≡ None }
    {
        Inputs {
            all: AllInputs::new(&inputs),
            count: inputs.len() as u64,
            gone: 0,
            known: None,
            kept: inputs,
            marked: 0,
            mark: None,
            behind: Vec::new(alloc),
        }
    }

    /// Those from one number to another, counted from 0 since the opening.
    pub(crate) fn between(&self, start: u64, end: u64) -> &[Input]
        requires kept { self.now.gone ≤ start }
        requires order { start ≤ end }
        requires within { end ≤ length self.now.all.list }
        ensures { result.now ≡ take (end - start) (drop start self.now.all.list) }
    {
        let first = (start - self.gone) as usize;
        let last = (end - self.gone) as usize;
        &self.kept[first..last]
    }

    /// All of them, of which none is gone.
    pub(crate) fn whole(&self) -> &[Input]
        requires { self.now.gone ≡ 0 }
        ensures { result.now ≡ self.now.all.list }
    {
        &self.kept
    }

    /// What gives their memory.
    pub(crate) fn allocator(&self) -> Global {
        *self.kept.allocator()
    }

    /// A checkpoint stands for all of them, by which the node knows this.
    pub(crate) fn stand_for(&mut self, known: Summary)
        ensures all { self.new.all ≡ self.old.all }
        ensures gone { self.new.gone ≡ self.old.gone }
        ensures known { self.new.known ≡ self.old.known }
        ensures marked { self.new.marked ≡ length self.old.all.list }
        ensures mark { self.new.mark ≡ Some known }
    {
        let alloc = *self.kept.allocator();
        self.marked = self.count;
        self.mark = Some(known);
        self.behind = Vec::new(alloc);
    }

    /// Lets go of those for which the last checkpoint stands, unless they are gone.
    pub(crate) fn let_go(&mut self) -> Gone
        requires within { self.old.marked ≤ length self.old.all.list }
        ensures all { self.new.all ≡ self.old.all }
        ensures none { self.old.mark ≡ None → (self.new.gone ≡ self.old.gone) × (self.new.known ≡ self.old.known) }
        ensures some { is_some self.old.mark ≡ true → (self.new.gone ≡ self.old.marked) × (self.new.known ≡ self.old.mark) }
        ensures mark { self.new.mark ≡ None }
        ensures count { result.count ≡ self.new.gone }
    {
        let alloc = *self.kept.allocator();
        if self.mark.is_none() {
            return Gone::none(alloc, self.gone);
        }
        let behind = replace(&mut self.behind, Vec::new(alloc));
        let inputs = replace(&mut self.kept, behind);
        let mark = replace(&mut self.mark, None);
        let known = replace(&mut self.known, mark);
        self.gone = self.marked;
        Gone::new(self.gone, inputs, known)
    }
}

mod adding;
