// One input more of a desk.
ghost use Rattle.std.specs.Prelude.{◌≡◌, ◌+◌, ◌^◌, ◌<◌, ◌++◌, ◌∷◌, [], length, OnOk, vec_len, vec_capacity};
ghost use Rattle.group_commit.specs.Inputs.{HasPlace, KeepsMarks};

use crate::all_inputs::AllInputs;
use crate::inputs::Inputs;
use ring_records::Input;
use std::alloc::AllocError;

impl Inputs {
    /// Makes room for one input more.
    pub(crate) fn reserve(&mut self) -> Result<(), AllocError>
        ensures all { self.new.all ≡ self.old.all }
        ensures marks { KeepsMarks self.old self.new }
        ensures place { OnOk result (HasPlace self.new) }
    {
        self.kept.reserve(1)?;
        if self.mark.is_some() {
            self.behind.reserve(1)?;
        }
        Ok(())
    }

    /// Adds an input, for which there is room.
    pub(crate) fn push(&mut self, input: &Input)
        requires few { length self.old.all.list + 1 < 2 ^ 63 }
        requires place { HasPlace self.old }
        ensures all { self.new.all.list ≡ self.old.all.list ++ input.now ∷ [] }
        ensures marks { KeepsMarks self.old self.new }
    {
        self.all = AllInputs::with_input(&self.all, input);
        self.count += 1;
        add(&mut self.kept, input);
        if self.mark.is_some() {
            add(&mut self.behind, input);
        }
    }
}

// Adds an input behind these, for which there is room.
fn add(inputs: &mut Vec<Input>, input: &Input)
    requires { vec_len inputs.old < vec_capacity inputs.old }
    ensures { inputs.new.items ≡ inputs.old.items ++ input.now ∷ [] }
{
    if inputs.extend_from_slice(&[*input]).is_err() {
        unreachable!();
    }
}
