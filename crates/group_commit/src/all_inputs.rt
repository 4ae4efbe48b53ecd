// All inputs of a desk since its opening, for proofs alone.
ghost use Rattle.std.specs.Prelude.{◌≡◌, List, [], ◌∷◌, ◌++◌};
ghost use Rattle.std.specs.Borrow.{ftrue};
ghost use Rattle.ring_records.specs.declared.input.Input.{Input};

use ring_records::Input;
use std::marker::Model;

/// The inputs that a desk accepted since its opening, those that it let go of among them. It has no bytes, and its calls
/// do nothing when they run: only clauses read it.
#[derive(Drop)]
pub(crate) struct AllInputs {
    pub ghost list: { List Input },
}

impl Model for AllInputs {
    ghost also_owns = { λ _. ftrue };
}

// It owns nothing.
unsafe impl Send for AllInputs {}

impl AllInputs {
    /// These inputs.
    pub(crate) fn new(inputs: &[Input]) -> AllInputs
        ensures { result ≡ record { list = inputs.now } }
    {
        AllInputs {}
    }

    /// One input more.
    pub(crate) fn with_input(before: &AllInputs, input: &Input) -> AllInputs
        ensures { result ≡ record { list = before.now.list ++ input.now ∷ [] } }
    {
        AllInputs {}
    }
}
