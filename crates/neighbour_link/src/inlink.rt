// The link from the predecessor.
ghost use Rattle.std.specs.Prelude.{◌≡◌, ◌↔◌, ◌+◌, ◌<◌, ◌^◌};
ghost use Rattle.ring_records.specs.Objection.{out_of_turn};
ghost use Rattle.neighbour_link.specs.Inlink.{refusal_of};

use crate::judged::Judged;
use std::marker::Model;

/// The link from the predecessor, seen as the number that is expected on it: how many messages were taken, as they
/// are numbered from 0.
#[derive(Clone, Copy, PartialEq, Eq)]
pub struct Inlink {
    expected: u64,
}

impl Model for Inlink {
    ghost use Rattle.std.specs.Prelude.{ℕ};

    ghost Value = { ℕ };

    ghost view = { λ link. link.expected };

    ghost inverse = { λ expected. record { expected = expected } };
}

impl Inlink {
    /// A link on which nothing was taken.
    pub fn new() -> Inlink
        ensures { result ≡ 0 }
    {
        Inlink { expected: 0 }
    }

    /// A link on which so many messages were taken.
    pub fn restore(taken: u64) -> Inlink
        ensures { result ≡ taken }
    {
        Inlink { expected: taken }
    }

    /// The number that is taken next, which is how many messages were taken.
    pub fn expected(&self) -> u64
        ensures { result ≡ self.now }
    {
        self.expected
    }

    /// Whether the number is the expected one, below it or above it.
    #[tactic(auto, unfolding(ring_records::specs::Objection::out_of_turn))]
    pub fn judge(&self, no: u64) -> Judged
        ensures next { (result ≡ Judged.Next) ↔ (no ≡ self.now) }
        ensures old { (result ≡ Judged.Old) ↔ (no < self.now) }
        ensures gap { (result ≡ Judged.Gap) ↔ (self.now < no) }
        ensures admission { out_of_turn self.now no ≡ refusal_of self.now result }
    {
        if no < self.expected {
            Judged::Old
        } else if no > self.expected {
            Judged::Gap
        } else {
            Judged::Next
        }
    }

    /// The expected message is taken. The caller sees that `expected()` is below 2^64 - 1.
    pub fn take(&mut self)
        requires { self.old + 1 < 2 ^ 64 }
        ensures { self.new ≡ self.old + 1 }
    {
        self.expected += 1;
    }
}
