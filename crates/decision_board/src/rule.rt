// The rule of what readers take.
use crate::history::Naming;
use crate::store::Store;
use crossbeam_utils::rule::{Outcome, Protocol};
use ring_records::Notice;
use std::marker::PhantomData;

/// What is published stands for a beginning of the history J, and each reader saw a beginning of that.
pub struct Posted<J> {
    of: PhantomData<J>,
}

impl<J: Naming> Protocol<Store, [Notice; 0]> for Posted<J> {
    ghost use Rattle.std.specs.Prelude.{[]};
    ghost use Rattle.decision_board.specs.Posts.{Keeps};

    ghost holds = { Keeps J.history };

    ghost first = { [] };
}

/// A step that reads or publishes.
pub struct Sees<J> {
    of: PhantomData<J>,
}

impl<J: Naming> Outcome<Store, [Notice; 0]> for Sees<J> {
    ghost use Rattle.decision_board.specs.Posts.{Shows};

    ghost then = { Shows J.history };
}
