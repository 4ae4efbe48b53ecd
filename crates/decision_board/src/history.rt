// The history of one board: all notices that it took in, in order. It exists in proofs alone, and the code keeps its
// length.
ghost use Rattle.std.specs.Prelude.{◌≡◌, ◌<◌, ◌⊎◌, ◌++◌, ◌∷◌, [], length, MatchBool, MatchOption};
ghost use mathlib.Core.List.{IsPrefix};

use crate::tokens::{Mark, Right, add, again, begin, compare, covers};
use ring_records::Notice;
use std::marker::{Brand, Model};

/// Which history a board's notices are one of. Each call of a program picks it.
pub trait Naming {
    ghost use Rattle.std.specs.Prelude.{ℕ};

    ghost history: { ℕ };
}

impl Naming for Brand {
    ghost history = { 0 };
}

/// A history that was just begun, for one board. Contracts see it as the history that it is.
#[derive(Drop)]
pub struct Opened {
    whole: Whole,
    front: Front,
}

impl Model for Opened {
    ghost use Rattle.std.specs.Prelude.{◌≡◌, [], ℕ};

    ghost Value = { ℕ };

    ghost view = { λ o. o.front.mark.history };

    ghost invariant = { λ o. (o.whole.right.history ≡ o.front.mark.history) × (o.whole.right.notices ≡ []) × (o.front.mark.notices ≡ []) };
}

impl Opened {
    /// Begins a history.
    pub fn new() -> Opened {
        let (right, mark) = begin();
        Opened {
            whole: Whole { count: 0, right },
            front: Front { count: 0, mark },
        }
    }

    /// All that it has, which is nothing, and its beginning, which is empty.
    pub(crate) fn into_parts(self) -> (Whole, Front)
        ensures history { result.0.right.history ≡ self }
        ensures none { result.0.right.notices ≡ [] }
        ensures name { result.1.mark.history ≡ self }
        ensures empty { result.1.mark.notices ≡ [] }
    {
        let Opened { whole, front } = self;
        (whole, front)
    }
}

/// All notices of a history, with the right to add to it.
#[derive(Drop)]
pub struct Whole {
    count: u64,
    pub right: Right,
    pub ghost counted: { count ≡ length right.notices },
}

impl Whole {
    /// Adds a notice, and gives what the history is then. None where it has 2^64 - 1 notices, and then nothing changed.
    pub fn add(&mut self, notice: &Notice) -> Option<Front>
        ensures { MatchOption result (self.new ≡ self.old)
            (λ front. (self.new.right.history ≡ self.old.right.history) × (self.new.right.notices ≡ self.old.right.notices ++ notice.now ∷ [])
            × (front.mark.history ≡ self.old.right.history) × (front.mark.notices ≡ self.new.right.notices)) }
    {
        if self.count == u64::MAX {
            return None;
        }
        let mark = add(&mut self.right, notice);
        self.count += 1;
        Some(Front {
            count: self.count,
            mark,
        })
    }

    /// Changes nothing, and nothing runs: the history begins with each of its fronts.
    pub fn covers(&mut self, front: &Front)
        requires { front.now.mark.history ≡ self.old.right.history }
        ensures begins { IsPrefix front.now.mark.notices self.old.right.notices }
        ensures same { self.new ≡ self.old }
    {
        covers(&front.mark, &mut self.right);
    }
}

/// A beginning of a history.
#[derive(Drop)]
pub struct Front {
    count: u64,
    pub mark: Mark,
    pub ghost counted: { count ≡ length mark.notices },
}

impl Front {
    /// A copy.
    pub fn again(&self) -> Front
        ensures { result ≡ self.now }
    {
        Front {
            count: self.count,
            mark: again(&self.mark),
        }
    }

    /// Whether another front of its history begins it. If not, it begins the other one, which is longer.
    pub fn covers(&self, other: &Front) -> bool
        requires { other.now.mark.history ≡ self.now.mark.history }
        ensures { MatchBool result (IsPrefix other.now.mark.notices self.now.mark.notices)
            (IsPrefix self.now.mark.notices other.now.mark.notices × (length self.now.mark.notices < length other.now.mark.notices)) }
    {
        compare(&self.mark, &other.mark);
        other.count <= self.count
    }

    /// Of this front and another of its history one begins the other.
    pub fn one_history(&self, other: &Front)
        requires { other.now.mark.history ≡ self.now.mark.history }
        ensures { IsPrefix self.now.mark.notices other.now.mark.notices ⊎ IsPrefix other.now.mark.notices self.now.mark.notices }
    {
        compare(&self.mark, &other.mark);
    }
}
