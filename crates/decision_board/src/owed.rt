// Notices that a board is still to take.
ghost use Rattle.std.specs.Prelude.{◌≡◌, ◌<◌, ◌≤◌, ◌⊎◌, ◌++◌, [], OnOk, IfErr};
ghost use mathlib.Core.List.{IsPrefix};
ghost use Rattle.std.specs.VecDeque.{deque_len, deque_capacity};
ghost use Rattle.ring_records.specs.declared.refusal.Refusal.TheVariants.{OutOfMemory};
ghost use Rattle.decision_board.specs.Boards.{published, pending, refusals, in_rounds, LackedMemory};

use crate::board::Board;
use crate::history::Naming;
use ring_records::{Notice, Refusal};
use std::collections::VecDeque;
use std::marker::Model;
use std::sync::Wait;

/// What a board could not take yet of the notices of a round, in order.
#[derive(Drop)]
pub struct Owed {
    notices: VecDeque<Notice>,
}

impl Model for Owed {
    ghost use Rattle.std.specs.Prelude.{List};
    ghost use Rattle.ring_records.specs.declared.notice.Notice.{Notice};

    ghost Value = { List Notice };

    ghost view = { λ owed. owed.notices.items };
}

impl Owed {
    /// The notices, in order.
    pub fn into_notices(self) -> VecDeque<Notice>
        ensures { result.items ≡ self }
    {
        let Owed { notices } = self;
        notices
    }
}

impl<J: Naming> Board<J> {
    /// Owes these notices too, a round for which there is a place, takes what is owed as far as there is memory, and
    /// publishes all that it took. Unless a growth was refused, nothing is owed or pending then. Refused as 8, it published
    /// nothing, and what it took waits for the next `publish`.
    pub fn publish_owed<R: Wait>(
        &mut self,
        rt: &R,
        owed: &mut VecDeque<Owed>,
        notices: Vec<Notice>,
    ) -> Result<(), Refusal>
        requires { deque_len owed.old < deque_capacity owed.old }
        ensures told { published self.new ++ (pending self.new ++ in_rounds owed.new.items) ≡ (published self.old ++ (pending self.old ++ in_rounds owed.old.items)) ++ notices.items }
        ensures published { IsPrefix (published self.old) (published self.new) }
        ensures pending { OnOk result (pending self.new ≡ []) }
        ensures all { LackedMemory self.old self.new ⊎ ((pending self.new ≡ []) × (in_rounds owed.new.items ≡ [])) }
        ensures refusals { refusals self.old ≤ refusals self.new }
        ensures refused { IfErr result (λ e. (e ≡ OutOfMemory) × (published self.new ≡ published self.old) × LackedMemory self.old self.new) }
    {
        owe(owed, notices);
        hand_over_all(self, owed);
        self.publish(rt)
    }
}

/// Owes these too, for which there is a place.
fn owe(owed: &mut VecDeque<Owed>, notices: Vec<Notice>)
    requires { deque_len owed.old < deque_capacity owed.old }
    ensures { in_rounds owed.new.items ≡ in_rounds owed.old.items ++ notices.items }
{
    let notices = VecDeque::from_vec(notices);
    owed.push_back_reserved(Owed { notices });
}

/// Has the board take what is owed, in order, as long as there is memory.
fn hand_over_all<J: Naming>(board: &mut Board<J>, owed: &mut VecDeque<Owed>)
    ensures published { published board.new ≡ published board.old }
    ensures order { pending board.new ++ in_rounds owed.new.items ≡ pending board.old ++ in_rounds owed.old.items }
    ensures all { LackedMemory board.old board.new ⊎ (in_rounds owed.new.items ≡ []) }
    ensures refusals { refusals board.old ≤ refusals board.new }
{
    while let Some(mut round) = owed.pop_front() {
        hand_over(board, &mut round.notices);
        if !round.notices.is_empty() {
            owed.push_front_reserved(round);
            break;
        }
    }
}

/// Has the board take what is owed of a round, in order, as long as there is memory.
fn hand_over<J: Naming>(board: &mut Board<J>, owed: &mut VecDeque<Notice>)
    ensures published { published board.new ≡ published board.old }
    ensures order { pending board.new ++ owed.new.items ≡ pending board.old ++ owed.old.items }
    ensures all { LackedMemory board.old board.new ⊎ (owed.new.items ≡ []) }
    ensures refusals { refusals board.old ≤ refusals board.new }
{
    while let Some(notice) = owed.front() {
        if board.append(*notice).is_err() {
            break;
        }
        owed.pop_front();
    }
}
