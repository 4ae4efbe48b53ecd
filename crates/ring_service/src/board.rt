//! The board of a node that is opened.
ghost use Rattle.std.specs.Prelude.{◌≡◌, ◌≤◌, [], List, IfOk, IfErr};
ghost use Rattle.ring_records.specs.declared.input.Input.{Input};
ghost use Rattle.ring_records.specs.declared.limits.TheConstants.{DOORS};
ghost use Rattle.ring_records.specs.States.{durable_in};
ghost use Rattle.group_commit.specs.Content.{IsContent};
ghost use Rattle.group_commit.specs.Desk.{seen};
ghost use Rattle.group_commit.specs.Past.{IsPast};
ghost use Rattle.decision_board.specs.Boards.{published, pending};

use decision_board::{Board, Naming, Opened};
use group_commit::Desk;
use ring_records::Refusal;
use std::alloc::Global;

/// A board for so many readers, 1 to 32, that shows the leaders and the floors which the desk knows by its durable inputs.
/// Refused as 8. `laws::restarted_board` says why a board may begin so.
pub fn opened_board<J: Naming>(
    alloc: Global,
    opened: Opened,
    desk: &Desk,
    readers: usize,
) -> Result<Board<J>, Refusal>
    requires history { opened ≡ J.history }
    requires readers { (1 ≤ readers) × (readers ≤ DOORS) }
    ensures content { IfOk result (λ board. (past : List Input) → IsPast desk.now.view.member desk.now.opening past
        → IsContent desk.now.view.member.node (durable_in (seen past desk.now).state) (published board)) }
    ensures pending { IfOk result (λ board. pending board ≡ []) }
    ensures refusal { IfErr result (λ why. why ≡ Refusal.OutOfMemory) }
{
    match desk.decisions() {
        Ok(notices) => Board::new(alloc, opened, &notices, readers),
        Err(_) => Err(Refusal::OutOfMemory),
    }
}
