// Whether histories can be told as one run.
ghost use Rattle.std.specs.Prelude.{◌≡◌, IfOk, IfErr};
ghost use Rattle.ring_audit.specs.declared.runs.AuditFault.TheVariants.{Memory};
ghost use Rattle.ring_audit.specs.Audits.{HasShape};
ghost use Rattle.ring_audit.specs.Explained.{Explains};
ghost use Rattle.ring_audit.specs.Placement.{lists, IsWhole};

use crate::placing::Placing;
use ring_records::{Input, NodeNo};
use std::alloc::{AllocError, Global};

/// A run: each input with its node.
pub type Run = Vec<(NodeNo, Input)>;

/// Why histories cannot be told as one run.
#[derive(Clone, Copy, PartialEq, Eq)]
pub enum AuditFault {
    /// They are not those of 2 to 16 nodes.
    Shape,
    /// This node is the lowest whose inputs cannot all be placed, and so many of them can.
    Stuck { node: NodeNo, place: u64 },
    /// Memory was refused.
    Memory,
}

impl From<AllocError> for AuditFault {
    ghost from_gives = { λ _ fault. fault ≡ Memory };

    fn from(_: AllocError) -> AuditFault {
        AuditFault::Memory
    }
}

/// A legal run whose parts are the histories, which stand in ring order; else why there is none.
pub fn audit(alloc: Global, histories: &[Vec<Input>]) -> Result<Run, AuditFault>
    ensures shape { IfOk result (λ run. HasShape (lists histories.now)) }
    ensures whole { IfOk result (λ run. IsWhole (lists histories.now) run.items) }
    ensures fault { IfErr result (λ fault. Explains (lists histories.now) fault) }
{
    if histories.len() < 2 || histories.len() > 16 {
        return Err(AuditFault::Shape);
    }
    let mut placing = Placing::new(alloc, histories)?;
    placing.place_all(histories)?;
    match placing.stuck(histories) {
        None => Ok(placing.run),
        Some((node, place)) => Err(AuditFault::Stuck { node, place }),
    }
}
