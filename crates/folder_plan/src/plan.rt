//! What a start does in a ring's folder, and what takes it back.
ghost use Rattle.std.specs.Prelude.{◌≡◌, ◌++◌, ◌⊎◌, List, IfOk};
ghost use Rattle.std.specs.List.{Contains, list_any};
ghost use Rattle.folder_plan.specs.Order.{IsForGood, IsUnmarked, Follows, IsTakenBack, IsOfNode};
ghost use Rattle.folder_plan.specs.Undo.{is_mark, unmarking, unnaming};

use crate::step::FolderStep;
use ring_records::NodeNo;
use std::alloc::{AllocError, Global};

/// What makes the file of a node that has none. A stop at any moment leaves a file that is recovered, or none of its name;
/// what it left else is made anew.
pub fn making(node: NodeNo) -> [FolderStep; 3]
    ensures order { (begun : List FolderStep) → IsUnmarked begun → Follows begun result }
    ensures named { Contains result (FolderStep.Name node) }
    ensures alone { (step : FolderStep) → Contains result step → IsOfNode node step }
{
    [
        FolderStep::Clear(node),
        FolderStep::Format(node),
        FolderStep::Name(node),
    ]
}

/// What makes `ring.made` once each node has a file, made by whatever start: all their names are on the disk before, and the
/// ring's identity with its name.
pub fn marking() -> [FolderStep; 4]
    ensures order { (begun : List FolderStep) → Follows begun result }
    ensures marked { IsForGood result FolderStep.Mark }
    ensures alone { (step : FolderStep) → Contains result step → (step ≡ FolderStep.Sign) ⊎ ((step ≡ FolderStep.Mark) ⊎ (step ≡ FolderStep.Sync)) }
{
    [
        FolderStep::Sign,
        FolderStep::Sync,
        FolderStep::Mark,
        FolderStep::Sync,
    ]
}

/// What takes back all that a refused start left, whose steps were these; of the last one it is not known whether it was
/// done. A stop at any moment leaves what the next start goes on from.
pub fn taking_back(alloc: Global, begun: &[FolderStep]) -> Result<Vec<FolderStep>, AllocError>
    ensures order { IfOk result (λ plan. Follows begun.now plan.items) }
    ensures whole { IfOk result (λ plan. IsTakenBack begun.now plan.items) }
{
    let mut plan = unmarking(alloc, begun)?;
    plan.append(&mut unnaming(alloc, begun)?)?;
    plan.push(FolderStep::Sync)?;
    Ok(plan)
}

/// What takes `ring.made` back where one of these steps made it.
fn unmarking(alloc: Global, begun: &[FolderStep]) -> Result<Vec<FolderStep>, AllocError>
    ensures { IfOk result (λ plan. plan.items ≡ unmarking begun.now) }
{
    let mut plan = Vec::new(alloc);
    if has_mark(begun) {
        plan.push(FolderStep::Unmark)?;
        plan.push(FolderStep::Sync)?;
    }
    Ok(plan)
}

/// What takes back the files of nodes, and of the ring's identity, that these steps left, or may have left.
fn unnaming(alloc: Global, begun: &[FolderStep]) -> Result<Vec<FolderStep>, AllocError>
    ensures { IfOk result (λ plan. plan.items ≡ unnaming begun.now) }
{
    begun.iter().filter_map(|step| step.undone()).collect(alloc)
}

fn has_mark(begun: &[FolderStep]) -> bool
    ensures { result ≡ list_any is_mark begun.now }
{
    begun.iter().any(|step| step.is_mark())
}
