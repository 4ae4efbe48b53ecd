// Audits of the world.
ghost use Rattle.std.specs.Prelude.{◌≡◌, ◌⊎◌, Some, None, IfErr, IfOk, OnOk, string_bytes};
ghost use Rattle.ring_world.specs.Dropped.{withheld};
ghost use Rattle.fault_console.specs.Progress.{Does};
ghost use Rattle.fault_console.specs.Script.{Audits, placed_of};

use crate::console::refuse;
use crate::print::print_audit;
use ring_audit::laws::placement;
use ring_records::Refusal;
use ring_world::{AuditFault, World, audit};
use std::alloc::{AllocError, Global};

// How many inputs an audit of the world's histories places, or why they are not audited.
fn audited(alloc: Global, world: &World) -> Result<u64, Refusal>
    ensures value { IfOk result (λ count. count ≡ placed_of world.now) }
    ensures given { OnOk result (withheld world.now ≡ None) }
    ensures refused { IfErr result (λ refusal. (refusal ≡ Refusal.OutOfMemory) ⊎ (withheld world.now ≡ Some refusal)) }
{
    placement();
    let histories = world.histories()?;
    match audit(alloc, &histories) {
        Ok(run) => Ok(run.len() as u64),
        Err(AuditFault::Memory) => Err(Refusal::OutOfMemory),
        Err(_) => unreachable!(),
    }
}

/// Adds what an audit says of the world, or why there is none: one line.
pub(crate) fn tell_audit(alloc: Global, world: &World, out: &mut String) -> Result<u64, AllocError>
    ensures prints { IfOk result (λ n. Does (string_bytes out.old) (string_bytes out.new) n
        (λ lines. Audits world.now (withheld world.now) lines (Some world.now))) }
    ensures few { IfOk result (λ n. n ≡ 1) }
{
    match audited(alloc, world) {
        Ok(count) => {
            print_audit(out, count)?;
            Ok(1)
        }
        Err(Refusal::OutOfMemory) => Err(AllocError),
        Err(refusal) => refuse(out, refusal),
    }
}
