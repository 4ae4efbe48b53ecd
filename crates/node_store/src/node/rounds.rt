// A round of a node: what flies becomes durable, a batch or a checkpoint.
ghost use Rattle.std.specs.Prelude.{◌≡◌, ◌-◌, List, true, false, IfOk, IfErr, IsOk, OnOk, OnErr};
ghost use Rattle.disk_model.specs.Disk.{LeavesOnly, Reaches};
ghost use Rattle.disk_model.specs.Calls.{HasCause};
ghost use Rattle.ring_records.specs.declared.input.Input.{Input};
ghost use Rattle.ring_records.specs.Release.{packets, notices};
ghost use Rattle.ring_records.specs.States.{durable_in, flying_in};
ghost use Rattle.gated_journal.specs.Areas.{AllReadAs};
ghost use Rattle.gated_journal.specs.Batch.{landed as receipted, lost};
ghost use Rattle.gated_journal.specs.Journal.{device_of};
ghost use Rattle.gated_journal.specs.Reading.{device_size};
ghost use Rattle.group_commit.specs.Desk.{landed, seen};
ghost use Rattle.group_commit.specs.DeskCalls.{IsFlying};
ghost use Rattle.group_commit.specs.Past.{IsPast};
ghost use Rattle.node_store.specs.Standing.{Stands};
ghost use Rattle.node_store.specs.Flying.{Flies};
ghost use Rattle.node_store.specs.State.{MayBeLeft, flown_held};

use disk_model::Device;
use gated_journal::{Journal, Receipt, Spoiled, Work};
use group_commit::{Desk, Landed};

// Makes what flies durable, and tells what that lets the node release. At `Err` the device failed, and the desk with it, so
// that the work flies for good: how many calls of the device have failed.
pub(crate) fn settle<D: Device>(
    desk: &mut Desk,
    journal: &mut Journal<D>,
    work: Work,
) -> Result<Landed, u64>
    requires { Flies desk.old journal.old work }
    ensures stands { Stands desk.new journal.new }
    ensures next { OnOk result (desk.new ≡ record desk.old { view = landed desk.old.view }) }
    ensures count { IfOk result (λ l. l.count ≡ desk.old.view.state.flying - desk.old.view.state.durable) }
    ensures packets { IfOk result (λ l. (past : List Input) → IsPast desk.old.view.member desk.old.opening past
        → l.packets.items ≡ packets desk.old.view.member.node (durable_in (seen past desk.old).state) (flying_in (seen past desk.old).state)) }
    ensures notices { IfOk result (λ l. (past : List Input) → IsPast desk.old.view.member desk.old.opening past
        → l.notices.items ≡ notices desk.old.view.member.node (durable_in (seen past desk.old).state) (flying_in (seen past desk.old).state)) }
    ensures durable { OnOk result (AllReadAs desk.old.view.member (D.disk (device_of journal.new)) (flown_held desk.old)) }
    ensures failed { OnErr result (desk.new ≡ record desk.old { view = record desk.old.view { failed = true } }) }
    ensures failures { IfErr result (λ failures. failures ≡ D.count (device_of journal.new)) }
    ensures cause { HasCause (D.count (device_of journal.old)) (D.count (device_of journal.new)) result }
    ensures works { Reaches (D.reach (device_of journal.old)) (device_size desk.old.view.member.capacity) → IsOk result }
    ensures any_moment { LeavesOnly D.clock D.left_since (device_of journal.old) (device_of journal.new) (MayBeLeft desk.old) }
    ensures reach { D.reach (device_of journal.new) ≡ D.reach (device_of journal.old) }
{
    match journal.write(work) {
        Ok(receipt) => Ok(land(desk, receipt)),
        Err(spoiled) => {
            fail(desk, spoiled);
            Err(journal.failures())
        }
    }
}

// What flies is durable, a batch or a checkpoint.
fn land(desk: &mut Desk, receipt: Receipt) -> Landed
    requires works { desk.old.view.failed ≡ false }
    requires flying { IsFlying desk.old (receipted receipt) }
    ensures count { result.count ≡ desk.old.view.state.flying - desk.old.view.state.durable }
    ensures packets { (past : List Input) → IsPast desk.old.view.member desk.old.opening past
        → result.packets.items ≡ packets desk.old.view.member.node (durable_in (seen past desk.old).state) (flying_in (seen past desk.old).state) }
    ensures notices { (past : List Input) → IsPast desk.old.view.member desk.old.opening past
        → result.notices.items ≡ notices desk.old.view.member.node (durable_in (seen past desk.old).state) (flying_in (seen past desk.old).state) }
    ensures next { desk.new ≡ record desk.old { view = landed desk.old.view } }
{
    match desk.land(receipt) {
        Ok(landed) => landed,
        Err(_) => unreachable!(),
    }
}

// The device failed with what flies.
fn fail(desk: &mut Desk, spoiled: Spoiled)
    requires flying { IsFlying desk.old (lost spoiled) }
    ensures next { desk.new ≡ record desk.old { view = record desk.old.view { failed = true } } }
{
    match desk.fail(spoiled) {
        Ok(()) => {}
        Err(_) => unreachable!(),
    }
}
