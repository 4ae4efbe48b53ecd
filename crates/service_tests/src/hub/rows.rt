// What hubs are given and give. All numbers and names of rows are in their ranges.
ghost use Rattle.std.specs.Prelude.{◌≡◌, false, None};
ghost use Rattle.ring_records.specs.Snapshot.{IsSound};
ghost use Rattle.gated_journal.specs.Journal.{member_of};
ghost use Rattle.commit_hub.specs.Over.{is_over};

use crate::calls::refused;
use crate::rows::{device_for, node};
use disk_model::{FuseDevice, MemDevice};
use gated_journal::{Journal, Opening};
use group_commit::Desk;
use ring_records::laws::summary_sound;
use ring_records::{NodeNo, Refusal, read_summary};
use std::alloc::AllocGlobal;
use std::process::Abort;

/// Why a hub refuses a call.
#[derive(Clone, Copy)]
pub enum No {
    BadNumber,
    Failed,
    Busy,
}

impl No {
    pub fn refusal(self) -> Refusal {
        match self {
            No::BadNumber => Refusal::BadNumber,
            No::Failed => Refusal::Failed,
            No::Busy => Refusal::Busy,
        }
    }
}

/// What a new journal holds: no inputs.
fn opening<R: AllocGlobal>(rt: &R) -> Opening
    ensures { IsSound 3 result.base }
{
    summary_sound();
    Opening::fresh(rt.alloc())
}

/// The desk of this node of 3, capacity 4,096, at this opening, with no inputs.
pub fn new_desk<R: Abort + AllocGlobal>(rt: &R, number: u8, run: u64) -> Desk
    ensures none { result.view.state.checkpoint ≡ None }
    ensures idle { result.view.state.flying ≡ result.view.state.durable }
    ensures open { is_over result ≡ false }
    ensures ring { result.view.member.n ≡ 3 }
{
    Desk::open(rt.alloc(), node(rt, number), 3, 4096, run, opening(rt)).expect(rt, "no inputs")
}

/// The snapshot in layout 2 of a Stand of node 1, group `red`, term 5, bid 10. It is 65 bytes long.
const STOOD: [u8; 65] = [
    0, 0, 0, 0, 0, 0, 0, 1, 0, 0, 0, 0, 0, 0, 0, 0, 0, 0, 0, 0, 0, 0, 0, 0, 0, 0, 0, 0, 0, 0, 0, 1,
    0, 1, 0, 0, 0, 1, 3, 0x72, 0x65, 0x64, 0, 0, 0, 5, 1, 0, 0, 0, 10, 2, 3, 0x72, 0x65, 0x64, 0,
    0, 0, 5, 0, 0, 0, 10, 1,
];

/// What a journal of layout 2 holds that summarises a Stand: no inputs behind it.
fn opening_behind<R: Abort + AllocGlobal>(rt: &R) -> Opening
    ensures { IsSound 3 result.base }
{
    Opening {
        layout: 2,
        epoch: 2,
        base: read_summary(rt.alloc(), &STOOD, 3, 2).expect(rt, "a snapshot"),
        inputs: Vec::new(rt.alloc()),
    }
}

/// The desk of node 1 of 3, capacity 4,096, whose opening summarises a Stand.
pub fn desk_behind<R: Abort + AllocGlobal>(rt: &R) -> Desk
    ensures none { result.view.state.checkpoint ≡ None }
    ensures idle { result.view.state.flying ≡ result.view.state.durable }
    ensures open { is_over result ≡ false }
    ensures ring { result.view.member.n ≡ 3 }
{
    Desk::open(rt.alloc(), node(rt, 1), 3, 4096, 0, opening_behind(rt)).expect(rt, "no inputs")
}

/// A new journal of node 1 of 3, capacity 4,096.
pub fn journal_of<R: Abort + AllocGlobal>(rt: &R) -> Journal<MemDevice>
    ensures { (member_of result).n ≡ 3 }
{
    let device = device_for(rt, 4096).expect(rt, "ample memory");
    match Journal::format(device, NodeNo::first(), 3, 4096) {
        Ok(journal) => journal,
        Err((_device, refusal)) => refused(rt, refusal),
    }
}

/// A new journal of node 1 of 3, capacity 4,096, whose device fails from now on.
pub fn broken_journal<R: Abort + AllocGlobal>(rt: &R) -> Journal<FuseDevice<MemDevice>> {
    let device = device_for(rt, 4096).expect(rt, "ample memory");
    match Journal::format(FuseDevice::idle(device), NodeNo::first(), 3, 4096) {
        Ok(made) => {
            let mut journal = made;
            journal.arm(0, false);
            journal
        }
        Err((_device, refusal)) => refused(rt, refusal),
    }
}
