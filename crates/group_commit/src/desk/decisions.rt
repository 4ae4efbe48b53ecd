//! What a desk's durable inputs tell a board.
ghost use Rattle.std.specs.Prelude.{◌≡◌, ◌++◌, List, IfOk, OnOk};
ghost use Rattle.std.specs.List.{filter_map};
ghost use Rattle.std.specs.Option.{option_map};
ghost use Rattle.ring_records.specs.declared.input.Input.{Input};
ghost use Rattle.ring_records.specs.declared.notice.Notice.TheVariants.{Decided};
ghost use Rattle.ring_records.specs.Known.{after};
ghost use Rattle.ring_records.specs.Notices.{decided_all};
ghost use Rattle.ring_records.specs.States.{durable_in};
ghost use Rattle.group_commit.specs.Content.{retired_all, IsContent};
ghost use Rattle.group_commit.specs.Leads.{led};
ghost use Rattle.group_commit.specs.Desk.{seen};
ghost use Rattle.group_commit.specs.Past.{IsPast};

use crate::desk::Desk;
use crate::desk::vouch::core_of;
use crate::landed::push_notice;
use ring_records::{Decision, Key, KeyState, Notice, Summary};
use std::alloc::{AllocError, Global};

impl Desk {
    /// What a board is made of: a notice for each key with a leader in the durable inputs, in order of key, and then one for
    /// each floor, in order of group. Where inputs wait it takes the durable ones again that it has not let go of, k of them
    /// in k log k steps.
    pub fn decisions(&self) -> Result<Vec<Notice>, AllocError>
        ensures { IfOk result (λ told. (past : List Input) → IsPast self.now.view.member self.now.opening past
            → IsContent self.now.view.member.node (durable_in (seen past self.now).state) told.items) }
    {
        let alloc = self.inputs.allocator();
        let known = self.durable_summary(alloc)?;
        let mut notices = leaders_of(alloc, known.keys.as_slice())?;
        push_floors(&mut notices, known.floors.as_slice())?;
        Ok(notices)
    }

    // What its node knows by the durable inputs.
    fn durable_summary(&self, alloc: Global) -> Result<Summary, AllocError>
        ensures { IfOk result (λ known. known ≡ after self.now.view.member.node self.now.opening (durable_in self.now.view.state)) }
    {
        if self.durable == self.inputs.count {
            return self.core.summary(alloc);
        }
        let durable = self.inputs.between(self.inputs.gone, self.durable);
        let core = core_of(alloc, self.node, self.n, self.start(), durable)?;
        core.summary(alloc)
    }
}

// A notice for each key with a leader.
fn leaders_of(alloc: Global, states: &[KeyState]) -> Result<Vec<Notice>, AllocError>
    ensures { IfOk result (λ made. made.items ≡ decided_all (filter_map led states.now)) }
{
    let mut notices = Vec::with_capacity(alloc, states.len())?;
    for state in states {
        push_notice(&mut notices, &notice_of(state));
    }
    Ok(notices)
}

// The notice of a key, where it has a leader.
fn notice_of(state: &KeyState) -> Option<Notice>
    ensures { result ≡ option_map Decided (led state.now) }
{
    match state.leader {
        Some(leader) => Some(Notice::Decided(Decision {
            key: state.key,
            leader,
        })),
        None => None,
    }
}

// Adds a notice for each floor.
fn push_floors(notices: &mut Vec<Notice>, floors: &[Key]) -> Result<(), AllocError>
    ensures { OnOk result (notices.new.items ≡ notices.old.items ++ retired_all floors.now) }
{
    for floor in floors {
        notices.push(Notice::Retired {
            group: floor.group,
            floor: floor.term,
        })?;
    }
    Ok(())
}
