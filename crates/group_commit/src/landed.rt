// What a batch or a checkpoint brought.
ghost use Rattle.std.specs.Prelude.{◌≡◌, ◌+◌, ◌^◌, ◌++◌, ◌∷◌, ◌≤◌, ◌<◌, ℕ, [], false, IfOk, vec_len, vec_capacity};
ghost use Rattle.std.specs.List.{cons_option};
ghost use Rattle.ring_records.specs.declared.packet.Packet.TheVariants.{Credit};

use gated_journal::syncs;
use node_core::Effects;
use ring_records::{Notice, Packet};
use std::alloc::{AllocError, Global};
use std::mem::replace;

/// What may be released once a batch or a checkpoint is durable. The notices are there twice: for who releases them, and
/// for who keeps them until a board has memory for them.
#[derive(Drop)]
pub struct Landed {
    /// How many inputs became durable, at most 64 of a batch.
    pub count: u64,
    /// Whether it was a checkpoint.
    pub is_checkpoint: bool,
    /// The messages that they send to the successor, as Carry packets in order, and then, where a message was taken,
    /// one Credit of all that were taken durably, to the predecessor.
    pub packets: Vec<Packet>,
    /// What they tell a board, in order: the leaders that they made known.
    pub notices: Vec<Notice>,
    again: Vec<Notice>,
}

impl Landed {
    ghost use Rattle.gated_journal.specs.WorkTaken.{syncs_of};
    ghost use Rattle.group_commit.specs.Outbox.{IsReady};

    /// How many syncs of the device it took.
    pub fn syncs(&self) -> u64
        ensures { result ≡ syncs_of self.now.is_checkpoint }
    {
        syncs(self.is_checkpoint)
    }

    /// The notices once more, as a list to keep, which takes no memory. After that it has none to give.
    pub fn take_notices(&mut self) -> Vec<Notice>
        ensures again { result ≡ self.old.again }
        ensures same { self.new ≡ record self.old { again = self.new.again } }
    {
        let alloc = *self.packets.allocator();
        replace(&mut self.again, Vec::new(alloc))
    }

    /// Of no inputs.
    pub fn new(alloc: Global) -> Landed
        ensures count { result.count ≡ 0 }
        ensures kind { result.is_checkpoint ≡ false }
        ensures packets { result.packets.items ≡ [] }
        ensures notices { result.notices.items ≡ [] }
        ensures again { result.again.items ≡ [] }
    {
        Landed {
            count: 0,
            is_checkpoint: false,
            packets: Vec::new(alloc),
            notices: Vec::new(alloc),
            again: Vec::new(alloc),
        }
    }

    // Of so many inputs, whose effects are still to be added.
    pub(crate) fn with_room(alloc: Global, count: u64) -> Result<Landed, AllocError>
        requires few { count < 2 ^ 63 }
        ensures count { IfOk result (λ landed. landed.count ≡ count) }
        ensures packets { IfOk result (λ landed. landed.packets.items ≡ []) }
        ensures notices { IfOk result (λ landed. landed.notices.items ≡ []) }
        ensures again { IfOk result (λ landed. landed.again.items ≡ []) }
        ensures room { IfOk result (λ landed. IsReady landed count) }
    {
        Ok(Landed {
            count,
            is_checkpoint: false,
            packets: Vec::with_capacity(alloc, count as usize + 1)?,
            notices: Vec::with_capacity(alloc, count as usize)?,
            again: Vec::with_capacity(alloc, count as usize)?,
        })
    }

    // Gives what landed, and the memory for it, away.
    pub(crate) fn hand_out(&mut self) -> Landed
        ensures given { result ≡ self.old }
        ensures packets { self.new.packets.items ≡ [] }
        ensures notices { self.new.notices.items ≡ [] }
        ensures again { self.new.again.items ≡ [] }
    {
        let alloc = *self.packets.allocator();
        replace(self, Landed::new(alloc))
    }

    // Adds what an input brings.
    pub(crate) fn add(&mut self, effects: &Effects)
        requires room { IsReady self.old 1 }
        ensures packets { self.new.packets.items ≡ self.old.packets.items ++ cons_option effects.now.carry [] }
        ensures notices { self.new.notices.items ≡ self.old.notices.items ++ cons_option effects.now.notice [] }
        ensures again { self.new.again.items ≡ self.old.again.items ++ cons_option effects.now.notice [] }
        ensures count { self.new.count ≡ self.old.count }
        ensures room { (k : ℕ) → IsReady self.old (k + 1) → IsReady self.new k }
    {
        push_carry(&mut self.packets, &effects.carry);
        push_notice(&mut self.notices, &effects.notice);
        push_notice(&mut self.again, &effects.notice);
    }

    // Adds the credit of all messages that were taken.
    pub(crate) fn credit(&mut self, upto: u64)
        requires room { IsReady self.old 0 }
        ensures packets { self.new.packets.items ≡ self.old.packets.items ++ Credit upto ∷ [] }
        ensures notices { self.new.notices.items ≡ self.old.notices.items }
        ensures again { self.new.again.items ≡ self.old.again.items }
        ensures count { self.new.count ≡ self.old.count }
    {
        push_packet(&mut self.packets, &Packet::Credit { upto });
    }
}

fn push_packet(packets: &mut Vec<Packet>, packet: &Packet)
    requires room { vec_len packets.old < vec_capacity packets.old }
    ensures items { packets.new.items ≡ packets.old.items ++ packet.now ∷ [] }
    ensures len { vec_len packets.new ≡ vec_len packets.old + 1 }
    ensures capacity { vec_capacity packets.new ≡ vec_capacity packets.old }
{
    match *packet {
        Packet::Carry { no, msg } => packets.push_reserved(Packet::Carry { no, msg }),
        Packet::Credit { upto } => packets.push_reserved(Packet::Credit { upto }),
    }
}

fn push_carry(packets: &mut Vec<Packet>, carry: &Option<Packet>)
    requires room { vec_len packets.old < vec_capacity packets.old }
    ensures items { packets.new.items ≡ packets.old.items ++ cons_option carry.now [] }
    ensures len { vec_len packets.new ≤ vec_len packets.old + 1 }
    ensures capacity { vec_capacity packets.new ≡ vec_capacity packets.old }
{
    if let Some(packet) = carry {
        push_packet(packets, packet);
    }
}

/// Adds the notice, if there is one.
pub(crate) fn push_notice(notices: &mut Vec<Notice>, notice: &Option<Notice>)
    requires room { vec_len notices.old < vec_capacity notices.old }
    ensures items { notices.new.items ≡ notices.old.items ++ cons_option notice.now [] }
    ensures len { vec_len notices.new ≤ vec_len notices.old + 1 }
    ensures capacity { vec_capacity notices.new ≡ vec_capacity notices.old }
{
    if let Some(notice) = notice {
        notices.push_reserved(*notice);
    }
}
