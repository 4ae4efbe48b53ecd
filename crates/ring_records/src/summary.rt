// What stands in a journal in place of old inputs.
ghost use Rattle.std.specs.Prelude.{◌≡◌, IfOk};

use crate::{Floors, KeyStates, Msg};
use std::alloc::{AllocError, Global};
use std::marker::Model;

/// Messages, oldest first.
#[derive(Drop)]
pub struct Messages {
    items: Vec<Msg>,
}

impl Model for Messages {
    ghost use Rattle.std.specs.Prelude.{List};
    ghost use Rattle.ring_records.specs.declared.msg.Msg.{Msg};

    ghost Value = { List Msg };

    ghost view = { λ m. m.items.items };
}

impl Messages {
    /// The messages of this list.
    pub fn from_vec(items: Vec<Msg>) -> Messages
        ensures { result ≡ items.items }
    {
        Messages { items }
    }

    /// A copy of these messages; the error is that of the allocator.
    pub fn from_slice(alloc: Global, messages: &[Msg]) -> Result<Messages, AllocError>
        ensures { IfOk result (λ copy. copy ≡ messages.now) }
    {
        Ok(Messages {
            items: Vec::from_slice(alloc, messages)?,
        })
    }

    /// The messages, oldest first.
    pub fn as_slice(&self) -> &[Msg]
        ensures { result.now ≡ self.now }
    {
        &self.items
    }
}

/// What a node must know of its inputs to go on from them.
#[derive(Drop)]
pub struct Summary {
    /// How many inputs it stands for, at most 2^56.
    pub inputs: u64,
    /// How many of them are Takes.
    pub taken: u64,
    /// The upto of the last Acked, 0 if there is none.
    pub credit: u64,
    /// How many messages were sent.
    pub sent: u64,
    /// How many of the inputs are Stands.
    pub stands: u16,
    /// What is known of each key that an input names.
    pub keys: KeyStates,
    /// The messages that were sent and not credited, oldest first.
    pub window: Messages,
    /// The floors of groups; no key is below one.
    pub floors: Floors,
}

impl Summary {
    ghost use Rattle.ring_records.specs.Summary.{empty};

    /// That of a node without inputs. It takes no memory.
    pub fn empty(alloc: Global) -> Summary
        ensures { result ≡ empty }
    {
        Summary {
            inputs: 0,
            taken: 0,
            credit: 0,
            sent: 0,
            stands: 0,
            keys: KeyStates::from_sorted(Vec::new(alloc)),
            window: Messages::from_vec(Vec::new(alloc)),
            floors: Floors::from_sorted(Vec::new(alloc)),
        }
    }
}
