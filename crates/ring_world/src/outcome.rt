// What an event brings.
ghost use Rattle.std.specs.Prelude.{◌≡◌};
ghost use Rattle.ring_world.specs.Step.{told, nothing_told};

use ring_records::Reply;
use std::alloc::Global;

/// What an event brings.
#[derive(Drop)]
pub struct Outcome {
    /// The ticket number that it took, from 1 on.
    pub ticket: Option<u64>,
    /// How many inputs a flush or a checkpoint made durable.
    pub flushed: Option<u32>,
    /// How many deliveries were accepted, for the event that makes them all.
    pub delivered: Option<u32>,
    /// The tickets that are answered now, each with its reply, in order.
    pub replies: Vec<(u64, Reply)>,
    /// The tickets that were open at a node that was opened again, in order.
    pub lost: Vec<u64>,
    /// How many inputs that node holds.
    pub up: Option<u64>,
}

impl Outcome {
    /// One that tells nothing.
    pub(crate) fn nothing(alloc: Global) -> Outcome
        ensures { told result ≡ nothing_told }
    {
        Outcome {
            ticket: None,
            flushed: None,
            delivered: None,
            replies: Vec::new(alloc),
            lost: Vec::new(alloc),
            up: None,
        }
    }
}
