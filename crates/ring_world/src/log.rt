// What a ring is known by, apart from its nodes.
use crate::happened::Happened;
use std::alloc::Global;

/// How a ring was made, and what happened to it.
#[derive(Drop)]
pub struct Log {
    pub alloc: Global,
    /// How many nodes it has, 2 to 16.
    pub size: u8,
    /// The capacity of each, in bytes.
    pub capacity: u32,
    /// Whether each input is made durable as it is accepted.
    pub eager: bool,
    /// How many ticket numbers are taken.
    pub tickets: u64,
    /// What happened, the oldest first.
    pub events: Vec<Happened>,
    /// How many of these events were told.
    pub told: usize,
}

impl Log {
    /// One that stands for no ring.
    pub fn nothing(alloc: Global) -> Log {
        Log {
            alloc,
            size: 0,
            capacity: 0,
            eager: false,
            tickets: 0,
            events: Vec::new(alloc),
            told: 0,
        }
    }
}
