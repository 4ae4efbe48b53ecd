//! How a session goes.
use std::sync::atomic::{AtomicBool, AtomicU64, Ordering};

/// How the session at a door goes: whether a line kept it from being idle since its time began, and whether it holds the last
/// free door of its node.
#[derive(Drop)]
pub struct Stay<'a> {
    /// The door that has the number of the last free one, as long as no other is free.
    short: &'a AtomicU64,
    door: u32,
    is_kept: AtomicBool,
}

impl<'a> Stay<'a> {
    /// Of a session that begins at this door. At which door one holds the last free one stands in `short`.
    pub fn new(short: &'a AtomicU64, door: u32) -> Stay<'a> {
        Stay {
            short,
            door,
            is_kept: AtomicBool::new(false),
        }
    }

    /// A line was answered that keeps it from being idle.
    pub fn keep(&self) {
        self.is_kept.store(true, Ordering::SeqCst);
    }

    /// Whether one was since this was asked last.
    pub(crate) fn take_kept(&self) -> bool {
        self.is_kept.swap(false, Ordering::SeqCst)
    }

    /// Whether it holds the last free door. Where it does not, it never will.
    pub fn is_short(&self) -> bool {
        self.short.load(Ordering::SeqCst) == u64::from(self.door)
    }
}
