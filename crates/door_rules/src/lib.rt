//! What a node's doors go by: what keeps a session from being idle, which one holds the last free door, what a line says of
//! what its session stood for, and what is known of that.
//!
//! `specs/` says the same by definitions: Doors has sessions and doors, Marks the lines, Refusals which of them are told, Stands
//! what is known of who stood for a key, Waiters what a waiter is told.
#![tactic(auto)]

mod keeping;
mod keys;
mod limits;
mod mark;
mod presence;
mod refusals;
mod resigned;
mod stand;
mod stood;
mod turns;
mod waiters;

pub use keeping::keeps;
pub use limits::TERMS;
pub use mark::{MARK_BYTES, Mark, TEXT_BYTES, read_mark};
pub use presence::{Presence, presence_of};
pub use refusals::is_listed;
pub use resigned::Resigned;
pub use stood::Stood;
pub use turns::{FULL_SECONDS, SHORT_LINES, Turns, is_over};
pub use waiters::{is_next, is_told};
