//! What the program of a running ring tells on standard error, and in which order, and how far the start of a ring is: values
//! that ring_server's threads change under its locks.
//!
//! `specs/` says the same by definitions: Books has what is told next, Calls what is told over any calls, Happenings what has happened, Wanting and Looks what is
//! told of what the nodes want, and Starts the start.
#![tactic(auto)]

mod book;
mod event;
mod events;
mod failure;
mod laws;
mod news;
mod starting;
mod troubles;
mod wants;

pub use book::{Book, place};
pub use event::Event;
pub use events::Events;
pub use failure::Failure;
pub use laws::failures_are_told_once;
pub use news::News;
pub use starting::{Shortage, Starting};
pub use troubles::{NodeTroubles, WantsTold};
pub use wants::Wants;
