//! How a node's packets go, as values: what a letter is, where it goes, what an inbox does with those that it hears, what a node
//! with little room leaves, when it is told of credits, when messages are sent again, and when what comes is let gather.
//!
//! `specs/` says the same by definitions: Letters, Chronicles, Intakes, Room, Credits and Routes.
#![tactic(auto)]

mod chronicle;
mod credits;
mod hand;
mod intake;
mod letter;
mod met;
mod outcome;
mod pace;
mod repeats;
mod room;
mod route;
mod step;
mod tickets;

pub use chronicle::{Chronicle, Entry};
pub use credits::Credits;
pub use hand::Hand;
pub use intake::Intake;
pub use letter::{Letter, RingPlace};
pub use outcome::{Outcome, lacks_room};
pub use pace::{PROMPT, Pace};
pub use repeats::{LONGEST_PAUSE, PAUSE, Repeats};
pub use room::{awaits_room, has_little_room, is_full, is_left};
pub use route::{is_missing, receiver_of};
pub use step::Step;
