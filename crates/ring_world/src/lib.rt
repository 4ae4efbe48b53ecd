//! A ring of durable nodes in memory, and the events that a script may cause in it.
//!
//! A World keeps the list of all that happened (specs/Events) and shows the nodes that it reaches. What an event tells
//! and where it leads is said in specs/Step, of parts in specs/Ring. `laws` says what holds of every legal run, and of
//! every list of events.
#![tactic(auto)]

mod announced;
mod event;
pub mod fits;
mod happened;
pub mod laws;
mod log;
mod outcome;
mod working;
mod world;

pub use announced::Announced;
pub use event::Event;
pub use outcome::Outcome;
pub use ring_audit::{AuditFault, Run, audit};
pub use world::World;
