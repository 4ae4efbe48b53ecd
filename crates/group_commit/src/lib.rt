//! The desk of a node: it accepts inputs at once, and releases what follows from them once they are durable.
#![tactic(auto)]

mod all_inputs;
mod desk;
mod gone;
mod inputs;
mod judge;
mod kept;
mod landed;
pub mod laws;
mod outbox;
mod released;
mod shared;
mod ticket;

pub use desk::Desk;
pub use gone::Gone;
pub use landed::Landed;
pub use shared::SharedDesk;
pub use ticket::{Stub, Ticket};
