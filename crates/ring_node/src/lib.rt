//! A durable node of a ring in memory.
#![tactic(auto)]

mod checkpoint;
mod flight;
mod held;
mod messages;
mod node;
mod restart;

pub use flight::Flight;
pub use node::RingNode;
