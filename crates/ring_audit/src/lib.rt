//! Whether the histories of a ring's nodes can be told as one legal run.
#![tactic(auto)]

pub mod laws;
mod part;
mod placing;
mod runs;

pub use runs::{AuditFault, Run, audit};
