//! A run of a whole script of fault_console, from a reader to a writer. `specs/Written` says what it writes.
#![tactic(auto)]

mod runs;

pub use runs::{RunFault, run};
