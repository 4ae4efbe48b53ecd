//! What an operator is told of a ring while it serves: what the threads of a node count, how a node's clerk is asked, and
//! the port at which it is told over HTTP.
//!
//! The answers themselves are those of `ring_status`. Of bytes over sockets no clause speaks.
#![tactic(auto)]

mod exchange;
mod lobby;
mod pages;
mod people;
mod process;
mod reception;
mod roll;
mod status_port;
mod stopwatch;
mod tally;
mod tally_writer;
mod visitor;
mod watchers;

pub use reception::{Inquiry, Page, Reception};
pub use status_port::{Facts, StatusPort};
pub use stopwatch::Stopwatch;
pub use tally::Tally;
pub use tally_writer::TallyWriter;
