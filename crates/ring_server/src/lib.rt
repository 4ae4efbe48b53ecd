//! A ring of durable nodes that serve clients over sockets: each node in threads of its own, with its journal in a file.
//!
//! `start` is the program `ringd` over readers and writers. docs/ARCHITECTURE.md tells who waits for whom.
#![tactic(auto)]

mod clerk;
mod crew;
mod door;
mod enrolled;
mod event;
mod flush;
mod held;
mod inbox;
mod links;
mod marks;
mod node;
mod pace;
mod ports;
mod post;
mod ring;
mod ringd;
mod run_fault;
mod shared;
mod site;
mod start_latch;
mod taking;
mod troubles;
mod turnstile;
mod watch;
mod window;

pub use post::Post;
pub use ring::{Ring, serve_ring};
pub use ringd::start;
pub use run_fault::RunFault;
pub use site::{Doors, Site};
