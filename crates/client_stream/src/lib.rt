//! Connections of clients at a port of 127.0.0.1: who comes next, how long their bytes may take, and how one is left.
//!
//! Nothing is claimed of the bytes themselves, since the kit's streams tell none.
#![tactic(auto)]

mod arrival;
mod deadline;
mod lines;
mod stay;
mod transfer;

pub use arrival::next_client;
pub use deadline::Deadline;
pub use lines::{ClientReader, ClientWriter};
pub use stay::Stay;
pub use transfer::{part, receive, send, send_all};
