//! A ring from the files of its folder to nodes that may be served: what opens it, looks it over, makes it, renews it, takes
//! back what a refused start made, and tells of it while it is stopped. No thread runs here.
#![tactic(auto)]

mod basis;
mod check;
mod folder;
mod found;
mod identity;
mod limits;
mod log;
mod look_over;
mod node_file;
mod open_node;
mod opening;
mod ready;
mod renewal;
mod ring_fault;
mod tellings;
mod unopened;

pub use basis::{Basis, Target, check_ring, make_ring};
pub use folder::Folder;
pub use found::{Found, NewNode};
pub use limits::look_at_descriptors;
pub use log::Log;
pub use open_node::OpenNode;
pub use ready::Ready;
pub use ring_fault::RingFault;
pub use unopened::{FileFault, Place, Unopened, print_fault};
