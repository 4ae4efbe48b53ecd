//! A node that may be served.
use crate::open_node::OpenNode;
use disk_model::Device;

/// A node that may be served, and whether this process wrote what its device holds.
#[derive(Drop)]
pub struct Ready<V: Device> {
    pub opened: OpenNode<V>,
    pub is_written: bool,
}
