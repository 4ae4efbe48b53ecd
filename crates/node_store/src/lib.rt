//! One durable node: a desk with its journal, in one thread.
#![tactic(auto)]

pub mod laws;
mod node;

pub use node::Node;
