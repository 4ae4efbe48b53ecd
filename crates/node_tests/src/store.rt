// The desk of a node, and the durable node over it, beside the rows of a node.
mod desk;
mod growths;
pub mod journal;
mod pieces;
mod rows;
mod short_reads;
