// Rows of sessions over a node in memory.
mod answers;
mod bytes;
mod course;
mod marks;
mod player;
mod stage;

pub use player::Row;
