//! The board of leaders: a publisher appends notices and publishes them all at once, and readers never wait.
//!
//! A reader's answer is that of a list of notices, the list that it has seen. It begins with the list that the reader
//! saw before and with each list that it was told of, so from one read to the next a leader stays and the latest term
//! of a group never goes down. docs/ARCHITECTURE.md tells how the two copies of the leaders take turns.
#![tactic(auto)]

mod board;
mod floors;
mod history;
mod leaders;
mod owed;
mod reader;
mod rule;
mod store;
mod tokens;
mod told;

pub use board::{Board, is_reader_count};
pub use history::{Naming, Opened};
pub use owed::Owed;
pub use reader::BoardReader;
pub use told::Told;
