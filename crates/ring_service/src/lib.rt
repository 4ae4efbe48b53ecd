//! A durable node that threads share: rounds of a flusher, which commits what waits, lets it be released, and publishes
//! the leaders that it makes known; a service for one client beside others; and what a ring is to be, as a text of
//! settings and the words of a command tell it.
#![tactic(auto)]

mod board;
mod entry;
mod flusher;
mod gate;
mod hint;
mod host;
pub mod laws;
mod service;
mod settings;
mod start_fault;
mod words;

pub use board::opened_board;
pub use entry::{EntryService, is_for_room};
pub use flusher::Flusher;
pub use gate::Gate;
pub use hint::{line_of_fault, unknown_key};
pub use host::Host;
pub use service::HubService;
pub use settings::{Settings, read_settings};
pub use start_fault::{Setting, StartFault};
pub use words::{VERSION, Words, read_words};
