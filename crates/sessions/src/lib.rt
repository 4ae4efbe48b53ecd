//! Sessions: a client's lines, each answered by one line before the next is read.
//!
//! - `stand G T B`: the node stands for group G and term T with bid B;
//! - `retire G F`: the node retires the terms of group G below the floor F;
//! - `who G T`, `latest G`: the node is asked who leads;
//! - `bye`: answered `bye`; the session ends, and nothing more is read.
//!
//! Every other line, and a line with a fault, is answered by its refusal, and the session goes on. It ends also where
//! 202 bytes came without a line feed, which is answered `no 25 line`, and after 10,000 lines.
//!
//! `specs/` says what a session reads and answers: Commands has what a line asks, Session the text.
#![tactic(auto)]

mod command;
mod line;
mod respond;
mod service;
mod session;
mod solo;

pub use command::Question;
pub use service::Service;
pub use session::{SessionFault, serve};
pub use solo::SoloService;
