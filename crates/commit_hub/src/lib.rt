//! Many appenders and one flusher round one desk, under one lock that no sync holds.
#![tactic(auto)]

mod blanks;
mod hub;
mod ledgers;
mod locked;
mod look;
mod places;
mod settling;
mod share;
mod tied;
mod waking;

pub use blanks::Blanks;
pub use gated_journal::Work;
pub use hub::Hub;
pub use ledgers::NodeLedger;
pub use look::Look;
pub use share::{Begun, Share, Tie};
