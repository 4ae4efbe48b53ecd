//! A node that keeps ballots, numbers and a window in place of a history, and judges inputs as a look-back over that
//! history would. What it knows is a Summary, which can be taken out and put back.
#![tactic(auto)]

mod accept;
mod effects;
mod free;
mod judge;
pub mod laws;
mod measure;
mod node;
mod ranges;

pub use effects::Effects;
pub use free::FreeCore;
pub use node::NodeCore;
