//! A journal of two areas, each with a snapshot and frames behind it. A gate is opened once what is behind it is stable.
#![tactic(auto)]

mod area;
mod area_reader;
mod batch;
mod checkpoint;
mod commit;
mod contents;
mod feeding;
mod flown;
mod format;
mod found;
mod joined;
mod journal;
pub mod laws;
mod layout;
mod listed;
mod newer;
mod next_frame;
mod open;
mod opening;
mod parts;
mod place;
mod read;
mod replace;
mod spell;
mod work;

pub use area_reader::{AreaReader, Fed};
pub use batch::Batch;
pub use checkpoint::Checkpoint;
pub use flown::{Flown, Receipt, Spoiled};
pub use journal::Journal;
pub use layout::{device_size, is_header};
pub use newer::{AreaStart, newer_layout};
pub use opening::Opening;
pub use work::{Work, syncs};
