//! What stands before each line on standard error: nothing, its level as a journal reads it, or the time and its level; and
//! when a trouble is told there that comes and goes, and how many lines are told in a second.
#![tactic(auto)]

mod form;
mod level;
mod prefix;
mod quota;
mod spell;
mod stream;

pub use form::LogForm;
pub use level::Level;
pub use prefix::Prefix;
pub use quota::{MOST_LINES, Quota};
pub use spell::{QUIET, Spell, Turn};
pub use stream::is_stream;
