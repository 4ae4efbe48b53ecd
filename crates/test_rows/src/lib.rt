//! What the rows of tests are written in: plain numbers and names, so that a row is data without calls, and the values
//! of the ring that they name. A number or a name out of its range is refused as the ring's own types refuse it.
#![tactic(auto)]

mod ask;
mod cause;
mod note;
mod op;
mod say;
mod sends;
mod value;

pub use ask::Ask;
pub use cause::Cause;
pub use note::Note;
pub use op::Op;
pub use say::Say;
pub use sends::Sends;
pub use value::{candidate, key};
