//! The steps by which the names in a ring's folder come and go, in the order in which they must be done.
//!
//! A plan is a list of steps. Each function here gives one, and says of it by contract that no name is given before the
//! bytes behind it are on the disk, that `ring.made` is made behind all names and the ring's identity, and that none of
//! them is taken away while `ring.made` may be there. Whoever carries a plan out does one step behind the other, and none behind one that was
//! refused.
#![tactic(auto)]

mod identity;
mod plan;
mod step;

pub use identity::Identity;
pub use plan::{making, marking, taking_back};
pub use step::FolderStep;
