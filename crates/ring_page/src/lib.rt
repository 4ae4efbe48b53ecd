//! What people are told of a ring: pages of HTML, with no script and nothing from elsewhere.
//!
//! The page of a ring has a picture of it, a table of its nodes that says the same, and the leaders of its groups. The page of a
//! group has its latest leader. Whatever settings or clients say stands there escaped.
//!
//! `specs/` says which bytes a page has: Escaped what stands for a text, Nodes what is told of each node in the table and in
//! the picture, Leaders what is told of a group, Pages the whole pages.
#![tactic(auto)]

mod escape;
mod frame;
mod leaders;
mod page;
mod picture;
mod table;

pub use escape::push_escaped;
pub use page::{group_page, ring_page};
