//! The lines that clients write, and those that they get.
//!
//! A line has at most 200 bytes without its end. It is cut into words, and each word is judged by what it is to be: a
//! number, a group, a term, a bid. What is printed goes out whole, or as far as the writer takes it.
//!
//! `specs/` says the same by a look at the bytes: Words has lines and words, Forms what they say, by the forms of the
//! commands, and the first fault, Texts the bytes of printed lines.
#![tactic(auto)]

mod line;
mod print;
mod word;
mod write;

pub use line::{first_line, without_return};
pub use print::print_refusal;
pub use word::{behind, read_bid, read_group, read_number, read_term, read_words};
pub use write::{WriteFault, write_whole};
