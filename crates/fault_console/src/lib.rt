//! The console of a ring: a script of events, and what each of them brings, line by line.
//!
//! `ring N [MODE [CAP]]` comes first and makes the ring, of 2 to 16 nodes. MODE is `eager`, the default: each input is
//! made durable as it is accepted; or `lazy`: it waits for a flush. CAP is the capacity of each node, 4,096 to
//! 1,048,576 bytes, 65,536 by default. Then these ask a node, each under the next ticket number, and print `K: ` with
//! the reply, or `K: sealed` where that rests on inputs which are not durable yet:
//! - `stand I G T B`: node I stands for group G and term T with bid B;
//! - `retire I G F`: node I retires the terms of group G below the floor F;
//! - `who I G T`, `latest I G`: node I is asked who leads;
//! - `deliver I NO`: message NO of node I reaches the node behind it;
//! - `credit I U`: node I tells the node before it that it took U messages.
//!
//! `deliver all` delivers what may be released, and prints `delivered C`. `flush I` makes a batch of node I durable,
//! and prints `flushed C` and the replies that rested on it. `checkpoint I` makes a summary of all inputs of node I
//! durable, which frees the room of what they took in its journal, and prints `checkpointed C` and the replies. `crash
//! I` takes node I's memory, and `stop I K TEAR` stops its flush at device call K, 1 to 4, and tears what was not
//! synced: `old`, `new` or `fill B`; `stop I checkpoint K TEAR`, K 1 to 6, stops a checkpoint, also where nothing
//! waits. These open it again, and print `K: lost` for each ticket that was open there and `up I H`, H its inputs.
//! `show I` prints the counts of node I. `audit` places the durable histories of all nodes in one legal run, and prints
//! `audit ok R`, R the run's length. A line that is refused prints its refusal alone. Tickets that are open at the
//! end are given up without a line.
//!
//! `specs/` says what a script may print: Commands has the form of each command, Script the texts. Lines, words and
//! numbers are those of line_words.
#![tactic(auto)]

mod audits;
mod commands;
mod console;
mod print;

pub use console::Console;
