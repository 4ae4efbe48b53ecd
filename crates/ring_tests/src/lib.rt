//! The tests of what stands on durable nodes: of sessions over one, of rings in memory and what happens to them, of the audit of
//! their histories, and of the console.
//!
//! What no clause says: that each call succeeds with ample memory, and what a stop leaves of a ring. What is asked in plain lines
//! are rows.
#![tactic(auto)]

#[cfg(test)]
mod audits;
#[cfg(test)]
mod console;
#[cfg(test)]
mod growths;
#[cfg(test)]
mod histories;
#[cfg(test)]
mod packets;
#[cfg(test)]
mod rings;
#[cfg(test)]
mod rows;
#[cfg(test)]
mod sealed;
#[cfg(test)]
mod session;
#[cfg(test)]
mod stops;
#[cfg(test)]
mod streams;
#[cfg(test)]
mod worlds;
