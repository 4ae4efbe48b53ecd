//! The tests below a service and a ring: of devices and the journal over them, of records, and of a node and its journal.
//!
//! What no clause says: that each call succeeds with ample memory, the bytes on a device, what a stop leaves of a batch. What is
//! asked in plain lines are rows.
#![tactic(auto)]

#[cfg(test)]
mod devices;
#[cfg(test)]
mod journal;
#[cfg(test)]
mod node;
#[cfg(test)]
mod records;
#[cfg(test)]
mod rows;
#[cfg(test)]
mod store;
