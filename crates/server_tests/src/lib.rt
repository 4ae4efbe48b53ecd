//! The tests of what `ringd` counts: how long commits took, hangs, checkpoints, and the letters that wait at a node.
#![tactic(auto)]

#[cfg(test)]
mod tallies;
