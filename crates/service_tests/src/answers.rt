// What an operator asks of a ring, and the answers: heads, targets and bodies, byte for byte.
mod answers;
mod bodies;
mod pages;
mod requests;
mod rows;
