// A hub by calls.
mod bounds;
mod calls;
mod ends;
mod rows;
mod station;
