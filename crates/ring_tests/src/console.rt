// Tests of the console: what is no plain script.
mod faults;
mod growths;
mod lengths;
mod lines;
mod session;
