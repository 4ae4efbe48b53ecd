//! The tests of a service: of a board, of a hub and of rounds, by calls and with clients beside a flusher in threads of their own;
//! and of what an operator is told, as values.
#![tactic(auto)]

#[cfg(test)]
mod answers;
#[cfg(test)]
mod appenders;
#[cfg(test)]
mod board;
#[cfg(test)]
mod calls;
#[cfg(test)]
mod held;
#[cfg(test)]
mod hosts;
#[cfg(test)]
mod hub;
#[cfg(test)]
mod hub_clients;
#[cfg(test)]
mod hubs;
#[cfg(test)]
mod letting_go;
#[cfg(test)]
mod lines;
#[cfg(test)]
mod ring;
#[cfg(test)]
mod rounds;
#[cfg(test)]
mod rows;
#[cfg(test)]
mod services;
#[cfg(test)]
mod settings;
#[cfg(test)]
mod slow;
#[cfg(test)]
mod station;
#[cfg(test)]
mod together;
#[cfg(test)]
mod words;
