// Rows of durable nodes in memory.
mod fault;
mod player;
mod players;
mod print;
mod runs;
mod seat;
mod tickets;
mod words;

use crate::lines::{add_line, add_printed};
use crate::node::players::Players;
use crate::play::Player;
use std::alloc::{AllocError, Global};

/// The calls of a node.
pub struct Row;

impl Player for Row {
    fn play_row(alloc: Global, lines: &[&[u8]], out: &mut Vec<u8>) -> Result<(), AllocError> {
        let mut players = Players::new(alloc)?;
        let answer = play_lines(&mut players, alloc, lines, out);
        players.end();
        answer
    }
}

// Adds the command, and the lines that it prints.
fn play_command(
    players: &mut Players,
    alloc: Global,
    command: &[u8],
    out: &mut Vec<u8>,
) -> Result<(), AllocError> {
    add_line(out, b"", command)?;
    let mut printed = String::new(alloc);
    players.obey(command, &mut printed)?;
    add_printed(out, &printed)
}

fn play_lines(
    players: &mut Players,
    alloc: Global,
    lines: &[&[u8]],
    out: &mut Vec<u8>,
) -> Result<(), AllocError> {
    for line in lines {
        play_command(players, alloc, line, out)?;
    }
    Ok(())
}
