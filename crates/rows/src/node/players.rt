// Nodes side by side, which are all told the same.
use crate::node::fault::{Fault, tell};
use crate::node::player::Player;
use crate::node::runs::Runs;
use line_words::{behind, read_number};
use std::alloc::{AllocError, AllocFailed, Global};
use std::mem::replace;

/// The players of a row: one, or behind `each N` so many, of which each has its place in `#`. They are not let go: `end`
/// ends them.
pub struct Players {
    alloc: Global,
    all: Vec<Player>,
}

impl Players {
    /// Before a row: one player, who has nothing.
    pub fn new(alloc: Global) -> Result<Players, AllocError> {
        let mut players = Players {
            alloc,
            all: Vec::new(alloc),
        };
        match players.add(0) {
            Ok(()) => Ok(players),
            Err(_) => {
                players.end();
                Err(AllocError)
            }
        }
    }

    // One more, at this place.
    fn add(&mut self, place: u64) -> Result<(), AllocError> {
        let player = Player::new(self.alloc, place)?;
        match self.all.push(player) {
            Ok(()) => Ok(()),
            Err(AllocFailed { value }) => {
                value.end();
                Err(AllocError)
            }
        }
    }

    /// Ends all.
    pub fn end(self) {
        let Players { alloc: _, all } = self;
        end_all(all);
    }

    // So many players in place of those that are there.
    fn deal(&mut self, count: u64) -> Result<(), AllocError> {
        end_all(replace(&mut self.all, Vec::new(self.alloc)));
        for place in 0..count {
            self.add(place.wrapping_add(1))?;
        }
        Ok(())
    }

    /// Follows a line, and adds to `out` the lines that it prints. After want of memory, the only refusal, they are of no
    /// more use than to be ended.
    pub fn obey(&mut self, line: &[u8], out: &mut String) -> Result<(), AllocError> {
        if line.starts_with(b"#") {
            return Ok(());
        }
        if let Some(word) = behind(line, b"each ") {
            return match read_number(word, 2, 16) {
                Ok(count) => self.deal(count),
                Err(refusal) => tell(out, Fault::from(refusal)),
            };
        }
        self.follow(line)?.print_shared(out)
    }

    // What each of them answers.
    fn follow(&mut self, line: &[u8]) -> Result<Runs, AllocError> {
        let mut runs = Runs::new(self.alloc);
        let mut place = 0u64;
        for player in self.all.iter_mut() {
            place = place.wrapping_add(1);
            let mut answer = String::new(self.alloc);
            player.obey(line, &mut answer)?;
            runs.add(place, answer)?;
        }
        Ok(runs)
    }
}

fn end_all(players: Vec<Player>) {
    let mut players = players;
    while let Some(player) = players.pop() {
        player.end();
    }
    players.destroy_empty();
}
