// What follows the commands of a row.
use crate::node::fault::{Fault, tell};
use crate::node::seat::Seat;
use crate::node::tickets::Tickets;
use crate::node::words::read_range;
use line_words::read_words;
use ring_records::{LEAST_CAPACITY, Refusal};
use std::alloc::{AllocError, Global};
use std::mem::swap;

mod asks;
mod devices;
mod shows;

/// A node, or a device, and another one beside it, with all tickets that the row took. It is not let go: `end` ends it.
pub struct Player {
    alloc: Global,
    seat: Seat,
    aside: Seat,
    tickets: Tickets,
    // Its number among those of its row, 0 where it is the only one.
    place: u64,
}

impl Player {
    /// Before a row: nothing is there.
    pub fn new(alloc: Global, place: u64) -> Result<Player, AllocError> {
        let tickets = Tickets::new(alloc)?;
        Ok(Player {
            alloc,
            place,
            seat: Seat::Empty,
            aside: Seat::Empty,
            tickets,
        })
    }

    /// Ends what is there, and gives up the open tickets.
    pub fn end(self) {
        let Player {
            alloc: _,
            seat,
            aside,
            tickets,
            place: _,
        } = self;
        drop(seat);
        drop(aside);
        tickets.end();
    }

    /// Follows a line, and adds to `out` the lines that it prints. After want of memory, the only refusal, it is of no
    /// more use than to be ended.
    pub fn obey(&mut self, line: &[u8], out: &mut String) -> Result<(), AllocError> {
        let answer = match read_words(self.alloc, line)? {
            Ok(words) => self.follow(&words, out),
            Err(refusal) => Err(Fault::from(refusal)),
        };
        match answer {
            Ok(()) => Ok(()),
            Err(fault) => tell(out, fault),
        }
    }

    // Follows the words, with its place in that of `#`.
    fn follow(&mut self, words: &[&[u8]], out: &mut String) -> Result<(), Fault> {
        if self.place == 0 {
            return self.follow_all(words, out);
        }
        let line = numbered(self.alloc, words, self.place)?;
        match read_words(self.alloc, &line)? {
            Ok(words) => self.follow_all(&words, out),
            Err(refusal) => Err(Fault::from(refusal)),
        }
    }

    fn follow_all(&mut self, words: &[&[u8]], out: &mut String) -> Result<(), Fault> {
        if words.is_empty() {
            return Err(Fault::Refused(Refusal::BadLine));
        }
        if words[0] == b"for".as_slice() && words.len() > 3 {
            let (first, last) = read_range(&words[1..3])?;
            return self.repeat(first, last, &words[3..], out);
        }
        self.follow_once(words, out)
    }

    // Follows the command for each of these numbers in place of `#`. What the last one prints is left.
    fn repeat(
        &mut self,
        first: u64,
        last: u64,
        words: &[&[u8]],
        out: &mut String,
    ) -> Result<(), Fault> {
        for number in first..last.wrapping_add(1) {
            let line = numbered(self.alloc, words, number)?;
            out.clear();
            match read_words(self.alloc, &line)? {
                Ok(words) => self.follow_once(&words, out)?,
                Err(refusal) => return Err(Fault::from(refusal)),
            }
        }
        Ok(())
    }

    fn follow_once(&mut self, words: &[&[u8]], out: &mut String) -> Result<(), Fault> {
        match words {
            [] => Err(Fault::Refused(Refusal::BadLine)),
            [verb] => self.follow_one(verb, out),
            [verb, ..] => self.follow_more(verb, &words[1..], out),
        }
    }

    // The commands of one word.
    fn follow_one(&mut self, verb: &[u8], out: &mut String) -> Result<(), Fault> {
        if verb == b"flush".as_slice() {
            self.land(false, out)
        } else if verb == b"checkpoint".as_slice() {
            self.land(true, out)
        } else if verb == b"close".as_slice() {
            self.close()
        } else if verb == b"stop".as_slice() {
            self.stop(&[])
        } else if verb == b"device".as_slice() {
            self.device(LEAST_CAPACITY)
        } else if verb == b"swap".as_slice() {
            swap(&mut self.seat, &mut self.aside);
            Ok(())
        } else {
            self.show(verb, out)
        }
    }

    // Those of more.
    fn follow_more(&mut self, verb: &[u8], words: &[&[u8]], out: &mut String) -> Result<(), Fault> {
        if verb == b"now".as_slice() {
            self.now(words, out)
        } else if verb == b"redeem".as_slice() {
            self.redeem(words, out)
        } else if verb == b"forfeit".as_slice() {
            self.forfeit(words)
        } else if verb == b"vouch".as_slice() {
            self.vouch(words, out)
        } else if verb == b"knows".as_slice() {
            self.know(words, out)
        } else {
            self.follow_device(verb, words, out)
        }
    }
}

// A line of the words, with this number in place of `#`.
fn numbered(alloc: Global, words: &[&[u8]], number: u64) -> Result<Vec<u8>, AllocError> {
    let digits = format!(in alloc; "{number}")?;
    let mut line = Vec::new(alloc);
    for word in words {
        if *word == b"#".as_slice() {
            line.extend_from_slice(digits.as_bytes())?;
        } else {
            line.extend_from_slice(word)?;
        }
        line.extend_from_slice(b" ")?;
    }
    Ok(line)
}
