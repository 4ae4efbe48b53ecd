// Commands that look at the node.
use super::Player;
use crate::node::fault::Fault;
use crate::node::print::{print_counts, print_inputs, print_notices, print_packets};
use crate::node::seat::{Stored, node_of};
use crate::node::words::read_key;
use ring_records::{Refusal, Reply};

fn print_open(out: &mut String, node: &Stored) -> Result<(), Fault> {
    let word = if node.is_open() { "open" } else { "closed" };
    writeln!(out, "{word}")?;
    Ok(())
}

fn print_passed(out: &mut String, node: &Stored) -> Result<(), Fault> {
    let (sent, taken) = (node.desk().sent(), node.desk().taken());
    writeln!(out, "sent {sent} taken {taken}")?;
    Ok(())
}

fn print_window(out: &mut String, node: &Stored) -> Result<(), Fault> {
    let window = node.desk().window()?;
    print_packets(out, &window)?;
    Ok(())
}

fn print_decisions(out: &mut String, node: &Stored) -> Result<(), Fault> {
    let decisions = node.desk().decisions()?;
    print_notices(out, &decisions)?;
    Ok(())
}

impl Player {
    // How many inputs of the node that stands here are durable, none where none does.
    pub(super) fn durable(&self) -> u64 {
        match node_of(&self.seat) {
            Ok(node) => node.durable(),
            Err(_) => 0,
        }
    }

    pub(super) fn show(&self, verb: &[u8], out: &mut String) -> Result<(), Fault> {
        if verb == b"has".as_slice() {
            print_counts(out, node_of(&self.seat)?)?;
            Ok(())
        } else if verb == b"open".as_slice() {
            print_open(out, node_of(&self.seat)?)
        } else if verb == b"passed".as_slice() {
            print_passed(out, node_of(&self.seat)?)
        } else if verb == b"window".as_slice() {
            print_window(out, node_of(&self.seat)?)
        } else if verb == b"decisions".as_slice() {
            print_decisions(out, node_of(&self.seat)?)
        } else if verb == b"inputs".as_slice() {
            print_inputs(out, node_of(&self.seat)?.history())?;
            Ok(())
        } else {
            Err(Fault::Refused(Refusal::BadLine))
        }
    }

    pub(super) fn know(&self, words: &[&[u8]], out: &mut String) -> Result<(), Fault> {
        match words {
            [group, term] => {
                let key = read_key(group, term)?;
                let leader = Reply::Leader(node_of(&self.seat)?.desk().who(&key));
                writeln!(out, "{leader}")?;
                Ok(())
            }
            _ => Err(Fault::Refused(Refusal::BadLine)),
        }
    }
}
