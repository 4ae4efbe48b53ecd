//! The line of what has happened at a node.
pub(crate) use ring_news::Event;
use std::io;
use std::io::Write;

/// Writes its line.
pub(crate) fn print_event<E: Write>(err: &mut E, event: &Event) -> io::Result<()> {
    match event {
        Event::Opened(node, door) => { writeln!(err, "ringd: node {node}: session at door {door}") }
        Event::Ended(node, door) => {
            writeln!(err, "ringd: node {node}: session at door {door} ended")
        }
        Event::Retired(node, group, floor) => {
            write!(err, "ringd: node {node}: ")?;
            err.write_all(group.as_bytes())?;
            writeln!(err, " retired below {floor}")
        }
        Event::Elected(node, decision) => {
            let (key, leader) = (decision.key, decision.leader);
            write!(err, "ringd: node {node}: ")?;
            err.write_all(key.group.as_bytes())?;
            writeln!(
                err,
                " term {} leader {} bid {}",
                key.term, leader.node, leader.bid
            )
        }
    }
}
