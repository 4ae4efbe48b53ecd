// The lines that commands print.
use crate::node::seat::Stored;
use group_commit::Landed;
use ring_records::{GroupName, Input, Msg, Notice, Packet, Term};
use std::alloc::AllocError;

fn name_of(group: &GroupName) -> &str {
    str::from_utf8(group.as_bytes()).unwrap_or("")
}

// Adds a command or an answer on a group and a term.
fn add_key(out: &mut String, word: &str, group: &GroupName, term: Term) -> Result<(), AllocError> {
    write!(out, "{word} {} {term}", name_of(group))
}

fn add_msg(out: &mut String, msg: &Msg) -> Result<(), AllocError> {
    let word = match msg {
        Msg::Token { .. } => "token",
        Msg::Elected { .. } => "elected",
    };
    let key = msg.key();
    let leader = msg.candidate();
    add_key(out, word, &key.group, key.term)?;
    writeln!(out, " {} {}", leader.bid, leader.node)
}

fn print_packet(out: &mut String, packet: &Packet) -> Result<(), AllocError> {
    match packet {
        Packet::Carry { no, msg } => {
            write!(out, "carry {no} ")?;
            add_msg(out, msg)
        }
        Packet::Credit { upto } => writeln!(out, "credit {upto}"),
    }
}

fn print_notice(out: &mut String, notice: &Notice) -> Result<(), AllocError> {
    match notice {
        Notice::Decided(decision) => {
            let key = decision.key;
            let leader = decision.leader;
            add_key(out, "leader", &key.group, key.term)?;
            writeln!(out, " {} {}", leader.bid, leader.node)
        }
        Notice::Retired { group, floor } => {
            add_key(out, "retired", group, *floor)?;
            writeln!(out)
        }
    }
}

fn print_input(out: &mut String, input: &Input) -> Result<(), AllocError> {
    match input {
        Input::Stand { key, bid } => {
            add_key(out, "stand", &key.group, key.term)?;
            writeln!(out, " {bid}")
        }
        Input::Take { no, msg } => {
            write!(out, "take {no} ")?;
            add_msg(out, msg)
        }
        Input::Acked { upto } => writeln!(out, "acked {upto}"),
        Input::Retire { group, floor } => {
            add_key(out, "retire", group, *floor)?;
            writeln!(out)
        }
    }
}

/// Adds a line for each packet.
pub fn print_packets(out: &mut String, packets: &[Packet]) -> Result<(), AllocError> {
    for packet in packets {
        print_packet(out, packet)?;
    }
    Ok(())
}

/// Adds a line for each notice.
pub fn print_notices(out: &mut String, notices: &[Notice]) -> Result<(), AllocError> {
    for notice in notices {
        print_notice(out, notice)?;
    }
    Ok(())
}

/// Adds a line for each input, which is the command for it.
pub fn print_inputs(out: &mut String, inputs: &[Input]) -> Result<(), AllocError> {
    for input in inputs {
        print_input(out, input)?;
    }
    Ok(())
}

/// Adds how many inputs became durable, and a line for each packet and each notice that they release.
pub fn print_landed(out: &mut String, landed: &Landed) -> Result<(), AllocError> {
    if landed.is_checkpoint {
        writeln!(out, "checkpointed {}", landed.count)?;
    } else {
        writeln!(out, "flushed {}", landed.count)?;
    }
    print_packets(out, &landed.packets)?;
    print_notices(out, &landed.notices)
}

/// Adds what a node has: the epoch of its journal, how many inputs its summary stands for, how many it has behind that,
/// and how many of all are durable.
pub fn print_counts(out: &mut String, node: &Stored) -> Result<(), AllocError> {
    let (epoch, first) = (node.epoch(), node.desk().first());
    let (inputs, durable) = (node.history().len(), node.durable());
    write!(out, "epoch {epoch} summary {first}")?;
    writeln!(out, " inputs {inputs} durable {durable}")
}
