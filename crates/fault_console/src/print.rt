// The lines that a line of the script prints.
ghost use Rattle.std.specs.Prelude.{◌≡◌, ◌≤◌, ◌+◌, ◌<◌, ◌^◌, ◌∷◌, ◌++◌, [], OnOk, string_bytes, length, map};
ghost use Rattle.line_words.specs.Added.{AddsLine, AddsLines};
ghost use Rattle.ring_world.specs.Step.{told};
ghost use Rattle.fault_console.specs.Script.{ring_line, reply_line, sealed_line, lost_line, up_line, flushed_line, checkpointed_line, delivered_line, show_line, audit_line, is_answered, sealed_of, sealed_lines, lines_told};

use ring_records::{NodeNo, Reply, Shown};
use ring_world::{Event, Outcome};
use std::alloc::AllocError;

/// Adds the line of a ring that is made.
pub fn print_ring(out: &mut String, nodes: u8) -> Result<(), AllocError>
    ensures { OnOk result (AddsLine (string_bytes out.old) (string_bytes out.new) (ring_line nodes)) }
{
    writeln!(out, "ring {nodes}")
}

fn print_reply(out: &mut String, ticket: u64, reply: Reply) -> Result<(), AllocError>
    ensures { OnOk result (AddsLine (string_bytes out.old) (string_bytes out.new) (reply_line (ticket, reply))) }
{
    writeln!(out, "{ticket}: {reply}")
}

fn print_sealed(out: &mut String, ticket: u64) -> Result<(), AllocError>
    ensures { OnOk result (AddsLine (string_bytes out.old) (string_bytes out.new) (sealed_line ticket)) }
{
    writeln!(out, "{ticket}: sealed")
}

fn print_lost(out: &mut String, ticket: u64) -> Result<(), AllocError>
    ensures { OnOk result (AddsLine (string_bytes out.old) (string_bytes out.new) (lost_line ticket)) }
{
    writeln!(out, "{ticket}: lost")
}

fn print_up(out: &mut String, node: NodeNo, count: u64) -> Result<(), AllocError>
    ensures { OnOk result (AddsLine (string_bytes out.old) (string_bytes out.new) (up_line node count)) }
{
    let node = node.number();
    writeln!(out, "up {node} {count}")
}

fn print_flushed(out: &mut String, count: u32) -> Result<(), AllocError>
    ensures { OnOk result (AddsLine (string_bytes out.old) (string_bytes out.new) (flushed_line count)) }
{
    writeln!(out, "flushed {count}")
}

fn print_checkpointed(out: &mut String, count: u32) -> Result<(), AllocError>
    ensures { OnOk result (AddsLine (string_bytes out.old) (string_bytes out.new) (checkpointed_line count)) }
{
    writeln!(out, "checkpointed {count}")
}

fn print_delivered(out: &mut String, count: u32) -> Result<(), AllocError>
    ensures { OnOk result (AddsLine (string_bytes out.old) (string_bytes out.new) (delivered_line count)) }
{
    writeln!(out, "delivered {count}")
}

fn print_replies(out: &mut String, replies: &[(u64, Reply)]) -> Result<(), AllocError>
    ensures { OnOk result (AddsLines (string_bytes out.old) (string_bytes out.new) (map reply_line replies.now)) }
{
    for (ticket, reply) in replies {
        print_reply(out, *ticket, *reply)?;
    }
    Ok(())
}

fn print_losses(out: &mut String, lost: &[u64]) -> Result<(), AllocError>
    ensures { OnOk result (AddsLines (string_bytes out.old) (string_bytes out.new) (map lost_line lost.now)) }
{
    for ticket in lost {
        print_lost(out, *ticket)?;
    }
    Ok(())
}

/// Adds the line of what a node shows.
pub fn print_shown(out: &mut String, node: NodeNo, shown: Shown) -> Result<(), AllocError>
    ensures { OnOk result (AddsLine (string_bytes out.old) (string_bytes out.new) (show_line node shown)) }
{
    let node = node.number();
    writeln!(out, "node {node} {shown}")
}

/// Adds the line of an audit that placed so many inputs.
pub fn print_audit(out: &mut String, count: u64) -> Result<(), AllocError>
    ensures { OnOk result (AddsLine (string_bytes out.old) (string_bytes out.new) (audit_line count)) }
{
    writeln!(out, "audit ok {count}")
}

fn is_answered(ticket: u64, replies: &[(u64, Reply)]) -> bool
    ensures { result ≡ is_answered ticket replies.now }
{
    replies.iter().any(|reply| reply.0 == ticket)
}

// The ticket that an event took, where no reply answers it.
fn sealed(ticket: Option<u64>, replies: &[(u64, Reply)]) -> Option<u64>
    ensures { result ≡ sealed_of ticket replies.now }
{
    match ticket {
        Some(ticket) if !is_answered(ticket, replies) => Some(ticket),
        _ => None,
    }
}

fn print_if_sealed(out: &mut String, sealed: Option<u64>) -> Result<(), AllocError>
    ensures { OnOk result (AddsLines (string_bytes out.old) (string_bytes out.new) (sealed_lines sealed)) }
{
    match sealed {
        Some(ticket) => print_sealed(out, ticket),
        None => Ok(()),
    }
}

#[tactic(auto, using(line_words::proofs::Texts::adds_more))]
fn print_asked(
    out: &mut String,
    ticket: Option<u64>,
    replies: &[(u64, Reply)],
) -> Result<(), AllocError>
    ensures { OnOk result (AddsLines (string_bytes out.old) (string_bytes out.new) (map reply_line replies.now ++ sealed_lines (sealed_of ticket replies.now))) }
{
    print_replies(out, replies)?;
    print_if_sealed(out, sealed(ticket, replies))
}

#[tactic(auto, using(line_words::proofs::Texts::adds_more))]
fn print_flush(out: &mut String, count: u32, replies: &[(u64, Reply)]) -> Result<(), AllocError>
    ensures { OnOk result (AddsLines (string_bytes out.old) (string_bytes out.new) (flushed_line count ∷ map reply_line replies.now)) }
{
    print_flushed(out, count)?;
    print_replies(out, replies)
}

#[tactic(auto, using(line_words::proofs::Texts::adds_more))]
fn print_checkpoint(
    out: &mut String,
    count: u32,
    replies: &[(u64, Reply)],
) -> Result<(), AllocError>
    ensures { OnOk result (AddsLines (string_bytes out.old) (string_bytes out.new) (checkpointed_line count ∷ map reply_line replies.now)) }
{
    print_checkpointed(out, count)?;
    print_replies(out, replies)
}

#[tactic(auto, using(line_words::proofs::Texts::adds_more))]
fn print_reopened(
    out: &mut String,
    lost: &[u64],
    node: NodeNo,
    count: u64,
) -> Result<(), AllocError>
    ensures { OnOk result (AddsLines (string_bytes out.old) (string_bytes out.new) (map lost_line lost.now ++ (up_line node count ∷ []))) }
{
    print_losses(out, lost)?;
    print_up(out, node, count)
}

/// Adds the lines of what an event brought.
pub fn print_outcome(out: &mut String, event: &Event, outcome: &Outcome) -> Result<(), AllocError>
    ensures { OnOk result (AddsLines (string_bytes out.old) (string_bytes out.new) (lines_told event.now (told outcome.now))) }
{
    match event {
        Event::Submit(..) | Event::Deliver { .. } | Event::Credit { .. } => {
            print_asked(out, outcome.ticket, &outcome.replies)
        }
        Event::Flush(_) => print_flush(out, outcome.flushed.unwrap_or(0), &outcome.replies),
        Event::DeliverAll => print_delivered(out, outcome.delivered.unwrap_or(0)),
        Event::Checkpoint(_) => {
            print_checkpoint(out, outcome.flushed.unwrap_or(0), &outcome.replies)
        }
        Event::Crash(node) | Event::Stop { node, .. } | Event::StopCheckpoint { node, .. } => {
            print_reopened(out, &outcome.lost, *node, outcome.up.unwrap_or(0))
        }
    }
}

fn count_sealed(sealed: Option<u64>) -> u64
    ensures value { result ≡ length (sealed_lines sealed) }
    ensures few { result ≤ 1 }
{
    match sealed {
        Some(_) => 1,
        None => 0,
    }
}

#[tactic(auto, using(crate::proofs::Texts::asked_count))]
fn count_asked(ticket: Option<u64>, replies: &[(u64, Reply)]) -> u64
    requires small { length replies.now < 2 ^ 60 }
    ensures value { result ≡ length (map reply_line replies.now ++ sealed_lines (sealed_of ticket replies.now)) }
    ensures few { result ≤ length replies.now + 1 }
{
    replies.len() as u64 + count_sealed(sealed(ticket, replies))
}

/// How many lines that is.
#[tactic(auto, using(crate::proofs::Texts::lines_after))]
pub fn count_lines(event: &Event, outcome: &Outcome) -> u64
    requires small { length outcome.now.replies.items + length outcome.now.lost.items < 2 ^ 60 }
    ensures value { result ≡ length (lines_told event.now (told outcome.now)) }
    ensures few { result ≤ length outcome.now.replies.items + length outcome.now.lost.items + 1 }
{
    match event {
        Event::Submit(..) | Event::Deliver { .. } | Event::Credit { .. } => {
            count_asked(outcome.ticket, &outcome.replies)
        }
        Event::Flush(_) | Event::Checkpoint(_) => outcome.replies.len() as u64 + 1,
        Event::DeliverAll => 1,
        Event::Crash(_) | Event::Stop { .. } | Event::StopCheckpoint { .. } => {
            outcome.lost.len() as u64 + 1
        }
    }
}
