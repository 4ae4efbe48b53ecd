// The bytes of a summary in a journal, by layout.
ghost use Rattle.std.specs.Prelude.{◌≡◌, ◌++◌, ◌+◌, ◌*◌, ◌<◌, ◌≤◌, ◌^◌, length, IfOk, OnOk};
ghost use Rattle.std.specs.FinMap as map;
ghost use Rattle.std.specs.Int.{w32, to_be_bytes};
ghost use Rattle.std.specs.List.{flat_map, sum_by};
ghost use Rattle.ring_records.specs.Admission.{state_len, msg_len, floor_len, floors_len, has_floors, snapshot_len};
ghost use Rattle.ring_records.specs.Record.{key_bytes, candidate_bytes};
ghost use Rattle.ring_records.specs.declared.summary.Summary.{Summary};
ghost use Rattle.ring_records.specs.Snapshot.{flags, counts_bytes, state_bytes, msg_bytes, floors_bytes, snapshot_of};

use crate::{Candidate, Key, KeyState, Msg, OLDEST_AREA, Summary};
use std::alloc::{AllocError, Global};

/// The length of its snapshot in this layout, in bytes, below 2^63 + 2^62.
pub fn summary_len(summary: &Summary, layout: u8) -> u64
    requires floors { map.len summary.now.floors < 2 ^ 32 }
    ensures value { result ≡ snapshot_len layout summary.now }
    ensures range { result < 2 ^ 63 + 2 ^ 62 }
{
    if layout < OLDEST_AREA {
        return 0;
    }
    let states = states_len(summary.keys.as_slice());
    38 + (states + messages_len(summary.window.as_slice())) + floors_len(summary, layout)
}

// Whether a snapshot of this layout tells floors.
pub(crate) fn has_floors(layout: u8) -> bool
    ensures { result ≡ has_floors layout }
{
    layout > 2
}

// The bytes behind the messages.
fn floors_len(summary: &Summary, layout: u8) -> u64
    ensures value { result ≡ floors_len layout summary.now }
    ensures bound { result ≤ 4 + 21 * map.len summary.now.floors }
{
    if has_floors(layout) {
        4 + keys_len(summary.floors.as_slice())
    } else {
        0
    }
}

fn keys_len(floors: &[Key]) -> u64
    ensures value { result ≡ sum_by floor_len floors.now }
    ensures bound { result ≤ 21 * length floors.now }
{
    let mut len = 0;
    for floor in floors {
        len += floor_len(floor) as u64;
    }
    len
}

/// The bytes that a floor takes in a snapshot, 6 to 21.
pub fn floor_len(floor: &Key) -> u32
    ensures value { result ≡ floor_len floor.now }
    ensures range { result ≤ 21 }
{
    5 + floor.group.as_bytes().len() as u32
}

fn states_len(states: &[KeyState]) -> u64
    ensures value { result ≡ sum_by state_len states.now }
    ensures bound { result ≤ 31 * length states.now }
{
    let mut len = 0;
    for state in states {
        len += state_len(state) as u64;
    }
    len
}

/// The bytes that messages take in a snapshot.
pub fn messages_len(messages: &[Msg]) -> u64
    ensures value { result ≡ sum_by msg_len messages.now }
    ensures bound { result ≤ 27 * length messages.now }
{
    let mut len = 0;
    for msg in messages {
        len += msg_len(msg) as u64;
    }
    len
}

/// The bytes that the state of a key takes in a snapshot, 7 to 31.
pub fn state_len(state: &KeyState) -> u32
    ensures value { result ≡ state_len state.now }
    ensures range { result ≤ 31 }
{
    let name = state.key.group.as_bytes().len() as u32;
    let bid = if state.stood.is_some() { 4 } else { 0 };
    let leader = if state.leader.is_some() { 5 } else { 0 };
    6 + name + (bid + leader)
}

/// The bytes that a message takes in a snapshot, 12 to 27.
pub fn msg_len(msg: &Msg) -> u32
    ensures value { result ≡ msg_len msg.now }
    ensures range { result ≤ 27 }
{
    11 + msg.key().group.as_bytes().len() as u32
}

/// The snapshot of the summary in this layout: the bytes by which it stands in a journal, none in layout 1. Floors are told
/// from layout 3 on. The error is that of the allocator.
pub fn write_summary(alloc: Global, summary: &Summary, layout: u8) -> Result<Vec<u8>, AllocError>
    requires keys { map.len summary.now.keys < 2 ^ 32 }
    requires floors { map.len summary.now.floors < 2 ^ 32 }
    requires none { layout ≤ 2 → summary.now.floors ≡ map.empty }
    ensures value { IfOk result (λ bytes. bytes.items ≡ snapshot_of layout summary.now) }
    ensures len { IfOk result (λ bytes. length bytes.items ≡ snapshot_len layout summary.now) }
{
    let mut out = Vec::new(alloc);
    if layout < OLDEST_AREA {
        return Ok(out);
    }
    put_counts(&mut out, summary, summary.keys.len() as u32)?;
    put_states(&mut out, summary.keys.as_slice())?;
    put_messages(&mut out, summary.window.as_slice())?;
    put_floors(&mut out, summary, layout)?;
    Ok(out)
}

// The floors behind their number, where the layout has some.
fn put_floors(out: &mut Vec<u8>, summary: &Summary, layout: u8) -> Result<(), AllocError>
    requires floors { map.len summary.now.floors < 2 ^ 32 }
    ensures { OnOk result (out.new.items ≡ out.old.items ++ floors_bytes layout summary.now) }
{
    if !has_floors(layout) {
        return Ok(());
    }
    put_number(out, summary.floors.len() as u32)?;
    put_keys(out, summary.floors.as_slice())
}

fn put_number(out: &mut Vec<u8>, number: u32) -> Result<(), AllocError>
    ensures { OnOk result (out.new.items ≡ out.old.items ++ to_be_bytes w32 number) }
{
    out.extend_from_slice(&number.to_be_bytes())
}

fn put_keys(out: &mut Vec<u8>, floors: &[Key]) -> Result<(), AllocError>
    ensures { OnOk result (out.new.items ≡ out.old.items ++ flat_map key_bytes floors.now) }
{
    for floor in floors {
        put_key(out, floor)?;
    }
    Ok(())
}

#[tactic(auto, unfolding(crate::specs::Snapshot::counts_bytes))]
fn put_counts(out: &mut Vec<u8>, summary: &Summary, keys: u32) -> Result<(), AllocError>
    ensures { OnOk result (out.new.items ≡ out.old.items ++ counts_bytes summary.now keys) }
{
    out.extend_from_slice(&summary.inputs.to_be_bytes())?;
    out.extend_from_slice(&summary.taken.to_be_bytes())?;
    out.extend_from_slice(&summary.credit.to_be_bytes())?;
    out.extend_from_slice(&summary.sent.to_be_bytes())?;
    out.extend_from_slice(&summary.stands.to_be_bytes())?;
    out.extend_from_slice(&keys.to_be_bytes())?;
    Ok(())
}

fn put_states(out: &mut Vec<u8>, states: &[KeyState]) -> Result<(), AllocError>
    ensures { OnOk result (out.new.items ≡ out.old.items ++ flat_map state_bytes states.now) }
{
    for state in states {
        put_state(out, state)?;
    }
    Ok(())
}

fn put_messages(out: &mut Vec<u8>, messages: &[Msg]) -> Result<(), AllocError>
    ensures { OnOk result (out.new.items ≡ out.old.items ++ flat_map msg_bytes messages.now) }
{
    for msg in messages {
        put_msg(out, msg)?;
    }
    Ok(())
}

#[tactic(auto, unfolding(crate::specs::Snapshot::state_bytes))]
fn put_state(out: &mut Vec<u8>, state: &KeyState) -> Result<(), AllocError>
    ensures { OnOk result (out.new.items ≡ out.old.items ++ state_bytes state.now) }
{
    put_key(out, &state.key)?;
    out.push(flags(state))?;
    if let Some(bid) = state.stood {
        out.extend_from_slice(&bid.number().to_be_bytes())?;
    }
    if let Some(leader) = state.leader {
        put_candidate(out, &leader)?;
    }
    Ok(())
}

fn flags(state: &KeyState) -> u8
    ensures { result ≡ flags state.now }
{
    let stood = if state.stood.is_some() { 1 } else { 0 };
    let led = if state.leader.is_some() { 2 } else { 0 };
    stood + led
}

#[tactic(auto, unfolding(crate::specs::Snapshot::msg_bytes))]
fn put_msg(out: &mut Vec<u8>, msg: &Msg) -> Result<(), AllocError>
    ensures { OnOk result (out.new.items ≡ out.old.items ++ msg_bytes msg.now) }
{
    let kind = match msg {
        Msg::Token { .. } => 2,
        Msg::Elected { .. } => 3,
    };
    out.push(kind)?;
    put_key(out, &msg.key())?;
    put_candidate(out, &msg.candidate())
}

#[tactic(auto, unfolding(crate::specs::Record::key_bytes))]
fn put_key(out: &mut Vec<u8>, key: &Key) -> Result<(), AllocError>
    ensures { OnOk result (out.new.items ≡ out.old.items ++ key_bytes key.now) }
{
    let name = key.group.as_bytes();
    out.push(name.len() as u8)?;
    out.extend_from_slice(name)?;
    out.extend_from_slice(&key.term.number().to_be_bytes())
}

#[tactic(auto, unfolding(crate::specs::Record::candidate_bytes))]
fn put_candidate(out: &mut Vec<u8>, candidate: &Candidate) -> Result<(), AllocError>
    ensures { OnOk result (out.new.items ≡ out.old.items ++ candidate_bytes candidate.now) }
{
    out.extend_from_slice(&candidate.bid.number().to_be_bytes())?;
    out.push(candidate.node.number())?;
    Ok(())
}
