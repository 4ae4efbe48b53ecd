// Reading the bytes of a summary.
ghost use Rattle.std.specs.Prelude.{◌≡◌, ◌≤◌, ◌++◌, ◌∷◌, ◌⊎◌, [], Decides, IfOk, IfErr, Ok};
ghost use Rattle.std.specs.Int.{w16};
ghost use Rattle.std.specs.List.{count_by};
ghost use Rattle.std.specs.List.Sorted.{IsStrictlySortedBy};
ghost use Rattle.std.specs.declared.cmp.Ordering.TheVariants.{Less};
ghost use Rattle.ring_records.specs.declared.summary.Summary.{Summary};
ghost use Rattle.ring_records.specs.declared.refusal.Refusal.TheVariants.{Damaged, OutOfMemory};
ghost use Rattle.ring_records.specs.StateOrder.{by_state};
ghost use Rattle.ring_records.specs.RecordReading.{Finds, number_at, key_at};
ghost use Rattle.ring_records.specs.Snapshot.{Spells, has_stood};
ghost use Rattle.ring_records.specs.SnapshotRead.{candidate_in, state_behind, state_at, named_at, token_of, elected_of, msg_behind, msg_at, items_at, counts_at, some_floors_at, floors_at, parts_at, IsBroken};

use crate::record::{RecordFault, bid_of, byte_of, candidate_of, key_of, u32_of, u64_of};
use crate::snapshot::has_floors;
use crate::snapshot_fits::are_fitting;
use crate::{
    Bid, Candidate, Floors, Key, KeyState, KeyStates, Messages, Msg, OLDEST_AREA, Refusal, Summary,
};
use std::alloc::{AllocError, Global};

// What a snapshot begins with: the counts of its summary, and how many keys there are.
#[derive(Clone, Copy)]
pub(crate) struct Counts {
    pub(crate) inputs: u64,
    pub(crate) taken: u64,
    pub(crate) credit: u64,
    pub(crate) sent: u64,
    pub(crate) stands: u16,
    pub(crate) keys: u32,
}

/// The summary whose snapshot these bytes are in this layout, in a ring of `n` nodes; refused as 16 with offset 0 where
/// they are that of none, and as 8.
pub fn read_summary(alloc: Global, bytes: &[u8], n: u8, layout: u8) -> Result<Summary, Refusal>
    ensures found { IfOk result (λ s. Spells layout n bytes.now s) }
    ensures broken { IfErr result (λ e. (e ≡ OutOfMemory) ⊎ ((e ≡ Damaged 0) × ((s : Summary) → ¬ (Spells layout n bytes.now s)))) }
{
    if layout >= OLDEST_AREA {
        return read_parts(alloc, bytes, n, layout);
    }
    match bytes {
        [] => Ok(Summary::empty(alloc)),
        [..] => Err(Refusal::Damaged(0)),
    }
}

fn read_parts(alloc: Global, bytes: &[u8], n: u8, layout: u8) -> Result<Summary, Refusal>
    requires newer { 2 ≤ layout }
    ensures found { IfOk result (λ s. Spells layout n bytes.now s) }
    ensures broken { IfErr result (λ e. (e ≡ OutOfMemory) ⊎ ((e ≡ Damaged 0) × ((s : Summary) → ¬ (Spells layout n bytes.now s)))) }
{
    let (counts, states, messages, floors) = match parts_of(alloc, bytes, n, layout) {
        Ok(parts) => parts,
        Err(refusal) => return Err(refusal),
    };
    if !are_fitting(&counts, &states, &floors) {
        return Err(Refusal::Damaged(0));
    }
    Ok(Summary {
        inputs: counts.inputs,
        taken: counts.taken,
        credit: counts.credit,
        sent: counts.sent,
        stands: counts.stands,
        keys: KeyStates::from_sorted(states),
        window: Messages::from_vec(messages),
        floors: Floors::from_sorted(floors),
    })
}

#[tactic(auto, unfolding(crate::specs::SnapshotRead::parts_at))]
fn parts_of(
    alloc: Global,
    bytes: &[u8],
    n: u8,
    layout: u8,
) -> Result<(Counts, Vec<KeyState>, Vec<Msg>, Vec<Key>), Refusal>
    ensures found { IfOk result (λ x. parts_at layout n bytes.now ≡ Ok (x.0, x.1.items, x.2.items, x.3.items)) }
    ensures broken { IfErr result (λ e. IsBroken e (parts_at layout n bytes.now)) }
{
    let (counts, rest) = match counts_of(bytes) {
        Ok(x) => x,
        Err(_) => return Err(Refusal::Damaged(0)),
    };
    if counts.sent < counts.credit {
        return Err(Refusal::Damaged(0));
    }
    let (states, rest) = match states_of(alloc, n, counts.keys, rest) {
        Ok(x) => x,
        Err(refusal) => return Err(refusal),
    };
    let (messages, rest) = match messages_of(alloc, n, counts.sent - counts.credit, rest) {
        Ok(x) => x,
        Err(refusal) => return Err(refusal),
    };
    let (floors, rest) = match floors_of(alloc, layout, rest) {
        Ok(x) => x,
        Err(refusal) => return Err(refusal),
    };
    match rest {
        [] => Ok((counts, states, messages, floors)),
        [..] => Err(Refusal::Damaged(0)),
    }
}

#[tactic(auto, unfolding(crate::specs::SnapshotRead::counts_at))]
pub(crate) fn counts_of(bytes: &[u8]) -> Result<(Counts, &[u8]), RecordFault>
    ensures { Finds (λ x. (x.0, x.1.now)) result (counts_at bytes.now) }
{
    let (inputs, rest) = u64_of(bytes)?;
    let (taken, rest) = u64_of(rest)?;
    let (credit, rest) = u64_of(rest)?;
    let (sent, rest) = u64_of(rest)?;
    let (stands, rest) = u16_of(rest)?;
    let (keys, rest) = u32_of(rest)?;
    let counts = Counts {
        inputs,
        taken,
        credit,
        sent,
        stands,
        keys,
    };
    Ok((counts, rest))
}

fn u16_of(bytes: &[u8]) -> Result<(u16, &[u8]), RecordFault>
    ensures { Finds (λ x. (x.0, x.1.now)) result (number_at w16 bytes.now) }
{
    if bytes.len() < 2 {
        return Err(RecordFault::Short);
    }
    let (front, rest) = bytes.split_at(2);
    let number = u16::from_be_bytes([front[0], front[1]]);
    Ok((number, rest))
}

// ---- the states of keys

// So many states, and the bytes after them.
fn states_of(
    alloc: Global,
    n: u8,
    count: u32,
    bytes: &[u8],
) -> Result<(Vec<KeyState>, &[u8]), Refusal>
    ensures found { IfOk result (λ x. items_at (state_at n) count bytes.now ≡ Ok (x.0.items, x.1.now)) }
    ensures broken { IfErr result (λ e. IsBroken e (items_at (state_at n) count bytes.now)) }
{
    let mut states = Vec::new(alloc);
    let mut rest = bytes;
    for i in 0..count {
        let (state, after) = match state_of(n, rest) {
            Ok(x) => x,
            Err(_) => return Err(Refusal::Damaged(0)),
        };
        match push_state(&mut states, &state) {
            Ok(()) => {}
            Err(_) => return Err(Refusal::OutOfMemory),
        }
        rest = after;
    }
    Ok((states, rest))
}

fn push_state(states: &mut Vec<KeyState>, state: &KeyState) -> Result<(), AllocError>
    ensures { IfOk result (λ _. states.new.items ≡ states.old.items ++ state.now ∷ []) }
{
    let stood: Option<Bid> = state.stood;
    let leader: Option<Candidate> = state.leader;
    states.push(KeyState {
        key: state.key,
        stood,
        leader,
    })?;
    Ok(())
}

#[tactic(auto, unfolding(crate::specs::SnapshotRead::state_at))]
pub(crate) fn state_of(n: u8, bytes: &[u8]) -> Result<(KeyState, &[u8]), RecordFault>
    ensures { Finds (λ x. (x.0, x.1.now)) result (state_at n bytes.now) }
{
    let (key, rest) = match key_of(bytes) {
        Ok(x) => x,
        Err(fault) => return Err(fault),
    };
    let (flags, rest) = byte_of(rest)?;
    behind_key(n, key, flags, rest)
}

#[tactic(auto, unfolding(crate::specs::SnapshotRead::state_behind))]
fn behind_key(n: u8, key: Key, flags: u8, bytes: &[u8]) -> Result<(KeyState, &[u8]), RecordFault>
    ensures { Finds (λ x. (x.0, x.1.now)) result (state_behind n key flags bytes.now) }
{
    match flags {
        0 => Ok((
            KeyState {
                key,
                stood: None,
                leader: None,
            },
            bytes,
        )),
        1 => match bid_of(bytes) {
            Ok((bid, rest)) => Ok((
                KeyState {
                    key,
                    stood: Some(bid),
                    leader: None,
                },
                rest,
            )),
            Err(fault) => Err(fault),
        },
        2 => match candidate_in(n, bytes) {
            Ok((leader, rest)) => Ok((
                KeyState {
                    key,
                    stood: None,
                    leader: Some(leader),
                },
                rest,
            )),
            Err(fault) => Err(fault),
        },
        3 => both_behind(n, key, bytes),
        _ => Err(RecordFault::Number),
    }
}

#[tactic(auto, unfolding(crate::specs::SnapshotRead::state_behind))]
fn both_behind(n: u8, key: Key, bytes: &[u8]) -> Result<(KeyState, &[u8]), RecordFault>
    ensures { Finds (λ x. (x.0, x.1.now)) result (state_behind n key 3 bytes.now) }
{
    let (bid, rest) = match bid_of(bytes) {
        Ok(x) => x,
        Err(fault) => return Err(fault),
    };
    match candidate_in(n, rest) {
        Ok((leader, rest)) => Ok((
            KeyState {
                key,
                stood: Some(bid),
                leader: Some(leader),
            },
            rest,
        )),
        Err(fault) => Err(fault),
    }
}

#[tactic(auto, unfolding(crate::specs::SnapshotRead::candidate_in))]
fn candidate_in(n: u8, bytes: &[u8]) -> Result<(Candidate, &[u8]), RecordFault>
    ensures { Finds (λ x. (x.0, x.1.now)) result (candidate_in n bytes.now) }
{
    let (candidate, rest) = match candidate_of(bytes) {
        Ok(x) => x,
        Err(fault) => return Err(fault),
    };
    if n < candidate.node.number() {
        return Err(RecordFault::Number);
    }
    Ok((candidate, rest))
}

// ---- messages

// So many messages, and the bytes after them.
fn messages_of(alloc: Global, n: u8, count: u64, bytes: &[u8]) -> Result<(Vec<Msg>, &[u8]), Refusal>
    ensures found { IfOk result (λ x. items_at (msg_at n) count bytes.now ≡ Ok (x.0.items, x.1.now)) }
    ensures broken { IfErr result (λ e. IsBroken e (items_at (msg_at n) count bytes.now)) }
{
    let mut messages = Vec::new(alloc);
    let mut rest = bytes;
    for i in 0..count {
        let (msg, after) = match msg_of(n, rest) {
            Ok(x) => x,
            Err(_) => return Err(Refusal::Damaged(0)),
        };
        match messages.extend_from_slice(&[msg]) {
            Ok(()) => {}
            Err(_) => return Err(Refusal::OutOfMemory),
        }
        rest = after;
    }
    Ok((messages, rest))
}

#[tactic(auto, unfolding(crate::specs::SnapshotRead::msg_at, crate::specs::SnapshotRead::msg_behind))]
pub(crate) fn msg_of(n: u8, bytes: &[u8]) -> Result<(Msg, &[u8]), RecordFault>
    ensures { Finds (λ x. (x.0, x.1.now)) result (msg_at n bytes.now) }
{
    let (kind, rest) = byte_of(bytes)?;
    match kind {
        2 => token_of(n, rest),
        3 => elected_of(n, rest),
        _ => Err(RecordFault::Kind),
    }
}

#[tactic(auto, unfolding(crate::specs::SnapshotRead::token_of))]
fn token_of(n: u8, bytes: &[u8]) -> Result<(Msg, &[u8]), RecordFault>
    ensures { Finds (λ x. (x.0, x.1.now)) result (token_of n bytes.now) }
{
    match named_of(n, bytes) {
        Ok((key, candidate, rest)) => Ok((Msg::Token { key, candidate }, rest)),
        Err(fault) => Err(fault),
    }
}

#[tactic(auto, unfolding(crate::specs::SnapshotRead::elected_of))]
fn elected_of(n: u8, bytes: &[u8]) -> Result<(Msg, &[u8]), RecordFault>
    ensures { Finds (λ x. (x.0, x.1.now)) result (elected_of n bytes.now) }
{
    match named_of(n, bytes) {
        Ok((key, candidate, rest)) => Ok((Msg::Elected { key, candidate }, rest)),
        Err(fault) => Err(fault),
    }
}

#[tactic(auto, unfolding(crate::specs::SnapshotRead::named_at))]
fn named_of(n: u8, bytes: &[u8]) -> Result<(Key, Candidate, &[u8]), RecordFault>
    ensures { Finds (λ x. ((x.0, x.1), x.2.now)) result (named_at n bytes.now) }
{
    let (key, rest) = match key_of(bytes) {
        Ok(x) => x,
        Err(fault) => return Err(fault),
    };
    match candidate_in(n, rest) {
        Ok((candidate, rest)) => Ok((key, candidate, rest)),
        Err(fault) => Err(fault),
    }
}

// ---- floors

// The floors, where the layout has some, and the bytes after them.
#[tactic(auto, unfolding(crate::specs::SnapshotRead::floors_at))]
fn floors_of(alloc: Global, layout: u8, bytes: &[u8]) -> Result<(Vec<Key>, &[u8]), Refusal>
    ensures found { IfOk result (λ x. floors_at layout bytes.now ≡ Ok (x.0.items, x.1.now)) }
    ensures broken { IfErr result (λ e. IsBroken e (floors_at layout bytes.now)) }
{
    if has_floors(layout) {
        return some_floors_of(alloc, bytes);
    }
    Ok((Vec::new(alloc), bytes))
}

#[tactic(auto, unfolding(crate::specs::SnapshotRead::some_floors_at))]
fn some_floors_of(alloc: Global, bytes: &[u8]) -> Result<(Vec<Key>, &[u8]), Refusal>
    ensures found { IfOk result (λ x. some_floors_at bytes.now ≡ Ok (x.0.items, x.1.now)) }
    ensures broken { IfErr result (λ e. IsBroken e (some_floors_at bytes.now)) }
{
    let (count, rest) = match u32_of(bytes) {
        Ok(x) => x,
        Err(_) => return Err(Refusal::Damaged(0)),
    };
    keys_of(alloc, count, rest)
}

// So many keys, and the bytes after them.
fn keys_of(alloc: Global, count: u32, bytes: &[u8]) -> Result<(Vec<Key>, &[u8]), Refusal>
    ensures found { IfOk result (λ x. items_at key_at count bytes.now ≡ Ok (x.0.items, x.1.now)) }
    ensures broken { IfErr result (λ e. IsBroken e (items_at key_at count bytes.now)) }
{
    let mut keys = Vec::new(alloc);
    let mut rest = bytes;
    for i in 0..count {
        let (key, after) = match key_of(rest) {
            Ok(x) => x,
            Err(_) => return Err(Refusal::Damaged(0)),
        };
        match keys.extend_from_slice(&[key]) {
            Ok(()) => {}
            Err(_) => return Err(Refusal::OutOfMemory),
        }
        rest = after;
    }
    Ok((keys, rest))
}
