//! Takes the parts of an area from the front of its bytes: what stands next behind each, and how long it is. A part of no
//! bytes is none: more bytes are needed, or nothing stands next from now on.
ghost use Rattle.std.specs.Prelude.{◌≡◌, ◌+◌, ◌*◌, ◌-◌, ◌++◌, ◌⊎◌, ◌<◌, ◌≤◌, ◌^◌, ℕ, List, [], length, take, drop, vec_len, vec_capacity, Decides, Err, IfOk, IfErr, OnOk, OnErr, IsOk};
ghost use Rattle.ring_records.specs.declared.input.Input.{Input};
ghost use Rattle.ring_records.specs.declared.refusal.Refusal.TheVariants as refused;
ghost use Rattle.ring_records.specs.Admission.{epochs};
ghost use Rattle.gated_journal.specs.Areas.{IsLayout};
ghost use Rattle.gated_journal.specs.InUse.{IsHeadOf};
ghost use Rattle.gated_journal.specs.Pieces.{IsAreaRead, IsAreaDamaged};
ghost use Rattle.gated_journal.specs.Listed.{Lists, IsListed};
ghost use Rattle.gated_journal.specs.Found.{InSnapshot, InFrames, IsFound, IsWaiting, IsBefore, IsOpen, IsRoom, Holds, HasRoom, AreAlike, IsReader, answer_of};

use crate::area::{Head, head_in};
use crate::area_reader::Fed;
use crate::found::{Found, Stage};
use crate::layout::is_layout;
use crate::next_frame::{is_short, take_frame};
use ring_records::{EPOCHS, Input, Refusal, Summary, SummaryReader};
use std::alloc::AllocError;

/// Takes what is whole of the rest with the piece behind it, and keeps what is not. An error changes nothing.
pub(crate) fn read_on(
    found: &mut Found,
    layout: u8,
    rest: &mut Vec<u8>,
    piece: &[u8],
) -> Result<(), AllocError>
    requires layout { found.old.snapshot.layout ≡ layout }
    requires small { IsOpen found.old.stage → found.old.at + (length rest.old.items + length piece.now) < 2 ^ 64 }
    ensures reads { OnOk result ((bytes : List ℕ) → IsReader layout found.old rest.old.items bytes → IsReader layout found.new rest.new.items (bytes ++ piece.now)) }
    ensures kept { OnErr result ((bytes : List ℕ) → IsReader layout found.old rest.old.items bytes → IsReader layout found.new rest.new.items bytes) }
    ensures err { OnErr result (found.new.stage ≡ found.old.stage) }
    ensures again { IsOpen found.old.stage ⊎ (IsOk result × (found.new.stage ≡ found.old.stage)) }
    ensures n { found.new.snapshot.n ≡ found.old.snapshot.n }
    ensures layout { found.new.snapshot.layout ≡ found.old.snapshot.layout }
{
    match found.stage {
        Stage::Head => read_open(found, layout, rest, piece),
        Stage::Snapshot(_) => read_open(found, layout, rest, piece),
        Stage::Frames => read_open(found, layout, rest, piece),
        Stage::Done => Ok(()),
        Stage::Damaged(_) => Ok(()),
    }
}

/// What is told at this stage of an area at this offset.
pub(crate) fn told(offset: u64, stage: Stage) -> Result<Fed, Refusal>
    requires small { (at : ℕ) → stage ≡ Stage.Damaged at → offset + at < 2 ^ 64 }
    ensures { result ≡ answer_of offset stage }
{
    match stage {
        Stage::Head | Stage::Snapshot(_) | Stage::Frames => Ok(Fed::More),
        Stage::Done => Ok(Fed::Done),
        Stage::Damaged(at) => Err(Refusal::Damaged(offset + at)),
    }
}

/// What was found of an area at this offset, where its bytes end.
pub(crate) fn end(found: Found, offset: u64) -> Result<(Summary, Vec<Input>, u64), Refusal>
    requires small { offset + found.at < 2 ^ 64 }
    requires damaged { (at : ℕ) → found.stage ≡ Stage.Damaged at → offset + at < 2 ^ 64 }
    ensures reads { IfOk result (λ r. (layout : ℕ) (rest bytes : List ℕ) → IsReader layout found rest bytes
        → (r.2 ≡ offset + found.at) × ((more : List ℕ) → IsAreaRead layout found.snapshot.n (bytes ++ more) r.0 r.1.items found.at)) }
    ensures broken { IfErr result (λ e. (layout : ℕ) (rest bytes : List ℕ) → IsReader layout found rest bytes
        → (at : ℕ) × ((e ≡ refused.Damaged (offset + at)) × IsAreaDamaged layout found.snapshot.n bytes at)) }
    ensures done { (layout : ℕ) (rest bytes : List ℕ) → IsReader layout found rest bytes → found.stage ≡ Stage.Done → IsOk result }
    ensures again { (at : ℕ) → found.stage ≡ Stage.Damaged at → result ≡ Err (refused.Damaged (offset + at)) }
{
    let Found {
        stage,
        snapshot,
        inputs,
        at,
    } = found;
    match stage {
        Stage::Done => match snapshot.finish() {
            Ok(base) => Ok((base, inputs, offset + at)),
            Err(_) => Err(Refusal::Damaged(offset)),
        },
        Stage::Head => Err(Refusal::Damaged(offset)),
        Stage::Snapshot(_) => Err(Refusal::Damaged(offset)),
        Stage::Frames => Err(Refusal::Damaged(offset + at)),
        Stage::Damaged(at) => Err(Refusal::Damaged(offset + at)),
    }
}

fn read_open(
    found: &mut Found,
    layout: u8,
    rest: &mut Vec<u8>,
    piece: &[u8],
) -> Result<(), AllocError>
    requires layout { found.old.snapshot.layout ≡ layout }
    requires is_open { IsOpen found.old.stage }
    requires small { found.old.at + (length rest.old.items + length piece.now) < 2 ^ 64 }
    ensures reads { OnOk result ((bytes : List ℕ) → IsReader layout found.old rest.old.items bytes → IsReader layout found.new rest.new.items (bytes ++ piece.now)) }
    ensures alike { OnErr result (AreAlike found.old found.new) }
    ensures rest { OnErr result (rest.new.items ≡ rest.old.items) }
    ensures n { found.new.snapshot.n ≡ found.old.snapshot.n }
    ensures layout { found.new.snapshot.layout ≡ found.old.snapshot.layout }
{
    make_room(found, rest.len() + piece.len())?;
    rest.extend_from_slice(piece)?;
    let taken = take_all(found, layout, rest);
    keep_behind(found.stage, rest, taken);
    Ok(())
}

// Keeps the bytes behind those that were taken while something stands next, and then none.
fn keep_behind(stage: Stage, bytes: &mut Vec<u8>, taken: usize)
    requires { taken ≤ length bytes.old.items }
    ensures kept { IsOpen stage → bytes.new.items ≡ drop taken bytes.old.items }
    ensures none { (IsOpen stage → ⊥) → bytes.new.items ≡ [] }
{
    match stage {
        Stage::Head | Stage::Snapshot(_) | Stage::Frames => drop_front(bytes, taken),
        Stage::Done | Stage::Damaged(_) => bytes.clear(),
    }
}

pub(crate) fn drop_front(bytes: &mut Vec<u8>, count: usize)
    requires { count ≤ length bytes.old.items }
    ensures { bytes.new.items ≡ drop count bytes.old.items }
{
    bytes.drain(..count);
}

// Makes room for what so many bytes say.
fn make_room(found: &mut Found, bytes: usize) -> Result<(), AllocError>
    ensures alike { AreAlike found.old found.new }
    ensures room { OnOk result (HasRoom found.new bytes) }
{
    make_snapshot_room(found.stage, &mut found.snapshot, bytes)?;
    found.inputs.reserve(bytes / 7 + 1)
}

// Room in the snapshot is needed only while it goes on.
fn make_snapshot_room(
    stage: Stage,
    snapshot: &mut SummaryReader,
    bytes: usize,
) -> Result<(), AllocError>
    ensures n { snapshot.new.n ≡ snapshot.old.n }
    ensures layout { snapshot.new.layout ≡ snapshot.old.layout }
    ensures taken { snapshot.new.taken ≡ snapshot.old.taken }
    ensures room { OnOk result (IsBefore stage → bytes ≤ snapshot.new.room) }
{
    match stage {
        Stage::Head => snapshot.reserve(bytes),
        Stage::Snapshot(_) => snapshot.reserve(bytes),
        Stage::Frames => Ok(()),
        Stage::Done => Ok(()),
        Stage::Damaged(_) => Ok(()),
    }
}

// Takes all that is whole from the front of the bytes, and tells how many that are.
fn take_all(found: &mut Found, layout: u8, bytes: &[u8]) -> usize
    requires layout { found.old.snapshot.layout ≡ layout }
    requires small { found.old.at + length bytes.now < 2 ^ 64 }
    requires room { HasRoom found.old (length bytes.now) }
    ensures holds { (taken : List ℕ) → found.old.at ≡ length taken → Holds layout found.old taken bytes.now
        → Holds layout found.new (taken ++ take result bytes.now) (drop result bytes.now) }
    ensures waits { (taken : List ℕ) → found.old.at ≡ length taken → Holds layout found.old taken bytes.now → IsWaiting found.new.stage (drop result bytes.now) }
    ensures size { result ≤ length bytes.now }
    ensures at { found.new.at ≡ found.old.at + result }
    ensures n { found.new.snapshot.n ≡ found.old.snapshot.n }
    ensures layout { found.new.snapshot.layout ≡ found.old.snapshot.layout }
{
    let mut taken = 0;
    let mut size = take_next(found, layout, bytes);
    while size > 0 {
        taken += size;
        size = take_next(found, layout, &bytes[taken..]);
    }
    taken
}

// Takes the next part, where it is whole, and tells how long it is.
fn take_next(found: &mut Found, layout: u8, bytes: &[u8]) -> usize
    requires layout { found.old.snapshot.layout ≡ layout }
    requires small { found.old.at + length bytes.now < 2 ^ 64 }
    requires room { HasRoom found.old (length bytes.now) }
    ensures holds { (taken : List ℕ) → found.old.at ≡ length taken → Holds layout found.old taken bytes.now
        → Holds layout found.new (taken ++ take result bytes.now) (drop result bytes.now) }
    ensures waits { (taken : List ℕ) → Holds layout found.old taken bytes.now → result ≡ 0 → IsWaiting found.new.stage bytes.now }
    ensures room { 1 ≤ result → HasRoom found.new (length bytes.now - result) }
    ensures size { result ≤ length bytes.now }
    ensures at { found.new.at ≡ found.old.at + result }
    ensures n { found.new.snapshot.n ≡ found.old.snapshot.n }
    ensures layout { found.new.snapshot.layout ≡ found.old.snapshot.layout }
{
    let (stage, size) = take_part(found, layout, bytes);
    found.stage = stage;
    found.at += size as u64;
    size
}

fn take_part(found: &mut Found, layout: u8, bytes: &[u8]) -> (Stage, usize)
    requires layout { found.old.snapshot.layout ≡ layout }
    requires room { HasRoom found.old (length bytes.now) }
    ensures holds { (taken : List ℕ) → found.old.at ≡ length taken → Holds layout found.old taken bytes.now
        → IsFound layout found.new.snapshot.n result.0 found.new.snapshot.taken found.new.inputs.items (taken ++ take result.1 bytes.now) (drop result.1 bytes.now) }
    ensures waits { (taken : List ℕ) → Holds layout found.old taken bytes.now → result.1 ≡ 0 → IsWaiting result.0 bytes.now }
    ensures room { 1 ≤ result.1 → IsRoom result.0 found.new.snapshot.room (vec_capacity found.new.inputs - vec_len found.new.inputs) (length bytes.now - result.1) }
    ensures size { result.1 ≤ length bytes.now }
    ensures at { found.new.at ≡ found.old.at }
    ensures n { found.new.snapshot.n ≡ found.old.snapshot.n }
    ensures layout { found.new.snapshot.layout ≡ found.old.snapshot.layout }
{
    match found.stage {
        Stage::Head => take_head(&found.snapshot, layout, bytes),
        Stage::Snapshot(left) => take_snapshot(&mut found.snapshot, left, bytes),
        Stage::Frames => take_framed(&mut found.inputs, found.at, bytes, layout),
        Stage::Done => (Stage::Done, 0),
        Stage::Damaged(at) => (Stage::Damaged(at), 0),
    }
}

fn take_head(snapshot: &SummaryReader, layout: u8, bytes: &[u8]) -> (Stage, usize)
    requires layout { snapshot.now.layout ≡ layout }
    ensures holds { snapshot.now.taken ≡ [] → IsFound layout snapshot.now.n result.0 snapshot.now.taken [] (take result.1 bytes.now) (drop result.1 bytes.now) }
    ensures waits { result.1 ≡ 0 → IsWaiting result.0 bytes.now }
    ensures size { result.1 ≤ length bytes.now }
{
    if bytes.len() < 14 {
        return (Stage::Head, 0);
    }
    let head = head_at(bytes);
    if !is_read(&head, layout) {
        return (Stage::Damaged(0), 0);
    }
    (stage_behind(snapshot, head.size), 14)
}

fn head_at(bytes: &[u8]) -> Head
    requires long { 14 ≤ length bytes.now }
    ensures { IsHeadOf result 0 (take 14 bytes.now) }
{
    let mut first = [0; 14];
    first.copy_from_slice(&bytes[..14]);
    head_in(&first)
}

// Whether an area of this layout has this head, and the layout is read.
fn is_read(head: &Head, layout: u8) -> bool
    ensures { Decides result ((head.now.gate ≡ 1) × ((head.now.layout ≡ layout) × ((IsLayout layout) × (head.now.epoch < epochs)))) }
{
    head.gate == 1 && head.layout == layout && is_layout(layout) && head.epoch < EPOCHS
}

// What stands next where so many bytes of the snapshot are still to come. Where none are it is judged.
fn stage_behind(snapshot: &SummaryReader, left: u32) -> Stage
    ensures { (layout : ℕ) (taken behind : List ℕ) → snapshot.now.layout ≡ layout → InSnapshot layout snapshot.now.taken taken left
        → IsFound layout snapshot.now.n result snapshot.now.taken [] taken behind }
{
    if left > 0 {
        return Stage::Snapshot(left);
    }
    if snapshot.is_sound() {
        Stage::Frames
    } else {
        Stage::Damaged(0)
    }
}

// A part of a snapshot has 38 bytes at most, so it is judged once these are there, or all that are left.
fn take_snapshot(snapshot: &mut SummaryReader, left: u32, bytes: &[u8]) -> (Stage, usize)
    requires room { length bytes.now ≤ snapshot.old.room }
    ensures holds { (layout : ℕ) (taken : List ℕ) → snapshot.old.layout ≡ layout → InSnapshot layout snapshot.old.taken taken left → 0 < left
        → IsFound layout snapshot.new.n result.0 snapshot.new.taken [] (taken ++ take result.1 bytes.now) (drop result.1 bytes.now) }
    ensures waits { 0 < left → result.1 ≡ 0 → IsWaiting result.0 bytes.now }
    ensures room { 1 ≤ result.1 → length bytes.now - result.1 ≤ snapshot.new.room }
    ensures size { result.1 ≤ length bytes.now }
    ensures n { snapshot.new.n ≡ snapshot.old.n }
    ensures layout { snapshot.new.layout ≡ snapshot.old.layout }
{
    let least = (left as usize).min(38);
    if bytes.len() < least {
        return (Stage::Snapshot(left), 0);
    }
    let there = bytes.len().min(left as usize);
    match snapshot.take(&bytes[..there]) {
        Some(size) => (stage_behind(snapshot, left - size as u32), size),
        None => (Stage::Damaged(0), 0),
    }
}

// A frame of this layout, with its gate.
pub(crate) fn take_framed(
    inputs: &mut Vec<Input>,
    at: u64,
    bytes: &[u8],
    layout: u8,
) -> (Stage, usize)
    requires room { length bytes.now ≤ 7 * (vec_capacity inputs.old - vec_len inputs.old) }
    ensures holds { (n : ℕ) (snapshot taken : List ℕ) → at ≡ length taken → InFrames layout n snapshot taken inputs.old.items
        → IsFound layout n result.0 snapshot inputs.new.items (taken ++ take result.1 bytes.now) (drop result.1 bytes.now) }
    ensures waits { result.1 ≡ 0 → IsWaiting result.0 bytes.now }
    ensures room { 1 ≤ result.1 → length bytes.now - result.1 ≤ 7 * (vec_capacity inputs.new - vec_len inputs.new) }
    ensures before { IsBefore result.0 → ⊥ }
    ensures lists { (taken : List ℕ) → Lists layout taken inputs.old.items
        → IsListed layout result.0 (taken ++ take result.1 bytes.now) inputs.new.items (drop result.1 bytes.now) }
    ensures damaged { (p : ℕ) → result.0 ≡ Stage.Damaged p → p ≡ at }
    ensures more { 1 ≤ result.1 → result.0 ≡ Stage.Frames }
    ensures size { result.1 ≤ length bytes.now }
{
    if bytes.is_empty() {
        return (Stage::Frames, 0);
    }
    if bytes[0] != 1 {
        return (Stage::Done, 0);
    }
    if is_short(&bytes[1..]) {
        return (Stage::Frames, 0);
    }
    match take_frame(inputs, &bytes[1..], layout) {
        Some(size) => (Stage::Frames, 1 + size),
        None => (Stage::Damaged(at), 0),
    }
}
