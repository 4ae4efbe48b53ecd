//! Whether the nodes of a ring are of one time.
ghost use Rattle.std.specs.Prelude.{ℕ, ◌≡◌, ◌<◌, ◌≤◌, ◌+◌, ◌-◌, ◌^◌, ◌++◌, ◌↔◌, IsTrue, false, List, drop, length, slice_get, Some, OnOk, IfOk, IfErr, IfSome, IfNone};
ghost use Rattle.ring_records.specs.declared.input.Input.{Input};
ghost use Rattle.ring_records.specs.Emission.{sent};
ghost use Rattle.ring_records.specs.Fitting.{CountsFit, LinkFits, MessagesFit};
ghost use Rattle.ring_records.specs.History.{message_of, taken as taken_by};
ghost use Rattle.ring_records.specs.States.{durable_in};
ghost use Rattle.ring_records.specs.Place.{after};
ghost use Rattle.group_commit.specs.Desk.{seen};
ghost use Rattle.group_commit.specs.Past.{IsPast};
ghost use Rattle.ring_start.specs.Fits.{found_as, IsInOrder, since, opening_of, ArePasts, history, IsKnownTo, Fits, FitsBehind, LinksFit, AllLeadersFit, Agrees, Differs, IsCauseOf, IsMemory};

use crate::found::Found;
use crate::ring_fault::RingFault;
use disk_model::Device;
use group_commit::Desk;
use ring_records::{Input, Msg, NodeNo, Notice};
use std::alloc::AllocError;

/// Refused with the first two nodes that do not fit, where two do not: a link, of which the node behind it took more
/// than the node before it sent, or less than was credited, or another message than was sent; or two leaders that are
/// known for one key. Messages are compared where the files of both nodes have them. What is said of histories is said of
/// those whose openings are summaries of pasts.
pub(crate) fn look_over<V: Device>(ring: &[Found<V>]) -> Result<(), RingFault>
    requires order { IsInOrder found_as ring.now }
    ensures fits { OnOk result (Fits found_as (length ring.now) ring.now) }
    ensures apart { IfErr result (λ fault. IsCauseOf found_as ring.now fault) }
    ensures memory { (pasts : ℕ → List Input) → ArePasts found_as pasts ring.now → FitsBehind found_as pasts (length ring.now) ring.now → IfErr result (λ fault. IsMemory fault) }
{
    match look_at_links(ring) {
        Ok(()) => look_at_leaders(ring),
        Err(fault) => Err(fault),
    }
}

fn look_at_links<V: Device>(ring: &[Found<V>]) -> Result<(), RingFault>
    requires order { IsInOrder found_as ring.now }
    ensures fit { OnOk result (LinksFit found_as ring.now) }
    ensures apart { IfErr result (λ fault. IsCauseOf found_as ring.now fault) }
{
    for place in 0..ring.len() {
        let next = behind(place, ring.len());
        match link_fits(desk_at(ring, place), desk_at(ring, next)) {
            Ok(true) => {}
            Ok(false) => {
                return Err(RingFault::Apart(number_at(ring, place), number_at(ring, next)));
            }
            Err(error) => return Err(RingFault::Memory(error)),
        }
    }
    Ok(())
}

/// Whether the link from a node to the one behind it fits. The error is that of the allocator.
fn link_fits(own: &Desk, next: &Desk) -> Result<bool, AllocError>
    requires whole { (own.now.gone ≡ 0) × (next.now.gone ≡ 0) }
    ensures { IfOk result (λ fits. (past behind : List Input) → IsPast own.now.view.member own.now.opening past → IsPast next.now.view.member next.now.opening behind
        → IsTrue fits ↔ LinkFits (IsKnownTo own.now.opening next.now.opening) own.now.view.member.node (past ++ own.now.view.state.inputs) (behind ++ next.now.view.state.inputs)) }
{
    if !counts_fit(own, next) {
        return Ok(false);
    }
    let messages = own.messages()?;
    Ok(are_those(
        &messages,
        own.opening().credit,
        next.opening().taken,
        next.history(),
    ))
}

/// Whether a node sent as many messages as the node behind it took, which took as many as the first one knows to be taken.
fn counts_fit(own: &Desk, next: &Desk) -> bool
    ensures { (past behind : List Input) → IsPast own.now.view.member own.now.opening past → IsPast next.now.view.member next.now.opening behind
        → IsTrue result ↔ CountsFit own.now.view.member.node (past ++ own.now.view.state.inputs) (behind ++ next.now.view.state.inputs) }
{
    own.credit() <= next.taken() && next.taken() <= own.sent()
}

/// Whether the messages that the inputs take, the first of them with number `taken`, are those that were sent, of which
/// there are all from number `first` on.
fn are_those(messages: &[Msg], first: u64, taken: u64, inputs: &[Input]) -> bool
    requires few { taken + length inputs.now < 2 ^ 64 }
    ensures { (i : ℕ) (own behind : List Input) → messages.now ≡ drop first (sent i own) → taken ≡ length (taken_by behind)
        → IsTrue result ↔ MessagesFit (λ place. (first ≤ place) × (taken ≤ place)) i own (behind ++ inputs.now) }
{
    let mut place = taken;
    for input in inputs {
        if let Some(msg) = message_in(input) {
            if !is_sent(messages, first, place, &msg) {
                return false;
            }
            place += 1;
        }
    }
    true
}

/// The message that the input takes, if it takes one.
#[tactic(auto, unfolding(ring_records::specs::History::message_of))]
fn message_in(input: &Input) -> Option<Msg>
    ensures { result ≡ message_of input.now }
{
    match input {
        Input::Take { no: _, msg } => Some(*msg),
        _ => None,
    }
}

/// Whether the message of this number is that one, where it is none below `first`, the number of the first of these.
fn is_sent(messages: &[Msg], first: u64, place: u64, msg: &Msg) -> bool
    ensures { IsTrue result ↔ (first ≤ place → slice_get messages.now (place - first) ≡ Some msg.now) }
{
    place < first || is_at(messages, place - first, msg)
}

/// Whether the message stands at this place.
fn is_at(messages: &[Msg], place: u64, msg: &Msg) -> bool
    ensures { IsTrue result ↔ (slice_get messages.now place ≡ Some msg.now) }
{
    match messages.get(place as usize) {
        Some(there) => is_same(there, msg),
        None => false,
    }
}

/// Whether they are one message.
fn is_same(a: &Msg, b: &Msg) -> bool
    ensures { IsTrue result ↔ (a.now ≡ b.now) }
{
    a == b
}

/// Each node is compared with those before it.
fn look_at_leaders<V: Device>(ring: &[Found<V>]) -> Result<(), RingFault>
    requires order { IsInOrder found_as ring.now }
    ensures fit { OnOk result (AllLeadersFit found_as ring.now) }
    ensures apart { IfErr result (λ fault. IsCauseOf found_as ring.now fault) }
{
    for place in 0..ring.len() {
        let Ok(told) = desk_at(ring, place).decisions() else {
            return Err(RingFault::Memory(AllocError));
        };
        if let Some(other) = differing(ring, place, &told) {
            return Err(RingFault::Apart(other, number_at(ring, place)));
        }
    }
    Ok(())
}

/// The first node before a place that knows another leader for the key of a decision that is told.
fn differing<V: Device>(ring: &[Found<V>], place: usize, told: &[Notice]) -> Option<NodeNo>
    requires order { IsInOrder found_as ring.now }
    requires inside { place ≤ length ring.now }
    ensures none { IfNone result ((pasts : ℕ → List Input) → ArePasts found_as pasts ring.now → (i : ℕ) → 1 ≤ i → i ≤ place → Agrees i (history found_as pasts ring.now i) told.now) }
    ensures some { IfSome result (λ i. (1 ≤ i) × (i ≤ place) × ((pasts : ℕ → List Input) → ArePasts found_as pasts ring.now → Differs i (history found_as pasts ring.now i) told.now)) }
{
    for before in 0..place {
        if !agrees(desk_at(ring, before), told) {
            return Some(number_at(ring, before));
        }
    }
    None
}

/// Whether the node knows no other leader for the key of a decision that is told.
fn agrees(desk: &Desk, told: &[Notice]) -> bool
    ensures yes { IsTrue result → (past : List Input) → IsPast desk.now.view.member desk.now.opening past → Agrees desk.now.view.member.node (past ++ desk.now.view.state.inputs) told.now }
    ensures no { result ≡ false → (past : List Input) → IsPast desk.now.view.member desk.now.opening past → Differs desk.now.view.member.node (past ++ desk.now.view.state.inputs) told.now }
{
    for notice in told {
        if let Notice::Decided(decision) = notice {
            if let Some(leader) = desk.who(&decision.key) {
                if leader != decision.leader {
                    return false;
                }
            }
        }
    }
    true
}

/// The number of the node at a place, counted from 0.
pub(crate) fn number_at<V: Device>(ring: &[Found<V>], place: usize) -> NodeNo
    requires order { IsInOrder found_as ring.now }
    requires inside { place < length ring.now }
    ensures { result ≡ place + 1 }
{
    ring[place].number()
}

/// The desk of the node at a place, counted from 0.
pub(crate) fn desk_at<V: Device>(ring: &[Found<V>], place: usize) -> &Desk
    requires order { IsInOrder found_as ring.now }
    requires inside { place < length ring.now }
    ensures number { result.now.view.member.node ≡ place + 1 }
    ensures past { (pasts : ℕ → List Input) → ArePasts found_as pasts ring.now → IsPast result.now.view.member result.now.opening (pasts (place + 1)) }
    ensures opening { result.now.opening ≡ opening_of found_as ring.now (place + 1) }
    ensures whole { result.now.gone ≡ 0 }
    ensures inputs { result.now.view.state.inputs ≡ since found_as ring.now (place + 1) }
    ensures durable { (past : List Input) → durable_in (seen past result.now).state ≡ past ++ since found_as ring.now (place + 1) }
{
    ring[place].desk()
}

/// The place of the node that the one at this place sends to, of so many.
#[tactic(auto, unfolding(ring_records::specs::Place::after))]
fn behind(place: usize, count: usize) -> usize
    requires { place < count }
    ensures inside { result < count }
    ensures after { result + 1 ≡ after count (place + 1) }
{
    if place + 1 == count { 0 } else { place + 1 }
}
