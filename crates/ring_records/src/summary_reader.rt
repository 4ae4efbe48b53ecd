// Reading the bytes of a summary part after part.
ghost use Rattle.std.specs.Prelude.{◌≡◌, ◌+◌, ◌-◌, ◌*◌, ◌++◌, ◌∷◌, ◌⊎◌, ◌<◌, ◌≤◌, ◌^◌, ℕ, List, [], Some, None, true, false, length, take, drop, vec_len, vec_capacity, MatchOption, IfOk, IfErr, OnOk};
ghost use Rattle.ring_records.specs.declared.refusal.Refusal.TheVariants.{Damaged};
ghost use Rattle.ring_records.specs.declared.snapshot_read.Counts as counts;
ghost use Rattle.ring_records.specs.declared.summary.Summary.{Summary};
ghost use Rattle.ring_records.specs.Snapshot.{Spells};
ghost use Rattle.ring_records.specs.SnapshotPart.{room_of, shown, is_floor_left, AreRead, IsWindowRead, TakesCounts, NoCounts, TakesState, NoState, TakesMessage, NoMessage, TakesEnd, NoEnd, TakesFloor, NoFloor, TakesPart, NoPart, IsSoundPart};

use crate::record::{key_of, u32_of};
use crate::snapshot::has_floors;
use crate::snapshot_fits::are_fitting;
use crate::snapshot_read::{Counts, counts_of, msg_of, state_of};
use crate::{Floors, Key, KeyState, KeyStates, Messages, Msg, OLDEST_AREA, Refusal, Summary};
use std::alloc::{AllocError, Global};
use std::marker::Model;

// What was taken behind the counts.
#[derive(Drop)]
pub(crate) struct Taken {
    pub(crate) states: Vec<KeyState>,
    pub(crate) messages: Vec<Msg>,
    // How many floors there are to be, once that was taken.
    pub(crate) count: Option<u32>,
    pub(crate) floors: Vec<Key>,
}

/// Reads a snapshot whose bytes come one after the other. It keeps what they say, and none of them.
#[derive(Drop)]
pub struct SummaryReader {
    n: u8,
    layout: u8,
    counts: Option<Counts>,
    parts: Taken,
}

impl Model for SummaryReader {
    ghost use Rattle.ring_records.specs.SnapshotPart.{SnapshotPart, taken_of, room_of, shown, IsReading};

    ghost Value = { SnapshotPart };

    ghost view = { λ r. record { n = r.n; layout = r.layout; taken = taken_of r.counts (shown r.parts); room = room_of r.parts } };

    ghost invariant = { λ r. IsReading r.layout r.n r.counts (shown r.parts) };
}

impl SummaryReader {
    ghost use Rattle.ring_records.specs.SnapshotPart.{NoMore};

    /// A reader of the snapshot in this layout of a node of a ring of `n`, which took no byte yet.
    pub fn new(alloc: Global, n: u8, layout: u8) -> SummaryReader
        ensures n { result.n ≡ n }
        ensures layout { result.layout ≡ layout }
        ensures taken { result.taken ≡ [] }
    {
        SummaryReader {
            n,
            layout,
            counts: None,
            parts: Taken {
                states: Vec::new(alloc),
                messages: Vec::new(alloc),
                count: None,
                floors: Vec::new(alloc),
            },
        }
    }

    /// Makes room for what so many more bytes say, which are taken without a growth then. Room that there is stays,
    /// also where a growth is refused.
    pub fn reserve(&mut self, bytes: usize) -> Result<(), AllocError>
        ensures n { self.new.n ≡ self.old.n }
        ensures layout { self.new.layout ≡ self.old.layout }
        ensures taken { self.new.taken ≡ self.old.taken }
        ensures room { OnOk result (bytes ≤ self.new.room) }
    {
        self.parts.states.reserve(bytes / 6 + 1)?;
        self.parts.messages.reserve(bytes / 11 + 1)?;
        self.parts.floors.reserve(bytes / 5 + 1)
    }

    /// Takes the next part of the snapshot from the front of these bytes: how many they are, 1 to 38. None where no part
    /// stands there: if these are 38 bytes or more, or all that there are, they go on as no snapshot.
    pub fn take(&mut self, bytes: &[u8]) -> Option<usize>
        requires room { length bytes.now ≤ self.old.room }
        ensures n { self.new.n ≡ self.old.n }
        ensures layout { self.new.layout ≡ self.old.layout }
        ensures part { MatchOption result (NoMore self.old.layout self.old.n self.old.taken bytes.now) (λ size. self.new.taken ≡ self.old.taken ++ take size bytes.now) }
        ensures none { MatchOption result (self.new ≡ self.old) (λ size. (1 ≤ size) × (size ≤ length bytes.now)) }
        ensures room { MatchOption result (self.new ≡ self.old) (λ size. self.old.room ≤ self.new.room + size) }
    {
        match self.counts {
            None => match take_counts(self.layout, bytes) {
                Some(counts) => {
                    self.counts = Some(counts);
                    Some(38)
                }
                None => None,
            },
            Some(counts) => take_part(self.n, self.layout, &counts, &mut self.parts, bytes),
        }
    }

    /// Whether the bytes that were taken are the snapshot of a node of a ring of `n`.
    pub fn is_sound(&self) -> bool
        ensures yes { result ≡ true → (s : Summary) × Spells self.now.layout self.now.n self.now.taken s }
        ensures no { result ≡ false → (s : Summary) → ¬ (Spells self.now.layout self.now.n self.now.taken s) }
    {
        match &self.counts {
            None => self.layout < OLDEST_AREA,
            Some(counts) => is_whole(self.layout, counts, &self.parts),
        }
    }

    /// The summary whose snapshot the bytes are that were taken. Refused as 16 with offset 0 where they are that of none.
    pub fn finish(self) -> Result<Summary, Refusal>
        ensures found { IfOk result (λ s. Spells self.layout self.n self.taken s) }
        ensures broken { IfErr result (λ e. (e ≡ Damaged 0) × ((s : Summary) → ¬ (Spells self.layout self.n self.taken s))) }
    {
        match self.counts {
            None => {
                if self.layout >= OLDEST_AREA {
                    return Err(Refusal::Damaged(0));
                }
                Ok(Summary {
                    inputs: 0,
                    taken: 0,
                    credit: 0,
                    sent: 0,
                    stands: 0,
                    keys: KeyStates::from_sorted(self.parts.states),
                    window: Messages::from_vec(self.parts.messages),
                    floors: Floors::from_sorted(self.parts.floors),
                })
            }
            Some(counts) => {
                if !is_whole(self.layout, &counts, &self.parts) {
                    return Err(Refusal::Damaged(0));
                }
                Ok(Summary {
                    inputs: counts.inputs,
                    taken: counts.taken,
                    credit: counts.credit,
                    sent: counts.sent,
                    stands: counts.stands,
                    keys: KeyStates::from_sorted(self.parts.states),
                    window: Messages::from_vec(self.parts.messages),
                    floors: Floors::from_sorted(self.parts.floors),
                })
            }
        }
    }
}

// The counts at the front of the bytes, where they may be those of a summary.
fn take_counts(layout: u8, bytes: &[u8]) -> Option<Counts>
    ensures { MatchOption result (NoCounts layout bytes.now) (λ counts. TakesCounts layout bytes.now counts) }
{
    if layout < OLDEST_AREA {
        return None;
    }
    match counts_of(bytes) {
        Ok((counts, _)) => {
            if counts.sent < counts.credit {
                return None;
            }
            Some(counts)
        }
        Err(_) => None,
    }
}

// Takes the next state, message or floor behind these, or the number of floors.
fn take_part(n: u8, layout: u8, counts: &Counts, parts: &mut Taken, bytes: &[u8]) -> Option<usize>
    requires read { AreRead layout n counts.now (shown parts.old) }
    requires room { length bytes.now ≤ room_of parts.old }
    ensures part { MatchOption result (NoPart layout n counts.now (shown parts.old) bytes.now) (λ size. TakesPart layout n counts.now (shown parts.old) (shown parts.new) bytes.now size) }
    ensures none { result ≡ None → parts.new ≡ parts.old }
    ensures room { MatchOption result (Unit {0}) (λ size. room_of parts.old ≤ room_of parts.new + size) }
{
    if (parts.states.len() as u64) < u64::from(counts.keys) {
        take_state(n, &mut parts.states, bytes)
    } else if (parts.messages.len() as u64) < counts.sent - counts.credit {
        take_message(n, &mut parts.messages, bytes)
    } else {
        take_behind(layout, parts, bytes)
    }
}

// Takes the number of floors, or the next floor.
fn take_behind(layout: u8, parts: &mut Taken, bytes: &[u8]) -> Option<usize>
    requires room { length bytes.now ≤ room_of parts.old }
    ensures part { (n : ℕ) (k : counts.Counts) → AreRead layout n k (shown parts.old) → IsWindowRead k (shown parts.old)
        → MatchOption result (NoPart layout n k (shown parts.old) bytes.now) (λ size. TakesPart layout n k (shown parts.old) (shown parts.new) bytes.now size) }
    ensures none { result ≡ None → parts.new ≡ parts.old }
    ensures room { MatchOption result (Unit {0}) (λ size. room_of parts.old ≤ room_of parts.new + size) }
{
    match parts.count {
        None => {
            if has_floors(layout) {
                take_end(&mut parts.count, bytes)
            } else {
                None
            }
        }
        Some(count) => {
            if (parts.floors.len() as u64) < u64::from(count) {
                take_floor(&mut parts.floors, bytes)
            } else {
                None
            }
        }
    }
}

// Takes the number of floors.
fn take_end(count: &mut Option<u32>, bytes: &[u8]) -> Option<usize>
    ensures end { MatchOption result (NoEnd bytes.now) (λ size. TakesEnd count.new bytes.now size) }
    ensures none { result ≡ None → count.new ≡ count.old }
{
    match u32_of(bytes) {
        Ok((number, _)) => {
            *count = Some(number);
            Some(4)
        }
        Err(_) => None,
    }
}

fn take_floor(floors: &mut Vec<Key>, bytes: &[u8]) -> Option<usize>
    requires room { length bytes.now ≤ 5 * (vec_capacity floors.old - vec_len floors.old) }
    ensures floor { MatchOption result (NoFloor bytes.now) (λ size. TakesFloor floors.old.items floors.new.items bytes.now size) }
    ensures none { result ≡ None → floors.new ≡ floors.old }
    ensures len { MatchOption result (Unit {0}) (λ size. vec_len floors.new ≡ vec_len floors.old + 1) }
    ensures capacity { vec_capacity floors.new ≡ vec_capacity floors.old }
{
    match key_of(bytes) {
        Ok((floor, rest)) => {
            floors.push_reserved(Key {
                group: floor.group,
                term: floor.term,
            });
            Some(bytes.len() - rest.len())
        }
        Err(_) => None,
    }
}

fn take_state(n: u8, states: &mut Vec<KeyState>, bytes: &[u8]) -> Option<usize>
    requires room { length bytes.now ≤ 6 * (vec_capacity states.old - vec_len states.old) }
    ensures state { MatchOption result (NoState n bytes.now) (λ size. TakesState n states.old.items states.new.items bytes.now size) }
    ensures none { result ≡ None → states.new ≡ states.old }
    ensures len { MatchOption result (Unit {0}) (λ size. vec_len states.new ≡ vec_len states.old + 1) }
    ensures capacity { vec_capacity states.new ≡ vec_capacity states.old }
{
    match state_of(n, bytes) {
        Ok((state, rest)) => {
            states.push_reserved(KeyState {
                key: state.key,
                stood: state.stood,
                leader: state.leader,
            });
            Some(bytes.len() - rest.len())
        }
        Err(_) => None,
    }
}

fn take_message(n: u8, messages: &mut Vec<Msg>, bytes: &[u8]) -> Option<usize>
    requires room { length bytes.now ≤ 11 * (vec_capacity messages.old - vec_len messages.old) }
    ensures message { MatchOption result (NoMessage n bytes.now) (λ size. TakesMessage n messages.old.items messages.new.items bytes.now size) }
    ensures none { result ≡ None → messages.new ≡ messages.old }
    ensures len { MatchOption result (Unit {0}) (λ size. vec_len messages.new ≡ vec_len messages.old + 1) }
    ensures capacity { vec_capacity messages.new ≡ vec_capacity messages.old }
{
    match msg_of(n, bytes) {
        Ok((msg, rest)) => {
            messages.push_reserved(msg);
            Some(bytes.len() - rest.len())
        }
        Err(_) => None,
    }
}

// Whether nothing is missing, and the counts fit what was read.
fn is_whole(layout: u8, counts: &Counts, parts: &Taken) -> bool
    requires credit { counts.now.credit ≤ counts.now.sent }
    ensures { (n : ℕ) → AreRead layout n counts.now (shown parts.now) → IsSoundPart result layout n counts.now (shown parts.now) }
{
    if (parts.states.len() as u64) < u64::from(counts.keys) {
        return false;
    }
    if (parts.messages.len() as u64) < counts.sent - counts.credit {
        return false;
    }
    if is_floor_left(layout, parts) {
        return false;
    }
    are_fitting(counts, &parts.states, &parts.floors)
}

// Whether the number of floors is to follow, or a floor.
fn is_floor_left(layout: u8, parts: &Taken) -> bool
    ensures { result ≡ is_floor_left layout parts.now.count parts.now.floors.items }
{
    match parts.count {
        None => has_floors(layout),
        Some(count) => (parts.floors.len() as u64) < u64::from(count),
    }
}
