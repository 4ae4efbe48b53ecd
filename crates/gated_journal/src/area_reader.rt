//! Reads an area whose bytes come in pieces.
ghost use Rattle.std.specs.Prelude.{◌≡◌, ◌≢◌, ◌+◌, ◌++◌, ◌⊎◌, ◌<◌, ◌≤◌, ◌^◌, ℕ, List, [], length, Ok, Err, IfOk, IfErr, IsOk};
ghost use Rattle.ring_records.specs.declared.input.Input.{Input};
ghost use Rattle.ring_records.specs.declared.refusal.Refusal.{Refusal};
ghost use Rattle.ring_records.specs.declared.refusal.Refusal.TheVariants.{Damaged, OutOfMemory};
ghost use Rattle.ring_records.specs.declared.summary.Summary.{Summary};

use crate::found::Found;
use crate::joined::Joined;
use crate::parts::{end, read_on, told};
use ring_records::{Input, Refusal, Summary};
use std::alloc::Global;
use std::marker::Model;

/// What a reader makes of the bytes so far.
#[derive(Clone, Copy, PartialEq, Eq)]
pub enum Fed {
    /// The area goes on behind them.
    More,
    /// The closed gate was met.
    Done,
}

/// Reads an area whose bytes come in pieces, the gate first. Beside the summary and the inputs it keeps what is not yet
/// judged of a frame, 2,246 bytes at most, or of the snapshot, 37 at most.
#[derive(Drop)]
pub struct AreaReader {
    offset: u64,
    layout: u8,
    found: Found,
    // The bytes that are not yet judged.
    rest: Vec<u8>,
    fed: Joined,
}

impl Model for AreaReader {
    ghost use Rattle.gated_journal.specs.Pieces.{Pieces};

    ghost Value = { Pieces };

    ghost use Rattle.gated_journal.specs.Found.{IsReader, answer_of};

    ghost view = { λ r. record {
      offset = r.offset;
      layout = r.layout;
      n = r.found.snapshot.n;
      bytes = r.fed.bytes;
      answer = answer_of r.offset r.found.stage;
    } };

    ghost invariant = { λ r. IsReader r.layout r.found r.rest.items r.fed.bytes };
}

impl AreaReader {
    ghost use Rattle.gated_journal.specs.Pieces.{with_piece, IsAreaRead, IsAreaDamaged, IsPieceDamaged, IsAreaFront};

    /// A reader of the area of this layout whose gate stands at `offset` in its device, for a ring of `n` nodes.
    pub fn new(alloc: Global, offset: u64, layout: u8, n: u8) -> AreaReader
        ensures { result ≡ record { offset = offset; layout = layout; n = n; bytes = []; answer = Ok Fed.More } }
    {
        AreaReader {
            offset,
            layout,
            found: Found::new(alloc, layout, n),
            rest: Vec::new(alloc),
            fed: Joined::new(),
        }
    }

    /// Reads the next bytes. Refused as 16 with the offset in the device of what is damaged, and from then on again; and
    /// as 8, which changes nothing. Once it is done more bytes change nothing. The caller sees that no byte stands at 2^64
    /// in the device or behind it.
    pub fn feed(&mut self, piece: &[u8]) -> Result<Fed, Refusal>
        requires within { self.old.offset + (length self.old.bytes + length piece.now) < 2 ^ 64 }
        ensures fed { (result ≡ Err OutOfMemory) ⊎ (self.new ≡ with_piece self.old piece.now result) }
        ensures kept { result ≡ Err OutOfMemory → self.new ≡ self.old }
        ensures again { self.old.answer ≢ Ok Fed.More → result ≡ self.old.answer }

        // Of all bytes that were fed so far, joined: while it asks for more they are no whole area, once it is done they are,
        // and once it is refused they are damaged, whatever follows them.
        ensures more { result ≡ Ok Fed.More → (s : Summary) (inputs : List Input) (gate_at : ℕ) → ¬ (IsAreaRead self.new.layout self.new.n self.new.bytes s inputs gate_at) }
        ensures done { result ≡ Ok Fed.Done
            → (s : Summary) × ((inputs : List Input) × ((gate_at : ℕ) × ((more : List ℕ) → IsAreaRead self.new.layout self.new.n (self.new.bytes ++ more) s inputs gate_at))) }
        ensures damaged { IfErr result (λ e. (e ≡ OutOfMemory) ⊎ IsPieceDamaged self.old piece.now e) }

        // And they are the front of one: it is refused as soon as the head that is there is none of this layout, or a frame
        // claims more than 64 inputs, or more than 35 bytes for each.
        ensures front { result ≡ Ok Fed.More → (kept : ℕ) × IsAreaFront self.new.layout self.new.n self.new.bytes kept }
    {
        match read_on(&mut self.found, self.layout, &mut self.rest, piece) {
            Ok(()) => {
                self.fed = Joined::with_piece(&self.fed, piece);
                told(self.offset, self.found.stage)
            }
            Err(_) => Err(Refusal::OutOfMemory),
        }
    }

    /// How many bytes it keeps, since they are not judged yet: the head's, while that is not whole; of a snapshot 37 at most;
    /// behind that those of the next frame with its gate, 2,246 at most. None once it is done or has refused.
    pub fn kept_len(&self) -> usize
        ensures front { self.now.answer ≡ Ok Fed.More → IsAreaFront self.now.layout self.now.n self.now.bytes result }
        ensures none { self.now.answer ≢ Ok Fed.More → result ≡ 0 }
        ensures few { result ≤ 2246 }
    {
        self.rest.len()
    }

    /// What was read: the summary, the inputs behind it, and the offset of the closed gate in the device. Refused as 16
    /// with the offset of what is damaged, or missing.
    pub fn finish(self) -> Result<(Summary, Vec<Input>, u64), Refusal>
        requires within { self.offset + length self.bytes < 2 ^ 64 }
        ensures reads { IfOk result (λ r. (gate_at : ℕ) × ((r.2 ≡ self.offset + gate_at) × ((more : List ℕ) → IsAreaRead self.layout self.n (self.bytes ++ more) r.0 r.1.items gate_at))) }
        ensures broken { IfErr result (λ e. (at : ℕ) × ((e ≡ Damaged (self.offset + at)) × IsAreaDamaged self.layout self.n self.bytes at)) }
        ensures done { self.answer ≡ Ok Fed.Done → IsOk result }
        ensures again { (e : Refusal) → self.answer ≡ Err e → result ≡ Err e }
    {
        end(self.found, self.offset)
    }
}
