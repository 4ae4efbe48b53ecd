//! What follows from the definitions of this crate alone.
ghost use Rattle.std.specs.Prelude.{◌≡◌, ℕ, List};
ghost use Rattle.ring_records.specs.declared.input.Input.{Input};
ghost use Rattle.ring_records.specs.declared.refusal.Refusal.{Refusal};
ghost use Rattle.ring_records.specs.Member.{Member};
ghost use Rattle.gated_journal.specs.Areas.{ReadsAs};
ghost use Rattle.gated_journal.specs.Damage.{IsDamagedAt};
ghost use Rattle.gated_journal.specs.Frames.{ReadsTo};
ghost use Rattle.gated_journal.specs.Reading.{Reading};
ghost use Rattle.gated_journal.specs.Unread.{IsUnread};

/// No image has two readings, nor two headers, and no bytes behind an offset hold two lists of frames in one layout.
pub fn one_reading()
    ensures reading { (header other : Member) (image : List ℕ) (r s : Reading) → ReadsAs header image r → ReadsAs other image s → r ≡ s }
    ensures header { (header other : Member) (image : List ℕ) (r s : Reading) → ReadsAs header image r → ReadsAs other image s → header ≡ other }
    ensures frames { (layout offset : ℕ) (image : List ℕ) (inputs more : List Input) (gate_at end : ℕ) → ReadsTo layout offset image inputs gate_at
        → ReadsTo layout offset image more end → (inputs ≡ more) × (gate_at ≡ end) }
{}

/// No image has both a reading and a fault. One that is read for a node of a ring has no fault for it, an image has no
/// two faults, and frames that are damaged at one gate are neither read nor damaged at another.
pub fn one_fault()
    ensures read { (node n : ℕ) (image : List ℕ) (refusal : Refusal) (header : Member) (r : Reading)
        → IsUnread node n image refusal → ReadsAs header image r → header.node ≡ node → header.n ≡ n → ⊥ }
    ensures fault { (node n : ℕ) (image : List ℕ) (refusal other : Refusal) → IsUnread node n image refusal → IsUnread node n image other → refusal ≡ other }
    ensures frames { (layout offset : ℕ) (image : List ℕ) (inputs : List Input) (gate_at damaged : ℕ) → ReadsTo layout offset image inputs gate_at
        → IsDamagedAt layout offset image damaged → ⊥ }
    ensures gate_at { (layout offset : ℕ) (image : List ℕ) (gate_at other : ℕ) → IsDamagedAt layout offset image gate_at → IsDamagedAt layout offset image other → gate_at ≡ other }
{}
