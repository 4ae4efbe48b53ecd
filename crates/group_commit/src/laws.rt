//! Laws of the definitions: public functions with an empty body, whose contracts say what follows from `specs/` alone.
ghost use Rattle.std.specs.Prelude.{◌≡◌, ℕ, List, [], ◌++◌, length, take};
ghost use Rattle.ring_records.specs.declared.input.Input.{Input};
ghost use Rattle.ring_records.specs.declared.key.Key.{Key};
ghost use Rattle.ring_records.specs.declared.refusal.Refusal.{Refusal};
ghost use Rattle.ring_records.specs.Admission.{used};
ghost use Rattle.ring_records.specs.Lawful.{IsLawful, IsLawfulState};
ghost use Rattle.ring_records.specs.Known.{after};
ghost use Rattle.ring_records.specs.Leader.{leader};
ghost use Rattle.ring_records.specs.Member.{Member};
ghost use Rattle.ring_records.specs.Launching as launching;
ghost use Rattle.ring_records.specs.Serving.{shown_in};
ghost use Rattle.ring_records.specs.States.{launched_base, durable_in};
ghost use Rattle.ring_records.specs.Summary.{empty, summary};
ghost use Rattle.gated_journal.specs.Reading.{Reading};
ghost use Rattle.group_commit.specs.Desk.{DeskKept, core_of, first_base, known_all, known_durable, seen, shown_all, launched, landed};
ghost use Rattle.group_commit.specs.Launching.{launched_all};
ghost use Rattle.group_commit.specs.Leads.{leader_by};
ghost use Rattle.group_commit.specs.Opening.{IsUnlawful};
ghost use Rattle.group_commit.specs.Past.{IsPast, moved};
ghost use Rattle.group_commit.specs.Since.{IsKnownDesk};

/// A desk that is opened with what stands for a lawful history is not refused for one of its inputs. One that was opened
/// with no summarised input has no past, and shows its whole history.
pub fn pasts()
    ensures lawful { (m : Member) (r : Reading) (past : List Input) (why : Refusal) → IsPast m r.base past
        → IsLawful m.node m.n m.capacity (moved (length past) (first_base r.layout r.epoch r.base)) (past ++ r.inputs) → IsUnlawful (core_of m r) r.inputs why → ⊥ }
    ensures none { (m : Member) → IsPast m empty [] }
    ensures whole { (desk : DeskKept) → seen [] desk ≡ desk.view }
{}

/// What is launched and lands at a desk is launched and lands in its whole history. A checkpoint that is durable changes
/// nothing of what is seen but how much is durable and where room is counted from. A desk that is opened with the snapshot
/// of its first inputs has these in its past.
pub fn flights()
    ensures batch { (past : List Input) (desk : DeskKept) → seen past (record desk { view = launched desk.view }) ≡ launched (seen past desk) }
    ensures checkpoint { (past : List Input) (desk : DeskKept) → IsPast desk.view.member desk.opening past → IsLawfulState desk.view.member (seen past desk).state
        → seen past (record desk { view = launched_all desk }) ≡ record (seen past desk) { state = launching.launched_all desk.view.member.node (seen past desk).state } }
    ensures landed { (past : List Input) (desk : DeskKept) → seen past (record desk { view = landed desk.view }) ≡ landed (seen past desk) }
    ensures first { (past : List Input) (desk : DeskKept) (k : ℕ) → IsPast desk.view.member desk.opening past → IsLawfulState desk.view.member (seen past desk).state
        → IsPast desk.view.member (after desk.view.member.node desk.opening (take k desk.view.state.inputs)) (past ++ take k desk.view.state.inputs) }
{}

/// A desk in whose state a node may be, and that was opened with the summary of a past, counts and shows what its whole
/// history says, which is lawful: by all its inputs it knows the summary of that, and by its durable inputs the summary of
/// those. Room is counted as in the whole history.
pub fn counts()
    ensures lawful { (past : List Input) (desk : DeskKept) → IsPast desk.view.member desk.opening past → IsKnownDesk desk → IsLawfulState desk.view.member (seen past desk).state }
    ensures known { (past : List Input) (desk : DeskKept) → IsPast desk.view.member desk.opening past → IsKnownDesk desk
        → known_all desk ≡ summary desk.view.member.node (seen past desk).state.inputs }
    ensures durable { (past : List Input) (desk : DeskKept) → IsPast desk.view.member desk.opening past → IsKnownDesk desk
        → known_durable desk ≡ summary desk.view.member.node (durable_in (seen past desk).state) }
    ensures shown { (past : List Input) (desk : DeskKept) → IsPast desk.view.member desk.opening past → IsKnownDesk desk
        → shown_all desk ≡ shown_in desk.view.member.node (seen past desk).state }
    ensures leader { (past : List Input) (desk : DeskKept) (key : Key) → IsPast desk.view.member desk.opening past → IsKnownDesk desk
        → leader_by (known_all desk) key ≡ leader desk.view.member.node (seen past desk).state.inputs key }
    ensures used { (past : List Input) (desk : DeskKept) → used (launched_base desk.view.state) desk.view.state.inputs
        ≡ used (launched_base (seen past desk).state) (seen past desk).state.inputs }
{}
