//! Laws of the definitions: public functions with an empty body, whose contracts say what follows from `specs/` alone.
ghost use Rattle.std.specs.Prelude.{◌≡◌, ℕ, List, Option, length, drop, false};
ghost use Rattle.ring_records.specs.declared.base.Base.{Base};
ghost use Rattle.ring_records.specs.declared.candidate.Candidate.{Candidate};
ghost use Rattle.ring_records.specs.declared.input.Input.{Input};
ghost use Rattle.ring_records.specs.declared.key.Key.{Key};
ghost use Rattle.ring_records.specs.Admission.{base_of, newest, snapshot_len, used};
ghost use Rattle.ring_records.specs.Decided.{told};
ghost use Rattle.ring_records.specs.Emission.{sent};
ghost use Rattle.ring_records.specs.History.{taken, credit, stands};
ghost use Rattle.ring_records.specs.Known.{leads_in};
ghost use Rattle.ring_records.specs.Latest.{IsLatest};
ghost use Rattle.ring_records.specs.Leader.{latest};
ghost use Rattle.ring_records.specs.Release.{carry};
ghost use Rattle.ring_records.specs.Summary.{floors_in, summary};
ghost use Rattle.node_core.specs.Brought.{brought, who_after, who_by};
ghost use Rattle.node_core.specs.Core.{CoreView};
ghost use Rattle.node_core.specs.FreeCore.{CoreStandsFor};

/// A core that stands for a history counts, sends and takes what the history says: what it shows of its inputs, of the links
/// to its neighbours, of its Stands and floors, and of the bytes that are taken.
pub fn counts()
    ensures inputs { (core : CoreView) (base : Base) (h : List Input) → CoreStandsFor core base h → core.known.inputs ≡ length h }
    ensures sent { (core : CoreView) (base : Base) (h : List Input) → CoreStandsFor core base h → core.known.sent ≡ length (sent core.me h) }
    ensures taken { (core : CoreView) (base : Base) (h : List Input) → CoreStandsFor core base h → core.known.taken ≡ length (taken h) }
    ensures credit { (core : CoreView) (base : Base) (h : List Input) → CoreStandsFor core base h → core.known.credit ≡ credit h }
    ensures window { (core : CoreView) (base : Base) (h : List Input) → CoreStandsFor core base h → core.known.window ≡ drop (credit h) (sent core.me h) }
    ensures stands { (core : CoreView) (base : Base) (h : List Input) → CoreStandsFor core base h → core.known.stands ≡ stands h }
    ensures floors { (core : CoreView) (base : Base) (h : List Input) → CoreStandsFor core base h → core.known.floors ≡ floors_in h }
    ensures used { (core : CoreView) (base : Base) (h : List Input) → CoreStandsFor core base h → core.room.taken ≡ used base h }
{}

/// It knows the leaders that the history makes known, and what an input that it accepts brings is what the history sends and
/// tells then. With an area for all that it knows it stands for the same history.
pub fn histories()
    ensures who { (core : CoreView) (base : Base) (h : List Input) (key : Key) → CoreStandsFor core base h → who_by core.known key ≡ who_after core.me h key }
    ensures latest { (core : CoreView) (base : Base) (h : List Input) (group : List ℕ) (led : Option (ℕ × Candidate)) → CoreStandsFor core base h
        → IsLatest (leads_in core.known group) led → led ≡ latest core.me h group }
    ensures carry { (core : CoreView) (base : Base) (h : List Input) (x : Input) → CoreStandsFor core base h → (brought core.me core.known x).carry ≡ carry core.me h x }
    ensures told { (core : CoreView) (base : Base) (h : List Input) (x : Input) → CoreStandsFor core base h → (brought core.me core.known x).notice ≡ told core.me h x }
    ensures renewed { (core : CoreView) (base : Base) (h : List Input) (epoch : ℕ) → CoreStandsFor core base h
        → CoreStandsFor (record core { room = record { layout = newest; epoch = epoch; taken = snapshot_len newest core.known; waits = false } }) (base_of newest epoch (summary core.me h)) h }
{}
