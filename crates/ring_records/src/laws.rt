//! Laws of the definitions: public functions with an empty body, whose contracts say what follows from `specs/` alone.
ghost use Rattle.std.specs.Prelude.{◌≡◌, ◌↔◌, ◌⊎◌, ◌<◌, ◌≤◌, ◌+◌, ◌||◌, ◌&&◌, nat_lt, nat_le, ℕ, Bool, Option, true, false, if◌then◌else◌, List, [], ◌∷◌, ◌++◌, Some, None, slice_get, unwrap_or, length, Ok, codes};
ghost use Rattle.std.specs.FinMap as map;
ghost use Rattle.std.specs.List.{cons_option, count_by, Contains};
ghost use Rattle.ring_records.specs.declared.base.Base.{Base};
ghost use Rattle.ring_records.specs.declared.candidate.Candidate.{Candidate};
ghost use Rattle.ring_records.specs.declared.decision.Decision.{Decision};
ghost use Rattle.ring_records.specs.declared.input.Input.{Input};
ghost use Rattle.ring_records.specs.declared.key.Key.{Key};
ghost use Rattle.ring_records.specs.declared.msg.Msg.{Msg};
ghost use Rattle.ring_records.specs.declared.summary.Summary.{Summary};
ghost use Rattle.ring_records.specs.Admission.{fresh, used, cost, snapshot_len, has_floors};
ghost use Rattle.ring_records.specs.Lawful.{IsBaseOf, IsAdmitted, IsLawful, IsLawfulState};
ghost use Rattle.ring_records.specs.Answering.{refusal, Answers, reply};
ghost use Rattle.ring_records.specs.Allowed.{IsAllowed};
ghost use Rattle.ring_records.specs.Objection.{objection};
ghost use Rattle.ring_records.specs.declared.notice.Notice.{Notice};
ghost use Rattle.ring_records.specs.declared.packet.Packet.{Packet};
ghost use Rattle.ring_records.specs.declared.refusal.Refusal.{Refusal};
ghost use Rattle.ring_records.specs.declared.reply.Reply.{Reply};
ghost use Rattle.ring_records.specs.declared.request.Request.{Request};
ghost use Rattle.ring_records.specs.Answer.{Answer, PacketRests};
ghost use Rattle.ring_records.specs.Emission.{emit, sent};
ghost use Rattle.ring_records.specs.Release.{carry, packets, window, AreLeaders};
ghost use Rattle.ring_records.specs.Decisions.{decisions, live_decisions};
ghost use Rattle.ring_records.specs.History.{floor_for, floor, names, is_named, touched, bid_for, first_stand, stood, message_of, taken, upto_of, credit, is_live_stand, stands};
ghost use Rattle.ring_records.specs.Leader.{makes_leader, first_leader, leader, latest, term_of};
ghost use Rattle.ring_records.specs.Latest.{IsLatest};
ghost use Rattle.ring_records.specs.Decided.{decided};
ghost use Rattle.ring_records.specs.Known.{sends, stepped, after, Objects};
ghost use Rattle.ring_records.specs.Lists.{or_else, EachAfter};
ghost use Rattle.ring_records.specs.Member.{Member};
ghost use Rattle.ring_records.specs.Notices.{decided_all, named_by, floor_in, leader_in, leads_in, IsNotBelow};
ghost use Rattle.ring_records.specs.Record.{HasRecord, record_of};
ghost use Rattle.ring_records.specs.RecordLists.{AreBytes};
ghost use Rattle.ring_records.specs.RecordReading.{BeginsWith, record_read};
ghost use Rattle.ring_records.specs.Release as release;
ghost use Rattle.ring_records.specs.Ring.{IsLegal};
ghost use Rattle.ring_records.specs.Part.{part};
ghost use Rattle.ring_records.specs.Snapshot.{snapshot_of, IsSound, Spells, has_stood};
ghost use Rattle.ring_records.specs.States.{NodeState, is_idle, opened, launched, landed, left_by};
ghost use Rattle.ring_records.specs.Launching.{asked, launched_all};
ghost use Rattle.ring_records.specs.Summary.{key_states, summary, empty};
ghost use Rattle.ring_records.specs.WorkedRetire.{red, alone, retired_relay};
ghost use Rattle.ring_records.specs.WorkedRun.{red_5, winner, first_election};

/// What one more input at the end changes: each look-back of the longer history is that of the shorter one, joined
/// with what the new input says. What is touched, stood for and led stands on these and on the floors.
pub fn one_more_input()
    ensures floor { (h : List Input) (x : Input) (group : List ℕ) → floor (h ++ x ∷ []) group ≡ unwrap_or (floor_for group x) (floor h group) }
    ensures is_named { (h : List Input) (x : Input) (key : Key) → is_named (h ++ x ∷ []) key ≡ (is_named h key || names key x) }
    ensures first_stand { (h : List Input) (x : Input) (key : Key) → first_stand (h ++ x ∷ []) key ≡ or_else (first_stand h key) (bid_for key x) }
    ensures taken { (h : List Input) (x : Input) → taken (h ++ x ∷ []) ≡ taken h ++ cons_option (message_of x) [] }
    ensures credit { (h : List Input) (x : Input) → credit (h ++ x ∷ []) ≡ unwrap_or (upto_of x) (credit h) }
    ensures stands { (h : List Input) (x : Input) → ((group : List ℕ) → floor_for group x ≡ None) → stands (h ++ x ∷ []) ≡ stands h + (if is_live_stand h x then 1 else 0) }
    ensures first_leader { (me : ℕ) (h : List Input) (x : Input) (key : Key) → first_leader me (h ++ x ∷ []) key ≡ or_else (first_leader me h key) (makes_leader me key h x) }
    ensures sent { (me : ℕ) (h : List Input) (x : Input) → sent me (h ++ x ∷ []) ≡ sent me h ++ cons_option (emit me h x) [] }
    ensures used { (base : Base) (h : List Input) (x : Input) → base.inputs ≤ length h → used base (h ++ x ∷ []) ≡ used base h + cost x }
{}

/// What never changes as a history grows: the bid of the first Stand, the first leader, and each message that was sent
/// or taken.
pub fn firsts_stay()
    ensures stand { (h rest : List Input) (key : Key) (bid : ℕ) → first_stand h key ≡ Some bid → first_stand (h ++ rest) key ≡ Some bid }
    ensures leader { (me : ℕ) (h rest : List Input) (key : Key) (c : Candidate) → first_leader me h key ≡ Some c → first_leader me (h ++ rest) key ≡ Some c }
    ensures sent { (me : ℕ) (h rest : List Input) (msg_no : ℕ) (m : Msg) → slice_get (sent me h) msg_no ≡ Some m → slice_get (sent me (h ++ rest)) msg_no ≡ Some m }
    ensures taken { (h rest : List Input) → taken (h ++ rest) ≡ taken h ++ taken rest }
{}

/// Where each input is allowed after those before it: no floor falls, so a retired key stays retired; a floor is at most
/// the latest term of its group, so the latest leader is never retired and never goes down.
pub fn floors_rise()
    ensures rises { (me n : ℕ) (h : List Input) (x : Input) (group : List ℕ) → IsAllowed me n h x → floor h group ≤ floor (h ++ x ∷ []) group }
    ensures at_most { (me n : ℕ) (h : List Input) (group : List ℕ) → EachAfter (IsAllowed me n) [] h → floor h group ≤ term_of (latest me h group) }
    ensures never_down { (me n : ℕ) (h : List Input) (x : Input) (group : List ℕ) → IsAllowed me n h x → IsNotBelow (latest me h group) (latest me (h ++ x ∷ []) group) }
{}

/// An input that neither names a key nor gives its group a floor changes nothing there. What a node sends for an input
/// is the same before and after one that does neither for any key of it.
pub fn keys_apart()
    ensures touched { (h : List Input) (x : Input) (key : Key) → names key x ≡ false → floor_for key.group x ≡ None → touched (h ++ x ∷ []) key ≡ touched h key }
    ensures stood { (h : List Input) (x : Input) (key : Key) → names key x ≡ false → floor_for key.group x ≡ None → stood (h ++ x ∷ []) key ≡ stood h key }
    ensures leader { (me : ℕ) (h : List Input) (x : Input) (key : Key) → names key x ≡ false → floor_for key.group x ≡ None → leader me (h ++ x ∷ []) key ≡ leader me h key }
    ensures emission { (me : ℕ) (h : List Input) (x y : Input) → ((key : Key) → names key y ≡ true → (names key x ≡ false) × (floor_for key.group x ≡ None)) → emit me (h ++ x ∷ []) y ≡ emit me h y }
{}

/// Where each input is allowed after those before it, the Stands that count are as many as the keys with a bid. The
/// count that a summary carries, and the check of a snapshot's count, rest on this.
pub fn stands_counted()
    ensures { (me n : ℕ) (h : List Input) → EachAfter (IsAllowed me n) [] h → stands h ≡ count_by has_stood (map.values (key_states me h)) }
{}

/// The latest leader of a group leads in its term, and no greater term of the group has a leader. So where there is
/// no latest, no term of the group has one.
pub fn latest_leads()
    ensures leads { (me : ℕ) (h : List Input) (group : List ℕ) (term : ℕ) (c : Candidate) → latest me h group ≡ Some (term, c)
        → leader me h (record { group = group; term = term }) ≡ Some c }
    ensures greatest { (me : ℕ) (h : List Input) (key : Key) (c : Candidate) → leader me h key ≡ Some c
        → ((led : ℕ × Candidate) × (latest me h key.group ≡ Some led) × (key.term ≤ led.0)) }
    ensures none { (me : ℕ) (h : List Input) (group : List ℕ) (term : ℕ) → latest me h group ≡ None → leader me h (record { group = group; term = term }) ≡ None }
{}

/// The decisions of a history for keys that are not retired tell its leaders, each of them and nothing else, where each
/// input was allowed. In order of key there is one list of them.
pub fn leaders_listed()
    ensures decided { (me n : ℕ) (h : List Input) (d : Decision) → EachAfter (IsAllowed me n) [] h → (Contains (live_decisions me h) d ↔ (leader me h d.key ≡ Some d.leader)) }
    ensures one { (me : ℕ) (h : List Input) (list other : List Decision) → AreLeaders me h list → AreLeaders me h other → list ≡ other }
{}

/// The content of a list of notices. A decision names the leader of its key, unless the key is retired or has one. A floor
/// that is told counts exactly where it is above the floor of its group and at most the term of its latest leader. However
/// the list goes on, a leader changes only where its key is retired, and the latest leader of a group never goes down. The
/// leaders of a history, in order of key, are those that it knows.
pub fn notices()
    ensures decided { (ns : List Notice) (d : Decision) (key : Key)
        → leader_in (ns ++ Notice.Decided d ∷ []) key ≡ (if nat_lt key.term (floor_in ns key.group) then None else or_else (leader_in ns key) (named_by key (Notice.Decided d))) }
    ensures retired { (ns : List Notice) (group : List ℕ) (f : ℕ) (o : Option (ℕ × Candidate)) → IsLatest (leads_in ns group) o
        → floor_in (ns ++ Notice.Retired group f ∷ []) group ≡ (if nat_lt (floor_in ns group) f && nat_le f (term_of o) then f else floor_in ns group) }
    ensures stays { (ns more : List Notice) (key : Key) (c : Candidate) → leader_in ns key ≡ Some c → (leader_in (ns ++ more) key ≡ Some c) ⊎ (key.term < floor_in (ns ++ more) key.group) }
    ensures never_down { (ns more : List Notice) (group : List ℕ) (a b : Option (ℕ × Candidate)) → IsLatest (leads_in ns group) a → IsLatest (leads_in (ns ++ more) group) b
        → IsNotBelow a b }
    ensures leaders { (me : ℕ) (h : List Input) (list : List Decision) (key : Key) → AreLeaders me h list → leader_in (decided_all list) key ≡ leader me h key }
{}

/// The notices of a history in which each input was allowed say what it says: its leaders and its floors.
pub fn notices_told()
    ensures leaders { (me n : ℕ) (h : List Input) (key : Key) → EachAfter (IsAllowed me n) [] h → leader_in (release.notices me [] h) key ≡ leader me h key }
    ensures floors { (me n : ℕ) (h : List Input) (group : List ℕ) → EachAfter (IsAllowed me n) [] h → floor_in (release.notices me [] h) group ≡ floor h group }
{}

/// An input is admitted exactly where no cause to refuse it is found, and the history alone allows it exactly where
/// none is found there.
pub fn admission()
    ensures history { (me n : ℕ) (h : List Input) (x : Input) → ((objection me n h x ≡ None) ↔ IsAllowed me n h x) }
    ensures whole { (me n capacity : ℕ) (base : Base) (h : List Input) (x : Input) → ((refusal me n capacity base h x ≡ None) ↔ IsAdmitted me n capacity base h x) }
{}

/// What is released stays true as a history grows: a reply that the first inputs give, and a packet that rests on them.
/// What a batch lets a node release, and what it may release again, rests on the inputs up to the end of the batch.
pub fn released_stays()
    ensures answers { (me n capacity : ℕ) (base : Base) (h rest : List Input) (q : Request) (a : Answer) → Answers me n capacity base h q a → Answers me n capacity base (h ++ rest) q a }
    ensures packets { (me : ℕ) (h rest : List Input) (packet : Packet) → PacketRests me h packet → PacketRests me (h ++ rest) packet }
    ensures batch { (me : ℕ) (h l : List Input) (packet : Packet) → Contains (packets me h l) packet → PacketRests me (h ++ l) packet }
    ensures window { (me : ℕ) (h : List Input) (packet : Packet) → Contains (window me h) packet → PacketRests me h packet }
{}

/// The state of a durable node stays lawful, whatever the area of its journal stands for: it is opened and asked; a batch
/// or a checkpoint begins to fly, where nothing flies; what flies lands; and it stops. A new node's area stands for no
/// input, and so for none of any history.
pub fn states_stay_lawful()
    ensures new { (me : ℕ) (h : List Input) → IsBaseOf me fresh h }
    ensures opened { (m : Member) (b : Base) (l : List Input) → IsBaseOf m.node b l → IsLawful m.node m.n m.capacity b l → IsLawfulState m (opened b l) }
    ensures asked { (m : Member) (s : NodeState) (q : Request) → IsLawfulState m s → IsLawfulState m (asked m s q) }
    ensures launched { (m : Member) (s : NodeState) → is_idle s ≡ true → IsLawfulState m s → IsLawfulState m (launched s) }
    ensures launched_all { (m : Member) (s : NodeState) → is_idle s ≡ true → IsLawfulState m s → IsLawfulState m (launched_all m.node s) }
    ensures landed { (m : Member) (s : NodeState) → IsLawfulState m s → IsLawfulState m (landed s) }
    ensures left { (m : Member) (keeps_flying : Bool) (s : NodeState) → IsLawfulState m s → IsLawfulState m (left_by keeps_flying s) }
{}

/// There is a legal run with a leader: three nodes stand for one key, and at its end each of them knows the one of
/// the greatest bid.
pub fn worked_run()
    ensures legal { IsLegal 3 first_election }
    ensures node_1 { leader 1 (part first_election 1) red_5 ≡ Some winner }
    ensures node_2 { leader 2 (part first_election 2) red_5 ≡ Some winner }
    ensures node_3 { leader 3 (part first_election 3) red_5 ≡ Some winner }
{}

/// There is a legal run with a Retire: the token of a key that its node retired goes no further, and the node refuses to
/// stand there and to lift the floor above what is decided.
pub fn worked_retire()
    ensures legal { IsLegal 2 retired_relay }
    ensures sent { sent 1 (part retired_relay 1) ≡ Msg.Token (red 9) alone ∷ Msg.Elected (red 9) alone ∷ [] }
    ensures stand { refusal 1 2 65536 fresh (part retired_relay 1) (Input.Stand (red 8) 5) ≡ Some (Refusal.Retired 9) }
    ensures same { refusal 1 2 65536 fresh (part retired_relay 1) (Input.Retire (codes "red") 9) ≡ Some (Refusal.Retired 9) }
    ensures above { refusal 1 2 65536 fresh (part retired_relay 1) (Input.Retire (codes "red") 10) ≡ Some Refusal.Undecided }
    ensures who { reply 1 2 65536 fresh (part retired_relay 1) (Request.Who (red 4)) ≡ Reply.Refused (Refusal.Retired 9) }
    ensures leads { reply 1 2 65536 fresh (part retired_relay 1) (Request.Who (red 9)) ≡ Reply.Leader (Some alone) }
{}

/// Records: what is spelled is read again, whatever follows it, and what is read stands there spelled. So no record
/// begins with another one. An input costs its record's bytes and 7.
pub fn records()
    ensures again { (x : Input) (rest : List ℕ) → HasRecord x → record_read (record_of x ++ rest) ≡ Ok (x, length (record_of x)) }
    ensures found { (bytes : List ℕ) (x : Input) (n : ℕ) → AreBytes bytes → record_read bytes ≡ Ok (x, n) → BeginsWith bytes x n }
    ensures apart { (x y : Input) (r s : List ℕ) → HasRecord x → HasRecord y → record_of x ++ r ≡ record_of y ++ s → x ≡ y }
    ensures cost { (x : Input) → cost x ≡ length (record_of x) + 7 }
{}

/// Two histories of a node that have one summary are as good as each other: they refuse the same inputs, room aside, send
/// and decide the same, name the same leaders, and let the node release the same again. They go on so with each list
/// of inputs that one of them allows.
pub fn summary_suffices()
    ensures refuses { (me n : ℕ) (g h : List Input) → summary me g ≡ summary me h → (x : Input) → objection me n g x ≡ objection me n h x }
    ensures sends { (me : ℕ) (g h : List Input) → summary me g ≡ summary me h → (x : Input) → carry me g x ≡ carry me h x }
    ensures decides { (me : ℕ) (g h : List Input) → summary me g ≡ summary me h → (x : Input) → decided me g x ≡ decided me h x }
    ensures leads { (me : ℕ) (g h : List Input) → summary me g ≡ summary me h → (key : Key) → leader me g key ≡ leader me h key }
    ensures latest { (me : ℕ) (g h : List Input) → summary me g ≡ summary me h → (group : List ℕ) → latest me g group ≡ latest me h group }
    ensures window { (me : ℕ) (g h : List Input) → summary me g ≡ summary me h → window me g ≡ window me h }
    ensures batch { (me n : ℕ) (g h l : List Input) → summary me g ≡ summary me h → EachAfter (IsAllowed me n) [] g → EachAfter (IsAllowed me n) [] h → EachAfter (IsAllowed me n) g l
        → (packets me g l ≡ packets me h l) × (decisions me g l ≡ decisions me h l) }
    ensures stays { (me n : ℕ) (g h l : List Input) → summary me g ≡ summary me h → EachAfter (IsAllowed me n) [] g → EachAfter (IsAllowed me n) [] h → EachAfter (IsAllowed me n) g l
        → (summary me (g ++ l) ≡ summary me (h ++ l)) × EachAfter (IsAllowed me n) h l }
{}

/// A node that knows no more than a summary of its inputs sends, refuses and goes on as their history says. This holds of
/// each history whose inputs were allowed one after the other.
pub fn summary_goes_on()
    ensures sends { (me : ℕ) (h : List Input) (x : Input) → sends me (summary me h) x ≡ emit me h x }
    ensures objects { (me n : ℕ) (h : List Input) (x : Input) (o : Option Refusal) → Objects n (summary me h) x o → o ≡ objection me n h x }
    ensures steps { (me n : ℕ) (h : List Input) (x : Input) → EachAfter (IsAllowed me n) [] h → IsAllowed me n h x → stepped me (summary me h) x ≡ summary me (h ++ x ∷ []) }
    ensures goes_on { (me n : ℕ) (g l : List Input) → EachAfter (IsAllowed me n) [] g → EachAfter (IsAllowed me n) g l → after me (summary me g) l ≡ summary me (g ++ l) }
{}

/// What a node knows is sound: of no inputs, after each input to which it has no objection, and so of each history
/// whose inputs have a record and were allowed one after the other.
pub fn summary_sound()
    ensures none { (me : ℕ) → summary me [] ≡ empty }
    ensures empty { (n : ℕ) → IsSound n empty }
    ensures steps { (me n : ℕ) (s : Summary) (x : Input) → 1 ≤ me → me ≤ 16 → me ≤ n → HasRecord x → IsSound n s → Objects n s x None → IsSound n (stepped me s x) }
    ensures history { (me n : ℕ) (h : List Input) → 1 ≤ me → me ≤ 16 → me ≤ n → EachAfter (λ g x. IsAllowed me n g x × HasRecord x) [] h → IsSound n (summary me h) }
{}

/// Bytes are the snapshot of one summary at most, whatever it is asked to be of. A snapshot has as many bytes as the rule
/// of room counts: 38 where it is of no inputs, and 42 from layout 3 on.
pub fn snapshots()
    ensures one { (layout n : ℕ) (bytes : List ℕ) (s t : Summary) → Spells layout n bytes s → Spells layout n bytes t → s ≡ t }
    ensures len { (layout : ℕ) (s : Summary) → length (snapshot_of layout s) ≡ snapshot_len layout s }
    ensures none { (layout : ℕ) → 2 ≤ layout → snapshot_len layout empty ≡ 38 + (if has_floors layout then 4 else 0) }
{}
