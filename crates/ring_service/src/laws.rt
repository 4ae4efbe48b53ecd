//! Laws of what a stop leaves of a flusher's rounds, of the leaders that running hubs name, and of what a board shows after
//! a restart: public functions with an empty body, whose contracts say what follows from the definitions alone. No program
//! calls them.
ghost use Rattle.std.specs.Prelude.{◌≡◌, ◌≢◌, ◌≤◌, ◌++◌, ◌∷◌, [], ℕ, Bool, List, Option, Some, IsTrue, length, take};
ghost use Rattle.std.specs.List.{Contains};
ghost use mathlib.Core.List.{IsPrefix};
ghost use Rattle.disk_model.specs.Disk.{LeavesOnly};
ghost use Rattle.ring_records.specs.declared.candidate.Candidate.{Candidate};
ghost use Rattle.ring_records.specs.declared.decision.Decision.{Decision};
ghost use Rattle.ring_records.specs.declared.input.Input.{Input};
ghost use Rattle.ring_records.specs.declared.input.Input.TheVariants.{Stand};
ghost use Rattle.ring_records.specs.declared.key.Key.{Key};
ghost use Rattle.ring_records.specs.declared.notice.Notice.{Notice};
ghost use Rattle.ring_records.specs.declared.packet.Packet.{Packet};
ghost use Rattle.ring_records.specs.Allowed.{IsAllowed};
ghost use Rattle.ring_records.specs.Admission.{shortage};
ghost use Rattle.ring_records.specs.Answer.{Answered, Answers, PacketRests};
ghost use Rattle.ring_records.specs.History.{floor};
ghost use Rattle.ring_records.specs.Leader.{first_leader, leader};
ghost use Rattle.ring_records.specs.Latest.{IsLatest};
ghost use Rattle.ring_records.specs.Lists.{EachAfter};
ghost use Rattle.ring_records.specs.Notices.{floor_in, leader_in, leads_in, IsNotBelow};
ghost use Rattle.ring_records.specs.Order.{is_less};
ghost use Rattle.ring_records.specs.States.{NodeState, durable_in, left_by};
ghost use Rattle.ring_records.specs.Lawful.{IsLawfulState};
ghost use Rattle.gated_journal.specs.Areas.{AllReadAs};
ghost use Rattle.gated_journal.specs.Reading.{Reading};
ghost use Rattle.group_commit.specs.declared.landed.Landed.{Landed};
ghost use Rattle.group_commit.specs.Content.{IsContent};
ghost use Rattle.group_commit.specs.Desk.{DeskKept, IsAnswer, seen};
ghost use Rattle.group_commit.specs.Past.{IsPast, shifted};
ghost use Rattle.node_store.specs.State.{Holds, IsOpenedAs};
ghost use Rattle.group_commit.specs.Next.{Durable, durable_part};
ghost use Rattle.commit_hub.specs.Told.{IsBroughtBehind, IsWindowBehind};
ghost use Rattle.ring_service.specs.Begun.{Begins, BeginsBehind};
ghost use Rattle.ring_service.specs.Leaders.{Life, AreFromReleased, AreLives, IsEarlier, IsNamed, MayBeReleasedBy, IsTold, history_of};
ghost use Rattle.ring_service.specs.Restarts.{AreLater, UnlessRetired};
ghost use Rattle.ring_service.specs.Rounds.{IsRound, IsStopped, at_rest, known_behind};
ghost use Rattle.ring_service.specs.Series.{Round, AreRounds, IsCut, IsHeld, IsLeftBehind, IsRoundOf, IsSplit, RestsOn, device_behind, inputs_of, known_since};

use commit_hub::NodeLedger;
use disk_model::Device;

/// The rounds of a flusher, from what `Node::split` gives on: the journal holds the durable inputs then, and the hub's tie
/// knows them. Each round that `Flusher::flush_round` tells of is one more; what is known to be durable are the inputs at
/// first, and those of the rounds in order. After a stop it begins so again: the inputs that the new opening stands for
/// and those behind it are all that was left.
pub fn rounds_of_a_flusher<V: Device, A: NodeLedger>()
    ensures begins { (desk : DeskKept) (device : V) → IsSplit desk (V.disk device) → IsHeld desk.view.member desk.opening (V.disk device) (durable_part desk) }
    ensures told { (old new : V) (before behind : Durable) (landed : Landed) → IsRound V.Device A.member A.opening old new before behind landed
        → (round : Round V) × (IsRoundOf V.Device A.member A.opening old before round × ((round.device ≡ new) × (known_behind round.base round.inputs before ≡ behind))) }
    ensures goes_on { (device : V) (known : Durable) (rounds : List (Round V)) (round : Round V) → AreRounds V.Device A.member A.opening device known rounds
        → IsRoundOf V.Device A.member A.opening (device_behind device rounds) (known_since known rounds) round
        → AreRounds V.Device A.member A.opening device known (rounds ++ round ∷ []) }
    ensures device { (device : V) (rounds : List (Round V)) (round : Round V) → device_behind device (rounds ++ round ∷ []) ≡ round.device }
    ensures known { (known : Durable) (rounds : List (Round V)) (round : Round V) → known_since known (rounds ++ round ∷ []) ≡ known_behind round.base round.inputs (known_since known rounds) }
    ensures inputs { (known : Durable) (rounds : List (Round V)) → (known_since known rounds).inputs ≡ known.inputs ++ inputs_of rounds }
    ensures again { (run : ℕ) (s : NodeState) (keep : Bool) (desk : DeskKept) → IsOpenedAs A.member run (left_by keep s) desk
        → take (left_by keep s).base.inputs (left_by keep s).inputs ++ (durable_part desk).inputs ≡ (left_by keep s).inputs }
{}

/// What a stop leaves of a flusher's device is what `Node::recover` asks for. Behind any number of rounds every image
/// reads as what a journal of the node holds with all that is known to be durable. At any moment of these rounds it reads
/// so for the first of them, so many; and within a round that did not end, also with the inputs that fly. All this is
/// lawful behind each past that the opening is of: the whole list is the past, the inputs at first, and those of the
/// rounds.
pub fn left_by_a_flusher<V: Device, A: NodeLedger>()
    ensures held { (device : V) (known : Durable) (rounds : List (Round V)) → IsHeld A.member A.opening (V.disk device) known
        → AreRounds V.Device A.member A.opening device known rounds → IsHeld A.member A.opening (V.disk (device_behind device rounds)) (known_since known rounds) }
    ensures recovery { (device : V) (known : Durable) → IsHeld A.member A.opening (V.disk device) known → (past : List Input) → IsPast A.member A.opening past
        → IsLawfulState A.member (shifted past (at_rest known)) × Holds A.member (V.disk device) (shifted past (at_rest known)) }
    ensures any_moment { (device : V) (known : Durable) (before later : List (Round V)) → IsHeld A.member A.opening (V.disk device) known
        → AreRounds V.Device A.member A.opening device known (before ++ later)
        → LeavesOnly V.clock V.left_since (device_behind device before) (device_behind device (before ++ later)) (IsLeftBehind A.member A.opening (known_since known before) later) }
    ensures cut { (old new : V) (known : Durable) → IsHeld A.member A.opening (V.disk old) known
        → ((r : Reading) → AllReadAs A.member (V.disk old) r → IsStopped V.Device old new A.member A.opening known r)
        → IsCut V.Device A.member A.opening old new known }
{}

/// What a round let its node release, packets and leaders, rests on inputs that the next start holds, whenever a stop comes
/// behind the round: between rounds, within one, or within one that did not end.
pub fn released_by_a_flusher<V: Device, A: NodeLedger>()
    ensures rounds { (device : V) (known : Durable) (before later : List (Round V)) (round : Round V) → IsHeld A.member A.opening (V.disk device) known
        → AreRounds V.Device A.member A.opening device known (before ++ round ∷ later)
        → LeavesOnly V.clock V.left_since round.device (device_behind device (before ++ round ∷ later)) (RestsOn A.member A.opening (known_since known before) round) }
    ensures cut { (device : V) (known : Durable) (before later : List (Round V)) (round : Round V) (new : V)
        → AreRounds V.Device A.member A.opening device known (before ++ round ∷ later)
        → IsCut V.Device A.member A.opening (device_behind device (before ++ round ∷ later)) new (known_since known (before ++ round ∷ later))
        → LeavesOnly V.clock V.left_since (device_behind device (before ++ round ∷ later)) new (RestsOn A.member A.opening (known_since known before) round) }
{}

/// What a token of a hub speaks of stays: these inputs, with which what the flusher knows behind some rounds begins, are how
/// all begins that a stop leaves behind these rounds, whenever it comes: between rounds, within one, or within one that did
/// not end. A token that begins what is known later began it as soon as so many inputs were known: the flusher need not be
/// asked between. So a reply that rests on them is one that the history gives which the next start holds, and each packet of
/// a window rests on that.
pub fn told_by_a_flusher<V: Device, A: NodeLedger>()
    ensures rounds { (device : V) (known : Durable) (before later : List (Round V)) (begun : List Input) → IsHeld A.member A.opening (V.disk device) known
        → AreRounds V.Device A.member A.opening device known (before ++ later) → IsPrefix begun (known_since known before).inputs
        → LeavesOnly V.clock V.left_since (device_behind device before) (device_behind device (before ++ later)) (Begins A.member A.opening begun) }
    ensures cut { (old new : V) (known : Durable) (begun : List Input) → IsPrefix begun known.inputs
        → IsCut V.Device A.member A.opening old new known → LeavesOnly V.clock V.left_since old new (Begins A.member A.opening begun) }
    ensures sooner { (known : Durable) (before later : List (Round V)) (begun : List Input) → IsPrefix begun (known_since known (before ++ later)).inputs
        → length begun ≤ length (known_since known before).inputs → IsPrefix begun (known_since known before).inputs }
    ensures reply { (past begun : List Input) (image : List ℕ) (keep : Bool) (given : Answered) (left : BeginsBehind A.member past begun image) (answer : IsAnswer A.member past begun given)
        → Answers A.member.node A.member.n (shortage A.member.node A.member.capacity answer.base) (left_by keep left.state).inputs given.question given.answer }
    ensures window { (past begun : List Input) (image : List ℕ) (keep : Bool) (list : List Packet) (packet : Packet) (left : BeginsBehind A.member past begun image)
        → IsWindowBehind A.member past begun list → Contains list packet → PacketRests A.member.node (left_by keep left.state).inputs packet }
{}

/// What a node released in one of its lives rests on a beginning of its durable inputs: each packet of a window whose token
/// its flusher covers, and each that a round let it release. It does so at each later moment of that life, since a flusher
/// comes to know more inputs and forgets none, and in each later life, since what a stop leaves begins with all of them.
pub fn released_by_a_life()
    ensures window { (life : Life) (begun : List Input) (list : List Packet) (packet : Packet) → IsPrefix begun life.known.inputs
        → IsWindowBehind life.member life.past begun list → Contains list packet → MayBeReleasedBy life packet }
    ensures round { (life : Life) (since inputs : List Input) (landed : Landed) (packet : Packet) → IsPrefix (since ++ inputs) life.known.inputs
        → IsBroughtBehind life.member life.past since inputs landed → Contains landed.packets.items packet → MayBeReleasedBy life packet }
    ensures earlier { (was life : Life) (packet : Packet) → IsEarlier was life → MayBeReleasedBy was packet → MayBeReleasedBy life packet }
    ensures goes_on { (life : Life) (known : Durable) → IsPrefix life.known.inputs known.inputs → IsEarlier life (record life { known = known }) }
    ensures again { (life : Life) (image : List ℕ) (run : ℕ) (keep : Bool) (desk : DeskKept) (left : BeginsBehind life.member life.past life.known.inputs image)
        → IsOpenedAs life.member run (left_by keep left.state) desk
        → IsEarlier life (record { member = life.member; opening = desk.opening; past = take (left_by keep left.state).base.inputs (left_by keep left.state).inputs; known = durable_part desk }) }
{}

/// What a flusher told its board is what its node's durable inputs say. So it is at the start, where `opened_board` made the
/// board of what the desk knew, and so behind each round that `Flusher::flush_round` tells of; a round that tells of none
/// told the board nothing. A leader by any beginning of it, as a reader saw one, is the first that the history knows for the
/// key, whatever was retired.
pub fn told_to_a_board<V: Device>()
    ensures opens { (desk : DeskKept) (past : List Input) (list : List Notice) → IsContent desk.view.member.node (durable_in (seen past desk).state) list
        → IsTold (record { member = desk.view.member; opening = desk.opening; past = past; known = durable_part desk }) list }
    ensures goes_on { (life : Life) (told : List Notice) (old new : V) (behind : Durable) (landed : Landed) → IsPast life.member life.opening life.past → IsTold life told
        → IsRound V.Device life.member life.opening old new life.known behind landed → IsTold (record life { known = behind }) (told ++ landed.notices.items) }
    ensures says { (life : Life) (told seen : List Notice) (key : Key) (c : Candidate) → IsTold life told → IsPrefix seen told → leader_in seen key ≡ Some c
        → first_leader life.member.node (history_of life) key ≡ Some c }
{}

/// All leaders that the nodes of a ring of running hubs named for a key, in these lives or in earlier ones, are one candidate:
/// in replies of `Hub::redeem_wait` whose tokens their flushers cover, and in those of readers of their boards who saw what
/// their flushers cover; as the leader of the key, or of the latest term of its group. It stands in its node's durable
/// inputs, and every other candidate that stands for the key in some node's is less. Of the links this is asked: each message
/// that a node took came in a packet that the node before had released.
pub fn one_leader()
    ensures same { (n : ℕ) (lives : ℕ → Life) (key : Key) (c d : Candidate) → AreLives n lives → AreFromReleased n lives
        → IsNamed n lives key c → IsNamed n lives key d → c ≡ d }
    ensures stands { (n : ℕ) (lives : ℕ → Life) (key : Key) (c : Candidate) → AreLives n lives → AreFromReleased n lives
        → IsNamed n lives key c → Contains (history_of (lives c.node)) (Stand key c.bid) }
    ensures greatest { (n : ℕ) (lives : ℕ → Life) (key : Key) (c d : Candidate) → AreLives n lives → AreFromReleased n lives
        → IsNamed n lives key c → 1 ≤ d.node → d.node ≤ n → Contains (history_of (lives d.node)) (Stand key d.bid) → d ≢ c → IsTrue (is_less d c) }
{}

/// A board is made of what a desk tells: the leaders that its node knows by its history, in order of key, and its floors, in
/// order of group. It says of each key and of each group what the history says. Made of a longer history, it has every
/// floor, and every decision that it had for a key that is not retired since; so a leader is the same, and the latest
/// leader of a group does not go down.
pub fn restarted_board()
    ensures says { (me n : ℕ) (h : List Input) (list : List Notice) → EachAfter (IsAllowed me n) [] h → IsContent me h list
        → ((key : Key) → leader_in list key ≡ leader me h key) × ((group : List ℕ) → floor_in list group ≡ floor h group) }
    ensures decisions { (me n : ℕ) (h more : List Input) (list longer : List Notice) (d : Decision) → AreLater me n h more list longer
        → Contains list (Notice.Decided d) → UnlessRetired (h ++ more) d.key (Contains longer (Notice.Decided d)) }
    ensures floors { (me n : ℕ) (h more : List Input) (list longer : List Notice) (group : List ℕ) → AreLater me n h more list longer → floor_in list group ≤ floor_in longer group }
    ensures leader { (me n : ℕ) (h more : List Input) (list longer : List Notice) (key : Key) (c : Candidate) → AreLater me n h more list longer
        → leader_in list key ≡ Some c → UnlessRetired (h ++ more) key (leader_in longer key ≡ Some c) }
    ensures never_down { (me n : ℕ) (h more : List Input) (list longer : List Notice) (group : List ℕ) (a b : Option (ℕ × Candidate)) → AreLater me n h more list longer
        → IsLatest (leads_in list group) a → IsLatest (leads_in longer group) b → IsNotBelow a b }
{}
