// What the definitions say of worked histories, as laws: the first election, and what one node is asked at each stage.
// Each clause is a row that was worked out by hand, and holds by the definitions alone.
#![tactic(auto, unfolding(ring_records::specs::Objection::retired, ring_records::specs::Objection::already, ring_records::specs::Objection::is_touched, ring_records::specs::Objection::stale, ring_records::specs::Objection::out_of_turn, ring_records::specs::Objection::too_many, ring_records::specs::Objection::objection, ring_records::specs::Admission::cost, ring_records::specs::Admission::used, ring_records::specs::Admission::no_room, ring_records::specs::Admission::shortage, ring_records::specs::Answer::refusal, ring_records::specs::Answer::input_of, ring_records::specs::Answer::gained, ring_records::specs::Answer::reply, ring_records::specs::Emission::passed_on, ring_records::specs::Emission::is_below, ring_records::specs::Emission::emit, ring_records::specs::Emission::sent, ring_records::specs::Release::carry, ring_records::specs::History::floor_for, ring_records::specs::History::floor, ring_records::specs::History::is_retired, ring_records::specs::History::names, ring_records::specs::History::is_named, ring_records::specs::History::touched, ring_records::specs::History::bid_for, ring_records::specs::History::first_stand, ring_records::specs::History::stood, ring_records::specs::History::message_of, ring_records::specs::History::taken, ring_records::specs::History::upto_of, ring_records::specs::History::credit, ring_records::specs::History::is_live_stand, ring_records::specs::History::stands, ring_records::specs::Leader::is_bid, ring_records::specs::Leader::makes_leader, ring_records::specs::Leader::first_leader, ring_records::specs::Leader::leader, ring_records::specs::Decided::decided, ring_records::specs::Decided::told, ring_records::specs::Leader::with_term, ring_records::specs::Leader::term_led, ring_records::specs::Leader::greater_term, ring_records::specs::Leader::latest, ring_records::specs::Lists::first, ring_records::specs::Lists::found_after, ring_records::specs::Order::is_less, ring_records::specs::Order::is_key, ring_records::specs::Release::carries, ring_records::specs::Release::credits, ring_records::specs::Release::packets, ring_records::specs::Release::notices, ring_records::specs::Release::window, ring_records::specs::Part::item_at, ring_records::specs::Part::part))]

ghost use Rattle.std.specs.Prelude.{◌≡◌, [], ◌∷◌, take, drop, true, false, Some, None, codes};
ghost use Rattle.ring_records.specs.declared.input.Input.{Input};
ghost use Rattle.ring_records.specs.declared.msg.Msg.{Msg};
ghost use Rattle.ring_records.specs.declared.packet.Packet.{Packet};
ghost use Rattle.ring_records.specs.declared.refusal.Refusal.{Refusal};
ghost use Rattle.ring_records.specs.declared.reply.Reply.{Reply};
ghost use Rattle.ring_records.specs.declared.request.Request.{Request};
ghost use Rattle.ring_records.specs.Answering.{refusal, answer};
ghost use Rattle.ring_records.specs.Answer.{Answer};
ghost use Rattle.ring_records.specs.Emission.{emit, sent};
ghost use Rattle.ring_records.specs.History.{touched, stood, taken, credit, stands};
ghost use Rattle.ring_records.specs.Leader.{latest};
ghost use Rattle.ring_records.specs.Release.{packets, notices, window};
ghost use Rattle.ring_records.specs.WorkedRetire.{red};
ghost use Rattle.ring_records.specs.WorkedRun.{red_5};
ghost use Rattle.node_tests.specs.Worked.{blue, of, token_1, token_2, token_3, news, node_1, node_2, node_3, led_red_5, stood_5, credited, led_9, gave_up, counted, area};

/// What each node of the first election sent.
pub fn sent_in_the_first_election()
    ensures node_1 { sent 1 node_1 ≡ token_1 ∷ token_3 ∷ token_2 ∷ news ∷ [] }
    ensures node_2 { sent 2 node_2 ≡ token_2 ∷ news ∷ [] }
    ensures node_3 { sent 3 node_3 ≡ token_3 ∷ token_2 ∷ news ∷ [] }
{}

/// What a batch of each node releases behind the inputs before it: each message that it sends under its number, and where it
/// takes one, one credit of all that were taken.
pub fn released_in_the_first_election()
    ensures all_of_1 { packets 1 [] node_1 ≡ Packet.Carry 0 token_1 ∷ Packet.Carry 1 token_3 ∷ Packet.Carry 2 token_2 ∷ Packet.Carry 3 news ∷ Packet.Credit 3 ∷ [] }
    ensures first_of_1 { packets 1 [] (take 2 node_1) ≡ Packet.Carry 0 token_1 ∷ Packet.Carry 1 token_3 ∷ Packet.Credit 1 ∷ [] }
    ensures next_of_1 { packets 1 (take 2 node_1) (take 2 (drop 2 node_1)) ≡ Packet.Carry 2 token_2 ∷ Packet.Carry 3 news ∷ Packet.Credit 3 ∷ [] }
    ensures acked_of_1 { packets 1 (take 4 node_1) (drop 4 node_1) ≡ [] }
    ensures none_of_1 { packets 1 node_1 [] ≡ [] }
    ensures all_of_2 { packets 2 [] node_2 ≡ Packet.Carry 0 token_2 ∷ Packet.Carry 1 news ∷ Packet.Credit 4 ∷ [] }
    ensures stand_of_2 { packets 2 [] (take 1 node_2) ≡ Packet.Carry 0 token_2 ∷ [] }
    ensures taken_of_2 { packets 2 (take 1 node_2) (take 2 (drop 1 node_2)) ≡ Packet.Credit 2 ∷ [] }
    ensures last_of_2 { packets 2 (take 3 node_2) (drop 3 node_2) ≡ Packet.Carry 1 news ∷ Packet.Credit 4 ∷ [] }
    ensures all_of_3 { packets 3 [] node_3 ≡ Packet.Carry 0 token_3 ∷ Packet.Carry 1 token_2 ∷ Packet.Carry 2 news ∷ Packet.Credit 2 ∷ [] }
    ensures one_of_3 { packets 3 (take 1 node_3) (take 1 (drop 1 node_3)) ≡ Packet.Carry 1 token_2 ∷ Packet.Credit 1 ∷ [] }
{}

/// Which batch of each node makes known who leads.
pub fn decided_in_the_first_election()
    ensures early_of_1 { notices 1 [] (take 3 node_1) ≡ [] }
    ensures later_of_1 { notices 1 (take 2 node_1) (drop 2 node_1) ≡ led_red_5 ∷ [] }
    ensures acked_of_1 { notices 1 (take 4 node_1) (drop 4 node_1) ≡ [] }
    ensures all_of_2 { notices 2 [] node_2 ≡ led_red_5 ∷ [] }
    ensures home_of_2 { notices 2 (take 3 node_2) (take 1 (drop 3 node_2)) ≡ led_red_5 ∷ [] }
    ensures known_of_2 { notices 2 (take 4 node_2) (drop 4 node_2) ≡ [] }
    ensures last_of_3 { notices 3 (take 2 node_3) (drop 2 node_3) ≡ led_red_5 ∷ [] }
{}

/// What each node releases again: what it sent and is not credited.
pub fn kept_in_the_first_election()
    ensures node_1 { window 1 (take 4 node_1) ≡ Packet.Carry 0 token_1 ∷ Packet.Carry 1 token_3 ∷ Packet.Carry 2 token_2 ∷ Packet.Carry 3 news ∷ [] }
    ensures credited { window 1 node_1 ≡ Packet.Carry 3 news ∷ [] }
    ensures node_2 { window 2 node_2 ≡ Packet.Carry 0 token_2 ∷ Packet.Carry 1 news ∷ [] }
    ensures none { window 3 [] ≡ [] }
    ensures node_3 { window 3 node_3 ≡ Packet.Carry 0 token_3 ∷ Packet.Carry 1 token_2 ∷ Packet.Carry 2 news ∷ [] }
{}

/// What is counted in a history of node 2, which relayed a token, stood, and is credited twice.
pub fn counted_in_a_history()
    ensures named { touched counted red_5 ≡ true }
    ensures another { touched counted (red 6) ≡ false }
    ensures relayed { stood counted red_5 ≡ None }
    ensures stood { stood counted (blue 1) ≡ Some 3 }
    ensures stands { stands counted ≡ 1 }
    ensures credit { credit counted ≡ 2 }
    ensures before { credit (take 2 counted) ≡ 0 }
    ensures taken { taken counted ≡ token_1 ∷ [] }
    ensures sent { emit 2 counted (Input.Stand (blue 1) 3) ≡ Some (Msg.Token (blue 1) (of 3 2)) }
    ensures latest { latest 2 counted (codes "red") ≡ None }
{}

/// What node 1 answers first.
pub fn answered_before_any_input()
    ensures stand { answer 1 3 65536 (area 0 42) [] (Request.Stand red_5 10) ≡ record { reply = Reply.Stood; number = 1 } }
    ensures take { answer 1 3 65536 (area 0 42) [] (Request.Take 0 (Msg.Token red_5 (of 10 2))) ≡ record { reply = Reply.Taken; number = 1 } }
    ensures acked { answer 1 3 65536 (area 0 42) [] (Request.Acked 1) ≡ record { reply = Reply.Refused (Refusal.AckAhead 0); number = 0 } }
    ensures who { answer 1 3 65536 (area 0 42) [] (Request.Who red_5) ≡ record { reply = Reply.Leader None; number = 0 } }
    ensures latest { answer 1 3 65536 (area 0 42) [] (Request.Latest (codes "red")) ≡ record { reply = Reply.Latest None; number = 0 } }
{}

/// What it answers once it stood.
pub fn answered_after_a_stand()
    ensures again { answer 1 3 65536 (area 0 42) stood_5 (Request.Stand red_5 10) ≡ record { reply = Reply.Refused (Refusal.Already 10); number = 1 } }
    ensures another { answer 1 3 65536 (area 0 42) stood_5 (Request.Stand (blue 4) 5) ≡ record { reply = Reply.Stood; number = 2 } }
    ensures home { answer 1 3 65536 (area 0 42) stood_5 (Request.Take 0 token_1) ≡ record { reply = Reply.Taken; number = 2 } }
    ensures gap { answer 1 3 65536 (area 0 42) stood_5 (Request.Take 1 token_1) ≡ record { reply = Reply.Refused (Refusal.Gap 0); number = 1 } }
    ensures acked { answer 1 3 65536 (area 0 42) stood_5 (Request.Acked 1) ≡ record { reply = Reply.Acked; number = 2 } }
    ensures who { answer 1 3 65536 (area 0 42) stood_5 (Request.Who red_5) ≡ record { reply = Reply.Leader None; number = 1 } }
    ensures latest { answer 1 3 65536 (area 0 42) stood_5 (Request.Latest (codes "red")) ≡ record { reply = Reply.Latest None; number = 1 } }
    ensures full { answer 1 3 82 (area 0 42) stood_5 (Request.Stand (blue 4) 5) ≡ record { reply = Reply.Refused Refusal.Full; number = 1 } }
    ensures fits { answer 1 3 83 (area 0 42) stood_5 (Request.Stand (blue 4) 5) ≡ record { reply = Reply.Stood; number = 2 } }
{}

/// What it answers once it leads.
pub fn answered_once_it_leads()
    ensures who { answer 1 3 65536 (area 0 42) led_9 (Request.Who (red 9)) ≡ record { reply = Reply.Leader (Some (of 5 1)); number = 2 } }
    ensures another { answer 1 3 65536 (area 0 42) led_9 (Request.Who (red 8)) ≡ record { reply = Reply.Leader None; number = 2 } }
    ensures latest { answer 1 3 65536 (area 0 42) led_9 (Request.Latest (codes "red")) ≡ record { reply = Reply.Latest (Some (9, of 5 1)); number = 2 } }
    ensures other { answer 1 3 65536 (area 0 42) led_9 (Request.Latest (codes "blue")) ≡ record { reply = Reply.Latest None; number = 2 } }
    ensures stale { answer 1 3 65536 (area 0 42) led_9 (Request.Stand (red 8) 5) ≡ record { reply = Reply.Refused (Refusal.Stale 9); number = 2 } }
    ensures news { answer 1 3 65536 (area 0 42) led_9 (Request.Take 1 (Msg.Elected (red 9) (of 5 1))) ≡ record { reply = Reply.Taken; number = 3 } }
    ensures floor { answer 1 3 65536 (area 0 42) led_9 (Request.Retire (codes "red") 9) ≡ record { reply = Reply.Retired; number = 3 } }
    ensures undecided { answer 1 3 65536 (area 0 42) led_9 (Request.Retire (codes "red") 10) ≡ record { reply = Reply.Refused Refusal.Undecided; number = 2 } }
{}

/// What it answers once it gave up the terms before.
pub fn answered_behind_a_floor()
    ensures below { answer 1 3 65536 (area 0 42) gave_up (Request.Who (red 8)) ≡ record { reply = Reply.Refused (Refusal.Retired 9); number = 3 } }
    ensures floor { answer 1 3 65536 (area 0 42) gave_up (Request.Who (red 9)) ≡ record { reply = Reply.Leader (Some (of 5 1)); number = 3 } }
    ensures latest { answer 1 3 65536 (area 0 42) gave_up (Request.Latest (codes "red")) ≡ record { reply = Reply.Latest (Some (9, of 5 1)); number = 3 } }
    ensures another { answer 1 3 65536 (area 0 42) gave_up (Request.Who (blue 8)) ≡ record { reply = Reply.Leader None; number = 3 } }
    ensures stand { answer 1 3 65536 (area 0 42) gave_up (Request.Stand (red 8) 5) ≡ record { reply = Reply.Refused (Refusal.Retired 9); number = 3 } }
    ensures again { answer 1 3 65536 (area 0 42) gave_up (Request.Retire (codes "red") 9) ≡ record { reply = Reply.Refused (Refusal.Retired 9); number = 3 } }
    ensures message { answer 1 3 65536 (area 0 42) gave_up (Request.Take 1 (Msg.Token (red 8) (of 5 2))) ≡ record { reply = Reply.Taken; number = 4 } }
{}

/// An area takes its bytes and no others, and of an input that it stands for nothing is asked.
pub fn summarised_inputs()
    ensures too_many { refusal 1 3 101 (area 1 65) credited (Input.Stand (blue 4) 5) ≡ Some Refusal.Full }
    ensures fits { refusal 1 3 102 (area 1 65) credited (Input.Stand (blue 4) 5) ≡ None }
    ensures behind_none { refusal 1 3 85 (area 2 65) credited (Input.Stand (blue 4) 5) ≡ Some Refusal.Full }
    ensures fits_behind_none { refusal 1 3 86 (area 2 65) credited (Input.Stand (blue 4) 5) ≡ None }
    ensures stands_for_it { refusal 1 3 0 (area 3 65) credited (Input.Stand (blue 4) 5) ≡ None }
{}
