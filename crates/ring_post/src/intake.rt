// What an inbox does with the letters that it hears.
ghost use Rattle.std.specs.Prelude.{◌≡◌, ◌+◌, length};
ghost use Rattle.std.specs.List.{cons_option};
ghost use Rattle.ring_post.specs.Asks.{count, count_open};
ghost use Rattle.ring_post.specs.Codes.{requests-prop};
ghost use Rattle.ring_post.specs.Chronicles.{at_hand, credit_heard, credit_told, takes_done, takes_heard, takes_met, unmet};

use crate::chronicle::{Chronicle, Entry};
use crate::credits::Credits;
use crate::hand::{Hand, is_take};
use crate::letter::{Letter, RingPlace};
use crate::met::{ask, leave};
use crate::outcome::{Outcome, lacks_room, outcome_of};
use crate::room::{awaits_room, has_little_room, is_left};
use crate::step::Step;
use crate::tickets::keep;
use commit_hub::Look;
use group_commit::{Stub, Ticket};
use ring_records::{Msg, Packet, Refusal, Reply, Request};
use std::alloc::Global;

/// What an inbox knows and has asked. It meets each message that it heard, but the one at hand, in the order in which it heard them:
/// it asks the node to take it, or leaves it where the node is full. Each is done with once. Of credits the greatest stands.
pub struct Intake {
    place: RingPlace,
    tickets: Vec<Ticket>,
    hand: Hand,
    away: Option<Request>,
    is_alone: bool,
    is_told: bool,
    credits: Credits,
    chronicle: Chronicle,
    pub ghost order: { takes_heard chronicle.entries ≡ cons_option (unmet hand) (takes_met chronicle.entries) } by { requests-prop (takes_heard chronicle.entries) (cons_option (unmet hand) (takes_met chronicle.entries)) },
    pub ghost once: { length (takes_heard chronicle.entries) ≡ length (takes_done chronicle.entries) + (count (at_hand hand) + (count away + count_open tickets.items)) },
    pub ghost credit: { credits.heard ≡ credit_heard chronicle.entries },
    pub ghost told: { credits.told ≡ credit_told chronicle.entries },
}

impl Intake {
    ghost use Rattle.std.specs.Prelude.{◌<◌, ◌≤◌, ◌≢◌, ◌-◌, ◌++◌, ◌↔◌, ℕ, [], ◌∷◌, true, false, option_to_list, IfNone, IfSome, None, Some};
    ghost use Rattle.ring_records.specs.declared.packet.Packet.TheVariants.{Carry, Credit};
    ghost use Rattle.ring_records.specs.declared.request.Request.{Request as Asks};
    ghost use Rattle.ring_records.specs.declared.request.Request.TheVariants.{Acked, Take};
    ghost use Rattle.ring_records.specs.declared.msg.Msg.{Msg as Message};
    ghost use Rattle.group_commit.specs.Ticket.{shown};
    ghost use Rattle.ring_post.specs.Room as room;
    ghost use Rattle.ring_post.specs.Letters.{sent_by};
    ghost use Rattle.ring_post.specs.declared.chronicle.Entry.TheVariants as entry;
    ghost use Rattle.ring_post.specs.declared.hand.Hand.TheVariants as hands;
    ghost use Rattle.ring_post.specs.Asks.{is_take};
    ghost use Rattle.ring_post.specs.Intakes.{HasRoom, IsFree, asks_alone, away_of, chronicle_of, greatest_heard, hand_of, has_told, last_told, place_of, tickets_of};

    /// That of the node at this place, which heard nothing.
    pub fn new(alloc: Global, place: RingPlace) -> Intake
        ensures nothing { chronicle_of result ≡ [] }
        ensures none { tickets_of result ≡ [] }
        ensures free { IsFree result }
        ensures place { place_of result ≡ place }
    {
        Intake {
            place,
            tickets: Vec::new(alloc),
            hand: Hand::Empty,
            away: None,
            is_alone: false,
            is_told: false,
            credits: Credits::new(),
            chronicle: Chronicle::new(),
        }
    }

    /// Whether it hears: no message is at hand, and none is asked for alone.
    pub fn is_free(&self) -> bool
        ensures free { result ≡ true → IsFree self.now }
        ensures busy { IsFree self.now → result ≡ true }
    {
        matches!(self.hand, Hand::Empty) && !self.is_alone
    }

    /// Hears a letter.
    pub fn hear(&mut self, letter: Letter)
        requires free { IsFree self.old }
        ensures heard { chronicle_of self.new ≡ entry.Heard letter.packet ∷ chronicle_of self.old }
        ensures tickets { tickets_of self.new ≡ tickets_of self.old }
    {
        match letter.packet() {
            Packet::Carry { no, msg } => self.hear_message(no, &msg),
            Packet::Credit { upto } => self.hear_credit(upto),
        }
    }

    fn hear_message(&mut self, no: u64, msg: &Msg)
        requires free { hand_of self.old ≡ hands.Empty }
        ensures heard { chronicle_of self.new ≡ entry.Heard (Carry no msg.now) ∷ chronicle_of self.old }
        ensures tickets { tickets_of self.new ≡ tickets_of self.old }
    {
        let heard = Entry::Heard(Packet::Carry { no, msg: *msg });
        self.hand = Hand::Fresh(no, *msg);
        self.is_told = false;
        self.chronicle = Chronicle::with(&self.chronicle, &heard);
    }

    fn hear_credit(&mut self, upto: u64)
        ensures heard { chronicle_of self.new ≡ entry.Heard (Credit upto) ∷ chronicle_of self.old }
        ensures tickets { tickets_of self.new ≡ tickets_of self.old }
    {
        let heard = Entry::Heard(Packet::Credit { upto });
        self.credits.hear(upto);
        self.chronicle = Chronicle::with(&self.chronicle, &heard);
    }

    /// What is to be done about the message at hand, where the node shows this. The node is asked to take it; where there is little
    /// room, alone: the credits that are held back come first, since they may make a checkpoint due, and then those that were asked
    /// before are waited for. A full node is not asked, since it keeps room for Retires; one that has failed is, and refuses.
    pub fn next(&mut self, look: &Look) -> Step
        ensures nothing { chronicle_of self.new ≡ chronicle_of self.old }
        ensures same { (tickets_of self.new ≡ tickets_of self.old) × ((hand_of self.new ≡ hand_of self.old) × (away_of self.new ≡ away_of self.old)) }
        ensures ask { (q : Asks) → result ≡ Step.Ask q → at_hand (hand_of self.new) ≡ Some q }
        ensures alone { (q : Asks) → result ≡ Step.Ask q → room.has_little_room look.now ≡ true → (tickets_of self.old ≡ []) × (asks_alone self.new ≡ true) }
        ensures awaited { asks_alone self.old ≡ true → result ≡ Step.Redeem }
        ensures prompt { (no : ℕ) (msg : Message) → hand_of self.old ≡ hands.Fresh no msg → asks_alone self.old ≡ false → room.has_little_room look.now ≡ false → result ≡ Step.Ask (Take no msg) }
        ensures tell { (q : Asks) → result ≡ Step.Tell q → (q ≡ Acked (greatest_heard self.new)) × ((has_told self.old ≡ false) × (has_told self.new ≡ true)) }
        ensures room { result ≡ Step.AwaitRoom → room.awaits_room look.now ≡ true }
        ensures left { result ≡ Step.Leave → room.is_full look.now ≡ true }
        ensures full { (no : ℕ) (msg : Message) → room.has_little_room look.now ≡ true → room.is_left look.now no ≡ true → result ≢ Step.Ask (Take no msg) }
        ensures rest { result ≡ Step.Rest → hand_of self.old ≡ hands.Empty }
        ensures failed { (q : Asks) → look.now.is_open ≡ false → at_hand (hand_of self.old) ≡ Some q → asks_alone self.old ≡ false → has_told self.old ≡ true → tickets_of self.old ≡ [] → result ≡ Step.Ask q }
    {
        if self.is_alone {
            return Step::Redeem;
        }
        match self.hand {
            Hand::Empty => Step::Rest,
            Hand::Fresh(no, msg) => {
                if has_little_room(look) {
                    self.next_alone(look, no, msg)
                } else {
                    Step::Ask(Request::Take(no, msg))
                }
            }
            Hand::Refused(no, msg) => self.next_alone(look, no, msg),
        }
    }

    // The same where there is little room, or where the node refused it before.
    fn next_alone(&mut self, look: &Look, no: u64, msg: Msg) -> Step
        requires hand { at_hand (hand_of self.old) ≡ Some (Take no msg) }
        ensures nothing { chronicle_of self.new ≡ chronicle_of self.old }
        ensures same { (tickets_of self.new ≡ tickets_of self.old) × ((hand_of self.new ≡ hand_of self.old) × (away_of self.new ≡ away_of self.old)) }
        ensures ask { (q : Asks) → result ≡ Step.Ask q → (q ≡ Take no msg) × ((tickets_of self.old ≡ []) × (asks_alone self.new ≡ true)) }
        ensures tell { (q : Asks) → result ≡ Step.Tell q → (q ≡ Acked (greatest_heard self.new)) × ((has_told self.old ≡ false) × (has_told self.new ≡ true)) }
        ensures room { result ≡ Step.AwaitRoom → room.awaits_room look.now ≡ true }
        ensures left { result ≡ Step.Leave → room.is_full look.now ≡ true }
        ensures full { room.is_left look.now no ≡ true → (q : Asks) → result ≢ Step.Ask q }
        ensures rest { result ≢ Step.Rest }
        ensures failed { look.now.is_open ≡ false → has_told self.old ≡ true → tickets_of self.old ≡ [] → result ≡ Step.Ask (Take no msg) }
    {
        if !self.is_told {
            self.is_told = true;
            if let Some(upto) = self.credits.held() {
                return Step::Tell(Request::Acked(upto));
            }
        }
        if awaits_room(look) {
            return Step::AwaitRoom;
        }
        if !self.tickets.is_empty() {
            return Step::Redeem;
        }
        if is_left(look, no) {
            return Step::Leave;
        }
        self.is_alone = true;
        Step::Ask(Request::Take(no, msg))
    }

    /// Whether it has memory for one more ticket, for which it makes room.
    pub fn has_room(&mut self) -> bool
        ensures room { result ≡ true → HasRoom self.new }
        ensures tickets { tickets_of self.new ≡ tickets_of self.old }
        ensures same { (hand_of self.new ≡ hand_of self.old) × ((asks_alone self.new ≡ asks_alone self.old) × (chronicle_of self.new ≡ chronicle_of self.old)) }
    {
        self.tickets.reserve(1).is_ok()
    }

    /// Keeps the ticket that the node gave for the message at hand.
    pub fn keep_message(&mut self, ticket: Ticket)
        requires hand { at_hand (hand_of self.old) ≡ Some (shown ticket).question }
        requires room { HasRoom self.old }
        ensures tickets { tickets_of self.new ≡ tickets_of self.old ++ ticket ∷ [] }
        ensures hand { hand_of self.new ≡ hands.Empty }
        ensures alone { asks_alone self.new ≡ asks_alone self.old }
        ensures done { takes_done (chronicle_of self.new) ≡ takes_done (chronicle_of self.old) }
        ensures credits { (greatest_heard self.new ≡ greatest_heard self.old) × (last_told self.new ≡ last_told self.old) }
    {
        ask(&mut self.chronicle, &self.hand);
        self.hand = Hand::Empty;
        keep(&mut self.tickets, ticket);
    }

    /// Keeps the ticket that the node gave for the greatest credit that was heard.
    pub fn keep_credit(&mut self, ticket: Ticket)
        requires credit { (shown ticket).question ≡ Acked (greatest_heard self.old) }
        requires room { HasRoom self.old }
        ensures tickets { tickets_of self.new ≡ tickets_of self.old ++ ticket ∷ [] }
        ensures told { chronicle_of self.new ≡ entry.Told (greatest_heard self.old) ∷ chronicle_of self.old }
        ensures hand { (hand_of self.new ≡ hand_of self.old) × (asks_alone self.new ≡ asks_alone self.old) }
    {
        let upto = self.credits.heard;
        self.credits.tell(upto);
        self.chronicle = Chronicle::with(&self.chronicle, &Entry::Told(upto));
        keep(&mut self.tickets, ticket);
    }

    /// The node gave no ticket for the message at hand: it takes no requests, or memory is wanting. The message is lost, and comes
    /// again.
    pub fn unasked(&mut self) -> Outcome
        ensures done { (q : Asks) → at_hand (hand_of self.old) ≡ Some q → (result ≡ Outcome.Done) × (takes_done (chronicle_of self.new) ≡ q ∷ takes_done (chronicle_of self.old)) }
        ensures free { IsFree self.new }
        ensures tickets { tickets_of self.new ≡ tickets_of self.old }
        ensures credits { (greatest_heard self.new ≡ greatest_heard self.old) × (last_told self.new ≡ last_told self.old) }
    {
        let Some(take) = self.hand.take() else {
            self.is_alone = false;
            return Outcome::Nothing;
        };
        ask(&mut self.chronicle, &self.hand);
        self.chronicle = Chronicle::with(&self.chronicle, &Entry::Done(take));
        self.hand = Hand::Empty;
        self.is_alone = false;
        Outcome::Done
    }

    /// Leaves the message at hand, since the node is full.
    pub fn leave(&mut self) -> Outcome
        ensures done { (q : Asks) → at_hand (hand_of self.old) ≡ Some q → (result ≡ Outcome.Full) × (takes_done (chronicle_of self.new) ≡ q ∷ takes_done (chronicle_of self.old)) }
        ensures free { IsFree self.new }
        ensures tickets { tickets_of self.new ≡ tickets_of self.old }
        ensures credits { (greatest_heard self.new ≡ greatest_heard self.old) × (last_told self.new ≡ last_told self.old) }
    {
        let Some(take) = self.hand.take() else {
            self.is_alone = false;
            return Outcome::Nothing;
        };
        leave(&mut self.chronicle, &self.hand);
        self.chronicle = Chronicle::with(&self.chronicle, &Entry::Done(take));
        self.hand = Hand::Empty;
        self.is_alone = false;
        Outcome::Full
    }

    /// The last ticket, whose reply is awaited then.
    pub fn take_ticket(&mut self) -> Option<Ticket>
        ensures tickets { tickets_of self.old ≡ tickets_of self.new ++ option_to_list result }
        ensures fewer { length (tickets_of self.new) + length (option_to_list result) ≡ length (tickets_of self.old) }
        ensures none { IfNone result (tickets_of self.new ≡ []) }
        ensures away { IfSome result (λ ticket. away_of self.new ≡ Some (shown ticket).question) }
        ensures free { IsFree self.old → IsFree self.new }
    {
        let _ = self.lost();
        let ticket = self.tickets.pop()?;
        self.away = Some(ticket.question());
        Some(ticket)
    }

    /// No reply comes to what is awaited, since the node has failed. A message is done with then.
    pub fn lost(&mut self) -> Outcome
        ensures message { (q : Asks) → away_of self.old ≡ Some q → is_take q ≡ true → (result ≡ Outcome.Done) × (chronicle_of self.new ≡ entry.Done q ∷ chronicle_of self.old) }
        ensures credit { (q : Asks) → away_of self.old ≡ Some q → is_take q ≡ false → (result ≡ Outcome.Nothing) × (chronicle_of self.new ≡ chronicle_of self.old) }
        ensures none { away_of self.new ≡ None }
        ensures tickets { (tickets_of self.new ≡ tickets_of self.old) × (hand_of self.new ≡ hand_of self.old) }
        ensures free { IsFree self.old → IsFree self.new }
    {
        let Some(question) = self.away else {
            return Outcome::Nothing;
        };
        self.away = None;
        if !is_take(&question) {
            return Outcome::Nothing;
        }
        self.is_alone = false;
        self.chronicle = Chronicle::with(&self.chronicle, &Entry::Done(question));
        Outcome::Done
    }

    /// What comes of the reply that was awaited, at a node that is full or not. A message that was taken before is answered with a
    /// credit of all that are taken, and nothing else with one. A message that was asked for alone and refused for want of room is
    /// asked for again, unless the node is full; each other is done with. A credit that was refused is held back again.
    pub fn answered(&mut self, stub: &Stub, is_full: bool) -> Outcome
        requires away { away_of self.old ≡ Some stub.now.question }
        ensures credit { (taken : ℕ) → is_take stub.now.question ≡ true → (result ≡ Outcome.Credit (sent_by (place_of self.old) (Credit taken))) ↔ (stub.now.answer.reply ≡ Reply.Refused (Refusal.Old taken)) }
        ensures done { is_take stub.now.question ≡ true → (result ≢ Outcome.Nothing) → chronicle_of self.new ≡ entry.Done stub.now.question ∷ chronicle_of self.old }
        ensures again { is_take stub.now.question ≡ true → result ≡ Outcome.Nothing → (at_hand (hand_of self.new) ≡ Some stub.now.question) × (asks_alone self.old ≡ true) }
        ensures refused { is_take stub.now.question ≡ true → result ≡ Outcome.Nothing → (stub.now.answer.reply ≡ Reply.Refused Refusal.Full) × (is_full ≡ false) }
        ensures other { is_take stub.now.question ≡ false → result ≡ Outcome.Nothing }
        ensures none { away_of self.new ≡ None }
        ensures alone { is_take stub.now.question ≡ true → asks_alone self.new ≡ false }
        ensures free { IsFree self.old → IsFree self.new }
        ensures tickets { tickets_of self.new ≡ tickets_of self.old }
    {
        match self.away {
            Some(Request::Take(no, msg)) => self.answered_message(no, &msg, stub, is_full),
            _ => {
                self.answered_credit(stub);
                Outcome::Nothing
            }
        }
    }

    fn answered_message(&mut self, no: u64, msg: &Msg, stub: &Stub, is_full: bool) -> Outcome
        requires away { away_of self.old ≡ Some (Take no msg.now) }
        ensures credit { (taken : ℕ) → (result ≡ Outcome.Credit (sent_by (place_of self.old) (Credit taken))) ↔ (stub.now.answer.reply ≡ Reply.Refused (Refusal.Old taken)) }
        ensures done { result ≢ Outcome.Nothing → chronicle_of self.new ≡ entry.Done (Take no msg.now) ∷ chronicle_of self.old }
        ensures again { result ≡ Outcome.Nothing → (at_hand (hand_of self.new) ≡ Some (Take no msg.now)) × (asks_alone self.old ≡ true) }
        ensures refused { result ≡ Outcome.Nothing → (stub.now.answer.reply ≡ Reply.Refused Refusal.Full) × (is_full ≡ false) }
        ensures none { (away_of self.new ≡ None) × (asks_alone self.new ≡ false) }
        ensures free { IsFree self.old → IsFree self.new }
        ensures tickets { tickets_of self.new ≡ tickets_of self.old }
    {
        let outcome = outcome_of(self.place, stub, is_full);
        let is_empty = matches!(self.hand, Hand::Empty);
        let comes_again = self.is_alone && is_empty && matches!(outcome, Outcome::Refused);
        self.is_alone = false;
        self.away = None;
        if comes_again {
            self.hand = Hand::Refused(no, *msg);
            self.is_told = false;
            return Outcome::Nothing;
        }
        self.chronicle = Chronicle::with(&self.chronicle, &Entry::Done(Request::Take(no, *msg)));
        outcome
    }

    fn answered_credit(&mut self, stub: &Stub)
        requires away { count (away_of self.old) ≡ 0 }
        ensures none { away_of self.new ≡ None }
        ensures free { IsFree self.old → IsFree self.new }
        ensures tickets { tickets_of self.new ≡ tickets_of self.old }
    {
        self.away = None;
        if lacks_room(stub) {
            self.credits.take_back();
            self.chronicle = Chronicle::with(&self.chronicle, &Entry::Untold);
        }
    }

    /// The credit of which the node is to be told behind a round, where it shows this. No more than 63 messages are held back, none
    /// where there is little room.
    pub fn owes(&self, look: &Look) -> Option<Request>
        ensures credit { (q : Asks) → result ≡ Some q → (q ≡ Acked (greatest_heard self.now)) × (last_told self.now < greatest_heard self.now) }
        ensures few { result ≡ None → greatest_heard self.now - last_told self.now < 64 }
        ensures none { result ≡ None → room.has_little_room look.now ≡ true → greatest_heard self.now ≤ last_told self.now }
    {
        if self.credits.are_due(look) {
            Some(Request::Acked(self.credits.heard))
        } else {
            None
        }
    }

    /// The credit that is held back, of which the node is told once the letterbox is closed.
    pub fn owes_at_last(&self) -> Option<Request>
        ensures credit { (q : Asks) → result ≡ Some q → (q ≡ Acked (greatest_heard self.now)) × (last_told self.now < greatest_heard self.now) }
        ensures none { result ≡ None → greatest_heard self.now ≤ last_told self.now }
    {
        match self.credits.held() {
            Some(upto) => Some(Request::Acked(upto)),
            None => None,
        }
    }

    /// The greatest credit that was heard: so many messages the successor has, durably.
    pub fn heard(&self) -> u64
        ensures { result ≡ greatest_heard self.now }
    {
        self.credits.heard
    }

    /// Ends it, where no ticket is open.
    pub fn finish(self)
        requires { tickets_of self ≡ [] }
    {
        let Intake {
            place: _,
            tickets,
            hand: _,
            away: _,
            is_alone: _,
            is_told: _,
            credits: _,
            chronicle: _,
        } = self;
        tickets.destroy_empty();
    }
}
