// What a node accepts in a run, and what it shows of that.
use super::node::{Round, Stored, answers, lasts};
use group_commit::Desk;
use ring_records::Packet;
use std::process::Abort;
use test_rows::{Ask, Cause, Note, Say, Sends};

const RED: Note = Note::Token("red", 5, 10, 1);

const BLUE: Note = Note::Token("blue", 5, 20, 3);

/// What the node is asked, and what it answers. Each is an input, and is accepted behind those before it.
static INPUTS: [(Ask, Say); 5] = [
    (Ask::Stand("red", 5, 10), Say::Stood),
    (Ask::Take(0, BLUE), Say::Taken),
    (Ask::Take(1, RED), Say::Taken),
    (Ask::Acked(1), Say::Acked),
    (Ask::Stand("green", 5, 30), Say::Stood),
];

/// What is asked of the node for each input that it has, and what it answers; it accepts no input then.
static KNOWN: [(Ask, Say); 5] = [
    (Ask::Stand("red", 5, 40), Say::Refused(Cause::Already(10))),
    (Ask::Stand("blue", 5, 40), Say::Refused(Cause::Late)),
    (Ask::Who("red", 5), Say::Leader(10, 1)),
    (Ask::Acked(1), Say::Refused(Cause::Old(1))),
    (Ask::Stand("green", 5, 40), Say::Refused(Cause::Already(30))),
];

/// How many messages were sent and taken, the credit, and how many of the inputs are Stands.
type Numbers = [u64; 4];

/// These with no input, with the first, and so on.
static COUNTS: [Numbers; 6] = [
    [0, 0, 0, 0],
    [1, 0, 0, 1],
    [2, 1, 0, 1],
    [3, 2, 0, 1],
    [3, 2, 1, 1],
    [4, 2, 1, 2],
];

/// The messages that the inputs send.
static SENT: [Note; 4] = [
    RED,
    BLUE,
    Note::Elected("red", 5, 10, 1),
    Note::Token("green", 5, 30, 1),
];

/// How far a run is, all of whose inputs are durable.
#[derive(Clone, Copy)]
pub struct Place {
    inputs: u64,
    // Of the area in use: for how many of them its summary stands, and its epoch.
    summarised: u64,
    epoch: u64,
}

impl Place {
    /// That of a new node.
    pub fn new() -> Place {
        Place {
            inputs: 0,
            summarised: 0,
            epoch: 1,
        }
    }

    /// One input more is durable.
    pub fn accept(&mut self) {
        self.inputs = self.inputs.saturating_add(1);
    }

    /// A checkpoint stands for all of them.
    pub fn summarise(&mut self) {
        self.summarised = self.inputs;
        self.epoch = self.epoch.saturating_add(1);
    }

    /// What the node is asked next, and what it answers.
    pub fn input(self, rt: &impl Abort) -> (Ask, Say) {
        *INPUTS.get(self.inputs as usize).expect(rt, "an input")
    }

    // Whether the desk of a node that was recovered shows this.
    fn is_shown_by(self, desk: &Desk) -> bool {
        let Some(counts) = COUNTS.get(self.inputs as usize) else {
            return false;
        };
        let area = [desk.epoch(), desk.first()];
        let inputs = [desk.accepted(), desk.durable()];
        area == [self.epoch, self.summarised]
            && inputs == [self.inputs, self.inputs]
            && counted(desk) == *counts
            && has_window(desk, *counts)
    }
}

/// The node accepts its next input, makes it durable by such a round, and answers as it has to.
pub fn next(rt: &impl Abort, node: &mut Stored, round: Round, place: &mut Place) {
    let (ask, say) = place.input(rt);
    let reply = say.reply().expect(rt, "a reply");
    assert!(rt; lasts(rt, node, ask, round) == reply);
    place.accept();
}

/// A node that was recovered is at this place, by what it shows and answers.
pub fn is_at(rt: &impl Abort, node: &mut Stored, place: Place) {
    assert!(rt; place.is_shown_by(node.desk()));
    for (ask, say) in KNOWN.iter().take(place.inputs as usize) {
        knows(rt, node, *ask, *say);
    }
}

fn knows(rt: &impl Abort, node: &mut Stored, ask: Ask, say: Say) {
    let reply = say.reply().expect(rt, "a reply");
    assert!(rt; answers(rt, node, ask) == reply);
}

fn counted(desk: &Desk) -> Numbers {
    let stands = u64::from(desk.stands());
    [desk.sent(), desk.taken(), desk.credit(), stands]
}

// Whether the messages that may be sent again are those that were sent and not credited.
fn has_window(desk: &Desk, counts: Numbers) -> bool {
    let [sent, _, credit, _] = counts;
    match desk.window() {
        Ok(window) => {
            let end = credit.saturating_add(window.len() as u64);
            end == sent && are_carried(&window, credit)
        }
        Err(_) => false,
    }
}

// Whether the packets carry the messages from this number on.
fn are_carried(packets: &[Packet], first: u64) -> bool {
    for (place, packet) in packets.iter().enumerate() {
        if !is_carried(packet, first.saturating_add(place as u64)) {
            return false;
        }
    }
    true
}

fn is_carried(packet: &Packet, no: u64) -> bool {
    let Some(note) = SENT.get(no as usize) else {
        return false;
    };
    match Sends::Carry(no, *note).packet() {
        Ok(want) => *packet == want,
        Err(_) => false,
    }
}
