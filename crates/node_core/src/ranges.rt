// What the types of an input see to: that its name is one, and that its numbers are in their ranges.
ghost use Rattle.ring_records.specs.Record.{HasRecord, IsKeyInRange, IsCandidateInRange};

use ring_records::{Candidate, Input, Key};

/// Looks at each name and number of the input. It has a record, as each input has one.
#[tactic(auto, unfolding(ring_records::specs::Record::HasRecord))]
pub fn look_at(input: &Input)
    ensures { HasRecord input.now }
{
    match input {
        Input::Stand { key, bid } => {
            look_at_key(key);
            let _bid = bid.number();
        }
        Input::Take { no, msg } => {
            let _no = *no;
            look_at_key(&msg.key());
            look_at_candidate(&msg.candidate());
        }
        Input::Acked { upto } => {
            let _upto = *upto;
        }
        Input::Retire { group, floor } => look_at_key(&Key {
            group: *group,
            term: *floor,
        }),
    }
}

fn look_at_key(key: &Key)
    ensures { IsKeyInRange key.now }
{
    let _name = key.group.as_bytes();
    let _term = key.term.number();
}

fn look_at_candidate(candidate: &Candidate)
    ensures { IsCandidateInRange candidate.now }
{
    let _bid = candidate.bid.number();
    let _node = candidate.node.number();
}
