//! What a node answers to a request, by its core.
ghost use Rattle.std.specs.Prelude.{◌≡◌, None, IfSome};
ghost use Rattle.node_core.specs.Core.{Refuses};
ghost use Rattle.group_commit.specs.Replying.{IsWeighed, Replies, who_reply};
ghost use Rattle.group_commit.specs.Vouch.{acceptance};

use node_core::NodeCore;
use ring_records::{Candidate, Input, Refusal, Reply, Request};

/// What it answers to a request, and the input that it accepts.
#[tactic(auto, unfolding(crate::specs::Vouch::acceptance))]
pub(crate) fn judge(core: &NodeCore, question: &Request) -> (Reply, Option<Input>)
    ensures replies { Replies core.now question.now result.0 result.1 }
    ensures free { IfSome result.1 (λ x. Refuses core.now x None) }
{
    match *question {
        Request::Stand(key, bid) => weigh(core, Input::Stand { key, bid }),
        Request::Take(no, msg) => weigh(core, Input::Take { no, msg }),
        Request::Acked(upto) => weigh(core, Input::Acked { upto }),
        Request::Retire(group, floor) => weigh(core, Input::Retire { group, floor }),
        Request::Who(key) => (who_reply(core.who(&key)), None),
        Request::Latest(group) => (Reply::Latest(core.latest(&group)), None),
    }
}

/// The reply that accepts the input.
#[tactic(auto, unfolding(crate::specs::Vouch::acceptance))]
pub(crate) fn acceptance(input: &Input) -> Reply
    ensures { result ≡ acceptance input.now }
{
    match input {
        Input::Stand { .. } => Reply::Stood,
        Input::Take { .. } => Reply::Taken,
        Input::Acked { .. } => Reply::Acked,
        Input::Retire { .. } => Reply::Retired,
    }
}

/// The reply that tells who leads, or why that is not told.
pub(crate) fn who_reply(found: Result<Option<Candidate>, Refusal>) -> Reply
    ensures { result ≡ who_reply found }
{
    match found {
        Ok(leader) => Reply::Leader(leader),
        Err(refusal) => Reply::Refused(refusal),
    }
}

// What it answers to an input, which it accepts where nothing is against it.
fn weigh(core: &NodeCore, input: Input) -> (Reply, Option<Input>)
    ensures weighed { IsWeighed core.now input (acceptance input) result.0 result.1 }
    ensures free { IfSome result.1 (λ x. Refuses core.now x None) }
{
    match core.admit(&input) {
        Ok(()) => (acceptance(&input), Some(input)),
        Err(refusal) => (Reply::Refused(refusal), None),
    }
}
