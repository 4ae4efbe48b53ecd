// What happened to a ring.
ghost use Rattle.std.specs.Prelude.{◌≡◌};
ghost use Rattle.ring_world.specs.Announced.{announced_by};
ghost use Rattle.ring_world.specs.Happened.{action_of};
ghost use Rattle.ring_world.specs.Released.{named_by};

use crate::announced::Announced;
use group_commit::Stub;
use ring_records::{Candidate, Key, NodeNo, Packet, Reply, Request};
use std::marker::Model;

/// What a node did.
#[derive(Drop)]
pub enum Deed {
    /// It was asked.
    Submit(Request),
    /// A batch of its inputs began to fly.
    Launch,
    /// All its inputs began to fly, as a checkpoint.
    LaunchAll,
    /// What flew is durable.
    Land,
    /// It released something.
    Release(Thing),
    /// It was stopped, and opened again: with what flew, or without.
    Crash { keeps_flying: bool },
}

/// What a node releases.
#[derive(Drop)]
pub enum Thing {
    /// A reply.
    Replied(Stub),
    /// A packet to a neighbour.
    Sent(Packet),
}

/// An event: a node, and what it did.
#[derive(Drop)]
pub struct Happened {
    node: NodeNo,
    deed: Deed,
}

impl Model for Happened {
    ghost use Rattle.std.specs.Prelude.{ℕ};
    ghost use Rattle.ring_world.specs.Events.{Action};
    ghost use Rattle.ring_world.specs.Happened.{action_of};

    ghost Value = { ℕ × Action };

    ghost view = { λ e. (e.node, action_of e.deed) };
}

impl Happened {
    /// The node did it.
    pub fn new(node: NodeNo, deed: Deed) -> Happened
        ensures { result ≡ (node, action_of deed) }
    {
        Happened { node, deed }
    }

    /// The leader that it named, where it is a reply that names one.
    #[tactic(auto, unfolding(crate::specs::Announced::announced_by))]
    pub fn announced(&self) -> Option<Announced>
        ensures { result ≡ announced_by self.now }
    {
        match &self.deed {
            Deed::Release(Thing::Replied(reply)) => {
                match named_by(&reply.question(), &reply.reply()) {
                    Some((key, leader)) => Some(Announced {
                        node: self.node,
                        key,
                        leader,
                    }),
                    None => None,
                }
            }
            _ => None,
        }
    }
}

// The leader that the reply to the request names, with its key.
#[tactic(auto, unfolding(crate::specs::Released::named_by))]
fn named_by(question: &Request, reply: &Reply) -> Option<(Key, Candidate)>
    ensures { result ≡ named_by question.now reply.now }
{
    match (question, reply) {
        (Request::Who(key), Reply::Leader(Some(leader))) => Some((*key, *leader)),
        (Request::Latest(group), Reply::Latest(Some((term, leader)))) => {
            let key = Key {
                group: *group,
                term: *term,
            };
            Some((key, *leader))
        }
        _ => None,
    }
}
