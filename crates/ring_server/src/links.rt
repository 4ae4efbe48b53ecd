//! A node's place in the ring.
ghost use Rattle.std.specs.Prelude.{◌≡◌, ◌≤◌};

use crate::post::Post;
use crate::shared::Shared;
use crate::turnstile::Turnstile;
use crate::watch::Watch;
use disk_model::SystemFault;
use ring_post::{Repeats, RingPlace};
use ring_records::NodeNo;
use ring_watch::{Reception, Tally};
use std::sync::atomic::{AtomicU64, Ordering};
use std::sync::{Mutex, Wait};
use std::time::{Clock, Instant};

/// When messages were sent again, in milliseconds from the first look on.
#[derive(Clone, Copy)]
struct Resending {
    begun: Option<Instant>,
    repeats: Repeats,
}

impl Resending {
    /// Whether messages are to be sent again now, where the successor is known to have so many.
    fn is_due(&mut self, now: Instant, heard: u64) -> bool {
        let begun = self.begun.unwrap_or(now);
        self.begun = Some(begun);
        let millis = now.saturating_duration_since(begun).as_millis();
        self.repeats
            .are_due(millis.min(u128::from(u64::MAX)) as u64, heard)
    }
}

/// What a node knows of its successor: the greatest credit that its inbox heard, and when messages were sent again.
#[derive(Drop)]
pub(crate) struct Successor {
    heard: AtomicU64,
    resending: Mutex<Resending>,
}

impl Successor {
    /// Nothing is heard of it.
    pub(crate) fn new() -> Successor {
        Successor {
            heard: AtomicU64::new(0),
            resending: Mutex::new(Resending {
                begun: None,
                repeats: Repeats::new(),
            }),
        }
    }
}

/// What a node's threads send by, leave word at and count by: its place in the ring, the letterboxes, what it knows of
/// its successor, the watch, its tally, the turns of its doors, and where clerks are asked, if they are.
#[derive(Clone, Copy)]
pub(crate) struct Links<'a> {
    pub(crate) post: &'a Post,
    pub(crate) watch: &'a Watch,
    pub(crate) successor: &'a Successor,
    pub(crate) tally: &'a Tally,
    pub(crate) turnstile: &'a Turnstile,
    pub(crate) reception: Option<&'a Reception>,
    pub(crate) node: NodeNo,
    pub(crate) nodes: u8,
    ghost inside: { (node ≤ nodes) × (nodes ≤ 16) },
}

impl<'a> Links<'a> {
    /// Those of the node at this place.
    pub(crate) fn new(
        shared: &'a Shared,
        successor: &'a Successor,
        tally: &'a Tally,
        turnstile: &'a Turnstile,
        place: RingPlace,
    ) -> Links<'a>
        ensures { (result.node ≡ place.node) × (result.nodes ≡ place.nodes) }
    {
        Links {
            post: &shared.post,
            watch: &shared.watch,
            successor,
            tally,
            turnstile,
            reception: shared.reception(),
            node: place.node,
            nodes: place.nodes,
        }
    }

    /// The node's place in the ring.
    pub(crate) fn place(&self) -> RingPlace
        ensures { (result.node ≡ self.now.node) × (result.nodes ≡ self.now.nodes) }
    {
        RingPlace {
            node: self.node,
            nodes: self.nodes,
        }
    }

    /// The node has done with a message of its predecessor, however. The inbox alone calls it, once for each.
    pub(crate) fn done(&self) {
        self.post.done(self.node);
    }

    /// The successor has so many messages, durably, as the inbox has heard.
    pub(crate) fn hear(&self, upto: u64) {
        self.successor.heard.store(upto, Ordering::SeqCst);
    }

    /// How many messages the successor has, as far as is heard.
    pub(crate) fn heard(&self) -> u64 {
        self.successor.heard.load(Ordering::SeqCst)
    }

    /// Whether a message may be lost, and is to be sent again: none waits at the successor, whose credit has stood
    /// still for a while.
    pub(crate) fn may_have_lost<R: Wait + Clock>(&self, rt: &R) -> bool {
        if self.post.waits_at(self.node.successor(self.nodes)) {
            return false;
        }
        let Ok(now) = Instant::now(rt) else {
            return false;
        };
        self.successor.resending.lock(rt).is_due(now, self.heard())
    }

    /// The node has failed, with what the system answered, where that is known.
    pub(crate) fn fail<R: Wait>(&self, rt: &R, cause: Option<SystemFault>) {
        self.watch.fail(rt, self.node, cause);
    }

    /// The node refused a message or a client for want of room.
    pub(crate) fn fill<R: Wait>(&self, rt: &R) {
        self.watch.fill(rt, self.node);
    }

    /// The node refused a client, since it has all Stands that it may take.
    pub(crate) fn limit<R: Wait>(&self, rt: &R) {
        self.watch.limit(rt, self.node);
    }

    /// The node's rounds have been refused for a while for want of memory.
    pub(crate) fn starve<R: Wait>(&self, rt: &R) {
        self.watch.starve(rt, self.node);
    }

    /// The node has room again, where it was told to want some.
    pub(crate) fn has_room<R: Wait>(&self, rt: &R) {
        self.watch.has_room(rt, self.node);
    }

    /// The node had memory for a round, behind such as were refused.
    pub(crate) fn has_memory<R: Wait>(&self, rt: &R) {
        self.watch.has_memory(rt, self.node);
    }

    /// The node's door is done.
    pub(crate) fn leave<R: Wait>(&self, rt: &R) {
        self.post.leave(rt);
    }

    /// The node's clerk is asked nothing more.
    pub(crate) fn dismiss<R: Wait>(&self, rt: &R) {
        if let Some(reception) = self.reception {
            reception.dismiss(rt, self.node);
        }
    }
}
