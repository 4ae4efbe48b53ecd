//! The letterboxes of all nodes, until the last door of the ring is done.
ghost use Rattle.std.specs.Prelude.{◌≡◌};

use crossbeam_channel::{Receiver, Sender, unbounded};
use ring_post::Letter;
use ring_records::NodeNo;
use ring_status::Letters;
use std::alloc::{AllocError, Global};
use std::sync::atomic::{AtomicU64, Ordering};
use std::sync::{Mutex, Wait};

/// A node's letterbox, and how many messages were sent to it that it has not answered for yet.
#[derive(Drop)]
struct Letterbox {
    sender: Mutex<Option<Sender<Letter>>>,
    waiting: AtomicU64,
}

/// Where letters are sent to, and how many nodes have a door that is not done. It alone holds senders, so that all letterboxes
/// close at once: an inbox sends too, and would keep the next one open else.
#[derive(Drop)]
pub struct Post {
    boxes: Vec<Letterbox>,
    nodes: AtomicU64,
}

impl Post {
    /// With a letterbox for each of so many nodes, and their receivers in order of node.
    pub fn new(alloc: Global, nodes: u8) -> Result<(Post, Vec<Receiver<Letter>>), AllocError> {
        let mut boxes = Vec::with_capacity(alloc, usize::from(nodes))?;
        let mut receivers = Vec::with_capacity(alloc, usize::from(nodes))?;
        for _ in 0..nodes {
            let (sender, receiver) = unbounded(alloc)?;
            let sender = Mutex::new(Some(sender));
            let waiting = AtomicU64::new(0);
            boxes.push(Letterbox { sender, waiting })?;
            receivers.push(receiver)?;
        }
        let nodes = AtomicU64::new(u64::from(nodes));
        Ok((Post { boxes, nodes }, receivers))
    }

    fn letterbox(&self, node: NodeNo) -> Option<&Letterbox> {
        self.boxes.get(usize::from(node.number()) - 1)
    }

    /// Sends a letter to the node that it goes to. What finds no memory is lost, as is what comes after the last door. A message
    /// waits there until the node has done with it.
    pub fn send<R: Wait>(&self, rt: &R, letter: Letter) {
        let node = letter.to();
        let Some(letterbox) = self.letterbox(node) else {
            return;
        };
        let waits = letter.brings().is_some();
        if waits {
            letterbox.waiting.fetch_add(1, Ordering::SeqCst);
        }
        let is_sent = match letterbox.sender.lock(rt).as_ref() {
            Some(sender) => sender.send(rt, letter).is_ok(),
            None => false,
        };
        if waits && !is_sent {
            self.done(node);
        }
    }

    /// The node has done with a message that was sent to it: it took it or refused it, or the message is lost.
    pub fn done(&self, node: NodeNo) {
        if let Some(letterbox) = self.letterbox(node) {
            letterbox.waiting.fetch_sub(1, Ordering::SeqCst);
        }
    }

    /// How many messages wait at the node.
    pub fn letters(&self, node: NodeNo) -> Letters
        ensures { result.node ≡ node }
    {
        let count = match self.letterbox(node) {
            Some(letterbox) => letterbox.waiting.load(Ordering::SeqCst),
            None => 0,
        };
        Letters { node, count }
    }

    /// Whether messages wait at the node.
    pub fn waits_at(&self, node: NodeNo) -> bool {
        self.letters(node).count > 0
    }

    /// The door of one node is done, which each node says once. After the last one every letterbox is closed.
    pub fn leave<R: Wait>(&self, rt: &R) {
        if self.nodes.fetch_sub(1, Ordering::SeqCst) == 1 {
            for letterbox in &self.boxes {
                *letterbox.sender.lock(rt) = None;
            }
        }
    }
}
