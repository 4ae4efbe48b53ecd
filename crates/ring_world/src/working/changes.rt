// What nodes are asked, make durable and release.
ghost use Rattle.std.specs.Prelude.{◌≡◌, ◌≤◌, ◌<◌, ◌+◌, ◌-◌, ◌^◌, ◌++◌, length, map, true, false, OnOk, OnErr, IfOk, vec_len, vec_capacity};
ghost use Rattle.std.specs.List.{filter_map};
ghost use Rattle.ring_records.specs.Outside.{is_outside};
ghost use Rattle.ring_node.specs.Node.{state_of, made_durable};
ghost use Rattle.ring_node.specs.Open.{due};
ghost use Rattle.ring_world.specs.Ring.{node_at, asked, landing, landed, settled, replies, reply_of, release_of, given, handed, drained, brought, is_released};
ghost use Rattle.ring_world.specs.Shows.{without_due};
ghost use Rattle.ring_world.specs.Left.{IsSameState};

use super::*;

impl Working {
    // Asks the node, under this number if any, after its neighbour released what the request brings, and releases the
    // replies that rest on durable inputs alone. In an eager ring rounds of Launch, Land and Release follow until
    // nothing waits. The replies to tickets with a number, in order. Want of memory changes nothing in a ring that is
    // not eager.
    #[tactic(auto, unfolding(crate::specs::Ring::brought))]
    pub(super) fn bring(
        &mut self,
        serial: Option<u64>,
        node: NodeNo,
        question: &Request,
    ) -> Result<Vec<(u64, Reply)>, AllocError>
        requires inside { node ≤ self.old.ring.size }
        requires of_ring { is_outside self.old.ring.size question.now ≡ false }
        requires released { is_released self.old.ring node question.now ≡ true }
        requires room { length self.old.ring.events < 2 ^ 60 }
        ensures next { OnOk result (self.new.ring ≡ (brought serial node question.now self.old.ring).1) }
        ensures replies { IfOk result (λ list. list.items ≡ (brought serial node question.now self.old.ring).0) }
        ensures same { IsSameState self.old self.new }
        ensures lasting { OnErr result (self.old.ring.eager ≡ false → self.new ≡ self.old) }
    {
        let replies = self.ask(serial, node, question)?;
        if self.log.eager {
            return self.drain(node, replies);
        }
        Ok(replies)
    }

    // Rounds of Launch, Land and Release until nothing waits at the node: these replies, and those that they release.
    fn drain(
        &mut self,
        node: NodeNo,
        first: Vec<(u64, Reply)>,
    ) -> Result<Vec<(u64, Reply)>, AllocError>
        requires inside { node ≤ self.old.ring.size }
        ensures next { OnOk result (self.new.ring ≡ (drained node self.old.ring).1) }
        ensures replies { IfOk result (λ list. list.items ≡ first.items ++ (drained node self.old.ring).0) }
        ensures same { IsSameState self.old self.new }
    {
        let mut replies = first;
        let most = self.count(node);
        for _ in 0..most {
            if !self.waits(node) {
                return Ok(replies);
            }
            self.round(Flight::Batch, node, &mut replies)?;
        }
        Ok(replies)
    }

    // Asks the node, and releases what is due. Want of memory changes nothing.
    fn ask(
        &mut self,
        serial: Option<u64>,
        node: NodeNo,
        question: &Request,
    ) -> Result<Vec<(u64, Reply)>, AllocError>
        requires inside { node ≤ self.old.ring.size }
        requires of_ring { is_outside self.old.ring.size question.now ≡ false }
        requires released { is_released self.old.ring node question.now ≡ true }
        requires room { length self.old.ring.events < 2 ^ 60 }
        ensures next { OnOk result (self.new.ring ≡ settled node (asked serial node question.now (given node question.now self.old.ring))) }
        ensures replies { IfOk result (λ list. list.items ≡ replies node (asked serial node question.now (given node question.now self.old.ring))) }
        ensures same { IsSameState self.old self.new }
        ensures err { OnErr result (self.new ≡ self.old) }
    {
        // All memory first. The events are the packet, the request and its release: no ticket that was open is due.
        self.log.events.reserve(3)?;
        let mut replies = Vec::with_capacity(self.log.alloc, 1)?;
        let at = node.number() as usize - 1;
        self.nodes[at].ask(serial, *question)?;
        push_packet(&mut self.log.events, self.log.size, node, question);
        let deed = Deed::Submit(*question);
        self.log.events.push_reserved(Happened::new(node, deed));
        release_due(
            &mut self.nodes[at],
            &mut self.log.events,
            &mut replies,
            node,
        );
        Ok(replies)
    }

    // Launches and lands it, where it is launched of the node, and releases what is due: how many inputs. Adds the
    // replies to tickets with a number. Where nothing is objected to it, an error is want of memory; it changes nothing.
    pub(super) fn round(
        &mut self,
        flight: Flight,
        node: NodeNo,
        list: &mut Vec<(u64, Reply)>,
    ) -> Result<u32, AllocError>
        requires inside { node ≤ self.old.ring.size }
        ensures next { OnOk result (self.new.ring ≡ settled node (landed flight node self.old.ring)) }
        ensures replies { OnOk result (list.new.items ≡ list.old.items ++ replies node (landed flight node self.old.ring)) }
        ensures count { IfOk result (λ count. count ≡ (node_at self.new.ring node).durable - (node_at self.old.ring node).durable) }
        ensures same { IsSameState self.old self.new }
    {
        // All memory first. Every open ticket may be due once it landed.
        let at = node.number() as usize - 1;
        let open = self.nodes[at].desk().open_tickets();
        self.log.events.reserve(open.saturating_add(2))?;
        list.reserve(open)?;
        let count = land(&mut self.nodes[at], &mut self.log.events, flight, node)?;
        release_due(&mut self.nodes[at], &mut self.log.events, list, node);
        Ok(count)
    }
}

// Adds the packet that a neighbour of the node releases to it, for what the request brings; there is room.
fn push_packet(events: &mut Vec<Happened>, size: u8, node: NodeNo, question: &Request)
    requires inside { node ≤ size }
    requires limit { size ≤ 16 }
    requires room { vec_len events.old < vec_capacity events.old }
    ensures events { events.new.items ≡ events.old.items ++ handed size node question.now }
    ensures capacity { vec_capacity events.new ≡ vec_capacity events.old }
    ensures len { vec_len events.new ≤ vec_len events.old + 1 }
{
    match question {
        Request::Take(no, msg) => {
            let from = node.predecessor(size);
            let packet = Packet::Carry { no: *no, msg: *msg };
            let deed = Deed::Release(Thing::Sent(packet));
            events.push_reserved(Happened::new(from, deed));
        }
        Request::Acked(upto) => {
            let from = node.successor(size);
            let packet = Packet::Credit { upto: *upto };
            let deed = Deed::Release(Thing::Sent(packet));
            events.push_reserved(Happened::new(from, deed));
        }
        Request::Stand(..) => {}
        Request::Retire(..) => {}
        Request::Who(_) => {}
        Request::Latest(_) => {}
    }
}

// Launches and lands it, where it is launched of the node; there is room for the events. How many inputs.
fn land(
    node: &mut RingNode,
    events: &mut Vec<Happened>,
    flight: Flight,
    number: NodeNo,
) -> Result<u32, AllocError>
    requires room { vec_len events.old + 2 ≤ vec_capacity events.old }
    ensures node { OnOk result (node.new ≡ made_durable flight node.old) }
    ensures events { OnOk result (events.new.items ≡ events.old.items ++ landing flight number (state_of node.old)) }
    ensures len { vec_len events.new ≤ vec_len events.old + 2 }
    ensures capacity { vec_capacity events.new ≡ vec_capacity events.old }
    ensures count { IfOk result (λ count. count ≡ node.new.durable - node.old.durable) }
    ensures err { OnErr result ((events.new.items ≡ events.old.items) × (node.new ≡ node.old)) }
{
    let launches = flight == Flight::Checkpoint || node.desk().waits();
    let count = made_durable(node, flight)?;
    if launches {
        events.push_reserved(Happened::new(number, launch(flight)));
        events.push_reserved(Happened::new(number, Deed::Land));
    }
    Ok(count)
}

// Makes it durable: how many inputs.
fn made_durable(node: &mut RingNode, flight: Flight) -> Result<u32, AllocError>
    ensures node { OnOk result (node.new ≡ made_durable flight node.old) }
    ensures count { IfOk result (λ count. count ≡ node.new.durable - node.old.durable) }
    ensures err { OnErr result (node.new ≡ node.old) }
{
    match flight {
        Flight::Batch => node.flush(),
        Flight::Checkpoint => match node.checkpoint() {
            Ok(count) => Ok(count),
            Err(_) => Err(AllocError),
        },
    }
}

// Releases what is due at the node, for which there is room.
fn release_due(
    node: &mut RingNode,
    events: &mut Vec<Happened>,
    replies: &mut Vec<(u64, Reply)>,
    number: NodeNo,
)
    requires events { vec_len events.old + length (due node.old.durable node.old.held) ≤ vec_capacity events.old }
    requires replies { vec_len replies.old + length (due node.old.durable node.old.held) ≤ vec_capacity replies.old }
    ensures node { node.new ≡ without_due node.old }
    ensures events { events.new.items ≡ events.old.items ++ map (release_of number) (due node.old.durable node.old.held) }
    ensures replies { replies.new.items ≡ replies.old.items ++ filter_map reply_of (due node.old.durable node.old.held) }
{
    while let Some(released) = node.release() {
        let (ticket, stub) = released;
        if let Some(ticket) = ticket {
            replies.push_reserved((ticket, stub.reply()));
        }
        let deed = Deed::Release(Thing::Replied(stub));
        events.push_reserved(Happened::new(number, deed));
    }
}
