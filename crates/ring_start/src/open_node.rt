//! A node that is ready to be shared.
ghost use Rattle.std.specs.Prelude.{◌≡◌, ◌≤◌, ◌||◌, ◌⊎◌, true, false, length, IfOk, IfErr};
ghost use Rattle.disk_model.specs.Disk.{LeavesOnly, Reaches};
ghost use Rattle.gated_journal.specs.Reading.{device_size};
ghost use Rattle.gated_journal.specs.Unread.{IsFault};
ghost use Rattle.group_commit.specs.Launching.{launched_all};
ghost use Rattle.node_store.specs.Node.{desk_of, member_of, state_of, device_of};
ghost use Rattle.node_store.specs.State.{MayBeLeft};

use crate::ready::Ready;
use disk_model::Device;
use node_store::Node;
use ring_records::{LAYOUT, NodeNo, Refusal};

/// A node with its place in the ring, which takes requests, has no open ticket, and whose inputs are all durable and there.
#[derive(Drop)]
pub struct OpenNode<V: Device> {
    pub number: NodeNo,
    pub nodes: u8,
    pub node: Node<V>,
    ghost inside: { (number ≤ nodes) × (nodes ≤ 16) },
    ghost place: { ((desk_of node).view.member.node ≡ number) × ((desk_of node).view.member.n ≡ nodes) },
    ghost open: { ((desk_of node).view.closed || (desk_of node).view.failed) ≡ false },
    ghost spent: { length (desk_of node).view.tickets ≡ 0 },
    ghost durable: { (state_of node).durable ≡ length (state_of node).inputs },
    ghost whole: { (desk_of node).gone ≡ 0 },
}

impl<V: Device> OpenNode<V> {
    ghost use Rattle.ring_start.specs.Fits.{kept_by};
    ghost use Rattle.ring_start.specs.Written.{GoesOn, IsRenewed, IsUntouched, is_of_old};

    /// This node of a ring of so many.
    pub fn new(number: NodeNo, nodes: u8, node: Node<V>) -> OpenNode<V>
        requires inside { (number ≤ nodes) × (nodes ≤ 16) }
        requires place { ((desk_of node).view.member.node ≡ number) × ((desk_of node).view.member.n ≡ nodes) }
        requires open { ((desk_of node).view.closed || (desk_of node).view.failed) ≡ false }
        requires spent { length (desk_of node).view.tickets ≡ 0 }
        requires durable { (state_of node).durable ≡ length (state_of node).inputs }
        requires whole { (desk_of node).gone ≡ 0 }
        ensures { result.node ≡ node }
    {
        OpenNode {
            number,
            nodes,
            node,
        }
    }

    /// Whether its area in use is of an earlier layout than the next one.
    pub fn is_of_old(&self) -> bool
        ensures { result ≡ is_of_old (kept_by self.now) }
    {
        self.node.desk().layout() < LAYOUT
    }

    /// Makes a checkpoint of what the node holds, so that all that it releases from now on stands on bytes that this
    /// process wrote and synced. It goes on without one where the snapshot does not fit, or no epoch is left. Refused as
    /// 15 where the device fails, and as 8; the node ends then.
    pub fn renew(self) -> Result<Ready<V>, (V, Refusal)>
        ensures goes_on { IfOk result (λ ready. GoesOn (kept_by self) (kept_by ready.opened)) }
        ensures written { IfOk result (λ ready. ready.is_written ≡ true → IsRenewed 1 self ready.opened) }
        ensures kept { IfOk result (λ ready. ready.is_written ≡ false → IsUntouched self ready.opened) }

        // A stop at any moment leaves what the node held before, or the summary of it.
        ensures any_moment { IfOk result (λ ready. ready.is_written ≡ true → LeavesOnly V.clock V.left_since (device_of self.node) (device_of ready.opened.node)
            (MayBeLeft (record (desk_of self.node) { view = launched_all (desk_of self.node) }))) }
        ensures refusal { IfErr result (λ e. IsFault (V.count (device_of self.node)) (V.count e.0) e.1 ⊎ ((e.1 ≡ Refusal.OutOfMemory) × (e.0 ≡ device_of self.node))) }
        ensures in_reach { Reaches (V.reach (device_of self.node)) (device_size (member_of self.node).capacity) → IfErr result (λ e. e.1 ≡ Refusal.OutOfMemory) }
    {
        let OpenNode {
            number,
            nodes,
            node,
        } = self;
        let mut node = node;
        let refusal = match node.checkpoint() {
            Ok(_) => {
                let opened = OpenNode {
                    number,
                    nodes,
                    node,
                };
                return Ok(Ready {
                    opened,
                    is_written: true,
                });
            }
            Err(refusal) => refusal,
        };
        match refusal {
            Refusal::Limit | Refusal::Full => {
                let opened = OpenNode {
                    number,
                    nodes,
                    node,
                };
                Ok(Ready {
                    opened,
                    is_written: false,
                })
            }
            _ => Err((end(node), refusal)),
        }
    }
}

/// Ends a node that has no open ticket, and gives its device.
fn end<V: Device>(node: Node<V>) -> V
    requires { length (desk_of node).view.tickets ≡ 0 }
    ensures { result ≡ device_of node }
{
    let mut node = node;
    node.close();
    node.into_device()
}
