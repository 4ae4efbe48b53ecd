//! A node as a start finds it.
ghost use Rattle.std.specs.Prelude.{◌≡◌, ◌≤◌, IfOk, length};
ghost use Rattle.ring_records.specs.Admission.{newest};
ghost use Rattle.ring_records.specs.Member.{member};
ghost use Rattle.ring_records.specs.Summary.{empty};
ghost use Rattle.gated_journal.specs.Reading.{fresh_area};
ghost use Rattle.group_commit.specs.Desk.{new_desk};

use crate::open_node::OpenNode;
use disk_model::Device;
use gated_journal::Opening;
use group_commit::Desk;
use ring_records::{NodeNo, Refusal};
use std::alloc::Global;

/// A node that has no file: its place in a ring of so many, the capacity that it is to have, and the desk of such a node,
/// which accepted nothing.
#[derive(Drop)]
pub struct NewNode {
    pub(crate) number: NodeNo,
    pub(crate) nodes: u8,
    pub(crate) capacity: u32,
    desk: Desk,
    ghost inside: { (number ≤ nodes) × (nodes ≤ 16) },
    ghost fresh: { desk ≡ new_desk (member number nodes capacity) 0 (fresh_area newest 1 empty) },
}

impl NewNode {
    /// This node of a ring of so many. Refused as 8.
    pub(crate) fn new(
        alloc: Global,
        number: NodeNo,
        nodes: u8,
        capacity: u32,
    ) -> Result<NewNode, Refusal>
        requires { (number ≤ nodes) × (nodes ≤ 16) }
        ensures { IfOk result (λ new. new.number ≡ number) }
    {
        let desk = Desk::open(alloc, number, nodes, capacity, 0, Opening::fresh(alloc))?;
        Ok(NewNode {
            number,
            nodes,
            capacity,
            desk,
        })
    }
}

/// A node as a start finds it.
#[derive(Drop)]
pub enum Found<V: Device> {
    /// The node of its file.
    There(OpenNode<V>),
    /// It has no file.
    New(NewNode),
}

impl<V: Device> Found<V> {
    ghost use Rattle.ring_start.specs.Fits.{found_as};

    /// Its number.
    pub(crate) fn number(&self) -> NodeNo
        ensures { result ≡ (found_as self.now).view.member.node }
    {
        match self {
            Found::There(opened) => opened.number,
            Found::New(new) => new.number,
        }
    }

    /// Its desk, whose inputs are all durable and there.
    pub(crate) fn desk(&self) -> &Desk
        ensures desk { result.now ≡ found_as self.now }
        ensures durable { result.now.view.state.durable ≡ length result.now.view.state.inputs }
        ensures whole { result.now.gone ≡ 0 }
    {
        match self {
            Found::There(opened) => opened.node.desk(),
            Found::New(new) => &new.desk,
        }
    }
}
