// A picture of the ring.
ghost use Rattle.std.specs.Prelude.{◌≡◌, ◌++◌, ◌/◌, max, length, OnOk, codes, string_bytes};
ghost use Rattle.std.specs.List.{flat_map};
ghost use Rattle.ring_page.specs.Escaped.{escaped};
ghost use Rattle.ring_page.specs.Nodes.{beside_drawn, drawn, lead_drawn, node_end, picture, picture_end, picture_start, place_drawn, room_drawn, shape_drawn, told_drawn, turn, way_drawn, words_drawn};

use crate::escape::push_escaped;
use ring_records::{Decision, NodeNo};
use ring_status::{NodeStatus, condition_text, name_of};
use std::alloc::AllocError;

// At how many degrees a node of so many stands.
fn turn(node: NodeNo, count: usize) -> usize
    ensures { result ≡ turn node count }
{
    360 * (usize::from(node.number()) - 1) / count.max(1)
}

// Half of the degrees between two of so many nodes.
fn half(count: usize) -> usize
    ensures { result ≡ 180 / max count 1 }
{
    180 / count.max(1)
}

#[tactic(auto, unfolding(crate::specs::Nodes::way_drawn))]
fn draw_way(out: &mut String, degrees: usize, half: usize) -> Result<(), AllocError>
    ensures { OnOk result (string_bytes out.new ≡ string_bytes out.old ++ way_drawn degrees half) }
{
    writeln!(
        out,
        "<path class=\"way\" transform=\"rotate({degrees}) rotate({half}) translate(0 -220)\" d=\"M-5 -5L4 0L-5 5\"/>"
    )
}

#[tactic(auto, unfolding(crate::specs::Nodes::place_drawn))]
fn draw_place(out: &mut String, degrees: usize, state: &str) -> Result<(), AllocError>
    ensures { OnOk result (string_bytes out.new ≡ string_bytes out.old ++ place_drawn degrees state.now) }
{
    writeln!(
        out,
        "<g transform=\"rotate({degrees}) translate(0 -220) rotate(-{degrees})\"><circle class=\"{state}\" r=\"21\"/>"
    )
}

#[tactic(auto, unfolding(crate::specs::Nodes::room_drawn))]
fn draw_room(out: &mut String, used: u64, capacity: u64) -> Result<(), AllocError>
    ensures { OnOk result (string_bytes out.new ≡ string_bytes out.old ++ room_drawn used capacity) }
{
    writeln!(
        out,
        "<circle class=\"used\" r=\"25\" transform=\"rotate(-90)\" pathLength=\"{capacity}\" stroke-dasharray=\"{used} {capacity}\"/>"
    )
}

#[tactic(auto, unfolding(crate::specs::Nodes::words_drawn))]
fn draw_words(out: &mut String, node: u8, state: &str, waiting: u64) -> Result<(), AllocError>
    ensures { OnOk result (string_bytes out.new ≡ string_bytes out.old ++ words_drawn node state.now waiting) }
{
    writeln!(
        out,
        "<text>{node}</text><text y=\"12\">{state}</text><text y=\"38\">{waiting} waiting</text>"
    )
}

#[tactic(auto, unfolding(crate::specs::Nodes::beside_drawn))]
fn draw_beside(out: &mut String, busy: u64, doors: u32, age: u64) -> Result<(), AllocError>
    ensures { OnOk result (string_bytes out.new ≡ string_bytes out.old ++ beside_drawn busy doors age) }
{
    write!(
        out,
        "<text y=\"49\">{busy} of {doors} doors busy</text><text y=\"60\">checkpoint {age} s ago</text><title>leads:"
    )
}

#[tactic(auto, using(ring_status::proofs::Appends::two))]
fn draw_group(out: &mut String, lead: &Decision) -> Result<(), AllocError>
    ensures { OnOk result (string_bytes out.new ≡ string_bytes out.old ++ (codes " " ++ escaped lead.now.key.group)) }
{
    out.push_str(" ")?;
    push_escaped(out, name_of(&lead.key.group))
}

fn draw_lead(out: &mut String, node: NodeNo, lead: &Decision) -> Result<(), AllocError>
    ensures { OnOk result (string_bytes out.new ≡ string_bytes out.old ++ lead_drawn node lead.now) }
{
    if lead.leader.node.number() == node.number() {
        draw_group(out, lead)
    } else {
        Ok(())
    }
}

fn draw_leads(out: &mut String, node: NodeNo, leads: &[Decision]) -> Result<(), AllocError>
    ensures { OnOk result (string_bytes out.new ≡ string_bytes out.old ++ flat_map (lead_drawn node) leads.now) }
{
    for lead in leads {
        draw_lead(out, node, lead)?;
    }
    Ok(())
}

#[tactic(auto, unfolding(crate::specs::Nodes::node_end))]
fn draw_node_end(out: &mut String) -> Result<(), AllocError>
    ensures { OnOk result (string_bytes out.new ≡ string_bytes out.old ++ node_end) }
{
    out.push_str("</title></g>\n")
}

#[tactic(auto, using(ring_status::proofs::Appends::three))]
fn draw_told(out: &mut String, leads: &[Decision], node: &NodeStatus) -> Result<(), AllocError>
    ensures { OnOk result (string_bytes out.new ≡ string_bytes out.old ++ told_drawn leads.now node.now) }
{
    draw_beside(out, node.counts.busy, node.place.doors, node.checkpoint_age)?;
    draw_leads(out, node.place.node, leads)?;
    draw_node_end(out)
}

#[tactic(auto, using(ring_status::proofs::Appends::four))]
fn draw_shape(out: &mut String, count: usize, node: &NodeStatus) -> Result<(), AllocError>
    ensures { OnOk result (string_bytes out.new ≡ string_bytes out.old ++ shape_drawn count node.now) }
{
    let state = condition_text(node.condition);
    let degrees = turn(node.place.node, count);
    draw_way(out, degrees, half(count))?;
    draw_place(out, degrees, state)?;
    draw_room(out, node.held.used, node.held.capacity)?;
    draw_words(out, node.place.node.number(), state, node.letters.count)
}

#[tactic(auto, using(ring_status::proofs::Appends::two))]
fn draw_node(
    out: &mut String,
    count: usize,
    leads: &[Decision],
    node: &NodeStatus,
) -> Result<(), AllocError>
    ensures { OnOk result (string_bytes out.new ≡ string_bytes out.old ++ drawn count leads.now node.now) }
{
    draw_shape(out, count, node)?;
    draw_told(out, leads, node)
}

fn draw_nodes(
    out: &mut String,
    count: usize,
    leads: &[Decision],
    nodes: &[NodeStatus],
) -> Result<(), AllocError>
    ensures { OnOk result (string_bytes out.new ≡ string_bytes out.old ++ flat_map (drawn count leads.now) nodes.now) }
{
    for node in nodes {
        draw_node(out, count, leads, node)?;
    }
    Ok(())
}

#[tactic(auto, unfolding(crate::specs::Nodes::picture_start))]
fn draw_start(out: &mut String) -> Result<(), AllocError>
    ensures { OnOk result (string_bytes out.new ≡ string_bytes out.old ++ picture_start) }
{
    out.push_str(
        "<svg viewBox=\"-270 -260 540 560\" width=\"540\" height=\"560\" role=\"img\" aria-label=\"The ring, as in the table\">\n<circle class=\"way\" r=\"220\"/>\n",
    )
}

#[tactic(auto, unfolding(crate::specs::Nodes::picture_end))]
fn draw_end(out: &mut String) -> Result<(), AllocError>
    ensures { OnOk result (string_bytes out.new ≡ string_bytes out.old ++ picture_end) }
{
    out.push_str("</svg>\n")
}

#[tactic(auto, using(ring_status::proofs::Appends::three))]
/// Adds a picture of the nodes in a circle, as SVG, with the groups among these that each one leads.
pub(crate) fn print_picture(
    out: &mut String,
    nodes: &[NodeStatus],
    leads: &[Decision],
) -> Result<(), AllocError>
    ensures { OnOk result (string_bytes out.new ≡ string_bytes out.old ++ picture nodes.now leads.now) }
{
    draw_start(out)?;
    draw_nodes(out, nodes.len(), leads, nodes)?;
    draw_end(out)
}
