// A table of the nodes.
ghost use Rattle.std.specs.Prelude.{◌≡◌, ◌++◌, OnOk, string_bytes};
ghost use Rattle.std.specs.List.{flat_map};
ghost use Rattle.ring_page.specs.Nodes.{disk_told, inputs_told, room_told, row, table, table_end, table_start, who, work_told};

use ring_status::{NodeStatus, condition_text};
use std::alloc::AllocError;

#[tactic(auto, unfolding(crate::specs::Nodes::who))]
fn print_who(out: &mut String, state: &str, node: u8, port: u16) -> Result<(), AllocError>
    ensures { OnOk result (string_bytes out.new ≡ string_bytes out.old ++ who state.now node port) }
{
    writeln!(
        out,
        "<tr class=\"{state}\"><th>{node}</th><td>{port}</td><td>{state}</td>"
    )
}

#[tactic(auto, unfolding(crate::specs::Nodes::inputs_told))]
fn print_inputs(out: &mut String, inputs: u64, durable: u64) -> Result<(), AllocError>
    ensures { OnOk result (string_bytes out.new ≡ string_bytes out.old ++ inputs_told inputs durable) }
{
    writeln!(out, "<td>{inputs}</td><td>{durable}</td>")
}

#[tactic(auto, unfolding(crate::specs::Nodes::room_told))]
fn print_room(out: &mut String, used: u64, capacity: u64) -> Result<(), AllocError>
    ensures { OnOk result (string_bytes out.new ≡ string_bytes out.old ++ room_told used capacity) }
{
    writeln!(
        out,
        "<td><meter max=\"{capacity}\" value=\"{used}\"></meter> {used} of {capacity}</td>"
    )
}

#[tactic(auto, unfolding(crate::specs::Nodes::work_told))]
fn print_work(
    out: &mut String,
    waiting: u64,
    busy: u64,
    doors: u32,
    left: u64,
) -> Result<(), AllocError>
    ensures { OnOk result (string_bytes out.new ≡ string_bytes out.old ++ work_told waiting busy doors left) }
{
    writeln!(
        out,
        "<td>{waiting}</td><td>{busy} of {doors}</td><td>{left}</td>"
    )
}

#[tactic(auto, unfolding(crate::specs::Nodes::disk_told))]
fn print_disk(out: &mut String, age: u64, writing: u64) -> Result<(), AllocError>
    ensures { OnOk result (string_bytes out.new ≡ string_bytes out.old ++ disk_told age writing) }
{
    writeln!(out, "<td>{age} s ago</td><td>{writing} s</td></tr>")
}

#[tactic(auto, using(ring_status::proofs::Appends::five))]
fn print_row(out: &mut String, node: &NodeStatus) -> Result<(), AllocError>
    ensures { OnOk result (string_bytes out.new ≡ string_bytes out.old ++ row node.now) }
{
    let state = condition_text(node.condition);
    print_who(out, state, node.place.node.number(), node.place.port)?;
    print_inputs(out, node.held.shown.inputs, node.held.shown.durable)?;
    print_room(out, node.held.used, node.held.capacity)?;
    print_work(
        out,
        node.letters.count,
        node.counts.busy,
        node.place.doors,
        node.stands_left,
    )?;
    print_disk(out, node.checkpoint_age, node.writing)
}

fn print_rows(out: &mut String, nodes: &[NodeStatus]) -> Result<(), AllocError>
    ensures { OnOk result (string_bytes out.new ≡ string_bytes out.old ++ flat_map row nodes.now) }
{
    for node in nodes {
        print_row(out, node)?;
    }
    Ok(())
}

#[tactic(auto, unfolding(crate::specs::Nodes::table_start))]
fn print_table_start(out: &mut String) -> Result<(), AllocError>
    ensures { OnOk result (string_bytes out.new ≡ string_bytes out.old ++ table_start) }
{
    out.push_str(
        "<table>\n<tr><th>node</th><th>port</th><th>state</th><th>inputs</th><th>durable</th><th>bytes used</th><th>messages waiting</th><th>doors busy</th><th>Stands left</th><th>last checkpoint</th><th>writing</th></tr>\n",
    )
}

#[tactic(auto, unfolding(crate::specs::Nodes::table_end))]
fn print_table_end(out: &mut String) -> Result<(), AllocError>
    ensures { OnOk result (string_bytes out.new ≡ string_bytes out.old ++ table_end) }
{
    out.push_str("</table>\n")
}

#[tactic(auto, using(ring_status::proofs::Appends::three))]
/// Adds a table with a row for each node.
pub(crate) fn print_table(out: &mut String, nodes: &[NodeStatus]) -> Result<(), AllocError>
    ensures { OnOk result (string_bytes out.new ≡ string_bytes out.old ++ table nodes.now) }
{
    print_table_start(out)?;
    print_rows(out, nodes)?;
    print_table_end(out)
}
