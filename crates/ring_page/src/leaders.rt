// The leaders of groups.
ghost use Rattle.std.specs.Prelude.{◌≡◌, ◌++◌, OnOk, string_bytes};
ghost use Rattle.std.specs.List.{flat_map};
ghost use Rattle.ring_page.specs.Escaped.{escaped};
ghost use Rattle.ring_page.specs.Leaders.{group_end, group_told, holder_told, lead_row, lead_told, leader_told, leaders, leaders_end, leaders_start, link, link_middle, link_start, yes_or_no};

use crate::escape::push_escaped;
use ring_records::{Decision, GroupName};
use ring_status::{Holder, name_of};
use std::alloc::AllocError;

#[tactic(auto, unfolding(crate::specs::Leaders::link_start))]
fn print_link_start(out: &mut String) -> Result<(), AllocError>
    ensures { OnOk result (string_bytes out.new ≡ string_bytes out.old ++ link_start) }
{
    out.push_str("<tr><th><a href=\"/groups/")
}

#[tactic(auto, unfolding(crate::specs::Leaders::link_middle))]
fn print_link_middle(out: &mut String) -> Result<(), AllocError>
    ensures { OnOk result (string_bytes out.new ≡ string_bytes out.old ++ link_middle) }
{
    out.push_str("\">")
}

/// Adds what stands for the group's name.
pub(crate) fn print_name(out: &mut String, group: &GroupName) -> Result<(), AllocError>
    ensures { OnOk result (string_bytes out.new ≡ string_bytes out.old ++ escaped group.now) }
{
    push_escaped(out, name_of(group))
}

#[tactic(auto, using(ring_status::proofs::Appends::four))]
fn print_link(out: &mut String, group: &GroupName) -> Result<(), AllocError>
    ensures { OnOk result (string_bytes out.new ≡ string_bytes out.old ++ link group.now) }
{
    print_link_start(out)?;
    print_name(out, group)?;
    print_link_middle(out)?;
    print_name(out, group)
}

#[tactic(auto, unfolding(crate::specs::Leaders::lead_told))]
fn print_lead(out: &mut String, term: u32, node: u8, bid: u32) -> Result<(), AllocError>
    ensures { OnOk result (string_bytes out.new ≡ string_bytes out.old ++ lead_told term node bid) }
{
    writeln!(
        out,
        "</a></th><td>{term}</td><td>{node}</td><td>{bid}</td></tr>"
    )
}

#[tactic(auto, using(ring_status::proofs::Appends::two))]
fn print_lead_row(out: &mut String, lead: &Decision) -> Result<(), AllocError>
    ensures { OnOk result (string_bytes out.new ≡ string_bytes out.old ++ lead_row lead.now) }
{
    print_link(out, &lead.key.group)?;
    print_lead(
        out,
        lead.key.term.number(),
        lead.leader.node.number(),
        lead.leader.bid.number(),
    )
}

fn print_lead_rows(out: &mut String, leads: &[Decision]) -> Result<(), AllocError>
    ensures { OnOk result (string_bytes out.new ≡ string_bytes out.old ++ flat_map lead_row leads.now) }
{
    for lead in leads {
        print_lead_row(out, lead)?;
    }
    Ok(())
}

#[tactic(auto, unfolding(crate::specs::Leaders::leaders_start))]
fn print_leaders_start(out: &mut String) -> Result<(), AllocError>
    ensures { OnOk result (string_bytes out.new ≡ string_bytes out.old ++ leaders_start) }
{
    out.push_str(
        "<h2>Leaders</h2>\n<table>\n<tr><th>group</th><th>term</th><th>node</th><th>bid</th></tr>\n",
    )
}

#[tactic(auto, unfolding(crate::specs::Leaders::leaders_end))]
fn print_leaders_end(out: &mut String, more: bool) -> Result<(), AllocError>
    ensures { OnOk result (string_bytes out.new ≡ string_bytes out.old ++ leaders_end more) }
{
    if more {
        out.push_str("</table>\n<p>There are more: see /leaders.</p>\n")
    } else {
        out.push_str("</table>\n")
    }
}

#[tactic(auto, using(ring_status::proofs::Appends::three))]
/// Adds a table with a row for each leader, and whether there are more.
pub(crate) fn print_leaders(
    out: &mut String,
    leads: &[Decision],
    more: bool,
) -> Result<(), AllocError>
    ensures { OnOk result (string_bytes out.new ≡ string_bytes out.old ++ leaders leads.now more) }
{
    print_leaders_start(out)?;
    print_lead_rows(out, leads)?;
    print_leaders_end(out, more)
}

fn yes_or_no(is_so: bool) -> &'static str
    ensures { result.now ≡ yes_or_no is_so }
{
    if is_so { "yes" } else { "no" }
}

#[tactic(auto, unfolding(crate::specs::Leaders::leader_told))]
fn print_leader(out: &mut String, term: u32, node: u8, bid: u32) -> Result<(), AllocError>
    ensures { OnOk result (string_bytes out.new ≡ string_bytes out.old ++ leader_told term node bid) }
{
    writeln!(
        out,
        "</h1>\n<table>\n<tr><th>term</th><td>{term}</td></tr>\n<tr><th>leader</th><td>node {node}, bid {bid}</td></tr>"
    )
}

#[tactic(auto, unfolding(crate::specs::Leaders::holder_told))]
fn print_holder(out: &mut String, present: &str, resigned: &str) -> Result<(), AllocError>
    ensures { OnOk result (string_bytes out.new ≡ string_bytes out.old ++ holder_told present.now resigned.now) }
{
    write!(
        out,
        "<tr><th>present</th><td>{present}</td></tr>\n<tr><th>resigned</th><td>{resigned}</td></tr>\n<tr><th>text</th><td>"
    )
}

#[tactic(auto, unfolding(crate::specs::Leaders::group_end))]
fn print_group_end(out: &mut String) -> Result<(), AllocError>
    ensures { OnOk result (string_bytes out.new ≡ string_bytes out.old ++ group_end) }
{
    out.push_str("</td></tr>\n</table>\n<p><a href=\"/\">The ring</a></p>\n")
}

#[tactic(auto, using(ring_status::proofs::Appends::four))]
/// Adds the latest leader of a group, and what is known of who leads so.
pub(crate) fn print_group(
    out: &mut String,
    lead: &Decision,
    holder: &Holder<'_>,
) -> Result<(), AllocError>
    ensures { OnOk result (string_bytes out.new ≡ string_bytes out.old ++ group_told lead.now holder.now) }
{
    print_leader(
        out,
        lead.key.term.number(),
        lead.leader.node.number(),
        lead.leader.bid.number(),
    )?;
    print_holder(out, yes_or_no(holder.present), yes_or_no(holder.resigned))?;
    push_escaped(out, holder.text)?;
    print_group_end(out)
}
