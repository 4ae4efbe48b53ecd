// The pages.
ghost use Rattle.std.specs.Prelude.{◌≡◌, ◌++◌, ◌-◌, IfOk, OnOk, string_bytes};
ghost use Rattle.ring_status.specs.Health.{health_body};
ghost use Rattle.ring_page.specs.Pages.{ability, age_told, bottom, group_body, health_end, health_told, program_told, ring_body, top, version_start};

use crate::escape::push_escaped;
use crate::frame::{print_end, print_start};
use crate::leaders::{print_group, print_leaders};
use crate::picture::print_picture;
use crate::table::print_table;
use ring_records::{Decision, NodeNo};
use ring_status::{Holder, NodeStatus, RingStatus, can_elect, health_text, name_of};
use std::alloc::{AllocError, Global};

#[tactic(auto, unfolding(crate::specs::Pages::version_start))]
fn print_version_start(out: &mut String) -> Result<(), AllocError>
    ensures { OnOk result (string_bytes out.new ≡ string_bytes out.old ++ version_start) }
{
    out.push_str("</h1>\n<p>ringd ")
}

#[tactic(auto, unfolding(crate::specs::Pages::age_told))]
fn print_age(out: &mut String, age: u64) -> Result<(), AllocError>
    ensures { OnOk result (string_bytes out.new ≡ string_bytes out.old ++ age_told age) }
{
    let days = age / 86_400;
    let hours = age % 86_400 / 3_600;
    let minutes = age % 3_600 / 60;
    write!(out, " for {days} d {hours} h {minutes} min. ")
}

#[tactic(auto, using(ring_status::proofs::Appends::three))]
fn print_program(out: &mut String, version: &str, started: u64, now: u64) -> Result<(), AllocError>
    ensures { OnOk result (string_bytes out.new ≡ string_bytes out.old ++ program_told version.now started now) }
{
    print_version_start(out)?;
    push_escaped(out, version)?;
    print_age(out, now.saturating_sub(started))
}

fn print_ability(out: &mut String, nodes: &[NodeStatus]) -> Result<(), AllocError>
    ensures { OnOk result (string_bytes out.new ≡ string_bytes out.old ++ ability nodes.now) }
{
    if can_elect(nodes) {
        out.push_str("It can elect.</p>\n<pre>")
    } else {
        out.push_str("It cannot elect.</p>\n<pre>")
    }
}

#[tactic(auto, unfolding(crate::specs::Pages::health_end))]
fn print_health_end(out: &mut String) -> Result<(), AllocError>
    ensures { OnOk result (string_bytes out.new ≡ string_bytes out.old ++ health_end) }
{
    out.push_str("</pre>\n")
}

fn print_health_lines(
    out: &mut String,
    alloc: Global,
    nodes: &[NodeStatus],
    doorless: &[NodeNo],
) -> Result<(), AllocError>
    ensures { OnOk result (string_bytes out.new ≡ string_bytes out.old ++ health_body nodes.now doorless.now) }
{
    let lines = health_text(alloc, nodes, doorless)?;
    out.push_str(&lines)
}

#[tactic(auto, using(ring_status::proofs::Appends::three))]
fn print_health(
    out: &mut String,
    alloc: Global,
    nodes: &[NodeStatus],
    doorless: &[NodeNo],
) -> Result<(), AllocError>
    ensures { OnOk result (string_bytes out.new ≡ string_bytes out.old ++ health_told nodes.now doorless.now) }
{
    print_ability(out, nodes)?;
    print_health_lines(out, alloc, nodes, doorless)?;
    print_health_end(out)
}

#[tactic(auto, using(ring_status::proofs::Appends::three))]
fn print_top(
    out: &mut String,
    alloc: Global,
    ring: &RingStatus<'_>,
    now: u64,
) -> Result<(), AllocError>
    ensures { OnOk result (string_bytes out.new ≡ string_bytes out.old ++ top ring.now now) }
{
    print_start(out, ring.dir)?;
    print_program(out, ring.version, ring.started, now)?;
    print_health(out, alloc, ring.nodes, ring.doorless)
}

#[tactic(auto, using(ring_status::proofs::Appends::four))]
fn print_bottom(
    out: &mut String,
    nodes: &[NodeStatus],
    leads: &[Decision],
    more: bool,
) -> Result<(), AllocError>
    ensures { OnOk result (string_bytes out.new ≡ string_bytes out.old ++ bottom nodes.now leads.now more) }
{
    print_picture(out, nodes, leads)?;
    print_table(out, nodes)?;
    print_leaders(out, leads, more)?;
    print_end(out)
}

#[tactic(auto, using(ring_status::proofs::Appends::two), unfolding(crate::specs::Pages::ring_body))]
fn print_ring(
    out: &mut String,
    alloc: Global,
    ring: &RingStatus<'_>,
    now: u64,
    leads: &[Decision],
    more: bool,
) -> Result<(), AllocError>
    ensures { OnOk result (string_bytes out.new ≡ string_bytes out.old ++ ring_body ring.now now leads.now more) }
{
    print_top(out, alloc, ring, now)?;
    print_bottom(out, ring.nodes, leads, more)
}

/// The page of a ring at this second of Unix time, with a page of its leaders, and whether there are more groups behind it. Refused
/// for want of memory alone.
pub fn ring_page(
    alloc: Global,
    ring: &RingStatus<'_>,
    now: u64,
    leads: &[Decision],
    more: bool,
) -> Result<String, AllocError>
    ensures { IfOk result (λ text. string_bytes text ≡ ring_body ring.now now leads.now more) }
{
    let mut out = String::new(alloc);
    print_ring(&mut out, alloc, ring, now, leads, more)?;
    Ok(out)
}

#[tactic(auto, using(ring_status::proofs::Appends::three), unfolding(crate::specs::Pages::group_body))]
fn print_group_page(
    out: &mut String,
    lead: &Decision,
    holder: &Holder<'_>,
) -> Result<(), AllocError>
    ensures { OnOk result (string_bytes out.new ≡ string_bytes out.old ++ group_body lead.now holder.now) }
{
    print_start(out, name_of(&lead.key.group))?;
    print_group(out, lead, holder)?;
    print_end(out)
}

/// The page of a group: its latest leader, and what is known of who leads so. Refused for want of memory alone.
pub fn group_page(alloc: Global, lead: &Decision, holder: &Holder<'_>) -> Result<String, AllocError>
    ensures { IfOk result (λ text. string_bytes text ≡ group_body lead.now holder.now) }
{
    let mut out = String::new(alloc);
    print_group_page(&mut out, lead, holder)?;
    Ok(out)
}
