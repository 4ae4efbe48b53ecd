// The text for Prometheus.
ghost use Rattle.std.specs.Prelude.{◌≡◌, ◌++◌, IfOk, OnOk, option_map, string_bytes};
ghost use Rattle.std.specs.List.{flat_map};
ghost use Rattle.ring_status.specs.Metrics.{begun_family, gauge_of, max_family, open_family, process_families, process_family, program_told, resident_family, value_line, bucket, commit_count, commit_samples, commit_sum, commit_totals, commits_family, commits_head, family_of, head_of, identity_family, identity_sample, metrics_told, refusal_sample, refusal_samples, refusals_family, refusals_head, sample, layout_label, started_family, version_family, version_start, within_sample};

use crate::metric::Metric;
use crate::process::Process;
use crate::values::{CommitTimes, NodeStatus, RefusalCount, RingStatus, WithinCount};
use ring_records::{LAYOUT, NodeNo};
use std::alloc::{AllocError, Global};

fn print_head(out: &mut String, name: &str, help: &str, kind: &str) -> Result<(), AllocError>
    ensures { OnOk result (string_bytes out.new ≡ string_bytes out.old ++ head_of name.now help.now kind.now) }
{
    writeln!(out, "# HELP {name} {help}\n# TYPE {name} {kind}")
}

fn print_sample(out: &mut String, metric: Metric, node: &NodeStatus) -> Result<(), AllocError>
    ensures { OnOk result (string_bytes out.new ≡ string_bytes out.old ++ sample metric node.now) }
{
    let name = metric.name();
    let number = node.place.node.number();
    let value = metric.of(node);
    writeln!(out, "{name}{{node=\"{number}\"}} {value}")
}

fn print_samples(out: &mut String, metric: Metric, nodes: &[NodeStatus]) -> Result<(), AllocError>
    ensures { OnOk result (string_bytes out.new ≡ string_bytes out.old ++ flat_map (sample metric) nodes.now) }
{
    for node in nodes {
        print_sample(out, metric, node)?;
    }
    Ok(())
}

#[tactic(auto, using(crate::proofs::Appends::two))]
fn print_family(out: &mut String, metric: Metric, nodes: &[NodeStatus]) -> Result<(), AllocError>
    ensures { OnOk result (string_bytes out.new ≡ string_bytes out.old ++ family_of nodes.now metric) }
{
    print_head(out, metric.name(), metric.help(), metric.kind())?;
    print_samples(out, metric, nodes)
}

fn print_families(
    out: &mut String,
    metrics: &[Metric],
    nodes: &[NodeStatus],
) -> Result<(), AllocError>
    ensures { OnOk result (string_bytes out.new ≡ string_bytes out.old ++ flat_map (family_of nodes.now) metrics.now) }
{
    for metric in metrics {
        print_family(out, *metric, nodes)?;
    }
    Ok(())
}

#[tactic(auto, unfolding(crate::specs::Metrics::refusal_sample))]
fn print_refusal(out: &mut String, node: NodeNo, told: &RefusalCount) -> Result<(), AllocError>
    ensures { OnOk result (string_bytes out.new ≡ string_bytes out.old ++ refusal_sample node told.now) }
{
    let node = node.number();
    let number = told.number;
    let count = told.count;
    writeln!(
        out,
        "cinoweta_refusals_total{{node=\"{node}\",number=\"{number}\"}} {count}"
    )
}

fn print_refusals(
    out: &mut String,
    node: NodeNo,
    refusals: &[RefusalCount],
) -> Result<(), AllocError>
    ensures { OnOk result (string_bytes out.new ≡ string_bytes out.old ++ flat_map (refusal_sample node) refusals.now) }
{
    for told in refusals {
        print_refusal(out, node, told)?;
    }
    Ok(())
}

fn print_all_refusals(out: &mut String, nodes: &[NodeStatus]) -> Result<(), AllocError>
    ensures { OnOk result (string_bytes out.new ≡ string_bytes out.old ++ flat_map refusal_samples nodes.now) }
{
    for node in nodes {
        print_refusals(out, node.place.node, node.refusals.as_slice())?;
    }
    Ok(())
}

#[tactic(auto, unfolding(crate::specs::Metrics::started_family))]
fn print_started(out: &mut String, started: u64) -> Result<(), AllocError>
    ensures { OnOk result (string_bytes out.new ≡ string_bytes out.old ++ started_family started) }
{
    let name = "cinoweta_start_time_seconds";
    let help = "When the program was started, in Unix time.";
    writeln!(
        out,
        "# HELP {name} {help}\n# TYPE {name} gauge\n{name} {started}"
    )
}

#[tactic(auto, unfolding(crate::specs::Metrics::version_start))]
fn print_version_start(out: &mut String, version: &str) -> Result<(), AllocError>
    ensures { OnOk result (string_bytes out.new ≡ string_bytes out.old ++ version_start version.now) }
{
    let name = "cinoweta_build_info";
    let help = "1, with the version of the program, and the layout that it writes.";
    write!(
        out,
        "# HELP {name} {help}\n# TYPE {name} gauge\n{name}{{version=\"{version}\""
    )
}

#[tactic(auto, unfolding(crate::specs::Metrics::layout_label))]
fn print_layout(out: &mut String, layout: u8) -> Result<(), AllocError>
    ensures { OnOk result (string_bytes out.new ≡ string_bytes out.old ++ layout_label layout) }
{
    writeln!(out, ",layout=\"{layout}\"}} 1")
}

#[tactic(auto, using(crate::proofs::Appends::two))]
fn print_version(out: &mut String, version: &str, layout: u8) -> Result<(), AllocError>
    ensures { OnOk result (string_bytes out.new ≡ string_bytes out.old ++ version_family version.now layout) }
{
    print_version_start(out, version)?;
    print_layout(out, layout)
}

fn print_value(out: &mut String, name: &str, value: u64) -> Result<(), AllocError>
    ensures { OnOk result (string_bytes out.new ≡ string_bytes out.old ++ value_line name.now value) }
{
    writeln!(out, "{name} {value}")
}

#[tactic(auto, using(crate::proofs::Appends::two))]
fn print_gauge(out: &mut String, name: &str, help: &str, value: u64) -> Result<(), AllocError>
    ensures { OnOk result (string_bytes out.new ≡ string_bytes out.old ++ gauge_of name.now help.now value) }
{
    print_head(out, name, help, "gauge")?;
    print_value(out, name, value)
}

fn print_process_family(
    out: &mut String,
    name: &str,
    help: &str,
    value: Option<u64>,
) -> Result<(), AllocError>
    ensures { OnOk result (string_bytes out.new ≡ string_bytes out.old ++ process_family name.now help.now value) }
{
    match value {
        None => Ok(()),
        Some(value) => print_gauge(out, name, help, value),
    }
}

#[tactic(auto, unfolding(crate::specs::Metrics::begun_family))]
fn print_begun(out: &mut String, started: u64) -> Result<(), AllocError>
    ensures { OnOk result (string_bytes out.new ≡ string_bytes out.old ++ begun_family started) }
{
    print_process_family(
        out,
        "process_start_time_seconds",
        "Start time of the process since unix epoch in seconds.",
        Some(started),
    )
}

#[tactic(auto, unfolding(crate::specs::Metrics::resident_family))]
fn print_resident(out: &mut String, process: &Process) -> Result<(), AllocError>
    ensures { OnOk result (string_bytes out.new ≡ string_bytes out.old ++ resident_family process.now) }
{
    print_process_family(
        out,
        "process_resident_memory_bytes",
        "Resident memory size in bytes.",
        process.resident_bytes,
    )
}

#[tactic(auto, unfolding(crate::specs::Metrics::open_family))]
fn print_open_fds(out: &mut String, process: &Process) -> Result<(), AllocError>
    ensures { OnOk result (string_bytes out.new ≡ string_bytes out.old ++ open_family process.now) }
{
    print_process_family(
        out,
        "process_open_fds",
        "Number of open file descriptors.",
        process.open_fds,
    )
}

#[tactic(auto, unfolding(crate::specs::Metrics::max_family))]
fn print_max_fds(out: &mut String, process: &Process) -> Result<(), AllocError>
    ensures { OnOk result (string_bytes out.new ≡ string_bytes out.old ++ max_family process.now) }
{
    print_process_family(
        out,
        "process_max_fds",
        "Maximum number of open file descriptors.",
        process.max_fds,
    )
}

#[tactic(auto, using(crate::proofs::Appends::four))]
fn print_process(out: &mut String, started: u64, process: &Process) -> Result<(), AllocError>
    ensures { OnOk result (string_bytes out.new ≡ string_bytes out.old ++ process_families started process.now) }
{
    print_begun(out, started)?;
    print_resident(out, process)?;
    print_open_fds(out, process)?;
    print_max_fds(out, process)
}

#[tactic(auto, unfolding(crate::specs::Metrics::identity_sample))]
fn print_identity_sample(out: &mut String, identity: &str) -> Result<(), AllocError>
    ensures { OnOk result (string_bytes out.new ≡ string_bytes out.old ++ identity_sample identity.now) }
{
    let name = "cinoweta_ring_info";
    let help = "1, with the identity of the ring.";
    writeln!(
        out,
        "# HELP {name} {help}\n# TYPE {name} gauge\n{name}{{ring=\"{identity}\"}} 1"
    )
}

fn print_identity(out: &mut String, identity: Option<&str>) -> Result<(), AllocError>
    ensures { OnOk result (string_bytes out.new ≡ string_bytes out.old ++ identity_family (option_map (λ text. text.now) identity.entry)) }
{
    match identity {
        None => Ok(()),
        Some(identity) => print_identity_sample(out, identity),
    }
}

#[tactic(auto, using(crate::proofs::Appends::four))]
fn print_program(
    out: &mut String,
    ring: &RingStatus<'_>,
    process: &Process,
) -> Result<(), AllocError>
    ensures { OnOk result (string_bytes out.new ≡ string_bytes out.old ++ program_told ring.now process.now) }
{
    print_version(out, ring.version, LAYOUT)?;
    print_identity(out, ring.ring)?;
    print_started(out, ring.started)?;
    print_process(out, ring.started, process)
}

#[tactic(auto, unfolding(crate::specs::Metrics::refusals_head))]
fn print_refusals_head(out: &mut String) -> Result<(), AllocError>
    ensures { OnOk result (string_bytes out.new ≡ string_bytes out.old ++ refusals_head) }
{
    print_head(
        out,
        "cinoweta_refusals_total",
        "Refusals that clients were told since the start, by their number.",
        "counter",
    )
}

#[tactic(auto, using(crate::proofs::Appends::two), unfolding(crate::specs::Metrics::refusals_family))]
fn print_refusals_family(out: &mut String, nodes: &[NodeStatus]) -> Result<(), AllocError>
    ensures { OnOk result (string_bytes out.new ≡ string_bytes out.old ++ refusals_family nodes.now) }
{
    print_refusals_head(out)?;
    print_all_refusals(out, nodes)
}

#[tactic(auto, unfolding(crate::specs::Metrics::bucket))]
fn print_bucket(out: &mut String, node: u8, bound: &str, count: u64) -> Result<(), AllocError>
    ensures { OnOk result (string_bytes out.new ≡ string_bytes out.old ++ bucket node bound.now count) }
{
    writeln!(
        out,
        "cinoweta_commit_seconds_bucket{{node=\"{node}\",le=\"{bound}\"}} {count}"
    )
}

fn print_each_within(out: &mut String, node: u8, within: &[WithinCount]) -> Result<(), AllocError>
    ensures { OnOk result (string_bytes out.new ≡ string_bytes out.old ++ flat_map (within_sample node) within.now) }
{
    for told in within {
        print_bucket(out, node, told.bound.seconds(), told.count)?;
    }
    Ok(())
}

#[tactic(auto, unfolding(crate::specs::Metrics::commit_sum))]
fn print_commit_sum(out: &mut String, node: u8, micros: u64) -> Result<(), AllocError>
    ensures { OnOk result (string_bytes out.new ≡ string_bytes out.old ++ commit_sum node micros) }
{
    writeln!(
        out,
        "cinoweta_commit_seconds_sum{{node=\"{node}\"}} {micros}e-6"
    )
}

#[tactic(auto, unfolding(crate::specs::Metrics::commit_count))]
fn print_commit_count(out: &mut String, node: u8, count: u64) -> Result<(), AllocError>
    ensures { OnOk result (string_bytes out.new ≡ string_bytes out.old ++ commit_count node count) }
{
    writeln!(
        out,
        "cinoweta_commit_seconds_count{{node=\"{node}\"}} {count}"
    )
}

#[tactic(auto, using(crate::proofs::Appends::three))]
fn print_commit_totals(out: &mut String, node: u8, times: &CommitTimes) -> Result<(), AllocError>
    ensures { OnOk result (string_bytes out.new ≡ string_bytes out.old ++ commit_totals node times.now) }
{
    print_bucket(out, node, "+Inf", times.count)?;
    print_commit_sum(out, node, times.micros)?;
    print_commit_count(out, node, times.count)
}

#[tactic(auto, using(crate::proofs::Appends::two))]
fn print_commits(out: &mut String, node: &NodeStatus) -> Result<(), AllocError>
    ensures { OnOk result (string_bytes out.new ≡ string_bytes out.old ++ commit_samples node.now) }
{
    let number = node.place.node.number();
    print_each_within(out, number, node.commits.within.as_slice())?;
    print_commit_totals(out, number, &node.commits)
}

fn print_all_commits(out: &mut String, nodes: &[NodeStatus]) -> Result<(), AllocError>
    ensures { OnOk result (string_bytes out.new ≡ string_bytes out.old ++ flat_map commit_samples nodes.now) }
{
    for node in nodes {
        print_commits(out, node)?;
    }
    Ok(())
}

#[tactic(auto, unfolding(crate::specs::Metrics::commits_head))]
fn print_commits_head(out: &mut String) -> Result<(), AllocError>
    ensures { OnOk result (string_bytes out.new ≡ string_bytes out.old ++ commits_head) }
{
    print_head(
        out,
        "cinoweta_commit_seconds",
        "How long batches and checkpoints took since the start, those that failed too.",
        "histogram",
    )
}

#[tactic(auto, using(crate::proofs::Appends::two), unfolding(crate::specs::Metrics::commits_family))]
fn print_commits_family(out: &mut String, nodes: &[NodeStatus]) -> Result<(), AllocError>
    ensures { OnOk result (string_bytes out.new ≡ string_bytes out.old ++ commits_family nodes.now) }
{
    print_commits_head(out)?;
    print_all_commits(out, nodes)
}

#[tactic(auto, using(crate::proofs::Appends::four), unfolding(crate::specs::Metrics::metrics_body))]
fn print_all(out: &mut String, ring: &RingStatus<'_>, process: &Process) -> Result<(), AllocError>
    ensures { OnOk result (string_bytes out.new ≡ string_bytes out.old ++ metrics_told ring.now process.now) }
{
    print_program(out, ring, process)?;
    print_families(out, Metric::all(), ring.nodes)?;
    print_commits_family(out, ring.nodes)?;
    print_refusals_family(out, ring.nodes)
}

/// The numbers of a ring, and of its process, in the text format of Prometheus, version 0.0.4. Refused for want of memory alone.
pub fn metrics_text(
    alloc: Global,
    ring: &RingStatus<'_>,
    process: &Process,
) -> Result<String, AllocError>
    ensures { IfOk result (λ text. string_bytes text ≡ metrics_told ring.now process.now) }
{
    let mut out = String::new(alloc);
    print_all(&mut out, ring, process)?;
    Ok(out)
}
