// What is told of a ring.
use crate::answers::rows::{IDENTITY, known, lead, node, nodes_in, ring_of};
use ring_records::NodeNo;
use ring_status::{
    Condition, Process, RingStatus, are_well, can_elect, health_text, latest_json, leaders_json,
    metrics_text, ready_text, resident_bytes, status_json,
};
use std::test::Fail;

/// The conditions of three nodes, whether the ring can elect, and what is told of both.
static HEALTH: [([Condition; 3], bool, &str, &str); 9] = [
    (
        [Condition::Well, Condition::Well, Condition::Well],
        true,
        "well\n",
        "ready\n",
    ),
    (
        [Condition::Limit, Condition::Failed, Condition::Full],
        false,
        "node 1 limit\nnode 2 failed\nnode 3 full\nhelp: see the disk, and start ringd again\n",
        "node 1 limit\nnode 2 failed\nnode 3 full\n",
    ),
    (
        [Condition::Well, Condition::Full, Condition::Well],
        false,
        "node 2 full\nhelp: retire old terms\n",
        "node 2 full\n",
    ),
    (
        [Condition::Well, Condition::Well, Condition::Failed],
        false,
        "node 3 failed\nhelp: see the disk, and start ringd again\n",
        "node 3 failed\n",
    ),
    (
        [Condition::Hangs, Condition::Well, Condition::Full],
        false,
        "node 1 hangs\nnode 3 full\nhelp: see the disk\n",
        "node 1 hangs\nnode 3 full\n",
    ),
    // a node at its limit passes messages on
    (
        [Condition::Limit, Condition::Well, Condition::Limit],
        true,
        "node 1 limit\nnode 3 limit\nhelp: retire old terms, or stand at other nodes\n",
        "ready\n",
    ),
    (
        [Condition::Limit, Condition::Limit, Condition::Limit],
        false,
        "node 1 limit\nnode 2 limit\nnode 3 limit\nhelp: retire old terms, or stand at other nodes\n",
        "node 1 limit\nnode 2 limit\nnode 3 limit\n",
    ),
    (
        [Condition::Limit, Condition::Hangs, Condition::Well],
        false,
        "node 1 limit\nnode 2 hangs\nhelp: see the disk\n",
        "node 2 hangs\n",
    ),
    (
        [Condition::Limit, Condition::Full, Condition::Limit],
        false,
        "node 1 limit\nnode 2 full\nnode 3 limit\nhelp: retire old terms\n",
        "node 1 limit\nnode 2 full\nnode 3 limit\n",
    ),
];

#[test]
fn health_and_readiness(rt: HostRuntime) -> Result<(), Fail> {
    for row in &HEALTH {
        let (conditions, elects, health, ready) = *row;
        let nodes = nodes_in(&rt, rt.alloc(), &conditions)?;
        assert!(rt; health_text(rt.alloc(), &nodes, &[])?.as_str() == health);
        assert!(rt; are_well(&nodes) == (health == "well\n"));
        assert!(rt; can_elect(&nodes) == elects);
        assert!(rt; ready_text(rt.alloc(), &nodes)?.as_str() == ready);
    }
    Ok(())
}

#[test]
fn doors(rt: HostRuntime) -> Result<(), Fail> {
    let without = [NodeNo::first(), NodeNo::new(2)?];
    let nodes = nodes_in(&rt, rt.alloc(), &[Condition::Well, Condition::Full])?;
    assert!(rt;
        health_text(rt.alloc(), &[], &without[..1])?.as_str()
            == "node 1 has no door free\nhelp: give more doors, or less idle time\n"
    );
    assert!(rt;
        health_text(rt.alloc(), &nodes, &without)?.as_str()
            == "node 2 full\nnode 1 has no door free\nnode 2 has no door free\nhelp: retire old terms\n"
    );
    Ok(())
}

#[test]
fn status(rt: HostRuntime) -> Result<(), Fail> {
    let mut nodes = Vec::new(rt.alloc());
    nodes.push(node(&rt, rt.alloc(), 2, Condition::Limit)?)?;
    let doorless = [NodeNo::first()];
    let ring = ring_of(IDENTITY, "a\"b", "--always --idle 5", &nodes, &doorless);
    assert!(rt;
        status_json(rt.alloc(), &ring)?.as_str()
            == "{\"dir\":\"a\\\"b\",\"doorless\":[1],\"idle\":5,\"nodes\":[{\"elections\":18,\"journal\":{\"batches\":5,\"capacity\":65536,\"checkpoint_age\":21,\"checkpoints\":13,\"durable\":29,\
         \"epoch\":14,\"inputs\":30,\"layout\":3,\"refused\":16,\"renewable\":true,\"snapshot\":345,\"syncs\":6,\"used\":1234,\"writing\":12},\"messages\":{\"credit\":10,\"refused\":17,\"sent\":12,\"taken\":11,\
         \"waiting\":9},\"node\":2,\"port\":7102,\"sessions\":{\"begun\":8,\"busy\":3,\"doors\":4,\"refusals\":[{\"count\":2,\"number\":4},\
         {\"count\":1,\"number\":25}]},\"stands\":{\"floors\":15,\"left\":1017,\"taken\":7},\"state\":\"limit\"}],\"ring\":\"00112233445566778899aabbccddeeff\",\
         \"started\":1700000000,\"version\":\"0.1.0\",\"words\":\"--always --idle 5\"}"
    );
    Ok(())
}

#[test]
fn no_identity(rt: HostRuntime) -> Result<(), Fail> {
    let ring = RingStatus {
        version: "0.1.0",
        ring: None,
        dir: "a",
        started: 0,
        words: "",
        idle: 0,
        nodes: &[],
        doorless: &[],
    };
    assert!(rt;
        status_json(rt.alloc(), &ring)?.as_str()
            == "{\"dir\":\"a\",\"doorless\":[],\"idle\":0,\"nodes\":[],\"ring\":null,\"started\":0,\
         \"version\":\"0.1.0\",\"words\":\"\"}"
    );
    Ok(())
}

#[test]
fn leaders(rt: HostRuntime) -> Result<(), Fail> {
    let first = lead(&rt, "blue", 7, 3, 2);
    let second = lead(&rt, "red", 5, 10, 1);
    let node = NodeNo::first();
    assert!(rt;
        leaders_json(rt.alloc(), node, &[first, second], true)?.as_str()
            == "{\"by\":1,\"leaders\":[{\"bid\":3,\"group\":\"blue\",\"node\":2,\"term\":7},{\"bid\":10,\"group\":\"red\",\
         \"node\":1,\"term\":5}],\"more\":true}"
    );
    assert!(rt;
        leaders_json(rt.alloc(), node, &[], false)?.as_str()
            == "{\"by\":1,\"leaders\":[],\"more\":false}"
    );
    assert!(rt;
        latest_json(rt.alloc(), node, &second, &known(true, false, "on \"a\""))?.as_str()
            == "{\"by\":1,\"leader\":{\"bid\":10,\"group\":\"red\",\"node\":1,\"term\":5},\"present\":true,\"resigned\":false,\"text\":\"on \\\"a\\\"\"}"
    );
    assert!(rt;
        latest_json(rt.alloc(), node, &first, &known(false, true, ""))?.as_str()
            == "{\"by\":1,\"leader\":{\"bid\":3,\"group\":\"blue\",\"node\":2,\"term\":7},\"present\":false,\"resigned\":true,\"text\":\"\"}"
    );
    Ok(())
}

#[test]
fn metrics(rt: HostRuntime) -> Result<(), Fail> {
    let mut nodes = Vec::new(rt.alloc());
    nodes.push(node(&rt, rt.alloc(), 1, Condition::Well)?)?;
    nodes.push(node(&rt, rt.alloc(), 2, Condition::Full)?)?;
    let ring = RingStatus {
        version: "0.1.0",
        ring: Some(IDENTITY),
        dir: "state",
        started: 1_700_000_000,
        words: "--always --idle 5",
        idle: 5,
        nodes: &nodes,
        doorless: &[],
    };
    let process = Process {
        resident_bytes: Some(11_534_336),
        open_fds: Some(24),
        max_fds: None,
    };
    let text = metrics_text(rt.alloc(), &ring, &process)?;
    // 37 families of two lines each, a line for each node in 29 of them, two of them with five lines of commits and two
    // refusals, version, ring and start, and three of the process
    assert!(rt; text.as_str().lines().count() == 37 * 2 + 29 * 2 + 2 * 5 + 2 * 2 + 3 + 3);
    assert!(rt; !text.as_str().contains("process_max_fds"));
    for part in [
        "# HELP cinoweta_build_info 1, with the version of the program, and the layout that it \
         writes.\n# TYPE cinoweta_build_info \
         gauge\ncinoweta_build_info{version=\"0.1.0\",layout=\"3\"} 1\n# HELP cinoweta_ring_info 1, with the identity of the \
         ring.\n# TYPE cinoweta_ring_info gauge\ncinoweta_ring_info{ring=\"00112233445566778899aabbccddeeff\"} 1\n",
        "# HELP cinoweta_messages_refused_total Messages that the node refused for want of room since the start.\n# TYPE \
         cinoweta_messages_refused_total counter\ncinoweta_messages_refused_total{node=\"1\"} 17\n",
        "# HELP cinoweta_elections_total Leaders that became known to the node since the start.\n# TYPE \
         cinoweta_elections_total counter\ncinoweta_elections_total{node=\"1\"} 18\n",
        "# HELP cinoweta_start_time_seconds When the program was started, in Unix time.\n# TYPE \
         cinoweta_start_time_seconds gauge\ncinoweta_start_time_seconds 1700000000\n",
        "# HELP process_start_time_seconds Start time of the process since unix epoch in seconds.\n# TYPE \
         process_start_time_seconds gauge\nprocess_start_time_seconds 1700000000\n# HELP \
         process_resident_memory_bytes Resident memory size in bytes.\n# TYPE process_resident_memory_bytes \
         gauge\nprocess_resident_memory_bytes 11534336\n# HELP process_open_fds Number of open file descriptors.\n# \
         TYPE process_open_fds gauge\nprocess_open_fds 24\n# HELP cinoweta_node_failed ",
        "# HELP cinoweta_node_full Whether the node has no room for a Stand or a message.\n# TYPE cinoweta_node_full \
         gauge\ncinoweta_node_full{node=\"1\"} 0\ncinoweta_node_full{node=\"2\"} 1\n",
        "# HELP cinoweta_writing_seconds Seconds for which its device has been busy with one of these.\n# TYPE \
         cinoweta_writing_seconds gauge\ncinoweta_writing_seconds{node=\"1\"} 12\n",
        "# HELP cinoweta_refused_rounds_total Rounds refused for want of memory since the start.\n# TYPE \
         cinoweta_refused_rounds_total counter\ncinoweta_refused_rounds_total{node=\"1\"} 16\n",
        "# HELP cinoweta_floors Groups with a floor, below which terms are retired.\n# TYPE cinoweta_floors \
         gauge\ncinoweta_floors{node=\"1\"} 15\ncinoweta_floors{node=\"2\"} 15\n",
        "# TYPE cinoweta_stands gauge\ncinoweta_stands{node=\"1\"} 7\n",
        "# HELP cinoweta_journal_layout Layout of that area.\n# TYPE cinoweta_journal_layout \
         gauge\ncinoweta_journal_layout{node=\"1\"} 3\n",
        "# HELP cinoweta_inputs_total Inputs that the node accepted.\n# TYPE cinoweta_inputs_total \
         counter\ncinoweta_inputs_total{node=\"1\"} 30\ncinoweta_inputs_total{node=\"2\"} 30\n",
        "cinoweta_letters_waiting{node=\"2\"} 9\n# HELP cinoweta_commit_seconds How long batches and checkpoints took since \
         the start, those that failed too.\n# TYPE cinoweta_commit_seconds \
         histogram\ncinoweta_commit_seconds_bucket{node=\"1\",le=\"0.001\"} \
         3\ncinoweta_commit_seconds_bucket{node=\"1\",le=\"10\"} \
         19\ncinoweta_commit_seconds_bucket{node=\"1\",le=\"+Inf\"} \
         20\ncinoweta_commit_seconds_sum{node=\"1\"} 21000022e-6\ncinoweta_commit_seconds_count{node=\"1\"} \
         20\ncinoweta_commit_seconds_bucket{node=\"2\",le=\"0.001\"} 3\n",
        "cinoweta_commit_seconds_count{node=\"2\"} 20\n# HELP cinoweta_refusals_total Refusals that clients were told since \
         the start, by their number.\n# TYPE cinoweta_refusals_total \
         counter\ncinoweta_refusals_total{node=\"1\",number=\"4\"} \
         2\ncinoweta_refusals_total{node=\"1\",number=\"25\"} 1\n",
    ] {
        assert!(rt; text.as_str().contains(part));
    }
    Ok(())
}

#[test]
fn the_process(rt: HostRuntime) {
    for (statm, page, wanted) in [
        ("2905 2816 1024 230 0 2600 0\n", 4_096, Some(11_534_336)),
        ("0 0 0", 4_096, Some(0)),
        ("1 999999999", 65_536, Some(65_535_999_934_464)),
        ("1 1000000000 1", 4_096, None),
        ("2905", 4_096, None),
        ("2905  2816", 4_096, None),
        ("", 4_096, None),
    ] {
        assert!(rt; resident_bytes(statm.as_bytes(), page) == wanted);
    }
}
