//! The threads that do a script, in a cluster that the test makes.
use crate::site_tests::site_ends::{Ended, assert_ended};
use crate::thread_scripts::letter_scripts::Does::{Locks, Shares, Unlocks};
use crate::thread_scripts::letter_scripts::{Client, USES_R, script_of};
use crate::whole_clusters::cluster_asserting::{assert_same, fail_at};
use crate::whole_clusters::cluster_calls::{books_at_the_end, clusters_of, site};
use crate::whole_clusters::cluster_values::entry;
use crate::whole_clusters::plays::{Scene, play};
use ra_cluster::{Cluster, Grant, OpenGate, ScriptRun, Stop, run_threads};
use ra_schedule::Script;
use ra_stamp::Mode;
use std::alloc::Global;
use std::process::Abort;
use std::sync::{Mutex, Wait};
use std::thread::Threads;
use test_support::{At, part};

/// The grant of `r` that is kept of a request.
#[derive(Clone, Copy)]
pub struct Granted {
    node: u16,
    client: u32,
    mode: Mode,
    seq: u64,
}

/// Has threads do a script in this cluster, and returns the grants that are kept.
pub fn run_in<R: Threads + Wait + Sync>(
    rt: &R,
    alloc: Global,
    script: &Script,
    cluster: &Cluster<OpenGate>,
) -> Vec<Grant> {
    let grants = Mutex::new(Vec::new(alloc));
    let run = ScriptRun {
        script,
        cluster,
        grants: &grants,
    };
    run_threads(rt, alloc, &run);
    grants.into_inner()
}

/// Asserts that the grants are these.
fn assert_granted(rt: &impl Abort, words: &str, came: &[Grant], all: &[Granted]) {
    for place in 0..all.len() {
        let Granted {
            node,
            client,
            mode,
            seq,
        } = all[place];
        let entry = entry(rt, node, client, mode, seq);
        let at = At(words, "grant", place + 1);
        assert_same(rt, at, &came.get(place).copied(), &Some(Grant { entry }));
    }
    let at = part(words, "how many grants");
    assert_same(rt, at, &came.len(), &all.len());
}

/// A client in a cluster of two nodes, one of which may be stopped before; the grants that are kept, and how the books
/// end.
pub struct Row {
    words: &'static str,
    /// The start: the numbers of `r` come after it.
    start: u64,
    stopped: Option<(u16, Stop)>,
    client: Client,
    granted: &'static [Granted],
    ended: &'static [Ended],
}

/// Stops a node if one is to be, and has the client of a row do its script in a cluster. Asserts that its grants are
/// kept.
fn assert_kept<R: AllocGlobal + Threads + Wait + Abort + Sync>(
    rt: &R,
    script: &Script,
    cluster: &Cluster<OpenGate>,
    row: &Row,
) {
    if let Some((number, stop)) = row.stopped {
        site(rt, cluster, number).stop(rt, stop);
    }
    assert_granted(
        rt,
        row.words,
        &run_in(rt, rt.alloc(), script, cluster),
        row.granted,
    );
}

/// Has the client of a row do this script. Asserts that its grants are kept, and that the books end as the row says.
fn assert_ends<R: AllocGlobal + Threads + Wait + Abort + Sync>(rt: &R, script: &Script, row: &Row) {
    let clusters = clusters_of(rt.alloc(), 2, row.start, OpenGate);
    if let Some(cluster) = clusters.first() {
        assert_kept(rt, script, cluster, row);
    }
    assert_ended(
        rt,
        row.words,
        &books_at_the_end(rt.alloc(), clusters),
        row.ended,
    );
}

/// Has the client of a row do its script. Ends the test if anything else happens.
pub fn perform<R: AllocGlobal + Threads + Wait + Abort + Sync>(rt: &R, row: &Row) {
    match script_of(rt.alloc(), 2, &[row.client]) {
        Some(script) => assert_ends(rt, &script, row),
        None => fail_at(rt, part(row.words, "at first"), "there is no such script"),
    }
}

/// A client locks `r` exclusively and unlocks it, and then shared.
const KEPT: &Row = &Row {
    words: "both grants are kept",
    start: 0,
    stopped: None,
    client: Client(
        1,
        &[Locks(b'r'), Unlocks(b'r'), Shares(b'r'), Unlocks(b'r')],
    ),
    granted: &[
        Granted {
            node: 1,
            client: 1,
            mode: Mode::Exclusive,
            seq: 1,
        },
        Granted {
            node: 1,
            client: 1,
            mode: Mode::Shared,
            seq: 2,
        },
    ],
    // Node 1 asks, gets a REPLY and leaves, twice, and node 2 gets two REQUESTs.
    ended: &[
        Ended {
            fault: None,
            events: 6,
        },
        Ended {
            fault: None,
            events: 2,
        },
    ],
};

#[test]
fn each_grant_is_kept(rt: HostRuntime) {
    play(&rt, Scene::Script(KEPT));
}

const STOPPED_NODE: &Row = &Row {
    words: "node 2 is stopped, and its client stops no other",
    start: 0,
    stopped: Some((2, Stop::Clock)),
    client: Client(2, USES_R),
    granted: &[],
    ended: &[
        Ended {
            fault: None,
            events: 0,
        },
        Ended {
            fault: Some(Stop::Clock),
            events: 0,
        },
    ],
};

#[test]
fn a_client_of_a_stopped_node_stops_no_other(rt: HostRuntime) {
    play(&rt, Scene::Script(STOPPED_NODE));
}

const REFUSED: &Row = &Row {
    words: "no number is left for any name, and the client of node 1 stops all",
    start: u64::MAX,
    stopped: None,
    client: Client(1, USES_R),
    granted: &[],
    ended: &[
        Ended {
            fault: Some(Stop::Exhausted),
            events: 0,
        },
        Ended {
            fault: Some(Stop::Exhausted),
            events: 0,
        },
    ],
};

#[test]
fn a_refusal_of_a_client_stops_all(rt: HostRuntime) {
    play(&rt, Scene::Script(REFUSED));
}
