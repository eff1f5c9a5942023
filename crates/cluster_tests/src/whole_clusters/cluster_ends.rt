//! What a whole cluster answers if its gate or a stop ends it, and what its clients get.
use crate::whole_clusters::cluster_asserting::assert_same;
use crate::whole_clusters::cluster_calls::{books_at_the_end, clusters_of, lock, site, use_name};
use crate::whole_clusters::cluster_values::{CAUSES, Counting, node};
use crate::whole_clusters::plays::{Scene, play};
use ra_cluster::{Book, BookError, CallError, Cluster, OpenGate, SiteError, Stop};
use ra_stamp::Mode;
use std::alloc::Global;
use std::process::Abort;
use std::sync::Wait;
use std::sync::atomic::Ordering;
use std::thread::Threads;
use test_support::{At, assert_prints, r, row};

/// What a client meets that locks and unlocks a name: whether it is let in and, if it is, whether it gives the name
/// back.
type Met = Result<Result<(), SiteError>, CallError>;

/// A gate of two nodes.
pub struct Passed {
    /// How many steps it lets pass.
    steps: u64,
    /// What a client of node 1 meets then.
    met: Met,
    /// How many events each node has.
    events: (u64, u64),
}

/// A client that the gate did not let in.
const NOT_LET_IN: Met = Err(CallError::Site(SiteError::Stopped(Stop::Gate)));

/// The steps are the ask, the REQUEST that comes to node 2, the REPLY that comes to node 1, and the leave.
const PASSED: &[Passed] = &[
    Passed {
        steps: 0,
        met: NOT_LET_IN,
        events: (0, 0),
    },
    Passed {
        steps: 1,
        met: NOT_LET_IN,
        events: (1, 0),
    },
    Passed {
        steps: 2,
        met: NOT_LET_IN,
        events: (1, 1),
    },
    Passed {
        steps: 3,
        met: Ok(Err(SiteError::Stopped(Stop::Gate))),
        events: (2, 1),
    },
    Passed {
        steps: 4,
        met: Ok(Ok(())),
        events: (3, 1),
    },
];

/// Has client 1 of node 1 lock the name and unlock it.
fn work<R: Wait + Abort>(rt: &R, alloc: Global, cluster: &Cluster<&Counting>) -> Met {
    match use_name(rt, alloc, cluster, node(rt, 1), 1, None) {
        Ok(held) => Ok(held.unlocked),
        Err(refused) => Err(refused),
    }
}

/// Has it do so while the nodes carry their frames. Asserts that it meets this.
fn assert_met<R: AllocGlobal + Threads + Wait + Abort + Sync>(
    rt: &R,
    at: At<'_>,
    cluster: &Cluster<&Counting>,
    met: Met,
) {
    let came = cluster.run(rt, rt.alloc(), || work(rt, rt.alloc(), cluster));
    assert_same(rt, at, &came, &met);
}

/// Returns how many events the books of two nodes have.
fn events_of(books: &[Book]) -> Option<(u64, u64)> {
    match books {
        [one, two] => Some((one.events().len(), two.events().len())),
        _ => None,
    }
}

/// Asserts that a client of two nodes meets what a row says, that the nodes have as many events, and that the gate was
/// asked about each step, and about the one that it refuses, too.
pub fn pass<R: AllocGlobal + Threads + Wait + Abort + Sync>(rt: &R, row: &Passed) {
    let Passed {
        steps,
        met,
        events: due,
    } = *row;
    let at = At("the gate of a cluster", "steps that pass:", steps as usize);
    let gate = Counting::new(steps, true);
    let clusters = clusters_of(rt.alloc(), 2, 0, &gate);
    if let Some(cluster) = clusters.first() {
        assert_met(rt, at, cluster, met);
    }
    let events = events_of(&books_at_the_end(rt.alloc(), clusters));
    assert_same(rt, at, &events, &Some(due));
    let (asked, refused) = (gate.steps.load(Ordering::SeqCst), steps.saturating_add(1));
    // All of four steps pass. If fewer may pass, the next one is refused, and others may come after it.
    if steps == 4 {
        assert_same(rt, at, &asked, &steps);
    } else {
        assert_same(rt, at, &asked.min(refused), &refused);
    }
}

#[test]
fn the_gate_of_a_cluster_is_asked_before_each_step_of_each_node(rt: HostRuntime) {
    for row in PASSED {
        play(&rt, Scene::Gate(row));
    }
}

/// Stops a cluster for this cause, and waits until the pumps of its nodes end, one after the other.
fn stop_and_pump<R: AllocGlobal + Wait + Abort>(rt: &R, cluster: &Cluster<OpenGate>, cause: Stop) {
    cluster.stop(rt, cause);
    // The first cause is kept.
    cluster.stop(rt, Stop::Gate);
    for number in 1..=cluster.nodes() {
        // It would wait forever if the post were open.
        cluster.pump(rt, rt.alloc(), node(rt, number));
    }
}

/// Asserts that all nodes of a cluster are stopped for this cause, and that a client of the last one is refused since
/// it is stopped.
fn assert_stopped<R: AllocGlobal + Wait + Abort>(
    rt: &R,
    cluster: &Cluster<OpenGate>,
    nodes: u16,
    cause: Stop,
) {
    let words = "a cluster is stopped";
    for number in 1..=nodes {
        let at = At(words, "node", usize::from(number));
        assert_same(rt, at, &site(rt, cluster, number).fault(rt), &Some(cause));
    }
    let came = lock(
        rt,
        rt.alloc(),
        cluster,
        node(rt, nodes),
        1,
        r(),
        Mode::Shared,
    );
    let at = At(words, "a client of node", usize::from(nodes));
    assert_same(rt, at, &came, &Err(refused(BookError::Failed)));
}

/// Stops a cluster of this many nodes for this cause. Ends the test if anything else happens.
pub fn stop<R: AllocGlobal + Wait + Abort>(rt: &R, nodes: u16, cause: Stop) {
    let clusters = clusters_of(rt.alloc(), nodes, 0, OpenGate);
    match clusters.first() {
        Some(cluster) => {
            stop_and_pump(rt, cluster, cause);
            assert_stopped(rt, cluster, nodes, cause);
        }
        None => panic!(rt; "there is no cluster to be stopped"),
    }
}

#[test]
fn a_stop_of_a_cluster_stops_all_nodes_for_its_cause_and_ends_the_pumps(rt: HostRuntime) {
    for nodes in 1..=3u16 {
        for cause in CAUSES {
            play(&rt, Scene::Stop(nodes, *cause));
        }
    }
}

/// Returns the answer of a call that a book refuses for this reason.
fn refused(reason: BookError) -> CallError {
    CallError::Site(SiteError::Refused(reason))
}

/// Has a client of a single node lock a name twice. Numbers begin after `start`. Asserts that it is refused at this
/// turn, for this reason.
fn assert_refused<R: AllocGlobal + Wait + Abort>(rt: &R, start: u64, turn: usize, due: BookError) {
    let clusters = clusters_of(rt.alloc(), 1, start, OpenGate);
    for place in 0..=turn {
        let came = match clusters.first() {
            Some(cluster) => {
                lock(
                    rt,
                    rt.alloc(),
                    cluster,
                    node(rt, 1),
                    1,
                    r(),
                    Mode::Exclusive,
                )
                .err()
            }
            None => None,
        };
        let due = if place == turn {
            Some(refused(due))
        } else {
            None
        };
        let at = At("a client locks twice", "lock", place.saturating_add(1));
        assert_same(rt, at, &came, &due);
    }
}

#[test]
fn a_refused_lock_of_a_cluster_tells_why(rt: HostRuntime) {
    // The client holds the name.
    assert_refused(&rt, 0, 1, BookError::Busy);
    // No number is left.
    assert_refused(&rt, u64::MAX, 0, BookError::Exhausted);
}

/// Why a call of a cluster failed, and the word of it.
const CALL_ERRORS: &[(CallError, &str)] = &[
    (CallError::NoNode, "NoNode"),
    (CallError::Site(SiteError::Refused(BookError::Busy)), "Busy"),
    (CallError::Site(SiteError::Stopped(Stop::Gate)), "Gate"),
];

#[test]
fn why_a_call_of_a_cluster_failed_is_printed_as_its_word(rt: HostRuntime) {
    assert_prints!(&rt, CALL_ERRORS);
}

/// Has a cluster run a closure that starts no client, and asserts that it returns what that returns.
fn assert_run<R: AllocGlobal + Threads + Wait + Abort + Sync>(
    rt: &R,
    at: At<'_>,
    cluster: &Cluster<OpenGate>,
) {
    assert_same(rt, at, &cluster.run(rt, rt.alloc(), || -> u8 { 7 }), &7);
}

/// Does so with a cluster of three nodes. Ends the test if anything else happens.
pub fn run_nothing<R: AllocGlobal + Threads + Wait + Abort + Sync>(rt: &R) {
    let at = row("a closure that starts no client");
    let clusters = clusters_of(rt.alloc(), 3, 0, OpenGate);
    if let Some(cluster) = clusters.first() {
        assert_run(rt, at, cluster);
    }
    assert_same(rt, at, &books_at_the_end(rt.alloc(), clusters).len(), &3);
}

#[test]
fn a_cluster_ends_its_pumps_when_the_closure_returns(rt: HostRuntime) {
    play(&rt, Scene::Nothing);
}
