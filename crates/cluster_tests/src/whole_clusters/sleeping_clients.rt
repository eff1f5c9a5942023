//! Several clients asleep at one node of a cluster: what a watchdog sees of them, and which client wakes when.
use crate::whole_clusters::cluster_clients::Act::{
    HaveEnded, LetsSleep, Locks, RefusesToLock, Sees, Starts, Stops, Unlocks,
};
use crate::whole_clusters::cluster_clients::Task::{Gets, IsTold, IsToldOfS};
use crate::whole_clusters::cluster_clients::{QUIET, Row, Seen};
use crate::whole_clusters::cluster_values::CAUSES;
use crate::whole_clusters::plays::{Scene, play};
use ra_cluster::{BookError, CallError, SiteError, Stop};

/// The clients of node 1 of two ask for one of two names, one after the other. Node 2 takes no frame, so nobody is let
/// in: the first to ask for a name waits for node 2, and those after it are queued. Then they all wait, and the cluster
/// is stopped.
const ASLEEP: &Row = &Row {
    words: "five clients ask, and all are told of a stop",
    nodes: 2,
    start: 0,
    acts: &[
        Starts(IsTold(1, 1)),
        Sees(
            1,
            Seen {
                waiting: 1,
                events: 1,
                ..QUIET
            },
        ),
        Starts(IsToldOfS(1, 2)),
        Sees(
            1,
            Seen {
                waiting: 2,
                events: 2,
                ..QUIET
            },
        ),
        Starts(IsTold(1, 3)),
        Sees(
            1,
            Seen {
                waiting: 2,
                queued: 1,
                events: 3,
                ..QUIET
            },
        ),
        Starts(IsTold(1, 4)),
        Sees(
            1,
            Seen {
                waiting: 2,
                queued: 2,
                events: 4,
                ..QUIET
            },
        ),
        Starts(IsToldOfS(1, 5)),
        Sees(
            1,
            Seen {
                waiting: 2,
                queued: 3,
                events: 5,
                ..QUIET
            },
        ),
        LetsSleep,
        Stops,
        HaveEnded(5),
    ],
    settles: None,
};

#[test]
fn all_clients_that_sleep_at_a_node_are_told_the_cause_of_a_stop(rt: HostRuntime) {
    for cause in CAUSES {
        play(&rt, Scene::Clients(ASLEEP, *cause));
    }
}

/// How often two threads use one client number.
const ROUNDS: u32 = 200;

/// Two threads use client number 1 of a single node. The first waits for client 2 to leave the name. As soon as client
/// 2 leaves, the second one unlocks the name, which the first has by then, and asks for it again.
const SHARED: &Row = &Row {
    words: "two threads use one client number",
    nodes: 1,
    start: 0,
    acts: &[
        Locks(1, 2, 1),
        Starts(Gets(1, 1, 2)),
        Sees(
            1,
            Seen {
                holder: Some(2),
                queued: 1,
                events: 2,
                ..QUIET
            },
        ),
        RefusesToLock(1, 1, CallError::Site(SiteError::Refused(BookError::Busy))),
        Unlocks(1, 2),
        Unlocks(1, 1),
        Locks(1, 1, 3),
        HaveEnded(1),
    ],
    settles: None,
};

#[test]
fn a_thread_gets_no_grant_of_another_threads_request(rt: HostRuntime) {
    for _ in 0..ROUNDS {
        play(&rt, Scene::Clients(SHARED, Stop::Refused));
    }
}
