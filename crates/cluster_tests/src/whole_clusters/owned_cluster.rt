//! A cluster whose sites, post and gate are kept in one value.
use crate::whole_clusters::cluster_asserting::assert_same;
use crate::whole_clusters::cluster_calls::new_cluster;
use crate::whole_clusters::cluster_clients::Act::{
    ClosesPost, HasGranted, HasNoNode, HaveEnded, Locks, RefusesToLock, RefusesToUnlock,
    RefusesToUse, Sees, Starts, Unlocks, UsesUntilAStop,
};
use crate::whole_clusters::cluster_clients::Task::{Carries, Uses};
use crate::whole_clusters::cluster_clients::{QUIET, Row, Seen};
use crate::whole_clusters::cluster_values::closed;
use crate::whole_clusters::plays::{Scene, play};
use ra_cluster::{BookError, CallError, NewPostError, OpenGate, SiteError, Stop};
use std::alloc::Global;
use test_support::At;

/// How many nodes there are, and why there is no cluster of this many, or `None` if there is one.
const COUNTS: &[(u16, Option<NewPostError>)] = &[
    (0, Some(NewPostError::BadCount)),
    (65, Some(NewPostError::BadCount)),
    (1, None),
    (64, None),
];

/// Returns how many nodes a cluster of this many has, and how many books when it is closed, or why none is made.
fn counts_of(alloc: Global, nodes: u16) -> Result<(u16, usize), NewPostError> {
    match new_cluster(alloc, nodes, 7, OpenGate) {
        Ok(cluster) => {
            let count = cluster.nodes();
            Ok((count, closed(alloc, cluster).len()))
        }
        Err(fault) => Err(fault),
    }
}

#[test]
fn a_cluster_has_1_to_64_nodes(rt: HostRuntime) {
    for place in 0..COUNTS.len() {
        let (nodes, fault) = COUNTS[place];
        let due = match fault {
            Some(fault) => Err(fault),
            None => Ok((nodes, usize::from(nodes))),
        };
        let at = At("a cluster", "with this many nodes:", usize::from(nodes));
        assert_same(&rt, at, &counts_of(rt.alloc(), nodes), &due);
    }
}

/// Client 1 of node 1 of two holds the name while client 2 asks for it and is queued. A node and clients that do not
/// exist are refused. Then client 1 leaves, and client 2 is let in with the number after that of client 1.
const HANDED_OVER: &Row = &Row {
    words: "client 1 hands the name over to client 2",
    nodes: 2,
    start: 7,
    acts: &[
        Starts(Carries(1)),
        Starts(Carries(2)),
        Locks(1, 1, 8),
        Starts(Uses(1, 2)),
        // Both asked, and the REPLY came.
        Sees(
            1,
            Seen {
                holder: Some(1),
                queued: 1,
                events: 3,
                ..QUIET
            },
        ),
        HasNoNode(3),
        RefusesToLock(3, 1, CallError::NoNode),
        RefusesToUnlock(3, 1, CallError::NoNode),
        RefusesToUnlock(
            1,
            9,
            CallError::Site(SiteError::Refused(BookError::NotHeld)),
        ),
        Unlocks(1, 1),
        HaveEnded(1),
        HasGranted(1, 2, 9),
        ClosesPost,
    ],
    settles: Some((2, 4)),
};

#[test]
fn a_cluster_hands_a_name_over_and_its_books_settle(rt: HostRuntime) {
    play(&rt, Scene::Clients(HANDED_OVER, Stop::Refused));
}

/// The cluster is stopped while a client of a single node holds the name, which the node holds forever then. A client
/// that comes later is refused.
const NOT_GIVEN_BACK: &Row = &Row {
    words: "the cluster is stopped while a client holds the name",
    nodes: 1,
    start: 0,
    acts: &[
        UsesUntilAStop(1, 1, SiteError::Refused(BookError::Failed)),
        RefusesToUse(1, 2, CallError::Site(SiteError::Refused(BookError::Failed))),
        Sees(
            1,
            Seen {
                fault: Some(Stop::Gate),
                holder: Some(1),
                events: 1,
                ..QUIET
            },
        ),
    ],
    settles: None,
};

#[test]
fn a_client_is_told_that_its_name_was_not_given_back(rt: HostRuntime) {
    play(&rt, Scene::Clients(NOT_GIVEN_BACK, Stop::Gate));
}
