//! Clients that wait at sites which threads share.
use crate::site_tests::site_ends::{Ended, Shown};
use crate::site_tests::site_steps::Step::{
    ClosesPost, ComesToBeStopped, ComesToStep, HasLeft, HaveEnded, LetsGo, LetsSleep, Locks,
    RefusesToLock, RefusesToUnlock, Starts, Stays, Stops, StopsAll, Unlocks,
};
use crate::site_tests::site_steps::Task::{Asks, Carries, Uses, UsesOften};
use crate::site_tests::site_steps::{Gone, Row, TWO_NODES};
use crate::whole_clusters::plays::play_sites;
use ra_cluster::{BookError, SiteError, Stop};

/// A cluster of a single node.
const ONE_NODE: Row = Row {
    nodes: 1,
    ..TWO_NODES
};

const WAITS: &[Row] = &[Row {
    words: "client 2 is let in after client 1",
    steps: &[
        Locks(1),
        Starts(Asks(1, 2)),
        ComesToStep(2),
        LetsSleep,
        Unlocks(1),
    ],
    shown: &[Shown::Granted(2, 2)],
    ..ONE_NODE
}];

#[test]
fn a_client_waits_for_another_of_its_node(rt: HostRuntime) {
    play_sites(&rt, WAITS);
}

const IS_STOPPED: &[Row] = &[Row {
    words: "the node is stopped while client 2 waits",
    steps: &[
        Locks(1),
        Starts(Asks(1, 2)),
        ComesToStep(2),
        LetsSleep,
        StopsAll(Stop::Refused),
    ],
    shown: &[Shown::Refused(SiteError::Stopped(Stop::Refused))],
    ..ONE_NODE
}];

/// If client 2 was not yet asleep it need not be woken, and then this says less.
#[test]
fn a_stop_ends_the_wait(rt: HostRuntime) {
    play_sites(&rt, IS_STOPPED);
}

const GRANTED: &[Row] = &[Row {
    words: "client 1 leaves, and at once the node is stopped",
    steps: &[
        Locks(1),
        Starts(Asks(1, 2)),
        ComesToStep(2),
        LetsSleep,
        Unlocks(1),
        StopsAll(Stop::Refused),
    ],
    shown: &[Shown::Granted(2, 2)],
    ..ONE_NODE
}];

/// The leave lets client 2 in, so it has its grant whatever comes before it looks. Mostly the stop does.
#[test]
fn a_grant_goes_before_a_fault(rt: HostRuntime) {
    for _ in 0..20u8 {
        play_sites(&rt, GRANTED);
    }
}

/// The leave is taken after the post was closed, and the request of client 2, which is stamped in its event, waits for
/// a node that does not get it.
const LEAVES: &[Row] = &[Row {
    words: "client 1 leaves after the post was closed",
    steps: &[
        Starts(Carries(1)),
        Starts(Carries(2)),
        Locks(1),
        Starts(Asks(1, 2)),
        ComesToStep(2),
        ClosesPost,
        Unlocks(1),
        StopsAll(Stop::Refused),
    ],
    shown: &[
        Shown::Refused(SiteError::Stopped(Stop::Send)),
        Shown::Sent(0, false),
        Shown::Sent(1, true),
        // Two asks, a REPLY and a leave; and a REQUEST.
        Shown::Books(&[
            Ended {
                fault: Some(Stop::Send),
                events: 4,
            },
            Ended {
                fault: Some(Stop::Send),
                events: 1,
            },
        ]),
    ],
    ..TWO_NODES
}];

#[test]
fn a_leave_is_taken_though_its_frame_is_lost(rt: HostRuntime) {
    play_sites(&rt, LEAVES);
}

/// At which turn of the client of node 1 the post is closed.
const CLOSING: u32 = 50;

/// A client at each of two nodes uses one name very often, and the client of node 1 closes the post.
const TRAFFIC: &[Row] = &[Row {
    words: "the post is closed under traffic",
    steps: &[
        Starts(Carries(1)),
        Starts(UsesOften(1, Some(CLOSING))),
        Starts(Carries(2)),
        Starts(UsesOften(2, None)),
    ],
    shown: &[
        Shown::Fault(1, Stop::Send),
        Shown::Fault(2, Stop::Send),
        Shown::LostAfter(CLOSING as usize),
    ],
    ..TWO_NODES
}];

#[test]
fn books_settle_if_the_post_is_closed_under_traffic(rt: HostRuntime) {
    play_sites(&rt, TRAFFIC);
}

/// Two numbers are left: one for client 1, which holds the name, and the last one for client 2 after it. Client 3
/// queues before the last number of its name is used, and client 4 comes later.
const NO_NUMBER_LEFT: &[Row] = &[Row {
    words: "the last number is used before the turn of client 3",
    start: u64::MAX - 2,
    steps: &[
        Locks(1),
        Starts(Uses(1, 2)),
        ComesToStep(2),
        Starts(Asks(1, 3)),
        ComesToStep(3),
        Unlocks(1),
        HaveEnded(1),
        RefusesToLock(1, 4, SiteError::Refused(BookError::Exhausted)),
        Stays(1),
        Stops(1, Stop::Refused),
    ],
    shown: &[
        Shown::Refused(SiteError::Stopped(Stop::Refused)),
        // The asks of three clients, and the leaves of two.
        Shown::Books(&[Ended {
            fault: Some(Stop::Refused),
            events: 5,
        }]),
        Shown::OneQueued,
    ],
    ..ONE_NODE
}];

#[test]
fn a_queue_with_no_number_left_waits_until_a_stop(rt: HostRuntime) {
    play_sites(&rt, NO_NUMBER_LEFT);
}

/// A thread is kept in a step of node 2 while another one loses the frame for node 2. Then node 1 is stopped, node 3 is
/// not, and the frame for node 3 has come. Otherwise a thread has the locks of two books, or stops the sites before the
/// last frame is sent.
const IN_TURN: &[Row] = &[Row {
    words: "node 2 is kept while node 1 loses its frame",
    nodes: 3,
    kept: 2,
    gone: Gone::Inbox(1),
    steps: &[
        Starts(Asks(2, 1)),
        ComesToStep(1),
        Starts(Asks(1, 1)),
        ComesToBeStopped(1),
        RefusesToUnlock(3, 2, SiteError::Refused(BookError::NotHeld)),
        ClosesPost,
        // The inbox of node 2 is gone, so the inbox of node 3 is the second.
        HasLeft {
            place: 1,
            node: 3,
            frames: 1,
        },
        LetsGo,
    ],
    shown: &[
        Shown::Sent(0, true),
        Shown::Sent(1, false),
        Shown::Fault(1, Stop::Send),
    ],
    ..TWO_NODES
}];

#[test]
fn sites_are_stopped_from_node_1_up_with_one_lock_at_a_time(rt: HostRuntime) {
    play_sites(&rt, IN_TURN);
}
