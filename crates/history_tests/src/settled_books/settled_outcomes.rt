//! Outcomes of settling books that recorded a script, or did not.
use crate::kept_books::book_steps::Call::{Ask, Leave, Receive};
use crate::kept_books::book_steps::Step::{Fails, Loses, Posts, Takes};
use crate::kept_books::book_steps::{ASK, ASKS, LEAVE, Turn};
use crate::kept_books::histories::Done::AtNode;
use crate::kept_books::histories::{Done, Granted, Made, ONE, TWO, books_after, grants_of};
use crate::kept_books::history_asserting::{assert_same, fail_at};
use Client::{Locks, Uses};
use ra_book::{Book, Grant, Stop};
use ra_cluster::{ClusterError, settle_script};
use ra_schedule::{Op, Script};
use ra_stamp::Mode;
use std::alloc::Global;
use std::process::Abort;
use test_support::{r, row};

/// What a client of node 1 does with `r`.
#[derive(Clone, Copy)]
enum Client {
    /// It locks it exclusively.
    Locks,
    /// It locks it exclusively, and unlocks it.
    Uses,
}

/// A script, books to which something was done, and grants that clients got.
struct Case {
    shows: &'static str,
    nodes: u16,
    clients: &'static [Client],
    made: &'static [Made],
    done: &'static [Done],
    granted: &'static [Granted],
    /// Why the books and grants do not settle into the end of the script, or `None` if they do.
    refusal: Option<ClusterError>,
}

/// Adds a client to a script. Returns whether that succeeds.
fn adds_client(alloc: Global, script: &mut Script, client: Client) -> bool {
    let is_added = script.add_client(alloc, 1).is_ok();
    let locks = is_added && script.add_op(Op::Lock(r(), Mode::Exclusive)).is_ok();
    match client {
        Locks => locks,
        Uses => locks && script.add_op(Op::Unlock(r())).is_ok(),
    }
}

/// Adds all clients to a script. Returns whether that succeeds.
fn adds_all(alloc: Global, script: &mut Script, clients: &[Client]) -> bool {
    for client in clients {
        if !adds_client(alloc, script, *client) {
            return false;
        }
    }
    true
}

/// Makes the script of a case, or none if memory runs out.
fn script_of(alloc: Global, case: &Case) -> Option<Script> {
    let mut script = Script::new(alloc, case.nodes).ok()?;
    let is_whole = adds_all(alloc, &mut script, case.clients);
    if is_whole { Some(script) } else { None }
}

/// Settles books and grants into the end of a script. Returns why they do not, or `None` if they do. The contract of
/// `settle_script` is long.
fn refusal_of(
    alloc: Global,
    script: &Script,
    books: &[Book],
    grants: &[Grant],
) -> Option<ClusterError> {
    match settle_script(alloc, script, books, grants) {
        Ok(_) => None,
        Err(found) => Some(found),
    }
}

/// Asserts that settling the books and the grants of a case with this script has its outcome.
fn assert_outcome(rt: &impl Abort, alloc: Global, case: &Case, script: &Script) {
    let books = books_after(rt, alloc, case.shows, case.made, case.done);
    let grants = grants_of(rt, alloc, case.granted);
    let at = row(case.shows);
    let lengths = (books.len(), grants.len());
    assert_same(rt, at, &lengths, &(case.made.len(), case.granted.len()));
    let came = refusal_of(alloc, script, &books, &grants);
    assert_same(rt, at, &came, &case.refusal);
}

/// Ends the test if a case has another outcome.
fn assert_outcomes<R: Abort + AllocGlobal>(rt: &R, cases: &[Case]) {
    for case in cases {
        match script_of(rt.alloc(), case) {
            Some(script) => assert_outcome(rt, rt.alloc(), case, &script),
            None => fail_at(rt, row(case.shows), "there is no such script"),
        }
    }
}

/// The books of two nodes before their first events, and a script of two nodes without clients.
const IDLE: Case = Case {
    shows: "two nodes without clients",
    nodes: 2,
    clients: &[],
    made: &[ONE, TWO],
    done: &[],
    granted: &[],
    refusal: None,
};

/// Books that do not settle.
const NOT_SETTLED: Case = Case {
    refusal: Some(ClusterError::Settle),
    ..IDLE
};

/// The book of the only node of a cluster.
const ALONE: Made = Made {
    me: 1,
    nodes: 1,
    start: 0,
};

/// The book of node 2 of two, from number 7.
const LATE: Made = Made { start: 7, ..TWO };

/// The book of a single node is a cluster, and so are the books of three nodes, but neither is the script's cluster.
const BOOKS: &[Case] = &[
    IDLE,
    Case {
        shows: "no book",
        made: &[],
        ..NOT_SETTLED
    },
    Case {
        shows: "node 1",
        made: &[ONE],
        ..NOT_SETTLED
    },
    Case {
        shows: "node 2 before node 1",
        made: &[TWO, ONE],
        ..NOT_SETTLED
    },
    Case {
        shows: "node 1 twice",
        made: &[ONE, ONE],
        ..NOT_SETTLED
    },
    Case {
        shows: "a node alone",
        made: &[ALONE],
        ..NOT_SETTLED
    },
    Case {
        shows: "three nodes",
        made: &[
            Made {
                me: 1,
                nodes: 3,
                start: 0,
            },
            Made {
                me: 2,
                nodes: 3,
                start: 0,
            },
            Made {
                me: 3,
                nodes: 3,
                start: 0,
            },
        ],
        ..NOT_SETTLED
    },
    Case {
        shows: "both from another number",
        made: &[Made { start: 7, ..ONE }, LATE],
        ..NOT_SETTLED
    },
    Case {
        shows: "node 2 from another number",
        made: &[ONE, LATE],
        ..NOT_SETTLED
    },
];

#[test]
fn books_of_other_nodes_or_another_start_do_not_settle(rt: HostRuntime) {
    assert_outcomes(&rt, BOOKS);
}

/// Books with faults.
const FAULTS: &[Case] = &[
    Case {
        shows: "both nodes have a fault",
        done: &[AtNode(1, Fails(Stop::Gate)), AtNode(2, Fails(Stop::Send))],
        refusal: Some(ClusterError::Fault(Stop::Gate)),
        ..IDLE
    },
    Case {
        shows: "node 2 has a fault",
        done: &[AtNode(2, Fails(Stop::Send))],
        refusal: Some(ClusterError::Fault(Stop::Send)),
        ..IDLE
    },
    Case {
        shows: "node 1 has a fault",
        done: &[AtNode(1, Fails(Stop::Gate))],
        refusal: Some(ClusterError::Fault(Stop::Gate)),
        ..IDLE
    },
    Case {
        shows: "before it is looked at what books they are",
        made: &[ONE],
        done: &[AtNode(1, Fails(Stop::Gate))],
        refusal: Some(ClusterError::Fault(Stop::Gate)),
        ..IDLE
    },
];

#[test]
fn the_fault_of_the_lowest_node_is_the_outcome(rt: HostRuntime) {
    assert_outcomes(&rt, FAULTS);
}

/// Node 2 has a frame that nobody sent; a fault of the node takes precedence.
const STRANGE: &[Case] = &[
    Case {
        shows: "a frame that nobody sent",
        done: &[AtNode(2, Takes(Receive(&ASKS)))],
        ..NOT_SETTLED
    },
    Case {
        shows: "and a fault",
        done: &[
            AtNode(2, Takes(Receive(&ASKS))),
            AtNode(2, Fails(Stop::Send)),
        ],
        refusal: Some(ClusterError::Fault(Stop::Send)),
        ..IDLE
    },
];

#[test]
fn a_frame_that_nobody_sent_does_not_settle(rt: HostRuntime) {
    assert_outcomes(&rt, STRANGE);
}

/// Client 1 of a single node asks for `r`, and enters.
const ENTERS: Done = AtNode(1, Takes(ASK));

/// Client 2 asks, and is queued.
const QUEUES: Done = AtNode(1, Takes(Ask(2, Mode::Exclusive)));

/// Client 1 leaves, and client 2 enters if it is queued.
const LEAVES: Done = AtNode(1, Takes(LEAVE));

/// Client 2 leaves.
const ENDS: Done = AtNode(1, Takes(Leave(2)));

/// The grant of client 1.
const FIRST: Granted = Granted {
    node: 1,
    client: 1,
    mode: Mode::Exclusive,
    seq: 1,
};

/// The grant of client 2.
const SECOND: Granted = Granted {
    node: 1,
    client: 2,
    mode: Mode::Exclusive,
    seq: 2,
};

/// A script of a single node, whose plan is met.
const MET: Case = Case {
    nodes: 1,
    made: &[ALONE],
    ..IDLE
};

/// A script of a single node, whose plan is not met.
const UNMET: Case = Case {
    refusal: Some(ClusterError::PlanUnmet),
    ..MET
};

/// Scripts of a single node, and the events there.
const PLANS: &[Case] = &[
    Case {
        shows: "no lock",
        clients: &[Locks],
        ..UNMET
    },
    Case {
        shows: "a lock",
        clients: &[Locks],
        done: &[ENTERS],
        granted: &[FIRST],
        ..MET
    },
    Case {
        // Client 2, which is not in the script, is queued; no mark reports that.
        shows: "a lock, and another client is queued",
        clients: &[Locks],
        done: &[ENTERS, QUEUES],
        granted: &[FIRST],
        ..UNMET
    },
    Case {
        shows: "a lock that is not given back",
        clients: &[Uses],
        done: &[ENTERS],
        granted: &[FIRST],
        ..UNMET
    },
    Case {
        shows: "two uses in place of one",
        clients: &[Uses],
        done: &[ENTERS, QUEUES, LEAVES, ENDS],
        granted: &[FIRST, SECOND],
        ..UNMET
    },
    Case {
        shows: "the second lock is not given back",
        clients: &[Uses, Uses],
        done: &[ENTERS, QUEUES, LEAVES],
        granted: &[FIRST, SECOND],
        ..UNMET
    },
    Case {
        shows: "the second lock is to be kept",
        clients: &[Uses, Locks],
        done: &[ENTERS, QUEUES, LEAVES],
        granted: &[FIRST, SECOND],
        ..MET
    },
    Case {
        shows: "two uses",
        clients: &[Uses, Uses],
        done: &[ENTERS, QUEUES, LEAVES, ENDS],
        granted: &[FIRST, SECOND],
        ..MET
    },
];

#[test]
fn a_plan_is_met_by_its_marks_in_order_and_an_empty_queue(rt: HostRuntime) {
    assert_outcomes(&rt, PLANS);
}

/// A client of node 1 of two uses `r`.
const USED: Case = Case {
    clients: &[Uses],
    refusal: Some(ClusterError::PlanUnmet),
    ..IDLE
};

/// It asks, and the REQUEST goes out.
const REQUESTS: Done = AtNode(1, Posts(ASK, Some(&ASKS), Some(Turn::Requested)));

/// Cases in which a part of that is missing.
const MISSING: &[Case] = &[
    Case {
        shows: "nothing has happened",
        ..USED
    },
    Case {
        shows: "a request is under way",
        done: &[REQUESTS],
        ..USED
    },
    Case {
        shows: "it is lost, so that its client waits for ever",
        done: &[REQUESTS, AtNode(1, Loses(1))],
        ..USED
    },
];

#[test]
fn what_is_missing_at_two_nodes_leaves_the_plan_unmet(rt: HostRuntime) {
    assert_outcomes(&rt, MISSING);
}

/// Grants of a single node whose client locks `r`.
const GRANTS: &[Case] = &[
    Case {
        shows: "a grant that was got",
        clients: &[Locks],
        done: &[ENTERS],
        granted: &[FIRST],
        ..MET
    },
    Case {
        shows: "another one",
        clients: &[Locks],
        done: &[ENTERS],
        granted: &[Granted {
            node: 1,
            client: 1,
            mode: Mode::Exclusive,
            seq: 2,
        }],
        refusal: Some(ClusterError::Settle),
        ..MET
    },
    Case {
        shows: "a grant twice",
        clients: &[Locks],
        done: &[ENTERS],
        granted: &[FIRST, FIRST],
        refusal: Some(ClusterError::Settle),
        ..MET
    },
];

#[test]
fn a_grant_that_nobody_got_does_not_settle(rt: HostRuntime) {
    assert_outcomes(&rt, GRANTS);
}
