//! Scripts that threads run.
use crate::thread_scripts::endings::{End, assert_ends};
use crate::thread_scripts::letter_scripts::Does::{Locks, Shares, Unlocks};
use crate::thread_scripts::letter_scripts::{Client, Does, LOCKS_R, READS_R, TWO_WRITERS, USES_R};
use crate::whole_clusters::cluster_asserting::assert_same;
use crate::whole_clusters::cluster_values::Counting;
use ra_cluster::{ClusterError, OpenGate, Stop};
use std::process::Abort;
use std::sync::Wait;
use std::sync::atomic::Ordering;
use std::thread::Threads;
use test_support::{assert_prints, assert_words, row};

/// A script with one client.
struct Alone {
    shows: &'static str,
    /// What the client does.
    ops: &'static [Does],
    end: End,
    /// How often its node steps.
    steps: u64,
}

/// Asserts that the scripts of all rows end so.
fn assert_alone<R: AllocGlobal + Threads + Wait + Abort + Sync>(rt: &R, rows: &[Alone]) {
    for Alone {
        shows: words,
        ops,
        end,
        steps,
    } in rows {
        let gate = Counting::open();
        let at = row(words);
        assert_ends(rt, at, 1, &[Client(1, ops)], &gate, *end);
        assert_same(rt, at, &gate.steps.load(Ordering::SeqCst), steps);
    }
}

/// A client locks a name below the one that it holds.
const FALLING: &[Does] = &[Locks(b'b'), Locks(b'a'), Unlocks(b'a'), Unlocks(b'b')];

/// It does so after it unlocked the lower one.
const FALLING_LATER: &[Does] = &[Locks(b'a'), Unlocks(b'a'), Locks(b'b'), Shares(b'a')];

/// It unlocks one of two names.
const ONE_OF_TWO: &[Does] = &[Locks(b'a'), Locks(b'b'), Unlocks(b'b')];

/// Scripts that are refused before any step.
const REFUSED: &[Alone] = &[
    Alone {
        shows: "falling",
        ops: FALLING,
        end: End::Fails(ClusterError::OutOfOrder),
        steps: 0,
    },
    Alone {
        shows: "falling later",
        ops: FALLING_LATER,
        end: End::Fails(ClusterError::OutOfOrder),
        steps: 0,
    },
    Alone {
        shows: "kept",
        ops: LOCKS_R,
        end: End::Fails(ClusterError::Unreleased),
        steps: 0,
    },
    Alone {
        shows: "one of two is kept",
        ops: ONE_OF_TWO,
        end: End::Fails(ClusterError::Unreleased),
        steps: 0,
    },
];

#[test]
fn names_out_of_order_or_kept_are_refused_before_any_step(rt: HostRuntime) {
    assert_alone(&rt, REFUSED);
}

/// A client locks and unlocks one name after the other.
const ONE_BY_ONE: &[Does] = &[Locks(b'b'), Unlocks(b'b'), Locks(b'a'), Unlocks(b'a')];

/// A client holds two names at a time.
const OVERLAPPING: &[Does] = &[
    Locks(b'a'),
    Locks(b'b'),
    Unlocks(b'a'),
    Locks(b'c'),
    Unlocks(b'c'),
    Unlocks(b'b'),
];

/// The node steps once for each operation.
const IN_ORDER: &[Alone] = &[
    Alone {
        shows: "one by one",
        ops: ONE_BY_ONE,
        end: End::Done(2, 0),
        steps: 4,
    },
    Alone {
        shows: "overlapping",
        ops: OVERLAPPING,
        end: End::Done(3, 0),
        steps: 6,
    },
];

#[test]
fn names_in_order_are_taken_and_given_back(rt: HostRuntime) {
    assert_alone(&rt, IN_ORDER);
}

#[test]
fn two_writers_of_three_nodes(rt: HostRuntime) {
    let end = End::Done(2, 8);
    assert_ends(
        &rt,
        row("two writers of three nodes"),
        3,
        TWO_WRITERS,
        &OpenGate,
        end,
    );
}

#[test]
fn no_clients_do_nothing(rt: HostRuntime) {
    assert_ends(&rt, row("no clients"), 64, &[], &OpenGate, End::Done(0, 0));
}

/// A client holds `a` exclusively and `b` shared at the same time.
const USES_TWO: &[Does] = &[Locks(b'a'), Shares(b'b'), Unlocks(b'a'), Unlocks(b'b')];

/// Twelve clients at four nodes in turn. Every third one, from the first on, uses two names; the others read `r`.
const TWELVE: &[Client] = &[
    Client(1, USES_TWO),
    Client(2, READS_R),
    Client(3, READS_R),
    Client(4, USES_TWO),
    Client(1, READS_R),
    Client(2, READS_R),
    Client(3, USES_TWO),
    Client(4, READS_R),
    Client(1, READS_R),
    Client(2, USES_TWO),
    Client(3, READS_R),
    Client(4, READS_R),
];

#[test]
fn many_clients_of_many_nodes(rt: HostRuntime) {
    // 4 clients with two locks and 8 with one, and 6 messages for each lock.
    assert_ends(
        &rt,
        row("twelve clients of four nodes"),
        4,
        TWELVE,
        &OpenGate,
        End::Done(16, 96),
    );
}

/// Returns a writer for each of 64 nodes.
fn writers_of_64_nodes() -> [Client; 64] {
    let mut clients = [Client(0, USES_R); 64];
    let mut node: u16 = 0;
    for client in &mut clients {
        node = node.wrapping_add(1);
        client.0 = node;
    }
    clients
}

#[test]
fn as_many_nodes_and_clients_as_there_may_be(rt: HostRuntime) {
    // Each of the 64 requests sends a REQUEST to each of the 63 other nodes, and gets a REPLY from it.
    let clients = writers_of_64_nodes();
    assert_ends(
        &rt,
        row("64 clients of 64 nodes"),
        64,
        &clients,
        &OpenGate,
        End::Done(64, 8064),
    );
}

/// Why a node was stopped is not printed.
const FAULTS: &[(ClusterError, &str)] = &[
    (ClusterError::Fault(Stop::Gate), "Fault"),
    (ClusterError::Fault(Stop::Send), "Fault"),
    (ClusterError::Fault(Stop::Memory), "Fault"),
];

#[test]
fn cluster_faults_are_printed_as_their_words(rt: HostRuntime) {
    assert_prints!(&rt, FAULTS);
    assert_words!(&rt; ClusterError: OutOfOrder Unreleased Settle PlanUnmet Lost UnderWay Memory);
}
