//! Scripts that threads do with gates that hold them up, and gates that stop them.
use crate::thread_scripts::endings::{End, assert_ends};
use crate::thread_scripts::letter_scripts::{Client, READS_R, TWO_WRITERS, USES_A, USES_B, USES_R};
use crate::whole_clusters::cluster_asserting::assert_same;
use crate::whole_clusters::cluster_values::{Counting, comes_to};
use ra_cluster::{ClusterError, Gate, Stop};
use ra_stamp::{Entry, NodeId};
use std::process::Abort;
use std::sync::Wait;
use std::sync::atomic::{AtomicU64, Ordering};
use std::thread;
use std::thread::Threads;
use test_support::{part, row};

/// How the gate of two clients holds up the one until the other comes.
#[derive(Clone, Copy)]
enum Meeting {
    /// Client 1 stays inside until client 2 is inside.
    Inside,
    /// Each client stays inside until the other is inside.
    Both,
    /// The first step of each node waits for a step of the other.
    Steps,
}

/// A gate of two clients at nodes 1 and 2, which counts its calls.
#[derive(Drop)]
struct Meets {
    at: Meeting,
    /// At node 1 and at node 2.
    steps: (AtomicU64, AtomicU64),
    /// For client 1 and for client 2.
    insides: (AtomicU64, AtomicU64),
    /// How often somebody waited in vain.
    missed: AtomicU64,
}

impl Meets {
    /// Makes a gate that was not called yet.
    fn new(at: Meeting) -> Meets {
        Meets {
            at,
            steps: (AtomicU64::new(0), AtomicU64::new(0)),
            insides: (AtomicU64::new(0), AtomicU64::new(0)),
            missed: AtomicU64::new(0),
        }
    }

    /// Waits until this number is at least 1, and returns whether it came to that.
    fn meets(&self, other: &AtomicU64) -> bool {
        if comes_to(other, 1) {
            return true;
        }
        self.missed.fetch_add(1, Ordering::SeqCst);
        false
    }

    /// Asserts that it was called `one` and `two` times for the steps of node 1 and node 2 and once for each client
    /// inside, and nobody waited in vain. So a cluster that goes on after the gate's `false` is found out too.
    fn assert_seen(&self, rt: &impl Abort, label: &str, one: u64, two: u64) {
        let steps = (
            self.steps.0.load(Ordering::SeqCst),
            self.steps.1.load(Ordering::SeqCst),
        );
        assert_same(rt, part(label, "steps of each node"), &steps, &(one, two));
        let insides = (
            self.insides.0.load(Ordering::SeqCst),
            self.insides.1.load(Ordering::SeqCst),
        );
        assert_same(rt, part(label, "calls inside"), &insides, &(1, 1));
        let missed = self.missed.load(Ordering::SeqCst);
        assert_same(rt, part(label, "waits in vain"), &missed, &0);
    }
}

impl Gate for Meets {
    fn step(&self, node: NodeId) -> bool {
        let (own, other) = if node.get() == 1 {
            (&self.steps.0, &self.steps.1)
        } else {
            (&self.steps.1, &self.steps.0)
        };
        let before = own.fetch_add(1, Ordering::SeqCst);
        !matches!(self.at, Meeting::Steps) || before != 0 || self.meets(other)
    }

    fn inside(&self, entry: &Entry) -> bool {
        let (own, other) = if entry.client == 1 {
            (&self.insides.0, &self.insides.1)
        } else {
            (&self.insides.1, &self.insides.0)
        };
        own.fetch_add(1, Ordering::SeqCst);
        let waits = match self.at {
            Meeting::Inside => entry.client == 1,
            Meeting::Both => true,
            Meeting::Steps => false,
        };
        !waits || self.meets(other)
    }
}

/// How two clients meet.
struct Met {
    shows: &'static str,
    meeting: Meeting,
    nodes: u16,
    clients: &'static [Client],
    /// How many messages are sent.
    sent: u128,
    /// How many steps node 1 makes, and node 2.
    one: u64,
    two: u64,
}

/// Ends the test unless two clients meet, and come to their end.
fn assert_meet<R: AllocGlobal + Threads + Wait + Abort + Sync>(rt: &R, met: &Met) {
    let Met {
        shows: label,
        meeting,
        nodes,
        clients,
        sent,
        one,
        two,
    } = met;
    let (gate, end) = (Meets::new(*meeting), End::Done(2, *sent));
    assert_ends(rt, row(label), *nodes, clients, &gate, end);
    gate.assert_seen(rt, label, *one, *two);
}

/// Readers of two nodes.
const READERS: &Met = &Met {
    shows: "readers of two nodes are inside together",
    meeting: Meeting::Inside,
    nodes: 2,
    clients: &[Client(1, READS_R), Client(2, READS_R)],
    sent: 4,
    one: 4,
    two: 4,
};

#[test]
fn readers_of_two_nodes_are_inside_together(rt: HostRuntime) {
    assert_meet(&rt, READERS);
}

/// Writers of two names at two nodes.
const STEPPING: &Met = &Met {
    shows: "two nodes step at once",
    meeting: Meeting::Steps,
    nodes: 2,
    clients: &[Client(1, USES_A), Client(2, USES_B)],
    sent: 4,
    one: 4,
    two: 4,
};

#[test]
fn two_nodes_step_at_once(rt: HostRuntime) {
    assert_meet(&rt, STEPPING);
}

/// Writers of two names at a single node.
const BESIDE: &Met = &Met {
    shows: "two clients of one node are inside together",
    meeting: Meeting::Both,
    nodes: 1,
    clients: &[Client(1, USES_A), Client(1, USES_B)],
    sent: 0,
    one: 4,
    two: 0,
};

/// While a client is inside, others of its node ask and are let in.
#[test]
fn a_client_is_inside_with_no_lock_held(rt: HostRuntime) {
    assert_meet(&rt, BESIDE);
}

/// A gate of two nodes that stays in each step for some time, and stops the cluster if another step of the node comes
/// meanwhile.
#[derive(Drop)]
struct Alone {
    /// How many are in a step of node 1 and of node 2.
    within: (AtomicU64, AtomicU64),
}

impl Gate for Alone {
    fn step(&self, node: NodeId) -> bool {
        let within = if node.get() == 1 {
            &self.within.0
        } else {
            &self.within.1
        };
        let before = within.fetch_add(1, Ordering::SeqCst);
        for _ in 0..1000u32 {
            thread::yield_now();
        }
        // The one before is counted until it has gone, so of two that meet one at least sees the other.
        let after = within.fetch_sub(1, Ordering::SeqCst);
        before == 0 && after == 1
    }

    fn inside(&self, _entry: &Entry) -> bool {
        true
    }
}

/// Three clients of node 1 and one of node 2 use `r`.
const FOUR_WRITERS: &[Client] = &[
    Client(1, USES_R),
    Client(1, USES_R),
    Client(1, USES_R),
    Client(2, USES_R),
];

#[test]
fn a_node_steps_under_its_lock(rt: HostRuntime) {
    let gate = Alone {
        within: (AtomicU64::new(0), AtomicU64::new(0)),
    };
    let at = row("four writers, and a gate that stays in each step");
    assert_ends(&rt, at, 2, FOUR_WRITERS, &gate, End::Done(4, 8));
}

/// A gate of two writers.
struct Stopped {
    shows: &'static str,
    nodes: u16,
    /// How many steps it lets pass.
    steps: u64,
    /// Whether it lets all clients be inside, or none.
    lets_in: bool,
    end: End,
}

/// The gate stops the script.
const STOPS: End = End::Fails(ClusterError::Fault(Stop::Gate));

/// Gates that stop two writers, and one that does not: with three nodes the run takes 12 steps, two asks, two leaves
/// and eight frames that come.
const STOPPED: &[Stopped] = &[
    Stopped {
        shows: "nobody is inside, of three nodes",
        nodes: 3,
        steps: u64::MAX,
        lets_in: false,
        end: STOPS,
    },
    Stopped {
        shows: "no step passes",
        nodes: 3,
        steps: 0,
        lets_in: true,
        end: STOPS,
    },
    Stopped {
        shows: "one step passes",
        nodes: 3,
        steps: 1,
        lets_in: true,
        end: STOPS,
    },
    Stopped {
        shows: "five steps pass",
        nodes: 3,
        steps: 5,
        lets_in: true,
        end: STOPS,
    },
    Stopped {
        shows: "eleven steps pass",
        nodes: 3,
        steps: 11,
        lets_in: true,
        end: STOPS,
    },
    Stopped {
        shows: "nobody is inside, of two nodes",
        nodes: 2,
        steps: u64::MAX,
        lets_in: false,
        end: STOPS,
    },
    Stopped {
        shows: "twelve steps pass",
        nodes: 3,
        steps: 12,
        lets_in: true,
        end: End::Done(2, 8),
    },
];

#[test]
fn a_gate_stops_the_cluster(rt: HostRuntime) {
    for place in 0..STOPPED.len() {
        let Stopped {
            shows: label,
            nodes,
            steps,
            lets_in: inside,
            end,
        } = STOPPED[place];
        let gate = Counting::new(steps, inside);
        assert_ends(&rt, row(label), nodes, TWO_WRITERS, &gate, end);
    }
}
