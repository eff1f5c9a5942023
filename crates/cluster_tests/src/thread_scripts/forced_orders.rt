//! Scripts whose clients a gate brings into an order that no policy chooses. The report has to tell what the threads
//! did, and not what a simulation of the script would do.
use crate::thread_scripts::endings::{End, assert_ends};
use crate::thread_scripts::letter_scripts::Client;
use crate::thread_scripts::letter_scripts::Does::{Locks, Unlocks};
use crate::whole_clusters::cluster_values::comes_to;
use ra_cluster::Gate;
use ra_stamp::{Entry, Name, NodeId};
use std::sync::atomic::{AtomicU64, Ordering};
use test_support::{At, r};

/// A gate that keeps one of two clients inside a name of its own until the other has been inside `r`.
#[derive(Drop)]
struct Keeps {
    client: u32,
    r: Name,
    /// How often the other client has been inside `r`.
    others: AtomicU64,
}

impl Gate for Keeps {
    fn step(&self, _node: NodeId) -> bool {
        true
    }

    fn inside(&self, entry: &Entry) -> bool {
        let is_r = entry.name == self.r;
        if entry.client != self.client {
            self.others.fetch_add(u64::from(is_r), Ordering::SeqCst);
            return true;
        }
        is_r || comes_to(&self.others, 1)
    }
}

/// A client of each node uses a name of its own, and then `r`.
const OWN_AND_R: &[Client] = &[
    Client(1, &[Locks(b'a'), Unlocks(b'a'), Locks(b'r'), Unlocks(b'r')]),
    Client(2, &[Locks(b'b'), Unlocks(b'b'), Locks(b'r'), Unlocks(b'r')]),
];

/// The node whose client is kept, and the other node, whose client enters `r` first. Each client has the number of its
/// node.
const ORDERS: &[(u16, u16)] = &[(1, 2), (2, 1)];

#[test]
fn what_settles_is_what_the_threads_did(rt: HostRuntime) {
    for place in 0..ORDERS.len() {
        let (kept, other) = ORDERS[place];
        let gate = Keeps {
            client: u32::from(kept),
            r: r(),
            others: AtomicU64::new(0),
        };
        let at = At("a client is kept", "of node", usize::from(kept));
        assert_ends(&rt, at, 2, OWN_AND_R, &gate, End::InOrder(other, kept));
    }
}
