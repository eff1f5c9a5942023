use ra_stamp::{Entry, NodeId};

/// What watches a cluster, and may stop it. The threads of the cluster share it.
pub trait Gate: Sync {
    /// Is called under the lock of this node, just before each call of its book that may be an event. The book may yet
    /// refuse that call. The answer `false` stops the cluster, and the call is not made. It must call no site of the
    /// cluster, since that would wait for a lock that its own thread has. It must not wait for anything else either,
    /// since meanwhile each other call of this node's site waits for it.
    fn step(&self, node: NodeId) -> bool;

    /// Is called after each grant, with no lock held, by the client threads of `run_threads` and `run_cluster` of the
    /// crate `ra_cluster`. The answer `false` stops the cluster.
    fn inside(&self, entry: &Entry) -> bool;
}

/// A gate that is lent is a gate.
impl<G: Gate> Gate for &G {
    fn step(&self, node: NodeId) -> bool {
        (**self).step(node)
    }

    fn inside(&self, entry: &Entry) -> bool {
        (**self).inside(entry)
    }
}

/// The gate that lets everything pass. Its calls do not allocate.
#[derive(Clone, Copy)]
pub struct OpenGate;

impl Gate for OpenGate {
    ghost use Rattle.std.specs.Prelude.{◌≡◌, true};

    fn step(&self, _node: NodeId) -> bool
        ensures { result ≡ true }
    {
        true
    }

    fn inside(&self, _entry: &Entry) -> bool
        ensures { result ≡ true }
    {
        true
    }
}
