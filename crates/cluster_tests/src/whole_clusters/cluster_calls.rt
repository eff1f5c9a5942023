//! Calls of a cluster. Their contracts are long, so tests make them by these functions, which have none.
use ra_cluster::{Book, CallError, Cluster, Gate, Grant, Held, NewPostError, Site, Stop};
use ra_stamp::{Entry, Mode, Name, NodeId};
use std::alloc::Global;
use std::process::Abort;
use std::sync::Wait;
use test_support::r;

/// Makes a cluster that is not audited.
///
/// # Errors
///
/// Why no cluster is made.
pub fn new_cluster<G: Gate + Drop>(
    alloc: Global,
    nodes: u16,
    start: u64,
    gate: G,
) -> Result<Cluster<G>, NewPostError> {
    Cluster::new(alloc, nodes, start, gate)
}

/// Makes a cluster that is not audited, or none if it cannot be made.
///
/// A cluster that a function owns is expensive to prove, so it is in a list that tests lend.
pub fn clusters_of<G: Gate + Drop>(
    alloc: Global,
    nodes: u16,
    start: u64,
    gate: G,
) -> Vec<Cluster<G>> {
    let mut all = Vec::new(alloc);
    if let Ok(cluster) = Cluster::new(alloc, nodes, start, gate) {
        let _added = all.push(cluster);
    }
    all
}

/// Closes the cluster, and returns its books.
pub fn books_at_the_end<G: Gate + Drop>(alloc: Global, mut all: Vec<Cluster<G>>) -> Vec<Book> {
    match all.pop() {
        Some(cluster) => cluster.close(alloc),
        None => Vec::new(alloc),
    }
}

/// Returns the site of a node.
pub fn site_of<G: Gate + Drop>(cluster: &Cluster<G>, number: u16) -> Option<&Site> {
    match NodeId::new(number) {
        Some(node) => cluster.site(node),
        None => None,
    }
}

/// Returns the site of a node that there is.
pub fn site<'a, R: Abort, G: Gate + Drop>(
    rt: &R,
    cluster: &'a Cluster<G>,
    number: u16,
) -> &'a Site {
    match site_of(cluster, number) {
        Some(site) => site,
        None => panic!(rt; "there is no such node in the cluster"),
    }
}

/// Has a client of a node lock a name.
///
/// # Errors
///
/// Why it does not.
pub fn lock<R: Wait, G: Gate + Drop>(
    rt: &R,
    alloc: Global,
    cluster: &Cluster<G>,
    node: NodeId,
    client: u32,
    name: Name,
    mode: Mode,
) -> Result<Grant, CallError> {
    cluster.lock(rt, alloc, node, client, name, mode)
}

/// Has a client of a node unlock `r`.
///
/// # Errors
///
/// Why it does not.
pub fn unlock<R: Wait, G: Gate + Drop>(
    rt: &R,
    alloc: Global,
    cluster: &Cluster<G>,
    node: NodeId,
    client: u32,
) -> Result<(), CallError> {
    cluster.unlock(rt, alloc, node, client, r())
}

/// Looks who holds the name of a grant at its node, and then stops the cluster if there is a cause. Returns who held
/// it.
fn work<R: Wait, G: Gate + Drop>(
    rt: &R,
    cluster: &Cluster<G>,
    node: NodeId,
    grant: Grant,
    cause: Option<Stop>,
) -> Option<Entry> {
    let holder = match cluster.site(node) {
        Some(site) => site.holder(rt, &grant.entry.name),
        None => None,
    };
    if let Some(stop) = cause {
        cluster.stop(rt, stop);
    }
    holder
}

/// Has a client of a node lock `r` exclusively, look who holds it, stop the cluster if there is a cause, and unlock
/// `r`.
///
/// # Errors
///
/// Why it does not lock `r`.
pub fn use_name<R: Wait, G: Gate + Drop>(
    rt: &R,
    alloc: Global,
    cluster: &Cluster<G>,
    node: NodeId,
    client: u32,
    cause: Option<Stop>,
) -> Result<Held<Option<Entry>>, CallError> {
    let mode = Mode::Exclusive;
    cluster.with_lock(
        rt,
        alloc,
        node,
        client,
        r(),
        mode,
        |grant: Grant| work(rt, cluster, node, grant, cause),
    )
}
