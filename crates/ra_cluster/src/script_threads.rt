//! The threads of a cluster that does a script.
use crate::{CallError, Cluster, Gate, Grant, SiteError, Stop, stop_of};
use ra_schedule::{Op, Script};
use ra_stamp::NodeId;
use std::alloc::Global;
use std::sync::{Mutex, Wait};
use std::thread;
use std::thread::Threads;

/// A script that threads do, and what they share.
#[derive(Drop)]
pub struct ScriptRun<'a, G> {
    /// What the clients do.
    pub script: &'a Script,
    /// The nodes at which they do it. The gate is shown each step and each client that is inside.
    pub cluster: &'a Cluster<G>,
    /// What the clients were granted, in any order.
    pub grants: &'a Mutex<Vec<Grant>>,
}

/// Runs a thread for each node and one for each client. Returns when the clients' threads and then the nodes' threads
/// have ended. The grants are kept. Once the cluster is closed, [`settle_script`](crate::settle_script) settles its
/// books.
///
/// A client whose node is stopped ends. If a thread cannot be started, or a client's call is refused for another cause,
/// the cluster is stopped. A client does nothing if the cluster does not have its node. Nothing bounds how long the
/// threads wait; a script that [`run_cluster`](crate::run_cluster) refuses may keep them waiting forever. It costs a
/// thread for each node and each client, and the calls of the sites.
pub fn run_threads<R: Threads + Wait + Sync, G: Gate + Drop>(
    rt: &R,
    alloc: Global,
    run: &ScriptRun<'_, G>,
) {
    run.cluster
        .run(rt, alloc, move || run_clients(rt, alloc, run));
}

/// Runs a thread for each client, and returns once they have ended.
fn run_clients<R: Threads + Wait + Sync, G: Gate + Drop>(
    rt: &R,
    alloc: Global,
    run: &ScriptRun<'_, G>,
) {
    thread::scope(thread::scope_env(), rt, move |clients| {
        for client in 1..=run.script.clients() {
            let started = clients.spawn(move || run_client(rt, alloc, run, client));
            if started.is_err() {
                run.cluster.stop(rt, Stop::Spawn);
            }
        }
    })
}

/// Does the operations of a client one after the other, until one is refused. A refusal stops the cluster, unless the
/// client's node is stopped already or does not exist.
fn run_client<R: Wait, G: Gate + Drop>(rt: &R, alloc: Global, run: &ScriptRun<'_, G>, client: u32) {
    let Some(node) = run.script.node_of(client) else {
        return;
    };
    let count = run.script.ops_of(client).unwrap_or(0);
    for place in 0..count {
        let Some(op) = run.script.op(client, place) else {
            return;
        };
        if let Err(refused) = do_op(rt, alloc, run, node, client, op) {
            let stop = match refused {
                CallError::Site(refused) => stop_of(refused),
                CallError::NoNode => None,
            };
            if let Some(stop) = stop {
                run.cluster.stop(rt, stop);
            }
            return;
        }
    }
}

/// Does one operation of a client at its node.
///
/// # Errors
///
/// Those of the cluster's call, and `Stopped` if the cluster was stopped after a grant.
fn do_op<R: Wait, G: Gate + Drop>(
    rt: &R,
    alloc: Global,
    run: &ScriptRun<'_, G>,
    node: NodeId,
    client: u32,
    op: Op,
) -> Result<(), CallError> {
    let cluster = run.cluster;
    match op {
        Op::Lock(name, mode) => {
            let grant = cluster.lock(rt, alloc, node, client, name, mode)?;
            // It is kept, and shown to the gate.
            let stop = if run.grants.lock(rt).push(grant).is_err() {
                Stop::Memory
            } else if cluster.gate().inside(&grant.entry) {
                return Ok(());
            } else {
                Stop::Gate
            };
            cluster.stop(rt, stop);
            Err(CallError::Site(SiteError::Stopped(stop)))
        }
        Op::Unlock(name) => cluster.unlock(rt, alloc, node, client, name),
    }
}
