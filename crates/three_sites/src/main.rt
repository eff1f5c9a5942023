//! Three nodes in one process, and two client threads that lock a name, each at its own node. At the end, the nodes'
//! books settle into one run of the cluster.
#![tactic(auto)]

use anyhow::{Context, Result};
use ra_site::{CallError, Cluster, Grant, OpenGate, Stop, settle};
use ra_stamp::{Mode, Name, NodeId};
use std::alloc::Global;
use std::sync::Wait;
use std::thread;
use std::thread::Threads;

/// A client locks a name at its node, uses what the name protects, and unlocks it.
fn work<R: Wait>(
    rt: &R,
    alloc: Global,
    cluster: &Cluster<OpenGate>,
    node: NodeId,
    client: u32,
    name: Name,
) -> Result<Grant, CallError> {
    let mode = Mode::Exclusive;
    let held = cluster.with_lock(rt, alloc, node, client, name, mode, |_grant: Grant| {
        // Here the client holds the name exclusively.
    })?;
    if held.unlocked.is_err() {
        // It still holds the name, so the others would wait forever.
        cluster.stop(rt, Stop::Refused);
    }
    Ok(held.grant)
}

/// Runs the two clients, each on a thread of its own, while the nodes carry their frames. Returns what the clients got.
fn run<R: Threads + Wait + Sync>(
    rt: &R,
    alloc: Global,
    cluster: &Cluster<OpenGate>,
    one: NodeId,
    two: NodeId,
    name: Name,
) -> (Result<Grant, CallError>, Result<Grant, CallError>) {
    cluster.run(rt, alloc, || {
        thread::join(
            rt,
            || work(rt, alloc, cluster, one, 7, name),
            || work(rt, alloc, cluster, two, 9, name),
        )
    })
}

/// Returns the node with this number.
fn node(number: u16) -> Result<NodeId> {
    NodeId::new(number).context("a node's number is 1 to 64")
}

fn main(rt: HostRuntime) -> Result<()> {
    let alloc = rt.alloc();
    let disk = Name::new(b"disk")?;
    let (one, two) = (node(1)?, node(2)?);
    let cluster = Cluster::new(alloc, 3, 0, OpenGate)?;
    let (first, second) = run(&rt, alloc, &cluster, one, two, disk);
    // All threads have ended. Nothing was stopped unless something failed, so the books have no fault.
    let books = cluster.close(alloc);
    let settled = settle(alloc, &books, &[first?, second?])?;
    println!(rt; "requests {}", settled.report.requests)?;
    println!(rt; "messages {}", settled.report.sent)?;
    Ok(())
}
