//! Each growth of a whole cluster is refused: its calls answer that memory ran out, in the thread of the client or in
//! one that carries frames, and do what they should when they are made again.
use crate::thread_scripts::letter_scripts::{Client, TWO_WRITERS, USES_R, script_of};
use crate::thread_scripts::own_threads::run_in;
use crate::whole_clusters::cluster_asserting::{assert_same, fail_at};
use crate::whole_clusters::cluster_calls::{
    books_at_the_end, clusters_of, lock, site, unlock, use_name,
};
use crate::whole_clusters::cluster_values::{WANTING, node};
use ra_cluster::{
    BookError, CallError, Cluster, ClusterError, OpenGate, SiteError, Stop, run_cluster,
};
use ra_schedule::Script;
use ra_stamp::{Memory, Mode};
use std::alloc::Global;
use std::process::Abort;
use std::sync::Wait;
use std::thread::Threads;
use std::time::{Clock, Duration};
use test_support::{At, Tried, again, assert_grown, both, r, row};

/// Returns that memory ran out, after asserting that a call of a cluster may answer this if a growth was refused,
/// either in the caller's thread or in one that carries frames, which then stops all nodes.
fn judge_refusal(rt: &impl Abort, at: At<'_>, fault: SiteError) -> Memory {
    match fault {
        WANTING
        | SiteError::Stopped(Stop::Memory)
        | SiteError::Stopped(Stop::Send)
        | SiteError::Stopped(Stop::Spawn)
        | SiteError::Refused(BookError::Failed) => {}
        other => assert_same(rt, at, &Some(other), &None),
    }
    Memory
}

/// Looks at what an unlock answered, which needs no memory. If the cluster was stopped, memory ran out.
fn judge_unlock(rt: &impl Abort, unlocked: Result<(), SiteError>) -> Result<Tried, Memory> {
    let at = row("a client unlocks");
    match unlocked {
        Ok(()) => Ok(Tried::NoFailure),
        Err(fault) => {
            if fault == WANTING {
                assert_same(rt, at, &unlocked, &Ok(()));
            }
            Err(judge_refusal(rt, at, fault))
        }
    }
}

/// The client of node 1 locks `r` and unlocks it. If it is not let in, or the cluster was stopped, memory ran out.
fn try_client<R: Wait + Abort>(
    rt: &R,
    alloc: Global,
    cluster: &Cluster<OpenGate>,
) -> Result<Tried, Memory> {
    let at = row("a client locks");
    match use_name(rt, alloc, cluster, node(rt, 1), 1, None) {
        Ok(held) => judge_unlock(rt, held.unlocked),
        Err(CallError::Site(fault)) => Err(judge_refusal(rt, at, fault)),
        Err(CallError::NoNode) => fail_at(rt, at, "there is no node 1"),
    }
}

/// While client 1 of the only node holds `r`, client 2 asks for it and gives up at once, and the node forgets names.
/// Then client 1 unlocks `r`, which needs no memory. If one of the others was refused, memory ran out.
fn try_giving_up<R: Wait + Clock + Abort>(
    rt: &R,
    alloc: Global,
    cluster: &Cluster<OpenGate>,
) -> Result<Tried, Memory> {
    let (at, one, mode) = (row("a client gives up"), node(rt, 1), Mode::Exclusive);
    if let Err(CallError::Site(fault)) = lock(rt, alloc, cluster, one, 1, r(), mode) {
        return Err(judge_refusal(rt, at, fault));
    }
    let given_up = cluster.lock_within(rt, alloc, one, 2, r(), mode, Duration::ZERO);
    let forgot = cluster.forget(rt, alloc, one);
    assert_same(rt, at, &unlock(rt, alloc, cluster, one, 1), &Ok(()));
    match (given_up, forgot) {
        (Ok(None), Ok(())) => Ok(Tried::NoFailure),
        (Err(CallError::Site(fault)), _) | (Ok(None), Err(CallError::Site(fault))) => {
            Err(judge_refusal(rt, at, fault))
        }
        _ => fail_at(rt, at, "client 2 was let in, or there is no node 1"),
    }
}

/// Returns that memory ran out, after asserting that a cluster of threads may answer this if a growth was refused.
fn judge_fault(rt: &impl Abort, at: At<'_>, fault: ClusterError) -> Memory {
    match fault {
        ClusterError::Memory
        | ClusterError::Fault(Stop::Memory)
        | ClusterError::Fault(Stop::Send)
        | ClusterError::Fault(Stop::Spawn) => {}
        other => assert_same(rt, at, &Some(other), &None),
    }
    Memory
}

/// Looks at clients, each with its grant kept. If node 1 was stopped, memory ran out.
fn judge_kept(
    rt: &impl Abort,
    fault: Option<Stop>,
    kept: usize,
    clients: usize,
) -> Result<Tried, Memory> {
    match fault {
        None => {
            assert_same(rt, row("the grants that are kept"), &kept, &clients);
            Ok(Tried::NoFailure)
        }
        Some(stop) => {
            let at = row("why node 1 was stopped");
            Err(judge_fault(rt, at, ClusterError::Fault(stop)))
        }
    }
}

/// Has threads run a script of clients in a cluster, and looks at the grants that are kept. If one is not kept, memory
/// ran out.
fn try_keeping<R: AllocGlobal + Threads + Wait + Abort + Sync>(
    rt: &R,
    cluster: &Cluster<OpenGate>,
    nodes: u16,
    clients: &[Client],
) -> Result<Tried, Memory> {
    let Some(script) = script_of(rt.alloc(), nodes, clients) else {
        return Err(Memory);
    };
    let kept = run_in(rt, rt.alloc(), &script, cluster).len();
    let fault = site(rt, cluster, 1).fault(rt);
    judge_kept(rt, fault, kept, clients.len())
}

/// What clients do in a cluster.
#[derive(Clone, Copy)]
enum Work {
    /// The client of the only node locks `r` and unlocks it. Another one gives `r` up, and the node forgets names. If
    /// that finds no memory, they do so again.
    Alone,
    /// The client of node 1 of two does so while the nodes carry their frames.
    Carried,
    /// Threads run a script of these clients of this many nodes. Each uses one name once, and the grants are kept.
    Script(u16, &'static [Client]),
}

/// Has clients do this in a cluster. If they do not, memory ran out.
fn try_in<R: AllocGlobal + Threads + Wait + Clock + Abort + Sync>(
    rt: &R,
    cluster: &Cluster<OpenGate>,
    work: Work,
) -> Result<Tried, Memory> {
    let alloc = rt.alloc();
    match work {
        Work::Alone => Ok(both(
            again(
                try_client(rt, alloc, cluster),
                try_client(rt, alloc, cluster),
            ),
            again(
                try_giving_up(rt, alloc, cluster),
                try_giving_up(rt, alloc, cluster),
            ),
        )),
        Work::Carried => cluster.run(rt, alloc, || try_client(rt, alloc, cluster)),
        Work::Script(nodes, clients) => try_keeping(rt, cluster, nodes, clients),
    }
}

/// Makes a cluster, has clients do this in it, and closes it, which takes no memory. If the cluster cannot be made, or
/// was stopped, memory ran out.
fn try_work<R: AllocGlobal + Threads + Wait + Clock + Abort + Sync>(
    rt: &R,
    work: Work,
) -> Result<Tried, Memory> {
    let nodes = match work {
        Work::Alone => 1,
        Work::Carried => 2,
        Work::Script(nodes, _) => nodes,
    };
    let clusters = clusters_of(rt.alloc(), nodes, 0, OpenGate);
    let (tried, books) = match clusters.first() {
        Some(cluster) => (try_in(rt, cluster, work), nodes),
        None => (Err(Memory), 0),
    };
    let closed = books_at_the_end(rt.alloc(), clusters).len();
    assert_same(rt, row("how many books"), &closed, &usize::from(books));
    tried
}

/// Does so, and does it anew if memory ran out.
fn grow<R: AllocGlobal + Threads + Wait + Clock + Abort + Sync>(rt: &R, work: Work) {
    assert_grown!(rt, again(try_work(rt, work), try_work(rt, work)));
}

#[test]
fn growth_of_a_whole_cluster(rt: HostRuntime) {
    grow(&rt, Work::Alone);
}

#[test]
fn growth_of_a_whole_cluster_of_two_nodes(rt: HostRuntime) {
    grow(&rt, Work::Carried);
}

/// Has threads run a script of two writers. If they do not, memory ran out. The test starts no thread of its own around
/// this, since that thread would have growths of its own.
fn try_threads<R: Threads + Wait + Abort + Sync>(
    rt: &R,
    alloc: Global,
    script: &Script,
) -> Result<Tried, Memory> {
    let at = row("two writers on threads");
    match run_cluster(rt, alloc, script, &OpenGate) {
        Ok(settled) => {
            let came = (settled.report.requests, settled.report.sent);
            assert_same(rt, at, &came, &(2, 4));
            Ok(Tried::NoFailure)
        }
        Err(fault) => Err(judge_fault(rt, at, fault)),
    }
}

/// Makes a script and has threads run it. If the script cannot be made, memory ran out.
fn try_cluster<R: Threads + Wait + Abort + Sync>(rt: &R, alloc: Global) -> Result<Tried, Memory> {
    match script_of(alloc, 2, TWO_WRITERS) {
        Some(script) => try_threads(rt, alloc, &script),
        None => Err(Memory),
    }
}

#[test]
fn growth_of_a_cluster(rt: HostRuntime) {
    let alloc = rt.alloc();
    assert_grown!(&rt, again(try_cluster(&rt, alloc), try_cluster(&rt, alloc)));
}

#[test]
fn growth_of_the_grants_that_are_kept(rt: HostRuntime) {
    grow(&rt, Work::Script(2, TWO_WRITERS));
}

/// One client at one node. No other thread has growths, so the one of the list of grants is always refused in turn.
const ALONE: &[Client] = &[Client(1, USES_R)];

#[test]
fn growth_of_the_only_grant_that_is_kept(rt: HostRuntime) {
    grow(&rt, Work::Script(1, ALONE));
}
