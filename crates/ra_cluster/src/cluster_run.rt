ghost use Rattle.std.specs.Prelude.{◌≡◌, All, IfOk};
ghost use Rattle.ra_book.specs.Book.{HasHistory};
ghost use Rattle.ra_cluster.specs.Outcome.{ChecksScript, IsDone, IsRecord};

use crate::script_threads::{ScriptRun, run_threads};
use crate::settled_script::settle_script;
use crate::{Book, Cluster, Gate, Grant, Settled, Stop};
use ra_schedule::{Script, first_out_of_order, first_unreleased};
use ra_stamp::Memory;
use std::alloc::Global;
use std::fmt;
use std::sync::{Mutex, Wait};
use std::thread::Threads;
use thiserror::Error;

/// Why threads did not bring a script to its end. It prints as its name.
#[derive(Clone, Copy, Debug, PartialEq, Eq, Error)]
pub enum ClusterError {
    /// A client locks a name that is not above every name that it then holds.
    OutOfOrder,
    /// A client holds a name at its end.
    Unreleased,
    /// A node was stopped, for this cause.
    Fault(Stop),
    /// The nodes recorded no run of the cluster, or one in which not each grant was given exactly once.
    Settle,
    /// The marks of a client are not its operations' marks in order, or a client is queued.
    PlanUnmet,
    /// A message was lost.
    Lost,
    /// A message is still under way.
    UnderWay,
    /// Memory ran out.
    Memory,
}

impl fmt::Display for ClusterError {
    /// Prints the name of the variant.
    fn fmt<W: fmt::Write>(&self, f: &mut fmt::Formatter<W>) -> fmt::Result {
        match self {
            ClusterError::Fault(_) => f.write_str("Fault"),
            _ => fmt::Debug::fmt(self, f),
        }
    }
}

impl From<Memory> for ClusterError {
    ghost use Rattle.ra_cluster.specs.declared.cluster_run.ClusterError.TheVariants.{Memory};

    ghost from_gives = { λ _ fault. fault ≡ Memory };

    fn from(_refused: Memory) -> ClusterError {
        ClusterError::Memory
    }
}

/// What threads recorded of a script that they brought to its end.
#[derive(Drop)]
pub struct Recorded {
    /// The books of the nodes, in order.
    pub books: Vec<Book>,
    /// The one run that they settle into.
    pub settled: Settled,
}

/// Runs a script by threads: one for each node and one for each client. A client's thread does the client's operations
/// one after the other, at the client's site. Once the clients' threads have ended, the post is closed; once the nodes'
/// threads have ended, the books settle. The numbers begin at 0. If the result is Ok, nobody waits or is queued, and no
/// message was lost or repeated or is under way. There are as many requests as locks in the script, and with N nodes
/// 2(N-1) times as many messages.
///
/// Nothing bounds how long the threads wait. Each client has to take its names in ascending order and to hold none at
/// its end, since clients that take names in different orders can wait for each other forever.
///
/// It costs what [`run_threads`] and [`settle_script`] cost. Before them, for each lock of a client, the client's
/// operations are searched up to the unlock.
///
/// # Errors
///
/// The first that holds, except that `Memory` may come before any but the first two:
///
/// 1. `OutOfOrder`: a client locks a name that is not above, by bytes, every name that it then holds. No thread was
///    started.
/// 2. `Unreleased`: a client holds a name at its end. No thread was started.
/// 3. `Fault`: a node was stopped, with the cause at the lowest such node.
/// 4. `Settle`: the books do not settle, or not with what the clients were granted.
/// 5. `PlanUnmet`: the marks of a client are not its operations' marks in order, or a client is queued.
/// 6. `Lost`: a message was lost.
/// 7. `UnderWay`: a message is under way.
/// 8. `Memory`: memory ran out.
pub fn run_cluster<R: Threads + Wait + Sync, G: Gate>(
    rt: &R,
    alloc: Global,
    script: &Script,
    gate: &G,
) -> Result<Settled, ClusterError>
    ensures checked { ChecksScript script.now result }
    // It reports a run of the steps at the script's nodes, and meets the script and the main theorem.
    ensures done { IfOk result (IsDone script.now) }
{
    let recorded = record_cluster(rt, alloc, script, gate)?;
    Ok(recorded.settled)
}

/// Runs a script by threads, as [`run_cluster`] does and at the same cost, and returns the books of the nodes, too.
///
/// # Errors
///
/// Those of [`run_cluster`].
pub fn record_cluster<R: Threads + Wait + Sync, G: Gate>(
    rt: &R,
    alloc: Global,
    script: &Script,
    gate: &G,
) -> Result<Recorded, ClusterError>
    ensures checked { ChecksScript script.now result }
    // The run is the one that these very books settle into, and all that `run_cluster` says is true of it.
    ensures recorded { IfOk result (λ recorded. IsRecord script.now recorded.books.items recorded.settled) }
{
    check_script(script)?;
    let (books, grants) = books_of(rt, alloc, script, gate)?;
    let settled = settle_script(alloc, script, &books, &grants)?;
    Ok(Recorded { books, settled })
}

/// Checks whether threads can run a script: whether each client takes its names in ascending order and holds none at
/// its end. It does not allocate. It costs what [`first_out_of_order`] and [`first_unreleased`] cost.
///
/// # Errors
///
/// The first that holds:
///
/// 1. `OutOfOrder`: a client locks a name that is not above, by bytes, each name that it holds then.
/// 2. `Unreleased`: a client holds a name at its end.
fn check_script(script: &Script) -> Result<(), ClusterError>
    ensures { ChecksScript script.now result }
{
    if first_out_of_order(script).is_some() {
        return Err(ClusterError::OutOfOrder);
    }
    if first_unreleased(script).is_some() {
        return Err(ClusterError::Unreleased);
    }
    Ok(())
}

/// Runs a script by threads in a cluster of its own. Returns the books of the nodes, in order, and what the clients
/// were granted.
fn books_of<R: Threads + Wait + Sync, G: Gate>(
    rt: &R,
    alloc: Global,
    script: &Script,
    gate: &G,
) -> Result<(Vec<Book>, Vec<Grant>), Memory>
    ensures { IfOk result (λ run. All HasHistory run.0.items) }
{
    // A script has 1 to 64 nodes, so only `Memory` can come.
    let Ok(cluster) = Cluster::new(alloc, script.nodes(), 0, gate) else {
        return Err(Memory);
    };
    let grants = Mutex::new(Vec::new(alloc));
    run_threads(
        rt,
        alloc,
        &ScriptRun {
            script,
            cluster: &cluster,
            grants: &grants,
        },
    );
    Ok((cluster.close(alloc), grants.into_inner()))
}
