//! Settles what threads recorded of a script.
ghost use Rattle.std.specs.Prelude.{◌≡◌, ◌≢◌, ◌⊎◌, ◌↔◌, All, Some, None, IsTrue, IsErrOf, IfOk, IfErr, MatchResult};
ghost use Rattle.ra_cluster.specs.Plan.{MeetsPlan, IsQuietEnd};
ghost use Rattle.ra_cluster.specs.Outcome as spec;
ghost use Rattle.ra_cluster.specs.Outcome.{AreOf, IsDone, IsOfThreads, IsOutcome, RefusesReport, RefusesSound};

use crate::script_plan::meets_plan;
use crate::{Book, ClusterError, Grant, SettleError, Settled, Stop, is_cluster, settle};
use ra_schedule::Script;
use ra_world::Report;
use std::alloc::Global;

/// Settles the books of the nodes that ran a script, with what its clients were granted, and checks that the script was
/// brought to its end. If so, nobody waits or is queued, and no message was lost or is under way. There are as many
/// requests as locks in the script, and with N nodes 2(N-1) times as many messages. It costs what `settle` costs and,
/// for each client, time linear in the number of marks.
///
/// # Errors
///
/// The first that holds, except that `Memory` may come before 3 to 6. It does not come if a frame came that was not
/// sent:
///
/// 1. `Fault`: a node was stopped, with the cause in the first such book.
/// 2. `Settle`: the books do not belong to the script's nodes, in order, with numbers that begin at 0.
/// 3. `Settle`: they do not settle, or not with what the clients were granted.
/// 4. `PlanUnmet`: the marks of a client are not its operations' marks in order, or a client is queued.
/// 5. `Lost`: a message was lost.
/// 6. `UnderWay`: a message is under way.
/// 7. `Memory`: memory ran out while the books were settled.
pub fn settle_script(
    alloc: Global,
    script: &Script,
    books: &[Book],
    grants: &[Grant],
) -> Result<Settled, ClusterError>
    // It reports the one run that these very books settle into, with each grant in it exactly once.
    ensures outcome { IfOk result (IsOutcome script.now books.now grants.now) }
    // Its marks are the script's, it ends quietly, and its requests and messages are counted.
    ensures done { IfOk result (IsDone script.now) }
    ensures fault { (stop : Stop) → IsErrOf result (ClusterError.Fault stop)
        ↔ (spec.first_fault books.now ≡ Some stop) }
    // If no node was stopped, each refusal comes only if its cause applies.
    ensures refused { spec.first_fault books.now ≡ None
        → IfErr result (RefusesSound script.now books.now grants.now) }
    ensures threads { IfErr result IsOfThreads }
{
    if let Some(stop) = first_fault(books) {
        return Err(ClusterError::Fault(stop));
    }
    settle_sound(alloc, script, books, grants)
}

/// Settles books without faults, and checks that the script was brought to its end.
///
/// # Errors
///
/// Those of `settle_script`, except for `Fault`.
fn settle_sound(
    alloc: Global,
    script: &Script,
    books: &[Book],
    grants: &[Grant],
) -> Result<Settled, ClusterError>
    ensures { MatchResult result
        (λ settled. IsOutcome script.now books.now grants.now settled × IsDone script.now settled)
        (RefusesSound script.now books.now grants.now) }
{
    if !are_of(script, books) {
        return Err(ClusterError::Settle);
    }
    let settled = match settle(alloc, books, grants) {
        Ok(settled) => settled,
        Err(refused) => return Err(refusal_of(refused)),
    };
    check_report(script, &settled.report)?;
    Ok(settled)
}

/// Returns the refusal of a script whose books do not settle.
fn refusal_of(refused: SettleError) -> ClusterError
    ensures { ((result ≡ ClusterError.Memory) × (refused ≡ SettleError.Memory))
        ⊎ ((result ≡ ClusterError.Settle) × (refused ≢ SettleError.Memory)) }
{
    match refused {
        SettleError::Memory => ClusterError::Memory,
        SettleError::NotSent
        | SettleError::Twice
        | SettleError::GrantMissing
        | SettleError::GrantTwice => ClusterError::Settle,
    }
}

/// Returns the fault of the lowest node that has one.
fn first_fault(books: &[Book]) -> Option<Stop>
    ensures { result ≡ spec.first_fault books.now }
{
    for book in books {
        if let Some(stop) = book.fault() {
            return Some(stop);
        }
    }
    None
}

/// Returns whether the books belong to the nodes of a script, in order, with numbers that begin at 0.
fn are_of(script: &Script, books: &[Book]) -> bool
    ensures { IsTrue result ↔ AreOf script.now books.now }
{
    if !is_cluster(books) {
        return false;
    }
    books.len() == usize::from(script.nodes()) && begin_at_0(books)
}

/// Returns whether the numbers of all books begin at 0.
fn begin_at_0(books: &[Book]) -> bool
    ensures { IsTrue result ↔ All (λ book. book.start ≡ 0) books.now }
{
    for book in books {
        if book.start() != 0 {
            return false;
        }
    }
    true
}

/// Checks that a run brought the script to its end.
///
/// # Errors
///
/// The first that holds:
///
/// 1. `PlanUnmet`: the marks of a client are not its operations' marks in order, or a client is queued.
/// 2. `Lost`: a message was lost.
/// 3. `UnderWay`: a message is under way.
fn check_report(script: &Script, report: &Report) -> Result<(), ClusterError>
    ensures { MatchResult result (λ _. MeetsPlan script.now report.now.marks.items × IsQuietEnd report.now)
        (RefusesReport script.now report.now) }
{
    if !meets_plan(script, report.marks.as_slice()) || report.queued != 0 {
        return Err(ClusterError::PlanUnmet);
    }
    if report.lost != 0 {
        return Err(ClusterError::Lost);
    }
    if report.under_way != 0 {
        return Err(ClusterError::UnderWay);
    }
    Ok(())
}
