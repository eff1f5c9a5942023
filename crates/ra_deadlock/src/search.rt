//! The search for a deadlock. What it finds is checked before it is told.
ghost use Rattle.std.specs.Prelude.{◌-◌, ◌<◌, All, Contains, IsTrue, IfOk, OnOk, length, slice_index_or};
ghost use Rattle.std.specs.List.{AllAdjacentBelow};
ghost use Rattle.ra_deadlock.specs.declared.request.Request.{Request};
ghost use Rattle.ra_deadlock.specs.Deadlock.{EndsAfter, IsAnswer};

pub mod ranks;
mod wait_graph;

use crate::Request;
use crate::search::ranks::descend;
use crate::search::wait_graph::WaitGraph;
use ra_stamp::Memory;
use std::alloc::Global;

/// Adds the request at a place, if there is one.
///
/// # Errors
///
/// `Memory`: memory ran out.
fn push_at(found: &mut Vec<Request>, requests: &[Request], place: usize) -> Result<(), Memory>
    ensures { OnOk result (All (λ request. Contains requests.now request) found.old.items
        → All (λ request. Contains requests.now request) found.new.items) }
{
    if requests.len() <= place {
        return Ok(());
    }
    found.push(requests[place])?;
    Ok(())
}

/// Returns the requests at these places, without those that have none.
///
/// # Errors
///
/// `Memory`: memory ran out.
fn requests_at(
    alloc: Global,
    requests: &[Request],
    places: &[usize],
) -> Result<Vec<Request>, Memory>
    ensures { IfOk result (λ found. All (λ request. Contains requests.now request) found.items) }
{
    let mut found = Vec::new(alloc);
    for place in places {
        push_at(&mut found, requests, *place)?;
    }
    Ok(found)
}

/// Returns whether each request of a list ends only after the next one, and the last one only after the first. It does
/// not allocate.
fn each_ends_after_the_next(circle: &[Request]) -> bool
    ensures some { IsTrue result → 0 < length circle.now }
    ensures each { IsTrue result → AllAdjacentBelow EndsAfter circle.now (length circle.now) }
    ensures last { IsTrue result → (d : Request)
        → EndsAfter (slice_index_or circle.now (length circle.now - 1) d) (slice_index_or circle.now 0 d) }
{
    if circle.len() == 0 {
        return false;
    }
    for place in 1..circle.len() {
        if !circle[place - 1].ends_after(&circle[place]) {
            return false;
        }
    }
    circle[circle.len() - 1].ends_after(&circle[0])
}

/// Looks for a deadlock. Returns requests in a circle, each of which ends only after the next one, or none if there is no
/// deadlock. Of several circles it is the first that is found from a request that waits or is queued, in the order of
/// the list. For n requests, and w that wait for one name or hold it at most, the cost is in the order of n(w + log n),
/// and it takes memory in the order of nw. Of a cluster's requests w is at most 64.
///
/// # Errors
///
/// `Memory`: memory ran out.
pub fn deadlock_in(alloc: Global, requests: &[Request]) -> Result<Vec<Request>, Memory>
    ensures { IfOk result (λ found. IsAnswer requests.now found.items) }
{
    let mut graph = WaitGraph::new(alloc);
    let places = graph.search(alloc, requests)?;
    let circle = requests_at(alloc, requests, &places)?;
    // The search is right, so the checks pass.
    if circle.is_empty() {
        let is_right = descend(alloc, requests, &graph)?;
        if is_right {
            return Ok(circle);
        }
        return Err(Memory);
    }
    let is_circle = each_ends_after_the_next(&circle);
    if is_circle { Ok(circle) } else { Err(Memory) }
}
