//! Ranks of requests that show that they are in no circle.
ghost use Rattle.std.specs.Prelude.{◌≡◌, ◌<◌, ℕ, false, IsTrue, IfOk, length, map, slice_index_or};
ghost use Rattle.std.specs.List.Sorted.{IsPermutation, IsSortedByKey};
ghost use Rattle.ra_deadlock.specs.Deadlock.{IsDeadlock, IsInTheWay};
ghost use Rattle.ra_deadlock.specs.Ranks.{Agree, AgreesWithClient, client_of, client_rank, is_queued, key_cmp, key_of};

use crate::search::wait_graph::WaitGraph;
use crate::{Request, Stage};
use ra_stamp::Memory;
use std::alloc::Global;

/// A request and its rank.
#[derive(Clone, Copy)]
pub struct Ranked {
    pub request: Request,
    pub rank: u64,
}

impl Ranked {
    /// Returns whether it is queued.
    fn is_queued(&self) -> bool
        ensures { result ≡ is_queued self.now.request.stage }
    {
        match self.request.stage {
            Stage::Queued => true,
            Stage::Waits | Stage::Holds => false,
        }
    }

    /// Returns whether it is for another name than another one.
    fn is_on_other_name(&self, other: &Ranked) -> bool
        ensures { IsTrue result → self.now.request.entry.name ≡ other.now.request.entry.name → ⊥ }
    {
        self.request.entry.name != other.request.entry.name
    }

    /// Returns whether its rank is greater than that of another one, or that one is not in its way.
    fn is_above(&self, other: &Ranked) -> bool
        ensures { IsTrue result → IsInTheWay other.now.request self.now.request → other.now.rank < self.now.rank }
    {
        if other.request.is_in_the_way(&self.request) {
            other.rank < self.rank
        } else {
            true
        }
    }

    /// Returns whether of it and another one, some that is in the way of the other has no smaller rank.
    fn disagrees_with(&self, other: &Ranked) -> bool
        ensures { result ≡ false → Agree self.now other.now }
    {
        if self.is_above(other) {
            if other.is_above(self) { false } else { true }
        } else {
            true
        }
    }

    /// Returns whether its rank does not agree with that of its client: that one's has to be less if it is granted, and
    /// greater otherwise.
    fn disagrees_with_client(&self, graph: &WaitGraph) -> bool
        ensures { result ≡ false
            → AgreesWithClient self.now (client_rank graph.now.client_ranks (client_of self.now.request)) }
    {
        let rank = match graph.client_rank(&self.request.client()) {
            Some(rank) => rank,
            None => 0,
        };
        if self.request.is_granted() {
            self.rank <= rank
        } else {
            rank <= self.rank
        }
    }
}

/// Returns the requests with their ranks, by their names, and for each name first those that wait or are granted.
///
/// # Errors
///
/// `Memory`: memory ran out.
fn ranked_of(alloc: Global, requests: &[Request], graph: &WaitGraph) -> Result<Vec<Ranked>, Memory>
    ensures all { IfOk result (λ ranked. IsPermutation requests.now (map (λ it. it.request) ranked.items)) }
    ensures sorted { IfOk result (λ ranked. IsSortedByKey key_of key_cmp ranked.items) }
{
    let mut ranked = Vec::new(alloc);
    for place in 0..requests.len() {
        ranked.push(Ranked {
            request: requests[place],
            rank: graph.rank(place),
        })?;
    }
    ranked.sort_by_key(|it| (it.request.entry.name, it.is_queued()))?;
    Ok(ranked)
}

/// Returns whether the rank at a place does not agree with those after it. Only requests for one name can be in each
/// other's way, and two that are queued are not.
fn disagrees_with_later(ranked: &[Ranked], place: usize) -> bool
    requires within { place < length ranked.now }
    requires sorted { IsSortedByKey key_of key_cmp ranked.now }
    ensures { result ≡ false → (j : ℕ) (d : Ranked) → place < j → j < length ranked.now
        → Agree (slice_index_or ranked.now place d) (slice_index_or ranked.now j d) }
{
    let own = &ranked[place];
    let is_queued = own.is_queued();
    if is_queued {
        return false;
    }
    for later in place + 1..ranked.len() {
        let other = &ranked[later];
        let is_other = other.is_on_other_name(own);
        if is_other {
            return false;
        }
        let is_wrong = own.disagrees_with(other);
        if is_wrong {
            return true;
        }
    }
    false
}

/// Returns whether the rank at a place does not agree with that of its client, or with those after it.
fn disagrees_at(ranked: &[Ranked], place: usize, graph: &WaitGraph) -> bool
    requires within { place < length ranked.now }
    requires sorted { IsSortedByKey key_of key_cmp ranked.now }
    ensures client { result ≡ false → (d : Ranked) → AgreesWithClient (slice_index_or ranked.now place d)
        (client_rank graph.now.client_ranks (client_of (slice_index_or ranked.now place d).request)) }
    ensures later { result ≡ false → (j : ℕ) (d : Ranked) → place < j → j < length ranked.now
        → Agree (slice_index_or ranked.now place d) (slice_index_or ranked.now j d) }
{
    let is_wrong = ranked[place].disagrees_with_client(graph);
    if is_wrong {
        return true;
    }
    disagrees_with_later(ranked, place)
}

/// Returns whether ranks show that there is no deadlock. Of requests for one name each two are compared, unless both are
/// queued.
///
/// # Errors
///
/// `Memory`: memory ran out.
pub fn descend(alloc: Global, requests: &[Request], graph: &WaitGraph) -> Result<bool, Memory>
    ensures { IfOk result (λ shown. IsTrue shown → IsDeadlock requests.now → ⊥) }
{
    let ranked = ranked_of(alloc, requests, graph)?;
    for place in 0..ranked.len() {
        let is_wrong = disagrees_at(&ranked, place, graph);
        if is_wrong {
            return Ok(false);
        }
    }
    Ok(true)
}
