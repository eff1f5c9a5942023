//! The nodes of a world, by their numbers from 1.
ghost use Rattle.std.specs.Prelude.{◌≡◌, ℕ, ◌+◌, ◌*◌, ◌^◌, ◌<◌, ◌≤◌, ◌↔◌, length, map, sum_by, IfOk, IfSome, IsNone};
ghost use Rattle.std.specs.List.{range_with_len};
ghost use Rattle.ra_node.specs.Node.{opening_node, waiting_count, queued_count};

use ra_node::Node;
use ra_stamp::{Member, Memory, NodeCount, NodeId};
use std::alloc::Global;

/// Makes nodes that have met nothing yet.
pub fn opening_nodes(alloc: Global, count: NodeCount, start: u64) -> Result<Vec<Node>, Memory>
    ensures { IfOk result (λ nodes. nodes.items ≡ map (λ i. opening_node i count start)
        (range_with_len 1 count)) }
{
    let mut nodes = Vec::with_capacity(alloc, usize::from(count.get()))?;
    for place in 0..count.get() {
        let node = Node::of(alloc, Member::at(place, count), start);
        nodes.push(node)?;
    }
    Ok(nodes)
}

/// Returns the place of a node, or `None` if there is no such node.
pub fn place_of(nodes: &[Node], node: NodeId) -> Option<usize>
    ensures some { IfSome result (λ place. (place + 1 ≡ node) × (place < length nodes.now)) }
    ensures none { IsNone result ↔ (length nodes.now < node) }
{
    let place = node.place();
    if place < nodes.len() {
        Some(place)
    } else {
        None
    }
}

/// Returns how many requests wait at the nodes.
pub fn waiting_at(nodes: &[Node]) -> u128
    requires { length nodes.now ≤ 64 }
    ensures { result ≡ sum_by waiting_count nodes.now }
{
    let mut waiting = 0;
    for node in nodes {
        waiting += u128::from(node.waiting());
    }
    waiting
}

/// Returns how many clients are queued at the nodes.
pub fn queued_at(nodes: &[Node]) -> u128
    requires { sum_by queued_count nodes.now < 2 ^ 128 }
    ensures { result ≡ sum_by queued_count nodes.now }
{
    let mut queued = 0;
    for node in nodes {
        queued += node.queued();
    }
    queued
}
