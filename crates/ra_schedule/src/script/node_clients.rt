//! The clients of each node.
ghost use Rattle.std.specs.Prelude.{◌≡◌, ◌-◌, ℕ, [], Some, Contains, slice_index_or, IfOk};
ghost use Rattle.ra_schedule.specs.Enabled.{AreNodeClients, node_at, node_of};

use crate::Script;
use ra_stamp::Memory;
use ra_world::Step;
use std::alloc::Global;
use std::marker::Model;

/// The clients of a node, by their numbers.
#[derive(Drop)]
pub struct NodeClients {
    pub members: Vec<u32>,
}

impl Model for NodeClients {
    ghost use Rattle.std.specs.Prelude.{List, ℕ};

    ghost Value = { List ℕ };

    ghost view = { λ r. r.members.items };
}

/// Returns the clients of the node with this number.
///
/// # Errors
///
/// `Memory`: memory ran out.
fn clients_of_node(alloc: Global, script: &Script, node: u16) -> Result<NodeClients, Memory>
    ensures { IfOk result (λ clients. (client : ℕ) → node_of script.now client ≡ Some node → Contains clients client) }
{
    let mut members = Vec::new(alloc);
    for place in 0..script.clients() {
        let client = place + 1;
        let Some(own) = script.node_of(client) else {
            unreachable!()
        };
        if own.get() == node {
            members.push(client)?;
        }
    }
    Ok(NodeClients { members })
}

/// Returns the clients of each node, in the order of their numbers.
///
/// # Errors
///
/// `Memory`: memory ran out.
pub fn node_clients_of(alloc: Global, script: &Script) -> Result<Vec<NodeClients>, Memory>
    ensures { IfOk result (λ node_clients. AreNodeClients script.now node_clients.items) }
{
    let mut node_clients = Vec::with_capacity(alloc, usize::from(script.nodes()))?;
    for place in 0..script.nodes() {
        let clients = clients_of_node(alloc, script, place + 1)?;
        node_clients.push(clients)?;
    }
    Ok(node_clients)
}

/// Returns the clients of the node at which a step happens, or none if the step is a loss or a repeat, or no such node
/// exists.
pub fn members_at<'a>(node_clients: &'a [NodeClients], step: &Step) -> &'a [u32]
    ensures { (client number : ℕ) → node_at step.now ≡ Some number
        → Contains (slice_index_or node_clients.now (number - 1) []) client
        → Contains result.now client }
{
    let node = match step {
        Step::Ask { node, .. }
        | Step::Leave { node, .. }
        | Step::Cancel { node, .. }
        | Step::Forget { node } => *node,
        Step::Deliver(message) => message.to(),
        Step::Lose(_) | Step::Repeat(_) => return &[],
    };
    match node_clients.get(node.place()) {
        Some(clients) => &clients.members,
        None => &[],
    }
}
