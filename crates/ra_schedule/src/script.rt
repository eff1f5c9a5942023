pub mod lock_order;
pub mod node_clients;
pub mod script_names;

ghost use Rattle.std.specs.Prelude.{◌≡◌, ◌⊎◌, ◌<◌, ◌≤◌, ◌↔◌, ℕ, List, [], length, option_map, option_copied, IsTrue, IsErrOf, IsOkUnless, IfOk, MatchOption, OnOk, OnErr};
ghost use Rattle.ra_stamp.specs.NodeId.{IsNodeNumber};
ghost use Rattle.ra_schedule.specs.declared.script.Op.{Op};
ghost use Rattle.ra_schedule.specs.Script.{IsHeldAfter, Fits};
ghost use Rattle.ra_schedule.specs.AddedOps.{HasRoomFor, IsFault};

use crate::{AddClientError, AddOpError, NewScriptError};
use ra_stamp::{Mode, Name, NodeCount, NodeId};
use std::alloc::Global;
use std::marker::Model;

/// An operation of a client.
#[derive(Clone, Copy, Debug, PartialEq, Eq)]
pub enum Op {
    /// It locks the name, and goes on when it has it.
    Lock(Name, Mode),
    /// It unlocks the name.
    Unlock(Name),
}

/// A client: its node, and what it does.
#[derive(Drop)]
struct Client {
    node: NodeId,
    ops: Vec<Op>,
}

impl Model for Client {
    ghost use Rattle.ra_schedule.specs.Script.{ScriptClient};

    ghost Value = { ScriptClient };

    ghost view = { λ c. record { node = c.node; ops = c.ops.items } };
}

impl Client {
    ghost use Rattle.ra_schedule.specs.AddedOps.{AnswersOp};

    /// Adds an operation after the others, in time linear in the number of these.
    ///
    /// # Errors
    ///
    /// Those of `Script::add_op`, except for `Clients`.
    fn add_op(&mut self, op: Op) -> Result<(), AddOpError>
        ensures { AnswersOp self.old op result self.new }
    {
        // A client has at most 1,024 operations, so that these are looked through, and no table of its names is kept.
        if let Some(fault) = fault_of(&self.ops, &op) {
            return Err(fault);
        }
        self.ops.push(op)?;
        Ok(())
    }
}

/// What clients do at the nodes of a cluster. Contracts see how many nodes there are, and for each client its node and
/// its operations. There are at most 64 clients, each at one of the nodes, with at most 1,024 operations. None locks a
/// name that it has, or unlocks one that it has not. A client may have names at the end.
pub struct Script {
    nodes: NodeCount,
    clients: Vec<Client>,
}

// What it owns is freed here, so that no other crate proves how each of its parts is dropped.
impl Drop for Script {
    fn drop(self) {
        let Script {
            nodes: _,
            clients: _,
        } = self;
    }
}

impl Model for Script {
    ghost use Rattle.ra_schedule.specs.Script.{ScriptState, IsScript};

    ghost Value = { ScriptState };

    ghost view = { λ s. record { nodes = s.nodes; clients = s.clients.items } };

    ghost invariant = { λ s. IsScript (record { nodes = s.nodes; clients = s.clients.items }) };
}

impl Script {
    ghost use Rattle.ra_schedule.specs.Script.{IsScript, LastHas, AddsOp, client_at, op_at, with_client};

    /// The most clients that a script may have.
    pub const MAX_CLIENTS: usize = 64;

    /// The most operations that a client may have.
    pub const MAX_OPS: usize = 1024;

    /// Makes the script of this many nodes that has no client yet. What it keeps grows by `alloc`.
    ///
    /// # Errors
    ///
    /// The first that holds:
    ///
    /// 1. `Nodes`: the number of nodes is not 1 to 64.
    /// 2. `Memory`: memory ran out.
    pub fn new(alloc: Global, nodes: u16) -> Result<Script, NewScriptError>
        ensures ok { IfOk result (λ script. script ≡ record { nodes = nodes; clients = [] }) }
        ensures nodes { IsErrOf result NewScriptError.Nodes ↔ (IsNodeNumber nodes → ⊥) }
        // Memory is the one other error.
        ensures allowed { IsOkUnless result NewScriptError.Memory ↔ IsNodeNumber nodes }
        ensures script { IfOk result IsScript }
    {
        let Some(nodes) = NodeCount::new(nodes) else {
            return Err(NewScriptError::Nodes);
        };
        Ok(Script {
            nodes,
            clients: Vec::new(alloc),
        })
    }

    /// Adds a client at this node, after the others, with nothing to do yet, in amortized constant time.
    ///
    /// # Errors
    ///
    /// The first that holds, and the script is as before:
    ///
    /// 1. `Clients`: there are 64 clients, or the node is not 1 to the number of nodes.
    /// 2. `Memory`: memory ran out.
    pub fn add_client(&mut self, alloc: Global, node: u16) -> Result<(), AddClientError>
        ensures ok { OnOk result (self.new ≡ with_client self.old node) }
        ensures clients { IsErrOf result AddClientError.Clients
            ↔ ((64 ≤ length self.old.clients) ⊎ ((1 ≤ node) × (node ≤ self.old.nodes) → ⊥)) }
        // Memory is the one other error.
        ensures allowed { IsOkUnless result AddClientError.Memory
            ↔ ((length self.old.clients < 64) × (1 ≤ node) × (node ≤ self.old.nodes)) }
        ensures err { OnErr result (self.new ≡ self.old) }
        ensures script { IsScript self.new }
    {
        if self.clients.len() >= Script::MAX_CLIENTS {
            return Err(AddClientError::Clients);
        }
        let Some(node) = self.nodes.node(node) else {
            return Err(AddClientError::Clients);
        };
        self.clients.push(Client {
            node,
            ops: Vec::new(alloc),
        })?;
        Ok(())
    }

    /// Adds an operation of the last client, after its others, in time linear in the number of these.
    ///
    /// # Errors
    ///
    /// The first that holds, and the script is as before:
    ///
    /// 1. `Clients`: there is no client.
    /// 2. `Limit`: the last client has 1,024 operations.
    /// 3. `NotHeld`: it unlocks a name that the client does not have then.
    /// 4. `AlreadyHeld`: it locks a name that the client has.
    /// 5. `Memory`: memory ran out.
    pub fn add_op(&mut self, op: Op) -> Result<(), AddOpError>
        ensures ok { OnOk result (AddsOp self.old op self.new) }
        ensures clients { IsErrOf result AddOpError.Clients ↔ (self.old.clients ≡ []) }
        ensures limit { IsErrOf result AddOpError.Limit
            ↔ ((ops : List Op) × LastHas self.old ops × (1024 ≤ length ops)) }
        ensures not_held { IsErrOf result AddOpError.NotHeld
            ↔ ((ops : List Op) × LastHas self.old ops × (length ops < 1024)
            × (name : List ℕ) × (op ≡ Op.Unlock name) × (IsHeldAfter ops name → ⊥)) }
        ensures already_held { IsErrOf result AddOpError.AlreadyHeld
            ↔ ((ops : List Op) × LastHas self.old ops × (length ops < 1024)
            × (name : List ℕ) × (mode : Mode) × (op ≡ Op.Lock name mode) × IsHeldAfter ops name) }
        // Memory is the one other error.
        ensures allowed { IsOkUnless result AddOpError.Memory
            ↔ ((ops : List Op) × LastHas self.old ops × (length ops < 1024) × Fits ops op) }
        ensures err { OnErr result (self.new ≡ self.old) }
        ensures script { IsScript self.new }
    {
        let Some(last) = self.clients.last_mut() else {
            return Err(AddOpError::Clients);
        };
        last.add_op(op)
    }

    /// Does nothing. Its contract is what holds of every script, for proofs that use no other call of it.
    pub fn limits_hold(&self)
        ensures { IsScript self.now }
    {
        // For the proof: a script meets its invariant.
        let _ = &self.nodes;
    }

    /// Returns how many nodes there are, 1 to 64. It does not allocate.
    pub fn nodes(&self) -> u16
        ensures value { result ≡ self.now.nodes }
        ensures script { IsScript self.now }
    {
        self.nodes.get()
    }

    /// Returns how many clients there are, at most 64. It does not allocate.
    pub fn clients(&self) -> u32
        ensures value { result ≡ length self.now.clients }
        ensures script { IsScript self.now }
    {
        self.clients.len() as u32
    }

    /// Returns the node of the client with this number, counted from 1, or `None` if there is no such client. It does
    /// not allocate.
    pub fn node_of(&self, client: u32) -> Option<NodeId>
        ensures value { result ≡ option_map (λ c. c.node) (client_at self.now client) }
        ensures script { IsScript self.now }
    {
        match self.client(client) {
            Some(client) => Some(client.node),
            None => None,
        }
    }

    /// Returns how many operations the client with this number has, at most 1,024, or `None` if there is no such
    /// client. It does not allocate.
    pub fn ops_of(&self, client: u32) -> Option<u64>
        ensures value { result ≡ option_map (λ c. length c.ops) (client_at self.now client) }
        ensures script { IsScript self.now }
    {
        match self.client(client) {
            Some(client) => Some(client.ops.len() as u64),
            None => None,
        }
    }

    /// Returns the operation at this place, counted from 0, of the client with this number, or `None` if there is no
    /// such client or no operation. It does not allocate.
    pub fn op(&self, client: u32, place: u64) -> Option<Op>
        ensures value { result ≡ op_at self.now client place }
        ensures script { IsScript self.now }
    {
        match self.client(client) {
            Some(client) => client.ops.get(place as usize).copied(),
            None => None,
        }
    }

    /// Returns the operations of the client with this number, or `None` if there is no such client.
    fn ops(&self, client: u32) -> Option<&[Op]>
        ensures { option_copied result ≡ option_map (λ c. c.ops) (client_at self.now client) }
    {
        match self.client(client) {
            Some(client) => Some(&client.ops),
            None => None,
        }
    }

    /// Returns the client with this number, or `None`.
    fn client(&self, client: u32) -> Option<&Client>
        ensures value { option_copied result ≡ client_at self.now client }
        ensures script { IsScript self.now }
    {
        let clients = &self.clients;
        if client == 0 {
            return None;
        }
        clients.get(client as usize - 1)
    }
}

/// Returns why an operation can't be added after these, or `None` if it fits after them, and they are fewer than a
/// client may have.
fn fault_of(ops: &[Op], op: &Op) -> Option<AddOpError>
    ensures { MatchOption result (HasRoomFor ops.now op.now) (IsFault ops.now op.now) }
{
    if ops.len() >= Script::MAX_OPS {
        return Some(AddOpError::Limit);
    }
    match op {
        Op::Lock(name, _) if is_held_after(ops, name) => Some(AddOpError::AlreadyHeld),
        Op::Unlock(name) if !is_held_after(ops, name) => Some(AddOpError::NotHeld),
        _ => None,
    }
}

/// Returns whether a client that did these operations has the name. The last one about the name says so, and is looked
/// for from the end.
fn is_held_after(ops: &[Op], name: &Name) -> bool
    ensures { IsTrue result ↔ IsHeldAfter ops.now name.now }
{
    let mut rest = ops;
    while let Some((last, before)) = rest.split_last() {
        match last {
            Op::Lock(locked, _) if locked == name => return true,
            Op::Unlock(unlocked) if unlocked == name => return false,
            _ => rest = before,
        }
    }
    false
}
