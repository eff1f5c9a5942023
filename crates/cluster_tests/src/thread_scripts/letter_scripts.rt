//! Scripts of clients that use names of one letter.
use Does::{Locks, Shares, Unlocks};
use ra_schedule::{Op, Script};
use ra_stamp::{Mode, Name};
use std::alloc::Global;

/// What a client does with the name of one letter.
#[derive(Clone, Copy)]
pub enum Does {
    /// It locks it exclusively.
    Locks(u8),
    /// It locks it shared.
    Shares(u8),
    /// It unlocks it.
    Unlocks(u8),
}

/// A client at the node with this number, which does these, in order.
#[derive(Clone, Copy)]
pub struct Client(pub u16, pub &'static [Does]);

/// A client locks `r` exclusively.
pub const LOCKS_R: &[Does] = &[Locks(b'r')];

/// A client locks `r` exclusively, and unlocks it.
pub const USES_R: &[Does] = &[Locks(b'r'), Unlocks(b'r')];

/// A client locks `r` shared, and unlocks it.
pub const READS_R: &[Does] = &[Shares(b'r'), Unlocks(b'r')];

/// A client locks `a` exclusively, and unlocks it.
pub const USES_A: &[Does] = &[Locks(b'a'), Unlocks(b'a')];

/// A client locks `b` exclusively, and unlocks it.
pub const USES_B: &[Does] = &[Locks(b'b'), Unlocks(b'b')];

/// A client at nodes 1 and 2 each uses `r`.
pub const TWO_WRITERS: &[Client] = &[Client(1, USES_R), Client(2, USES_R)];

/// Returns the operation.
fn op(does: Does) -> Option<Op> {
    let letter = match does {
        Locks(letter) | Shares(letter) | Unlocks(letter) => letter,
    };
    let name = Name::new(&[letter]).ok()?;
    Some(match does {
        Locks(_) => Op::Lock(name, Mode::Exclusive),
        Shares(_) => Op::Lock(name, Mode::Shared),
        Unlocks(_) => Op::Unlock(name),
    })
}

/// Adds an operation of the last client. Returns whether that succeeds.
fn adds_op(script: &mut Script, does: Does) -> bool {
    match op(does) {
        Some(op) => script.add_op(op).is_ok(),
        None => false,
    }
}

/// Adds a client at a node. Returns whether that succeeds.
fn adds_client(alloc: Global, script: &mut Script, node: u16, ops: &[Does]) -> bool {
    if script.add_client(alloc, node).is_err() {
        return false;
    }
    for does in ops {
        if !adds_op(script, *does) {
            return false;
        }
    }
    true
}

/// Adds these clients. Returns whether that succeeds.
fn adds_clients(alloc: Global, script: &mut Script, clients: &[Client]) -> bool {
    for client in clients {
        if !adds_client(alloc, script, client.0, client.1) {
            return false;
        }
    }
    true
}

/// Makes the script of this many nodes with these clients.
pub fn script_of(alloc: Global, nodes: u16, clients: &[Client]) -> Option<Script> {
    let mut script = Script::new(alloc, nodes).ok()?;
    if adds_clients(alloc, &mut script, clients) {
        Some(script)
    } else {
        None
    }
}
