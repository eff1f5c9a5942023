//! Whether the marks of a run are a script's.
ghost use Rattle.std.specs.Prelude.{◌≡◌, ◌↔◌, ◌≤◌, All, IsTrue};
ghost use Rattle.ra_cluster.specs.Plan as spec;
ghost use Rattle.ra_cluster.specs.Plan.{MeetsPlan, IsFollowed, IsNextMark, IsRequestFor, client_of_mark};

use ra_schedule::{Op, Script};
use ra_stamp::{Entry, Mark, Name, NodeId};

/// Returns whether the marks that name each client are its operations' marks, in order, at its node, and no mark
/// names a client that the script does not have. It does not allocate. It takes time linear in the number of clients
/// times the number of marks.
pub fn meets_plan(script: &Script, marks: &[Mark]) -> bool
    ensures { IsTrue result ↔ MeetsPlan script.now marks.now }
{
    let count = script.clients();
    if !name_clients(marks, count) {
        return false;
    }
    for place in 0..count {
        if !follows_ops(script, place + 1, marks) {
            return false;
        }
    }
    true
}

/// Returns whether each mark names one of this many clients.
fn name_clients(marks: &[Mark], count: u32) -> bool
    ensures { IsTrue result
        ↔ All (λ mark. (1 ≤ client_of_mark mark) × (client_of_mark mark ≤ count)) marks.now }
{
    for mark in marks {
        let client = mark.entry().client;
        if client < 1 || count < client {
            return false;
        }
    }
    true
}

/// Returns whether a mark says that a request is made.
fn is_request(mark: &Mark) -> bool
    ensures { result ≡ spec.is_request mark.now }
{
    match mark {
        Mark::Requested(_) => true,
        Mark::Entered(_) | Mark::Left(_) | Mark::Withdrawn(_) => false,
    }
}

/// Returns whether this client exists, and the marks that name it are its operations' marks, in order, at its node.
fn follows_ops(script: &Script, client: u32, marks: &[Mark]) -> bool
    ensures { IsTrue result ↔ IsFollowed script.now client marks.now }
{
    let Some(node) = script.node_of(client) else {
        return false;
    };
    // The operation that the next mark is about, and whether that is requested already.
    let mut place = 0;
    let mut requested = false;
    for mark in marks {
        if mark.entry().client != client {
            continue;
        }
        let Some(op) = script.op(client, place) else {
            return false;
        };
        if !is_next(node, &op, requested, mark) {
            return false;
        }
        requested = is_request(mark);
        if !requested {
            place += 1;
        }
    }
    if requested {
        return false;
    }
    script.op(client, place).is_none()
}

/// Returns whether a mark is the next one of an operation at a node. `requested` says whether it is requested already.
fn is_next(node: NodeId, op: &Op, requested: bool, mark: &Mark) -> bool
    ensures { IsTrue result ↔ IsNextMark node op.now requested mark.now }
{
    match op {
        Op::Lock(name, mode) => match mark {
            Mark::Requested(entry) => {
                !requested && is_at(entry, node, name) && entry.mode == *mode
            }
            Mark::Entered(entry) => requested && is_at(entry, node, name) && entry.mode == *mode,
            Mark::Left(_) | Mark::Withdrawn(_) => false,
        },
        Op::Unlock(name) => match mark {
            Mark::Left(entry) => !requested && is_at(entry, node, name),
            Mark::Requested(_) | Mark::Entered(_) | Mark::Withdrawn(_) => false,
        },
    }
}

/// Returns whether a request was made at a node for a name.
fn is_at(entry: &Entry, node: NodeId, name: &Name) -> bool
    ensures { IsTrue result ↔ IsRequestFor node name.now entry.now }
{
    entry.stamp.node == node && entry.name == *name
}
