//! What a client or a node does by a step, beside what it sends.
use crate::timeline::LockKey;
use ra_stamp::{Entry, Mark, Mode, NodeId};
use ra_world::Step;

/// What is done.
#[derive(Clone, Copy)]
pub enum Act {
    /// A client asks for a name in a mode.
    Ask(LockKey, Mode),
    /// A client leaves a name.
    Leave(LockKey),
    /// A client gives up a name for which it waits or is queued.
    Cancel(LockKey),
    /// A node forgets names.
    Forget(NodeId),
}

/// Returns the client and the name of an entry.
fn key_of(entry: &Entry) -> LockKey {
    LockKey {
        node: entry.stamp.node,
        client: entry.client,
        name: entry.name,
    }
}

impl Act {
    /// Returns what is done by a step.
    pub fn of_step(step: &Step) -> Option<Act> {
        match *step {
            Step::Ask {
                node,
                client,
                name,
                mode,
            } => Some(Act::Ask(LockKey { node, client, name }, mode)),
            Step::Leave { node, client, name } => {
                Some(Act::Leave(LockKey { node, client, name }))
            }
            Step::Cancel { node, client, name } => {
                Some(Act::Cancel(LockKey { node, client, name }))
            }
            Step::Forget { node } => Some(Act::Forget(node)),
            Step::Deliver(_) | Step::Lose(_) | Step::Repeat(_) => None,
        }
    }

    /// Returns what is done by the step of a mark. To be granted a name is shown by the client's bar alone.
    pub fn of_mark(mark: &Mark) -> Option<Act> {
        match mark {
            Mark::Requested(entry) => Some(Act::Ask(key_of(entry), entry.mode)),
            Mark::Entered(_) => None,
            Mark::Left(entry) => Some(Act::Leave(key_of(entry))),
            Mark::Withdrawn(entry) => Some(Act::Cancel(key_of(entry))),
        }
    }

    /// Returns the client and the name, if a client acts.
    pub fn key(&self) -> Option<LockKey> {
        match self {
            Act::Ask(key, _) | Act::Leave(key) | Act::Cancel(key) => Some(*key),
            Act::Forget(_) => None,
        }
    }
}
