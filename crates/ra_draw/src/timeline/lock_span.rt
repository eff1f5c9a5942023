//! How long clients wait for locks and hold them.
use crate::timeline::Moment;
use indexmap::IndexMap;
use ra_stamp::{Mark, Memory, Mode, Name, NodeId};

/// A client at a node, and a name that it asks for.
#[derive(Clone, Copy)]
pub struct LockKey {
    pub node: NodeId,
    pub client: u32,
    pub name: Name,
}

/// A client asks for a name, gets a number for its request, is granted the name and gives it back, or gives up before,
/// as far as the run goes.
#[derive(Clone, Copy)]
pub struct LockSpan {
    pub key: LockKey,
    pub mode: Mode,
    pub asked: Moment,
    /// When its request got a number: until then the client is queued.
    pub requested: Option<Moment>,
    /// That number, or 0 before.
    pub number: u64,
    pub entered: Option<Moment>,
    /// When it gave the name back, or gave up.
    pub ended: Option<Moment>,
}

/// All lock spans, in the order in which they were asked for, and the places of those that are not over.
#[derive(Drop)]
pub struct LockSpans {
    pub all: Vec<LockSpan>,
    pub open: IndexMap<(NodeId, u32, Name), usize>,
}

impl LockSpans {
    /// Notes that a client asks.
    pub fn ask(&mut self, key: &LockKey, mode: Mode, asked: Moment) -> Result<(), Memory> {
        let open = (key.node, key.client, key.name);
        let Ok(_) = self.open.insert(open, self.all.len()) else {
            return Err(Memory);
        };
        let span = LockSpan {
            key: *key,
            mode,
            asked,
            requested: None,
            number: 0,
            entered: None,
            ended: None,
        };
        match self.all.push(span) {
            Ok(()) => Ok(()),
            Err(_) => Err(Memory),
        }
    }

    /// Notes that a client gives a name back, or gives up.
    pub fn end(&mut self, key: &LockKey, ended: Moment) {
        if let Some(place) = self.open.swap_remove(&(key.node, key.client, key.name)) {
            if let Some(span) = self.all.get_mut(place) {
                span.ended = Some(ended);
            }
        }
    }

    /// Notes what happens to a client that asked: its request gets a number, or it is granted the name. Everything else
    /// in marks is noted as their steps come.
    pub fn take(&mut self, mark: &Mark, now: Moment) {
        let entry = mark.entry();
        let key = (entry.stamp.node, entry.client, entry.name);
        let Some(place) = self.open.get(&key) else {
            return;
        };
        let Some(span) = self.all.get_mut(*place) else {
            return;
        };
        match mark {
            Mark::Requested(_) => {
                span.requested = Some(now);
                span.number = entry.stamp.seq;
            }
            Mark::Entered(_) => span.entered = Some(now),
            Mark::Left(_) | Mark::Withdrawn(_) => {}
        }
    }
}
