//! Who holds, waits and is queued at the end of the part, and who waits for whom.
use crate::timeline::{LockKey, LockSpan};
use ra_deadlock::{Request, Stage, deadlock_in};
use ra_stamp::{Entry, Memory, Name, NodeId, Stamp};
use std::alloc::Global;
use std::collections::HashMap;

/// What a client does with a name.
#[derive(Clone, Copy)]
pub enum LockStage {
    Holds,
    Waits,
    Queued,
}

impl LockStage {
    /// Returns whether it is this stage.
    pub fn is(self, stage: LockStage) -> bool {
        self as u8 == stage as u8
    }
}

/// A lock that is not over.
#[derive(Clone, Copy)]
pub struct OpenLock {
    pub span: LockSpan,
    pub stage: LockStage,
}

impl OpenLock {
    /// Returns the lock of a span that is not over.
    fn of(span: &LockSpan) -> OpenLock {
        let stage = if span.entered.is_some() {
            LockStage::Holds
        } else if span.requested.is_some() {
            LockStage::Waits
        } else {
            LockStage::Queued
        };
        OpenLock { span: *span, stage }
    }

    /// Returns its request, of which the number is 0 if it has none yet.
    fn request(&self) -> Request {
        let key = &self.span.key;
        Request {
            entry: Entry {
                name: key.name,
                mode: self.span.mode,
                stamp: Stamp {
                    seq: self.span.number,
                    node: key.node,
                },
                client: key.client,
            },
            stage: match self.stage {
                LockStage::Holds => Stage::Holds,
                LockStage::Waits => Stage::Waits,
                LockStage::Queued => Stage::Queued,
            },
        }
    }
}

/// The locks that are not over at the end of the part, in the order in which they were asked for.
#[derive(Drop)]
pub struct OpenLocks {
    pub all: Vec<OpenLock>,
    /// Those that wait or are queued in a circle: each waits for the client of the next one, and the last one for that of
    /// the first.
    pub circle: Vec<LockKey>,
    /// Those of the circle, and those that they wait for: whether each is granted.
    stuck: HashMap<(NodeId, u32, Name), bool>,
}

impl OpenLocks {
    /// Makes none.
    pub fn new(alloc: Global) -> OpenLocks {
        OpenLocks {
            all: Vec::new(alloc),
            circle: Vec::new(alloc),
            stuck: HashMap::new(alloc),
        }
    }

    /// Returns those of these spans, and finds the clients that wait for one another.
    pub fn of(alloc: Global, spans: &[LockSpan]) -> Result<OpenLocks, Memory> {
        let mut open = OpenLocks::new(alloc);
        let mut requests = Vec::new(alloc);
        for span in spans {
            if span.ended.is_none() {
                let lock = OpenLock::of(span);
                requests.push(lock.request())?;
                open.all.push(lock)?;
            }
        }
        for request in &deadlock_in(alloc, &requests)? {
            open.take_stuck(request)?;
        }
        Ok(open)
    }

    /// Takes the next request of the circle.
    fn take_stuck(&mut self, request: &Request) -> Result<(), Memory> {
        let entry = &request.entry;
        let key = LockKey {
            node: entry.stamp.node,
            client: entry.client,
            name: entry.name,
        };
        let is_granted = request.is_granted();
        self.stuck
            .insert((key.node, key.client, key.name), is_granted)?;
        if is_granted {
            return Ok(());
        }
        self.circle.push(key)?;
        Ok(())
    }

    /// Returns whether the lock of a client for a name is in the circle and waits, or is queued.
    pub fn is_in_circle(&self, key: &LockKey) -> bool {
        matches!(
            self.stuck.get(&(key.node, key.client, key.name)),
            Some(false)
        )
    }

    /// Returns the first lock that is in the way of this one: one of the circle, if there is any.
    pub fn blocker_of(&self, waiting: &OpenLock) -> Option<OpenLock> {
        let own = waiting.request();
        let mut first = None;
        for other in &self.all {
            if other.request().is_in_the_way(&own) {
                let key = &other.span.key;
                if self.stuck.get(&(key.node, key.client, key.name)).is_some() {
                    return Some(*other);
                }
                if first.is_none() {
                    first = Some(*other);
                }
            }
        }
        first
    }
}
