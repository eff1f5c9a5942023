//! Which clients wait, are queued and hold after lines of a trace or of a mark log, or after marks.
use crate::trace_notes::open_request::{OpenRequest, Stage};
use ra_stamp::{Entry, Mark, Mode, Name, NodeId, Stamp};
use ra_trace::Line;
use ra_world::Step;
use std::alloc::Global;
use std::collections::HashMap;

/// What tells a client that waits, is queued or holds from the others: its node, its number there, and the name.
pub type ClientKey = (NodeId, u32, Name);

/// Returns the key of an entry.
fn key_of(entry: &Entry) -> ClientKey {
    (entry.stamp.node, entry.client, entry.name)
}

/// Which requests are looked for.
#[derive(Clone, Copy)]
pub enum Sought {
    /// Those at this stage.
    At(Stage),
    /// Those at this stage on a name.
    On(Stage, Name),
    /// The one that waits for a name or holds it at this node.
    AtNode(NodeId, Name),
    /// Those of this client for a name, at any node.
    Of(u32, Name),
    /// Those that block this entry.
    Blocking(Entry),
    /// Those at this stage that block this entry.
    BlockingAt(Stage, Entry),
}

impl OpenRequest {
    /// Returns whether it is one of these.
    fn is_one_of(&self, sought: &Sought) -> bool {
        match sought {
            Sought::At(stage) => self.stage.is(*stage),
            Sought::On(stage, name) => self.stage.is(*stage) && self.is_on(name),
            Sought::AtNode(node, name) => self.is_on(name) && self.entry.stamp.node == *node,
            Sought::Of(client, name) => self.is_on(name) && self.entry.client == *client,
            Sought::Blocking(entry) => self.blocks(entry),
            Sought::BlockingAt(stage, entry) => self.stage.is(*stage) && self.blocks(entry),
        }
    }
}

/// Which clients wait, are queued and hold after some lines or marks.
#[derive(Drop)]
pub struct OpenRequests {
    pub clients: HashMap<ClientKey, OpenRequest>,
    /// Whether there was memory for all of them.
    pub is_whole: bool,
}

impl OpenRequests {
    /// Makes the requests of a text before its first line.
    pub fn new(alloc: Global) -> OpenRequests {
        OpenRequests {
            clients: HashMap::new(alloc),
            is_whole: true,
        }
    }

    /// Takes the line with this number. A client that asks is queued until its request is made.
    pub fn take_line(&mut self, line: &Option<Line>, number: u64) {
        match line {
            Some(
                Line::Stepped(
                    Step::Ask {
                        node,
                        client,
                        name,
                        mode,
                    },
                ),
            ) => self.take_ask((*node, *client, *name), *mode, number),
            Some(Line::Stepped(Step::Cancel { node, client, name })) => {
                self.take_cancel(*node, *client, name);
            }
            Some(Line::Marked(mark)) => self.take_mark(mark, number),
            _ => {}
        }
    }

    /// Takes that a client asks in the line with this number.
    pub fn take_ask(&mut self, asker: ClientKey, mode: Mode, number: u64) {
        let (node, client, name) = asker;
        let queued = Entry {
            name,
            stamp: Stamp { seq: 1, node },
            client,
            mode,
        };
        self.keep(&queued, Stage::Queued, number);
    }

    /// Takes the mark in the line with this number. A release and a withdrawal show in their marks.
    pub fn take_mark(&mut self, mark: &Mark, number: u64) {
        match mark {
            Mark::Requested(entry) => self.keep(entry, Stage::Waits, number),
            Mark::Entered(entry) => self.keep(entry, Stage::Holds, number),
            Mark::Left(entry) | Mark::Withdrawn(entry) => {
                self.clients.remove(&key_of(entry));
            }
        }
    }

    /// Keeps that the client of an entry is at a stage from this line on, unless memory runs out.
    fn keep(&mut self, entry: &Entry, stage: Stage, since: u64) {
        let open = OpenRequest {
            entry: *entry,
            stage,
            since,
        };
        self.is_whole = self.is_whole && self.clients.insert(key_of(entry), open).is_ok();
    }

    /// Takes that a client at a node cancels a name. If it is queued, it is so no more, and no mark says it.
    fn take_cancel(&mut self, node: NodeId, client: u32, name: &Name) {
        let key = (node, client, *name);
        if matches!(self.clients.get(&key), Some(request) if request.stage.is(Stage::Queued)) {
            self.clients.remove(&key);
        }
    }

    /// Returns the request of an entry, if that waits or holds.
    pub fn request_of(&self, entry: &Entry) -> Option<&OpenRequest> {
        match self.clients.get(&key_of(entry)) {
            Some(request) if !request.stage.is(Stage::Queued) && request.entry == *entry => {
                Some(request)
            }
            _ => None,
        }
    }

    /// Returns the first of these requests after a line, in the order of the lines in which they began. The cost is
    /// linear in how many wait, are queued and hold.
    pub fn next_of<'a>(&'a self, after: u64, sought: &Sought) -> Option<&'a OpenRequest> {
        let (mut found, mut first) = (None, u64::MAX);
        for (_, request) in self.clients.iter() {
            if after < request.since && request.since < first && request.is_one_of(sought) {
                found = Some(request);
                first = request.since;
            }
        }
        found
    }

    /// Returns how many requests are of these. The cost is linear in how many wait, are queued and hold.
    pub fn count_of(&self, sought: &Sought) -> u64 {
        let mut count = 0;
        for (_, request) in self.clients.iter() {
            if request.is_one_of(sought) {
                count = u64::saturating_add(count, 1);
            }
        }
        count
    }
}
