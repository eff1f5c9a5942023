//! Which REPLYs requests still await that no other request blocks, and which message of each dialog is lost or under way.
use crate::note_parts::{push_number_in, push_numbered};
use crate::trace_notes::sent_messages::WatchesMessages;
use ra_stamp::{Entry, Message};
use ra_text::Note;
use ra_world::Step;
use std::alloc::Global;

/// The numbers of nodes, and 0.
const NUMBERS: usize = 65;

/// What a step does to a message.
#[derive(Clone, Copy)]
enum Done {
    Sent,
    Delivered,
    Lost,
    Repeated,
}

/// What became of a message and its copies. Numbers are those of steps, or of their lines, counted from 1.
#[derive(Clone, Copy)]
struct Fate {
    /// The last step that sent it, or 0.
    sent_at: u64,
    /// How many of it are under way.
    under_way: u64,
    /// The last step that lost it, or 0.
    lost_at: u64,
    is_delivered: bool,
}

impl Fate {
    /// A message that was never sent.
    const UNSENT: Fate = Fate {
        sent_at: 0,
        under_way: 0,
        lost_at: 0,
        is_delivered: false,
    };

    /// Takes what the step with this number does to it.
    fn take(&mut self, number: u64, done: Done) {
        match done {
            Done::Sent => {
                self.under_way = self.under_way.saturating_add(1);
                self.sent_at = number;
            }
            Done::Delivered => {
                self.under_way = self.under_way.saturating_sub(1);
                self.is_delivered = true;
            }
            Done::Lost => {
                self.under_way = self.under_way.saturating_sub(1);
                self.lost_at = number;
            }
            Done::Repeated => self.under_way = self.under_way.saturating_add(1),
        }
    }

    /// Adds that a message to or from this node, which is `named` so, is under way or was lost. Returns whether it is or
    /// was. `unit` is what numbers count.
    fn push(&self, note: &mut Note, named: &str, node: u16, unit: &str) -> bool {
        if self.under_way == 0 && self.lost_at == 0 {
            return false;
        }
        push_numbered(note, named, node);
        note.push(", sent in ");
        push_numbered(note, unit, self.sent_at);
        if self.under_way > 0 {
            note.push(", is under way");
        } else {
            note.push(", was lost in ");
            push_numbered(note, unit, self.lost_at);
        }
        true
    }
}

/// The REQUEST of a request to another node, and the REPLY of that one.
#[derive(Clone, Copy)]
struct Dialog {
    request: Fate,
    reply: Fate,
}

impl Dialog {
    /// Returns whether a message of it is under way.
    fn goes_on(&self) -> bool {
        self.request.under_way > 0 || self.reply.under_way > 0
    }

    /// Adds which message with the node of this number is under way or, if none is, was lost last of all. Returns
    /// whether there is one.
    fn push(&self, note: &mut Note, node: u16, unit: &str) -> bool {
        let (to, of) = (
            ": no client blocks it, but its REQUEST to node ",
            ": no client blocks it, but the REPLY of node ",
        );
        if self.request.under_way > 0 && self.reply.under_way == 0 {
            self.request.push(note, to, node, unit)
        } else {
            self.reply.push(note, of, node, unit) || self.request.push(note, to, node, unit)
        }
    }
}

/// A request that waits, and its dialogs with the other nodes, each at the place of its number.
#[derive(Clone, Copy)]
struct Awaiting {
    entry: Entry,
    dialogs: [Dialog; NUMBERS],
}

impl Awaiting {
    /// Returns to the dialog with which node a message belongs, and whether it is its REPLY, if it belongs to one.
    fn dialog_of(&self, message: &Message) -> Option<(usize, bool)> {
        let stamp = self.entry.stamp;
        let (own, other, is_reply) = match message {
            Message::Request { from, to, .. } => (*from, *to, false),
            Message::Reply { from, to, .. } => (*to, *from, true),
        };
        let is_one = own == stamp.node
            && message.seq() == stamp.seq
            && message.name() == self.entry.name;
        if is_one {
            Some((usize::from(other.get()), is_reply))
        } else {
            None
        }
    }

    /// Takes that a step does something to a message of one of the dialogs, or to another one.
    fn take_message(&mut self, message: &Message, number: u64, done: Done) {
        if let Some((place, is_reply)) = self.dialog_of(message)
            && let Some(dialog) = self.dialogs.get_mut(place)
        {
            if is_reply {
                dialog.reply.take(number, done);
            } else {
                dialog.request.take(number, done);
            }
        }
    }

    /// Returns the dialog with a node, if its REPLY was not delivered.
    fn open_dialog(&self, node: u16) -> Option<&Dialog> {
        if node == self.entry.stamp.node.get() {
            return None;
        }
        match self.dialogs.get(usize::from(node)) {
            Some(dialog) if !dialog.reply.is_delivered => Some(dialog),
            _ => None,
        }
    }

    /// Returns the first of this many nodes whose REPLY was not delivered, and how many more there are. A node with
    /// which no message is under way comes before the others, since its REPLY will not come.
    fn missing(&self, nodes: u16) -> Option<(u16, u64)> {
        let (mut first, mut first_lost, mut count) = (None, None, 0);
        for before in 0..nodes {
            let node = u16::saturating_add(before, 1);
            let Some(dialog) = self.open_dialog(node) else {
                continue;
            };
            count = u64::saturating_add(count, 1);
            first = first.or(Some(node));
            if !dialog.goes_on() {
                first_lost = first_lost.or(Some(node));
            }
        }
        match first_lost.or(first) {
            Some(node) => Some((node, count.saturating_sub(1))),
            None => None,
        }
    }
}

/// Requests that wait although no other one blocks them, and the messages that they need.
#[derive(Drop)]
pub struct AwaitedReplies {
    waiting: Vec<Awaiting>,
    /// How many nodes there are.
    nodes: u16,
    /// What numbers count: `line ` or `step `.
    unit: &'static str,
    /// Whether all messages are known.
    is_whole: bool,
}

impl AwaitedReplies {
    /// Makes those of no request, in a run of this many nodes.
    pub fn new(alloc: Global, nodes: u16, unit: &'static str) -> AwaitedReplies {
        AwaitedReplies {
            waiting: Vec::new(alloc),
            nodes,
            unit,
            is_whole: true,
        }
    }

    /// Adds a request that waits.
    pub fn add(&mut self, entry: &Entry) {
        let dialog = Dialog {
            request: Fate::UNSENT,
            reply: Fate::UNSENT,
        };
        let waiting = Awaiting {
            entry: *entry,
            dialogs: [dialog; NUMBERS],
        };
        let is_kept = self.waiting.push(waiting).is_ok();
        self.refuse_if(!is_kept);
    }

    /// Returns whether no request was added.
    pub fn is_empty(&self) -> bool {
        self.waiting.is_empty()
    }

    /// Remembers that some messages are not known, if that is so.
    pub fn refuse_if(&mut self, refused: bool) {
        self.is_whole = self.is_whole && !refused;
    }

    /// Takes what the step with this number does to a message.
    fn take_message(&mut self, message: &Message, number: u64, done: Done) {
        for waiting in self.waiting.iter_mut() {
            waiting.take_message(message, number, done);
        }
    }

    /// Adds which REPLY a request awaits, and which message is under way or was lost for it. Returns whether that is
    /// known.
    fn push_known(&self, note: &mut Note, entry: &Entry) -> bool {
        for waiting in self.waiting.iter() {
            if waiting.entry == *entry
                && let Some((node, others)) = waiting.missing(self.nodes)
                && let Some(dialog) = waiting.open_dialog(node)
                && dialog.push(note, node, self.unit)
            {
                match others {
                    0 => {}
                    1 => note.push(", and it awaits 1 other node, too"),
                    _ => push_number_in(note, ", and it awaits ", others, " other nodes, too"),
                }
                return true;
            }
        }
        false
    }

    /// Adds what a request lacks that waits at the end of a run although no other one blocks it. If that is not known,
    /// it adds `otherwise`.
    pub fn push(&self, note: &mut Note, entry: &Entry, otherwise: &str) {
        if !self.is_whole || !self.push_known(note, entry) {
            note.push(otherwise);
        }
    }
}

impl WatchesMessages for AwaitedReplies {
    fn take_step(&mut self, number: u64, step: &Step) {
        match step {
            Step::Deliver(message) => self.take_message(message, number, Done::Delivered),
            Step::Lose(message) => self.take_message(message, number, Done::Lost),
            Step::Repeat(message) => self.take_message(message, number, Done::Repeated),
            _ => {}
        }
    }

    fn take_sent(&mut self, number: u64, message: &Message) {
        self.take_message(message, number, Done::Sent);
    }
}
