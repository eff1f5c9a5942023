//! The lines before a wrong line, read once more for what they say of the wrong line.
use crate::trace_notes::open_requests::OpenRequests;
use ra_stamp::{Entry, Mark, Message};
use ra_text::cut;
use ra_trace::Line;
use ra_world::Step;
use std::alloc::Global;

/// The numbers of nodes, and 0.
const NUMBERS: usize = 65;

/// A number of a name, and the line from which it is known, counted from 1.
#[derive(Clone, Copy)]
pub struct NumberLine {
    pub number: u64,
    pub line: u64,
}

/// Keeps a number if it is above the greatest one so far.
pub fn keep_greatest(greatest: &mut Option<NumberLine>, number: u64, line: u64) {
    if !matches!(greatest, Some(kept) if number <= kept.number) {
        *greatest = Some(NumberLine { number, line });
    }
}

/// What the lines before a wrong line of a trace say of the wrong line.
#[derive(Drop)]
pub struct Replay {
    /// How many nodes there are, if the first line begins a trace.
    pub nodes: Option<u16>,
    /// The last line of a step, counted from 1, or 0.
    pub step_at: u64,
    /// Which clients wait, are queued and hold after these lines.
    pub open: OpenRequests,
    /// The mark in the wrong line, if there is one. The next six fields are about its entry.
    pub mark: Option<Mark>,
    /// The greatest number that was granted for its name.
    pub granted: Option<NumberLine>,
    /// The line in which it was released.
    pub released_at: Option<u64>,
    /// The line in which it was withdrawn.
    pub withdrawn_at: Option<u64>,
    /// The last entry that its node released on its name, and the line of the release.
    pub released: Option<(Entry, u64)>,
    /// The highest number that its node has met for its name, from START or from requests.
    pub met: Option<NumberLine>,
    /// For each number of a node, whether a REPLY of that node to the request of the mark was delivered.
    replied: [bool; NUMBERS],
    /// The message that the wrong line delivers, loses or repeats, if it does.
    pub message: Option<Message>,
    /// The last line that delivered or lost this message, and whether it was lost.
    pub taken: Option<(u64, bool)>,
    /// The last line that delivered the REQUEST which this message answers.
    pub came: Option<u64>,
}

impl Replay {
    /// Makes what no lines say of a wrong line with this mark or this message.
    pub fn new(alloc: Global, mark: Option<Mark>, message: Option<Message>) -> Replay {
        Replay {
            nodes: None,
            step_at: 0,
            open: OpenRequests::new(alloc),
            mark,
            granted: None,
            released_at: None,
            withdrawn_at: None,
            released: None,
            met: None,
            replied: [false; NUMBERS],
            message,
            taken: None,
            came: None,
        }
    }

    /// Reads these lines for what they say of the wrong line after them, `subject`, which is empty if the text ends
    /// there. The cost is linear in them.
    pub fn of(alloc: Global, lines: &[u8], subject: &[u8]) -> Replay {
        let (mark, message) = match &Line::parse(subject) {
            Some(Line::Marked(mark)) => (Some(*mark), None),
            Some(Line::Stepped(Step::Deliver(sent) | Step::Lose(sent) | Step::Repeat(sent))) => {
                (None, Some(*sent))
            }
            _ => (None, None),
        };
        let mut replay = Replay::new(alloc, mark, message);
        let mut rest = lines;
        for number in 1..u64::MAX {
            let (line, Some(after)) = cut(rest, b'\n') else {
                break;
            };
            replay.take(line, number);
            rest = after;
        }
        replay
    }

    /// Notes what the line with this number says.
    fn take(&mut self, line: &[u8], number: u64) {
        let line = Line::parse(line);
        self.open.take_line(&line, number);
        if let Some(Line::Stepped(_)) = line {
            self.step_at = number;
        }
        match &line {
            Some(Line::First { nodes, start, .. }) => {
                self.nodes = Some(nodes.get());
                keep_greatest(&mut self.met, *start, number);
            }
            Some(Line::Stepped(Step::Deliver(message))) => self.take_message(
                message, number, false,
            ),
            Some(Line::Stepped(Step::Lose(message))) => self.take_message(message, number, true),
            Some(Line::Marked(mark)) => self.take_mark(mark, number),
            _ => {}
        }
    }

    /// Notes what the line with this number, which delivers or loses a message, says of the wrong line:
    ///
    /// - If the wrong line takes the same message: this line took it, and perhaps lost it.
    /// - If the wrong line takes a REPLY, and this line delivers the REQUEST that it answers: the REQUEST came in this
    ///   line.
    /// - If the wrong line has a mark, and this line delivers a REPLY to its request: that node has replied.
    /// - If it delivers a REQUEST for the name of the mark to its node: the node has met the number.
    fn take_message(&mut self, message: &Message, number: u64, is_lost: bool) {
        if let Some(sought) = self.message {
            if *message == sought {
                self.taken = Some((number, is_lost));
            } else if let Message::Request {
                from,
                to,
                name,
                seq,
                ..
            } = *message
                && !is_lost
            {
                let reply = Message::Reply {
                    from: to,
                    to: from,
                    name,
                    seq,
                };
                if sought == reply {
                    self.came = Some(number);
                }
            }
        } else if !is_lost && let Some(mark) = &self.mark {
            let entry = mark.entry();
            let from = message.from();
            if let Message::Request { to, name, seq, .. } = *message
                && to == entry.stamp.node
                && name == entry.name
            {
                keep_greatest(&mut self.met, seq, number);
            }
            let reply = Message::Reply {
                from,
                to: entry.stamp.node,
                name: entry.name,
                seq: entry.stamp.seq,
            };
            if *message == reply
                && let Some(has) = self.replied.get_mut(usize::from(from.get()))
            {
                *has = true;
            }
        }
    }

    /// Notes what the mark in the line with this number says of the mark in the wrong line: a grant for the same name,
    /// a request or a release of it by the same node, or that the very request was withdrawn.
    fn take_mark(&mut self, mark: &Mark, number: u64) {
        let Some(subject) = self.mark else {
            return;
        };
        let entry = *subject.entry();
        let made = mark.entry();
        if made.name != entry.name {
            return;
        }
        match mark {
            Mark::Requested(_) if made.stamp.node == entry.stamp.node => {
                keep_greatest(&mut self.met, made.stamp.seq, number);
            }
            Mark::Entered(_) => keep_greatest(&mut self.granted, made.stamp.seq, number),
            Mark::Left(_) if made.stamp.node == entry.stamp.node => {
                if *made == entry {
                    self.released_at = Some(number);
                }
                self.released = Some((*made, number));
            }
            Mark::Withdrawn(_) if *made == entry => self.withdrawn_at = Some(number),
            _ => {}
        }
    }

    /// Returns the first of the other nodes whose REPLY to the request of an entry was not delivered, and how many more
    /// such nodes there are. Returns `None` if each other node has replied.
    pub fn missing(&self, entry: &Entry) -> Option<(u16, u16)> {
        let (mut first, mut others) = (None, 0);
        for before in 0..self.nodes.unwrap_or(0) {
            let node = before + 1;
            if node != entry.stamp.node.get()
                && matches!(self.replied.get(usize::from(node)), Some(false))
            {
                match first {
                    None => first = Some(node),
                    Some(_) => others = u16::saturating_add(others, 1),
                }
            }
        }
        match first {
            Some(first) => Some((first, others)),
            None => None,
        }
    }
}
