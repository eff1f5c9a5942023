//! Which requests were withdrawn in a trace or a mark log, and who went on because of that.
use crate::note_parts::{push_name_and_mode, push_number_in, push_numbered};
use crate::trace_notes::blocked_requests::BlockedRequests;
use crate::trace_notes::blockers::MAX_CLIENTS;
use crate::trace_notes::line_counts::LineCounts;
use crate::trace_notes::open_requests::OpenRequests;
use ra_stamp::{Entry, Mark, Memory};
use ra_text::{Note, cut};
use ra_trace::Line;
use std::alloc::Global;

/// The most clients that are named as going on because of one withdrawal.
const MAX_GOING_ON: u64 = 3;

/// Which withdrawals of a text a note names, and whether it gives their lines.
#[derive(Clone, Copy)]
pub struct WithdrawalScope {
    /// The first and the last line of the part whose withdrawals it names, counted from 1.
    pub from: u64,
    pub to: u64,
    pub has_lines: bool,
}

/// A withdrawal in a text.
#[derive(Clone, Copy)]
struct Withdrawal<'a> {
    entry: Entry,
    /// The line of the mark, counted from 1.
    number: u64,
    /// The line of its step, or 0 in a mark log, which has no steps.
    step: u64,
    /// The lines after the mark.
    rest: &'a [u8],
}

impl Withdrawal<'_> {
    /// Returns the line in which the client gives up.
    fn line(&self) -> u64 {
        if self.step == 0 {
            self.number
        } else {
            self.step
        }
    }

    /// Returns the request that the same step makes, if it makes one: the request of the next client in the queue of
    /// the node. In a trace that is the next line. A mark log does not tell what belongs to a step.
    fn next_in_queue(&self) -> Option<Entry> {
        if self.step == 0 {
            return None;
        }
        match &Line::parse(cut(self.rest, b'\n').0) {
            Some(Line::Marked(Mark::Requested(entry))) => Some(*entry),
            _ => None,
        }
    }
}

impl WithdrawalScope {
    /// The whole text, with lines.
    pub const WHOLE: WithdrawalScope = WithdrawalScope {
        from: 1,
        to: u64::MAX,
        has_lines: true,
    };

    /// Returns whether a withdrawal is in the part.
    fn has(&self, withdrawal: &Withdrawal<'_>) -> bool {
        self.from <= withdrawal.line() && withdrawal.line() <= self.to
    }

    /// Returns how many requests are withdrawn in the part. The cost is linear in the text.
    fn count(&self, text: &[u8]) -> u64 {
        let (mut rest, mut step, mut count) = (text, 0, 0);
        for number in 1..u64::MAX {
            let (line, Some(after)) = cut(rest, b'\n') else {
                break;
            };
            rest = after;
            match &Line::parse(line) {
                Some(Line::Stepped(_)) => step = number,
                Some(Line::Marked(Mark::Withdrawn(entry))) => {
                    let withdrawal = Withdrawal {
                        entry: *entry,
                        number,
                        step,
                        rest,
                    };
                    if self.has(&withdrawal) {
                        count = u64::saturating_add(count, 1);
                    }
                }
                _ => {}
            }
        }
        count
    }

    /// Adds what the client of an entry does with the name, and in which line.
    fn push_deed(&self, note: &mut Note, entry: &Entry, does: &str, line: u64) {
        note.client(entry.client);
        push_numbered(note, " at node ", entry.stamp.node.get());
        push_name_and_mode(note, does, &entry.name, entry.mode);
        if self.has_lines {
            push_numbered(note, " in line ", line);
        }
    }

    /// Adds a client that goes on after `before` others, unless enough are named.
    fn push_going_on(&self, note: &mut Note, before: u64, entry: &Entry, does: &str, line: u64) {
        if before < MAX_GOING_ON {
            note.push(if before == 0 { ", so " } else { ", and " });
            self.push_deed(note, entry, does, line);
        }
    }

    /// Adds who goes on because of a withdrawal: the next client in the queue of the node, and those whose requests it
    /// blocked and that are granted before another request goes away which blocks them. The cost is linear in the text
    /// up to the last of them.
    fn push_followers(&self, note: &mut Note, open: &OpenRequests, withdrawal: &Withdrawal<'_>) {
        let mut count = 0;
        if let Some(next) = &withdrawal.next_in_queue() {
            let line = withdrawal.number.saturating_add(1);
            self.push_going_on(note, 0, next, " requested ", line);
            count = 1;
        }
        let mut blocked = BlockedRequests::by(open, &withdrawal.entry);
        let mut rest = withdrawal.rest;
        for number in withdrawal.number.saturating_add(1)..u64::MAX {
            if blocked.is_empty() {
                break;
            }
            let (line, Some(after)) = cut(rest, b'\n') else {
                break;
            };
            if let Some(Line::Marked(mark)) = &Line::parse(line)
                && blocked.take(mark)
            {
                self.push_going_on(note, count, mark.entry(), " got ", number);
                count = u64::saturating_add(count, 1);
            }
            rest = after;
        }
        note.push_more(", and ", count, MAX_GOING_ON);
    }

    /// Adds that a client gave up a request, since when that had waited, and who went on because of it.
    fn push_withdrawal(&self, note: &mut Note, open: &OpenRequests, withdrawal: &Withdrawal<'_>) {
        let entry = &withdrawal.entry;
        self.push_deed(note, entry, " gave up ", withdrawal.line());
        if self.has_lines
            && let Some(request) = open.request_of(entry)
        {
            push_numbered(note, ", for which it had waited since line ", request.since);
        }
        self.push_followers(note, open, withdrawal);
    }

    /// Adds that this many requests were withdrawn, after this text. It names the first four clients, the lines in
    /// which they gave up, the lines since which they had waited, and for each the first three clients that went on
    /// because of it. The cost is linear in the text.
    pub fn push(&self, alloc: Global, note: &mut Note, joint: &str, text: &[u8], count: u64) {
        let were = if count == 1 {
            " request was withdrawn"
        } else {
            " requests were withdrawn"
        };
        push_number_in(note, joint, count, were);
        let mut open = OpenRequests::new(alloc);
        let (mut rest, mut step, mut named) = (text, 0, 0);
        for number in 1..u64::MAX {
            let (line, Some(after)) = cut(rest, b'\n') else {
                break;
            };
            if named == MAX_CLIENTS {
                break;
            }
            rest = after;
            let line = Line::parse(line);
            match &line {
                Some(Line::Stepped(_)) => step = number,
                Some(Line::Marked(Mark::Withdrawn(entry))) => {
                    let withdrawal = Withdrawal {
                        entry: *entry,
                        number,
                        step,
                        rest,
                    };
                    if self.has(&withdrawal) {
                        note.push(if named == 0 { ": " } else { "; " });
                        self.push_withdrawal(note, &open, &withdrawal);
                        named = u64::saturating_add(named, 1);
                    }
                }
                _ => {}
            }
            open.take_line(&line, number);
        }
        note.push_more("; and ", count, MAX_CLIENTS);
    }
}

/// Returns a note on the requests that are withdrawn in a part of a text, which is a trace or a mark log, and on the
/// clients that went on because of that. Returns `None` if none is withdrawn. The cost is linear in the text. It does
/// not allocate if it returns `None`.
///
/// # Errors
///
/// `Memory`: memory ran out.
pub fn withdrawals_note(
    alloc: Global,
    text: &[u8],
    scope: WithdrawalScope,
) -> Result<Option<String>, Memory> {
    let mut note = Note::new(alloc);
    if LineCounts::of(text).withdrawals > 0 {
        let count = scope.count(text);
        if count > 0 {
            scope.push(alloc, &mut note, "", text, count);
        }
    }
    note.finish()
}

/// Returns whether a client gives up by some event of a text of books. The cost is linear in the text. It does not
/// allocate.
pub fn has_cancels(text: &[u8]) -> bool {
    LineCounts::of(text).cancels > 0
}
