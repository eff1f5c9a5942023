//! What is in the way of a mark that a lock table does not allow.
use crate::note_parts::{push_number_in, push_numbered};
use crate::trace_notes::due_mark::push_missing;
use crate::trace_notes::open_request::{Stage, push_entry};
use crate::trace_notes::open_requests::{OpenRequests, Sought};
use crate::trace_notes::replay::Replay;
use crate::trace_notes::table_steps::refusal_after;
use crate::trace_notes::text_line::TextLine;
use ra_stamp::{Entry, Name, Stamp};
use ra_text::Note;
use ra_trace::MarkCause;
use std::alloc::Global;

/// What is said of a mark of a trace that a lock table does not allow, in the order of `MarkCause`. If a request is in
/// the way, it is named after that.
const IN_TABLE: [&str; 7] = [
    "the lock table does not allow this mark",
    "the lock table does not allow this mark: its node already waits for the name or holds it",
    "the lock table does not allow this mark: its number is not above every number granted for the name",
    "the lock table does not allow this mark: no such request waits for the name",
    "the lock table does not allow this mark",
    "the lock table does not allow this mark",
    "the lock table does not allow this mark: no such request holds the name",
];

/// Adds the first of these requests, which is in the way of another one, with its number, if there is one. Returns
/// whether there is.
fn push_other(note: &mut Note, joint: &str, open: &OpenRequests, sought: &Sought) -> bool {
    let request = open.next_of(0, sought);
    if let Some(request) = request {
        note.push(joint);
        request.push_in_the_way(note);
        push_numbered(note, ", with number ", request.entry.stamp.seq);
    }
    request.is_some()
}

/// Adds the first request that holds a name, and how many more there are, if there is one.
fn push_holders(note: &mut Note, open: &OpenRequests, name: Name) {
    let holders = Sought::On(Stage::Holds, name);
    if push_other(note, "; ", open, &holders) {
        note.push_more(", and ", open.count_of(&holders), 1);
    }
}

/// Adds what happened to an entry that should wait or hold and does not: it already holds, still waits, was released or
/// withdrawn, or was never requested. If it was never requested, it names a similar request on its name instead, if
/// there is one: the one of its node that waits or holds, the first of its client that does, or the last one that its
/// node released. Unless that one holds, and if the entry should hold, it adds who holds the name.
fn push_fate(note: &mut Note, entry: &Entry, replay: &Replay, cause: MarkCause) {
    if !push_similar(note, entry, replay)
        && let MarkCause::NotHeld = cause
    {
        push_holders(note, &replay.open, entry.name);
    }
}

/// Adds what happened to an entry, or which similar request there is. Returns whether the request that is named holds.
fn push_similar(note: &mut Note, entry: &Entry, replay: &Replay) -> bool {
    let open = &replay.open;
    if let Some(request) = open.request_of(entry) {
        let text = if request.stage.is(Stage::Holds) {
            ": it was granted in line "
        } else {
            ": it has waited since line "
        };
        push_numbered(note, text, request.since);
        return request.stage.is(Stage::Holds);
    }
    if let Some(line) = replay.released_at {
        push_numbered(note, ": it was released in line ", line);
    } else if let Some(line) = replay.withdrawn_at {
        push_numbered(note, ": it was withdrawn in line ", line);
    } else {
        let (node, client) = (entry.stamp.node, entry.client);
        for sought in [
            Sought::AtNode(node, entry.name),
            Sought::Of(client, entry.name),
        ] {
            if let Some(request) = open.next_of(0, &sought) {
                push_other(note, ": ", open, &sought);
                return request.stage.is(Stage::Holds);
            }
        }
        if let Some((released, line)) = &replay.released {
            note.push(": ");
            push_entry(note, released, " last released ", " in line ", *line);
            push_numbered(note, ", with number ", released.stamp.seq);
        } else {
            note.push(": it was never requested");
        }
    }
    false
}

/// Adds why a request that waits goes before another one: its number is lower or, if the numbers are equal, its node.
fn push_order(note: &mut Note, first: Stamp, second: Stamp) {
    if first.seq < second.seq {
        push_number_in(
            note,
            " and goes first, since number ",
            first.seq,
            " is below ",
        );
        note.number(second.seq);
    } else {
        push_number_in(
            note,
            " and goes first, since both have number ",
            first.seq,
            " and node ",
        );
        note.number(first.node.get());
        push_numbered(note, " is below ", second.node.get());
    }
}

/// Adds what is in the way of the mark of an entry, for this cause.
fn push_details(note: &mut Note, entry: &Entry, replay: &Replay, cause: MarkCause) {
    let sought = match cause {
        MarkCause::NotAbove => {
            if let Some(granted) = replay.granted
                && granted.number >= entry.stamp.seq
            {
                push_number_in(note, ": ", granted.number, " was granted in line ");
                note.number(granted.line);
            }
            return;
        }
        MarkCause::NodeBusy => Sought::AtNode(entry.stamp.node, entry.name),
        MarkCause::Held => Sought::BlockingAt(Stage::Holds, *entry),
        MarkCause::Earlier => Sought::BlockingAt(Stage::Waits, *entry),
        MarkCause::NotWaiting | MarkCause::NotHeld => {
            push_fate(note, entry, replay, cause);
            return;
        }
        MarkCause::Line => return,
    };
    if let Some(request) = replay.open.next_of(0, &sought) {
        note.push(": ");
        request.push_in_the_way(note);
        if let MarkCause::Earlier = cause {
            push_order(note, request.entry.stamp, entry.stamp);
        }
    }
}

/// Adds why the mark in a line is wrong, and what is in its way. In a mark log, `log_cause` is the cause, and `other`
/// says it. In a trace, a lock table that takes the marks before it finds the cause; of a grant that comes too early, the
/// note also says whose REPLY is still awaited. If there is no memory for the requests before the line, it adds `other`
/// alone. The cost is linear in these requests, and in a trace that of a lock table for the marks.
pub fn push_obstacle(
    alloc: Global,
    note: &mut Note,
    line: &TextLine<'_>,
    replay: &Replay,
    log_cause: Option<MarkCause>,
    other: &str,
) {
    let mark = match &replay.mark {
        Some(mark) if replay.open.is_whole => mark,
        _ => {
            note.push(other);
            return;
        }
    };
    let (cause, text) = match log_cause {
        Some(_) => (log_cause, other),
        None => match refusal_after(alloc, line.before, mark) {
            Some(cause) => (Some(cause), IN_TABLE[cause as usize]),
            None => (None, other),
        },
    };
    note.push(text);
    if let Some(cause) = cause {
        push_details(note, mark.entry(), replay, cause);
        if log_cause.is_none()
            && let MarkCause::Held | MarkCause::Earlier = cause
        {
            push_missing(note, "; ", replay, mark.entry());
        }
    }
}
