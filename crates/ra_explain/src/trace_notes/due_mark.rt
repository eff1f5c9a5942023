//! Which send or mark is due at a line of a trace, which REPLY a client still awaits that the line lets in, and which
//! number a node has met.
use crate::note_parts::{push_number_in, push_numbered};
use crate::trace_notes::open_request::Stage;
use crate::trace_notes::replay::Replay;
use ra_stamp::{Entry, Mark, Message};
use ra_text::{Note, mark_line};
use ra_trace::Line;
use std::alloc::Global;

/// Adds a number after a space.
fn push_field(note: &mut Note, number: u64) {
    note.push(" ");
    note.number(number);
}

/// Adds a message, as lines of a trace tell it after their first words.
pub fn push_message(note: &mut Note, message: &Message) {
    note.push(match message {
        Message::Request { .. } => "request",
        Message::Reply { .. } => "reply",
    });
    push_field(note, u64::from(message.from().get()));
    push_field(note, u64::from(message.to().get()));
    note.push(" ");
    note.push(message.name().as_str());
    if let Message::Request { mode, .. } = message {
        note.push(" ");
        note.push(mode.word());
    }
    push_field(note, message.seq());
}

/// Adds which message is due at a line, and which step sends it.
fn push_due_send(note: &mut Note, step_at: u64, line: &[u8], message: &Message) {
    note.push("expected send ");
    push_message(note, message);
    if !line.starts_with(b"send ") {
        note.push(" first");
    }
    push_number_in(note, ", which the step in line ", step_at, " sends");
}

/// Adds which number a node has met that makes the number of a request, and where. Adds nothing unless this number
/// makes it: a node that forgot names may begin above what it has met.
fn push_met(note: &mut Note, replay: &Replay, due: &Entry) {
    let Some(met) = replay.met else {
        return;
    };
    if met.number.checked_add(1) != Some(due.stamp.seq) {
        return;
    }
    if met.line == 1 {
        push_numbered(note, ": node ", due.stamp.node.get());
        note.push(" has met no number for ");
        note.name(&due.name);
        push_numbered(note, " yet, and START is ", met.number);
    } else {
        push_numbered(
            note,
            ": the highest number that node ",
            due.stamp.node.get(),
        );
        note.push(" has met for ");
        note.name(&due.name);
        push_numbered(note, " is ", met.number);
        push_numbered(note, ", in line ", met.line);
    }
}

/// Adds which mark is due at a line. If it makes a request, and the line has another request of the node for the same
/// name, it adds which number the node has met.
fn push_due_mark(alloc: Global, note: &mut Note, replay: &Replay, mark: &Mark) {
    let Ok(line) = mark_line(alloc, mark) else {
        note.refuse_if(true);
        return;
    };
    note.push("expected the mark '");
    note.push(line.as_str().strip_suffix("\n").unwrap_or(""));
    note.push("' here");
    if let (Mark::Requested(due), Some(Mark::Requested(made))) = (mark, &replay.mark)
        && made.stamp.node == due.stamp.node
        && made.name == due.name
        && made.stamp.seq != due.stamp.seq
    {
        push_met(note, replay, due);
    }
}

/// Adds after this text whose REPLY the client of an entry still awaits that waits, if it awaits one.
pub fn push_missing(note: &mut Note, joint: &str, replay: &Replay, entry: &Entry) {
    if let Some(request) = replay.open.request_of(entry)
        && request.stage.is(Stage::Waits)
        && let Some((first, others)) = replay.missing(entry)
    {
        note.push(joint);
        note.client(entry.client);
        push_numbered(note, " at node ", entry.stamp.node.get());
        push_numbered(note, " still awaits the REPLY of node ", first);
        match others {
            0 => {}
            1 => note.push(", and of 1 other node"),
            _ => push_number_in(note, ", and of ", others, " other nodes"),
        }
    }
}

/// Adds that no mark is due. If the line grants a request that waits, it adds whose REPLY the client still awaits.
fn push_no_mark(note: &mut Note, replay: &Replay) {
    note.push("expected no mark here");
    if let Some(Mark::Entered(entry)) = &replay.mark {
        push_missing(note, ": ", replay, entry);
    }
}

/// Adds which message or mark is due at a line of a trace, or that none is, and why.
pub fn push_due(alloc: Global, note: &mut Note, replay: &Replay, line: &[u8], due: &Option<Line>) {
    let step_at = replay.step_at;
    match due {
        Some(Line::Sent(message)) => push_due_send(note, step_at, line, message),
        _ if line.starts_with(b"send ") => push_number_in(
            note,
            "the step in line ",
            step_at,
            " sends no other message",
        ),
        Some(Line::Marked(mark)) => push_due_mark(alloc, note, replay, mark),
        _ => push_no_mark(note, replay),
    }
}
