//! Why a message is not under way at a line of a trace.
use crate::note_parts::{push_number_in, push_numbered};
use crate::trace_notes::due_mark::push_message;
use crate::trace_notes::line_form::version_of;
use crate::trace_notes::near_miss::NearMiss;
use crate::trace_notes::open_request::OpenRequest;
use crate::trace_notes::open_requests::Sought;
use crate::trace_notes::replay::Replay;
use crate::trace_notes::sent_messages::watch_lines;
use crate::trace_notes::text_line::TextLine;
use ra_stamp::Message;
use ra_text::Note;
use ra_trace::Version;
use std::alloc::Global;

/// Adds that a message was never sent after these lines of a trace, and the last message that they send and that
/// differs from it in one thing alone, if there is one. They are made once more for that.
fn push_never_sent(alloc: Global, note: &mut Note, lines: &[u8], message: &Message) {
    note.push("it was never sent");
    let mut near = NearMiss::new(*message);
    if watch_lines(alloc, lines, &mut near)
        && let Some((sent, line)) = &near.found
    {
        note.push(", but ");
        push_message(note, sent);
        push_numbered(note, " was, by the step in line ", *line);
    }
}

/// Adds why a REPLY was never sent, although this request waits for it. Returns whether that is known.
fn push_awaited(note: &mut Note, replay: &Replay, reply: &Message, answered: &OpenRequest) -> bool {
    let (from, to) = (reply.from(), reply.to());
    let own = replay.open.next_of(0, &Sought::AtNode(from, reply.name()));
    match (replay.came, own) {
        // Its own request is earlier, or holds.
        (Some(line), Some(own)) if own.blocks(&answered.entry) => {
            push_numbered(note, "node ", from.get());
            push_numbered(note, " deferred it in line ", line);
            push_number_in(
                note,
                ", as its own request ",
                own.entry.stamp.seq,
                " is earlier",
            );
        }
        // Only another node of the trace sends it.
        (None, _) if from != to && from.get() <= replay.nodes.unwrap_or(0) => {
            push_numbered(note, "its request has not come to node ", from.get());
        }
        _ => return false,
    }
    true
}

/// Adds why a message that a line of a trace delivers, loses or repeats is not under way: in which line it was last
/// delivered or lost, or that it was never sent. For a REPLY to a request that waits or holds, it adds why it was never
/// sent. Of another message it adds which one was sent that is nearly the same. If the line has no message, it adds
/// `other`.
pub fn push_not_under_way(
    alloc: Global,
    note: &mut Note,
    line: &TextLine<'_>,
    replay: &Replay,
    other: &str,
) {
    let Some(message) = &replay.message else {
        note.push(other);
        return;
    };
    note.push("this message is not under way: ");
    if let Some((number, is_lost)) = replay.taken {
        let text = if is_lost {
            "it was lost in line "
        } else {
            "it was last delivered in line "
        };
        push_numbered(note, text, number);
        // Version 1 has no repeats.
        if !is_lost && !matches!(version_of(line.before), Some(Version::One)) {
            note.push("; a copy needs a repeat line before that");
        }
        return;
    }
    if let Message::Reply { to, name, seq, .. } = message
        && let Some(request) = replay.open.next_of(0, &Sought::AtNode(*to, *name))
        && request.entry.stamp.seq == *seq
        && push_awaited(note, replay, message, request)
    {
        return;
    }
    push_never_sent(alloc, note, line.before, message);
}
