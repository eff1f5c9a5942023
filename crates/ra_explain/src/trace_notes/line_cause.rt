//! What is in the first wrong line of a trace or of a mark log.
use crate::note_parts::push_numbered;
use crate::trace_notes::due_mark::push_due;
use crate::trace_notes::line_text::{push_mark_text, push_trace_text};
use crate::trace_notes::not_under_way::push_not_under_way;
use crate::trace_notes::obstacle::push_obstacle;
use crate::trace_notes::refused_step::push_refused;
use crate::trace_notes::replay::Replay;
use crate::trace_notes::text_line::TextLine;
use ra_stamp::Memory;
use ra_text::Note;
use ra_trace::{Cause, Line, MarkCause};
use std::alloc::Global;

/// Why a line is wrong: of a trace, or of a mark log.
#[derive(Clone, Copy)]
pub enum LineCause {
    Trace(Cause),
    /// It is wrong for its sends or its marks: this line is due, or none is.
    Due(Option<Line>),
    Marks(MarkCause),
}

/// Adds why a line is wrong that has a right form: its step is refused, its message is not under way, or its mark is
/// wrong. If nothing more precise is found, it adds `other`. For most causes it reads the lines before it once more.
fn push_after(alloc: Global, note: &mut Note, line: &TextLine<'_>, cause: LineCause, other: &str) {
    let before = match cause {
        // These lines tell of a grant alone why it is not due.
        LineCause::Due(None) if line.bytes.starts_with(b"enter ") => line.before,
        // And they tell which step sends.
        LineCause::Due(Some(Line::Sent(_))) => line.before,
        LineCause::Due(None) if line.bytes.starts_with(b"send ") => line.before,
        LineCause::Due(Some(Line::Marked(_))) if line.bytes.starts_with(b"send ") => line.before,
        // And they tell which number a node has met.
        LineCause::Due(Some(Line::Marked(_))) if line.bytes.starts_with(b"request ") => line.before,
        LineCause::Due(_) | LineCause::Trace(Cause::Marks | Cause::Sends) => b"",
        _ => line.before,
    };
    let replay = Replay::of(alloc, before, line.bytes);
    match cause {
        LineCause::Due(due) => push_due(alloc, note, &replay, line.bytes, &due),
        LineCause::Trace(Cause::Marks | Cause::Sends) => note.push(other),
        LineCause::Trace(Cause::Refused) => push_refused(note, line, &replay, other),
        LineCause::Trace(Cause::NotUnderWay) => push_not_under_way(
            alloc, note, line, &replay, other,
        ),
        LineCause::Trace(_) => push_obstacle(alloc, note, line, &replay, None, other),
        LineCause::Marks(why) => push_obstacle(alloc, note, line, &replay, Some(why), other),
    }
}

/// Returns the note on the first wrong line of a trace or of a mark log, the one with the number `line`, counted from
/// 1. The note quotes the line, and says what is wrong with it, which is one of these:
///
/// - what is in the way of a mark, or which send or mark is due, and which number a node has met;
/// - whose REPLY a client still awaits;
/// - why a node refuses a step, or why a message is not under way.
///
/// It says `other` in place of that if nothing more precise is found, or if there is no memory for the requests before
/// that line. The text may end after the line. The cost is linear in the text up to there.
///
/// # Errors
///
/// `Memory`: memory ran out.
pub fn line_note(
    alloc: Global,
    text: &[u8],
    line: u64,
    cause: LineCause,
    other: &str,
) -> Result<Option<String>, Memory> {
    let mut note = Note::new(alloc);
    let line = TextLine::at(text, line);
    push_numbered(&mut note, "line ", line.number);
    if line.has_feed || !line.bytes.is_empty() {
        note.push(", ");
        note.quoted(line.bytes);
    }
    note.push(": ");
    match cause {
        LineCause::Trace(Cause::Line) => push_trace_text(&mut note, &line, other),
        LineCause::Marks(MarkCause::Line) => push_mark_text(&mut note, &line, other),
        _ => push_after(alloc, &mut note, &line, cause, other),
    }
    note.finish()
}
