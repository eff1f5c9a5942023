//! The texts for lines that do not belong in a trace or mark log, or that are out of place.
use crate::hint::{AT_BOTH, AT_FIRST, AT_LATER, AT_MARKS, TAB, hint_at};
use crate::trace_notes::line_fault::push_line_fault;
use crate::trace_notes::line_form::{FIRST_LINES, LATER_LINES, MARKS, kind_of, version_of};
use crate::trace_notes::text_line::TextLine;
use ra_text::Note;
use ra_trace::{MAX_LINE, Version};

/// The text for a later line that does not begin with any of the words of a trace.
const WORDS: &str =
    "expected a line that begins with ask, release, cancel, forget, deliver, lose, repeat, send, request, enter, leave or withdraw, or the last line, end";

/// The text for the first line of a text that is not a trace.
const NOT_FIRST: &str =
    "expected trace 2 NODES START, or another version of it, as the first line of a trace";

/// Returns the text for a line that does not end as lines must, or `None`.
fn end_text(line: &TextLine<'_>) -> Option<&'static str> {
    if line.has_feed {
        return match line.bytes {
            [.., b'\r'] => Some(
                "this line ends with a carriage return and a line feed, but each line must end with a line feed alone",
            ),
            _ => None,
        };
    }
    Some(if line.bytes.is_empty() {
        "the text ends before this line, but the last line of a trace must be end"
    } else if line.bytes.len() < MAX_LINE {
        "the text ends in this line, without a line feed"
    } else {
        "this line has no line feed in its first 128 bytes"
    })
}

/// Returns the text for a line that only another version of a trace has, or `None`.
fn lacking_text(line: &[u8], version: Option<Version>) -> Option<&'static str> {
    let is_one = matches!(version, Some(Version::One));
    if is_one && line.starts_with(b"repeat ") {
        return Some("version 1 has no repeats");
    }
    if !matches!(version, Some(Version::ThreeWithSends)) && line.starts_with(b"send ") {
        return Some(
            "the first line of this trace does not end with sends, so it has no such lines",
        );
    }
    if !matches!(version, Some(Version::One | Version::Two)) {
        return None;
    }
    if line.starts_with(b"cancel ") {
        Some("only version 3 has cancels")
    } else if line.starts_with(b"forget ") {
        Some("only version 3 has forgetting")
    } else if line.starts_with(b"withdraw ") {
        Some("only version 3 has withdrawals")
    } else {
        None
    }
}

/// Adds the text for a line that does not belong in a trace or is out of place, or `other` if nothing is found.
pub fn push_trace_text(note: &mut Note, line: &TextLine<'_>, other: &str) {
    let text = line.bytes;
    if line.is_after_end {
        note.push("nothing may follow end, the last line of a trace");
    } else if let Some(ending) = end_text(line) {
        note.push(ending);
    } else if line.number == 1 {
        if !push_line_fault(note, FIRST_LINES, text, version_of(text)) {
            note.push(hint_at(&[AT_BOTH, AT_FIRST], text, NOT_FIRST));
        }
    } else if kind_of(FIRST_LINES, text).is_some() {
        note.push("only the first line of a trace may begin with trace");
    } else if let Some(lacking) = lacking_text(text, version_of(line.before)) {
        note.push(lacking);
    } else if kind_of(LATER_LINES, text).is_some() {
        if !push_line_fault(note, LATER_LINES, text, version_of(line.before)) {
            note.push(other);
        }
    } else if text.contains(&b'\t') {
        note.push(TAB);
    } else {
        note.push(hint_at(&[AT_LATER], text, WORDS));
    }
}

/// Adds the text for a line that is not a mark, or `other` if nothing is found.
pub fn push_mark_text(note: &mut Note, line: &TextLine<'_>, other: &str) {
    let text = line.bytes;
    if let Some(ending) = end_text(line) {
        note.push(ending);
    } else if !push_line_fault(note, MARKS, text, Some(Version::Three)) {
        let otherwise = if text.contains(&b'\t') { TAB } else { other };
        note.push(hint_at(&[AT_BOTH, AT_MARKS], text, otherwise));
    }
}
