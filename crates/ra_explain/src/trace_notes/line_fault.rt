//! Which field of a line of a trace or mark log is wrong, and what it may contain.
use crate::hint::TAB;
use crate::trace_notes::line_field::{NAMES, field_range, may_be};
use crate::trace_notes::line_form::{kind_of, words_of};
use ra_text::{Note, cut};
use ra_trace::{Field, LineKind, Version};

/// Adds what is wrong with a line of this kind, and how one is made.
fn push_expected(note: &mut Note, wrong: &str, kind: LineKind) {
    note.push(wrong);
    note.push(": expected ");
    note.push(words_of(kind));
    for field in kind.fields() {
        note.push(" ");
        note.push(NAMES[*field as usize]);
    }
}

/// Adds what a field contains and what it must be, or that a tab does not separate fields.
fn push_wrong(note: &mut Note, field: Field, text: &[u8], version: Option<Version>) {
    if text.contains(&b'\t') {
        note.push(TAB);
        return;
    }
    note.push(NAMES[field as usize]);
    if text.is_empty() {
        note.push(" is empty (a single space separates fields)");
    } else {
        note.push(" is ");
        note.quoted(text);
    }
    note.push(": must be ");
    note.push(field_range(field, version));
}

/// Adds which field of a line is wrong in this version and what it may contain, and returns whether one is. Adds
/// nothing unless the words of the line make one of these kinds. If the version is not known, fields are checked as in
/// version 2.
pub fn push_line_fault(
    note: &mut Note,
    kinds: &[LineKind],
    line: &[u8],
    version: Option<Version>,
) -> bool {
    let Some((kind, mut rest)) = kind_of(kinds, line) else {
        return false;
    };
    for field in kind.fields() {
        let Some(left) = rest else {
            note.push(NAMES[*field as usize]);
            push_expected(note, " is missing", kind);
            return true;
        };
        let (text, after) = cut(left, b' ');
        if !may_be(*field, text, version) {
            push_wrong(note, *field, text, version);
            return true;
        }
        rest = after;
    }
    if let LineKind::First(Version::Three) = kind
        && let Some(b"sends") = rest
    {
        return false;
    }
    if rest.is_some() {
        push_expected(note, "too many fields", kind);
        if let LineKind::First(Version::Three) = kind {
            note.push(", or the same and then sends");
        }
    }
    rest.is_some()
}
