//! What is said about the wrong line of a text of books.
use crate::book_openings::Openings;
use crate::input_places::PlaceNote;
use crate::note_texts::{HAS_RETURN, text_cause_text};
use crate::refused_event::refused_event;
use crate::refused_notes::push_refused;
use ra_book::BookKind;
use ra_book_text::{FirstLine, TextCause, event_of};
use ra_explain::{push_number_in, push_numbered};
use ra_text::{Note, cut};
use std::alloc::Global;

/// Adds why the books with these first lines are not the books of all nodes. If the wrong line begins another book, its
/// node has a book already, or it has another number of nodes or another start. Otherwise the book of a node is
/// missing. Returns whether it adds anything.
fn push_books(note: &mut Note, openings: &Openings<'_>, another: &Option<FirstLine>) -> bool {
    let Some(opening) = &openings.first else {
        return false;
    };
    let nodes = opening.member.nodes();
    if let Some(another) = another {
        if let Some(again) = openings.line_of(another.member.node().get()) {
            let text = ": this node has a book already, which begins at line ";
            push_number_in(note, text, again, ": expected one book of each node");
        } else {
            push_numbered(note, ": expected NODES ", nodes);
            push_numbered(note, " and START ", opening.start);
            push_numbered(note, ", as at line ", opening.line);
        }
        return true;
    }
    for before in 0..nodes {
        let node = before + 1;
        if openings.line_of(node).is_none() {
            push_numbered(note, ": the book of node ", node);
            let text = " is missing: expected one book of each of ";
            push_number_in(note, text, nodes, " nodes");
            return true;
        }
    }
    false
}

/// Adds in which book a line is, and which frame comes in it, if one does. If the node of the book refuses the line, it
/// adds why. Returns whether it adds why.
fn push_event(
    alloc: Global,
    note: &mut Note,
    openings: &Openings<'_>,
    line: &[u8],
    number: u64,
    cause: TextCause,
) -> bool {
    let frame = match event_of(line) {
        Ok(BookKind::Receive(frame)) => Some(frame),
        _ => None,
    };
    if let Some(opening) = &openings.last {
        push_numbered(note, ", in the book of node ", opening.member.node().get());
    }
    if let Some(frame) = &frame {
        push_numbered(note, ", a frame of node ", frame.message.from().get());
        push_numbered(note, " with clock ", frame.clock);
    }
    if let TextCause::Line = cause
        && let Some(opening) = &openings.last
        && let Ok(BookKind::Cancel { .. } | BookKind::Forget) = event_of(line)
    {
        // Only the version of the book can be in the way of such a line.
        push_numbered(note, ": the book begins at line ", opening.line);
        note.push(" in version 1, which has no such event: expected book 2 there");
        return true;
    }
    if let TextCause::Refused = cause
        && let Some(opening) = &openings.last
        && let Some((why, state)) = refused_event(alloc, opening, line, number)
    {
        note.push(": ");
        push_refused(note, line, &frame, opening.member, why, &state);
        return true;
    }
    false
}

/// Returns the note on the wrong line of a text of books, the one with this number: its text, its book, its frame, and
/// what would be right. The cost is linear in the text up to there. For a line that a node refuses, the node takes the
/// lines of its book once more, which takes memory.
///
/// # Errors
///
/// `Memory`: memory ran out.
pub fn unsettled_note(alloc: Global, text: &[u8], number: u64, cause: TextCause) -> PlaceNote {
    let mut note = Note::new(alloc);
    push_numbered(&mut note, "line ", number);
    let (openings, rest) = Openings::before(text, number);
    let is_of_books = matches!(cause, TextCause::Books);
    let is_told = if let (line, Some(_)) = cut(rest, b'\n') {
        note.push(", ");
        note.quoted(line);
        if let TextCause::Line = cause
            && let [.., b'\r'] = line
        {
            note.push(": ");
            note.push(HAS_RETURN);
            return note.finish();
        }
        let another = FirstLine::parse(line);
        if another.is_some() {
            is_of_books && push_books(&mut note, &openings, &another)
        } else {
            push_event(alloc, &mut note, &openings, line, number, cause)
        }
    } else {
        is_of_books && push_books(&mut note, &openings, &None)
    };
    if !is_told {
        note.push(": ");
        note.push(text_cause_text(cause));
    }
    note.finish()
}
