//! Why an input is not a line of hexadecimal digits.
use crate::note_parts::{push_number_in, push_numbered};
use ra_stamp::Memory;
use ra_text::{Note, cut};
use std::alloc::Global;

/// The most bytes that a line may have, without its line feed: as many as `MAX_LINE` of `ra_book_text`, which this
/// crate does not see.
const MAX_LINE: usize = 256;

/// Adds why the bytes of a line, after this many others, are not an even number of hexadecimal digits: which byte is
/// not one, or how many digits there are.
pub fn push_digits_fault(note: &mut Note, digits: &[u8], before: usize) {
    for (place, byte) in digits.iter().enumerate() {
        if !byte.is_ascii_hexdigit() {
            push_number_in(
                note,
                "not a hexadecimal digit at offset ",
                place.saturating_add(before),
                " of the line: ",
            );
            match *byte {
                // A line that has the digits alone may be the last one of its text without a line feed.
                b'\r' => note.push(if before == 0 {
                    "a carriage return (end the line with a line feed alone, or with nothing)"
                } else {
                    "a carriage return (end the line with a line feed alone)"
                }),
                b'\t' => note.push("a tab"),
                b' '..=b'~' => note.quoted(&[*byte]),
                _ => push_numbered(note, "the byte value ", *byte),
            }
            return;
        }
    }
    if digits.len() % 2 == 1 {
        push_number_in(
            note,
            "the line has ",
            digits.len(),
            " hexadecimal digits, an odd number: each byte of a frame takes two",
        );
    }
}

/// Returns a note on an input that is not a line with an even number of hexadecimal digits. It says which byte is not a
/// digit, how many digits there are, or that more input follows the line. Returns `None` if nothing is found. The first
/// 258 bytes of the input are enough.
///
/// # Errors
///
/// `Memory`: memory ran out.
pub fn digits_note(alloc: Global, input: &[u8]) -> Result<Option<String>, Memory> {
    let mut note = Note::new(alloc);
    let (line, after) = cut(input, b'\n');
    if line.len() > MAX_LINE {
        note.push("the line has more than 256 bytes: a frame has at most 56 bytes, or 112 digits");
    } else if !matches!(after, None | Some(b"")) {
        push_number_in(
            &mut note,
            "there is more input after the first line, whose length is ",
            line.len(),
            ": only one frame is read at a time",
        );
    } else {
        push_digits_fault(&mut note, line, 0);
    }
    note.finish()
}
