//! The place of a frame's fault in its line of digits.
use crate::frame_notes::digits::{no_name_byte, part};
use crate::frame_notes::frame_field::{
    FAULTY, FrameField, NAME, NAME_BYTE, NAMES, field_at, range_at,
};
use crate::note_parts::{push_number_in, push_numbered};
use ra_frame::FrameError;
use ra_stamp::Memory;
use ra_text::{Note, cut};
use std::alloc::Global;

/// Adds the name of a field and the offsets of its bytes.
pub fn push_offsets(note: &mut Note, field: &FrameField) {
    note.push(NAMES.get(field.index).unwrap_or(&""));
    let last = field.place.saturating_add(field.width).saturating_sub(1);
    let joint = if field.place < last {
        push_numbered(note, " at offsets ", field.place);
        " to "
    } else {
        " at offset "
    };
    push_number_in(note, joint, last, " ");
}

/// Adds the description of a frame's fault: which field of these hexadecimal digits it is, where its bytes are, what
/// they are, and what is allowed there.
pub fn push_frame_fault(note: &mut Note, digits: &[u8], fault: FrameError) {
    let index = FAULTY[fault as usize];
    let mut field = field_at(digits, index);
    if let FrameError::Short = fault {
        // It is the first field that is incomplete, or the name if all before it are complete.
        for place in 0..NAME + 1 {
            field = field_at(digits, place);
            if part(digits, field.place, field.width).len() < field.width.saturating_mul(2) {
                break;
            }
        }
    } else if let FrameError::NameByte = fault {
        field.place = no_name_byte(digits, field.place, field.width);
        field.width = 1;
        field.index = NAME_BYTE;
    }
    push_offsets(note, &field);
    let ending = match fault {
        FrameError::Short => "is missing or incomplete: the frame has ",
        FrameError::Trailing => "is the last field, but the frame has ",
        _ => {
            note.push("is ");
            note.bytes(part(digits, field.place, field.width));
            if let FrameError::SameNode = fault {
                note.push(", the same as the sender: a node sends no message to itself");
            } else {
                note.push(": ");
                note.push(range_at(digits, index));
            }
            return;
        }
    };
    let bytes = digits.len() / 2;
    let unit = if bytes == 1 { " byte" } else { " bytes" };
    push_number_in(note, ending, bytes, unit);
}

/// Returns a note on the fault of a frame. The input has the frame's hexadecimal digits in one line, with or without a
/// line feed. The note says which field is wrong, where its bytes are, what they are, and what is allowed there.
/// Returns `None` if there is nothing more to say.
///
/// # Errors
///
/// `Memory`: memory ran out.
pub fn frame_note(
    alloc: Global,
    input: &[u8],
    fault: FrameError,
) -> Result<Option<String>, Memory> {
    let mut note = Note::new(alloc);
    let (digits, _) = cut(input, b'\n');
    push_frame_fault(&mut note, digits, fault);
    note.finish()
}
