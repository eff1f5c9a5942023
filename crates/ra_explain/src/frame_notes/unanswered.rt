//! Which field of a frame is the reason that a node does not answer it.
use crate::frame_notes::digits::{number_at, part};
use crate::frame_notes::frame_fault::push_offsets;
use crate::frame_notes::frame_field::{CLOCK, RECEIVER, SENDER, field_at};
use crate::note_parts::push_number_in;
use ra_stamp::Memory;
use ra_text::{Note, cut};
use std::alloc::Global;

/// Why a node does not answer a frame.
#[derive(Clone, Copy)]
pub enum Unanswered {
    /// It is for another node.
    WrongNode,
    /// Its sender is not one of the nodes.
    Stranger,
    /// There is no clock above its own.
    ClockFull,
}

/// Returns a note on why a node does not answer the frame in an input of hexadecimal digits. It says which field is the
/// reason, where its bytes are, what they are, which node or clock they name, and what would be right. Returns `None`
/// if there is nothing more to say.
///
/// # Errors
///
/// `Memory`: memory ran out.
pub fn unanswered_note(
    alloc: Global,
    input: &[u8],
    node: u16,
    nodes: u16,
    why: Unanswered,
) -> Result<Option<String>, Memory> {
    let mut note = Note::new(alloc);
    let (digits, _) = cut(input, b'\n');
    let index = match why {
        Unanswered::WrongNode => RECEIVER,
        Unanswered::Stranger => SENDER,
        Unanswered::ClockFull => CLOCK,
    };
    let field = field_at(digits, index);
    push_offsets(&mut note, &field);
    note.push("is ");
    note.bytes(part(digits, field.place, field.width));
    let number = number_at(digits, field.place, field.width);
    match why {
        Unanswered::WrongNode => {
            let text = ": the frame is for node ";
            push_number_in(&mut note, text, number, ", but --node is ");
            note.number(node);
        }
        // The sender is not this node: a frame from its own receiver is faulty, and one for another node is not
        // answered.
        Unanswered::Stranger => {
            let text = ": the frame is from node ";
            push_number_in(&mut note, text, number, ", but --nodes is ");
            note.number(nodes);
        }
        Unanswered::ClockFull => note.push(", the greatest: no clock is left for an answer"),
    }
    note.finish()
}
