//! The fields of a frame, their places, and what they may contain.
use crate::frame_notes::digits::number_at;
use ra_frame::{Format, format_of};

/// The indices of some fields in the order of all.
pub const SENDER: usize = 2;

pub const RECEIVER: usize = 3;

const MODE: usize = 4;

pub const CLOCK: usize = 6;

/// The number of fields before the name, and so the index of the name.
pub const NAME: usize = 8;

/// The index of a byte of the name.
pub const NAME_BYTE: usize = 9;

/// The index of the field that each fault is in, in the order of `FrameError`. It is the name if no field before it has
/// the fault.
pub const FAULTY: [usize; 12] = [
    NAME, 0, 1, SENDER, RECEIVER, RECEIVER, MODE, 5, CLOCK, 7, NAME, NAME,
];

/// The names of the fields, in their order, and the name of a byte of the last one.
pub const NAMES: [&str; 10] = [
    "the version",
    "the kind",
    "the sender",
    "the receiver",
    "the mode",
    "the sequence number",
    "the event clock",
    "the length of the name",
    "the name",
    "the name byte",
];

/// What they may contain in version 2.
const RANGES: [&str; 9] = [
    "must be 01 or 02",
    "must be 01 (REQUEST) or 02 (REPLY)",
    "must be 0001 to 0040 (nodes 1 to 64)",
    "must be 0001 to 0040 (nodes 1 to 64)",
    "must be 00 to 04 in a REQUEST, and 00 in a REPLY",
    "must be at least 1",
    "must be 1 to 2^62 (4000000000000000)",
    "must be 01 to 20 (1 to 32 bytes)",
    "names consist of A-Z, a-z, 0-9, _, - and .",
];

/// A field of a frame, or a byte of its name.
#[derive(Clone, Copy)]
pub struct FrameField {
    /// Its index in the order of all, or the index of the name's bytes.
    pub index: usize,
    /// Its first byte, counted from 0.
    pub place: usize,
    /// How many bytes it has.
    pub width: usize,
}

/// Returns the field with this index in the frame of these digits. If they name no version, the frame is taken to have
/// the newest one. The name is as long as the byte before it says.
pub fn field_at(digits: &[u8], index: usize) -> FrameField {
    let [version, ..] = number_at(digits, 0, 1).to_le_bytes();
    let places = format_of(&[version]).unwrap_or(Format::V2).places();
    let place = *places.get(index).unwrap_or(&0);
    FrameField {
        index,
        place,
        width: match places.get(index.saturating_add(1)) {
            Some(next) => next.saturating_sub(place),
            None => number_at(digits, place.saturating_sub(1), 1) as usize,
        },
    }
}

/// Returns what the field with this index may contain in the frame of these digits.
pub fn range_at(digits: &[u8], index: usize) -> &'static str {
    let [version, ..] = number_at(digits, 0, 1).to_le_bytes();
    match (format_of(&[version]), index) {
        (Ok(Format::V1), SENDER | RECEIVER) => "must be 01 to 10 (nodes 1 to 16) in version 1",
        (Ok(Format::V1), MODE) => "must be 00 or 01 in a REQUEST, and 00 in a REPLY, in version 1",
        _ => RANGES.get(index).unwrap_or(&""),
    }
}
