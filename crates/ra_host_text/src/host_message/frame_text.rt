//! Frames as digits.
ghost use Rattle.std.specs.Prelude.{◌≡◌, ℕ, List, IsTrue, ◌↔◌, MatchOption};
ghost use Rattle.ra_frame.specs.Fits.{Fits};
ghost use Rattle.ra_frame.specs.declared.frame.Frame.{Frame};
ghost use Rattle.ra_text.specs.Drafting.{Adds};
ghost use Rattle.ra_text.specs.Lines.{field};
ghost use Rattle.ra_host_text.specs.HostText.{IsFrameDigits};

use arrayvec::ArrayVec;
use ra_frame::{Frame, MAX_FRAME, decode, encoded, one_spelling, round_trip};
use ra_text::Draft;

/// The most digits that a frame has, two for each byte.
const MAX_DIGITS: usize = 2 * MAX_FRAME;

/// Returns the digits of a frame that fits. It does not allocate.
fn digits_of(frame: &Frame) -> ArrayVec<u8, MAX_DIGITS>
    requires { Fits frame.now }
    ensures { IsFrameDigits result.items frame.now }
{
    let bytes = encoded(frame);
    let bytes = bytes.as_slice();
    let mut room = [0; MAX_DIGITS];
    let digits = &mut room[..2 * bytes.len()];
    hex::encode_to_slice(bytes, digits).unwrap();
    let mut kept = ArrayVec::new();
    kept.try_extend_from_slice(digits).unwrap();
    kept
}

/// Returns whether these are the digits of a frame that fits. It does not allocate.
fn are_digits_of(digits: &[u8], frame: &Frame) -> bool
    requires { Fits frame.now }
    ensures { IsTrue result ↔ IsFrameDigits digits.now frame.now }
{
    // For the proof: a frame has one text in version 2.
    one_spelling();
    digits_of(frame).as_slice() == digits
}

/// Returns the frame whose digits these are, or `None` if they are of none. It does not allocate.
pub fn frame_of(digits: &[u8]) -> Option<Frame>
    ensures { MatchOption result ((frame : Frame) → IsFrameDigits digits.now frame → ⊥) (IsFrameDigits digits.now) }
{
    // For the proof: what is written is read.
    round_trip();
    if digits.len() > MAX_DIGITS {
        return None;
    }
    let mut room = [0; MAX_FRAME];
    let bytes = &mut room[..digits.len() / 2];
    if hex::decode_to_slice(digits, bytes).is_err() {
        return None;
    }
    let Ok(frame) = decode(bytes) else {
        return None;
    };
    // Version 1 and digits in upper case are read in books, and not here.
    if are_digits_of(digits, &frame) {
        Some(frame)
    } else {
        None
    }
}

/// Adds the digits of a frame that fits, with the space before them.
pub fn push_frame(text: &mut Draft, frame: &Frame)
    requires { Fits frame.now }
    ensures { (digits : List ℕ) × IsFrameDigits digits frame.now × Adds text.old (field digits) text.new }
{
    let digits = digits_of(frame);
    text.push_field(str::from_utf8(digits.as_slice()).unwrap());
}
