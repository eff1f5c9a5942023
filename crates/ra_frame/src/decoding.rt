ghost use Rattle.std.specs.Prelude.{◌≡◌, ◌↔◌, ◌+◌, ◌≤◌, ◌<◌, length, slice_index, slice_range, IfOk, IsErrOf};
ghost use Rattle.std.specs.List.{list_all};
ghost use Rattle.ra_stamp.specs.NodeId.{IsNodeNumber};
ghost use Rattle.ra_stamp.specs.Name.{is_name_byte};
ghost use Rattle.ra_frame.specs.Fits.{Fits};
ghost use Rattle.ra_frame.specs.Format.{node_width};
ghost use Rattle.ra_frame.specs.FrameText.{IsFrameText, IsMessageText};
ghost use Rattle.ra_frame.specs.Faults as spec;
ghost use Rattle.ra_frame.specs.Checked.{head_checks, numbers_checks, name_checks, name_in, clock_in, IsChecked};

use crate::format::{
    CLOCK, FROM, Format, KIND, NAME, NAME_LENGTH, NO_MODE, REPLY, REQUEST, SEQ, VERSION_1,
    VERSION_2, mode_of,
};
use crate::{Frame, FrameError};
use ra_stamp::{Message, Name, NodeId};

/// Returns the number of a node from a place on, the highest byte first. It does not allocate.
fn node_number_at(format: Format, bytes: &[u8], place: usize) -> u16
    requires { place + node_width format ≤ length bytes.now }
    ensures { result ≡ spec.node_at format bytes.now place }
{
    match format {
        Format::V1 => u16::from(bytes[place]),
        Format::V2 => {
            let mut two = [0; 2];
            two.copy_from_slice(&bytes[place..place + 2]);
            u16::from_be_bytes(two)
        }
    }
}

/// Returns the number of the eight bytes from a place on, the highest first. It does not allocate.
fn number_at(bytes: &[u8], place: usize) -> u64
    requires { place + 8 ≤ length bytes.now }
    ensures { result ≡ spec.number_at bytes.now place }
{
    let mut eight = [0; 8];
    eight.copy_from_slice(&bytes[place..place + 8]);
    u64::from_be_bytes(eight)
}

/// Returns whether a number is in a range, both ends included. It does not allocate.
fn is_within(low: u64, high: u64, n: u64) -> bool
    ensures { result ≡ spec.is_within low high n }
{
    low <= n && n <= high
}

/// Returns whether a name may have each of the bytes. It does not allocate.
fn are_name_bytes(name: &[u8]) -> bool
    requires not_empty { 1 ≤ length name.now }
    requires not_long { length name.now ≤ 32 }
    ensures { result ≡ list_all is_name_byte name.now }
{
    Name::of(name).is_some()
}

/// Returns the version of a frame, by its first byte. It does not allocate.
///
/// # Errors
///
/// 1. `Short`: there is no byte.
/// 2. `Version`: it is not the number of a version.
pub fn format_of(bytes: &[u8]) -> Result<Format, FrameError>
    ensures { result ≡ spec.format_of bytes.now }
{
    match bytes.first() {
        None => Err(FrameError::Short),
        Some(&VERSION_1) => Ok(Format::V1),
        Some(&VERSION_2) => Ok(Format::V2),
        Some(_) => Err(FrameError::Version),
    }
}

/// Returns the greatest mode byte that a kind may have. It does not allocate.
fn greatest_mode(format: Format, kind: u8) -> u8
    ensures { result ≡ spec.greatest_mode_of format kind }
{
    if kind == REQUEST {
        format.max_mode()
    } else {
        NO_MODE
    }
}

/// Tests fields in their order: each row says how many bytes there must be, what must hold of them, and the fault if it
/// does not hold.
macro_rules! first_failing {
    ($bytes:ident; $($end:expr, $is_right:expr => $fault:ident;)*) => {{
        $(
            if $bytes.len() < $end {
                return Some(FrameError::Short);
            }
            if !($is_right) {
                return Some(FrameError::$fault);
            }
        )*
        None
    }};
}

/// Returns the first fault of the kind and the two nodes, or `None`. It does not allocate.
fn head_fault(format: Format, bytes: &[u8]) -> Option<FrameError>
    ensures { result ≡ spec.first_failing (length bytes.now) (head_checks format bytes.now) }
{
    let (max, to, mode) = (format.max_node(), format.to_place(), format.mode_place());
    first_failing! { bytes;
        2, bytes[KIND] == REQUEST || bytes[KIND] == REPLY => Kind;
        to, is_within(1, max, u64::from(node_number_at(format, bytes, FROM))) => From;
        mode, is_within(1, max, u64::from(node_number_at(format, bytes, to))) => To;
        mode, node_number_at(format, bytes, FROM) != node_number_at(format, bytes, to) => SameNode;
    }
}

/// Returns the first fault of the mode and the two numbers, or `None`. It does not allocate.
fn numbers_fault(format: Format, bytes: &[u8]) -> Option<FrameError>
    ensures { result ≡ spec.first_failing (length bytes.now) (numbers_checks format bytes.now) }
{
    let mode = format.mode_place();
    first_failing! { bytes;
        mode + SEQ, bytes[mode] <= greatest_mode(format, bytes[KIND]) => Mode;
        mode + CLOCK, number_at(bytes, mode + SEQ) >= 1 => Seq;
        mode + NAME_LENGTH, is_within(1, Frame::MAX_CLOCK, number_at(bytes, mode + CLOCK)) => Clock;
    }
}

/// Returns the first fault of the name, its length and what follows it, or `None`. It does not allocate.
fn name_fault(format: Format, bytes: &[u8]) -> Option<FrameError>
    ensures { result ≡ spec.first_failing (length bytes.now) (name_checks format bytes.now) }
{
    let length = format.mode_place() + NAME_LENGTH;
    let name = format.mode_place() + NAME;
    first_failing! { bytes;
        name, is_within(1, Name::MAX_LEN as u64, u64::from(bytes[length])) => NameLength;
        name + usize::from(bytes[length]),
            are_name_bytes(&bytes[name..name + usize::from(bytes[length])]) => NameByte;
        name + usize::from(bytes[length]), bytes.len() == name + usize::from(bytes[length]) => Trailing;
    }
}

/// Returns the fault of the first field after the version that is short or not right, in the order of the fields, or
/// `None` if all are right. It does not allocate.
fn first_fault(format: Format, bytes: &[u8]) -> Option<FrameError>
    ensures { result ≡ spec.first_fault_of format bytes.now }
{
    if let Some(fault) = head_fault(format, bytes) {
        return Some(fault);
    }
    if let Some(fault) = numbers_fault(format, bytes) {
        return Some(fault);
    }
    name_fault(format, bytes)
}

/// Returns the node whose number is at a place. It does not allocate.
fn node_at(format: Format, bytes: &[u8], place: usize) -> NodeId
    requires there { place + node_width format ≤ length bytes.now }
    requires valid { IsNodeNumber (spec.node_at format bytes.now place) }
    ensures { result ≡ spec.node_at format bytes.now place }
{
    NodeId::new(node_number_at(format, bytes, place)).unwrap()
}

/// Returns the name, which is after its length. It does not allocate.
fn name_at(format: Format, bytes: &[u8]) -> Name
    requires { IsChecked format bytes.now }
    ensures { result ≡ name_in format bytes.now }
{
    let name = format.mode_place() + NAME;
    let length = usize::from(bytes[format.mode_place() + NAME_LENGTH]);
    Name::of(&bytes[name..name + length]).unwrap()
}

/// Returns the message of bytes that have no fault. It does not allocate.
fn message_of(format: Format, bytes: &[u8]) -> Message
    requires { IsChecked format bytes.now }
    ensures { IsMessageText format bytes.now (clock_in format bytes.now) result }
{
    let mode = format.mode_place();
    let from = node_at(format, bytes, FROM);
    let to = node_at(format, bytes, format.to_place());
    let name = name_at(format, bytes);
    let seq = number_at(bytes, mode + SEQ);
    if bytes[KIND] == REQUEST {
        Message::Request {
            from,
            to,
            name,
            mode: mode_of(bytes[mode]),
            seq,
        }
    } else {
        Message::Reply {
            from,
            to,
            name,
            seq,
        }
    }
}

/// Returns the frame that the bytes are the text of, in version 1 or 2. It does not allocate.
///
/// # Errors
///
/// The fields are looked at in their order, and the first that is not right is named. A field with a byte missing is
/// `Short` at its place in that order; the name is one field, and is looked at once all of it is present.
///
/// 1. `Version`: the version is neither 1 nor 2.
/// 2. `Kind`: the kind is neither 1 nor 2.
/// 3. `From`: the sender is not 1 to 16 in version 1, and not 1 to 64 in version 2.
/// 4. `To`: the receiver is not that.
/// 5. `SameNode`: the sender is the receiver.
/// 6. `Mode`: the mode is not 0 or 1 in version 1, and not 0 to 4 in version 2, or not 0 in a REPLY.
/// 7. `Seq`: the sequence number is 0.
/// 8. `Clock`: the clock is not 1 to 2^62.
/// 9. `NameLength`: the length of the name is not 1 to 32.
/// 10. `NameByte`: a byte of the name is not one that a name may have.
/// 11. `Trailing`: bytes follow the name.
pub fn decode(bytes: &[u8]) -> Result<Frame, FrameError>
    // It is Ok exactly on frame texts of both versions, and gives their frame.
    ensures found { IfOk result (IsFrameText bytes.now) }
    ensures only { (frame : Frame) → IsFrameText bytes.now frame → result ≡ Ok frame }
    ensures fits { IfOk result Fits }

    ensures fault { (fault : FrameError) → IsErrOf result fault ↔ (spec.first_fault bytes.now ≡ Some fault) }
{
    let format = format_of(bytes)?;
    match first_fault(format, bytes) {
        Some(fault) => Err(fault),
        None => Ok(Frame {
            clock: number_at(bytes, format.mode_place() + CLOCK),
            message: message_of(format, bytes),
        }),
    }
}
