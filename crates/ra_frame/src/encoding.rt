ghost use Rattle.std.specs.Prelude.{◌≡◌, ◌+◌, ◌≤◌, ◌++◌, length, IfOk};
ghost use Rattle.ra_frame.specs.Fits.{Fits};
ghost use Rattle.ra_frame.specs.FrameText.{IsWrittenText};

use crate::Frame;
use crate::format::{NO_MODE, REPLY, REQUEST, VERSION_2, mode_byte};
use arrayvec::ArrayVec;
use ra_stamp::{Memory, Message};
use std::alloc::Global;

/// The most bytes that a frame has in version 2.
pub const MAX_FRAME: usize = 56;

/// The bytes of a frame, which need no allocation.
pub type FrameBytes = ArrayVec<u8, MAX_FRAME>;

/// Returns the bytes of a frame that fits, in version 2: 24, plus the bytes of its name. It does not allocate.
pub fn encoded(frame: &Frame) -> FrameBytes
    requires { Fits frame.now }
    ensures { IsWrittenText result.items frame.now }
{
    let clock = frame.clock;
    let (kind, mode) = match frame.message {
        Message::Request { mode, .. } => (REQUEST, mode_byte(mode)),
        Message::Reply { .. } => (REPLY, NO_MODE),
    };
    let from = frame.message.from().get().to_be_bytes();
    let to = frame.message.to().get().to_be_bytes();
    let name = frame.message.name();
    let name = name.bytes();
    let mut bytes = FrameBytes::new();
    put(
        &mut bytes,
        &[VERSION_2, kind, from[0], from[1], to[0], to[1], mode],
    );
    put(&mut bytes, &frame.message.seq().to_be_bytes());
    put(&mut bytes, &clock.to_be_bytes());
    put(&mut bytes, &[name.len() as u8]);
    put(&mut bytes, name);
    bytes
}

/// Adds bytes to the bytes of a frame, which have room for them.
fn put(bytes: &mut FrameBytes, more: &[u8])
    requires { length bytes.old.items + length more.now ≤ 56 }
    ensures { bytes.new.items ≡ bytes.old.items ++ more.now }
{
    bytes.try_extend_from_slice(more).unwrap();
}

/// Returns the bytes of a frame that fits, as [`encoded`] does, in a vector.
///
/// # Errors
///
/// `Memory`: memory ran out.
pub fn encode(alloc: Global, frame: &Frame) -> Result<Vec<u8>, Memory>
    requires { Fits frame.now }
    ensures { IfOk result (λ bytes. IsWrittenText bytes.items frame.now) }
{
    let bytes = encoded(frame);
    let mut copied = Vec::with_capacity(alloc, bytes.len())?;
    copied.extend_from_slice(&bytes)?;
    Ok(copied)
}
