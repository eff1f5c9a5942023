ghost use Rattle.std.specs.Prelude.{◌≡◌, ◌≤◌};
ghost use Rattle.ra_frame.specs.FrameText as text;

use Mode::{Exclusive, IntentExclusive, IntentShared, Shared, SharedIntentExclusive};
use ra_stamp::{Mode, NodeId};

/// The versions of frames, which differ in their nodes and modes. Nobody chooses one: all are read, and the newest is
/// written.
#[derive(Clone, Copy)]
pub enum Format {
    /// Nodes 1 to 16 in one byte each, and the modes shared and exclusive.
    V1,
    /// Nodes 1 to 64 in two bytes each, and all modes.
    V2,
}

impl Format {
    ghost use Rattle.ra_frame.specs.Format as spec;

    /// Returns the place of the receiver. It does not allocate.
    pub fn to_place(self) -> usize
        ensures value { result ≡ spec.to_place self }
        ensures small { result ≤ 4 }
    {
        match self {
            Format::V1 => 3,
            Format::V2 => 4,
        }
    }

    /// Returns the place of the mode. It does not allocate.
    pub fn mode_place(self) -> usize
        ensures value { result ≡ spec.mode_place self }
        ensures small { result ≤ 6 }
    {
        match self {
            Format::V1 => 4,
            Format::V2 => 6,
        }
    }

    /// Returns the place at which each field of a frame begins, in bytes counted from 0: the version, the kind, the
    /// sender, the receiver, the mode, the sequence number, the clock, the length of the name, and the name. A field
    /// ends where the next one begins, and the name has its length. It does not allocate.
    pub fn places(self) -> [usize; 9]
        ensures { result ≡ spec.places self }
    {
        let (to, mode) = (self.to_place(), self.mode_place());
        [
            0,
            KIND,
            FROM,
            to,
            mode,
            mode + SEQ,
            mode + CLOCK,
            mode + NAME_LENGTH,
            mode + NAME,
        ]
    }

    /// Returns the greatest number of a node. It does not allocate.
    pub fn max_node(self) -> u64
        ensures { result ≡ spec.greatest_node self }
    {
        match self {
            Format::V1 => 16,
            Format::V2 => u64::from(NodeId::MAX),
        }
    }

    /// Returns the greatest mode byte of a REQUEST. It does not allocate.
    pub fn max_mode(self) -> u8
        ensures { result ≡ spec.greatest_mode self }
    {
        match self {
            Format::V1 => 1,
            Format::V2 => 4,
        }
    }
}

/// The first byte of each frame of version 1.
pub const VERSION_1: u8 = 1;

/// The first byte of each frame of version 2.
pub const VERSION_2: u8 = 2;

/// The second byte of a REQUEST.
pub const REQUEST: u8 = 1;

/// The second byte of a REPLY.
pub const REPLY: u8 = 2;

/// The mode byte of a REPLY, which has no mode.
pub const NO_MODE: u8 = 0;

/// The place of the kind.
pub const KIND: usize = 1;

/// The place of the sender.
pub const FROM: usize = 2;

/// How far after the mode the sequence number begins.
pub const SEQ: usize = 1;

/// How far after the mode the clock begins.
pub const CLOCK: usize = 9;

/// How far after the mode the length of the name is.
pub const NAME_LENGTH: usize = 17;

/// How far after the mode the name begins.
pub const NAME: usize = 18;

/// Returns the byte of the mode of a REQUEST. It does not allocate.
pub fn mode_byte(mode: Mode) -> u8
    ensures { result ≡ text.mode_byte mode }
{
    match mode {
        Shared => 0,
        Exclusive => 1,
        IntentShared => 2,
        IntentExclusive => 3,
        SharedIntentExclusive => 4,
    }
}

/// Returns the mode of a byte. It does not allocate.
pub fn mode_of(byte: u8) -> Mode
    requires { byte ≤ 4 }
    ensures { text.mode_byte result ≡ byte }
{
    match byte {
        0 => Shared,
        1 => Exclusive,
        2 => IntentShared,
        3 => IntentExclusive,
        _ => SharedIntentExclusive,
    }
}
