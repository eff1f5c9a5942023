ghost use Rattle.std.specs.Prelude.{◌≡◌, ◌↔◌, IsTrue};

use ra_stamp::Message;

/// A message, and the event clock of its sender when it was sent (L. Lamport, CACM 21(7), 1978).
#[derive(Clone, Copy, Debug, PartialEq, Eq)]
pub struct Frame {
    /// 1 to 2^62 in a frame that fits.
    pub clock: u64,
    /// What is sent.
    pub message: Message,
}

impl Frame {
    ghost use Rattle.ra_frame.specs.Fits.{Fits};

    /// The greatest clock that a frame may carry.
    pub const MAX_CLOCK: u64 = 1 << 62;

    /// Returns whether it may be sent: its clock is 1 to 2^62, its sequence number is 1 or more, and its sender is not
    /// its receiver. It does not allocate.
    pub fn fits(&self) -> bool
        ensures { IsTrue result ↔ Fits self.now }
    {
        1 <= self.clock
            && self.clock <= Frame::MAX_CLOCK
            && 1 <= self.message.seq()
            && self.message.from() != self.message.to()
    }
}
