use ra_frame::Frame;
use ra_stamp::Sequence;

/// A frame that a node sent.
#[derive(Clone, Copy, Debug, PartialEq, Eq)]
pub struct Sent {
    /// The frame.
    pub frame: Frame,
    /// Whether it was lost on its way: it is known that it did not arrive.
    pub lost: bool,
}

/// A list of frames.
pub type Frames = Sequence<Frame>;
