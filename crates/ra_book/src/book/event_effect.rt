use crate::Frames;
use ra_stamp::Marks;

/// What an event of a book does to the outside.
#[derive(Drop)]
pub struct Posted {
    /// The frames to send, each with the clock of the event, in this order: REPLYs before REQUESTs, each in ascending
    /// order of the nodes.
    pub frames: Frames,
    /// What happened to the clients' requests, in this order: Left, Requested, Entered.
    pub marks: Marks,
}
