ghost use Rattle.std.specs.Prelude.{IfOk};
ghost use Rattle.ra_book.specs.Departures.{IsDeparture};

use crate::Frames;
use crate::book::event_room::with_room;
use ra_node::Outcome;
use ra_stamp::Memory;
use std::alloc::Global;

/// What a leave or a cancel needs, made when its client asks: an outcome and a list of frames. Both are empty and have
/// room for all that it sends and marks.
#[derive(Drop)]
pub struct Departure {
    /// For what the node sends and marks.
    pub outcome: Outcome,
    /// For the frames that are posted.
    pub frames: Frames,
}

impl Departure {
    /// Makes what a leave needs at one of this many nodes.
    ///
    /// # Errors
    ///
    /// `Memory`: memory ran out.
    pub fn new(alloc: Global, nodes: u16) -> Result<Departure, Memory>
        ensures { IfOk result (IsDeparture nodes) }
    {
        let frames = with_room(alloc, 2 * u64::from(nodes))?;
        let outcome = Outcome::for_leave(alloc, nodes)?;
        Ok(Departure { outcome, frames })
    }
}
