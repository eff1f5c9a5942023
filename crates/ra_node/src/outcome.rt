ghost use Rattle.std.specs.Prelude.{◌≡◌, [], IfOk};
ghost use Rattle.ra_node.specs.Room.{IsNothing, HasRoomToLeave};

use crate::marks::marks_for;
use ra_stamp::{Marks, Memory, Messages};
use std::alloc::Global;

/// What an event of a node does to the outside.
#[derive(Debug, Drop)]
pub struct Outcome {
    /// The messages to send, in this order: REPLYs before REQUESTs, each in ascending order of the nodes.
    pub sends: Messages,
    /// What happened to the clients' requests, in this order: Left or Withdrawn, Requested, Entered.
    pub marks: Marks,
}

impl Outcome {
    /// Makes the outcome of an event that sends and marks nothing, as to forget does. It does not allocate.
    pub fn nothing(alloc: Global) -> Outcome
        ensures { IsNothing result }
    {
        nothing(alloc)
    }

    /// Makes an outcome that is empty, with room for all that a leave or a cancel sends and marks at one of this many
    /// nodes. A caller that makes it before it asks has what [`Node::leave_into`](crate::Node::leave_into) needs.
    ///
    /// # Errors
    ///
    /// `Memory`: memory ran out.
    pub fn for_leave(alloc: Global, nodes: u16) -> Result<Outcome, Memory>
        ensures nothing { IfOk result IsNothing }
        ensures room { IfOk result (HasRoomToLeave nodes) }
    {
        let mut sends = Messages::new(alloc);
        sends.reserve(2 * u64::from(nodes))?;
        let marks = marks_for(alloc, 3)?;
        Ok(Outcome { sends, marks })
    }
}

/// Makes the outcome of an event that sends and marks nothing. It does not allocate.
pub fn nothing(alloc: Global) -> Outcome
    ensures { (result.sends.items ≡ []) × (result.marks.items ≡ []) }
{
    Outcome {
        sends: Messages::new(alloc),
        marks: Marks::new(alloc),
    }
}
