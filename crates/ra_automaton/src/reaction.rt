use ra_stamp::Messages;

/// What an event causes outside the automaton.
#[derive(Debug, Drop)]
pub struct Reaction {
    /// The messages to send, in this order: the REPLYs in ascending order of the nodes, and then the REQUESTs,
    /// likewise.
    pub sends: Messages,
    /// Whether the event grants the node's request.
    pub entered: bool,
}
