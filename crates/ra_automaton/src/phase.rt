use ra_stamp::Mode;

/// What a node is doing with a resource.
#[derive(Clone, Copy, Debug, PartialEq, Eq)]
pub enum Phase {
    /// The node has no request.
    Idle,
    /// The node's request awaits REPLYs.
    Waiting {
        /// The request's number, 1 or more.
        seq: u64,
        /// How the request locks the resource.
        mode: Mode,
    },
    /// The node's request is granted.
    Inside {
        /// The request's number, 1 or more.
        seq: u64,
        /// How the request locks the resource.
        mode: Mode,
    },
}
