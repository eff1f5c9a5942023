use ra_stamp::Entry;

/// A client was let in: its request was granted at its node.
#[derive(Clone, Copy, Debug, PartialEq, Eq)]
pub struct Grant {
    /// The request.
    pub entry: Entry,
}
