use ra_stamp::Mode;

/// A client that waits for its turn at a resource.
#[derive(Clone, Copy)]
pub struct Queued {
    /// The client, any number.
    pub client: u32,
    /// How it will lock the resource.
    pub mode: Mode,
}
