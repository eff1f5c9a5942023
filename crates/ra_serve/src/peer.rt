//! What is kept of another host, beside its link.
ghost use Rattle.std.specs.Prelude.{◌≡◌};

/// How many kinds of faults of hosts there are.
pub const FAULTS: usize = 7;

/// What is kept of another host, beside its link. Times are milliseconds since the start.
#[derive(Clone, Copy)]
pub struct Peer {
    /// The first nonce of its book, once it has said it.
    pub identity: Option<u128>,
    /// When it was last heard, or if a question to it is open, when that was first said.
    pub since: u64,
    /// When questions, frames and acks were last said again.
    pub said: u64,
    /// Whether an ack is to be said after the next sync.
    pub is_owed: bool,
    /// How many of the frames for it were made when new ones were last said.
    pub shown: u64,
    /// How often each fault came.
    pub faults: [u64; FAULTS],
}

impl Peer {
    ghost use Rattle.ra_serve.specs.Peers.{unknown};

    /// Nothing is known of it.
    pub fn new() -> Peer
        ensures { result ≡ unknown }
    {
        Peer {
            identity: None,
            since: 0,
            said: 0,
            is_owed: false,
            shown: 0,
            faults: [0; FAULTS],
        }
    }
}
