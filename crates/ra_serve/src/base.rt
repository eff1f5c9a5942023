//! What a host keeps beside its links and its node.
ghost use Rattle.std.specs.Prelude.{◌≡◌, ◌-◌, true, false, [], max, nat_le, replicate, IfOk, MatchBool};
ghost use Rattle.ra_text.specs.Drafting.{Says};

use crate::Settings;
use crate::peer::Peer;
use ra_stamp::{Memory, NodeId};
use ra_text::Draft;
use std::alloc::Global;

/// After how many milliseconds questions, frames and acks are said again.
const AGAIN: u64 = 1000;

/// What a host keeps beside its links and its node.
#[derive(Drop)]
pub struct Base {
    pub settings: Settings,
    /// The nonce of this start.
    pub nonce: u128,
    /// The first nonce of its book.
    pub identity: u128,
    /// Milliseconds since the start.
    pub time: u64,
    /// By the hosts' numbers, from 1. That of the host itself is not used.
    pub peers: Vec<Peer>,
    /// What may be written now.
    pub out: Draft,
}

impl Base {
    ghost use Rattle.ra_serve.specs.Peers.{Puts, peer_of, unknown};

    /// Makes it at the start. The cost is linear in the number of hosts.
    ///
    /// # Errors
    ///
    /// `Memory`: there is no room for it.
    pub fn new(
        alloc: Global,
        settings: Settings,
        nonce: u128,
        identity: u128,
    ) -> Result<Base, Memory>
        ensures settings { IfOk result (λ base. (base.settings ≡ settings) × (base.nonce ≡ nonce)
            × (base.identity ≡ identity) × (base.time ≡ 0)) }
        ensures peers { IfOk result (λ base. base.peers.items ≡ replicate settings.member.nodes unknown) }
        ensures out { IfOk result (λ base. Says base.out []) }
    {
        let nodes = usize::from(settings.member.nodes());
        let mut peers = Vec::with_capacity(alloc, nodes)?;
        for _turn in 0..nodes {
            peers.push(Peer::new())?;
        }
        Ok(Base {
            settings,
            nonce,
            identity,
            time: 0,
            peers,
            out: Draft::new(alloc),
        })
    }

    /// Returns what is kept of a host. It does not allocate.
    pub fn peer(&self, other: NodeId) -> Peer
        ensures { result ≡ peer_of self.now other }
    {
        let place = other.place();
        if place < self.peers.len() {
            self.peers[place]
        } else {
            Peer::new()
        }
    }

    /// Keeps this of a host.
    pub fn put(&mut self, other: NodeId, peer: Peer)
        ensures { Puts self.old other peer self.new }
    {
        if other.place() < self.peers.len() {
            self.peers[other.place()] = peer;
        }
    }

    /// An ack is to be said to a host after the next sync.
    pub fn owe(&mut self, other: NodeId)
        ensures { Puts self.old other (record (peer_of self.old other) { is_owed = true }) self.new }
    {
        let mut peer = self.peer(other);
        peer.is_owed = true;
        self.put(other, peer);
    }

    /// A question to a host is said for the first time.
    pub fn begin_question(&mut self, other: NodeId)
        ensures { Puts self.old other
            (record (peer_of self.old other) { since = self.old.time; said = self.old.time }) self.new }
    {
        let mut peer = self.peer(other);
        peer.said = self.time;
        peer.since = peer.said;
        self.put(other, peer);
    }

    /// A host was heard.
    pub fn touch(&mut self, other: NodeId)
        ensures { Puts self.old other (record (peer_of self.old other) { since = self.old.time }) self.new }
    {
        let mut peer = self.peer(other);
        peer.since = self.time;
        self.put(other, peer);
    }

    /// Returns whether it is time to say things again to a host, and notes that they are said.
    pub fn is_time(&mut self, other: NodeId) -> bool
        ensures value { result ≡ nat_le 1000 (self.old.time - (peer_of self.old other).said) }
        ensures said { MatchBool result
            (Puts self.old other (record (peer_of self.old other) { said = self.old.time }) self.new)
            (self.new ≡ self.old) }
    {
        let mut peer = self.peer(other);
        if self.time.saturating_sub(peer.said) < AGAIN {
            return false;
        }
        peer.said = self.time;
        self.put(other, peer);
        true
    }

    /// The time is this now, unless it was later before.
    pub fn pass_time(&mut self, now: u64)
        ensures { self.new ≡ record self.old { time = max self.old.time now } }
    {
        if self.time < now {
            self.time = now;
        }
    }
}
