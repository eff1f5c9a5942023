//! What calls of the clients' tables come to: what a client is told, and what its node is to do.

use crate::uses::Standing;
use ra_host_text::Refusal;
use ra_stamp::Name;

/// What a client's `lock` comes to.
#[derive(Clone, Copy, Debug, PartialEq, Eq)]
pub enum Lock {
    /// The connection was closed: what it says is passed over.
    PassedOver,
    /// The client is told that it is refused.
    Refused(Refusal),
    /// The client waits for the name: the node is to ask for it, by this number of the client.
    Asks(u32),
}

/// What a client's `unlock` comes to.
#[derive(Clone, Copy, Debug, PartialEq, Eq)]
pub enum Unlock {
    /// The connection was closed: what it says is passed over.
    PassedOver,
    /// The client is told that it is refused by `NotHeld`: it neither held the name nor waited for it.
    NotHeld,
    /// The client is told that it is unlocked. The node is to give the name back if the client held it, and otherwise
    /// to cancel it.
    Ends {
        /// The number of the client.
        number: u32,
        /// Whether it held the name.
        standing: Standing,
    },
}

/// Whom to tell what the node answers to a client that waits for a name.
#[derive(Clone, Copy, Debug, PartialEq, Eq)]
pub enum Told {
    /// The client does not wait for the name: nothing has changed, and nobody is told.
    NotWaiting,
    /// The client waited for the name, and has no connection.
    Nobody,
    /// The client waited for the name: its connection is told.
    Client(u64),
}

/// A name that a client gives up, as its time is over. The node is to cancel it.
#[derive(Clone, Copy, Debug, PartialEq, Eq)]
pub struct GivenUp {
    /// The number of the client.
    pub number: u32,
    /// The name.
    pub name: Name,
    /// The connection that is told `timeout`, if the client has one.
    pub client: Option<u64>,
}

/// A name that a client gives back, as it is gone, or as it is of before the start and released. The node is to give it
/// back if the client held it, and otherwise to cancel it.
#[derive(Clone, Copy, Debug, PartialEq, Eq)]
pub struct GivenBack {
    /// The number of the client.
    pub number: u32,
    /// The name.
    pub name: Name,
    /// Whether it held the name.
    pub standing: Standing,
}
