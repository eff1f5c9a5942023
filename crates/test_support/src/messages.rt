//! Names, nodes, messages and requests, as many tests use them.
ghost use Rattle.std.specs.Prelude.{◌≡◌};
ghost use Rattle.ra_stamp.specs.Message.{name_of};
ghost use Rattle.ra_stamp.specs.NodeId.{IsNodeNumber};

use ra_stamp::{Entry, Message, Mode, Name, NodeId, Stamp};

/// Returns the node with this number.
pub fn id(number: u16) -> NodeId
    requires { IsNodeNumber number }
{
    NodeId::new(number).unwrap()
}

/// Returns the name `r`.
pub fn r() -> Name {
    Name::new(b"r").unwrap()
}

/// Returns the name `q`.
pub fn q() -> Name {
    Name::new(b"q").unwrap()
}

/// Returns the REQUEST in this mode between these nodes, or the REPLY if no mode is given.
pub fn message_between(
    from: NodeId,
    to: NodeId,
    name: Name,
    mode: Option<Mode>,
    seq: u64,
) -> Message
    ensures { name_of result ≡ name }
{
    match mode {
        Some(mode) => Message::Request {
            from,
            to,
            name,
            mode,
            seq,
        },
        None => Message::Reply {
            from,
            to,
            name,
            seq,
        },
    }
}

/// Returns a REQUEST on the name `r`, in the mode Exclusive.
pub fn request(from: u16, to: u16, seq: u64) -> Message
    requires from { IsNodeNumber from }
    requires to { IsNodeNumber to }
{
    message_between(id(from), id(to), r(), Some(Mode::Exclusive), seq)
}

/// Returns a REPLY on the name `r`.
pub fn reply(from: u16, to: u16, seq: u64) -> Message
    requires from { IsNodeNumber from }
    requires to { IsNodeNumber to }
{
    message_between(id(from), id(to), r(), None, seq)
}

/// Returns the request of a client at a node.
pub fn entry_of(node: NodeId, client: u32, name: Name, mode: Mode, seq: u64) -> Entry {
    Entry {
        name,
        stamp: Stamp { seq, node },
        client,
        mode,
    }
}

/// Returns the request of a client at the node with this number.
pub fn entry(node: u16, client: u32, name: Name, mode: Mode, seq: u64) -> Entry
    requires { IsNodeNumber node }
{
    entry_of(id(node), client, name, mode, seq)
}

/// Returns a writer's request on the name `r`.
pub fn writer(node: u16, client: u32, seq: u64) -> Entry
    requires { IsNodeNumber node }
{
    entry(node, client, r(), Mode::Exclusive, seq)
}
