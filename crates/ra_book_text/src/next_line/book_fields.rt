//! The fields of a line.
ghost use Rattle.std.specs.Prelude.{◌≡◌};
ghost use Rattle.ra_book_text.specs.Fields as spec;

use ra_book::BookKind;
use ra_stamp::{Mode, Name, NodeId};
use ra_trace::{client_of, mode_of, name_of, node_of, split_once, start_of};

/// Reads a name and a mode. It does not allocate.
fn name_and_mode_of(text: &[u8]) -> Option<(Name, Mode)>
    ensures { result ≡ spec.name_and_mode_of text.now }
{
    let (name, mode) = split_once(text, b' ')?;
    let name = name_of(name)?;
    let mode = mode_of(mode)?;
    Some((name, mode))
}

/// Reads the fields of an ask: client, name and mode. It does not allocate.
pub fn ask_of(text: &[u8]) -> Option<BookKind>
    ensures { result ≡ spec.ask_of text.now }
{
    let (client, rest) = split_once(text, b' ')?;
    let client = client_of(client)?;
    let (name, mode) = name_and_mode_of(rest)?;
    Some(BookKind::Ask { client, name, mode })
}

/// Reads the fields of a leave: client and name. It does not allocate.
pub fn leave_of(text: &[u8]) -> Option<BookKind>
    ensures { result ≡ spec.leave_of text.now }
{
    let (client, name) = split_once(text, b' ')?;
    let client = client_of(client)?;
    let name = name_of(name)?;
    Some(BookKind::Leave { client, name })
}

/// Reads the fields of a cancel: client and name. It does not allocate.
pub fn cancel_of(text: &[u8]) -> Option<BookKind>
    ensures { result ≡ spec.cancel_of text.now }
{
    let (client, name) = split_once(text, b' ')?;
    let client = client_of(client)?;
    let name = name_of(name)?;
    Some(BookKind::Cancel { client, name })
}

/// Reads how many nodes there are, and the number with which each resource begins. It does not allocate.
fn nodes_and_start_of(text: &[u8]) -> Option<(NodeId, u64)>
    ensures { result ≡ spec.nodes_and_start_of text.now }
{
    let (nodes, start) = split_once(text, b' ')?;
    let nodes = node_of(nodes)?;
    let start = start_of(start)?;
    Some((nodes, start))
}

/// Reads the fields of a first line: the node, how many nodes there are, and the number with which each resource
/// begins. It does not allocate.
pub fn first_of(text: &[u8]) -> Option<(NodeId, (NodeId, u64))>
    ensures { result ≡ spec.first_of text.now }
{
    let (node, rest) = split_once(text, b' ')?;
    let node = node_of(node)?;
    let rest = nodes_and_start_of(rest)?;
    Some((node, rest))
}
