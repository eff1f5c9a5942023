//! What a host answers to `status`.
ghost use Rattle.std.specs.Prelude.{◌≡◌, ◌++◌, ℕ, decimal};
ghost use Rattle.ra_stamp.specs.Mode.{mode_word};
ghost use Rattle.ra_stamp.specs.Name.{IsName};
ghost use Rattle.ra_stamp.specs.NodeId.{IsNodeNumber};
ghost use Rattle.ra_text.specs.Drafting.{Adds};
ghost use Rattle.ra_text.specs.Lines.{field};
ghost use Rattle.ra_host_text.specs.HostText.{IsCount};
ghost use Rattle.ra_host_text.specs.StatusText as spec;
ghost use Rattle.ra_host_text.specs.StatusText.{IsConnectionInRange, IsStatusInRange, connection_text, status_text};

use ra_stamp::{Mode, Name, NodeId};
use ra_text::Draft;

/// A line of what a host knows, which it answers to `status`. Times are how long it has been so, in milliseconds.
#[derive(Clone, Copy)]
pub enum StatusLine {
    /// `node I NODES START`: the host.
    Node {
        /// Its node.
        node: NodeId,
        /// How many nodes there are.
        nodes: NodeId,
        /// The number with which each name begins.
        first: u64,
    },
    /// `peer J heard MS COUNT` or `peer J asked MS COUNT`: another host.
    Peer {
        /// The host.
        host: NodeId,
        /// Whether a question to it is open.
        is_asked: bool,
        /// For how many milliseconds it has not been heard, or the question is open.
        since: u64,
        /// How many frames it has not acknowledged.
        unacknowledged: u64,
    },
    /// `clients COUNT`: how many clients are connected.
    Clients {
        /// Their number.
        count: u64,
    },
    /// `holds NAME MODE SEQ C MS`: a client holds a name. C is `-` for a client of before the start.
    Holds {
        /// The name.
        name: Name,
        /// The mode.
        mode: Mode,
        /// The number of its request.
        seq: u64,
        /// Its connection, unless it is a client of before the start.
        client: Option<u64>,
        /// For how many milliseconds it holds the name.
        since: u64,
    },
    /// `waits NAME MODE C MS`: a client waits for a name, or is queued for it. C is `-` for a client of before the
    /// start.
    Waits {
        /// The name.
        name: Name,
        /// The mode.
        mode: Mode,
        /// Its connection, unless it is a client of before the start.
        client: Option<u64>,
        /// For how many milliseconds it waits.
        since: u64,
    },
    /// `greatest SEQ`: the greatest number that the node has met.
    Greatest {
        /// The number.
        seq: u64,
    },
    /// `book BYTES`: the book.
    Book {
        /// How many bytes it has.
        bytes: u64,
    },
    /// `end`: there are no more lines.
    End,
}

/// Returns the word for whether a question to a host is open. It does not allocate.
fn peer_word(is_asked: bool) -> &'static str
    ensures { result.now ≡ spec.peer_word is_asked }
{
    if is_asked { "asked" } else { "heard" }
}

/// Adds a word and a node.
fn push_node(text: &mut Draft, word: &str, node: NodeId)
    ensures text { Adds text.old (word.now ++ field (decimal node)) text.new }
    ensures fits { IsNodeNumber node }
{
    text.push(word);
    text.push_number(node.get());
}

/// Adds a word and a number.
fn push_count(text: &mut Draft, word: &str, count: u64)
    ensures { Adds text.old (word.now ++ field (decimal count)) text.new }
{
    text.push(word);
    text.push_number(count);
}

/// Adds a word, a name and a mode.
fn push_mode(text: &mut Draft, word: &str, name: &Name, mode: Mode)
    ensures text { Adds text.old (word.now ++ field name.now ++ field (mode_word mode)) text.new }
    ensures fits { IsName name.now }
{
    // For the proof: the bytes of a name are one.
    let _ = name.bytes();
    text.push(word);
    text.push_field(name.as_str());
    text.push_field(mode.word());
}

/// Adds a client's connection, or a hyphen, with the space before it.
fn push_connection(text: &mut Draft, client: Option<u64>)
    ensures text { Adds text.old (field (connection_text client)) text.new }
    ensures fits { IsConnectionInRange client }
{
    match client {
        Some(client) => text.push_number(client),
        None => text.push_field("-"),
    }
}

/// Adds a client, and for how many milliseconds it holds or waits.
fn push_client_since(text: &mut Draft, client: Option<u64>, since: u64)
    ensures text { Adds text.old (field (connection_text client) ++ field (decimal since)) text.new }
    ensures fits { IsConnectionInRange client }
{
    push_connection(text, client);
    text.push_number(since);
}

impl StatusLine {
    /// Adds it as text, without a line feed.
    pub fn push(&self, text: &mut Draft)
        ensures text { Adds text.old (status_text self.now) text.new }
        ensures fits { IsStatusInRange self.now }
    {
        match self {
            StatusLine::Node { node, nodes, first } => {
                push_node(text, "node", *node);
                text.push_number(nodes.get());
                text.push_number(*first);
            }
            StatusLine::Peer {
                host,
                is_asked,
                since,
                unacknowledged,
            } => {
                push_node(text, "peer", *host);
                text.push_field(peer_word(*is_asked));
                text.push_number(*since);
                text.push_number(*unacknowledged);
            }
            StatusLine::Clients { count } => push_count(text, "clients", *count),
            StatusLine::Holds {
                name,
                mode,
                seq,
                client,
                since,
            } => {
                push_mode(text, "holds", name, *mode);
                text.push_number(*seq);
                push_client_since(text, *client, *since);
            }
            StatusLine::Waits {
                name,
                mode,
                client,
                since,
            } => {
                push_mode(text, "waits", name, *mode);
                push_client_since(text, *client, *since);
            }
            StatusLine::Greatest { seq } => push_count(text, "greatest", *seq),
            StatusLine::Book { bytes } => push_count(text, "book", *bytes),
            StatusLine::End => text.push("end"),
        }
    }
}
