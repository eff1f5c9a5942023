//! Why a text is not a script.
use crate::script_notes::shape_note::say_shape;
use ra_schedule::Script;
use ra_script::{ClientRef, DocumentRef, MAX_SCRIPT, ScriptError, add_op, document_of};
use ra_stamp::{Memory, NodeId};
use ra_text::Note;
use std::alloc::Global;
use toml::Table;

/// What a text looks like that begins with a word.
struct Look {
    prefix: &'static str,
    text: &'static str,
}

/// What a text looks like that is no script.
const LOOKS: &[Look] = &[
    Look {
        prefix: "trace ",
        text: "; it looks like a trace, which ra check reads",
    },
    Look {
        prefix: "request ",
        text: "; it looks like marks, which ra check --marks reads without the six totals of a report",
    },
    Look {
        prefix: "requests ",
        text: "; it looks like the output of ra sim or ra cluster",
    },
    Look {
        prefix: "book ",
        text: "; it looks like a book, which ra node and ra settle read",
    },
];

/// Repeats what the parser says of a text that is not a TOML document, and says what the text looks like, if that is
/// known.
fn say_toml(alloc: Global, note: &mut Note, text: &str, fault: &toml::de::Error) {
    note.refuse_if(fault.is_memory());
    note.push("the script is not valid TOML: ");
    match format!(in alloc; "{fault}") {
        Ok(said) => note.lines(said.trim_end()),
        Err(_) => note.refuse_if(true),
    }
    for look in LOOKS {
        if text.starts_with(look.prefix) {
            note.push(look.text);
            return;
        }
    }
}

/// Says that an operation of a client is refused, and why.
fn say_refused(note: &mut Note, client: usize, place: usize, op: &str, fault: ScriptError) {
    note.refuse_if(fault == ScriptError::Memory);
    note.push("client ");
    note.number(client);
    note.push(", operation ");
    note.number(place);
    note.push(", ");
    note.quoted_text(op);
    note.push(match fault {
        ScriptError::NotHeld => ": the client does not hold this name",
        ScriptError::AlreadyHeld => ": the client already holds this name",
        _ => {
            ": not an operation: expected S, X, IS, IX, SIX or U, a space and a name of 1 to 32 characters from A-Z, a-z, 0-9, _, - and ."
        }
    });
}

/// Says what is wrong with the client that has this number, if anything is: that it has too many operations, or which
/// of them is the first to be refused. The client goes into the script.
fn say_client(alloc: Global, note: &mut Note, script: &mut Script, client: usize, ops: &[&str]) {
    let count = ops.len();
    if count > Script::MAX_OPS {
        note.push("client ");
        note.number(client);
        note.push(" has ");
        note.number(count);
        note.push(" operations: at most 1024 are allowed");
        return;
    }
    note.refuse_if(script.add_client(alloc, 1).is_err());
    for (place, &op) in ops.iter().enumerate() {
        if let Err(fault) = add_op(script, op) {
            say_refused(note, client, place + 1, op, fault);
            return;
        }
    }
}

/// Says what is wrong with the first client that has a fault, if there is one. The clients go into the script.
fn say_clients(alloc: Global, note: &mut Note, script: &mut Script, clients: &[ClientRef<'_>]) {
    for (place, client) in clients.iter().enumerate() {
        say_client(alloc, note, script, place + 1, &client.ops);
        if !note.is_empty() {
            return;
        }
    }
}

/// Says what is wrong with the clients of a document, if anything is. First comes one whose node does not exist.
fn say_all_clients(alloc: Global, note: &mut Note, nodes: u16, clients: &[ClientRef<'_>]) {
    for (place, client) in clients.iter().enumerate() {
        if client.node_up_to(nodes).is_none() {
            note.push("client ");
            note.number(place + 1);
            note.push(": node is ");
            note.number(client.node);
            note.push(": must be 1 to ");
            note.number(nodes);
            note.push(", the value of nodes");
            return;
        }
    }
    match Script::new(alloc, 1) {
        Ok(mut script) => say_clients(alloc, note, &mut script, clients),
        Err(_) => note.refuse_if(true),
    }
}

/// Says what is wrong with a document that has the shape of a script, if anything is.
fn say_document(alloc: Global, note: &mut Note, document: &DocumentRef<'_>) {
    let Some(nodes) = document.nodes_up_to(NodeId::MAX) else {
        note.push("nodes is ");
        note.number(document.nodes);
        note.push(": must be 1 to 64");
        return;
    };
    let count = document.clients.len();
    if count == 0 || count > Script::MAX_CLIENTS {
        note.push("the number of clients is ");
        note.number(count);
        note.push(": must be 1 to 64");
        return;
    }
    say_all_clients(alloc, note, nodes, &document.clients);
}

/// Says what is wrong with a document, if anything is.
fn say_tree(alloc: Global, note: &mut Note, tree: &Table) {
    match document_of(alloc, tree) {
        Ok(document) => say_document(alloc, note, &document),
        Err(fault) => {
            note.refuse_if(fault == ScriptError::Memory);
            say_shape(alloc, note, tree);
        }
    }
}

/// Returns the line and the column, in bytes, of what follows these bytes. Both are counted from 1.
fn place_after(text: &[u8]) -> (usize, usize) {
    let (mut line, mut column): (usize, usize) = (1, 1);
    for byte in text {
        if *byte == b'\n' {
            line = line.saturating_add(1);
            column = 1;
        } else {
            column = column.saturating_add(1);
        }
    }
    (line, column)
}

/// Says what is wrong with bytes within the limit, if anything is.
fn say_bytes(alloc: Global, note: &mut Note, text: &[u8]) {
    match str::from_utf8(text) {
        Ok(text) => match toml::table_from_str(alloc, text) {
            Ok(tree) => say_tree(alloc, note, &tree),
            Err(fault) => say_toml(alloc, note, text, &fault),
        },
        Err(fault) => {
            let (line, column) = place_after(text.get(..fault.valid_up_to()).unwrap_or(b""));
            note.push("the script is not valid UTF-8 at line ");
            note.number(line);
            note.push(", column ");
            note.number(column);
            note.push(" (counted in bytes)");
        }
    }
}

/// Returns a note on why a text is not a script, on one line without its end: what is wrong, where, and what would
/// be right. Returns `None` if nothing is found, for example if the text is a script. It checks in the order of
/// [`read_script`](ra_script::read_script), and costs as much.
///
/// # Errors
///
/// `Memory`: there is no room for it.
pub fn script_note(alloc: Global, text: &[u8]) -> Result<Option<String>, Memory> {
    let mut note = Note::new(alloc);
    if text.len() > MAX_SCRIPT {
        note.push("the script has more than 65536 bytes");
    } else {
        say_bytes(alloc, &mut note, text);
    }
    note.finish()
}
