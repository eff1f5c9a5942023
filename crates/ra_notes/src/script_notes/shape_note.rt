//! Why a document does not have the shape of a script.
use ra_script::{ScriptError, client_of};
use ra_text::Note;
use std::alloc::Global;
use toml::value::Array;
use toml::{Table, Value};

/// What a script has.
const SCRIPT: &str = "a script has nodes (an integer) and client (an array of tables)";

/// What the table of a client has.
const CLIENT: &str = "a client has node (an integer) and ops (an array of strings)";

/// Returns whether the value at a key is an integer.
fn has_integer(table: &Table, key: &str) -> bool {
    match table.get(key) {
        Some(value) => value.as_integer().is_some(),
        None => false,
    }
}

/// Returns the array at a key, if there is one.
fn array_at<'a>(table: &'a Table, key: &str) -> Option<&'a Array> {
    match table.get(key) {
        Some(value) => value.as_array(),
        None => None,
    }
}

/// Returns the first key of a table that is neither of these two, if there is one. It does not allocate.
fn unknown_key<'a>(table: &'a Table, first: &str, second: &str) -> Option<&'a str> {
    for key in table.keys() {
        let key = key.as_str();
        if key != first && key != second {
            return Some(key);
        }
    }
    None
}

/// Says what is wrong with a table that must have an integer and an array, or returns the array if nothing is wrong. A
/// key is unknown, or the first that is wanting is missing, or its value has the wrong type.
fn array_in<'a>(
    note: &mut Note,
    table: &'a Table,
    integer: &str,
    array: &str,
    known: &str,
) -> Option<&'a Array> {
    if let Some(key) = unknown_key(table, integer, array) {
        note.push("unknown key ");
        note.quoted_text(key);
        note.push(": ");
        note.push(known);
        return None;
    }
    let found = array_at(table, array);
    let wanting = if !has_integer(table, integer) {
        integer
    } else if found.is_none() {
        array
    } else {
        return found;
    };
    note.push(wanting);
    note.push(if table.get(wanting).is_some() {
        " has the wrong type: "
    } else {
        " is missing: "
    });
    note.push(known);
    None
}

/// Says what is wrong with the shape of a client: for its operations, it names the first that is not a string.
fn say_client(note: &mut Note, client: &Value) {
    let Some(table) = client.as_table() else {
        note.push("not a table: ");
        note.push(CLIENT);
        return;
    };
    let Some(ops) = array_in(note, table, "node", "ops", CLIENT) else {
        return;
    };
    for (place, op) in ops.iter().enumerate() {
        if op.as_str().is_none() {
            note.push("operation ");
            note.number(place + 1);
            note.push(" is not a string: ");
            note.push(CLIENT);
            return;
        }
    }
}

/// Says what is wrong with the shape of a document, if anything is. It checks the document first, and then client by
/// client.
pub fn say_shape(alloc: Global, note: &mut Note, tree: &Table) {
    let Some(clients) = array_in(note, tree, "nodes", "client", SCRIPT) else {
        return;
    };
    for (place, client) in clients.iter().enumerate() {
        if let Err(fault) = client_of(alloc, client) {
            note.refuse_if(fault == ScriptError::Memory);
            note.push("client ");
            note.number(place + 1);
            note.push(": ");
            say_client(note, client);
            return;
        }
    }
}
