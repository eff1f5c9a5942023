ghost use Rattle.std.specs.Prelude.{◌≡◌, Some, None, if◌then◌else◌, ok_or, map, option_map, option_and_then, IfOk, IfErr};
ghost use Rattle.toml.specs.Data.{as_str, as_table};
ghost use Rattle.toml.specs.View.{view, array_view, table_view};
ghost use Rattle.ra_script.specs.Faults.{IsRefusal};
ghost use Rattle.ra_script.specs.Document as spec;
ghost use Rattle.ra_script.specs.ScriptText.{natural, is_up_to};

use crate::ScriptError;
use std::alloc::Global;
use toml::value::Array;
use toml::{Table, Value};

/// A client's table: the number of its node, and its operations.
#[derive(Drop)]
pub struct ClientRef<'a> {
    pub node: i64,
    pub ops: Vec<&'a str>,
}

/// A document of the right shape, borrowed from its tree.
#[derive(Drop)]
pub struct DocumentRef<'a> {
    pub nodes: i64,
    pub clients: Vec<ClientRef<'a>>,
}

impl ClientRef<'_> {
    /// Returns the number of its node, if it is 1 to `most`. It does not allocate.
    pub fn node_up_to(&self, most: u16) -> Option<u16>
        ensures { result ≡ (if is_up_to most self.now.node then Some (natural self.now.node) else None) }
    {
        number_up_to(self.node, most)
    }
}

impl DocumentRef<'_> {
    /// Returns the number of nodes, if it is 1 to `most`. It does not allocate.
    pub fn nodes_up_to(&self, most: u16) -> Option<u16>
        ensures { result ≡ (if is_up_to most self.now.nodes then Some (natural self.now.nodes) else None) }
    {
        number_up_to(self.nodes, most)
    }
}

/// Returns the number, if it is 1 to `most`. It does not allocate.
fn number_up_to(number: i64, most: u16) -> Option<u16>
    ensures { result ≡ (if is_up_to most number then Some (natural number) else None) }
{
    match u16::try_from(number) {
        Ok(number) if 1 <= number && number <= most => Some(number),
        _ => None,
    }
}

/// Returns the integer at a key, if there is one. It does not allocate.
pub fn integer_at(table: &Table, key: &str) -> Option<i64>
    ensures { result ≡ spec.integer_at key.now (table_view table.now) }
{
    match table.get(key) {
        Some(value) => value.as_integer(),
        None => None,
    }
}

/// Returns the array at a key, if there is one. It does not allocate.
pub fn array_at<'a>(table: &'a Table, key: &str) -> Option<&'a Array>
    ensures { option_map (λ items. array_view items.now) result ≡ spec.array_at key.now (table_view table.now) }
{
    match table.get(key) {
        Some(value) => value.as_array(),
        None => None,
    }
}

/// Returns the strings of an array that has only strings.
///
/// # Errors
///
/// `Shape`: an element is no string. `Memory`, which may come before it.
fn strings_of<'a>(alloc: Global, items: &'a Array) -> Result<Vec<&'a str>, ScriptError>
    ensures ok { IfOk result (λ strings. spec.strings_of (array_view items.now) ≡ Some (spec.texts strings.items)) }
    ensures err { IfErr result (IsRefusal (ok_or (spec.strings_of (array_view items.now)) ScriptError.Shape)) }
{
    let mut strings = Vec::new(alloc);
    for item in items {
        let Some(string) = item.as_str() else {
            return Err(ScriptError::Shape);
        };
        strings.push(string)?;
    }
    Ok(strings)
}

/// Returns the client of a table that has the keys `node`, an integer, and `ops`, an array of strings, and no other.
///
/// # Errors
///
/// `Shape`: it has not. `Memory`, which may come before it.
fn client_in<'a>(alloc: Global, table: &'a Table) -> Result<ClientRef<'a>, ScriptError>
    ensures ok { IfOk result (λ client. spec.client_in (table_view table.now) ≡ Some (spec.client_table client)) }
    ensures err { IfErr result (IsRefusal (ok_or (spec.client_in (table_view table.now)) ScriptError.Shape)) }
{
    if table.len() != 2 {
        return Err(ScriptError::Shape);
    }
    match (integer_at(table, "node"), array_at(table, "ops")) {
        (Some(node), Some(ops)) => Ok(ClientRef {
            node,
            ops: strings_of(alloc, ops)?,
        }),
        _ => Err(ScriptError::Shape),
    }
}

/// Returns the client of a value, which is such a table.
///
/// # Errors
///
/// `Shape`: it is not. `Memory`, which may come before it.
pub fn client_of<'a>(alloc: Global, value: &'a Value) -> Result<ClientRef<'a>, ScriptError>
    ensures ok { IfOk result (λ client. spec.client_of (view value.now) ≡ Some (spec.client_table client)) }
    ensures err { IfErr result (IsRefusal (ok_or (spec.client_of (view value.now)) ScriptError.Shape)) }
{
    match value.as_table() {
        Some(table) => client_in(alloc, table),
        None => Err(ScriptError::Shape),
    }
}

/// Returns the clients of an array that has only clients.
///
/// # Errors
///
/// `Shape`: an element is no client's table. `Memory`, which may come before it.
fn clients_of<'a>(alloc: Global, tables: &'a Array) -> Result<Vec<ClientRef<'a>>, ScriptError>
    ensures ok { IfOk result (λ clients.
        spec.clients_of (array_view tables.now) ≡ Some (map spec.client_table clients.items)) }
    ensures err { IfErr result (IsRefusal (ok_or (spec.clients_of (array_view tables.now)) ScriptError.Shape)) }
{
    let mut clients = Vec::new(alloc);
    for table in tables {
        let client = client_of(alloc, table)?;
        clients.push(client)?;
    }
    Ok(clients)
}

/// Returns the document of a tree that has the keys `nodes`, an integer, and `client`, an array of clients' tables, and
/// no other, in time linear in the number of clients and operations.
///
/// # Errors
///
/// `Shape`: it has not. `Memory`, which may come before it.
pub fn document_of<'a>(alloc: Global, tree: &'a Table) -> Result<DocumentRef<'a>, ScriptError>
    ensures ok { IfOk result (λ read. spec.document_of (table_view tree.now) ≡ Some (spec.document read)) }
    ensures err { IfErr result (IsRefusal (ok_or (spec.document_of (table_view tree.now)) ScriptError.Shape)) }
{
    if tree.len() != 2 {
        return Err(ScriptError::Shape);
    }
    match (integer_at(tree, "nodes"), array_at(tree, "client")) {
        (Some(nodes), Some(tables)) => Ok(DocumentRef {
            nodes,
            clients: clients_of(alloc, tables)?,
        }),
        _ => Err(ScriptError::Shape),
    }
}
