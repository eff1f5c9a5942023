pub mod document;
pub mod operation;

ghost use Rattle.std.specs.Prelude.{◌≡◌, ◌<◌, ◌≤◌, ℕ, List, [], ◌∷◌, ◌++◌, Ok, length, map, IsTrue, OnOk, IfOk, IfErr, IsErrOf, MatchResult};
ghost use Rattle.toml.specs.View.{table_view};
ghost use Rattle.ra_stamp.specs.NodeId.{IsNodeNumber};
ghost use Rattle.ra_schedule.specs.declared.script.Op.{Op};
ghost use Rattle.ra_schedule.specs.Script.{ScriptState, IsScript};
ghost use Rattle.ra_script.specs.Document.{texts, client_table, document as shown};
ghost use Rattle.ra_script.specs.Faults.{IsRefusal};
ghost use Rattle.ra_script.specs.Meaning.{Means};
ghost use Rattle.ra_script.specs.ScriptText as spec;
ghost use Rattle.ra_script.specs.ScriptText.{IsText};

use crate::ScriptError;
use crate::script_reading::document::{ClientRef, DocumentRef, document_of};
use crate::script_reading::operation::operation;
use ra_schedule::Script;
use ra_stamp::NodeId;
use std::alloc::Global;
use toml::Table;

/// The most bytes that the text of a script may have.
pub const MAX_SCRIPT: usize = 65_536;

/// Returns the tree of a text.
///
/// # Errors
///
/// The first that holds:
///
/// 1. `Limit`: the text has more than 65,536 bytes.
/// 2. `Toml`: it is not UTF-8, or no TOML document.
/// 3. `Memory`, which may come before it.
fn tree_of(alloc: Global, text: &[u8]) -> Result<Table, ScriptError>
    ensures ok { IfOk result (λ tree. spec.tree_of text.now ≡ Ok (table_view tree)) }
    ensures err { IfErr result (IsRefusal (spec.tree_of text.now)) }
    ensures limit { 65536 < length text.now → IsErrOf result ScriptError.Limit }
    ensures parsed { OnOk result (IsText text.now) }
    ensures memory { IsErrOf result ScriptError.Memory → IsText text.now }
{
    if text.len() > MAX_SCRIPT {
        return Err(ScriptError::Limit);
    }
    let Ok(text) = str::from_utf8(text) else {
        return Err(ScriptError::Toml);
    };
    match toml::table_from_str(alloc, text) {
        Ok(tree) => Ok(tree),
        Err(fault) if fault.is_memory() => Err(ScriptError::Memory),
        Err(_) => Err(ScriptError::Toml),
    }
}

/// Adds the operation of a string to the last client. There is one.
///
/// # Errors
///
/// The first that holds:
///
/// 1. `Op`: the string is no operation.
/// 2. `NotHeld`: it unlocks a name that the client does not have then.
/// 3. `AlreadyHeld`: it locks a name that the client has.
/// 4. `Memory`: memory ran out.
pub fn add_op(script: &mut Script, string: &str) -> Result<(), ScriptError>
    ensures ok { OnOk result ((base : ScriptState) (node : ℕ) (done : List Op)
        → script.old ≡ spec.with_last base (record { node = node; ops = done }) → length done < 1024
        → (op : Op) × (spec.next_op done string.now ≡ Ok op)
        × (script.new ≡ spec.with_last base (record { node = node; ops = done ++ op ∷ [] }))) }
    ensures err { IfErr result (λ fault. (base : ScriptState) (node : ℕ) (done : List Op)
        → script.old ≡ spec.with_last base (record { node = node; ops = done }) → length done < 1024
        → IsRefusal (spec.next_op done string.now) fault) }
    ensures script { OnOk result (IsScript script.new) }
{
    let Some(op) = operation(string) else {
        return Err(ScriptError::Op);
    };
    script.add_op(op)?;
    Ok(())
}

/// Adds a client at this node that does the operations of these strings.
///
/// # Errors
///
/// The first that holds, except that `Memory` may come before any but `Limit`:
///
/// 1. `Limit`: there are more than 1,024 operations.
/// 2. For the first operation that is refused, `Op`, `NotHeld` or `AlreadyHeld`, as at `add_op`.
/// 3. `Memory`: memory ran out.
fn add_client(
    alloc: Global,
    script: &mut Script,
    node: u16,
    strings: &[&str],
) -> Result<(), ScriptError>
    requires room { length script.old.clients < 64 }
    requires node { (1 ≤ node) × (node ≤ script.old.nodes) }
    ensures ok { OnOk result ((ops : List Op) × (spec.script_ops (texts strings.now) ≡ Ok ops)
        × (script.new ≡ spec.with_last script.old (record { node = node; ops = ops }))) }
    ensures err { IfErr result (IsRefusal (spec.script_ops (texts strings.now))) }
    ensures script { OnOk result (IsScript script.new) }
{
    if strings.len() > Script::MAX_OPS {
        return Err(ScriptError::Limit);
    }
    script.add_client(alloc, node)?;
    for &string in strings {
        add_op(script, string)?;
    }
    Ok(())
}

/// Returns whether there are 1 to 64 clients and each is at one of the nodes. It does not allocate.
fn are_placed(nodes: u16, clients: &[ClientRef<'_>]) -> bool
    ensures { result ≡ spec.are_placed nodes (map client_table clients.now) }
{
    if clients.is_empty() || clients.len() > Script::MAX_CLIENTS {
        return false;
    }
    for client in clients {
        match client.node_up_to(nodes) {
            Some(_) => {}
            None => return false,
        }
    }
    true
}

/// Returns the script of a document.
///
/// # Errors
///
/// The first that holds, except that `Memory` may come before any after `Clients`:
///
/// 1. `Nodes`: the number of nodes is not 1 to 64.
/// 2. `Clients`: there are not 1 to 64 clients, or one is at none of the nodes.
/// 3. For the first client that is refused, `Limit`, `Op`, `NotHeld` or `AlreadyHeld`, as at `add_client`.
/// 4. `Memory`: memory ran out.
fn script_in(alloc: Global, document: &DocumentRef<'_>) -> Result<Script, ScriptError>
    ensures ok { IfOk result (λ script. spec.script_in (shown document.now) ≡ Ok script) }
    ensures err { IfErr result (IsRefusal (spec.script_in (shown document.now))) }
    ensures script { IfOk result IsScript }
{
    let Some(nodes) = document.nodes_up_to(NodeId::MAX) else {
        return Err(ScriptError::Nodes);
    };
    if !are_placed(nodes, &document.clients) {
        return Err(ScriptError::Clients);
    }
    script_with(alloc, nodes, &document.clients)
}

/// Returns the script of these clients. Each is at one of the nodes.
///
/// # Errors
///
/// For the first client that is refused, `Limit`, `Op`, `NotHeld` or `AlreadyHeld`, as at `add_client`. `Memory`, which
/// may come before it.
fn script_with(alloc: Global, nodes: u16, clients: &[ClientRef<'_>]) -> Result<Script, ScriptError>
    requires nodes { IsNodeNumber nodes }
    requires placed { IsTrue (spec.are_placed nodes (map client_table clients.now)) }
    ensures nodes { IfOk result (λ script. script.nodes ≡ nodes) }
    ensures clients { IfOk result (λ script.
        spec.clients_after [] (map client_table clients.now) ≡ Ok script.clients) }
    ensures err { IfErr result (IsRefusal (spec.clients_after [] (map client_table clients.now))) }
    ensures script { IfOk result IsScript }
{
    let mut script = Script::new(alloc, nodes)?;
    for client in clients {
        // Each client is at one of the nodes.
        let node = client.node_up_to(nodes).unwrap();
        add_client(alloc, &mut script, node, &client.ops)?;
    }
    Ok(script)
}

/// Reads the text of a script: a TOML document with the keys `nodes`, an integer, and `client`, an array of tables.
/// Each of these has the keys `node`, an integer, and `ops`, an array of strings. The word of a mode (`X`, `S`, `IS`,
/// `IX` or `SIX`), one space and a name lock the name in that mode, and `U NAME` unlocks it. Clients are numbered from
/// 1 by place, and may have names at the end. It costs what the parser costs, and for each client at most the square of
/// its operations.
///
/// # Errors
///
/// The first that holds, except that `Memory` may come before any after these two: that the text is too long, and that
/// it is not UTF-8.
///
/// 1. `Limit`: the text has more than 65,536 bytes.
/// 2. `Toml`: it is not UTF-8, or no TOML document.
/// 3. `Shape`: a key is missing, unknown or of another type, anywhere in the document.
/// 4. `Nodes`: the number of nodes is not 1 to 64.
/// 5. `Clients`: there are not 1 to 64 clients, or one of them is at none of the nodes.
/// 6. For the first client with a fault, `Limit` if it has more than 1,024 operations. Otherwise, for its first
///    operation with a fault: `Op` if it has none of the six forms, `NotHeld` if it unlocks a name that the client does
///    not have then, and `AlreadyHeld` if it locks a name that the client has.
/// 7. `Memory`: memory ran out.
pub fn read_script(alloc: Global, text: &[u8]) -> Result<Script, ScriptError>
    ensures ok { IfOk result (λ script. spec.script_of text.now ≡ Ok script) }
    ensures refused { IfErr result (IsRefusal (spec.script_of text.now)) }
    ensures limit { 65536 < length text.now → IsErrOf result ScriptError.Limit }
    // Memory runs out only for a text that is not too long and is UTF-8: what is decided before it is parsed.
    ensures memory { IsErrOf result ScriptError.Memory → IsText text.now }
    ensures script { IfOk result IsScript }

    // It is read as a script only if it is a document of that script, and if it is, only `Memory` can come.
    ensures means { IfOk result (Means text.now) }
    ensures only { (script : ScriptState) → Means text.now script
        → MatchResult result (λ read. read ≡ script) (λ fault. fault ≡ ScriptError.Memory) }
{
    let tree = tree_of(alloc, text)?;
    let document = document_of(alloc, &tree)?;
    script_in(alloc, &document)
}
