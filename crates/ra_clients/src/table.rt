//! The clients by the numbers by which the book knows them.
ghost use Rattle.std.specs.Prelude.{◌≡◌, ◌++◌, ◌∷◌, [], ℕ, IsTrue, if◌then◌else◌, is_some, ◌&&◌, not, MatchOption, IfOk, OnOk, OnErr, Some, None};
ghost use Rattle.std.specs.BTreeMap.{get};
ghost use Rattle.std.specs.Ordering.{nat_cmp};
ghost use Rattle.ra_clients.specs.Uses.{let_in, lock_refusal, new_use, use_of, waits_for, without};
ghost use Rattle.ra_clients.specs.Table.{AreSameClients, Changes, Disconnects, Joins, connection_at, is_had, uses_at};

use crate::uses::{NameUse, begin_use, check_lock, end_use, enter_use, find_use, first_use};
use ra_host_text::Refusal;
use ra_stamp::{Memory, Name};
use std::alloc::Global;
use std::collections::BTreeMap;

/// A client with a number.
#[derive(Drop)]
pub struct Client {
    /// Its connection. A client that is gone has none, nor has one of before the start.
    pub connection: Option<u64>,
    /// The names that it holds or waits for.
    pub uses: Vec<NameUse>,
}

/// Returns the connection of the client with this number, if it has one. The cost is logarithmic in the number of
/// clients. It does not allocate.
pub fn connection_of(clients: &BTreeMap<u32, Client>, number: u32) -> Option<u64>
    ensures { result ≡ connection_at clients.now number }
{
    match clients.get(&number) {
        Some(client) => client.connection,
        None => None,
    }
}

/// Returns what the client with this number makes of a name, if anything. The cost is logarithmic in the number of
/// clients, and linear in the names of this one. It does not allocate.
pub fn use_at(clients: &BTreeMap<u32, Client>, number: u32, name: &Name) -> Option<NameUse>
    ensures { result ≡ use_of name.now (uses_at clients.now number) }
{
    match clients.get(&number) {
        Some(client) => find_use(&client.uses, name),
        None => None,
    }
}

/// Returns why the client with this number may not ask for a name, if it may not, as `check_lock` says. The cost is as
/// of `use_at`.
pub fn check_at(
    clients: &BTreeMap<u32, Client>,
    number: u32,
    name: &Name,
    most: usize,
) -> Option<Refusal>
    ensures { result ≡ lock_refusal name.now most (uses_at clients.now number) }
{
    match clients.get(&number) {
        Some(client) => check_lock(&client.uses, name, most),
        None => check_lock(&[], name, most),
    }
}

/// Returns a name of the client with this number, if it has one: the one for which it asked first. The cost is
/// logarithmic in the number of clients. It does not allocate.
pub fn first_at(clients: &BTreeMap<u32, Client>, number: u32) -> Option<NameUse>
    ensures { MatchOption result (uses_at clients.now number ≡ [])
        (λ first. use_of first.name (uses_at clients.now number) ≡ Some first) }
{
    match clients.get(&number) {
        Some(client) => first_use(&client.uses),
        None => None,
    }
}

/// Returns whether a client has the number: it has a connection or a name. The cost is logarithmic in the number of
/// clients. It does not allocate.
pub fn is_had_at(clients: &BTreeMap<u32, Client>, number: u32) -> bool
    ensures { result ≡ is_had (connection_at clients.now number) (uses_at clients.now number) }
{
    match clients.get(&number) {
        Some(client) => client.connection.is_some() || !client.uses.is_empty(),
        None => false,
    }
}

/// Returns whether a name is all that the client with this number has: it has no connection, and no other name. The
/// cost is as of `use_at`.
pub fn is_last_at(clients: &BTreeMap<u32, Client>, number: u32, name: &Name) -> bool
    ensures { result ≡ (is_had (connection_at clients.now number) (uses_at clients.now number)
        && not (is_had (connection_at clients.now number) (without name.now (uses_at clients.now number)))) }
{
    match clients.get(&number) {
        Some(client) => {
            client.connection.is_none()
                && client.uses.len() == 1
                && find_use(&client.uses, name).is_some()
        }
        None => false,
    }
}

/// The client with this number is let in to a name, if it waits for it. Returns whether it waited. The cost is
/// logarithmic in the number of clients, and linear in the names of this one. It does not allocate.
pub fn enter_at(clients: &mut BTreeMap<u32, Client>, number: u32, name: &Name, now: u64) -> bool
    ensures waited { result ≡ waits_for name.now (uses_at clients.old number) }
    ensures changes { Changes clients.old number
        (if result then let_in name.now now (uses_at clients.old number) else uses_at clients.old number) clients.new }
{
    let Some(client) = clients.get_mut(&number) else {
        return false;
    };
    enter_use(&mut client.uses, name, now)
}

/// The client with this number has a name no more. Returns what it made of the name, if anything. The cost is as of
/// `enter_at`.
pub fn end_at(clients: &mut BTreeMap<u32, Client>, number: u32, name: &Name) -> Option<NameUse>
    ensures value { result ≡ use_of name.now (uses_at clients.old number) }
    ensures changes { Changes clients.old number (without name.now (uses_at clients.old number)) clients.new }
{
    let Some(client) = clients.get_mut(&number) else {
        return None;
    };
    end_use(&mut client.uses, name)
}

/// The client with this number begins to wait for a name. Returns whether there is such a client. The cost is
/// logarithmic in the number of clients, amortized.
///
/// # Errors
///
/// `Memory`: nothing has changed.
pub fn begin_at(
    clients: &mut BTreeMap<u32, Client>,
    number: u32,
    name: &Name,
    now: u64,
    until: Option<u64>,
) -> Result<bool, Memory>
    ensures there { IfOk result (λ there. there ≡ is_some (get nat_cmp clients.old number)) }
    ensures changes { IfOk result (λ there. Changes clients.old number
        (if there then uses_at clients.old number ++ new_use name.now now until ∷ [] else uses_at clients.old number)
        clients.new) }
    ensures err { OnErr result (AreSameClients clients.old clients.new) }
{
    let Some(client) = clients.get_mut(&number) else {
        return Ok(false);
    };
    begin_use(&mut client.uses, name, now, until)?;
    Ok(true)
}

/// A client gets the number, and begins to wait for a name. The cost is logarithmic in the number of clients.
///
/// # Errors
///
/// `Memory`: nothing has changed.
pub fn join_at(
    alloc: Global,
    clients: &mut BTreeMap<u32, Client>,
    number: u32,
    connection: Option<u64>,
    name: &Name,
    now: u64,
    until: Option<u64>,
) -> Result<(), Memory>
    ensures ok { OnOk result (Joins clients.old number connection (new_use name.now now until) clients.new) }
    ensures err { OnErr result (AreSameClients clients.old clients.new) }
{
    let mut uses = Vec::new(alloc);
    begin_use(&mut uses, name, now, until)?;
    clients.insert(number, Client { connection, uses })?;
    Ok(())
}

/// The client with this number begins to wait for a name. If there is none, one without a connection gets the number.
/// The cost is logarithmic in the number of clients, amortized.
///
/// # Errors
///
/// `Memory`: nothing has changed.
pub fn recall_at(
    alloc: Global,
    clients: &mut BTreeMap<u32, Client>,
    number: u32,
    name: &Name,
    now: u64,
) -> Result<(), Memory>
    ensures ok { OnOk result (Changes clients.old number
        (uses_at clients.old number ++ new_use name.now now None ∷ []) clients.new) }
    ensures err { OnErr result (AreSameClients clients.old clients.new) }
{
    if begin_at(clients, number, name, now, None)? {
        return Ok(());
    }
    join_at(alloc, clients, number, None, name, now, None)
}

/// The connection of the client with this number has ended. The cost is logarithmic in the number of clients. It does
/// not allocate.
pub fn leave_at(clients: &mut BTreeMap<u32, Client>, number: u32)
    ensures { Disconnects clients.old number clients.new }
{
    if let Some(client) = clients.get_mut(&number) {
        client.connection = None;
    }
}

/// Frees the entry of a client that has neither a connection nor a name. The cost is logarithmic in the number of
/// clients. It does not allocate.
pub fn forget_at(clients: &mut BTreeMap<u32, Client>, number: u32)
    ensures { AreSameClients clients.old clients.new }
{
    if !is_had_at(clients, number) {
        clients.remove(&number);
    }
}
