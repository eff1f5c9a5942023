//! Whether the clients of a script take their names in order and give them back, and if not, at which operation.
ghost use Rattle.std.specs.Prelude.{◌≡◌, ◌↔◌, ◌<◌, ◌≤◌, ℕ, List, length, IsTrue, IsNone, IsSome, IfSome};
ghost use Rattle.ra_schedule.specs.LockOrder.{IsOf, IsOutOfOrder, IsUnreleased, LocksOutOfOrder, EndsHolding, LocksAt, LocksBelow, NeverUnlocks, IsFirstBelow, IsFirstNeverUnlocked, IsFirstOutOfOrder, IsFirstUnreleased};
ghost use Rattle.ra_schedule.specs.LockSearch.{NoneBelow};

use crate::{Op, Script};
use ra_stamp::Name;

/// An operation that locks a name while its client holds one that is not below it, by bytes. Clients that do so can
/// wait for each other forever.
#[derive(Clone, Copy)]
pub struct OutOfOrder {
    /// The number of the client.
    pub client: u32,
    /// The place of the operation, counted from 0.
    pub place: u64,
    /// The place of the operation that locked the name that is held.
    pub since: u64,
}

/// An operation that locks a name that its client never unlocks.
#[derive(Clone, Copy)]
pub struct Unreleased {
    /// The number of the client.
    pub client: u32,
    /// The place of the operation, counted from 0.
    pub place: u64,
}

/// Returns the operation that first breaks the order of names, or `None` if each client takes its names in ascending
/// order. It is the first operation of the first such client that locks a name while the client holds one that is not
/// below it, by bytes. If several of the names held then are not below, the result tells the one that was locked first.
/// It does not allocate. The cost is, for each client, the number of its operations times the number of names that it
/// holds at once.
pub fn first_out_of_order(script: &Script) -> Option<OutOfOrder>
    ensures found { IsSome result ↔ IsOutOfOrder script.now }
    ensures first { IfSome result (λ found. IsFirstOutOfOrder script.now found) }
{
    for place in 0..script.clients() {
        if let Some(found) = out_of_order_of(script, place + 1) {
            return Some(found);
        }
    }
    None
}

/// Returns the operation that first keeps a name, or `None` if each client gives its names back. It is the first
/// operation, of the first client that holds a name at its end, that locks a name that the client never unlocks. It
/// does not allocate. The cost is, for each client, the number of its operations times the number of names that it
/// holds at once.
pub fn first_unreleased(script: &Script) -> Option<Unreleased>
    ensures found { IsSome result ↔ IsUnreleased script.now }
    ensures first { IfSome result (λ found. IsFirstUnreleased script.now found) }
{
    for place in 0..script.clients() {
        if let Some(found) = unreleased_of(script, place + 1) {
            return Some(found);
        }
    }
    None
}

/// Returns whether the client with this number has an operation at this place, counted from 0, that locks a name that
/// it never unlocks. It does not allocate. The cost is the number of operations from there to the unlock.
pub fn is_unreleased(script: &Script, client: u32, place: u64) -> bool
    ensures { IsTrue result ↔ IsOf (λ ops. NeverUnlocks ops place) script.now client }
{
    match script.ops(client) {
        Some(ops) => never_unlocks(ops, place as usize),
        None => false,
    }
}

/// Returns the client's first operation that is out of order, as [`first_out_of_order`] says.
fn out_of_order_of(script: &Script, client: u32) -> Option<OutOfOrder>
    ensures some { IfSome result (λ found. (found.client ≡ client)
        × IsOf (λ ops. IsFirstBelow ops found.since found.place) script.now client) }
    ensures none { IsNone result → IsOf LocksOutOfOrder script.now client → ⊥ }
{
    let ops = script.ops(client)?;
    let mut first = None;
    let mut end = ops.len();
    for since in 0..ops.len() {
        // Before this end, none of the names that were locked so far is held at one that is not above it.
        if let Some(place) = locks_below(ops, since, end) {
            end = place;
            first = Some(OutOfOrder {
                client,
                place: place as u64,
                since: since as u64,
            });
        }
    }
    first
}

/// Returns the client's first operation that locks a name that it never unlocks.
fn unreleased_of(script: &Script, client: u32) -> Option<Unreleased>
    ensures some { IfSome result (λ found. (found.client ≡ client)
        × IsOf (λ ops. IsFirstNeverUnlocked ops found.place) script.now client) }
    ensures none { IsNone result → IsOf EndsHolding script.now client → ⊥ }
{
    let ops = script.ops(client)?;
    for place in 0..ops.len() {
        if never_unlocks(ops, place) {
            return Some(Unreleased {
                client,
                place: place as u64,
            });
        }
    }
    None
}

/// Returns the first place, before the end, of an operation that locks a name that is not above the one that was locked
/// at the place `since` and is still held.
fn locks_below(ops: &[Op], since: usize, end: usize) -> Option<usize>
    requires { end ≤ length ops.now }
    ensures some { IfSome result
        (λ place. (place < end) × LocksBelow ops.now since place × NoneBelow ops.now since place) }
    ensures none { IsNone result → NoneBelow ops.now since end }
{
    let held = locked_at(ops, since)?;
    for place in since + 1..end {
        match &ops[place] {
            Op::Unlock(name) if *name == held => return None,
            Op::Lock(name, _) if !(held < *name) => return Some(place),
            _ => {}
        }
    }
    None
}

/// Returns the name that the operation at this place locks, or `None` if it locks none.
fn locked_at(ops: &[Op], place: usize) -> Option<Name>
    ensures some { IfSome result (λ name. (place < length ops.now) × LocksAt ops.now place name) }
    ensures none { IsNone result → (name : List ℕ) → LocksAt ops.now place name → ⊥ }
{
    match ops.get(place)? {
        Op::Lock(name, _) => Some(*name),
        Op::Unlock(_) => None,
    }
}

/// Returns whether the operation at this place locks a name that none of the later ones unlocks.
fn never_unlocks(ops: &[Op], place: usize) -> bool
    ensures { IsTrue result ↔ NeverUnlocks ops.now place }
{
    let Some(held) = locked_at(ops, place) else {
        return false;
    };
    for later in place + 1..ops.len() {
        if ops[later] == Op::Unlock(held) {
            return false;
        }
    }
    true
}
