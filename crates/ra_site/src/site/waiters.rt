//! The clients of a node that wait, and how one is told.
ghost use Rattle.std.specs.Prelude.{◌≡◌, ◌↔◌, ◌<◌, Any, IfNone, IfSome, IsTrue};
ghost use Rattle.std.specs.Prelude.{slice_index_or, length, vec_len, vec_capacity};
ghost use Rattle.ra_site.specs.Waiting.{IsWaiterFor, WaitsNot, IsEachOnce, IsWithout, WaitOn, entry_let_in};
ghost use Rattle.ra_site.specs.declared.site.waiters.Waiter as waiting;

use crate::Grant;
use crate::site::request::Request;
use crate::site::ticket::SharedTicket;
use ra_stamp::{Entry, Mark, Name};
use std::sync::Arc;

/// A client that waits, and the ticket that tells its thread the outcome of its request. A client has at most one
/// request on a name, so the two name the request.
#[derive(Drop)]
pub struct Waiter {
    /// The client.
    pub client: u32,
    /// The name.
    pub name: Name,
    /// It tells the client's thread.
    pub ticket: SharedTicket,
}

impl Waiter {
    /// Returns whether it is this client, which waits for this name.
    fn is_for(&self, client: u32, name: &Name) -> bool
        ensures { IsTrue result ↔ IsWaiterFor client name.now self.now }
    {
        self.client == client && self.name == *name
    }
}

/// Makes room for one more client that waits, and returns that client, or `None` if there is no memory or no ticket.
pub fn make_waiter(
    waiters: &mut Vec<Waiter>,
    request: &Request,
    ticket: Option<&SharedTicket>,
) -> Option<Waiter>
    ensures room { IfSome result (λ _. vec_len waiters.new < vec_capacity waiters.new) }
    ensures client { IfSome result (IsWaiterFor request.now.client request.now.name) }
    ensures same { waiters.new.items ≡ waiters.old.items }
{
    let ticket = ticket?;
    waiters.reserve(1).ok()?;
    let ticket = Arc::try_clone(ticket).ok()?;
    Some(Waiter {
        client: request.client,
        name: request.name,
        ticket,
    })
}

/// Takes the client whose request an event let in, by its marks, out of those that wait, if it is among them. Returns
/// its ticket and its grant.
pub fn take_let_in(waiters: &mut Vec<Waiter>, marks: &[Mark]) -> Option<(SharedTicket, Grant)>
    requires { IsEachOnce waiters.old.items }
    ensures left { WaitOn (entry_let_in marks.now) waiters.old.items waiters.new.items }
    ensures some { IfSome result (λ told. (entry_let_in marks.now ≡ Some told.1.entry)
        × Any (λ w. IsWaiterFor told.1.entry.client told.1.entry.name w × (w.ticket ≡ told.0)) waiters.old.items) }
    ensures none { IfNone result (waiters.new.items ≡ waiters.old.items) }
{
    let entry = entry_let_in(marks)?;
    let ticket = take(waiters, entry.client, &entry.name)?;
    Some((ticket, Grant { entry }))
}

/// Takes a client that waits for a name out of those that wait, if it is among them. Returns its ticket.
pub fn take(waiters: &mut Vec<Waiter>, client: u32, name: &Name) -> Option<SharedTicket>
    requires { IsEachOnce waiters.old.items }
    ensures left { IsWithout client name.now waiters.old.items waiters.new.items }
    ensures some { IfSome result (λ ticket.
        Any (λ w. IsWaiterFor client name.now w × (w.ticket ≡ ticket)) waiters.old.items) }
    ensures none { IfNone result
        (WaitsNot client name.now waiters.old.items × (waiters.new.items ≡ waiters.old.items)) }
{
    let place = place_of(waiters.as_slice(), client, name)?;
    let Waiter {
        client: _,
        name: _,
        ticket,
    } = waiters.swap_remove(place);
    ticket.mark_taken();
    Some(ticket)
}

/// Returns the place of a client that waits for a name. The cost is linear in the number of those that wait.
fn place_of(waiters: &[Waiter], client: u32, name: &Name) -> Option<usize>
    ensures within { IfSome result (λ place. place < length waiters.now) }
    ensures waiter { IfSome result (λ place. (d : waiting.Waiter)
        → IsWaiterFor client name.now (slice_index_or waiters.now place d)) }
    ensures none { IfNone result (WaitsNot client name.now waiters.now) }
{
    for place in 0..waiters.len() {
        if waiters[place].is_for(client, name) {
            return Some(place);
        }
    }
    None
}

/// Returns the request that an event let in, by its marks, if there is one. An event lets in at most one client.
fn entry_let_in(marks: &[Mark]) -> Option<Entry>
    ensures { result ≡ entry_let_in marks.now }
{
    for mark in marks {
        if let Mark::Entered(entry) = mark {
            return Some(*entry);
        }
    }
    None
}
