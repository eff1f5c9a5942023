//! The clients that wait for their turns at one resource.
ghost use Rattle.std.specs.Prelude.{◌≡◌, ◌↔◌, ◌<◌, ◌++◌, ◌∷◌, [], List, take, length, get_or, slice_get, Any, MatchOption, IsTrue, IsNone, IfSome, OnOk, OnErr};
ghost use Rattle.std.specs.HashMap.{keys};
ghost use Rattle.ra_node.specs.Queue.{AreApart, AreClients, TakesOut};
ghost use Rattle.ra_node.specs.declared.queued_client.Queued.{Queued};

use crate::queued_client::Queued;
use ra_stamp::Memory;
use std::alloc::Global;
use std::collections::{HashMap, VecDeque};
use std::marker::Model;

/// If no more clients than these are queued, they are looked through.
const MAX_LINEAR_SCAN: usize = 16;

/// The clients of a long queue as keys, in any order. They are kept through a pointer, since most queues are short and
/// have no such keys.
type Known = Box<HashMap<u32, ()>>;

/// A queue of clients, the first one next. Contracts see the list.
///
/// A long queue knows its clients, so that one is found by a hash and not by looking at each. They are learned when a
/// client comes to a long queue, and known until the queue has run empty. So they are not learned again and again
/// when its length goes up and down. A queue for which there was no memory to know them does the same in more time.
#[derive(Drop)]
pub struct Queue {
    clients: VecDeque<Queued>,
    /// The same clients, or `None` if they are not known.
    known: Option<Known>,
}

impl Model for Queue {
    ghost use Rattle.std.specs.Prelude.{List, IfSome};
    ghost use Rattle.std.specs.HashMap.{keys};
    ghost use Rattle.ra_node.specs.declared.queued_client.Queued.{Queued};
    ghost use Rattle.ra_node.specs.Queue.{AreClients};

    ghost Value = { List Queued };

    ghost view = { λ q. q.clients.items };

    ghost invariant = { λ q. IfSome q.known (λ known. AreClients (keys known.value) q.clients.items) };
}

impl Queue {
    /// Makes the queue of no clients. It does not allocate.
    pub fn new(alloc: Global) -> Queue
        ensures { result ≡ [] }
    {
        Queue {
            clients: VecDeque::new(alloc),
            known: None,
        }
    }

    /// Returns how many clients are queued.
    pub fn len(&self) -> usize
        ensures { result ≡ length self.now }
    {
        self.clients.len()
    }

    /// Returns whether a client is queued, in expected constant time, or in time linear in the length of the queue if
    /// there was no memory to know its clients.
    pub fn has(&self, client: u32) -> bool
        ensures { IsTrue result ↔ Any (λ queued. queued.client ≡ client) self.now }
    {
        match &self.known {
            Some(known) => known.contains_key(&client),
            None => is_among(&self.clients, client),
        }
    }

    /// Returns the first client, or `None` if no client is queued.
    pub fn front(&self) -> Option<Queued>
        ensures some { IfSome result (λ first. take 1 self.now ≡ first ∷ []) }
        ensures none { IsNone result → self.now ≡ [] }
    {
        self.clients.front().copied()
    }

    /// Returns the client at this place, counted from 0, or `None` past the end.
    pub fn at(&self, place: usize) -> Option<Queued>
        ensures { result ≡ slice_get self.now place }
    {
        self.clients.get(place).copied()
    }

    /// Puts a client after all others, in amortized constant time on average, or in time linear in the length of the
    /// queue if there was no memory to know its clients.
    ///
    /// # Errors
    ///
    /// `Memory`: the queue is as before.
    pub fn push_back(&mut self, alloc: Global, queued: Queued) -> Result<(), Memory>
        ensures ok { OnOk result (self.new ≡ self.old ++ queued ∷ []) }
        ensures err { OnErr result (self.new ≡ self.old) }
    {
        self.clients.push_back(queued)?;
        self.known = learn_last(alloc, self.known.take(), &self.clients, &queued);
        Ok(())
    }

    /// Takes the first client out, in expected constant time. No client may be queued twice.
    pub fn pop_front(&mut self) -> Option<Queued>
        requires { AreApart self.old }
        ensures { MatchOption result ((self.old ≡ []) × (self.new ≡ [])) (λ first. self.old ≡ first ∷ self.new) }
    {
        let first = self.clients.pop_front()?;
        self.known = unlearn(self.known.take(), &first, &self.clients);
        Some(first)
    }

    /// Takes a client out, wherever it is, and returns whether it was queued. The others keep their order. No client
    /// may be queued twice. The cost is linear in the length of the queue.
    pub fn remove(&mut self, client: u32) -> bool
        requires { AreApart self.old }
        ensures { TakesOut self.old client result self.new }
    {
        let Some(place) = place_of(&self.clients, client) else {
            return false;
        };
        let Some(gone) = self.clients.remove(place) else {
            return false;
        };
        self.known = unlearn(self.known.take(), &gone, &self.clients);
        true
    }
}

/// Returns the place of a client among these, which are looked at one by one, or `None` if it is not among them.
fn place_of(clients: &VecDeque<Queued>, client: u32) -> Option<usize>
    ensures found { IfSome result (λ place. (queued : Queued) × (place < length clients.now.items)
        × (get_or clients.now.items place queued ≡ queued) × (queued.client ≡ client)) }
    ensures none { IsNone result → Any (λ queued. queued.client ≡ client) clients.now.items → ⊥ }
{
    for place in 0..clients.len() {
        if clients[place].client == client {
            return Some(place);
        }
    }
    None
}

/// Returns whether a client is among these, which are looked at one by one.
fn is_among(clients: &VecDeque<Queued>, client: u32) -> bool
    ensures { IsTrue result ↔ Any (λ queued. queued.client ≡ client) clients.now.items }
{
    match place_of(clients, client) {
        Some(_) => true,
        None => false,
    }
}

/// Learns the last client, which was put after the others, or all if they are many and were not known. Returns those
/// that are known then.
fn learn_last(
    alloc: Global,
    known: Option<Known>,
    clients: &VecDeque<Queued>,
    last: &Queued,
) -> Option<Known>
    ensures { (before : List Queued) → clients.now.items ≡ before ++ last.now ∷ []
        → IfSome known (λ k. AreClients (keys k.value) before)
        → IfSome result (λ k. AreClients (keys k.value) clients.now.items) }
{
    match known {
        Some(known) => learn(known, last.client),
        None if clients.len() > MAX_LINEAR_SCAN => learn_all(alloc, clients),
        None => None,
    }
}

/// Learns all clients, or returns `None` if memory runs out.
fn learn_all(alloc: Global, clients: &VecDeque<Queued>) -> Option<Known>
    ensures { IfSome result (λ k. AreClients (keys k.value) clients.now.items) }
{
    let mut known = HashMap::new(alloc);
    for place in 0..clients.len() {
        if known.insert(clients[place].client, ()).is_err() {
            return None;
        }
    }
    Box::new(alloc, known).ok()
}

/// Learns one client more, or forgets all and returns `None` if memory runs out.
fn learn(mut known: Known, client: u32) -> Option<Known>
    ensures { (before : List Queued) (last : Queued) → last.client ≡ client → AreClients (keys known.value) before
        → IfSome result (λ k. AreClients (keys k.value) (before ++ last ∷ [])) }
{
    if known.insert(client, ()).is_err() {
        return None;
    }
    Some(known)
}

/// Forgets a client that is no longer queued, and all if none is left. Returns those that are known then.
fn unlearn(known: Option<Known>, gone: &Queued, left: &VecDeque<Queued>) -> Option<Known>
    ensures { (before after : List Queued) → left.now.items ≡ before ++ after → AreApart (before ++ gone.now ∷ after)
        → IfSome known (λ k. AreClients (keys k.value) (before ++ gone.now ∷ after))
        → IfSome result (λ k. AreClients (keys k.value) left.now.items) }
{
    let mut known = known?;
    if left.is_empty() {
        return None;
    }
    known.remove(&gone.client);
    Some(known)
}
