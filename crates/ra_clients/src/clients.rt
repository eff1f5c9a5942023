//! What a host keeps of its clients, in tables. Their contracts say which state of the machine they show.
ghost use Rattle.std.specs.Prelude.{◌≡◌};
ghost use Rattle.ra_clients.specs.RosterUse.{AreNumbered};
ghost use Rattle.ra_clients.specs.Clients.{until_at};
ghost use Rattle.ra_clients.specs.Results.{told_by};

use crate::limits::Limits;
use crate::results::{GivenBack, GivenUp, Lock, Told, Unlock};
use crate::roster::Roster;
use crate::table::{check_at, connection_of, use_at};
use ra_host_text::{Refusal, Wait};
use ra_stamp::{Memory, Name};
use std::alloc::Global;
use std::collections::{BTreeMap, BTreeSet};

/// What a host keeps of its clients. Contracts speak of each state of the machine that the tables show.
#[derive(Drop)]
pub struct ClientTables {
    /// The time, in milliseconds since the start.
    time: u64,
    /// The numbers of connections.
    number_of: BTreeMap<u64, u32>,
    /// The connections that were closed, and have not ended.
    closed: BTreeSet<u64>,
    /// The clients by their numbers.
    roster: Roster,
    /// Whether the names of clients of before the start are given back.
    released: bool,
    ghost numbered: { AreNumbered number_of roster },
}

impl ClientTables {
    ghost use Rattle.std.specs.Prelude.{◌↔◌, ℕ, not, List, [], ◌∷◌, Option, Some, None, true, false, MatchOption, IfOk, OnOk, OnErr, IsSome, IsErr};
    ghost use Rattle.std.specs.BTreeMap.{get};
    ghost use Rattle.std.specs.Ordering.{nat_cmp};
    ghost use Rattle.ra_stamp.specs.declared.mode.Mode.{Mode};
    ghost use Rattle.ra_book.specs.declared.book.event.BookKind.TheVariants.{Cancel};
    ghost use Rattle.ra_host_text.specs.declared.answer.Answer.TheVariants.{Granted, Refused, Timeout};
    ghost use Rattle.ra_host_text.specs.declared.answer.Refusal.{Refusal as Why};
    ghost use Rattle.ra_clients.specs.Uses.{use_of, waits_for};
    ghost use Rattle.ra_clients.specs.Clients.{Clients, IsFirstUnused, asks, closes, given_back, locks_as, told as told_to};
    ghost use Rattle.ra_clients.specs.Clients.{Limits as Bounds};
    ghost use Rattle.ra_clients.specs.Clients.Event.{Enter, Give_back, Give_up, Gone, Lock as Locks, Refuse, Release, Time, Unlock as Unlocks};
    ghost use Rattle.ra_clients.specs.RosterUse.{connection_of as connection_in};
    ghost use Rattle.ra_clients.specs.Shown.{NobodyIsOverdue, NobodyLeaves, ShowSame, Shows, ShowsTurn, TakesTurn, had, left, limits_of, lock_does, lock_tells, nobody, since_if_some, told_tells, unlock_does, unlock_tells};

    /// There are no clients, and the time is 0. It does not allocate.
    pub fn new(alloc: Global) -> ClientTables
        ensures { Shows result nobody }
    {
        ClientTables {
            time: 0,
            number_of: BTreeMap::new(alloc),
            closed: BTreeSet::new(alloc),
            roster: Roster::new(alloc),
            released: false,
        }
    }

    /// A client asks for a name. If it is not refused, it waits for the name now, and its node is to ask. It gives up
    /// once the time is over. A client gets the least number that nobody has with the first name for which it asks, and
    /// keeps it until it is gone. It is refused, for the first cause that holds:
    ///
    /// 1. `Busy`: it holds the name or waits for it.
    /// 2. `Limit`: it has as many names as it may have; or it has no number, and as many clients have one as may, or no
    ///    number is left.
    ///
    /// The cost is logarithmic in the number of clients, and linear in the names of this one.
    ///
    /// # Errors
    ///
    /// `Memory`: nothing has changed.
    pub fn lock(
        &mut self,
        alloc: Global,
        limits: &Limits,
        client: u64,
        name: &Name,
        within: Option<Wait>,
    ) -> Result<Lock, Memory>
        ensures ok { IfOk result (λ lock. (mode : Mode) → TakesTurn (limits_of limits.now) self.old
            (Locks client name.now mode within) (lock_tells client name.now lock) (lock_does name.now mode lock)
            self.new) }
        ensures err { OnErr result (ShowSame self.old self.new) }
    {
        if self.closed.contains(&client) {
            return Ok(Lock::PassedOver);
        }
        let until = end_after(self.time, within);
        match self.number_of.get(&client).copied() {
            Some(number) => self.lock_more(limits, number, name, until),
            None => self.lock_first(alloc, limits, client, name, until),
        }
    }

    /// A client that has a number asks for a name.
    fn lock_more(
        &mut self,
        limits: &Limits,
        number: u32,
        name: &Name,
        until: Option<u64>,
    ) -> Result<Lock, Memory>
        requires { IsSome (connection_in self.old.roster number) }
        ensures ok { IfOk result (λ lock. (s : Clients) (client : ℕ) (mode : Mode) → Shows self.old s
            → ShowsTurn self.new (asks (limits_of limits.now) s client number name.now mode until)
            (lock_tells client name.now lock) (lock_does name.now mode lock)) }
        ensures err { OnErr result (ShowSame self.old self.new) }
    {
        if let Some(why) = check_at(&self.roster.clients, number, name, limits.names) {
            return Ok(Lock::Refused(why));
        }
        self.roster.begin(number, name, self.time, until)?;
        Ok(Lock::Asks(number))
    }

    /// A client that has no number asks for a name.
    fn lock_first(
        &mut self,
        alloc: Global,
        limits: &Limits,
        client: u64,
        name: &Name,
        until: Option<u64>,
    ) -> Result<Lock, Memory>
        requires { get nat_cmp self.old.number_of client ≡ None }
        ensures ok { IfOk result (λ lock. (s : Clients) (unused : ℕ) (mode : Mode) → Shows self.old s
            → IsFirstUnused s unused
            → ShowsTurn self.new (locks_as None (limits_of limits.now) unused s client name.now mode until)
            (lock_tells client name.now lock) (lock_does name.now mode lock)) }
        ensures err { OnErr result (ShowSame self.old self.new) }
    {
        if limits.clients as usize <= self.number_of.len() || limits.names == 0 {
            return Ok(Lock::Refused(Refusal::Limit));
        }
        let Some(number) = self.roster.numbers.first_free() else {
            return Ok(Lock::Refused(Refusal::Limit));
        };
        self.number_of.insert(client, number)?;
        if let Err(why) = self
            .roster
            .enrol(alloc, number, client, name, self.time, until)
        {
            self.number_of.remove(&client);
            return Err(why);
        }
        Ok(Lock::Asks(number))
    }

    /// A client gives a name back, or gives it up: it has the name no more. The cost is logarithmic in the number of
    /// clients, and linear in the names of this one. It does not allocate.
    pub fn unlock(&mut self, client: u64, name: &Name) -> Unlock
        ensures { (l : Bounds) → TakesTurn l self.old (Unlocks client name.now)
            (unlock_tells client name.now result) (unlock_does name.now result) self.new }
    {
        if self.closed.contains(&client) {
            return Unlock::PassedOver;
        }
        let Some(number) = self.number_of.get(&client).copied() else {
            return Unlock::NotHeld;
        };
        match self.roster.end(number, name) {
            Ok(Some(used)) => Unlock::Ends {
                number,
                standing: used.standing,
            },
            Ok(None) => Unlock::NotHeld,
            // This does not happen: memory can be lacking only if a client without a connection gives its number back.
            Err(_) => Unlock::NotHeld,
        }
    }

    /// A connection has said a line that is none of a client. What it still says is passed over. Returns whether it is
    /// to be closed, which it is once. The cost is logarithmic in the number of closed connections.
    ///
    /// # Errors
    ///
    /// `Memory`: nothing has changed.
    pub fn close(&mut self, client: u64) -> Result<bool, Memory>
        ensures shows { OnOk result ((s : Clients) → Shows self.old s → Shows self.new (closes s client).clients) }
        ensures closes { IfOk result
            (λ is_closed. (s : Clients) → Shows self.old s → is_closed ≡ (closes s client).closes) }
        ensures err { OnErr result (ShowSame self.old self.new) }
    {
        Ok(self.closed.insert(client)?)
    }

    /// Returns whether the connection was closed, so that what it says is passed over. It does not allocate.
    pub fn is_closed(&self, client: u64) -> bool
        ensures { (s : Clients) → Shows self.now s → result ≡ s.is_closed client }
    {
        self.closed.contains(&client)
    }

    /// A connection has ended. The names of its client are to be given back. The cost is logarithmic in the number of
    /// clients.
    ///
    /// # Errors
    ///
    /// `Memory`: nothing has changed.
    pub fn gone(&mut self, client: u64) -> Result<(), Memory>
        ensures ok { OnOk result ((l : Bounds) → TakesTurn l self.old (Gone client) [] None self.new) }
        ensures err { OnErr result (ShowSame self.old self.new) }
    {
        if let Some(number) = self.number_of.get(&client).copied() {
            self.roster.part(number)?;
            self.number_of.remove(&client);
        }
        self.closed.remove(&client);
        Ok(())
    }

    /// The node has refused what a client asked. If the client waits for the name, it has it no more. The cost is
    /// logarithmic in the number of clients, and linear in the names of this one.
    ///
    /// # Errors
    ///
    /// `Memory`: nothing has changed. It does not come to a client with a connection.
    pub fn refuse(&mut self, number: u32, name: &Name) -> Result<Told, Memory>
        ensures ok { IfOk result (λ told. (l : Bounds) (why : Why) → TakesTurn l self.old
            (Refuse number name.now why) (told_tells told (Refused name.now why)) None self.new) }
        ensures not_waiting { IfOk result (λ told. (s : Clients) → Shows self.old s
            → (told ≡ Told.NotWaiting) ↔ (waits_for name.now (s.uses_of number) ≡ false)) }
        ensures err { OnErr result (ShowSame self.old self.new) }
        ensures lacks { IsErr result → (s : Clients) → Shows self.old s → s.connection_of number ≡ None }
    {
        let waits = match use_at(&self.roster.clients, number, name) {
            Some(used) => used.standing.waits(),
            None => false,
        };
        if !waits {
            return Ok(Told::NotWaiting);
        }
        let connection = connection_of(&self.roster.clients, number);
        self.roster.end(number, name)?;
        Ok(told(connection))
    }

    /// The node has let a client in to a name. If the client waits for it, it holds it from now on. The cost is
    /// logarithmic in the number of clients, and linear in the names of this one. It does not allocate.
    pub fn enter(&mut self, number: u32, name: &Name) -> Told
        ensures turn { (l : Bounds) (seq node : ℕ) → TakesTurn l self.old (Enter number name.now seq node)
            (told_tells result (Granted name.now seq node)) None self.new }
        ensures not_waiting { (s : Clients) → Shows self.old s
            → (result ≡ Told.NotWaiting) ↔ (waits_for name.now (s.uses_of number) ≡ false) }
    {
        let connection = connection_of(&self.roster.clients, number);
        if !self.roster.enter(number, name, self.time) {
            return Told::NotWaiting;
        }
        told(connection)
    }

    /// Sets the time, unless it is earlier than now. It does not allocate.
    pub fn pass_time(&mut self, now: u64)
        ensures { (l : Bounds) → TakesTurn l self.old (Time now) [] None self.new }
    {
        if now <= self.time {
            return;
        }
        self.time = now;
    }

    /// The clients of before the start have stopped: their names are to be given back. It does not allocate.
    pub fn release(&mut self)
        ensures { (l : Bounds) → TakesTurn l self.old Release [] None self.new }
    {
        self.released = true;
    }

    /// Returns a name that a client gives up, if there is one: its time is over. The client has the name no more. The
    /// cost is logarithmic in the number of clients, and linear in the names of this one.
    ///
    /// # Errors
    ///
    /// `Memory`: nothing has changed. It does not come to a client with a connection.
    pub fn give_up(&mut self) -> Result<Option<GivenUp>, Memory>
        ensures ok { IfOk result (λ up. MatchOption up (NobodyIsOverdue self.old × ShowSame self.old self.new)
            (λ up. (l : Bounds) → TakesTurn l self.old (Give_up up.number up.name)
            (told_to up.client (Timeout up.name)) (Some (Cancel up.number up.name)) self.new)) }
        ensures err { OnErr result (ShowSame self.old self.new) }
    {
        let Some(due) = self.roster.first_due(self.time) else {
            return Ok(None);
        };
        let client = self.roster.connection(due.number);
        self.roster.end(due.number, &due.name)?;
        Ok(Some(GivenUp {
            number: due.number,
            name: due.name,
            client,
        }))
    }

    /// Returns a name that a client gives back, if there is one: it is gone, or is of before the start and released.
    /// The client has the name no more. The cost is logarithmic in the number of clients, and linear in the names of
    /// this one.
    ///
    /// # Errors
    ///
    /// `Memory`: nothing has changed.
    pub fn give_back(&mut self) -> Result<Option<GivenBack>, Memory>
        ensures ok { IfOk result (λ back. MatchOption back (NobodyLeaves self.old × ShowSame self.old self.new)
            (λ back. (l : Bounds) → TakesTurn l self.old (Give_back back.number back.name) []
            (Some (given_back back.number back.name back.standing)) self.new)) }
        ensures err { OnErr result (ShowSame self.old self.new) }
    {
        let Some((number, first)) = self.roster.first_leaving(self.released) else {
            return Ok(None);
        };
        self.roster.end(number, &first.name)?;
        Ok(Some(GivenBack {
            number,
            name: first.name,
            standing: first.standing,
        }))
    }

    /// A client of before the start waits for a name by the book: call it for each `Ask`, and [`ClientTables::enter`]
    /// once the node lets it in. Nothing changes if the client has the name, or has a connection. The cost is
    /// logarithmic in the number of clients, and linear in the names of this one.
    ///
    /// # Errors
    ///
    /// `Memory`: nothing has changed.
    pub fn had(&mut self, alloc: Global, number: u32, name: &Name) -> Result<(), Memory>
        ensures ok { OnOk result ((s : Clients) → Shows self.old s
            → Shows self.new (had (not self.old.released) s number name.now)) }
        ensures err { OnErr result (ShowSame self.old self.new) }
    {
        if connection_of(&self.roster.clients, number).is_some()
            || use_at(&self.roster.clients, number, name).is_some()
        {
            return Ok(());
        }
        self.roster.recall(alloc, number, name, self.time)
    }

    /// A client of before the start has a name no more by the book: call it for each `Leave` and each `Cancel`. The
    /// cost is as of `had`.
    ///
    /// # Errors
    ///
    /// `Memory`: nothing has changed. It does not come to a client with a connection.
    pub fn left(&mut self, number: u32, name: &Name) -> Result<(), Memory>
        ensures ok { OnOk result ((s : Clients) → Shows self.old s → Shows self.new (left s number name.now)) }
        ensures err { OnErr result (ShowSame self.old self.new) }
    {
        self.roster.end(number, name)?;
        Ok(())
    }

    /// Returns the time, in milliseconds since the start. It does not allocate.
    pub fn now(&self) -> u64
        ensures { (s : Clients) → Shows self.now s → result ≡ s.now }
    {
        self.time
    }

    /// Returns how many connections have a number: of those that have asked for a name. It does not allocate.
    pub fn clients(&self) -> usize
        ensures { (s : Clients) → Shows self.now s → result ≡ s.count }
    {
        self.number_of.len()
    }

    /// Returns the connection of the client with this number, if it has one. The cost is logarithmic in the number of
    /// clients. It does not allocate.
    pub fn connection(&self, number: u32) -> Option<u64>
        ensures { (s : Clients) → Shows self.now s → result ≡ s.connection_of number }
    {
        connection_of(&self.roster.clients, number)
    }

    /// Returns what a client makes of a name, if anything, and since when. The cost is logarithmic in the number of
    /// clients, and linear in the names of this one. It does not allocate.
    pub fn since(&self, number: u32, name: &Name) -> Option<u64>
        ensures { (s : Clients) → Shows self.now s → result ≡ since_if_some (use_of name.now (s.uses_of number)) }
    {
        match use_at(&self.roster.clients, number, name) {
            Some(used) => Some(used.since),
            None => None,
        }
    }
}

/// Returns when a client gives up, if it does: at the last time of all, if that comes first.
fn end_after(now: u64, within: Option<Wait>) -> Option<u64>
    ensures { result ≡ until_at now within }
{
    match within {
        Some(wait) => Some(now.saturating_add(wait.get())),
        None => None,
    }
}

/// Returns whom to tell, by the connection of a client that waited.
fn told(connection: Option<u64>) -> Told
    ensures { result ≡ told_by connection }
{
    match connection {
        Some(client) => Told::Client(client),
        None => Told::Nobody,
    }
}
