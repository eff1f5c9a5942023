//! The clients that have a number: their connections and names, when they give up, and which of them leave.
ghost use Rattle.std.specs.Prelude.{◌≡◌, true, false, OnOk, OnErr, IsErr};
ghost use Rattle.ra_clients.specs.Roster.{AreInStep, Frees, PartsNumber, end_if_some};

use crate::numbers::Numbers;
use crate::table::{
    Client, begin_at, connection_of, end_at, enter_at, first_at, forget_at, is_last_at, join_at,
    leave_at, recall_at, use_at,
};
use crate::times::{Due, End, add_end, drop_end, first_due};
use crate::uses::NameUse;
use ra_stamp::{Memory, Name};
use std::alloc::Global;
use std::collections::{BTreeMap, BTreeSet};

/// The clients that have a number.
#[derive(Drop)]
pub struct Roster {
    /// The clients by their numbers.
    pub clients: BTreeMap<u32, Client>,
    /// The numbers, and which of them clients of before the start have.
    pub numbers: Numbers,
    /// When clients give up names.
    ends: BTreeSet<End>,
    /// The clients that are gone and have names.
    leaving: BTreeSet<u32>,
    ghost in_step: { AreInStep clients numbers ends leaving },
}

/// Gives a number back, if its client leaves nothing.
fn free_number(
    numbers: &mut Numbers,
    leaving: &mut BTreeSet<u32>,
    number: u32,
    is_last: bool,
) -> Result<(), Memory>
    ensures ok { OnOk result (Frees is_last numbers.old leaving.old number numbers.new leaving.new) }
    ensures err { OnErr result (Frees false numbers.old leaving.old number numbers.new leaving.new) }
    ensures lacks { IsErr result → is_last ≡ true }
{
    if !is_last {
        return Ok(());
    }
    numbers.give_back(number)?;
    leaving.remove(&number);
    Ok(())
}

/// A client has no connection any more: if it has names, it is among those that leave, and otherwise its number is
/// free.
fn part_number(
    numbers: &mut Numbers,
    leaving: &mut BTreeSet<u32>,
    number: u32,
    has_names: bool,
) -> Result<(), Memory>
    ensures ok { OnOk result (PartsNumber has_names numbers.old leaving.old number numbers.new leaving.new) }
    ensures err { OnErr result (Frees false numbers.old leaving.old number numbers.new leaving.new) }
{
    if has_names {
        leaving.insert(number)?;
    } else {
        numbers.give_back(number)?;
    }
    Ok(())
}

/// Returns when a client gives a name up, by what it makes of the name.
fn end_of(used: &Option<NameUse>) -> Option<u64>
    ensures { result ≡ end_if_some used.now }
{
    match used {
        Some(used) => used.standing.until(),
        None => None,
    }
}

impl Roster {
    ghost use Rattle.std.specs.Prelude.{◌++◌, ◌∷◌, ◌<◌, ◌^◌, [], if◌then◌else◌, MatchOption, IfOk, IsSome};
    ghost use Rattle.std.specs.declared.option.Option.TheVariants.{None};
    ghost use Rattle.ra_clients.specs.Uses.{let_in, new_use, use_of, waits_for, without};
    ghost use Rattle.ra_clients.specs.NumberUse.{IsLeastFree};
    ghost use Rattle.ra_clients.specs.RosterUse.{Alters, Enrols, IsDue, IsEmpty, Leaves, NoneIsDue, NoneLeaves, Parts, Recalls, Stays, connection_of as connection, uses_of};

    /// There are no clients. It does not allocate.
    pub fn new(alloc: Global) -> Roster
        ensures { IsEmpty result }
    {
        Roster {
            clients: BTreeMap::new(alloc),
            numbers: Numbers::new(alloc),
            ends: BTreeSet::new(alloc),
            leaving: BTreeSet::new(alloc),
        }
    }

    /// A client with a connection begins to wait for a name, which it does not have. The cost is logarithmic.
    ///
    /// # Errors
    ///
    /// `Memory`: nothing has changed.
    pub fn begin(
        &mut self,
        number: u32,
        name: &Name,
        now: u64,
        until: Option<u64>,
    ) -> Result<(), Memory>
        requires connected { IsSome (connection self.old number) }
        requires new_name { use_of name.now (uses_of self.old number) ≡ None }
        ensures ok { OnOk result
            (Alters self.old number (uses_of self.old number ++ new_use name.now now until ∷ []) self.new) }
        ensures err { OnErr result (Stays self.old self.new) }
    {
        add_end(&mut self.ends, number, name, until)?;
        match begin_at(&mut self.clients, number, name, now, until) {
            Ok(_) => Ok(()),
            Err(why) => {
                drop_end(&mut self.ends, number, name, until);
                Err(why)
            }
        }
    }

    /// A client with this connection gets the least number that nobody has, and begins to wait for a name. The cost is
    /// logarithmic.
    ///
    /// # Errors
    ///
    /// `Memory`: nothing has changed.
    pub fn enrol(
        &mut self,
        alloc: Global,
        number: u32,
        connection: u64,
        name: &Name,
        now: u64,
        until: Option<u64>,
    ) -> Result<(), Memory>
        requires { IsLeastFree self.old.numbers number }
        ensures fits { OnOk result (number < 2 ^ 32) }
        ensures ok { OnOk result (Enrols self.old number connection (new_use name.now now until) self.new) }
        ensures err { OnErr result (Stays self.old self.new) }
    {
        add_end(&mut self.ends, number, name, until)?;
        let connection = Some(connection);
        if let Err(why) = join_at(
            alloc,
            &mut self.clients,
            number,
            connection,
            name,
            now,
            until,
        ) {
            drop_end(&mut self.ends, number, name, until);
            return Err(why);
        }
        let _ = self.numbers.take();
        Ok(())
    }

    /// A client is let in to a name, if it waits for it. Returns whether it waited. The cost is logarithmic, and linear
    /// in the names of the client. It does not allocate.
    pub fn enter(&mut self, number: u32, name: &Name, now: u64) -> bool
        ensures waited { result ≡ waits_for name.now (uses_of self.old number) }
        ensures alters { Alters self.old number
            (if result then let_in name.now now (uses_of self.old number) else uses_of self.old number) self.new }
    {
        let used = use_at(&self.clients, number, name);
        if !enter_at(&mut self.clients, number, name, now) {
            return false;
        }
        drop_end(&mut self.ends, number, name, end_of(&used));
        true
    }

    /// A client has a name no more. Returns what it made of the name, if anything. A client with a connection keeps its
    /// number; any other one gives it back with its last name. The cost is as of `enter`.
    ///
    /// # Errors
    ///
    /// `Memory`: nothing has changed. It does not come to a client with a connection.
    pub fn end(&mut self, number: u32, name: &Name) -> Result<Option<NameUse>, Memory>
        ensures value { IfOk result (λ used. used ≡ use_of name.now (uses_of self.old number)) }
        ensures ok { OnOk result (Alters self.old number (without name.now (uses_of self.old number)) self.new) }
        ensures err { OnErr result (Stays self.old self.new) }
        ensures lacks { IsErr result → connection self.old number ≡ None }
    {
        let is_last = is_last_at(&self.clients, number, name);
        free_number(&mut self.numbers, &mut self.leaving, number, is_last)?;
        let used = end_at(&mut self.clients, number, name);
        forget_at(&mut self.clients, number);
        drop_end(&mut self.ends, number, name, end_of(&used));
        Ok(used)
    }

    /// The connection of a client has ended. The cost is logarithmic.
    ///
    /// # Errors
    ///
    /// `Memory`: nothing has changed.
    pub fn part(&mut self, number: u32) -> Result<(), Memory>
        requires { IsSome (connection self.old number) }
        ensures ok { OnOk result (Parts self.old number self.new) }
        ensures err { OnErr result (Stays self.old self.new) }
    {
        let has_names = first_at(&self.clients, number).is_some();
        part_number(&mut self.numbers, &mut self.leaving, number, has_names)?;
        leave_at(&mut self.clients, number);
        forget_at(&mut self.clients, number);
        Ok(())
    }

    /// A client of before the start waits for a name, which it does not have. It has no connection. The cost is
    /// logarithmic.
    ///
    /// # Errors
    ///
    /// `Memory`: nothing has changed.
    pub fn recall(
        &mut self,
        alloc: Global,
        number: u32,
        name: &Name,
        now: u64,
    ) -> Result<(), Memory>
        requires not_connected { connection self.old number ≡ None }
        requires new_name { use_of name.now (uses_of self.old number) ≡ None }
        ensures ok { OnOk result (Recalls self.old number (new_use name.now now None) self.new) }
        ensures err { OnErr result (Stays self.old self.new) }
    {
        recall_at(alloc, &mut self.clients, number, name, now)?;
        if let Err(why) = self.numbers.keep(number) {
            let _ = end_at(&mut self.clients, number, name);
            forget_at(&mut self.clients, number);
            return Err(why);
        }
        self.leaving.remove(&number);
        Ok(())
    }

    /// Returns the connection of a client, if it has one. The cost is logarithmic. It does not allocate.
    pub fn connection(&self, number: u32) -> Option<u64>
        ensures { result ≡ connection self.now number }
    {
        connection_of(&self.clients, number)
    }

    /// Returns a client whose time is over, with the name, if there is one: that of the earliest time. The cost is
    /// logarithmic. It does not allocate.
    pub fn first_due(&self, now: u64) -> Option<Due>
        ensures { MatchOption result (NoneIsDue self.now now) (λ due. IsDue self.now now due.number due.name) }
    {
        first_due(&self.ends, now)
    }

    /// Returns a client that is to give its names back, with the first of them: one that is gone, or one of before the
    /// start if these are released. The cost is logarithmic. It does not allocate.
    pub fn first_leaving(&self, released: bool) -> Option<(u32, NameUse)>
        ensures { MatchOption result (NoneLeaves self.now released)
            (λ leaving. Leaves self.now released leaving.0 leaving.1) }
    {
        let number = match self.leaving.first().copied() {
            Some(number) => number,
            None if released => self.numbers.first_before()?,
            None => return None,
        };
        let first = first_at(&self.clients, number)?;
        Some((number, first))
    }
}
