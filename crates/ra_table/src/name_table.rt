//! The lock table of one name.
ghost use Rattle.std.specs.Prelude.{◌≡◌, ◌↔◌, ◌++◌, ◌∷◌, [], None, Contains, IsTrue, IsOk, IfOk, IfErr, OnOk, OnErr};
ghost use Rattle.std.specs.Str.{bytes_eq};
ghost use Rattle.indexmap.specs.IndexMap.{get, IsUnique};
ghost use Rattle.ra_stamp.specs.declared.entry.Mark.{Mark};
ghost use Rattle.ra_table.specs.Table.{TableStep};
ghost use Rattle.ra_table.specs.Refusals.{IsNotAbove};
ghost use Rattle.ra_table.specs.Idle.{is_idle};
ghost use Rattle.ra_table.specs.Answers.{RequestTells, CheckTells, EnterTells, IsAnswered};
ghost use Rattle.ra_table.specs.NameTables.{AreOn, IsPlaceOfEntry, first_request};

use crate::entry_lists::{has_earlier, has_excluding, has_node_of, place_of, push_exactly};
use crate::error::{EnterError, LeaveError, RequestError, WithdrawError};
use indexmap::IndexMap;
use ra_stamp::{Entry, GhostList, Name};
use std::marker::Model;

/// The lock table of one name: the entries that wait, those that hold, and those granted so far. Contracts see a lock
/// table. Each call takes time linear in the number of entries that wait and hold. The table stays when its last entry
/// has left.
#[derive(Drop)]
pub struct NameTable {
    waiting: Vec<Entry>,
    holding: Vec<Entry>,
    /// The entries granted so far, for proofs alone.
    granted: GhostList<Entry>,
    /// The highest number granted so far.
    highest: Option<u64>,
}

impl Model for NameTable {
    ghost use Rattle.std.specs.Prelude.{◌≡◌};
    ghost use Rattle.ra_table.specs.Table.{LockTable};
    ghost use Rattle.ra_table.specs.NameTables.{highest_of};

    ghost Value = { LockTable };

    ghost view = { λ l.
        record { waiting = l.waiting.items; holding = l.holding.items; granted = l.granted.items } };

    ghost invariant = { λ l. l.highest ≡ highest_of l.granted.items };
}

impl NameTable {
    /// Makes the table of a name that has none yet, with this entry waiting, and adds it after the other tables.
    ///
    /// # Errors
    ///
    /// `Memory`: the tables are as before.
    pub fn open(
        name_tables: &mut IndexMap<Name, NameTable>,
        entry: &Entry,
    ) -> Result<(), RequestError>
        requires { get bytes_eq name_tables.old entry.now.name ≡ None }
        ensures ok { OnOk result (name_tables.new.entries
            ≡ name_tables.old.entries ++ (entry.now.name, first_request entry.now) ∷ []) }
        ensures unique { OnOk result (IsUnique bytes_eq name_tables.new) }
        ensures err { OnErr result (name_tables.new.entries ≡ name_tables.old.entries) }
        ensures memory { IfErr result (λ fault. fault ≡ RequestError.Memory) }
    {
        let alloc = *name_tables.allocator();
        let mut waiting = Vec::new(alloc);
        let Ok(()) = push_exactly(&mut waiting, entry) else {
            return Err(RequestError::Memory);
        };
        let first = NameTable {
            waiting,
            holding: Vec::new(alloc),
            granted: GhostList::new(),
            highest: None,
        };
        match name_tables.insert(entry.name, first) {
            Ok(_) => Ok(()),
            Err(_) => Err(RequestError::Memory),
        }
    }

    /// Lets an entry on the name of this table wait.
    ///
    /// # Errors
    ///
    /// Those of `Table::request`, with the table as before.
    pub fn request(&mut self, entry: &Entry) -> Result<(), RequestError>
        requires { AreOn entry.now.name self.old.granted }
        ensures ok { OnOk result (TableStep self.old (Mark.Requested entry.now) self.new) }
        ensures err { OnErr result (self.new ≡ self.old) }
        ensures told { RequestTells result self.old entry.now }
    {
        self.check_request(entry)?;
        let Ok(()) = push_exactly(&mut self.waiting, entry) else {
            return Err(RequestError::Memory);
        };
        Ok(())
    }

    /// Grants an entry that waits, so that it holds.
    ///
    /// # Errors
    ///
    /// Those of `Table::enter`, with the table as before.
    pub fn enter(&mut self, entry: &Entry) -> Result<(), EnterError>
        ensures ok { OnOk result (TableStep self.old (Mark.Entered entry.now) self.new) }
        ensures err { OnErr result (self.new ≡ self.old) }
        ensures told { EnterTells result self.old entry.now }
    {
        let place = self.check_enter(entry)?;
        // Only this can still be refused.
        let Ok(()) = push_exactly(&mut self.holding, entry) else {
            return Err(EnterError::Memory);
        };
        self.waiting.remove(place);
        self.highest = Some(entry.stamp.seq.max(self.highest.unwrap_or(0)));
        self.granted = self.granted.and(entry);
        Ok(())
    }

    /// Ends the hold of an entry. It does not allocate.
    ///
    /// # Errors
    ///
    /// `NotHeld`: it does not hold. The table is as before.
    pub fn leave(&mut self, entry: &Entry) -> Result<(), LeaveError>
        ensures ok { OnOk result (TableStep self.old (Mark.Left entry.now) self.new) }
        ensures err { OnErr result (self.new ≡ self.old) }
        ensures held { IsOk result ↔ Contains self.old.holding entry.now }
    {
        let Some(place) = place_of(&self.holding, entry) else {
            return Err(LeaveError::NotHeld);
        };
        self.holding.remove(place);
        Ok(())
    }

    /// Withdraws an entry that waits. It does not allocate.
    ///
    /// # Errors
    ///
    /// `NotWaiting`: it does not wait. The table is as before.
    pub fn withdraw(&mut self, entry: &Entry) -> Result<(), WithdrawError>
        ensures ok { OnOk result (TableStep self.old (Mark.Withdrawn entry.now) self.new) }
        ensures err { OnErr result (self.new ≡ self.old) }
        ensures waits { IsOk result ↔ Contains self.old.waiting entry.now }
    {
        let Some(place) = place_of(&self.waiting, entry) else {
            return Err(WithdrawError::NotWaiting);
        };
        self.waiting.remove(place);
        Ok(())
    }

    /// Checks whether an entry on the name of this table may wait.
    ///
    /// # Errors
    ///
    /// Those of `request`, except for `Memory`.
    pub fn check_request(&self, entry: &Entry) -> Result<(), RequestError>
        requires { AreOn entry.now.name self.now.granted }
        ensures { CheckTells result self.now entry.now }
    {
        if has_node_of(&self.waiting, entry) || has_node_of(&self.holding, entry) {
            return Err(RequestError::NodeBusy);
        }
        if self.is_not_above(entry) {
            return Err(RequestError::NotAbove);
        }
        Ok(())
    }

    /// Returns the place at which the entry waits, if it may be granted.
    ///
    /// # Errors
    ///
    /// Those of `enter`, except for `Memory`.
    pub fn check_enter(&self, entry: &Entry) -> Result<usize, EnterError>
        ensures place { IfOk result (λ place. IsPlaceOfEntry self.now.waiting place entry.now) }
        ensures answered { IsAnswered self.now entry.now result }
    {
        let Some(place) = place_of(&self.waiting, entry) else {
            return Err(EnterError::NotWaiting);
        };
        if has_excluding(&self.holding, entry) {
            return Err(EnterError::Held);
        }
        if has_earlier(&self.waiting, entry) {
            return Err(EnterError::Earlier);
        }
        Ok(place)
    }

    /// Returns whether the entry waits.
    pub fn waits(&self, entry: &Entry) -> bool
        ensures { IsTrue result ↔ Contains self.now.waiting entry.now }
    {
        match place_of(&self.waiting, entry) {
            Some(_) => true,
            None => false,
        }
    }

    /// Returns whether the entry holds.
    pub fn holds(&self, entry: &Entry) -> bool
        ensures { IsTrue result ↔ Contains self.now.holding entry.now }
    {
        match place_of(&self.holding, entry) {
            Some(_) => true,
            None => false,
        }
    }

    /// Returns whether no entry waits or holds.
    pub fn is_idle(&self) -> bool
        ensures { result ≡ is_idle self.now }
    {
        self.waiting.is_empty() && self.holding.is_empty()
    }

    /// Returns whether an entry granted so far has the entry's number or a greater one.
    fn is_not_above(&self, entry: &Entry) -> bool
        requires { AreOn entry.now.name self.now.granted }
        ensures { IsTrue result ↔ IsNotAbove self.now entry.now }
    {
        match self.highest {
            Some(number) => number >= entry.stamp.seq,
            None => false,
        }
    }
}
