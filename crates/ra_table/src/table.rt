ghost use Rattle.std.specs.Prelude.{◌≡◌, ◌↔◌, Contains, IsTrue, IsOk, IsErrOf, IsOkUnless, IfOk, OnOk, OnErr};
ghost use Rattle.std.specs.List.{IsDistinct};
ghost use Rattle.std.specs.Map.{keys_of};
ghost use Rattle.std.specs.Str.{bytes_eq};
ghost use Rattle.ra_stamp.specs.declared.entry.Mark.{Mark};
ghost use Rattle.ra_table.specs.Table.{empty_table, MayRequest, MayEnter, TableStep};
ghost use Rattle.ra_table.specs.Idle.{is_idle};
ghost use Rattle.ra_table.specs.Refusals.{IsNodeBusy, IsNotAbove, IsHeld, HasEarlier};
ghost use Rattle.ra_table.specs.Laws.{IsConflictFree};
ghost use Rattle.ra_table.specs.NameTables.{IsPlaceOf, table_of};

use crate::error::{EnterError, LeaveError, RequestError, WithdrawError};
use crate::name_table::NameTable;
use indexmap::IndexMap;
use ra_stamp::{Entry, Memory, Name};
use std::alloc::Global;
use std::marker::Model;

/// The lock table: which entries wait, which hold, and which were granted so far. No two conflicting entries on
/// one name hold. A name that was asked for is kept forever, even when nobody waits for it or holds it any more. So the
/// table grows with the names, and not with the grants.
///
/// Each name has a table of its own, so that a call looks at the entries on its entry's name alone. It looks for the
/// name once, and a first request on a name twice. A table keeps only the highest number of its grants, and compares a
/// request with it; only clauses and proofs see the grants themselves. A name is found by a fixed hash: if someone
/// picks names that collide, a look-up is linear in their number. A request, enter or leave does not hash its name if
/// the last of these calls had it, or if it first came after that one.
pub struct Table {
    /// A table for each name on which an entry ever waited.
    name_tables: IndexMap<Name, NameTable>,
    /// At which place among these the table of the last request, enter or leave is, or how many there were if its name
    /// had none. No clause relies on it.
    latest: usize,
}

// What it owns is freed here, so that no other crate proves how each of its parts is dropped.
impl Drop for Table {
    fn drop(self) {
        let Table {
            name_tables: _,
            latest: _,
        } = self;
    }
}

impl Model for Table {
    ghost use Rattle.ra_table.specs.Table.{LockTable};
    ghost use Rattle.ra_table.specs.NameTables.{table_of, IsKept};

    ghost Value = { LockTable };

    ghost view = { λ t. table_of t.name_tables.entries };

    ghost invariant = { λ t. IsKept t.name_tables.entries };
}

/// Returns whether the table of this name is at this place.
#[inline(always)]
fn is_at(name_tables: &IndexMap<Name, NameTable>, place: usize, name: &Name) -> bool
    requires { IsDistinct bytes_eq (keys_of name_tables.now.entries) }
    ensures { IsTrue result → IsPlaceOf name_tables.now.entries name.now place }
{
    match name_tables.get_index(place) {
        Some((kept, _)) => *kept == *name,
        None => false,
    }
}

/// Returns the place of a name's table, or the number of tables if the name has none. It looks at the place that
/// was found last, then at the next one, and only then by a hash of the name: most callers ask about one name several
/// times, and about names in one order.
#[inline(always)]
fn place_of_name(name_tables: &IndexMap<Name, NameTable>, latest: usize, name: &Name) -> usize
    requires { IsDistinct bytes_eq (keys_of name_tables.now.entries) }
    ensures { IsPlaceOf name_tables.now.entries name.now result }
{
    if is_at(name_tables, latest, name) {
        return latest;
    }
    let next = latest.wrapping_add(1);
    if is_at(name_tables, next, name) {
        return next;
    }
    name_tables.get_index_of(name).unwrap_or(name_tables.len())
}

/// Returns whether no entry waits or holds in any of the tables.
fn are_idle(name_tables: &IndexMap<Name, NameTable>) -> bool
    ensures { result ≡ is_idle (table_of name_tables.now.entries) }
{
    for name_table in name_tables.values() {
        if !name_table.is_idle() {
            return false;
        }
    }
    true
}

impl Table {
    /// Makes the table in which nothing waits or holds, and nothing was granted. It allocates from `alloc` as it grows.
    ///
    /// # Errors
    ///
    /// `Memory`: there is no table. The call takes no memory yet, and no caller has to change when it does.
    pub fn new(alloc: Global) -> Result<Table, Memory>
        ensures empty { IfOk result (λ table. table ≡ empty_table) }
    {
        Ok(Table {
            name_tables: IndexMap::new(alloc),
            latest: 0,
        })
    }

    /// Lets the entry wait, in expected time linear in the number of entries that wait and hold on its name. Now and
    /// then it moves all that is kept by names into more memory, which is constant on average.
    ///
    /// # Errors
    ///
    /// The first that holds:
    ///
    /// 1. `NodeBusy`: its node waits or holds on its name.
    /// 2. `NotAbove`: its number is not above the number of each entry granted so far on its name.
    /// 3. `Memory`: memory ran out.
    ///
    /// In each case the table is as before.
    pub fn request(&mut self, entry: Entry) -> Result<(), RequestError>
        ensures ok { OnOk result (TableStep self.old (Mark.Requested entry) self.new) }
        ensures err { OnErr result (self.new ≡ self.old) }
        ensures node_busy { IsErrOf result RequestError.NodeBusy ↔ IsNodeBusy self.old entry }
        ensures not_above { IsErrOf result RequestError.NotAbove
            ↔ (¬ IsNodeBusy self.old entry × IsNotAbove self.old entry) }
        // Memory is the one other error.
        ensures allowed { IsOkUnless result RequestError.Memory ↔ MayRequest self.old entry }
        ensures exclusive { IsConflictFree self.new.holding }
    {
        self.latest = place_of_name(&self.name_tables, self.latest, &entry.name);
        let Some(name_table) = self.name_tables.get_index_mut(self.latest) else {
            return NameTable::open(&mut self.name_tables, &entry);
        };
        name_table.request(&entry)
    }

    /// Grants an entry that waits, so that it holds, in expected time linear in the number of entries that wait and
    /// hold on its name.
    ///
    /// # Errors
    ///
    /// The first that holds:
    ///
    /// 1. `NotWaiting`: it does not wait.
    /// 2. `Held`: a conflicting entry on its name holds.
    /// 3. `Earlier`: a conflicting entry on its name with an earlier stamp waits.
    /// 4. `Memory`: memory ran out.
    ///
    /// In each case the table is as before.
    pub fn enter(&mut self, entry: &Entry) -> Result<(), EnterError>
        ensures ok { OnOk result (TableStep self.old (Mark.Entered entry.now) self.new) }
        ensures err { OnErr result (self.new ≡ self.old) }
        ensures not_waiting { IsErrOf result EnterError.NotWaiting ↔ ¬ Contains self.old.waiting entry.now }
        ensures held { IsErrOf result EnterError.Held
            ↔ (Contains self.old.waiting entry.now × IsHeld self.old entry.now) }
        ensures earlier { IsErrOf result EnterError.Earlier
            ↔ (Contains self.old.waiting entry.now × ¬ IsHeld self.old entry.now
            × HasEarlier self.old entry.now) }
        // Memory is the one other error.
        ensures allowed { IsOkUnless result EnterError.Memory ↔ MayEnter self.old entry.now }
        ensures exclusive { IsConflictFree self.new.holding }
    {
        self.latest = place_of_name(&self.name_tables, self.latest, &entry.name);
        let Some(name_table) = self.name_tables.get_index_mut(self.latest) else {
            return Err(EnterError::NotWaiting);
        };
        name_table.enter(entry)
    }

    /// Ends the hold of an entry, in expected time linear in the number of entries that hold on its name. It does not
    /// allocate.
    ///
    /// # Errors
    ///
    /// `NotHeld`: it does not hold. The table is as before.
    pub fn leave(&mut self, entry: &Entry) -> Result<(), LeaveError>
        ensures ok { OnOk result (TableStep self.old (Mark.Left entry.now) self.new) }
        ensures err { OnErr result (self.new ≡ self.old) }
        ensures held { IsOk result ↔ Contains self.old.holding entry.now }
        ensures not_held { IsErrOf result LeaveError.NotHeld ↔ ¬ Contains self.old.holding entry.now }
        ensures exclusive { IsConflictFree self.new.holding }
    {
        self.latest = place_of_name(&self.name_tables, self.latest, &entry.name);
        let Some(name_table) = self.name_tables.get_index_mut(self.latest) else {
            return Err(LeaveError::NotHeld);
        };
        name_table.leave(entry)
    }

    /// Withdraws an entry that waits, in expected time linear in the number of entries that wait on its name. It does
    /// not allocate.
    ///
    /// # Errors
    ///
    /// `NotWaiting`: it does not wait. The table is as before.
    pub fn withdraw(&mut self, entry: &Entry) -> Result<(), WithdrawError>
        ensures ok { OnOk result (TableStep self.old (Mark.Withdrawn entry.now) self.new) }
        ensures err { OnErr result (self.new ≡ self.old) }
        ensures waits { IsOk result ↔ Contains self.old.waiting entry.now }
        ensures not_waiting { IsErrOf result WithdrawError.NotWaiting ↔ ¬ Contains self.old.waiting entry.now }
        ensures exclusive { IsConflictFree self.new.holding }
    {
        self.latest = place_of_name(&self.name_tables, self.latest, &entry.name);
        let Some(name_table) = self.name_tables.get_index_mut(self.latest) else {
            return Err(WithdrawError::NotWaiting);
        };
        name_table.withdraw(entry)
    }

    /// Returns whether the entry may wait, unless memory runs out: its node neither waits nor holds on its name, and
    /// its number is above that of each entry granted so far on it. It takes expected time linear in the number of
    /// entries that wait and hold on its name, and does not allocate: a checker asks it about a mark that is not due,
    /// and the table is not to grow for that.
    pub fn can_request(&self, entry: &Entry) -> bool
        ensures allowed { IsTrue result ↔ MayRequest self.now entry.now }
        ensures exclusive { IsConflictFree self.now.holding }
    {
        match self.name_tables.get(&entry.name) {
            Some(name_table) => name_table.check_request(entry).is_ok(),
            None => true,
        }
    }

    /// Returns whether the entry may be granted now, unless memory runs out: it waits, no conflicting entry on its name
    /// holds, and none with an earlier stamp waits. It takes expected time linear in the number of entries that wait
    /// and hold on its name, and does not allocate.
    pub fn can_enter(&self, entry: &Entry) -> bool
        ensures allowed { IsTrue result ↔ MayEnter self.now entry.now }
        ensures exclusive { IsConflictFree self.now.holding }
    {
        match self.name_tables.get(&entry.name) {
            Some(name_table) => name_table.check_enter(entry).is_ok(),
            None => false,
        }
    }

    /// Returns whether the entry waits, in expected time linear in the number of entries that wait on its name. It does
    /// not allocate.
    pub fn waits(&self, entry: &Entry) -> bool
        ensures waits { IsTrue result ↔ Contains self.now.waiting entry.now }
        ensures exclusive { IsConflictFree self.now.holding }
    {
        match self.name_tables.get(&entry.name) {
            Some(name_table) => name_table.waits(entry),
            None => false,
        }
    }

    /// Returns whether the entry holds, in expected time linear in the number of entries that hold on its name. It does
    /// not allocate.
    pub fn holds(&self, entry: &Entry) -> bool
        ensures held { IsTrue result ↔ Contains self.now.holding entry.now }
        ensures exclusive { IsConflictFree self.now.holding }
    {
        match self.name_tables.get(&entry.name) {
            Some(name_table) => name_table.holds(entry),
            None => false,
        }
    }

    /// Returns whether no entry waits or holds, in time linear in the number of names. It does not allocate.
    pub fn is_idle(&self) -> bool
        ensures idle { result ≡ is_idle self.now }
        ensures exclusive { IsConflictFree self.now.holding }
    {
        are_idle(&self.name_tables)
    }
}
