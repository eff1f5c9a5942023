//! Whether each grant that clients were given is in the run that an observer sees.
ghost use Rattle.std.specs.Prelude.{◌≡◌, ◌≢◌, ◌↔◌, ◌<◌, ◌++◌, ◌∷◌, true, false, [], Some, Contains, length, slice_index_or, IfSome, IsErrOf, IsNone, IsOk, OnErr, OnOk};
ghost use Rattle.ra_stamp.specs.declared.entry.Mark as entry_mark;
ghost use Rattle.ra_book.specs.declared.book.grant.Grant as granted;
ghost use Rattle.ra_audit.specs.Matching.{AreAllMatched, IsUnmatched, TakesGrant, TakesEntered, TakesMark};

use crate::{MarkObserver, Told};
use ra_site::Grant;
use ra_stamp::{Entry, GhostList, Mark, Memory};
use std::alloc::Global;
use std::fmt;
use std::marker::Model;
use thiserror::Error;

/// Why not each grant is in the run.
#[derive(Clone, Copy, Debug, PartialEq, Eq, Error)]
pub enum GrantError {
    /// This grant has no `Entered` mark among those that were told: its request never entered, or the mark belongs to
    /// an equal grant.
    GrantMissing(Grant),
    /// A mark was forgotten, so that it is not known whether a grant is missing.
    Memory,
}

impl fmt::Display for GrantError {
    fn fmt<W: fmt::Write>(&self, f: &mut fmt::Formatter<W>) -> fmt::Result {
        fmt::Debug::fmt(self, f)
    }
}

/// An observer that matches the grants that clients were given with the `Entered` marks of the run, one for one. Give
/// it each grant by [`GrantMatcher::grant`], before or after its mark is told. At the end [`GrantMatcher::check`] says
/// whether each has a mark of its own.
///
/// It keeps the grants whose marks were not told yet, and the marks whose grants it was not given yet. What is matched
/// takes no memory, so it does not grow with the run if it is given each grant. The cost of each grant and each mark is
/// linear in what it keeps.
///
/// It forgets a mark only if memory runs out for it. No clause says so, since contracts don't see for how many marks it
/// has room. Even then [`GrantMatcher::check`] is `Ok` only if each grant has a mark of its own.
///
/// Contracts see the marks, the grants and what it keeps.
#[derive(Drop)]
pub struct GrantMatcher {
    told: Told,
    grants: GhostList<Grant>,
    /// The requests of the grants that are not matched.
    waiting: Vec<Entry>,
    /// The requests of the marks that are not matched, other than those that were forgotten.
    left: Vec<Entry>,
    /// Whether such a mark was forgotten.
    forgot: bool,
}

impl Model for GrantMatcher {
    ghost use Rattle.ra_audit.specs.Matching.{MatcherState, IsMatcher};

    ghost Value = { MatcherState };

    ghost view = { λ m. record {
      told = m.told;
      grants = m.grants.items;
      waiting = m.waiting.items;
      left = m.left.items;
      forgot = m.forgot;
    } };

    ghost invariant = { λ m. IsMatcher (record {
      told = m.told;
      grants = m.grants.items;
      waiting = m.waiting.items;
      left = m.left.items;
      forgot = m.forgot;
    }) };
}

impl GrantMatcher {
    /// Makes a matcher that was told and given nothing. It does not allocate.
    pub fn new(alloc: Global) -> GrantMatcher
        ensures { result ≡ record { told = []; grants = []; waiting = []; left = []; forgot = false } }
    {
        GrantMatcher {
            told: Told::new(),
            grants: GhostList::new(),
            waiting: Vec::new(alloc),
            left: Vec::new(alloc),
            forgot: false,
        }
    }

    /// Gives it a grant. If it keeps a mark of the grant, the two are matched, and it keeps the mark no longer.
    /// Otherwise the grant waits.
    ///
    /// # Errors
    ///
    /// `Memory`: it keeps no mark of the grant, and there is no room for the grant. Nothing has changed.
    pub fn grant(&mut self, grant: &Grant) -> Result<(), Memory>
        ensures ok { OnOk result (self.new.grants ≡ self.old.grants ++ grant.now ∷ []) }
        ensures takes { OnOk result (TakesGrant self.old grant.now self.new) }
        ensures told { self.new.told ≡ self.old.told }
        ensures forgot { self.new.forgot ≡ self.old.forgot }
        ensures err { OnErr result (self.new ≡ self.old) }
        ensures memory { OnErr result (¬ (Contains self.old.left grant.now.entry)) }
    {
        if let Some(place) = place_of(&self.left, &grant.entry) {
            self.left.swap_remove(place);
            self.grants = self.grants.and(grant);
            return Ok(());
        }
        self.waiting.push(grant.entry)?;
        self.grants = self.grants.and(grant);
        Ok(())
    }

    /// Tells whether each grant that it was given has an `Entered` mark of its own among those that it was told. Call
    /// it at the end, when no grant is still to be given and no mark still to be told. The cost does not depend on what
    /// it keeps.
    ///
    /// # Errors
    ///
    /// If a grant has no mark of its own, the first that holds:
    ///
    /// 1. `Memory`: a mark was forgotten.
    /// 2. `GrantMissing`: one such grant.
    pub fn check(&self) -> Result<(), GrantError>
        ensures ok { OnOk result (AreAllMatched self.now.told self.now.grants) }
        ensures is_ok { IsOk result ↔ (self.now.waiting ≡ []) }
        ensures memory { IsErrOf result GrantError.Memory ↔ ((self.now.waiting ≢ []) × (self.now.forgot ≡ true)) }
        ensures missing { (grant : granted.Grant) → IsErrOf result (GrantError.GrantMissing grant)
            → IsUnmatched self.now.told self.now.grants grant.entry }
    {
        let Some(entry) = self.waiting.first() else {
            return Ok(());
        };
        if self.forgot {
            return Err(GrantError::Memory);
        }
        Err(GrantError::GrantMissing(Grant { entry: *entry }))
    }

    /// Returns how many grants wait for their marks.
    pub fn waiting(&self) -> usize
        ensures { result ≡ length self.now.waiting }
    {
        self.waiting.len()
    }

    /// Returns how many marks it keeps, since their grants were not given.
    pub fn left(&self) -> usize
        ensures { result ≡ length self.now.left }
    {
        self.left.len()
    }

    /// Takes the next `Entered` mark, and matches it with a grant that waits, or keeps it, or forgets it. It forgets
    /// it only if there is no room for it, which the clauses leave open.
    fn enter(&mut self, mark: &Mark, entry: &Entry)
        requires { mark.now ≡ entry_mark.Mark.Entered entry.now }
        ensures told { self.new.told ≡ self.old.told ++ mark.now ∷ [] }
        ensures grants { self.new.grants ≡ self.old.grants }
        ensures takes { TakesEntered self.old entry.now self.new }
    {
        self.told.tell(mark);
        if let Some(place) = place_of(&self.waiting, entry) {
            self.waiting.swap_remove(place);
            return;
        }
        if self.left.push(*entry).is_err() {
            self.forgot = true;
        }
    }
}

impl MarkObserver for GrantMatcher {
    ghost told = { λ m. m.told };

    ghost granted = { λ m. m.grants };

    /// Takes the next mark of the run. An `Entered` mark is matched with a grant of its request that waits. If no
    /// grant of the request waits, the mark is kept or forgotten.
    fn tell(&mut self, mark: &Mark)
        ensures told { self.new.told ≡ self.old.told ++ mark.now ∷ [] }
        ensures granted { self.new.grants ≡ self.old.grants }
        ensures takes { TakesMark self.old mark.now self.new }
    {
        match mark {
            Mark::Entered(entry) => self.enter(mark, entry),
            Mark::Requested(_) | Mark::Left(_) | Mark::Withdrawn(_) => self.told.tell(mark),
        }
    }
}

/// Returns the place of an entry in the list.
fn place_of(list: &[Entry], entry: &Entry) -> Option<usize>
    ensures absent { IsNone result ↔ ¬ (Contains list.now entry.now) }
    ensures found { IfSome result (λ place. (place < length list.now)
        × (slice_index_or list.now place entry.now ≡ entry.now)) }
{
    for (place, other) in list.iter().enumerate() {
        if other == entry {
            return Some(place);
        }
    }
    None
}
