//! The numbers by which the book knows clients.
ghost use Rattle.std.specs.Prelude.{◌≡◌, ◌<◌, ◌≤◌, ◌^◌, ℕ, false, true, MatchOption, IfSome, IfNone, OnOk, OnErr};
ghost use Rattle.std.specs.BTreeSet.{contains};
ghost use Rattle.std.specs.Ordering.{nat_cmp};
ghost use Rattle.ra_clients.specs.Numbers.{AreFree, AreWithin};

use ra_stamp::Memory;
use std::alloc::Global;
use std::collections::BTreeSet;

/// How many numbers there are.
const NUMBERS: u64 = 1 << 32;

/// The numbers by which the book knows clients. A new client gets the least that no client has, nor anybody who holds
/// or waits by the book.
#[derive(Drop)]
pub struct Numbers {
    /// No client got this number, or one above it, since the start.
    next: u64,
    /// The numbers below it that are free again.
    free: BTreeSet<u32>,
    /// The numbers that clients of before the start have.
    before: BTreeSet<u32>,
    ghost are_free: { AreFree next free before },
    ghost fits: { next ≤ 2 ^ 32 },
    ghost within: { AreWithin before },
}

/// Returns the least number from this one on that is not in the set.
fn first_absent(before: &BTreeSet<u32>, from: u64) -> Option<u32>
    ensures some { IfSome result (λ number. (from ≤ number) × (contains nat_cmp before.now number ≡ false)
        × ((other : ℕ) → from ≤ other → other < number → contains nat_cmp before.now other ≡ true)) }
    ensures none { IfNone result
        ((other : ℕ) → from ≤ other → other < 2 ^ 32 → contains nat_cmp before.now other ≡ true) }
{
    for number in from..NUMBERS {
        let number = number as u32;
        if !before.contains(&number) {
            return Some(number);
        }
    }
    None
}

impl Numbers {
    ghost use Rattle.ra_clients.specs.NumberUse.{is_before, is_used, AreAllUsed, AreSameNumbers, GivesBack, IsLeastFree, Keeps, Takes};

    /// No number is used. It does not allocate.
    pub fn new(alloc: Global) -> Numbers
        ensures used { (number : ℕ) → is_used result number ≡ false }
        ensures before { (number : ℕ) → is_before result number ≡ false }
    {
        Numbers {
            next: 0,
            free: BTreeSet::new(alloc),
            before: BTreeSet::new(alloc),
        }
    }

    /// Returns whether a client of before the start has the number. The cost is logarithmic. It does not allocate.
    pub fn is_before(&self, number: u32) -> bool
        ensures { result ≡ is_before self.now number }
    {
        self.before.contains(&number)
    }

    /// Returns a number that a client of before the start has, if there is one. The cost is logarithmic. It does not
    /// allocate.
    pub fn first_before(&self) -> Option<u32>
        ensures { MatchOption result ((number : ℕ) → is_before self.now number ≡ false)
            (λ number. is_before self.now number ≡ true) }
    {
        self.before.first().copied()
    }

    /// Returns the number that a new client would take, if there is one. The cost is as of `take`. It does not
    /// allocate.
    pub fn first_free(&self) -> Option<u32>
        ensures { MatchOption result (AreAllUsed self.now) (IsLeastFree self.now) }
    {
        match self.free.first() {
            Some(number) => Some(*number),
            None => first_absent(&self.before, self.next),
        }
    }

    /// A client of before the start has the number. The cost is logarithmic.
    ///
    /// # Errors
    ///
    /// `Memory`: nothing has changed.
    pub fn keep(&mut self, number: u32) -> Result<(), Memory>
        ensures ok { OnOk result (Keeps self.old number self.new) }
        ensures err { OnErr result (AreSameNumbers self.old self.new) }
    {
        self.before.insert(number)?;
        self.free.remove(&number);
        Ok(())
    }

    /// A new client takes the least number that no client has, if there is one. The cost is logarithmic, but that each
    /// number of before the start is passed over once.
    pub fn take(&mut self) -> Option<u32>
        ensures least { IfSome result (IsLeastFree self.old) }
        ensures takes { IfSome result (λ number. Takes self.old number self.new) }
        ensures none { IfNone result (AreAllUsed self.old) }
        ensures unchanged { IfNone result (AreSameNumbers self.old self.new) }
    {
        if let Some(number) = self.free.pop_first() {
            return Some(number);
        }
        let number = first_absent(&self.before, self.next)?;
        self.next = u64::from(number) + 1;
        Some(number)
    }

    /// No client has the number any more. The cost is logarithmic.
    ///
    /// # Errors
    ///
    /// `Memory`: nothing has changed.
    pub fn give_back(&mut self, number: u32) -> Result<(), Memory>
        ensures ok { OnOk result (GivesBack self.old number self.new) }
        ensures err { OnErr result (AreSameNumbers self.old self.new) }
    {
        if u64::from(number) < self.next {
            self.free.insert(number)?;
        }
        self.before.remove(&number);
        Ok(())
    }
}
