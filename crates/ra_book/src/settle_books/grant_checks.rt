//! Whether each grant is of a request that was granted, and occurs once.
ghost use Rattle.std.specs.Prelude.{◌≢◌, All, AllPairs, Contains, MatchResult};
ghost use Rattle.ra_stamp.specs.declared.entry.Mark.{Mark};
ghost use Rattle.ra_book.specs.SettlingParts.{RefusesGrants, RefusesRepeats};

use crate::settle_books::order_keys::entry_key;
use crate::{Grant, SettleError};
use ra_stamp::Mark;
use std::alloc::Global;
use std::collections::BTreeSet;

/// Checks that the request of each grant has an Entered mark, and that no two grants are equal. With the requests in
/// sets, the cost of each grant and mark is logarithmic.
///
/// # Errors
///
/// The first that holds, of all grants:
///
/// 1. `GrantMissing`: the request of a grant has no Entered mark.
/// 2. `GrantTwice`: two grants are equal.
/// 3. `Memory`, which may come before any of them.
pub fn check_grants(alloc: Global, grants: &[Grant], marks: &[Mark]) -> Result<(), SettleError>
    ensures { MatchResult result
        (λ _. All (λ g. Contains marks.now (Mark.Entered g.entry)) grants.now × AllPairs (λ a b. a ≢ b) grants.now)
        (RefusesGrants grants.now marks.now) }
{
    let mut entered = BTreeSet::new(alloc);
    for mark in marks {
        if let Mark::Entered(entry) = mark {
            let Ok(_) = entered.insert(entry_key(entry)) else {
                return Err(SettleError::Memory);
            };
        }
    }
    for grant in grants {
        if !entered.contains(&entry_key(&grant.entry)) {
            return Err(SettleError::GrantMissing);
        }
    }
    check_once(alloc, grants)
}

/// Checks that no two grants are equal.
fn check_once(alloc: Global, grants: &[Grant]) -> Result<(), SettleError>
    ensures { MatchResult result (λ _. AllPairs (λ a b. a ≢ b) grants.now) (RefusesRepeats grants.now) }
{
    let mut seen = BTreeSet::new(alloc);
    for grant in grants {
        let Ok(is_new) = seen.insert(entry_key(&grant.entry)) else {
            return Err(SettleError::Memory);
        };
        if !is_new {
            return Err(SettleError::GrantTwice);
        }
    }
    Ok(())
}
