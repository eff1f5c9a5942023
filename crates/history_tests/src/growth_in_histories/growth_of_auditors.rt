//! Each growth of an auditor is refused: its call answers that memory ran out, leaves everything as it was, and does
//! what it should when it is made again. If that happens in the middle of a round, the events before are in the run.
use crate::audit_tests::audits::Act::{AdvancesInParts, Gets, Has, Leaves};
use crate::audit_tests::audits::{Act, Part, Shown, audited};
use crate::audit_tests::audits_of_locks::{EVENT_BY_EVENT, LOST};
use crate::growth_in_histories::growth_of_settling::ONE_LOCK;
use crate::kept_books::histories::{ONE, TWO, books_after};
use ra_stamp::Memory;
use std::process::Abort;
use test_support::{Tried, again, assert_grown};

/// Has an auditor of the books of [`ONE_LOCK`] do all of this. If these cannot be made, memory ran out.
fn try_auditor(rt: &(impl Abort + AllocGlobal), all: &[Act]) -> Result<Tried, Memory> {
    let (alloc, words) = (rt.alloc(), "a growth may be refused");
    let books = books_after(rt, alloc, words, &[ONE, TWO], ONE_LOCK);
    if books.len() != 2 {
        return Err(Memory);
    }
    audited(rt, alloc, words, &books, all).ok_or(Memory)
}

/// Tries it, and tries it anew if memory ran out before it began.
fn grow(rt: &(impl Abort + AllocGlobal), all: &[Act]) {
    assert_grown!(rt, again(try_auditor(rt, all), try_auditor(rt, all)));
}

#[test]
fn growth_of_an_auditor(rt: HostRuntime) {
    grow(&rt, EVENT_BY_EVENT);
}

/// The whole lock in one round.
const ONE_ROUND: &[Act] = &[
    Gets(Part {
        node: 1,
        first: 0,
        until: 3,
        after: 0,
    }),
    Gets(Part {
        node: 2,
        first: 0,
        until: 1,
        after: 0,
    }),
    AdvancesInParts,
    Has(Shown {
        steps: 4,
        requests: 1,
        sent: 2,
        under_way: 0,
        marks: 3,
    }),
    Leaves(None),
];

#[test]
fn growth_of_a_round_of_an_auditor(rt: HostRuntime) {
    grow(&rt, ONE_ROUND);
}

#[test]
fn growth_of_an_auditor_of_losses(rt: HostRuntime) {
    grow(&rt, LOST);
}
