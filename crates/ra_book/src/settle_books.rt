pub mod copies;
pub mod event_merge;
pub mod flagged_losses;
pub mod grant_checks;
pub mod order_keys;
pub mod receipts;
pub mod settled;

ghost use Rattle.std.specs.Prelude.{◌≡◌, ◌≢◌, ◌↔◌, ◌⊎◌, ◌+◌, List, All, AllPairs, map, length, IsTrue, IsErrOf, IsOkUnless, IfOk, OnOk, MatchResult};
ghost use Rattle.std.specs.List.{Any};
ghost use Rattle.ra_world.specs.Traffic.{Move};
ghost use Rattle.ra_world.specs.Run.{WorldRun};
ghost use Rattle.ra_world.specs.World.{Reports};
ghost use Rattle.ra_world.specs.MainTheorem.{MainTheorem};
ghost use Rattle.ra_book.specs.Book.{IsWhole};
ghost use Rattle.ra_book.specs.Settled.{IsCluster, IsSettledOrder, IsSettledRun, Placed, settled_steps, start_of, IsGranted, HasUnsent, HasTwice, BooksFit, Repeats};
ghost use Rattle.ra_book.specs.SettlingParts.{HasRun, Settles, Refuses};

use crate::settle_books::event_merge::steps_in_order;
use crate::settle_books::flagged_losses::push_losses;
use crate::settle_books::grant_checks::check_grants;
use crate::settle_books::receipts::check_received;
use crate::{Book, Grant, SettleError, Settled};
use ra_world::{RunError, Steps, run};
use std::alloc::Global;

/// Returns whether the books belong to nodes 1 to n, in order, each of n nodes and all from one start, and nothing was
/// taken from them. An empty list is not a cluster. It does not allocate, and the cost is linear in the number of
/// books.
pub fn is_cluster(books: &[Book]) -> bool
    ensures { IsTrue result ↔ IsCluster books.now }
{
    let Some(first) = books.first() else {
        return false;
    };
    let count = books.len();
    let start = first.start();
    for (place, book) in books.iter().enumerate() {
        if !is_member(book, place, count, start) {
            return false;
        }
    }
    true
}

/// Returns whether a book belongs to the node with this place, counted from 0, of this many nodes and from this start,
/// and nothing was taken from it.
fn is_member(book: &Book, place: usize, count: usize, start: u64) -> bool
    ensures { IsTrue result
        ↔ ((book.now.me ≡ place + 1) × (book.now.nodes ≡ count) × (book.now.start ≡ start) × IsWhole book.now) }
{
    book.me().place() == place
        && usize::from(book.nodes()) == count
        && book.start() == start
        && book.is_whole()
}

/// Settles the books of a cluster into one run of it: the events of all books, by clock and then by node, and then the
/// loss of each frame that is flagged lost, by node and then in order of sending. So what [`run`] says of its steps
/// holds of what happened at the nodes. Unless memory runs out, books settle exactly if none of the first four errors
/// below holds. With n events and frames sent, m grants and k books, the cost is that of the run, plus n log n, m log m
/// and k n. The run takes time linear in n, on average. If there was no memory to know the clients of a long queue,
/// each ask looks through its name's queue, too. If there was none for an index of the messages under way, each frame
/// that came looks through them.
///
/// # Errors
///
/// The first that holds, each of all books or grants:
///
/// 1. `NotSent`: a frame came, with this clock and message, that is not among the frames that its sender sent and that
///    are not flagged lost.
/// 2. `Twice`: a message came twice.
/// 3. `GrantMissing`: the entry of a grant has no Entered mark in its node's book.
/// 4. `GrantTwice`: two grants are equal.
/// 5. `Memory`, which may come before any of them but `NotSent`.
pub fn settle(alloc: Global, books: &[Book], grants: &[Grant]) -> Result<Settled, SettleError>
    requires { IsCluster books.now }
    // The steps are a settled run, and the report is of this run.
    ensures settled_run { IfOk result (λ settled. (moves : List Move)
        × (map (λ move. move.step) moves ≡ settled.steps.items)
        × IsSettledRun books.now moves × Reports (length books.now) (start_of books.now) moves settled.report) }
    ensures main_theorem { IfOk result (λ settled. MainTheorem (length books.now) settled.report) }
    ensures steps { IfOk result (λ settled. (placed : List Placed) × IsSettledOrder books.now placed
        × (settled.steps.items ≡ settled_steps books.now placed)) }
    ensures fit { OnOk result (BooksFit books.now) }
    ensures granted { OnOk result (All (λ grant. IsGranted books.now grant.entry) grants.now) }
    ensures once { OnOk result (AllPairs (λ a b. a ≢ b) grants.now) }
    // Each refusal comes only if its cause holds.
    ensures not_sent { IsErrOf result SettleError.NotSent → HasUnsent books.now }
    ensures twice { IsErrOf result SettleError.Twice → HasTwice books.now × (HasUnsent books.now → ⊥) }
    ensures missing { IsErrOf result SettleError.GrantMissing → BooksFit books.now
        × Any (λ grant. IsGranted books.now grant.entry → ⊥) grants.now }
    ensures grant_twice { IsErrOf result SettleError.GrantTwice → BooksFit books.now × Repeats grants.now
        × All (λ grant. IsGranted books.now grant.entry) grants.now }
    // `Memory` comes only if each frame that came was sent: to find that out takes no memory.
    ensures memory { IsErrOf result SettleError.Memory → HasUnsent books.now → ⊥ }
    // And if the cause of a refusal holds, it comes, except that `Memory` may come before it.
    ensures found_unsent { HasUnsent books.now → IsErrOf result SettleError.NotSent }
    ensures found_twice { HasTwice books.now → (HasUnsent books.now → ⊥)
        → IsErrOf result SettleError.Twice ⊎ IsErrOf result SettleError.Memory }
    ensures found_missing { BooksFit books.now → Any (λ grant. IsGranted books.now grant.entry → ⊥) grants.now
        → IsErrOf result SettleError.GrantMissing ⊎ IsErrOf result SettleError.Memory }
    ensures found_grant_twice { BooksFit books.now → Repeats grants.now
        → All (λ grant. IsGranted books.now grant.entry) grants.now
        → IsErrOf result SettleError.GrantTwice ⊎ IsErrOf result SettleError.Memory }
    ensures settles { BooksFit books.now → All (λ grant. IsGranted books.now grant.entry) grants.now
        → AllPairs (λ a b. a ≢ b) grants.now → IsOkUnless result SettleError.Memory }
{
    check_received(alloc, books)?;
    settle_with(alloc, books, grants)
}

/// Settles books that fit together, with grants.
///
/// # Errors
///
/// Those of `settle`, except for what came.
fn settle_with(alloc: Global, books: &[Book], grants: &[Grant]) -> Result<Settled, SettleError>
    requires cluster { IsCluster books.now }
    requires fit { BooksFit books.now }
    ensures { MatchResult result (Settles books.now grants.now) (Refuses books.now grants.now) }
{
    let mut steps = steps_in_order(alloc, books)?;
    push_losses(&mut steps, books)?;
    let settled = run_steps(alloc, books, steps)?;
    check_grants(alloc, grants, settled.report.marks.as_slice())?;
    Ok(settled)
}

/// Runs steps, which are a run of the cluster of these books.
///
/// # Errors
///
/// `Memory`: memory ran out.
pub fn run_steps(alloc: Global, books: &[Book], steps: Steps) -> Result<Settled, SettleError>
    requires cluster { IsCluster books.now }
    requires run { WorldRun (length books.now) (start_of books.now) steps.items }
    ensures { MatchResult result (HasRun books.now steps.items) (λ e. e ≡ SettleError.Memory) }
{
    let first = &books[0];
    match run(alloc, first.nodes(), first.start(), &steps) {
        Ok(report) => Ok(Settled { steps, report }),
        Err(refused) => match refused {
            RunError::Memory => Err(SettleError::Memory),
            // The steps are a run.
            RunError::BadCount | RunError::Refused { .. } => unreachable!(),
        },
    }
}
