//! What is shown when a cluster of sites has done its steps.
use crate::site_tests::site_cluster::{Answer, Cluster};
use crate::whole_clusters::cluster_asserting::{assert_same, fail_at};
use crate::whole_clusters::cluster_values::{books_of, entry, node, settled};
use ra_cluster::{Book, Grant, Sent, Settled, SiteError, Stop};
use ra_frame::Frame;
use ra_stamp::Mode;
use ra_world::{Report, Step, report_text};
use std::alloc::Global;
use std::process::Abort;
use test_support::{At, part, r, request};

/// A book at the end.
#[derive(Clone, Copy)]
pub struct Ended {
    pub fault: Option<Stop>,
    /// How many events it has.
    pub events: u64,
}

/// What is shown at the end.
#[derive(Clone, Copy)]
pub enum Shown {
    /// The books end so.
    Books(&'static [Ended]),
    /// The book of this node has this fault.
    Fault(usize, Stop),
    /// The frame that node 1 sent at this place is lost, or is not.
    Sent(u64, bool),
    /// Client 1 of node 1 asked for `r`, exclusively, at clock 1. Node 1 sent only its REQUEST, which was lost, and the
    /// books settle into its loss.
    OneLoss,
    /// Client 1 of node 1 holds `r`.
    Held,
    /// The last client that locked on a thread of its own was this one of node 1, which got the grant with this number.
    Granted(u32, u64),
    /// That client was refused for this reason.
    Refused(SiteError),
    /// The books settle into a run in which one client is queued and no request waits.
    OneQueued,
    /// The clients that lock and unlock often got more than this many grants. With these the books settle into a run
    /// that tells of a loss.
    LostAfter(usize),
}

/// What there is when all steps are done.
#[derive(Drop)]
pub struct After {
    books: Vec<Book>,
    answer: Answer,
    grants: Vec<Grant>,
}

/// Returns the fault of the book at this place, and how many events it has.
fn end_of(books: &[Book], place: usize) -> Option<(Option<Stop>, u64)> {
    match books.get(place) {
        Some(book) => Some((book.fault(), book.events().len())),
        None => None,
    }
}

/// Asserts that all the books end as expected, and that there are no others.
pub fn assert_ended(rt: &impl Abort, words: &str, books: &[Book], ended: &[Ended]) {
    for place in 0..ended.len() {
        let Ended { fault, events } = ended[place];
        let at = At(words, "the end of book", place + 1);
        assert_same(rt, at, &end_of(books, place), &Some((fault, events)));
    }
    let at = part(words, "how many books");
    assert_same(rt, at, &books.len(), &ended.len());
}

/// Returns whether a book sent a frame at this place that is lost, or not, or `None` if it sent none.
pub fn is_lost(one: &Book, place: u64) -> Option<bool> {
    match one.sent(place) {
        Some(sent) => Some(sent.lost),
        None => None,
    }
}

/// The report of the run in which client 1 of node 1 asks, and its REQUEST is lost.
const LOST_ONCE: &str =
    "request 1 1 r X 1\nrequests 1\nmessages 1\nunder-way 0\nlost 1\nwaiting 1\nqueued 0\n";

/// Asserts that this is the report of that run.
fn assert_report(rt: &impl Abort, alloc: Global, at: At<'_>, report: &Report) {
    match report_text(alloc, report) {
        Ok(came) => assert_same(rt, at, &came.as_str(), &LOST_ONCE),
        Err(_) => fail_at(rt, at, "the report finds no memory"),
    }
}

/// Asserts that books settled into that run: the ask, and the loss of its REQUEST.
fn assert_loss(rt: &impl Abort, alloc: Global, at: At<'_>, settled: &Settled) {
    let asks = Step::Ask {
        node: node(rt, 1),
        client: 1,
        name: r(),
        mode: Mode::Exclusive,
    };
    let due = [asks, Step::Lose(request(1, 2, 1))];
    assert_same(rt, at, &settled.steps.as_slice(), &due.as_slice());
    assert_report(rt, alloc, at, &settled.report);
}

/// Asserts that node 1 sent the one REQUEST, which is lost, and that the books settle into its loss.
fn assert_one_loss(rt: &impl Abort, alloc: Global, at: At<'_>, one: &Book, books: &[Book]) {
    let (message, lost) = (request(1, 2, 1), true);
    let frame = Frame { clock: 1, message };
    assert_same(rt, at, &one.sent(0), &Some(Sent { frame, lost }));
    assert_same(rt, at, &one.sent(1), &None);
    match settled(alloc, books, &[]) {
        Some(settled) => assert_loss(rt, alloc, at, &settled),
        None => fail_at(rt, at, "the books do not settle"),
    }
}

/// What the run tells that books settle into: whether messages were lost, and how many clients are queued and how many
/// requests wait.
type Told = (bool, u128, u128);

/// Returns what the run tells that the books settle into with these grants, or `None` if they do not settle.
fn told(alloc: Global, books: &[Book], grants: &[Grant]) -> Option<Told> {
    match settled(alloc, books, grants) {
        Some(settled) => {
            let report = &settled.report;
            Some((report.lost > 0, report.queued, report.waiting))
        }
        None => None,
    }
}

/// Asserts that the books settle with the grants, more than this many, into a run that tells of a loss.
fn assert_lost_after(rt: &impl Abort, alloc: Global, at: At<'_>, after: &After, least: usize) {
    let (grants, more) = (after.grants.len(), least.saturating_add(1));
    assert_same(rt, at, &grants.min(more), &more);
    let lost = match told(alloc, &after.books, &after.grants) {
        Some((lost, _, _)) => Some(lost),
        None => None,
    };
    assert_same(
        rt,
        part(at.0, "whether the run tells of a loss"),
        &lost,
        &Some(true),
    );
}

/// Asserts that this is shown.
fn assert_shown(rt: &impl Abort, alloc: Global, at: At<'_>, after: &After, shown: Shown) {
    let Some(one) = after.books.first() else {
        fail_at(rt, at, "there is no book");
    };
    match shown {
        Shown::Books(ended) => assert_ended(rt, at.0, &after.books, ended),
        Shown::Fault(number, fault) => {
            let came = match end_of(&after.books, number.wrapping_sub(1)) {
                Some((came, _)) => came,
                None => None,
            };
            assert_same(rt, at, &came, &Some(fault));
        }
        Shown::Sent(place, lost) => assert_same(rt, at, &is_lost(one, place), &Some(lost)),
        Shown::OneLoss => assert_one_loss(rt, alloc, at, one, &after.books),
        Shown::Held => {
            let due = Some(entry(rt, 1, 1, Mode::Exclusive, 1));
            assert_same(rt, at, &one.holder(&r()), &due);
        }
        Shown::Granted(client, seq) => {
            let entry = entry(rt, 1, client, Mode::Exclusive, seq);
            assert_same(rt, at, &after.answer, &Some(Ok(Grant { entry })));
        }
        Shown::Refused(fault) => assert_same(rt, at, &after.answer, &Some(Err(fault))),
        Shown::OneQueued => {
            let due = Some((false, 1, 0));
            assert_same(rt, at, &told(alloc, &after.books, &[]), &due);
        }
        Shown::LostAfter(least) => assert_lost_after(rt, alloc, at, after, least),
    }
}

/// Asserts that all of these are shown.
pub fn assert_all_shown(rt: &impl Abort, alloc: Global, words: &str, after: &After, all: &[Shown]) {
    for place in 0..all.len() {
        assert_shown(
            rt,
            alloc,
            At(words, "what is shown at", place + 1),
            after,
            all[place],
        );
    }
}

/// Returns what there is after the steps.
pub fn after_all(alloc: Global, all: Cluster) -> After {
    After {
        answer: all.answer.into_inner(),
        grants: all.grants.into_inner(),
        books: books_of(alloc, all.sites),
    }
}
