//! A cancel, an unlock and a forget that are refused: the site is as before.
use crate::site_tests::site_cluster::{Cluster, gated_cluster};
use crate::whole_clusters::cluster_asserting::assert_same;
use Call::{Cancels, Forgets, Unlocks};
use ra_cluster::{BookError, Site, SiteError, Stop};
use ra_stamp::{Entry, Mode};
use std::process::Abort;
use std::sync::Wait;
use test_support::{part, r};

/// A call of the only node, about `r`.
#[derive(Clone, Copy)]
enum Call {
    /// This client gives it up.
    Cancels(u32),
    /// This client leaves it.
    Unlocks(u32),
    /// The node forgets names.
    Forgets,
}

/// A call, and why it is refused. Client 1 holds `r` by then, which took one step.
struct Row {
    words: &'static str,
    /// How many steps the gate lets pass.
    most: u64,
    /// Why the node is stopped before the call, if it is.
    stopped: Option<Stop>,
    call: Call,
    answer: SiteError,
}

/// Nothing is wrong but the call.
const NOT_WAITING: Row = Row {
    words: "the client that holds the name gives it up",
    most: u64::MAX,
    stopped: None,
    call: Cancels(1),
    answer: SiteError::Refused(BookError::NotWaiting),
};

/// The gate lets no second step pass, which is asked first.
const AT_THE_GATE: Row = Row {
    words: "the client that holds the name gives it up, and the gate stops it",
    most: 1,
    answer: SiteError::Stopped(Stop::Gate),
    ..NOT_WAITING
};

/// The node is stopped before.
const FAILED: Row = Row {
    words: "the client that holds the name gives it up at a stopped node",
    stopped: Some(Stop::Refused),
    answer: SiteError::Refused(BookError::Failed),
    ..NOT_WAITING
};

const ROWS: &[Row] = &[
    NOT_WAITING,
    Row {
        words: "a client gives up what it never asked for",
        call: Cancels(2),
        ..NOT_WAITING
    },
    Row {
        words: "a client leaves what another one holds",
        call: Unlocks(2),
        answer: SiteError::Refused(BookError::NotHeld),
        ..NOT_WAITING
    },
    AT_THE_GATE,
    Row {
        words: "the client leaves the name, and the gate stops it",
        call: Unlocks(1),
        ..AT_THE_GATE
    },
    Row {
        words: "the node forgets, and the gate stops it",
        call: Forgets,
        ..AT_THE_GATE
    },
    FAILED,
    Row {
        words: "the client leaves the name at a stopped node",
        call: Unlocks(1),
        ..FAILED
    },
    Row {
        words: "a stopped node forgets",
        call: Forgets,
        ..FAILED
    },
];

/// Returns the events of a site, the holder of `r`, and how many requests wait and clients are queued.
fn shown<R: Wait>(rt: &R, site: &Site) -> (u64, Option<Entry>, u64, u128) {
    let holder = site.holder(rt, &r());
    (site.events(rt), holder, site.waiting(rt), site.queued(rt))
}

/// Makes the call.
fn make<R: AllocGlobal + Wait>(
    rt: &R,
    all: &Cluster,
    site: &Site,
    call: Call,
) -> Result<(), SiteError> {
    match call {
        Cancels(client) => all.cancel_at(rt, rt.alloc(), site, client),
        Unlocks(client) => all.unlock_at(rt, rt.alloc(), site, client, &all.gate),
        Forgets => all.forget_at(rt, rt.alloc(), site),
    }
}

/// Has client 1 lock `r`, and then makes the call, which is refused.
fn refuses<R: AllocGlobal + Wait + Abort>(rt: &R, all: &Cluster, row: &Row) {
    let site = all.site(rt, 1);
    let held = all.lock_at(rt, rt.alloc(), site, 1, Mode::Exclusive, &all.gate);
    assert_same(rt, part(row.words, "client 1 locks"), &held.is_ok(), &true);
    if let Some(cause) = row.stopped {
        site.stop(rt, cause);
    }
    let before = shown(rt, site);
    let came = make(rt, all, site, row.call);
    assert_same(rt, part(row.words, "the answer"), &came, &Err(row.answer));
    assert_same(rt, part(row.words, "the site"), &shown(rt, site), &before);
}

#[test]
fn a_refused_ending_leaves_the_site_as_it_was(rt: HostRuntime) {
    for row in ROWS {
        for all in &gated_cluster(rt.alloc(), 1, 0, row.most, 0) {
            refuses(&rt, all, row);
        }
    }
}
