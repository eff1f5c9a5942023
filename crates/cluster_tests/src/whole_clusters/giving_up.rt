//! Clients that give up, by a call or since their time is over, and nodes that forget names.
use crate::whole_clusters::cluster_asserting::assert_same;
use crate::whole_clusters::cluster_calls::{books_at_the_end, clusters_of, lock, site, unlock};
use crate::whole_clusters::cluster_values::{comes_to, node, settled};
use crate::whole_clusters::ticking_clock::TickingClock;
use ra_cluster::{CallError, Cluster, Grant, OpenGate, SiteError};
use ra_stamp::{Mode, NodeId};
use std::alloc::Global;
use std::process::Abort;
use std::sync::Wait;
use std::sync::atomic::{AtomicU64, Ordering};
use std::thread::Threads;
use std::time::{Clock, Duration};
use std::{io, thread};
use test_support::{At, q, r};

/// How often a grant and the end of the time come at once.
const ROUNDS: u64 = 1000;

/// A time ends when its clock was read fewer than so often.
const MOST_READINGS: u64 = 32;

/// How often it is looked whether a client waits.
const MOST_LOOKS: u64 = 5_000_000;

/// What is waited for, held and counted at node 1: the requests that wait, the clients that are queued, the client that
/// holds `r`.
type Left = (u64, u128, Option<u32>);

fn node_one() -> NodeId {
    NodeId::new(1).unwrap()
}

fn left<R: Wait + Abort>(rt: &R, cluster: &Cluster<OpenGate>) -> Left {
    let site = site(rt, cluster, 1);
    let holder = match site.holder(rt, &r()) {
        Some(entry) => Some(entry.client),
        None => None,
    };
    (site.waiting(rt), site.queued(rt), holder)
}

/// Has client 2 of node 1 lock `r` within this time.
///
/// # Errors
///
/// Why it does not.
fn lock_within<R: Wait + Clock>(
    rt: &R,
    alloc: Global,
    cluster: &Cluster<OpenGate>,
    time: Duration,
) -> Result<Option<Grant>, CallError> {
    cluster.lock_within(rt, alloc, node_one(), 2, r(), Mode::Exclusive, time)
}

/// Client 1 of the last node holds `r`, and leaves it while the time of client 2 of node 1 ends, which the clock of the
/// test says. Returns whether client 2 was let in. Either way nothing is left.
fn race<R: Wait + Threads + Sync + Abort>(
    rt: &R,
    alloc: Global,
    cluster: &Cluster<OpenGate>,
    last: u16,
    round: u64,
) -> bool {
    let at = At(
        "a race of a grant with the end of the time",
        "in round",
        round as usize,
    );
    let held = lock(rt, alloc, cluster, node(rt, last), 1, r(), Mode::Exclusive);
    assert_same(rt, at, &held.is_ok(), &true);
    let time = Duration::from_micros(round % MOST_READINGS);
    let waits = move || lock_within(&TickingClock::new(rt), alloc, cluster, time);
    let leaves = move || unlock(rt, alloc, cluster, node(rt, last), 1);
    // Whichever thread begins first.
    let (came, gone) = if round % 2 == 0 {
        thread::join(rt, waits, leaves)
    } else {
        let (gone, came) = thread::join(rt, leaves, waits);
        (came, gone)
    };
    assert_same(rt, at, &gone, &Ok(()));
    was_let_in(rt, alloc, cluster, at, came)
}

/// Returns whether client 2 was let in, by what it got. Asserts that nothing is left after it has left the name.
fn was_let_in<R: Wait + Abort>(
    rt: &R,
    alloc: Global,
    cluster: &Cluster<OpenGate>,
    at: At<'_>,
    came: Result<Option<Grant>, CallError>,
) -> bool {
    match came {
        Ok(Some(grant)) => {
            let holder = Some(grant.entry.client);
            assert_same(rt, at, &left(rt, cluster), &(0, 0, holder));
            assert_same(rt, at, &unlock(rt, alloc, cluster, node_one(), 2), &Ok(()));
            true
        }
        Ok(None) => {
            assert_same(rt, at, &left(rt, cluster), &(0, 0, None));
            false
        }
        Err(refused) => {
            assert_same(rt, at, &Some(refused), &None);
            false
        }
    }
}

/// Has a grant race with the end of the time very often, and asserts that both come first in some rounds.
fn race_often<R: Wait + Threads + Sync + Abort>(
    rt: &R,
    alloc: Global,
    cluster: &Cluster<OpenGate>,
    last: u16,
) {
    let (mut some_in_time, mut some_too_late) = (false, false);
    for round in 0..ROUNDS {
        if race(rt, alloc, cluster, last, round) {
            some_in_time = true;
        } else {
            some_too_late = true;
        }
    }
    let both = At("of all rounds, some end in a grant and some do not", "", 0);
    assert_same(rt, both, &(some_in_time, some_too_late), &(true, true));
}

#[test]
fn a_grant_or_the_end_of_the_time_comes_first_and_leaves_nothing_behind(rt: HostRuntime) {
    let alloc = rt.alloc();
    for cluster in &clusters_of(alloc, 1, 0, OpenGate) {
        // The time ends while client 1 still holds the name.
        let at = At("while another client holds the name", "", 0);
        let held = lock(&rt, alloc, cluster, node_one(), 1, r(), Mode::Exclusive);
        assert_same(&rt, at, &held.is_ok(), &true);
        let over = lock_within(&rt, alloc, cluster, Duration::from_millis(1));
        assert_same(&rt, at, &over, &Ok(None));
        assert_same(&rt, at, &left(&rt, cluster), &(0, 0, Some(1)));
        assert_same(
            &rt,
            at,
            &unlock(&rt, alloc, cluster, node_one(), 1),
            &Ok(()),
        );
        race_often(&rt, alloc, cluster, 1);
    }
}

#[test]
fn a_reply_or_the_end_of_the_time_comes_first_and_leaves_nothing_behind(rt: HostRuntime) {
    let alloc = rt.alloc();
    let rt = &rt;
    let clusters = clusters_of(alloc, 2, 0, OpenGate);
    for cluster in &clusters {
        cluster.run(rt, alloc, move || race_often(rt, alloc, cluster, 2));
    }
    let books = books_at_the_end(alloc, clusters);
    let at = At("the books of two nodes settle", "", 0);
    assert_same(rt, at, &settled(alloc, &books, &[]).is_some(), &true);
}

/// A clock that is read twice: when the time of client 2 begins, and when it is over. Before it answers that, client 2
/// gives up by a call, and another thread asks with the client's number.
#[derive(Drop)]
struct ReusingClock<'a, R> {
    rt: &'a R,
    alloc: Global,
    cluster: &'a Cluster<OpenGate>,
    readings: AtomicU64,
    given_up: &'a AtomicU64,
}

impl<R: Wait> Wait for ReusingClock<'_, R> {}

impl<R: Wait + Abort> Clock for ReusingClock<'_, R> {
    fn monotonic(&self) -> io::Result<Duration> {
        if self.readings.fetch_add(1, Ordering::SeqCst) == 0 {
            return Ok(Duration::ZERO);
        }
        let at = At("client 2 gives up by a call", "", 0);
        let given_up = self.cluster.cancel(self.rt, self.alloc, node_one(), 2, r());
        assert_same(self.rt, at, &given_up, &Ok(()));
        self.given_up.store(1, Ordering::SeqCst);
        for _ in 0..MOST_LOOKS {
            if site(self.rt, self.cluster, 1).queued(self.rt) == 1 {
                break;
            }
            thread::yield_now();
        }
        Ok(Duration::from_secs(1))
    }

    fn since_1970(&self) -> io::Result<Duration> {
        self.monotonic()
    }
}

/// Has the time of client 2 end, when another thread has asked with its number. Then client 1 leaves. Returns what
/// client 2 got.
fn end_the_first_time<R: Wait + Abort>(
    rt: &R,
    alloc: Global,
    cluster: &Cluster<OpenGate>,
    given_up: &AtomicU64,
) -> Result<Option<Grant>, CallError> {
    let at = At("after the time of the first request", "", 0);
    let clock = ReusingClock {
        rt,
        alloc,
        cluster,
        readings: AtomicU64::new(0),
        given_up,
    };
    let came = lock_within(&clock, alloc, cluster, Duration::from_secs(1));
    assert_same(rt, at, &left(rt, cluster), &(0, 1, Some(1)));
    assert_same(rt, at, &unlock(rt, alloc, cluster, node_one(), 1), &Ok(()));
    came
}

/// The request whose time ends is given up by its ticket. The other one has the same client and name, and goes on.
#[test]
fn the_end_of_a_time_gives_up_no_other_request_of_the_client(rt: HostRuntime) {
    let alloc = rt.alloc();
    let rt = &rt;
    let (at, given_up) = (
        At("two threads use one client number", "", 0),
        AtomicU64::new(0),
    );
    let given_up = &given_up;
    for cluster in &clusters_of(alloc, 1, 0, OpenGate) {
        let held = lock(rt, alloc, cluster, node_one(), 1, r(), Mode::Exclusive);
        assert_same(rt, at, &held.is_ok(), &true);
        let (first, second) = thread::join(
            rt,
            move || end_the_first_time(rt, alloc, cluster, given_up),
            move || {
                let _given_up = comes_to(given_up, 1);
                lock(rt, alloc, cluster, node_one(), 2, r(), Mode::Exclusive)
            },
        );
        assert_same(rt, at, &first, &Err(CallError::Site(SiteError::Cancelled)));
        assert_same(rt, at, &second.is_ok(), &true);
        assert_same(rt, at, &left(rt, cluster), &(0, 0, Some(2)));
    }
}

/// Has client 2 of node 1 use `r` if it comes within this time. Returns which client used it, and whether it gave it
/// back.
///
/// # Errors
///
/// Why it does not.
fn use_within<R: Wait + Clock>(
    rt: &R,
    alloc: Global,
    cluster: &Cluster<OpenGate>,
    time: Duration,
) -> Result<Option<(u32, bool)>, CallError> {
    let (mode, does) = (Mode::Exclusive, |grant: Grant| grant.entry.client);
    let used = cluster.with_lock_within(rt, alloc, node_one(), 2, r(), mode, time, does);
    match used {
        Ok(Some(held)) => Ok(Some((held.value, held.unlocked.is_ok()))),
        Ok(None) => Ok(None),
        Err(refused) => Err(refused),
    }
}

#[test]
fn a_name_that_comes_in_time_is_used_and_given_back(rt: HostRuntime) {
    let alloc = rt.alloc();
    for cluster in &clusters_of(alloc, 1, 0, OpenGate) {
        let (at, time) = (At("a name used within a time", "", 0), Duration::ZERO);
        // A lone node lets its client in by its own ask.
        let used = use_within(&rt, alloc, cluster, time);
        assert_same(&rt, at, &used, &Ok(Some((2, true))));
        assert_same(&rt, at, &left(&rt, cluster), &(0, 0, None));
        let held = lock(&rt, alloc, cluster, node_one(), 1, r(), Mode::Exclusive);
        assert_same(&rt, at, &held.is_ok(), &true);
        assert_same(&rt, at, &use_within(&rt, alloc, cluster, time), &Ok(None));
        assert_same(&rt, at, &left(&rt, cluster), &(0, 0, Some(1)));
    }
}

/// Waits until a request of node 1 waits, and has its client give up.
fn cancel_when_it_waits<R: Wait + Abort>(
    rt: &R,
    alloc: Global,
    cluster: &Cluster<OpenGate>,
) -> Result<(), CallError> {
    for _ in 0..MOST_LOOKS {
        if site(rt, cluster, 1).waiting(rt) == 1 {
            break;
        }
        thread::yield_now();
    }
    cluster.cancel(rt, alloc, node_one(), 1, r())
}

#[test]
fn a_client_that_gives_up_wakes_its_thread(rt: HostRuntime) {
    let alloc = rt.alloc();
    let rt = &rt;
    // Node 2 takes no frame, so the client waits for as long as it likes.
    for cluster in &clusters_of(alloc, 2, 0, OpenGate) {
        let at = At("a client that gives up", "", 0);
        let (came, given_up) = thread::join(
            rt,
            move || lock(rt, alloc, cluster, node_one(), 1, r(), Mode::Exclusive),
            move || cancel_when_it_waits(rt, alloc, cluster),
        );
        assert_same(rt, at, &given_up, &Ok(()));
        assert_same(rt, at, &came, &Err(CallError::Site(SiteError::Cancelled)));
        assert_same(rt, at, &left(rt, cluster), &(0, 0, None));
        assert_same(rt, at, &site(rt, cluster, 1).events(rt), &2);
    }
}

#[test]
fn a_node_that_forgets_goes_on_with_its_greatest_number(rt: HostRuntime) {
    let alloc = rt.alloc();
    for cluster in &clusters_of(alloc, 1, 6, OpenGate) {
        for _ in 0..3 {
            let _held = lock(&rt, alloc, cluster, node_one(), 1, r(), Mode::Exclusive);
            let _left = unlock(&rt, alloc, cluster, node_one(), 1);
        }
        let at = At("a node that forgets", "", 0);
        assert_same(&rt, at, &cluster.forget(&rt, alloc, node_one()), &Ok(()));
        let next = match lock(&rt, alloc, cluster, node_one(), 1, q(), Mode::Exclusive) {
            Ok(grant) => Some(grant.entry.stamp.seq),
            Err(_) => None,
        };
        assert_same(&rt, at, &next, &Some(10));
    }
}
