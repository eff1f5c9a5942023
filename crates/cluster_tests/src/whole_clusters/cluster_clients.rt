//! Clients of a whole cluster on threads of their own, and what a watchdog sees of them. A trace cannot tell their
//! acts: they wait for threads, are refused, and stop the cluster.
use crate::whole_clusters::cluster_asserting::{assert_comes_to, assert_same, fail_at};
use crate::whole_clusters::cluster_calls::{
    books_at_the_end, clusters_of, lock, site, site_of, unlock, use_name,
};
use crate::whole_clusters::cluster_values::{entry, node, settled};
use crate::whole_clusters::plays::{Acts, follow};
use Act::{
    ClosesPost, HasGranted, HasNoNode, HaveEnded, LetsSleep, Locks, RefusesToLock, RefusesToUnlock,
    RefusesToUse, Sees, Starts, Stops, Unlocks, UsesUntilAStop,
};
use ra_cluster::{Book, CallError, Cluster, Grant, OpenGate, Site, SiteError, Stop};
use ra_stamp::{Mode, Name};
use std::alloc::Global;
use std::process::Abort;
use std::sync::atomic::AtomicU64;
use std::sync::{Mutex, Wait};
use std::thread;
use std::thread::Threads;
use test_support::{At, r};

/// What a watchdog sees of a node: its fault, the client that holds `r` there, how many requests wait and how many
/// clients are queued, and how many events its book has.
#[derive(Clone, Copy)]
pub struct Seen {
    /// Its fault.
    pub fault: Option<Stop>,
    /// The client that holds `r`.
    pub holder: Option<u32>,
    /// How many requests wait.
    pub waiting: u64,
    /// How many clients are queued.
    pub queued: u128,
    /// How many events its book has.
    pub events: u64,
}

/// A node before its first event.
pub const QUIET: Seen = Seen {
    fault: None,
    holder: None,
    waiting: 0,
    queued: 0,
    events: 0,
};

/// What a thread of its own does. Locks are exclusive, and of `r` unless it is said otherwise.
#[derive(Clone, Copy)]
pub enum Task {
    /// It carries the frames of this node.
    Carries(u16),
    /// At this node, this client locks `r`, and gets a grant with this number.
    Gets(u16, u32, u64),
    /// At this node, this client locks `r`, and learns the cause of the stop.
    IsTold(u16, u32),
    /// At this node, this client locks `s`, and learns the cause of the stop.
    IsToldOfS(u16, u32),
    /// At this node, this client locks `r`, looks whether it holds it, and unlocks it. Its grant is told.
    Uses(u16, u32),
}

/// What a cluster does or shows. Locks are exclusive, and all are of `r`.
#[derive(Clone, Copy)]
pub enum Act {
    /// A thread of its own does this.
    Starts(Task),
    /// At this node, this client locks `r`, with this number.
    Locks(u16, u32, u64),
    /// At this node, this client is refused for this reason.
    RefusesToLock(u16, u32, CallError),
    /// At this node, this client unlocks `r`.
    Unlocks(u16, u32),
    /// At this node, this client does not unlock `r`, for this reason.
    RefusesToUnlock(u16, u32, CallError),
    /// At this node, this client locks `r` and looks whether it holds it. Meanwhile the cluster is stopped, so that it
    /// does not give `r` back, for this reason.
    UsesUntilAStop(u16, u32, SiteError),
    /// At this node, this client would do so, but does not lock `r`, for this reason.
    RefusesToUse(u16, u32, CallError),
    /// There is no such node: it has no site, and its thread returns at once.
    HasNoNode(u16),
    /// A watchdog sees this of a node once its book has that many events.
    Sees(u16, Seen),
    /// The last grant that was told belongs to this client of this node, with this number.
    HasGranted(u16, u32, u64),
    /// This many threads come to their end.
    HaveEnded(u64),
    /// The threads yield a few hundred times, so that clients that are about to sleep most likely do.
    LetsSleep,
    /// The post is closed. The threads that carry frames go on until then.
    ClosesPost,
    /// The cluster is stopped.
    Stops,
}

/// What a cluster does and shows, in a few words.
pub struct Row {
    /// The words.
    pub words: &'static str,
    /// How many nodes it has.
    pub nodes: u16,
    /// The start: the numbers of each name come after it.
    pub start: u64,
    /// What it does and shows, in order.
    pub acts: &'static [Act],
    /// How many requests and messages the run has that its books settle into with the last grant that was told, if that
    /// is looked at.
    pub settles: Option<(u128, u128)>,
}

/// What threads share that do and show a row.
#[derive(Drop)]
struct Stage<'a> {
    row: &'static Row,
    cluster: &'a Cluster<OpenGate>,
    /// Why the cluster is stopped.
    cause: Stop,
    /// The grant of the last client that used `r`.
    grant: Mutex<Option<Grant>>,
    /// How many threads have ended.
    ended: AtomicU64,
}

/// Returns the name `s`.
fn s() -> Name {
    Name::new(b"s").unwrap()
}

/// Looks many times, until the book of a node has this many events.
fn await_events<R: Wait>(rt: &R, site: &Site, events: u64) {
    for _ in 0..1_000_000u32 {
        if site.events(rt) >= events {
            return;
        }
        thread::yield_now();
    }
}

/// Returns the client that holds `r` at a node.
fn holder_at<R: Wait>(rt: &R, site: &Site) -> Option<u32> {
    match site.holder(rt, &r()) {
        Some(entry) => Some(entry.client),
        None => None,
    }
}

/// Asserts that a watchdog sees this of a node once its book has that many events.
fn assert_seen<R: Wait + Abort>(rt: &R, at: At<'_>, site: &Site, seen: Seen) {
    await_events(rt, site, seen.events);
    let who = (site.fault(rt), holder_at(rt, site));
    assert_same(rt, at, &who, &(seen.fault, seen.holder));
    let counts = (site.waiting(rt), site.queued(rt), site.events(rt));
    assert_same(rt, at, &counts, &(seen.waiting, seen.queued, seen.events));
}

/// Asserts that a client locks a name at a node with this number, or does not, for this reason.
fn locks<R: AllocGlobal + Wait + Abort>(
    rt: &R,
    at: At<'_>,
    stage: &Stage<'_>,
    number: u16,
    client: u32,
    name: Name,
    due: Result<u64, CallError>,
) {
    let (node, mode) = (node(rt, number), Mode::Exclusive);
    let came = lock(rt, rt.alloc(), stage.cluster, node, client, name, mode);
    let due = match due {
        Ok(seq) => Ok(grant_of(rt, number, client, seq)),
        Err(fault) => Err(fault),
    };
    assert_same(rt, at, &came, &due);
}

/// Returns the grant of `r` to a client of a node, with this number.
fn grant_of(rt: &impl Abort, number: u16, client: u32, seq: u64) -> Grant {
    let entry = entry(rt, number, client, Mode::Exclusive, seq);
    Grant { entry }
}

/// Asserts that a client locks `r` and holds it then, and gives it back or does not, for this reason; or does not lock
/// it, for this reason. If there is a cause, the cluster is stopped while the client holds `r`. Tells its grant.
fn uses<R: AllocGlobal + Wait + Abort>(
    rt: &R,
    at: At<'_>,
    stage: &Stage<'_>,
    number: u16,
    client: u32,
    cause: Option<Stop>,
    due: Result<Result<(), SiteError>, CallError>,
) {
    let node = node(rt, number);
    let came = match use_name(rt, rt.alloc(), stage.cluster, node, client, cause) {
        Ok(held) => {
            let seq = held.grant.entry.stamp.seq;
            *stage.grant.lock(rt) = Some(held.grant);
            let holder = entry(rt, number, client, Mode::Exclusive, seq);
            assert_same(rt, at, &held.value, &Some(holder));
            Ok(held.unlocked)
        }
        Err(refused) => Err(refused),
    };
    assert_same(rt, at, &came, &due);
}

/// Asserts that a client unlocks `r` at a node, or does not, for this reason.
fn unlocks<R: AllocGlobal + Wait + Abort>(
    rt: &R,
    at: At<'_>,
    stage: &Stage<'_>,
    number: u16,
    client: u32,
    due: Result<(), CallError>,
) {
    let came = unlock(rt, rt.alloc(), stage.cluster, node(rt, number), client);
    assert_same(rt, at, &came, &due);
}

/// Asserts that there is no such node: it has no site, and its thread returns at once.
fn assert_no_node<R: AllocGlobal + Wait + Abort>(
    rt: &R,
    at: At<'_>,
    stage: &Stage<'_>,
    number: u16,
) {
    stage.cluster.pump(rt, rt.alloc(), node(rt, number));
    let came = match site_of(stage.cluster, number) {
        Some(site) => Some(site.node()),
        None => None,
    };
    assert_same(rt, at, &came, &None);
}

/// Yields a few hundred times. Nothing tells that the others sleep then.
fn let_sleep() {
    for _ in 0..300u32 {
        thread::yield_now();
    }
}

/// Does what a thread of its own does.
fn work<R: AllocGlobal + Wait + Abort>(rt: &R, at: At<'_>, stage: &Stage<'_>, task: Task) {
    let told = CallError::Site(SiteError::Stopped(stage.cause));
    match task {
        Task::Carries(number) => stage.cluster.pump(rt, rt.alloc(), node(rt, number)),
        Task::Gets(number, client, seq) => locks(rt, at, stage, number, client, r(), Ok(seq)),
        Task::IsTold(number, client) => locks(rt, at, stage, number, client, r(), Err(told)),
        Task::IsToldOfS(number, client) => locks(rt, at, stage, number, client, s(), Err(told)),
        Task::Uses(number, client) => uses(rt, at, stage, number, client, None, Ok(Ok(()))),
    }
}

/// Has a client do this, or be refused, on the thread of the test.
fn call<R: AllocGlobal + Wait + Abort>(rt: &R, at: At<'_>, stage: &Stage<'_>, act: Act) {
    match act {
        Locks(number, client, seq) => locks(rt, at, stage, number, client, r(), Ok(seq)),
        RefusesToLock(number, client, fault) => {
            locks(rt, at, stage, number, client, r(), Err(fault))
        }
        Unlocks(number, client) => unlocks(rt, at, stage, number, client, Ok(())),
        RefusesToUnlock(number, client, fault) => {
            unlocks(rt, at, stage, number, client, Err(fault))
        }
        UsesUntilAStop(number, client, fault) => {
            uses(
                rt,
                at,
                stage,
                number,
                client,
                Some(stage.cause),
                Ok(Err(fault)),
            )
        }
        RefusesToUse(number, client, fault) => {
            uses(rt, at, stage, number, client, None, Err(fault))
        }
        _ => fail_at(rt, at, "this is no call"),
    }
}

impl Acts for Stage<'_> {
    fn starts_a_thread(&self, place: usize) -> bool {
        matches!(self.row.acts.get(place), Some(Starts(_)))
    }

    fn act<R: AllocGlobal + Wait + Abort>(&self, rt: &R, place: usize) {
        let at = At(self.row.words, "act", place.saturating_add(1));
        let Some(act) = self.row.acts.get(place) else {
            fail_at(rt, at, "there is no such act");
        };
        match *act {
            Starts(task) => work(rt, at, self, task),
            HasGranted(number, client, seq) => {
                let (came, due) = (*self.grant.lock(rt), grant_of(rt, number, client, seq));
                assert_same(rt, at, &came, &Some(due));
            }
            HasNoNode(number) => assert_no_node(rt, at, self, number),
            Sees(number, seen) => assert_seen(rt, at, site(rt, self.cluster, number), seen),
            HaveEnded(threads) => assert_comes_to(rt, at, &self.ended, threads),
            LetsSleep => let_sleep(),
            ClosesPost => self.cluster.close_post(rt),
            Stops => self.cluster.stop(rt, self.cause),
            other => call(rt, at, self, other),
        }
    }
}

/// Has a cluster do and show all of a row. It may be stopped only for this cause. Returns the last grant that was
/// told.
fn act_through<R: AllocGlobal + Threads + Wait + Abort + Sync>(
    rt: &R,
    cluster: &Cluster<OpenGate>,
    row: &'static Row,
    cause: Stop,
) -> Option<Grant> {
    let stage = Stage {
        row,
        cluster,
        cause,
        grant: Mutex::new(None),
        ended: AtomicU64::new(0),
    };
    follow(rt, row.words, &stage, row.acts.len(), &stage.ended);
    stage.grant.into_inner()
}

/// Returns how many requests and messages the run has that the books settle into with a grant, or `None` if they do not
/// settle.
fn totals_of(alloc: Global, books: &[Book], grant: Grant) -> Option<(u128, u128)> {
    match settled(alloc, books, &[grant]) {
        Some(settled) => Some((settled.report.requests, settled.report.sent)),
        None => None,
    }
}

/// Has a cluster do and show all of a row. It may be stopped only for this cause. Ends the test if anything else
/// happens.
pub fn perform<R: AllocGlobal + Threads + Wait + Abort + Sync>(
    rt: &R,
    row: &'static Row,
    cause: Stop,
) {
    let at = At(row.words, "after act", row.acts.len());
    let clusters = clusters_of(rt.alloc(), row.nodes, row.start, OpenGate);
    let grant = match clusters.first() {
        Some(cluster) => act_through(rt, cluster, row, cause),
        None => fail_at(rt, at, "there is no cluster"),
    };
    let books = books_at_the_end(rt.alloc(), clusters);
    if row.settles.is_some() {
        let came = match grant {
            Some(grant) => totals_of(rt.alloc(), &books, grant),
            None => None,
        };
        assert_same(rt, at, &came, &row.settles);
    }
}
