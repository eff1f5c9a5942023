//! What a cluster of sites with a post does and shows, step by step, with clients on threads of their own. A trace
//! cannot tell it: calls are refused, nodes are stopped, the post is closed, and steps wait for threads.
use crate::site_tests::site_cluster::{Cluster, gated_cluster, loses_inbox, send, taken_from};
use crate::site_tests::site_ends::{Shown, after_all, assert_all_shown};
use crate::whole_clusters::cluster_asserting::{assert_comes_to, assert_same, fail_at};
use crate::whole_clusters::cluster_values::{entry, request};
use crate::whole_clusters::plays::{Acts, follow};
use Step::{
    ClosesPost, ComesToBeStopped, ComesToStep, HasLeft, HasLeftOne, HasStepped, HaveEnded, LetsGo,
    LetsSleep, Locks, Pumps, RefusesToLock, RefusesToSend, RefusesToUnlock, Sends, Starts, Stays,
    Stops, StopsAll, Unlocks,
};
use ra_cluster::{
    BookError, BookEvent, BookKind, Grant, OpenGate, SendError, Site, SiteError, Stop,
};
use ra_frame::Frame;
use ra_stamp::Mode;
use std::alloc::Global;
use std::process::Abort;
use std::sync::Wait;
use std::sync::atomic::Ordering;
use std::thread;
use std::thread::Threads;
use test_support::{At, part};

/// What a thread of its own does. All locks are exclusive.
#[derive(Clone, Copy)]
pub enum Task {
    /// At this node, this client locks `r`. What it gets is told.
    Asks(u16, u32),
    /// At this node, this client locks `r` and unlocks it.
    Uses(u16, u32),
    /// The site of this node takes the frames from its inbox, and asks no gate.
    Carries(u16),
    /// At this node, client 1 locks `r` and unlocks it, very often or until it is refused, and asks no gate. At this
    /// turn it closes the post while it holds `r`, and in any case at its end.
    UsesOften(u16, Option<u32>),
}

/// What a cluster does or shows. All requests are for `r`, exclusively. If no client is named, it is client 1 of the
/// node, whose lock is the first of `r`.
#[derive(Clone, Copy)]
pub enum Step {
    /// The post sends a REQUEST with this clock from one node to another.
    Sends {
        clock: u64,
        from: u16,
        to: u16,
    },
    /// It refuses to send one with clock 1 from the first node to the second, for this reason.
    RefusesToSend(u16, u16, SendError),
    /// The post is closed.
    ClosesPost,
    /// The site of this node is stopped for this reason.
    Stops(u16, Stop),
    /// The sites of all nodes are.
    StopsAll(Stop),
    /// The client of this node locks `r`.
    Locks(u16),
    /// This client of this node does not lock `r`, for this reason.
    RefusesToLock(u16, u32, SiteError),
    /// The client of this node unlocks `r`.
    Unlocks(u16),
    /// This client of this node does not unlock `r`, for this reason.
    RefusesToUnlock(u16, u32, SiteError),
    /// The site of this node takes the frames from the inbox at its place.
    Pumps(u16),
    /// After the post is closed, a second site of this node takes all that is left in the inbox at this place: this
    /// many frames.
    HasLeft {
        place: usize,
        node: u16,
        frames: u64,
    },
    /// After the post is closed, a second site of node 2 takes all that is left in its inbox: one REQUEST, which node 1
    /// sent with clock 1.
    HasLeftOne,
    /// The gate has counted this many steps.
    HasStepped(u64),
    /// A thread of its own does this.
    Starts(Task),
    /// The scene goes on when the gate has counted this many steps. A site counts a step while its desk is locked, so
    /// what follows comes after that step.
    ComesToStep(u64),
    /// The threads yield a few hundred times, so that a client of node 1 which is about to sleep most likely does.
    LetsSleep,
    /// The site of this node comes to be stopped.
    ComesToBeStopped(u16),
    /// The gate lets the thread go that it keeps.
    LetsGo,
    /// This many threads come to their end.
    HaveEnded(u64),
    /// For a while no more than this many do.
    Stays(u64),
}

/// What happens to the inboxes before the first step.
#[derive(Clone, Copy)]
pub enum Gone {
    /// All are kept.
    Nothing,
    /// The one at this place is dropped, and those after it move one place to the front.
    Inbox(usize),
    /// All are dropped.
    Inboxes,
}

/// What a cluster does and shows, in a few words.
pub struct Row {
    /// The words.
    pub words: &'static str,
    /// How many nodes it has.
    pub nodes: u16,
    /// The start: the numbers of `r` come after it.
    pub start: u64,
    /// How many steps its gate lets pass.
    pub most: u64,
    /// At which node the gate keeps a thread, or 0.
    pub kept: u16,
    /// Which inboxes are gone.
    pub gone: Gone,
    /// The steps, in order.
    pub steps: &'static [Step],
    /// What is shown at the end.
    pub shown: &'static [Shown],
}

/// A cluster of two nodes from number 0 with all its inboxes, and a gate that lets all steps pass.
pub const TWO_NODES: Row = Row {
    words: "",
    nodes: 2,
    start: 0,
    most: u64::MAX,
    kept: 0,
    gone: Gone::Nothing,
    steps: &[],
    shown: &[],
};

/// Asserts that a REQUEST from the first node to the second is sent in a frame with this clock, or is refused for this
/// reason.
fn sends<R: AllocGlobal + Wait + Abort>(
    rt: &R,
    at: At<'_>,
    all: &Cluster,
    clock: u64,
    ends: (u16, u16),
    due: Result<(), Option<SendError>>,
) {
    let message = request(rt, ends.0, ends.1, Mode::Exclusive);
    let came = send(rt, rt.alloc(), &all.post, clock, message);
    assert_same(rt, at, &came, &due);
}

/// Has a client lock `r` at a node.
fn lock<R: AllocGlobal + Wait + Abort>(
    rt: &R,
    all: &Cluster,
    number: u16,
    client: u32,
) -> Result<Grant, SiteError> {
    let site = all.site(rt, number);
    all.lock_at(rt, rt.alloc(), site, client, Mode::Exclusive, &all.gate)
}

/// Asserts that client 1 of a node locks `r`, with the first number.
fn locks<R: AllocGlobal + Wait + Abort>(rt: &R, at: At<'_>, all: &Cluster, number: u16) {
    let first = all.start.wrapping_add(1);
    let entry = entry(rt, number, 1, Mode::Exclusive, first);
    assert_same(rt, at, &lock(rt, all, number, 1), &Ok(Grant { entry }));
}

/// Asserts that a client of a node unlocks `r`, or does not, for this reason.
fn unlocks<R: AllocGlobal + Wait + Abort>(
    rt: &R,
    at: At<'_>,
    all: &Cluster,
    number: u16,
    client: u32,
    due: Result<(), SiteError>,
) {
    let site = all.site(rt, number);
    let came = all.unlock_at(rt, rt.alloc(), site, client, &all.gate);
    assert_same(rt, at, &came, &due);
}

/// Returns why client 2, which holds nothing, cannot unlock `r` at a site: `NotHeld`, or `Failed` if the site is
/// stopped. No gate is asked.
fn refusal<R: Wait>(rt: &R, alloc: Global, all: &Cluster, site: &Site) -> Option<SiteError> {
    all.unlock_at(rt, alloc, site, 2, &OpenGate).err()
}

/// The refusal of a site that is stopped.
const FAILED: SiteError = SiteError::Refused(BookError::Failed);

/// Looks many times, and returns that refusal once the site is stopped, or otherwise the last one.
fn last_refusal<R: Wait>(rt: &R, alloc: Global, all: &Cluster, site: &Site) -> Option<SiteError> {
    for _ in 0..1_000_000u32 {
        if refusal(rt, alloc, all, site) == Some(FAILED) {
            return Some(FAILED);
        }
        thread::yield_now();
    }
    refusal(rt, alloc, all, site)
}

/// Yields a few hundred times, each time after it had the lock of the site of node 1. Nothing can tell that another
/// client sleeps then.
fn let_sleep<R: Wait>(rt: &R, alloc: Global, all: &Cluster, site: &Site) {
    for _ in 0..300u32 {
        // Client 1 holds the name, so it is refused, and this wakes nobody.
        let _busy = all.lock_at(rt, alloc, site, 1, Mode::Shared, &OpenGate);
        thread::yield_now();
    }
}

/// Stops each site.
fn stop_all<R: Wait>(rt: &R, all: &Cluster, stop: Stop) {
    for site in &all.sites {
        site.stop(rt, stop);
    }
}

/// Asserts that this many frames are left in the inbox at a place, which belongs to the node with this number.
fn assert_left<R: AllocGlobal + Wait + Abort>(
    rt: &R,
    at: At<'_>,
    all: &Cluster,
    place: usize,
    number: u16,
    frames: u64,
) {
    let came = match taken_from(rt, all, place, number) {
        Some((events, _)) => Some(events),
        None => None,
    };
    assert_same(rt, at, &came, &Some(frames));
}

/// Asserts that only the REQUEST from node 1 is left in the inbox of node 2, in a frame with clock 1.
fn assert_one_left<R: AllocGlobal + Wait + Abort>(rt: &R, at: At<'_>, all: &Cluster) {
    let message = request(rt, 1, 2, Mode::Exclusive);
    let kind = BookKind::Receive(Frame { clock: 1, message });
    let first = Some(BookEvent { clock: 2, kind });
    assert_same(rt, at, &taken_from(rt, all, 1, 2), &Some((1, first)));
}

/// Returns how many threads have ended, once that differs from this number, or after a while in which others may go on.
fn ended_for_a_while(all: &Cluster, ended: u64) -> u64 {
    for _ in 0..3_000u32 {
        let came = all.ended.load(Ordering::SeqCst);
        if came != ended {
            return came;
        }
        thread::yield_now();
    }
    ended
}

/// Does this with the post, or asserts that it is shown.
fn act_at_the_post<R: AllocGlobal + Wait + Abort>(rt: &R, at: At<'_>, all: &Cluster, step: Step) {
    match step {
        Sends { clock, from, to } => sends(rt, at, all, clock, (from, to), Ok(())),
        RefusesToSend(from, to, fault) => sends(rt, at, all, 1, (from, to), Err(Some(fault))),
        Pumps(number) => all.pump_number(rt, number, &all.gate),
        HasLeft {
            place,
            node,
            frames,
        } => assert_left(rt, at, all, place, node, frames),
        HasLeftOne => assert_one_left(rt, at, all),
        ClosesPost => all.post.close(rt),
        _ => fail_at(rt, at, "this is done elsewhere"),
    }
}

/// Does this with a site, or asserts that it is shown.
fn act_at_a_site<R: AllocGlobal + Wait + Abort>(rt: &R, at: At<'_>, all: &Cluster, step: Step) {
    match step {
        Stops(number, stop) => all.site(rt, number).stop(rt, stop),
        StopsAll(stop) => stop_all(rt, all, stop),
        Locks(number) => locks(rt, at, all, number),
        RefusesToLock(number, client, fault) => {
            assert_same(rt, at, &lock(rt, all, number, client), &Err(fault))
        }
        Unlocks(number) => unlocks(rt, at, all, number, 1, Ok(())),
        RefusesToUnlock(number, client, fault) => {
            unlocks(rt, at, all, number, client, Err(fault))
        }
        ComesToBeStopped(number) => {
            let came = last_refusal(rt, rt.alloc(), all, all.site(rt, number));
            assert_same(rt, at, &came, &Some(FAILED));
        }
        LetsSleep => let_sleep(rt, rt.alloc(), all, all.site(rt, 1)),
        _ => act_at_the_post(rt, at, all, step),
    }
}

/// Has a client of a node lock and unlock `r`, very often or until it is refused.
fn use_often<R: AllocGlobal + Wait + Abort>(
    rt: &R,
    at: At<'_>,
    all: &Cluster,
    site: &Site,
    closing: Option<u32>,
) {
    for turn in 0..10_000u32 {
        let Ok(grant) = all.lock_at(rt, rt.alloc(), site, 1, Mode::Exclusive, &OpenGate) else {
            return;
        };
        if all.grants.lock(rt).push(grant).is_err() {
            fail_at(rt, at, "there is no memory for the grant");
        }
        if closing == Some(turn) {
            all.post.close(rt);
        }
        let came = all.unlock_at(rt, rt.alloc(), site, 1, &OpenGate);
        // The node is stopped, so that no other node need be.
        if came == Err(FAILED) {
            return;
        }
        assert_same(rt, at, &came, &Ok(()));
    }
}

/// Does what a thread of its own does.
fn work<R: AllocGlobal + Wait + Abort>(rt: &R, at: At<'_>, all: &Cluster, task: Task) {
    match task {
        Task::Asks(number, client) => {
            let answer = lock(rt, all, number, client);
            *all.answer.lock(rt) = Some(answer);
        }
        Task::Uses(number, client) => {
            let refused = lock(rt, all, number, client).err();
            assert_same(rt, at, &refused, &None);
            unlocks(rt, at, all, number, client, Ok(()));
        }
        Task::Carries(number) => all.pump_number(rt, number, &OpenGate),
        Task::UsesOften(number, closing) => {
            use_often(rt, at, all, all.site(rt, number), closing);
            // If it came to no such turn, the threads that carry frames would wait forever.
            if closing.is_some() {
                all.post.close(rt);
            }
        }
    }
}

/// A cluster, and what it does and shows.
#[derive(Drop)]
struct Stage<'a> {
    all: &'a Cluster,
    row: &'static Row,
}

impl Acts for Stage<'_> {
    fn starts_a_thread(&self, place: usize) -> bool {
        matches!(self.row.steps.get(place), Some(Starts(_)))
    }

    fn act<R: AllocGlobal + Wait + Abort>(&self, rt: &R, place: usize) {
        let (at, all) = (
            At(self.row.words, "step", place.saturating_add(1)),
            self.all,
        );
        let Some(step) = self.row.steps.get(place) else {
            fail_at(rt, at, "there is no such step");
        };
        match *step {
            Starts(task) => work(rt, at, all, task),
            HasStepped(steps) => {
                assert_same(
                    rt,
                    at,
                    &all.gate.counting.steps.load(Ordering::SeqCst),
                    &steps,
                )
            }
            ComesToStep(steps) => assert_comes_to(rt, at, &all.gate.counting.steps, steps),
            LetsGo => {
                let before = all.gate.goes.fetch_add(1, Ordering::SeqCst);
                assert_same(rt, at, &before, &0);
            }
            HaveEnded(threads) => assert_comes_to(rt, at, &all.ended, threads),
            Stays(threads) => assert_same(rt, at, &ended_for_a_while(all, threads), &threads),
            other => act_at_a_site(rt, at, all, other),
        }
    }
}

/// Drops the inboxes that are to be gone. Returns whether there were such.
fn lose(all: &mut Cluster, gone: Gone) -> bool {
    match gone {
        Gone::Nothing => true,
        Gone::Inbox(place) => loses_inbox(all, place),
        Gone::Inboxes => {
            all.inboxes.clear();
            true
        }
    }
}

/// Has a cluster do and show all steps of a row.
fn step_through<R: AllocGlobal + Threads + Wait + Abort + Sync>(
    rt: &R,
    all: &mut Cluster,
    row: &'static Row,
) {
    if !lose(all, row.gone) {
        fail_at(
            rt,
            part(row.words, "the inbox that is gone"),
            "there is none",
        );
    }
    let all = &*all;
    follow(
        rt,
        row.words,
        &Stage { all, row },
        row.steps.len(),
        &all.ended,
    );
}

/// Has a cluster do and show all of a row. Ends the test if anything else happens.
pub fn perform<R: AllocGlobal + Threads + Wait + Abort + Sync>(rt: &R, row: &'static Row) {
    let mut clusters = gated_cluster(rt.alloc(), row.nodes, row.start, row.most, row.kept);
    match clusters.get_mut(0) {
        Some(all) => step_through(rt, all, row),
        None => fail_at(rt, part(row.words, "at first"), "there is no such cluster"),
    }
    if let Some(all) = clusters.pop() {
        assert_all_shown(
            rt,
            rt.alloc(),
            row.words,
            &after_all(rt.alloc(), all),
            row.shown,
        );
    }
}
