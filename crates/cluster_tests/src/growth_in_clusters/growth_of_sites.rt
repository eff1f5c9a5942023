//! Each growth of a post or a site is refused: the call answers that memory ran out, and does what it should when it is
//! made again; or a frame is lost, and all sites are stopped.
use crate::site_tests::site_cluster::{Cluster, books_at_the_end, loses_inbox, make_cluster, send};
use crate::site_tests::site_ends::{Ended, assert_ended, is_lost};
use crate::whole_clusters::cluster_asserting::{assert_same, fail_at};
use crate::whole_clusters::cluster_values::{WANTING, request};
use ra_cluster::{Book, Inbox, NewPostError, OpenGate, Post, SendError, Site, SiteError, Stop};
use ra_stamp::{Entry, Memory, Mode};
use std::alloc::Global;
use std::process::Abort;
use std::sync::Wait;
use std::time::{Clock, Duration};
use test_support::{Tried, again, assert_grown, assert_memory, both, part, r, row};

/// Sends a frame from node 1 to node 2.
fn send_one<R: Wait + Abort>(rt: &R, alloc: Global, post: &Post) -> Result<(), Option<SendError>> {
    send(rt, alloc, post, 1, request(rt, 1, 2, Mode::Exclusive))
}

/// Sends a frame from node 1 to node 2, and sends it again if it was refused.
fn try_send<R: Wait + Abort>(rt: &R, alloc: Global, post: &Post) -> Tried {
    let (at, came) = (row("a frame is sent"), send_one(rt, alloc, post));
    if came.is_ok() {
        return Tried::NoFailure;
    }
    assert_same(rt, at, &came, &Err(Some(SendError::Refused)));
    assert_same(rt, at, &send_one(rt, alloc, post), &Ok(()));
    Tried::RetrySucceeded
}

/// Makes a post and sends a frame through it. If the post cannot be made, memory ran out.
fn try_post<R: Wait + Abort>(rt: &R, alloc: Global) -> Result<Tried, Memory> {
    match Post::new(alloc, 2) {
        Ok((post, _inboxes)) => Ok(try_send(rt, alloc, &post)),
        Err(fault) => {
            let at = row("a post is made");
            Err(assert_memory!(rt, at, fault, NewPostError::Memory))
        }
    }
}

#[test]
fn growth_of_a_post(rt: HostRuntime) {
    let alloc = rt.alloc();
    assert_grown!(&rt, again(try_post(&rt, alloc), try_post(&rt, alloc)));
}

/// Returns what a site shows: its events, the holder of `r`, and how many requests wait, how many clients are queued,
/// and the fault.
fn state_of<R: Wait>(rt: &R, site: &Site) -> ((u64, Option<Entry>), (u64, u128, Option<Stop>)) {
    (
        (site.events(rt), site.holder(rt, &r())),
        (site.waiting(rt), site.queued(rt), site.fault(rt)),
    )
}

/// Has client 1 lock `r` at a site. Returns why it does not, or `None` if it does.
fn refusal_of_lock<R: Wait>(
    rt: &R,
    alloc: Global,
    all: &Cluster,
    site: &Site,
) -> Option<SiteError> {
    all.lock_at(rt, alloc, site, 1, Mode::Exclusive, &OpenGate)
        .err()
}

/// While client 1 holds `r` at a site, client 2 asks for it and gives up at once, and again if memory ran out. The ask
/// may find no memory, but to give up needs none: either way nobody is queued then.
fn try_giving_up<R: Wait + Clock + Abort>(
    rt: &R,
    alloc: Global,
    all: &Cluster,
    site: &Site,
) -> Tried {
    let (at, before) = (row("a client of one site gives up"), state_of(rt, site));
    let came = all.lock_within_at(rt, alloc, site, 2, Duration::ZERO);
    if came == Ok(None) {
        return Tried::NoFailure;
    }
    assert_same(rt, at, &came, &Err(WANTING));
    assert_same(rt, at, &state_of(rt, site), &before);
    let came = all.lock_within_at(rt, alloc, site, 2, Duration::ZERO);
    assert_same(rt, at, &(came, site.queued(rt)), &(Ok(None), 0));
    Tried::RetrySucceeded
}

/// Has the node of a site forget names, and again if memory ran out, when the site has to be as before.
fn try_forgetting<R: Wait + Abort>(rt: &R, alloc: Global, all: &Cluster, site: &Site) -> Tried {
    let (at, before) = (row("a site forgets"), state_of(rt, site));
    let came = all.forget_at(rt, alloc, site);
    if came == Ok(()) {
        return Tried::NoFailure;
    }
    assert_same(rt, at, &came, &Err(WANTING));
    assert_same(rt, at, &state_of(rt, site), &before);
    assert_same(rt, at, &all.forget_at(rt, alloc, site), &Ok(()));
    Tried::RetrySucceeded
}

/// Has a client lock `r` at a site, and lock it again if memory ran out, when the site has to be as before. Another one
/// gives up, and the node forgets. Then the first client unlocks `r`, which needs no memory.
fn try_site<R: Wait + Clock + Abort>(rt: &R, alloc: Global, all: &Cluster, site: &Site) -> Tried {
    let (at, before) = (row("a client of one site locks"), state_of(rt, site));
    let (mut tried, mut came) = (Tried::NoFailure, refusal_of_lock(rt, alloc, all, site));
    if came == Some(WANTING) {
        assert_same(rt, at, &state_of(rt, site), &before);
        tried = Tried::RetrySucceeded;
        came = refusal_of_lock(rt, alloc, all, site);
    }
    assert_same(rt, at, &came, &None);
    tried = both(tried, try_giving_up(rt, alloc, all, site));
    tried = both(tried, try_forgetting(rt, alloc, all, site));
    let unlocked = all.unlock_at(rt, alloc, site, 1, &OpenGate);
    assert_same(rt, at, &unlocked, &Ok(()));
    tried
}

/// Makes a cluster of one site, at which clients do so. If it cannot be made, memory ran out.
fn try_sites<R: Wait + Clock + Abort>(rt: &R, alloc: Global) -> Result<Tried, Memory> {
    let clusters = make_cluster(alloc, 1);
    match clusters.first() {
        Some(all) => Ok(try_site(rt, alloc, all, all.site(rt, 1))),
        None => Err(Memory),
    }
}

#[test]
fn growth_of_a_site(rt: HostRuntime) {
    let alloc = rt.alloc();
    assert_grown!(&rt, again(try_sites(&rt, alloc), try_sites(&rt, alloc)));
}

/// Has a site take all frames that are left in an inbox. Returns how many events it has then, or `None` if it is
/// stopped since memory ran out.
fn events_unless_memory<R: AllocGlobal + Wait + Abort>(
    rt: &R,
    all: &Cluster,
    site: &Site,
    inbox: &Inbox,
) -> Option<u64> {
    all.pump_at(rt, site, inbox, &OpenGate);
    if site.fault(rt) == Some(Stop::Memory) {
        None
    } else {
        Some(site.events(rt))
    }
}

/// Returns how many frames are left in the inbox of node 3, which a new site of the node takes. The post has to be
/// closed before. Returns `None` if memory ran out.
fn frames_left<R: AllocGlobal + Wait + Abort>(rt: &R, inbox: &Inbox) -> Option<u64> {
    let fresh = make_cluster(rt.alloc(), 3);
    match fresh.first() {
        Some(all) => events_unless_memory(rt, all, all.site(rt, 3), inbox),
        None => None,
    }
}

/// The books of three nodes. The first one has lost a frame.
const LOST: &[Ended] = &[
    Ended {
        fault: Some(Stop::Send),
        events: 1,
    },
    Ended {
        fault: Some(Stop::Send),
        events: 0,
    },
    Ended {
        fault: Some(Stop::Send),
        events: 0,
    },
];

/// Asserts that the books have lost the frame for node 2, and that the one for node 3 is either left in its inbox, or
/// is lost, too, as there was no memory for it.
fn judge_losses(rt: &impl Abort, books: &[Book], left: u64) -> Tried {
    let words = "the frame for node 2 is lost";
    assert_ended(rt, words, books, LOST);
    let at = part(words, "which frames are lost, and how many are left");
    let came = match books.first() {
        Some(one) => (is_lost(one, 0), is_lost(one, 1)),
        None => (None, None),
    };
    if left == 0 {
        assert_same(rt, at, &(came, left), &((Some(true), Some(true)), 0));
        return Tried::RetrySucceeded;
    }
    assert_same(rt, at, &(came, left), &((Some(true), Some(false)), 1));
    Tried::NoFailure
}

/// Has client 1 of node 1 of three lock `r`, and closes the post. The inbox of node 2 is gone, so at least the frame
/// for node 2 is lost. Returns how many frames are left for node 3. If the client was refused, or that cannot be looked
/// at, memory ran out.
fn loses<R: AllocGlobal + Wait + Abort>(rt: &R, all: &Cluster) -> Result<u64, Memory> {
    let at = row("a client locks, and a frame is lost");
    let Some(inbox) = all.inboxes.get(1) else {
        fail_at(rt, at, "node 3 has no inbox");
    };
    let came = refusal_of_lock(rt, rt.alloc(), all, all.site(rt, 1));
    all.post.close(rt);
    if came == Some(WANTING) {
        return Err(Memory);
    }
    assert_same(rt, at, &came, &Some(SiteError::Stopped(Stop::Send)));
    frames_left(rt, inbox).ok_or(Memory)
}

/// Loses the inbox of node 2 of the cluster, and does so. If it cannot be done, memory ran out.
fn loses_two<R: AllocGlobal + Wait + Abort>(
    rt: &R,
    clusters: &mut Vec<Cluster>,
) -> Result<u64, Memory> {
    let Some(all) = clusters.get_mut(0) else {
        return Err(Memory);
    };
    if !loses_inbox(all, 1) {
        fail_at(rt, row("an inbox is lost"), "node 2 has none");
    }
    loses(rt, all)
}

/// Makes the three nodes, and does so. If it cannot be done, memory ran out.
fn try_losing<R: AllocGlobal + Wait + Abort>(rt: &R) -> Result<Tried, Memory> {
    let mut clusters = make_cluster(rt.alloc(), 3);
    let left = loses_two(rt, &mut clusters);
    let books = books_at_the_end(rt.alloc(), clusters);
    match left {
        // Memory ran out while the books were put together.
        Ok(_) if books.len() != 3 => Err(Memory),
        Ok(left) => Ok(judge_losses(rt, &books, left)),
        Err(Memory) => Err(Memory),
    }
}

/// If memory for a frame is lacking, it is flagged as lost, and the others of its event are sent.
#[test]
fn growth_of_lost_frames(rt: HostRuntime) {
    assert_grown!(&rt, again(try_losing(&rt), try_losing(&rt)));
}
