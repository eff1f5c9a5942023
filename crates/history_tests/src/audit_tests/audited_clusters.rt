//! The clusters of audits: how they are made and closed, what client 1 of a node does, and frames that come although no
//! node sent them. The contracts of most calls are long, so tests make them by these functions, which have none.
use crate::kept_books::history_asserting::{assert_same, fail_at};
use crate::kept_books::history_values::node;
use ra_book::{Book, Stop};
use ra_cluster::{CallError, Cluster, Inbox, OpenGate, Post, SendError, Site, is_site_of};
use ra_frame::Frame;
use ra_stamp::{Mode, NodeId};
use std::alloc::Global;
use std::process::Abort;
use std::sync::Wait;
use test_support::{At, id, part, r};

/// Closes the cluster, if there is one, and returns its books.
pub fn closed(alloc: Global, mut clusters: Vec<Cluster<OpenGate>>) -> Vec<Book> {
    let Some(cluster) = clusters.pop() else {
        return Vec::new(alloc);
    };
    cluster.close(alloc)
}

/// Makes a cluster of this many nodes that is audited or not, or none if it cannot be made.
///
/// A cluster that a function owns is expensive to prove, so it is in a list that tests lend.
pub fn clusters_of(alloc: Global, nodes: u16, is_audited: bool) -> Vec<Cluster<OpenGate>> {
    let mut all = Vec::new(alloc);
    let made = if is_audited {
        Cluster::new_audited(alloc, nodes, 0, OpenGate)
    } else {
        Cluster::new(alloc, nodes, 0, OpenGate)
    };
    if let Ok(cluster) = made {
        let _added = all.push(cluster);
    }
    all
}

/// How the book of a node ends.
#[derive(Clone, Copy)]
pub struct Ended {
    pub fault: Option<Stop>,
    /// How many events it has.
    pub events: u64,
}

/// Asserts that there are as many books, and that each ends so.
pub fn assert_ended(rt: &impl Abort, words: &str, books: &[Book], ended: &[Ended]) {
    let at = part(words, "how many books");
    assert_same(rt, at, &books.len(), &ended.len());
    for place in 0..ended.len() {
        let (at, Ended { fault, events }) = (At(words, "the end of book", place + 1), ended[place]);
        match books.get(place) {
            Some(book) => assert_same(
                rt,
                at,
                &(book.fault(), book.events().len()),
                &(fault, events),
            ),
            None => fail_at(rt, at, "there is no such book"),
        }
    }
}

/// Returns the site of a node of the cluster.
pub fn site<'a, R: Abort>(rt: &R, cluster: &'a Cluster<OpenGate>, number: u16) -> &'a Site {
    match cluster.site(node(rt, number)) {
        Some(site) => site,
        None => panic!(rt; "the cluster has no node with this number"),
    }
}

/// Has client 1 of a node lock `r`. Returns why it does not, or `None` if it does.
pub fn refusal_of_lock<R: Wait + Abort>(
    rt: &R,
    alloc: Global,
    cluster: &Cluster<OpenGate>,
    number: u16,
    mode: Mode,
) -> Option<CallError> {
    let one = node(rt, number);
    cluster.lock(rt, alloc, one, 1, r(), mode).err()
}

/// Has it unlock `r`. Returns why it does not, or `None` if it does.
pub fn refusal_of_unlock<R: Wait + Abort>(
    rt: &R,
    alloc: Global,
    cluster: &Cluster<OpenGate>,
    number: u16,
) -> Option<CallError> {
    cluster.unlock(rt, alloc, node(rt, number), 1, r()).err()
}

/// Adds the site of a node of two to others, unless memory runs out.
fn add_site(alloc: Global, sites: &mut Vec<Site>, node: NodeId) {
    if let Ok(site) = Site::new(alloc, node, 2, 0) {
        let _added = sites.push(site);
    }
}

/// Has a site of two take the frames from an inbox. What it answers goes by another post to sites of another cluster.
fn carry<R: AllocGlobal + Wait + Abort>(rt: &R, at: At<'_>, site: &Site, inbox: &Inbox) {
    let mut others = Vec::new(rt.alloc());
    add_site(rt.alloc(), &mut others, id(1));
    add_site(rt.alloc(), &mut others, id(2));
    // Without the inboxes the answers would be lost.
    let Ok((post, _inboxes)) = Post::new(rt.alloc(), 2) else {
        fail_at(rt, at, "there is no memory for a post");
    };
    if !is_site_of(site, &others) {
        fail_at(rt, at, "there is no memory for the sites");
    }
    site.pump(rt, rt.alloc(), inbox, &post, &others, &OpenGate);
}

/// Sends a frame. Returns what the post answers, or `None` if the frame does not fit.
fn answer_to<R: Wait>(
    rt: &R,
    alloc: Global,
    post: &Post,
    frame: &Frame,
) -> Option<Result<(), SendError>> {
    if frame.fits() {
        Some(post.send(rt, alloc, frame))
    } else {
        None
    }
}

/// Has a frame come to the site of its destination node, one of two, by a post of its own.
pub fn comes<R: AllocGlobal + Wait + Abort>(
    rt: &R,
    at: At<'_>,
    cluster: &Cluster<OpenGate>,
    frame: &Frame,
) {
    let to = frame.message.to().get();
    let Ok((post, inboxes)) = Post::new(rt.alloc(), 2) else {
        fail_at(rt, at, "there is no memory for the frame's post");
    };
    let answer = answer_to(rt, rt.alloc(), &post, frame);
    assert_same(rt, at, &answer, &Some(Ok(())));
    post.close(rt);
    match inboxes.get(usize::from(to).wrapping_sub(1)) {
        Some(inbox) => carry(rt, at, site(rt, cluster, to), inbox),
        None => fail_at(rt, at, "there is no such inbox"),
    }
}
