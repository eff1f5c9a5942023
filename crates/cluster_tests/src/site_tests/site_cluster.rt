//! The sites of a cluster with a post, and what is done with them.
use crate::whole_clusters::cluster_values::{Counting, books_of, comes_to, sites_of};
use ra_cluster::{
    Book, BookError, BookEvent, Gate, Grant, Inbox, OpenGate, Post, SendError, Site, SiteError,
    is_site_of,
};
use ra_frame::Frame;
use ra_stamp::{Entry, Message, Mode, NodeId};
use std::alloc::Global;
use std::process::Abort;
use std::sync::atomic::AtomicU64;
use std::sync::{Mutex, Wait};
use std::time::{Clock, Duration};
use test_support::r;

/// What a client gets that locks a name on a thread of its own.
pub type Answer = Option<Result<Grant, SiteError>>;

/// A gate that counts the steps and lets some of them pass. It keeps a thread that steps at one node, under the lock of
/// the node, until it is told to go on. Then it refuses the step.
#[derive(Drop)]
pub struct Keeps {
    /// The steps of all nodes.
    pub counting: Counting,
    /// The node whose thread it keeps, or 0.
    pub node: u16,
    /// Whether that thread is to go: 1 then.
    pub goes: AtomicU64,
}

impl Gate for Keeps {
    fn step(&self, node: NodeId) -> bool {
        let passes = self.counting.step(node);
        if node.get() == self.node {
            comes_to(&self.goes, 1);
            return false;
        }
        passes
    }

    fn inside(&self, _entry: &Entry) -> bool {
        true
    }
}

/// The sites of a cluster, its post with the inboxes, and its gate.
#[derive(Drop)]
pub struct Cluster {
    nodes: u16,
    /// The start: the numbers of each name come after it.
    pub start: u64,
    /// The site of each node.
    pub sites: Vec<Site>,
    /// The post between them.
    pub post: Post,
    /// The inbox of each node.
    pub inboxes: Vec<Inbox>,
    /// The gate of the clients.
    pub gate: Keeps,
    /// What the client got that was the last to lock a name on a thread of its own.
    pub answer: Mutex<Answer>,
    /// The grants of clients that lock and unlock a name many times.
    pub grants: Mutex<Vec<Grant>>,
    /// How many threads have ended.
    pub ended: AtomicU64,
}

/// What the calls below answer if the sites are not as a site requires them, which no test expects.
const NO_SITE: SiteError = SiteError::Refused(BookError::Stranger);

impl Cluster {
    /// Returns the site of a node that there is.
    pub fn site(&self, rt: &impl Abort, number: u16) -> &Site {
        match self.sites.get(usize::from(number).wrapping_sub(1)) {
            Some(site) => site,
            None => panic!(rt; "there is no such node in the cluster"),
        }
    }

    /// Has a client lock `r` at a site.
    pub fn lock_at<R: Wait, G: Gate>(
        &self,
        rt: &R,
        alloc: Global,
        site: &Site,
        client: u32,
        mode: Mode,
        gate: &G,
    ) -> Result<Grant, SiteError> {
        if !is_site_of(site, &self.sites) {
            return Err(NO_SITE);
        }
        site.lock(rt, alloc, client, r(), mode, &self.post, &self.sites, gate)
    }

    /// Has a client lock `r` exclusively at a site, within this time.
    pub fn lock_within_at<R: Wait + Clock>(
        &self,
        rt: &R,
        alloc: Global,
        site: &Site,
        client: u32,
        time: Duration,
    ) -> Result<Option<Grant>, SiteError> {
        if !is_site_of(site, &self.sites) {
            return Err(NO_SITE);
        }
        let (mode, post, gate) = (Mode::Exclusive, &self.post, &self.gate);
        site.lock_within(rt, alloc, client, r(), mode, time, post, &self.sites, gate)
    }

    /// Has a client give up `r` at a site.
    pub fn cancel_at<R: Wait>(
        &self,
        rt: &R,
        alloc: Global,
        site: &Site,
        client: u32,
    ) -> Result<(), SiteError> {
        if !is_site_of(site, &self.sites) {
            return Err(NO_SITE);
        }
        site.cancel(rt, alloc, client, r(), &self.post, &self.sites, &self.gate)
    }

    /// Has the node of a site forget names.
    pub fn forget_at<R: Wait>(&self, rt: &R, alloc: Global, site: &Site) -> Result<(), SiteError> {
        if !is_site_of(site, &self.sites) {
            return Err(NO_SITE);
        }
        site.forget(rt, alloc, &self.sites, &self.gate)
    }

    /// Has a client unlock `r` at a site.
    pub fn unlock_at<R: Wait, G: Gate>(
        &self,
        rt: &R,
        alloc: Global,
        site: &Site,
        client: u32,
        gate: &G,
    ) -> Result<(), SiteError> {
        if !is_site_of(site, &self.sites) {
            return Err(NO_SITE);
        }
        site.unlock(rt, alloc, client, r(), &self.post, &self.sites, gate)
    }

    /// Has a site take the frames from an inbox.
    pub fn pump_at<R: AllocGlobal + Wait + Abort, G: Gate>(
        &self,
        rt: &R,
        site: &Site,
        inbox: &Inbox,
        gate: &G,
    ) {
        if !is_site_of(site, &self.sites) {
            panic!(rt; "the site is none of this cluster");
        }
        site.pump(rt, rt.alloc(), inbox, &self.post, &self.sites, gate);
    }

    /// Has the site of a node take the frames from the inbox at its place.
    pub fn pump_number<R: AllocGlobal + Wait + Abort, G: Gate>(
        &self,
        rt: &R,
        number: u16,
        gate: &G,
    ) {
        let place = usize::from(number).wrapping_sub(1);
        match self.inboxes.get(place) {
            Some(inbox) => self.pump_at(rt, self.site(rt, number), inbox, gate),
            None => panic!(rt; "there is no such inbox"),
        }
    }
}

/// Puts a cluster together.
fn whole(
    alloc: Global,
    nodes: u16,
    start: u64,
    gate: Keeps,
    post: Post,
    inboxes: Vec<Inbox>,
) -> Cluster {
    Cluster {
        nodes,
        start,
        sites: sites_of(alloc, nodes, start),
        post,
        inboxes,
        gate,
        answer: Mutex::new(None),
        grants: Mutex::new(Vec::new(alloc)),
        ended: AtomicU64::new(0),
    }
}

/// Adds a cluster if it has all its sites, which it lacks if memory ran out.
fn add_whole(all: &mut Vec<Cluster>, cluster: Cluster) {
    if cluster.sites.len() == usize::from(cluster.nodes) {
        let _added = all.push(cluster);
    }
}

/// Makes a cluster of this many nodes, or none if memory runs out. Its numbers begin after `start`. Its gate lets
/// `most` steps pass, and keeps a thread that steps at the node `kept`.
///
/// A cluster that a function owns is expensive to prove, so it is in a list that tests lend.
pub fn gated_cluster(alloc: Global, nodes: u16, start: u64, most: u64, kept: u16) -> Vec<Cluster> {
    let mut all = Vec::new(alloc);
    let gate = Keeps {
        counting: Counting::new(most, true),
        node: kept,
        goes: AtomicU64::new(0),
    };
    if let Ok((post, inboxes)) = Post::new(alloc, nodes) {
        add_whole(&mut all, whole(alloc, nodes, start, gate, post, inboxes));
    }
    all
}

/// Makes a cluster of this many nodes, whose numbers begin after 0, with a gate that lets all steps pass.
pub fn make_cluster(alloc: Global, nodes: u16) -> Vec<Cluster> {
    gated_cluster(alloc, nodes, 0, u64::MAX, 0)
}

/// Closes the cluster, and returns its books.
pub fn books_at_the_end(alloc: Global, mut all: Vec<Cluster>) -> Vec<Book> {
    match all.pop() {
        Some(cluster) => books_of(alloc, cluster.sites),
        None => Vec::new(alloc),
    }
}

/// Sends a message in a frame with this clock.
///
/// # Errors
///
/// Why it is refused, or `None` if the frame does not fit.
pub fn send<R: Wait>(
    rt: &R,
    alloc: Global,
    post: &Post,
    clock: u64,
    message: Message,
) -> Result<(), Option<SendError>> {
    let frame = Frame { clock, message };
    if !frame.fits() {
        return Err(None);
    }
    match post.send(rt, alloc, &frame) {
        Ok(()) => Ok(()),
        Err(refused) => Err(Some(refused)),
    }
}

/// Returns how many events the book of a node has, and the first of them.
fn events_at(books: &[Book], number: u16) -> Option<(u64, Option<BookEvent>)> {
    match books.get(usize::from(number).wrapping_sub(1)) {
        Some(book) => Some((book.events().len(), book.events().at(0))),
        None => None,
    }
}

/// Makes a new cluster. Its site of this node takes all frames that are left in the node's inbox, which is at this
/// place, and sends through the new post. Returns how many events its book then has, and the first of them. The post
/// has to be closed before.
pub fn taken_from<R: AllocGlobal + Wait + Abort>(
    rt: &R,
    all: &Cluster,
    place: usize,
    number: u16,
) -> Option<(u64, Option<BookEvent>)> {
    let fresh = make_cluster(rt.alloc(), all.nodes);
    if let (Some(cluster), Some(inbox)) = (fresh.first(), all.inboxes.get(place)) {
        cluster.pump_at(rt, cluster.site(rt, number), inbox, &OpenGate);
    }
    events_at(&books_at_the_end(rt.alloc(), fresh), number)
}

/// Drops the inbox at a place. Returns whether there was one.
pub fn loses_inbox(all: &mut Cluster, place: usize) -> bool {
    if place < all.inboxes.len() {
        drop(all.inboxes.remove(place));
        true
    } else {
        false
    }
}
