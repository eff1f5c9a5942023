//! A whole cluster in one value.
pub mod all_sites;
pub mod book_room;
pub mod gate;

ghost use Rattle.std.specs.Prelude.{◌≡◌, ◌↔◌, ◌<◌, ◌≤◌, true, false, [], All, vec_len, vec_capacity};
ghost use Rattle.std.specs.Prelude.{IfOk, IfSome, IsNone, IsErrOf};
ghost use Rattle.ra_stamp.specs.NodeId.{IsNodeNumber};
ghost use Rattle.ra_site.specs.Sites.{sites_to};

use crate::cluster::all_sites::{make_sites, stop_all};
use crate::cluster::book_room::BookRoom;
use crate::{Book, BookError, Gate, Grant, Inbox, NewPostError, Post, Site, SiteError, Stop};
use ra_stamp::{Memory, Mode, Name, NodeId};
use std::alloc::Global;
use std::marker::Model;
use std::sync::{Mutex, Wait};
use std::thread;
use std::thread::Threads;
use std::time::{Clock, Duration};
use thiserror::Error;

/// Why a call of a cluster failed.
#[derive(Clone, Copy, Debug, PartialEq, Eq, Error)]
#[error("{:?}", self)]
pub enum CallError {
    /// The cluster has no node with this number.
    NoNode,
    /// The call of the node's site failed.
    #[error(transparent)]
    Site(SiteError),
}

impl From<SiteError> for CallError {
    ghost use Rattle.std.specs.Prelude.{◌≡◌};
    ghost use Rattle.ra_site.specs.declared.cluster.CallError.TheVariants as call;

    ghost from_gives = { λ refused e. e ≡ call.Site refused };

    fn from(refused: SiteError) -> CallError {
        CallError::Site(refused)
    }
}

/// What a client did while it held a name, and whether it gave the name back.
#[derive(Debug, Drop)]
pub struct Held<T> {
    /// The grant of the name.
    pub grant: Grant,
    /// What the closure returned.
    pub value: T,
    /// Whether the name was given back. If not, the client still holds it.
    pub unlocked: Result<(), SiteError>,
}

/// The nodes of a cluster that run on the threads of one process: the sites of nodes 1 to n with one start, the post
/// between them with its inboxes, and the gate that is asked before each step. Threads share it. Contracts see the
/// number of nodes and the start.
///
/// While clients lock and unlock names, each node needs a thread that carries its frames: [`Cluster::run`] starts and
/// ends these threads. At the end [`Cluster::close`] returns the books, which [`settle`](crate::settle) takes as they
/// are. A cluster that is made to be audited is not settled: the rounds of an audit (crate `ra_audit`) take what has
/// happened while it runs, and what is left at the end. Then [`Cluster::close_audited`] returns its books.
pub struct Cluster<G> {
    start: u64,
    sites: Vec<Site>,
    post: Post,
    inboxes: Vec<Inbox>,
    /// The books are put here when the cluster is closed. It is under a lock, since threads share a cluster, and books
    /// can't be shared.
    room: Mutex<BookRoom>,
    gate: G,
    audited: bool,
}

// What a cluster owns is freed here, so that no other crate proves how each of its parts is dropped.
impl<G: Drop> Drop for Cluster<G> {
    fn drop(self) {
        let Cluster {
            start: _,
            sites: _,
            post: _,
            inboxes: _,
            room: _,
            gate: _,
            audited: _,
        } = self;
    }
}

impl<G> Model for Cluster<G> {
    ghost use Rattle.std.specs.Prelude.{◌≡◌, vec_len};
    ghost use Rattle.ra_stamp.specs.NodeId.{IsNodeNumber};
    ghost use Rattle.ra_site.specs.Cluster.{ClusterState};
    ghost use Rattle.ra_site.specs.Sites.{sites_to};

    ghost Value = { ClusterState };

    ghost view = { λ c. record { nodes = vec_len c.sites; start = c.start; audited = c.audited } };

    ghost invariant = { λ c. IsNodeNumber (vec_len c.sites)
        × (c.sites.items ≡ sites_to (vec_len c.sites) c.audited) };
}

impl<G: Gate + Drop> Cluster<G> {
    ghost use Rattle.ra_book.specs.Book.{HasHistory};
    ghost use Rattle.ra_book.specs.Settled.{IsCluster, start_of};
    ghost use Rattle.ra_site.specs.ClientGrant.{IsGrantOf, WasGiven};
    ghost use Rattle.ra_site.specs.PassedOn.{AnswersEnding};
    ghost use Rattle.ra_site.specs.Cluster.{MakesCluster};
    ghost use Rattle.ra_site.specs.Sites.{AreSitesWith, site_at};

    /// Makes a cluster of this many nodes. Nothing has happened in it yet. The highest number of each resource
    /// begins at `start`, 0 to 2^64-1. The cost is linear in the number of nodes.
    ///
    /// # Errors
    ///
    /// The first that holds:
    ///
    /// 1. `BadCount`: the number of nodes is not 1 to 64.
    /// 2. `Memory`: memory ran out.
    pub fn new(alloc: Global, nodes: u16, start: u64, gate: G) -> Result<Cluster<G>, NewPostError>
        ensures { MakesCluster nodes start false result }
    {
        Cluster::make(alloc, nodes, start, gate, false)
    }

    /// Makes a cluster as `new` does, whose books hand over what has happened to an auditor (crate `ra_audit`) while it
    /// runs, so that they don't grow with what happened before. It is audited as it goes, and not settled at the end.
    ///
    /// # Errors
    ///
    /// Those of `new`.
    pub fn new_audited(
        alloc: Global,
        nodes: u16,
        start: u64,
        gate: G,
    ) -> Result<Cluster<G>, NewPostError>
        ensures { MakesCluster nodes start true result }
    {
        Cluster::make(alloc, nodes, start, gate, true)
    }

    /// Makes a cluster, audited or not, as `new` does.
    ///
    /// # Errors
    ///
    /// Those of `new`.
    fn make(
        alloc: Global,
        nodes: u16,
        start: u64,
        gate: G,
        audited: bool,
    ) -> Result<Cluster<G>, NewPostError>
        ensures { MakesCluster nodes start audited result }
    {
        let (post, inboxes) = Post::new(alloc, nodes)?;
        let Ok((sites, room)) = sites_and_room(alloc, nodes, start, audited) else {
            return Err(NewPostError::Memory);
        };
        Ok(Cluster {
            start,
            sites,
            post,
            inboxes,
            room: Mutex::new(room),
            gate,
            audited,
        })
    }

    /// Returns how many nodes there are, 1 to 64. It does not allocate.
    pub fn nodes(&self) -> u16
        ensures { result ≡ self.now.nodes }
    {
        self.sites.len() as u16
    }

    /// Returns the start, which the numbers of requests begin after. It does not allocate.
    pub fn start(&self) -> u64
        ensures { result ≡ self.now.start }
    {
        self.start
    }

    /// Returns whether the cluster is audited while it runs. It does not allocate.
    pub fn is_audited(&self) -> bool
        ensures { result ≡ self.now.audited }
    {
        self.audited
    }

    /// Returns the gate that the cluster was made with. It does not allocate.
    // No clause says that it is this gate, since contracts don't see the gate. There is no other one that it could
    // return.
    pub fn gate(&self) -> &G {
        &self.gate
    }

    /// Returns the site of a node, whose readers tell its state, or `None` if there is no such node. It does not
    /// allocate.
    pub fn site(&self, node: NodeId) -> Option<&Site>
        ensures found { IfSome result (λ site. site.now ≡ site_at self.now.audited node) }
        ensures absent { IsNone result ↔ self.now.nodes < node }
    {
        self.sites.get(node.place())
    }

    /// Returns the site of a node, and all sites, or `None` if there is no such node.
    fn site_among_all(&self, node: NodeId) -> Option<(&Site, &[Site])>
        ensures found { IfSome result (λ found. found.0.now ≡ site_at self.now.audited node) }
        ensures all { IfSome result (λ found. AreSitesWith found.0.now found.1.now) }
        ensures absent { IsNone result ↔ self.now.nodes < node }
    {
        let site = self.site(node)?;
        Some((site, self.sites.as_slice()))
    }

    /// Runs a thread in [`Cluster::pump`] for each node, and the closure in this thread. In the closure, clients may
    /// lock and unlock names, also on threads of their own. When it has returned, closes the post, joins the threads of
    /// the nodes, and returns what the closure returned. After that no frame is carried any more. If a thread cannot be
    /// started, the cluster is stopped with `Spawn` and the closure is called all the same; then each call of a client
    /// is refused.
    ///
    /// The closure must not return before its clients' threads have ended, so start them in a scope or join them.
    pub fn run<R: Threads + Wait + Sync, T, F: FnOnce() -> T>(
        &self,
        rt: &R,
        alloc: Global,
        clients: F,
    ) -> T
        requires { F.pre clients }
        ensures { F.post clients result }
    {
        thread::scope(
            thread::scope_env(),
            rt,
            move |pumps| -> T
                requires { F.pre clients }
                ensures { F.post clients result }
            {
                for number in 1..=self.nodes() {
                    let pump = move || self.pump_number(rt, alloc, number);
                    if pumps.spawn(pump).is_err() {
                        self.stop(rt, Stop::Spawn);
                    }
                }
                let value = clients();
                self.close_post(rt);
                value
            },
        )
    }

    /// Does what `pump` does for the node with this number.
    fn pump_number<R: Wait>(&self, rt: &R, alloc: Global, number: u16) {
        if let Some(node) = NodeId::new(number) {
            self.pump(rt, alloc, node);
        }
    }

    /// Asks for a name for a client of a node, and waits until the client holds it, as [`Site::lock`] does.
    ///
    /// # Errors
    ///
    /// The first that comes:
    ///
    /// 1. `NoNode`: the cluster has no such node.
    /// 2. `Site`: as [`Site::lock`] says.
    pub fn lock<R: Wait>(
        &self,
        rt: &R,
        alloc: Global,
        node: NodeId,
        client: u32,
        name: Name,
        mode: Mode,
    ) -> Result<Grant, CallError>
        ensures grant { IfOk result (IsGrantOf node client name mode) }
        ensures given { IfOk result WasGiven }
        ensures no_node { IsErrOf result CallError.NoNode ↔ self.now.nodes < node }
    {
        let Some((site, sites)) = self.site_among_all(node) else {
            return Err(CallError::NoNode);
        };
        Ok(site.lock(rt, alloc, client, name, mode, &self.post, sites, &self.gate)?)
    }

    /// Asks for a name for a client of a node, and waits until the client holds it or the time is over, as
    /// [`Site::lock_within`] does. `None` means that the time is over, and that the client holds nothing.
    ///
    /// # Errors
    ///
    /// The first that comes:
    ///
    /// 1. `NoNode`: the cluster has no such node.
    /// 2. `Site`: as [`Site::lock_within`] says.
    pub fn lock_within<R: Wait + Clock>(
        &self,
        rt: &R,
        alloc: Global,
        node: NodeId,
        client: u32,
        name: Name,
        mode: Mode,
        time: Duration,
    ) -> Result<Option<Grant>, CallError>
        ensures grant { IfOk result (λ held. IfSome held (IsGrantOf node client name mode)) }
        ensures given { IfOk result (λ held. IfSome held WasGiven) }
        ensures no_node { IsErrOf result CallError.NoNode ↔ self.now.nodes < node }
    {
        let Some((site, sites)) = self.site_among_all(node) else {
            return Err(CallError::NoNode);
        };
        Ok(site.lock_within(
            rt, alloc, client, name, mode, time, &self.post, sites, &self.gate,
        )?)
    }

    /// Gives up a name for which a client of a node waits or is queued, as [`Site::cancel`] does.
    ///
    /// # Errors
    ///
    /// The first that holds, and nothing was given up:
    ///
    /// 1. `NoNode`: the cluster has no such node.
    /// 2. `Site`: as [`Site::cancel`] says.
    pub fn cancel<R: Wait>(
        &self,
        rt: &R,
        alloc: Global,
        node: NodeId,
        client: u32,
        name: Name,
    ) -> Result<(), CallError>
        ensures no_memory { IsErrOf result (CallError.Site (SiteError.Refused BookError.Memory)) → ⊥ }
        ensures others { IsErrOf result (CallError.Site SiteError.Cancelled) → ⊥ }
        ensures no_node { IsErrOf result CallError.NoNode ↔ self.now.nodes < node }
    {
        let Some((site, sites)) = self.site_among_all(node) else {
            return Err(CallError::NoNode);
        };
        Ok(site.cancel(rt, alloc, client, name, &self.post, sites, &self.gate)?)
    }

    /// Has a node forget the names that it need not keep, as [`Site::forget`] does.
    ///
    /// # Errors
    ///
    /// The first that holds, and nothing was forgotten:
    ///
    /// 1. `NoNode`: the cluster has no such node.
    /// 2. `Site`: as [`Site::forget`] says.
    pub fn forget<R: Wait>(&self, rt: &R, alloc: Global, node: NodeId) -> Result<(), CallError>
        ensures others { IsErrOf result (CallError.Site SiteError.Cancelled) → ⊥ }
        ensures no_node { IsErrOf result CallError.NoNode ↔ self.now.nodes < node }
    {
        let Some((site, sites)) = self.site_among_all(node) else {
            return Err(CallError::NoNode);
        };
        Ok(site.forget(rt, alloc, sites, &self.gate)?)
    }

    /// Gives back the name that a client of a node holds, as [`Site::unlock`] does.
    ///
    /// # Errors
    ///
    /// The first that holds, and nothing was given back:
    ///
    /// 1. `NoNode`: the cluster has no such node.
    /// 2. `Site`: as [`Site::unlock`] says.
    pub fn unlock<R: Wait>(
        &self,
        rt: &R,
        alloc: Global,
        node: NodeId,
        client: u32,
        name: Name,
    ) -> Result<(), CallError>
        ensures no_memory { IsErrOf result (CallError.Site (SiteError.Refused BookError.Memory)) → ⊥ }
        ensures others { IsErrOf result (CallError.Site SiteError.Cancelled) → ⊥ }
        ensures no_node { IsErrOf result CallError.NoNode ↔ self.now.nodes < node }
    {
        let Some((site, sites)) = self.site_among_all(node) else {
            return Err(CallError::NoNode);
        };
        Ok(site.unlock(rt, alloc, client, name, &self.post, sites, &self.gate)?)
    }

    /// Locks a name as [`Cluster::lock`] does, calls the closure while the client holds it, and then unlocks it,
    /// whatever the closure returned. If the unlock is refused the client still holds the name. Then
    /// [`Cluster::unlock`] can be called again; unless that succeeds the cluster has to be stopped, or other clients
    /// wait forever.
    ///
    /// # Errors
    ///
    /// Those of [`Cluster::lock`]. The closure was not called.
    pub fn with_lock<R: Wait, T, F: FnOnce(Grant) -> T + Drop>(
        &self,
        rt: &R,
        alloc: Global,
        node: NodeId,
        client: u32,
        name: Name,
        mode: Mode,
        does: F,
    ) -> Result<Held<T>, CallError>
        requires { (grant : Grant) → IsGrantOf node client name mode grant → F.pre does grant }
        ensures grant { IfOk result (λ held. IsGrantOf node client name mode held.grant) }
        ensures given { IfOk result (λ held. WasGiven held.grant) }
        ensures done { IfOk result (λ held. F.post does held.grant held.value) }
        ensures unlocked { IfOk result (λ held. AnswersEnding held.unlocked) }
        ensures no_node { IsErrOf result CallError.NoNode ↔ self.now.nodes < node }
    {
        let Some((site, sites)) = self.site_among_all(node) else {
            return Err(CallError::NoNode);
        };
        let grant = site.lock(rt, alloc, client, name, mode, &self.post, sites, &self.gate)?;
        // A copy by name, since the prover takes a grant that is given to a call as moved.
        let given = grant;
        let value = does(given);
        let unlocked = site.unlock(rt, alloc, client, name, &self.post, sites, &self.gate);
        Ok(Held {
            grant,
            value,
            unlocked,
        })
    }

    /// Locks a name as [`Cluster::lock_within`] does, and if it comes in time, calls the closure while the client holds
    /// it, and then unlocks it, as [`Cluster::with_lock`] does. `None` means that the time is over. Then the closure
    /// was not called, and the client holds nothing.
    ///
    /// # Errors
    ///
    /// Those of [`Cluster::lock_within`]. The closure was not called.
    pub fn with_lock_within<R: Wait + Clock, T, F: FnOnce(Grant) -> T + Drop>(
        &self,
        rt: &R,
        alloc: Global,
        node: NodeId,
        client: u32,
        name: Name,
        mode: Mode,
        time: Duration,
        does: F,
    ) -> Result<Option<Held<T>>, CallError>
        requires { (grant : Grant) → IsGrantOf node client name mode grant → F.pre does grant }
        ensures grant { IfOk result (λ held. IfSome held (λ h. IsGrantOf node client name mode h.grant)) }
        ensures given { IfOk result (λ held. IfSome held (λ h. WasGiven h.grant)) }
        ensures done { IfOk result (λ held. IfSome held (λ h. F.post does h.grant h.value)) }
        ensures unlocked { IfOk result (λ held. IfSome held (λ h. AnswersEnding h.unlocked)) }
        ensures no_node { IsErrOf result CallError.NoNode ↔ self.now.nodes < node }
    {
        let Some((site, sites)) = self.site_among_all(node) else {
            return Err(CallError::NoNode);
        };
        let held = site.lock_within(
            rt, alloc, client, name, mode, time, &self.post, sites, &self.gate,
        )?;
        let Some(grant) = held else {
            return Ok(None);
        };
        // A copy by name, since the prover takes a grant that is given to a call as moved.
        let given = grant;
        let value = does(given);
        let unlocked = site.unlock(rt, alloc, client, name, &self.post, sites, &self.gate);
        Ok(Some(Held {
            grant,
            value,
            unlocked,
        }))
    }

    /// Hands a node each frame that comes for it, until the post is closed, as [`Site::pump`] does. [`Cluster::run`]
    /// calls it. It returns at once if there is no such node.
    pub fn pump<R: Wait>(&self, rt: &R, alloc: Global, node: NodeId) {
        let Some(inbox) = self.inboxes.get(node.place()) else {
            return;
        };
        if let Some((site, sites)) = self.site_among_all(node) {
            site.pump(rt, alloc, inbox, &self.post, sites, &self.gate);
        }
    }

    /// Stops each node for this cause, from node 1 up, as [`Site::stop`] does, and then closes the post, which ends the
    /// threads in [`Cluster::pump`]. A frame that comes to the post later counts as lost. The cost is linear in the
    /// number of nodes.
    pub fn stop<R: Wait>(&self, rt: &R, stop: Stop) {
        stop_all(rt, self.sites.as_slice(), stop);
        self.close_post(rt);
    }

    /// Closes the post, so that the threads in [`Cluster::pump`] end, as [`Post::close`] does.
    pub fn close_post<R: Wait>(&self, rt: &R) {
        self.post.close(rt);
    }

    /// Consumes the cluster, and returns a book for each node, in the order of the nodes, each with its history. They
    /// are a cluster, as [`settle`](crate::settle) requires. It does not allocate. The cost is linear in the number of
    /// nodes.
    ///
    /// If a round of an audit has taken the events of a node, its history is not in its book any more. In place of that
    /// book there is an empty one, which is stopped: for the cause of that book, or with [`Stop::Refused`] if it has no
    /// cause. What no round has taken is lost, so end the audit first. [`Cluster::close_audited`] returns the books as
    /// they are.
    pub fn close(self, alloc: Global) -> Vec<Book>
        ensures cluster { IsCluster result.items }
        ensures count { vec_len result ≡ self.nodes }
        ensures start { start_of result.items ≡ self.start }
        ensures histories { All HasHistory result.items }
    {
        let nodes = self.nodes();
        let start = self.start;
        let (sites, mut books) = self.into_sites();
        for site in sites {
            books.push_reserved(site.close_as(alloc, nodes, start));
        }
        books
    }

    /// Consumes a cluster whose audit is ended, and returns as many books as it has nodes, each with its history. They
    /// are the nodes' books in order, as they are, with the events that no round has taken. No contract can tell which
    /// book was under a lock, so `Auditor::check_books` of `ra_audit` looks at that, too, when it tells whether all
    /// that they say is in the run. It does not allocate. The cost is linear in the number of nodes.
    pub fn close_audited(self) -> Vec<Book>
        ensures count { vec_len result ≡ self.nodes }
        ensures histories { All HasHistory result.items }
    {
        let (sites, mut books) = self.into_sites();
        for site in sites {
            books.push_reserved(site.close());
        }
        books
    }

    /// Consumes the cluster, and returns its sites, and an empty list with room for their books.
    fn into_sites(self) -> (Vec<Site>, Vec<Book>)
        ensures sites { result.0.items ≡ sites_to self.nodes self.audited }
        ensures count { IsNodeNumber self.nodes }
        ensures empty { result.1.items ≡ [] }
        ensures room { 64 ≤ vec_capacity result.1 }
    {
        let Cluster {
            start: _,
            sites,
            post: _,
            inboxes: _,
            room,
            gate: _,
            audited: _,
        } = self;
        (sites, room.into_inner().into_books())
    }
}

/// Makes the sites of a cluster of this many nodes, in order, and room for their books.
///
/// # Errors
///
/// `Memory`: memory ran out, or there cannot be this many nodes.
fn sites_and_room(
    alloc: Global,
    nodes: u16,
    start: u64,
    audited: bool,
) -> Result<(Vec<Site>, BookRoom), Memory>
    ensures { IfOk result (λ made. made.0.items ≡ sites_to nodes audited) }
{
    let room = BookRoom::new(alloc)?;
    let sites = make_sites(alloc, nodes, start, audited)?;
    Ok((sites, room))
}
