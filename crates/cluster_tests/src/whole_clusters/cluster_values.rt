//! What several files of tests use.
use ra_cluster::{
    Book, BookError, Cluster, ClusterError, Gate, Grant, Settled, Site, SiteError, Stop,
    is_cluster, run_cluster, settle,
};
use ra_schedule::Script;
use ra_stamp::{Entry, Message, Mode, NodeId};
use std::alloc::Global;
use std::process::Abort;
use std::sync::Wait;
use std::sync::atomic::{AtomicU64, Ordering};
use std::thread;
use std::thread::Threads;
use test_support::{entry_of, message_between, r};

/// How often a test looks for what another thread is to do, before it gives up.
const MOST_LOOKS: u64 = 5_000_000;

/// How often it looks for the end of a thread that may wait so itself, and answers then.
const MOST_LOOKS_FOR_THE_END: u64 = 20_000_000;

/// Looks this many times whether the number is at least `least`, and returns whether it came to that.
fn comes_within(looks: u64, number: &AtomicU64, least: u64) -> bool {
    for _ in 0..looks {
        if number.load(Ordering::SeqCst) >= least {
            return true;
        }
        thread::yield_now();
    }
    false
}

/// Waits until the number is at least `least`, and returns whether it came to that.
pub fn comes_to(number: &AtomicU64, least: u64) -> bool {
    comes_within(MOST_LOOKS, number, least)
}

/// Returns what this gives, which a thread of its own does. If the thread does not end, or none can be started, the
/// test ends after many looks.
pub fn in_a_thread<R: Threads + Abort, T: Send, F: FnOnce() -> T + Send>(rt: &R, does: F) -> T
    requires { F.pre does }
{
    let ends = AtomicU64::new(0);
    let ends = &ends;
    let (given, ()) = thread::join(
        rt,
        move || -> T
            requires { F.pre does }
        {
            let given = does();
            ends.fetch_add(1, Ordering::SeqCst);
            given
        },
        // Without it `join` would wait forever for a thread that does not end.
        move || assert!(rt;
            comes_within(MOST_LOOKS_FOR_THE_END, ends, 1),
            "expected that a thread ends, and it did not"
        ),
    );
    given
}

/// The answer of a call that found no memory and did nothing.
pub const WANTING: SiteError = SiteError::Refused(BookError::Memory);

/// Each cause of a stop.
pub const CAUSES: &[Stop] = &[
    Stop::Memory,
    Stop::Send,
    Stop::Clock,
    Stop::Exhausted,
    Stop::Frame,
    Stop::Refused,
    Stop::Gate,
    Stop::Spawn,
];

/// Returns the node with this number.
pub fn node(rt: &impl Abort, number: u16) -> NodeId {
    match NodeId::new(number) {
        Some(node) => node,
        None => panic!(rt; "there is no such node"),
    }
}

/// Returns the request of a client on the name `r` at a node, with this number.
pub fn entry(rt: &impl Abort, number: u16, client: u32, mode: Mode, seq: u64) -> Entry {
    entry_of(node(rt, number), client, r(), mode, seq)
}

/// Returns the REQUEST for the name `r` with number 1, which goes between these nodes.
pub fn request(rt: &impl Abort, from: u16, to: u16, mode: Mode) -> Message {
    message_between(node(rt, from), node(rt, to), r(), Some(mode), 1)
}

/// Makes the site of a node of this many, from number `start`, and adds it to the others. Returns whether that
/// succeeds.
fn adds_site(alloc: Global, sites: &mut Vec<Site>, number: u16, nodes: u16, start: u64) -> bool {
    let Some(node) = NodeId::new(number) else {
        return false;
    };
    match Site::new(alloc, node, nodes, start) {
        Ok(site) => sites.push(site).is_ok(),
        Err(_) => false,
    }
}

/// Makes the sites of a cluster of this many nodes, whose numbers begin at `start`. There are fewer if memory runs out.
pub fn sites_of(alloc: Global, nodes: u16, start: u64) -> Vec<Site> {
    let mut sites = Vec::new(alloc);
    for place in 0..nodes {
        if !adds_site(alloc, &mut sites, place + 1, nodes, start) {
            break;
        }
    }
    sites
}

/// Gives up the locks of the sites, and returns their books. There are fewer if memory runs out.
pub fn books_of(alloc: Global, sites: Vec<Site>) -> Vec<Book> {
    let mut books = Vec::new(alloc);
    for site in sites {
        if books.push(site.close()).is_err() {
            break;
        }
    }
    books
}

/// Closes a cluster, and returns its books. The contracts of `close`, of `settle` and of some other calls are long, so
/// their callers call them by functions such as this one, which have none.
pub fn closed<G: Gate + Drop>(alloc: Global, cluster: Cluster<G>) -> Vec<Book> {
    cluster.close(alloc)
}

/// Settles books with grants, or returns `None` if they are not a cluster or do not settle.
pub fn settled(alloc: Global, books: &[Book], grants: &[Grant]) -> Option<Settled> {
    if is_cluster(books) {
        settle(alloc, books, grants).ok()
    } else {
        None
    }
}

/// Counts the steps and lets the first `most` of them pass, and lets either no client or all clients be inside.
#[derive(Drop)]
pub struct Counting {
    /// How many steps came.
    pub steps: AtomicU64,
    most: u64,
    inside: bool,
}

impl Counting {
    /// Makes a gate that no step has come to.
    pub fn new(most: u64, inside: bool) -> Counting {
        let steps = AtomicU64::new(0);
        Counting {
            steps,
            most,
            inside,
        }
    }

    /// Makes the gate that only counts.
    pub fn open() -> Counting {
        Counting::new(u64::MAX, true)
    }
}

impl Gate for Counting {
    fn step(&self, _node: NodeId) -> bool {
        self.steps.fetch_add(1, Ordering::SeqCst) < self.most
    }

    fn inside(&self, _entry: &Entry) -> bool {
        self.inside
    }
}

/// Has threads do a script with a gate, and returns the outcome. If they do not end, the test ends after many looks.
pub fn ran<R: Threads + Wait + Abort + Sync, G: Gate>(
    rt: &R,
    alloc: Global,
    script: &Script,
    gate: &G,
) -> Result<Settled, ClusterError> {
    in_a_thread(rt, move || run_cluster(rt, alloc, script, gate))
}
