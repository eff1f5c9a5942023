//! What may come between the end of a client's time and its giving up. The clock of the test does it: the site reads
//! the clock when the client was not let in yet, finds that the time is over, and then has the client give up.
use crate::site_tests::site_cluster::{Cluster, gated_cluster, send};
use crate::whole_clusters::cluster_asserting::assert_same;
use crate::whole_clusters::cluster_values::request;
use Meanwhile::{Cancels, LastClock, Leaves, Nothing, Stops};
use ra_cluster::{OpenGate, Site, SiteError, Stop};
use ra_frame::Frame;
use ra_stamp::Mode;
use std::io;
use std::process::Abort;
use std::sync::Wait;
use std::sync::atomic::{AtomicU64, Ordering};
use std::time::{Clock, Duration};
use test_support::{At, part, r};

/// What comes meanwhile. Client 2 of node 1 is the one whose time ends.
#[derive(Clone, Copy)]
enum Meanwhile {
    Nothing,
    /// Client 1 leaves the name.
    Leaves,
    /// Client 2 gives up by a call.
    Cancels,
    /// Node 1 is stopped for this reason.
    Stops(Stop),
    /// The frame comes that leaves node 1 no clock.
    LastClock,
}

/// What client 2 gets, and what there is at node 1 then.
struct Row {
    words: &'static str,
    /// How many nodes there are. Client 1 holds the name if there is one node. Otherwise client 2 waits for node 2.
    nodes: u16,
    /// How many steps the gate lets pass.
    most: u64,
    meanwhile: Meanwhile,
    /// The number of the grant, or `None` if the client gave up.
    answer: Result<Option<u64>, SiteError>,
    /// The events of node 1.
    events: u64,
    /// The client that holds the name.
    holder: Option<u32>,
    /// Why the nodes are stopped.
    fault: Option<Stop>,
    /// How many requests wait or are queued.
    waiting: u64,
}

/// The client gives up, and another one goes on holding the name.
const GIVEN_UP: Row = Row {
    words: "nothing comes",
    nodes: 1,
    most: u64::MAX,
    meanwhile: Nothing,
    answer: Ok(None),
    // Two asks and a cancel.
    events: 3,
    holder: Some(1),
    fault: None,
    waiting: 0,
};

const ROWS: &[Row] = &[
    GIVEN_UP,
    Row {
        words: "client 1 leaves",
        meanwhile: Leaves,
        answer: Ok(Some(2)),
        holder: Some(2),
        ..GIVEN_UP
    },
    Row {
        words: "client 2 gives up by a call",
        meanwhile: Cancels,
        answer: Err(SiteError::Cancelled),
        ..GIVEN_UP
    },
    Row {
        words: "the node is stopped",
        meanwhile: Stops(Stop::Refused),
        answer: Err(SiteError::Stopped(Stop::Refused)),
        events: 2,
        fault: Some(Stop::Refused),
        waiting: 1,
        ..GIVEN_UP
    },
    Row {
        words: "the gate lets no third step pass",
        most: 2,
        answer: Err(SiteError::Stopped(Stop::Gate)),
        events: 2,
        fault: Some(Stop::Gate),
        waiting: 1,
        ..GIVEN_UP
    },
    Row {
        words: "client 1 leaves, which is the last step that passes",
        most: 3,
        meanwhile: Leaves,
        answer: Ok(Some(2)),
        holder: Some(2),
        ..GIVEN_UP
    },
    Row {
        words: "a REQUEST of node 2 comes, and no clock is left",
        nodes: 2,
        meanwhile: LastClock,
        answer: Err(SiteError::Stopped(Stop::Clock)),
        // An ask and the REQUEST, which node 1 answers later.
        events: 2,
        holder: None,
        fault: Some(Stop::Clock),
        waiting: 1,
        ..GIVEN_UP
    },
    Row {
        words: "nothing comes while the client waits for node 2",
        nodes: 2,
        events: 2,
        holder: None,
        ..GIVEN_UP
    },
];

/// A clock that is read twice: when the time of client 2 begins, and when it is over. Before it answers that, it does
/// what comes meanwhile.
#[derive(Drop)]
struct ActingClock<'a, R> {
    rt: &'a R,
    all: &'a Cluster,
    meanwhile: Meanwhile,
    readings: AtomicU64,
}

impl<R: Wait> Wait for ActingClock<'_, R> {}

impl<R: AllocGlobal + Wait + Abort> Clock for ActingClock<'_, R> {
    fn monotonic(&self) -> io::Result<Duration> {
        if self.readings.fetch_add(1, Ordering::SeqCst) == 0 {
            return Ok(Duration::ZERO);
        }
        act(self.rt, self.all, self.meanwhile);
        Ok(Duration::from_secs(SECONDS))
    }

    fn since_1970(&self) -> io::Result<Duration> {
        self.monotonic()
    }
}

/// The time of client 2, in seconds.
const SECONDS: u64 = 1;

/// Does what comes meanwhile.
fn act<R: AllocGlobal + Wait + Abort>(rt: &R, all: &Cluster, meanwhile: Meanwhile) {
    let (at, alloc, site) = (At("meanwhile", "", 0), rt.alloc(), all.site(rt, 1));
    match meanwhile {
        Nothing => {}
        Leaves => assert_same(
            rt,
            at,
            &all.unlock_at(rt, alloc, site, 1, &all.gate),
            &Ok(()),
        ),
        Cancels => assert_same(rt, at, &all.cancel_at(rt, alloc, site, 2), &Ok(())),
        Stops(stop) => site.stop(rt, stop),
        LastClock => take_the_last_clock(rt, at, all, site),
    }
}

/// Has a frame come to node 1 that gives it the greatest clock.
fn take_the_last_clock<R: AllocGlobal + Wait + Abort>(
    rt: &R,
    at: At<'_>,
    all: &Cluster,
    site: &Site,
) {
    let message = request(rt, 2, 1, Mode::Exclusive);
    let sent = send(rt, rt.alloc(), &all.post, Frame::MAX_CLOCK - 1, message);
    assert_same(rt, at, &sent, &Ok(()));
    // The pump ends when it has taken all that came.
    all.post.close(rt);
    all.pump_number(rt, 1, &OpenGate);
    assert_same(rt, at, &site.clock(rt), &Frame::MAX_CLOCK);
}

/// Has the time of client 2 end, and asserts what it gets and what there is then.
fn end_a_time<R: AllocGlobal + Wait + Abort>(rt: &R, all: &Cluster, row: &Row) {
    let (alloc, site) = (rt.alloc(), all.site(rt, 1));
    if row.nodes == 1 {
        let held = all.lock_at(rt, alloc, site, 1, Mode::Exclusive, &all.gate);
        assert_same(rt, part(row.words, "client 1 locks"), &held.is_ok(), &true);
    }
    let clock = ActingClock {
        rt,
        all,
        meanwhile: row.meanwhile,
        readings: AtomicU64::new(0),
    };
    let time = Duration::from_secs(SECONDS);
    let came = match all.lock_within_at(&clock, alloc, site, 2, time) {
        Ok(Some(grant)) => Ok(Some(grant.entry.stamp.seq)),
        Ok(None) => Ok(None),
        Err(why) => Err(why),
    };
    assert_same(rt, part(row.words, "client 2 gets"), &came, &row.answer);
    assert_left(rt, all, site, row);
}

/// Asserts what there is at node 1, and why each node is stopped.
fn assert_left<R: Wait + Abort>(rt: &R, all: &Cluster, site: &Site, row: &Row) {
    let holder = match site.holder(rt, &r()) {
        Some(entry) => Some(entry.client),
        None => None,
    };
    let at = part(row.words, "events, and the holder");
    assert_same(
        rt,
        at,
        &(site.events(rt), holder),
        &(row.events, row.holder),
    );
    let waiting = u128::from(site.waiting(rt)).saturating_add(site.queued(rt));
    let at = part(row.words, "how many wait");
    assert_same(rt, at, &waiting, &u128::from(row.waiting));
    assert_same(
        rt,
        part(row.words, "why node 1 is stopped"),
        &site.fault(rt),
        &row.fault,
    );
    // A stop of node 1 alone is the only one that is not of all nodes, and it is of a cluster of one node.
    let last = all.site(rt, row.nodes).fault(rt);
    assert_same(
        rt,
        part(row.words, "why the last node is stopped"),
        &last,
        &row.fault,
    );
}

#[test]
fn whatever_comes_as_the_time_ends_is_told_to_the_client(rt: HostRuntime) {
    for row in ROWS {
        for all in &gated_cluster(rt.alloc(), row.nodes, 0, row.most, 0) {
            end_a_time(&rt, all, row);
        }
    }
}
