//! How a script that threads run comes to its end, or fails to.
use crate::thread_scripts::letter_scripts::{Client, script_of};
use crate::whole_clusters::cluster_asserting::assert_same;
use crate::whole_clusters::cluster_values::{entry, ran};
use ra_cluster::{ClusterError, Gate, Settled};
use ra_stamp::{Entry, Mark, Mode};
use ra_world::Step;
use std::process::Abort;
use std::sync::Wait;
use std::thread::Threads;
use test_support::{At, part};

/// How many steps or marks there are: asks, deliveries, enters, leaves and others.
type Counts = [u128; 5];

/// Counts steps.
fn steps_counted(steps: &[Step]) -> Counts {
    let mut counts: Counts = [0; 5];
    for step in steps {
        let kind: usize = match step {
            Step::Ask { .. } => 0,
            Step::Deliver(_) => 1,
            Step::Leave { .. } => 3,
            Step::Lose(_) | Step::Repeat(_) | Step::Cancel { .. } | Step::Forget { .. } => 4,
        };
        if let Some(count) = counts.get_mut(kind) {
            *count = count.saturating_add(1);
        }
    }
    counts
}

/// Counts marks.
fn marks_counted(marks: &[Mark]) -> Counts {
    let mut counts: Counts = [0; 5];
    for mark in marks {
        let kind: usize = match mark {
            Mark::Requested(_) => 0,
            Mark::Entered(_) => 2,
            Mark::Left(_) => 3,
            Mark::Withdrawn(_) => 4,
        };
        if let Some(count) = counts.get_mut(kind) {
            *count = count.saturating_add(1);
        }
    }
    counts
}

/// Asserts that the steps and marks, counted one by one, are right for this many requests, each granted and left, and
/// this many messages, each delivered.
fn assert_counted(rt: &impl Abort, at: At<'_>, settled: &Settled, requests: u128, sent: u128) {
    let steps = steps_counted(settled.steps.as_slice());
    assert_same(rt, at, &steps, &[requests, sent, 0, requests, 0]);
    let marks = marks_counted(settled.report.marks.as_slice());
    assert_same(rt, at, &marks, &[requests, 0, requests, requests, 0]);
}

/// Returns whether the mark at this place grants a name that another request still holds, and one of the two is a
/// writer's.
fn is_too_early(marks: &[Mark], place: usize) -> bool {
    let Some(Mark::Entered(entered)) = marks.get(place) else {
        return false;
    };
    let mut holders = 0u64;
    for mark in marks.iter().take(place) {
        match mark {
            Mark::Entered(other) if other.name == entered.name && conflict(other, entered) => {
                holders = holders.saturating_add(1);
            }
            Mark::Left(other) if other.name == entered.name && conflict(other, entered) => {
                holders = holders.saturating_sub(1);
            }
            _ => {}
        }
    }
    holders > 0
}

/// Returns whether the requests of two readers or writers conflict.
fn conflict(one: &Entry, other: &Entry) -> bool {
    one.mode != Mode::Shared || other.mode != Mode::Shared
}

/// Returns the first mark of a grant that comes too early, or `None` if none does.
fn first_too_early(marks: &[Mark]) -> Option<Mark> {
    for place in 0..marks.len() {
        if is_too_early(marks, place) {
            return marks.get(place).copied();
        }
    }
    None
}

/// Asserts that this many requests were made and messages sent, and nothing is left: no message is under way, lost
/// or repeated, and no client is waiting or queued. The steps and the marks, counted one by one, must match, and no
/// writer may be inside with another client.
fn assert_done(rt: &impl Abort, at: At<'_>, settled: &Settled, requests: u128, sent: u128) {
    let report = &settled.report;
    assert_same(rt, at, &(report.requests, report.sent), &(requests, sent));
    let messages = (report.under_way, report.lost, report.repeated);
    assert_same(rt, at, &messages, &(0, 0, 0));
    assert_same(rt, at, &(report.waiting, report.queued), &(0, 0));
    assert_counted(rt, at, settled, requests, sent);
    let too_early = first_too_early(report.marks.as_slice());
    assert_same(
        rt,
        part(at.0, "a grant that comes too early"),
        &too_early,
        &None,
    );
}

/// Returns the first two marks that are among these, in the order in which they come.
fn in_order(marks: &[Mark], one: &Mark, other: &Mark) -> (Option<Mark>, Option<Mark>) {
    let mut first = None;
    for mark in marks {
        if *mark == *one || *mark == *other {
            if first.is_some() {
                return (first, Some(*mark));
            }
            first = Some(*mark);
        }
    }
    (first, None)
}

/// Asserts that the client at the first of these nodes enters `r` with number 1, and after it that at the second with
/// number 2. Each client has the number of its node.
fn assert_order(rt: &impl Abort, at: At<'_>, marks: &[Mark], first: u16, second: u16) {
    let one = Mark::Entered(entry(rt, first, u32::from(first), Mode::Exclusive, 1));
    let two = Mark::Entered(entry(rt, second, u32::from(second), Mode::Exclusive, 2));
    let came = in_order(marks, &one, &two);
    assert_same(rt, at, &came, &(Some(one), Some(two)));
}

/// How a script ends.
#[derive(Clone, Copy)]
pub enum End {
    /// With this many requests, which are all granted and left, and this many messages.
    Done(u128, u128),
    /// With four requests and eight messages, and the client at the first of these nodes enters `r` before the one at
    /// the second.
    InOrder(u16, u16),
    /// It does not come to its end, for this reason.
    Fails(ClusterError),
}

/// Asserts that what settled is this end.
fn assert_end(rt: &impl Abort, at: At<'_>, settled: &Settled, end: End) {
    match end {
        End::Done(requests, sent) => assert_done(rt, at, settled, requests, sent),
        End::InOrder(first, second) => {
            assert_done(rt, at, settled, 4, 8);
            assert_order(rt, at, settled.report.marks.as_slice(), first, second);
        }
        End::Fails(fault) => assert_same(rt, at, &None, &Some(fault)),
    }
}

/// Asserts that threads, with a gate, bring the script of this many nodes with these clients to this end.
pub fn assert_ends<R: AllocGlobal + Threads + Wait + Abort + Sync, G: Gate>(
    rt: &R,
    at: At<'_>,
    nodes: u16,
    clients: &[Client],
    gate: &G,
    end: End,
) {
    let Some(script) = script_of(rt.alloc(), nodes, clients) else {
        panic!(rt; "there is no such script");
    };
    let due = match end {
        End::Fails(fault) => Some(fault),
        _ => None,
    };
    match ran(rt, rt.alloc(), &script, gate) {
        Ok(settled) => assert_end(rt, at, &settled, end),
        Err(found) => assert_same(rt, at, &Some(found), &due),
    }
}
