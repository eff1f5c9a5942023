//! What tests do on threads that may wait for one another, so that a test fails if they do not end.
use crate::site_tests::site_steps;
use crate::thread_scripts::own_threads;
use crate::whole_clusters::cluster_asserting::{assert_comes_to, fail_at};
use crate::whole_clusters::cluster_values::in_a_thread;
use crate::whole_clusters::{cluster_clients, cluster_ends};
use ra_cluster::Stop;
use std::process::Abort;
use std::sync::Wait;
use std::sync::atomic::{AtomicU64, Ordering};
use std::thread;
use std::thread::Threads;
use test_support::At;

/// What a cluster does and shows, act by act, with clients on threads of their own.
pub trait Acts: Sync {
    /// Returns whether a thread of its own does the act at this place.
    fn starts_a_thread(&self, place: usize) -> bool;

    /// Does the act at this place, or asserts that it is shown.
    fn act<R: AllocGlobal + Wait + Abort>(&self, rt: &R, place: usize);
}

/// Has a cluster do and show this many acts, in order, and counts the threads that have ended. Ends the test if a
/// thread does not end.
pub fn follow<R: AllocGlobal + Threads + Wait + Abort + Sync, A: Acts>(
    rt: &R,
    words: &str,
    acts: &A,
    count: usize,
    ended: &AtomicU64,
) {
    thread::scope(thread::scope_env(), rt, move |scope| {
        let mut started = 0u64;
        for place in 0..count {
            if acts.starts_a_thread(place) {
                let starts = scope.spawn(move || {
                    acts.act(rt, place);
                    ended.fetch_add(1, Ordering::SeqCst);
                });
                if starts.is_err() {
                    fail_at(rt, At(words, "act", place + 1), "no thread is started");
                }
                started = started.saturating_add(1);
            } else {
                acts.act(rt, place);
            }
        }
        // The scope would wait forever for a client that is not woken.
        let at = At(words, "the threads that end, after act", count);
        assert_comes_to(rt, at, ended, started);
    });
}

/// What is done on a thread of its own.
#[derive(Clone, Copy)]
pub enum Scene {
    /// A cluster of sites does and shows this.
    Sites(&'static site_steps::Row),
    /// A whole cluster does, and if it is stopped, that is for this cause.
    Clients(&'static cluster_clients::Row, Stop),
    /// Threads do a script in a cluster.
    Script(&'static own_threads::Row),
    /// The gate of a cluster lets some steps pass.
    Gate(&'static cluster_ends::Passed),
    /// A cluster of this many nodes is stopped for this cause.
    Stop(u16, Stop),
    /// A cluster runs a closure that starts no client.
    Nothing,
}

/// Does this, and ends the test if anything else happens.
fn perform<R: AllocGlobal + Threads + Wait + Abort + Sync>(rt: &R, scene: Scene) {
    match scene {
        Scene::Sites(row) => site_steps::perform(rt, row),
        Scene::Clients(row, cause) => cluster_clients::perform(rt, row, cause),
        Scene::Script(row) => own_threads::perform(rt, row),
        Scene::Gate(row) => cluster_ends::pass(rt, row),
        Scene::Stop(nodes, cause) => cluster_ends::stop(rt, nodes, cause),
        Scene::Nothing => cluster_ends::run_nothing(rt),
    }
}

/// Does this on a thread of its own. Ends the test if anything else happens, or the thread does not end.
pub fn play<R: AllocGlobal + Threads + Wait + Abort + Sync>(rt: &R, scene: Scene) {
    in_a_thread(rt, move || perform(rt, scene));
}

/// Has clusters of sites do and show these rows.
pub fn play_sites<R: AllocGlobal + Threads + Wait + Abort + Sync>(
    rt: &R,
    rows: &'static [site_steps::Row],
) {
    for row in rows {
        play(rt, Scene::Sites(row));
    }
}
