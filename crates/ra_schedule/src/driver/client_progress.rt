//! How far the clients are.
ghost use Rattle.std.specs.Prelude.{◌≡◌, ◌≢◌, ◌+◌, ◌<◌, ◌≤◌, ◌||◌, ℕ, length, false, slice_index_or};
ghost use Rattle.ra_world.specs.Traffic.{Move};
ghost use Rattle.ra_schedule.specs.Progress.{IsAfterMarks, IsProgressAfter, OfEach, AreCountable, WaitOrAreDone, NoneEnters};

use crate::Script;
use ra_stamp::Mark;
use ra_world::Step;

/// How far a client is in its list.
#[derive(Clone, Copy)]
pub struct Progress {
    /// How many of its operations are done, the one that it waits for among them.
    pub done: u64,
    /// Whether it has asked and not entered since.
    pub waiting: bool,
}

/// Returns the place of the first client that does not wait and has something left to do, or the number of clients if
/// there is none. There must be none before the place `first`.
pub fn first_free(script: &Script, clients: &[Progress], first: u32) -> u32
    requires alike { length clients.now ≡ length script.now.clients }
    requires stuck { WaitOrAreDone script.now clients.now first }
    ensures { WaitOrAreDone script.now clients.now result }
{
    for place in first..script.clients() {
        let progress = clients[place as usize];
        if !progress.waiting && script.op(place + 1, progress.done).is_some() {
            return place;
        }
    }
    script.clients()
}

/// Returns the place of the first client before `first` that entered, or `first` if there is none.
pub fn first_entered(marks: &[Mark], first: u32) -> u32
    ensures not_past { result ≤ first }
    ensures none { NoneEnters result marks.now }
{
    let mut place = first;
    for mark in marks {
        if let Mark::Entered(entry) = mark {
            place = place.min(entry.client.saturating_sub(1));
        }
    }
    place
}

/// Moves a client on by one operation. It then waits if this is an ask.
fn advance(list: &mut [Progress], client: u32, asks: bool)
    requires { AreCountable list.old }
    ensures others { (k : ℕ) (d : Progress) → k + 1 ≢ client
        → slice_index_or list.new k d ≡ slice_index_or list.old k d }
    ensures this { (k : ℕ) (d : Progress) → k < length list.old → k + 1 ≡ client
        → slice_index_or list.new k d ≡ record {
          done = (slice_index_or list.old k d).done + 1;
          waiting = asks || (slice_index_or list.old k d).waiting;
        } }
{
    let number = client as usize;
    if 1 <= number && number <= list.len() {
        let progress = &mut list[number - 1];
        progress.done += 1;
        progress.waiting = asks || progress.waiting;
    }
}

/// Notes that a client entered.
fn stop_waiting(list: &mut [Progress], client: u32)
    ensures others { (k : ℕ) (d : Progress) → k + 1 ≢ client
        → slice_index_or list.new k d ≡ slice_index_or list.old k d }
    ensures this { (k : ℕ) (d : Progress) → k < length list.old → k + 1 ≡ client
        → slice_index_or list.new k d ≡ record (slice_index_or list.old k d) { waiting = false } }
{
    let number = client as usize;
    if 1 <= number && number <= list.len() {
        list[number - 1].waiting = false;
    }
}

/// Notes marks: a client that entered waits no longer.
fn note_marks(list: &mut [Progress], marks: &[Mark])
    ensures { OfEach (λ client old new. IsAfterMarks client marks.now old new) list.old list.new }
{
    for mark in marks {
        if let Mark::Entered(entry) = mark {
            stop_waiting(list, entry.client);
        }
    }
}

/// Notes a step and its marks: its client moves on, and those that entered wait no longer.
pub fn note_move(list: &mut [Progress], step: &Step, marks: &[Mark])
    requires { AreCountable list.old }
    ensures { (move : Move) → move.step ≡ step.now → move.marks ≡ marks.now
        → OfEach (IsProgressAfter move) list.old list.new }
{
    match *step {
        Step::Ask { client, .. } => advance(list, client, true),
        Step::Leave { client, .. } => advance(list, client, false),
        Step::Cancel { .. }
        | Step::Deliver(_)
        | Step::Lose(_)
        | Step::Repeat(_)
        | Step::Forget { .. } => {}
    }
    note_marks(list, marks);
}
