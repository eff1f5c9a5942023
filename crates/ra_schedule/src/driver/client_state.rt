//! What a client is at after the steps so far.
ghost use Rattle.std.specs.Prelude.{◌≡◌, List, length, string_bytes, IfOk};
ghost use Rattle.ra_world.specs.Traffic.{Move};
ghost use Rattle.ra_text.specs.Drafting.{Adds};
ghost use Rattle.ra_schedule.specs.Schedule.{IsWaiting, steps_of};
ghost use Rattle.ra_schedule.specs.Progress.{IsProgress, IsWaitingAt, Tracks};
ghost use Rattle.ra_schedule.specs.StateText as spec;

use crate::choice::picking::enabled_step;
use crate::driver::client_progress::Progress;
use crate::{Op, Script};
use ra_stamp::{Memory, Mode, Name};
use ra_text::Draft;
use ra_world::{Step, World};
use std::alloc::Global;

/// What a client is at.
#[derive(Clone, Copy)]
pub enum ClientState {
    /// It has nothing left to do.
    Done,
    /// It waits for a name in a mode, for which it asked in the step with this number, counted from 1.
    Waits(Name, Mode, u64),
    /// This is its next operation, and whether it is enabled.
    Next(Op, bool),
}

/// Returns what a client waits for, and since when: its last ask among these steps. The cost is linear in the number of
/// steps after it.
fn waits_since(steps: &[Step], client: u32) -> ClientState
    ensures { (moves : List Move) → steps.now ≡ steps_of moves → IsWaiting client moves
        → IsWaitingAt client moves result }
{
    let mut rest = steps;
    while let Some((last, before)) = rest.split_last() {
        if let Step::Ask {
            client: asker,
            name,
            mode,
            ..
        } = *last
        {
            if asker == client {
                return ClientState::Waits(name, mode, rest.len() as u64);
            }
        }
        rest = before;
    }
    // A client that waits has asked.
    ClientState::Done
}

/// Returns what a client is at, which has come this far.
fn state_of(
    script: &Script,
    world: &World,
    steps: &[Step],
    client: u32,
    progress: Progress,
) -> ClientState
    requires count { world.now.count ≡ script.now.nodes }
    requires start { world.now.start ≡ 0 }
    requires progress { IsProgress client world.now.moves progress }
    requires steps { steps.now ≡ steps_of world.now.moves }
    ensures { spec.IsClientState script.now world.now.moves client result }
{
    if progress.waiting {
        return waits_since(steps, client);
    }
    match script.op(client, progress.done) {
        None => ClientState::Done,
        Some(op) => {
            let enabled = enabled_step(script, world, client, progress).is_some();
            ClientState::Next(op, enabled)
        }
    }
}

/// Adds what a client is at, in words.
fn push_state(text: &mut Draft, state: ClientState)
    ensures { Adds text.old (spec.state_fields state) text.new }
{
    match state {
        ClientState::Done => text.push_field("done"),
        ClientState::Waits(name, mode, number) => {
            text.push_field("waits");
            text.push_field(name.as_str());
            text.push_field(mode.word());
            text.push_number(number);
        }
        ClientState::Next(op, enabled) => {
            text.push_field("next");
            match op {
                Op::Lock(name, mode) => {
                    text.push_field("lock");
                    text.push_field(name.as_str());
                    text.push_field(mode.word());
                }
                Op::Unlock(name) => {
                    text.push_field("unlock");
                    text.push_field(name.as_str());
                }
            }
            text.push_field(if enabled { "enabled" } else { "blocked" });
        }
    }
}

/// Returns the lines of the clients after these steps, in order.
///
/// # Errors
///
/// `Memory`: there is none for them.
pub fn client_lines(
    alloc: Global,
    script: &Script,
    world: &World,
    steps: &[Step],
    clients: &[Progress],
) -> Result<String, Memory>
    requires tracked { Tracks script.now world.now clients.now }
    requires steps { steps.now ≡ steps_of world.now.moves }
    ensures { IfOk result (λ text.
        spec.AreClientLines script.now world.now.moves (length script.now.clients) (string_bytes text)) }
{
    let mut text = Draft::new(alloc);
    for place in 0..script.clients() {
        let client = place + 1;
        let Some(node) = script.node_of(client) else {
            unreachable!()
        };
        let state = state_of(script, world, steps, client, clients[place as usize]);
        text.push("client");
        text.push_number(client);
        text.push_number(node.get());
        push_state(&mut text, state);
        text.end_line();
    }
    text.finish()
}
