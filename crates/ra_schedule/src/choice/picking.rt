//! Which choice comes next, and what it means.
ghost use Rattle.std.specs.Prelude.{◌≡◌, ◌≢◌, ◌<◌, ◌+◌, ◌⊎◌, ℕ, List, Some, length, option_map, slice_get, IsSome, IsNone, IsErrOf, IfOk, IfErr, IfSome};
ghost use Rattle.ra_world.specs.declared.step.Step.{Step};
ghost use Rattle.ra_schedule.specs.declared.choice.Choice.{Choice};
ghost use Rattle.ra_schedule.specs.declared.error.DriveError.{DriveError};
ghost use Rattle.ra_schedule.specs.Script.{client_at, op_at};
ghost use Rattle.ra_schedule.specs.Schedule.{Enables, IsEnabled, IsFirstEnabled, StandsFor, Picks, Ends};
ghost use Rattle.ra_schedule.specs.Driving.{HasFault, IsMeaning};
ghost use Rattle.ra_schedule.specs.Progress.{Tracks, IsProgress, WaitOrAreDone};
ghost use Rattle.ra_schedule.specs.PolicyState.{IsRandomState, generator_at, generator_in, words_drawn, words_for};

use crate::choice::random_choice::choose;
use crate::choice::random_state::RandomState;
use crate::driver::client_progress::Progress;
use crate::{Choice, DriveError, Op, Policy, Script};
use ra_world::{Step, World};

/// Returns the step of a client with this progress if it is enabled, or `None`.
pub fn enabled_step(script: &Script, world: &World, client: u32, progress: Progress) -> Option<Step>
    requires count { world.now.count ≡ script.now.nodes }
    requires start { world.now.start ≡ 0 }
    requires progress { IsProgress client world.now.moves progress }
    ensures some { IfSome result (Enables script.now world.now.moves client) }
    ensures none { IsNone result → IsEnabled script.now world.now.moves client → ⊥ }
{
    if progress.waiting {
        return None;
    }
    let node = script.node_of(client)?;
    let op = script.op(client, progress.done)?;
    let step = match op {
        Op::Lock(name, mode) => Step::Ask {
            node,
            client,
            name,
            mode,
        },
        Op::Unlock(name) => Step::Leave { node, client, name },
    };
    if world.accepts(&step) {
        Some(step)
    } else {
        None
    }
}

/// A choice, and the step that it means, or why it can't be made.
#[derive(Clone, Copy)]
pub struct Picked {
    pub choice: Choice,
    pub meaning: Result<Step, DriveError>,
}

/// The first client that is enabled, and its step.
#[derive(Clone, Copy)]
struct FirstEnabled {
    client: u32,
    step: Step,
}

/// Returns the first enabled client in the order of the script, or `None`. None is before the place `first`.
fn first_enabled(
    script: &Script,
    world: &World,
    clients: &[Progress],
    first: u32,
) -> Option<FirstEnabled>
    requires tracked { Tracks script.now world.now clients.now }
    requires stuck { WaitOrAreDone script.now clients.now first }
    ensures first { IfSome result (λ found. IsFirstEnabled script.now world.now.moves found.client) }
    ensures step { IfSome result (λ found. Enables script.now world.now.moves found.client found.step) }
    ensures none { IsNone result → (client : ℕ) → IsEnabled script.now world.now.moves client → ⊥ }
{
    for place in first..script.clients() {
        let client = place + 1;
        let progress = clients[place as usize];
        if let Some(step) = enabled_step(script, world, client, progress) {
            return Some(FirstEnabled { client, step });
        }
    }
    None
}

/// Returns a choice with its meaning.
pub fn with_meaning(script: &Script, world: &World, clients: &[Progress], choice: Choice) -> Picked
    requires { Tracks script.now world.now clients.now }
    ensures choice { result.choice ≡ choice }
    ensures meaning { IsMeaning script.now world.now.moves choice result.meaning }
{
    let meaning = meaning(script, world, clients, choice);
    Picked { choice, meaning }
}

/// Returns the choice that the policy makes next, with its meaning, or `None` at the end. No client before the place
/// `first` is enabled.
#[inline(always)]
pub fn pick(
    script: &Script,
    policy: &Policy,
    random: &mut Option<RandomState>,
    world: &World,
    clients: &[Progress],
    first: u32,
) -> Option<Picked>
    requires tracked { Tracks script.now world.now clients.now }
    requires stuck { WaitOrAreDone script.now clients.now first }
    requires random { IfSome random.old (IsRandomState script.now world.now.moves) }
    requires drawn { generator_in random.old ≡ generator_at policy.now (words_drawn policy.now world.now.moves) }
    ensures some { IfSome result (λ picked. Picks script.now policy.now world.now.moves picked.choice) }
    ensures meaning { IfSome result (λ picked. IsMeaning script.now world.now.moves picked.choice picked.meaning) }
    ensures none { IsNone result → Ends script.now policy.now world.now.moves }
    ensures drawn { IfSome result (λ picked. generator_in random.new
        ≡ generator_at policy.now (words_drawn policy.now world.now.moves + words_for policy.now picked.choice)) }
    ensures random { IfSome random.new (IsRandomState script.now world.now.moves) }
{
    if let Policy::Listed(choices) = policy {
        let choice = choices.at(world.steps())?;
        return Some(with_meaning(script, world, clients, choice));
    }
    if let Some(random) = random {
        let choice = choose(
            policy,
            &mut random.generator,
            script,
            world,
            &random.enabled,
        )?;
        return Some(with_meaning(script, world, clients, choice));
    }
    if let Some(found) = first_enabled(script, world, clients, first) {
        return Some(Picked {
            choice: Choice::Client(found.client),
            meaning: Ok(found.step),
        });
    }
    let messages = world.under_way();
    if messages == 0 {
        return None;
    }
    let choice = match policy {
        Policy::Newest => Choice::Message(messages - 1),
        _ => Choice::Message(0),
    };
    Some(with_meaning(script, world, clients, choice))
}

/// Returns what a choice means.
///
/// # Errors
///
/// The first that holds:
///
/// 1. `BadPlace`: there is no such client or message.
/// 2. `NotEnabled`: the client is not enabled.
fn meaning(
    script: &Script,
    world: &World,
    clients: &[Progress],
    choice: Choice,
) -> Result<Step, DriveError>
    requires { Tracks script.now world.now clients.now }
    ensures ok { IfOk result (StandsFor script.now world.now.moves choice) }
    ensures err { IfErr result (HasFault script.now world.now.moves choice) }
{
    match choice {
        Choice::Client(client) => {
            if client == 0 || client > script.clients() {
                return Err(DriveError::BadPlace);
            }
            let progress = clients[client as usize - 1];
            enabled_step(script, world, client, progress).ok_or(DriveError::NotEnabled)
        }
        Choice::Message(place) => match world.message_at(place) {
            Some(message) => Ok(Step::Deliver(message)),
            None => Err(DriveError::BadPlace),
        },
        Choice::Lost(place) => match world.message_at(place) {
            Some(message) => Ok(Step::Lose(message)),
            None => Err(DriveError::BadPlace),
        },
        Choice::Repeated(place) => match world.message_at(place) {
            Some(message) => Ok(Step::Repeat(message)),
            None => Err(DriveError::BadPlace),
        },
    }
}
