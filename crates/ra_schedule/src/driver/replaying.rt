//! A run that does again what the steps of another one did, as far as it can.
ghost use Rattle.std.specs.Prelude.{◌≡◌, ◌+◌, ◌<◌, ◌≤◌, ◌^◌, ◌⊎◌, ◌↔◌, [], ℕ, length, IsTrue, IsNone, IfOk, IfSome, OnOk};
ghost use Rattle.ra_schedule.specs.declared.choice.Choice.{Choice};
ghost use Rattle.ra_schedule.specs.Shrinking as spec;
ghost use Rattle.ra_schedule.specs.Shrinking.{ComesOf, GoesOnOldest, IsAlikeAt, IsFirstAlike, IsFor, IsAtStandstill, IsStuckRun, Replays};
ghost use Rattle.ra_schedule.specs.Replaying.{IsReplay, MadeIfPossible};

use crate::choice::picking::with_meaning;
use crate::driver::Driver;
use crate::driver::begun::{is_stuck, oldest};
use crate::{Choice, Script};
use ra_stamp::{Memory, Message};
use ra_world::{Step, World};
use std::alloc::Global;

/// Returns the message without its number.
fn unnumbered(message: &Message) -> Message
    ensures { result ≡ spec.unnumbered message.now }
{
    match *message {
        Message::Request {
            from,
            to,
            name,
            mode,
            ..
        } => Message::Request {
            from,
            to,
            name,
            mode,
            seq: 0,
        },
        Message::Reply { from, to, name, .. } => Message::Reply {
            from,
            to,
            name,
            seq: 0,
        },
    }
}

/// Returns the place of the first message under way that differs from this one at most in its number, or `None`.
fn place_like(world: &World, message: &Message) -> Option<u64>
    ensures some { IfSome result (IsFirstAlike world.now.moves message.now) }
    ensures none { IsNone result → (place : ℕ) → IsAlikeAt world.now.moves message.now place → ⊥ }
{
    let sought = unnumbered(message);
    for place in 0..world.under_way() {
        let Some(found) = world.message_at(place) else {
            continue;
        };
        if unnumbered(&found) == sought {
            return Some(place);
        }
    }
    None
}

/// Returns the choice that does a step again, whether it can be made now or not, or `None` if there is no such message.
fn choice_for(world: &World, step: &Step) -> Option<Choice>
    ensures some { IfSome result (IsFor world.now.moves step.now) }
    ensures none { IsNone result → (choice : Choice) → IsFor world.now.moves step.now choice → ⊥ }
{
    let message = match step {
        Step::Ask { client, .. } | Step::Leave { client, .. } => {
            return Some(Choice::Client(*client));
        }
        Step::Cancel { .. } | Step::Forget { .. } => return None,
        Step::Deliver(message) | Step::Lose(message) | Step::Repeat(message) => message,
    };
    let place = place_like(world, message)?;
    Some(match step {
        Step::Lose(_) => Choice::Lost(place),
        Step::Repeat(_) => Choice::Repeated(place),
        _ => Choice::Message(place),
    })
}

/// Makes a choice, if it can be made.
///
/// # Errors
///
/// `Memory`: memory ran out.
fn make(
    alloc: Global,
    script: &Script,
    world: &mut World,
    driver: &mut Driver,
    choice: Choice,
) -> Result<(), Memory>
    requires replay { IsReplay script.now world.old driver.old }
    requires countable { length world.old.moves + 1 < 2 ^ 64 }
    ensures { OnOk result (IsReplay script.now world.new driver.new
        × MadeIfPossible script.now choice world.old.moves world.new.moves) }
{
    let picked = with_meaning(script, world, &driver.clients, choice);
    if let Err(_) = picked.meaning {
        return Ok(());
    }
    match driver.take_step(alloc, script, world, &picked) {
        Ok(()) => Ok(()),
        Err(_) => Err(Memory),
    }
}

/// Does what steps did, one after the other, each if it can be done then.
///
/// # Errors
///
/// `Memory`: memory ran out.
fn redo_all(
    alloc: Global,
    script: &Script,
    world: &mut World,
    driver: &mut Driver,
    steps: &[Step],
) -> Result<(), Memory>
    requires opened { world.old.moves ≡ [] }
    requires replay { IsReplay script.now world.old driver.old }
    ensures replay { OnOk result (IsReplay script.now world.new driver.new) }
    ensures replays { OnOk result (Replays script.now [] steps.now world.new.moves) }
{
    for step in steps {
        if let Some(choice) = choice_for(world, step) {
            make(alloc, script, world, driver, choice)?;
        }
    }
    Ok(())
}

/// Goes on with the oldest choice of those that have begun, until no such choice is left, or there are this many steps.
///
/// # Errors
///
/// `Memory`: memory ran out.
fn go_on(
    alloc: Global,
    script: &Script,
    world: &mut World,
    driver: &mut Driver,
    limit: u64,
) -> Result<(), Memory>
    requires { IsReplay script.now world.old driver.old }
    ensures replay { OnOk result (IsReplay script.now world.new driver.new) }
    ensures goes_on { OnOk result (GoesOnOldest script.now world.old.moves world.new.moves) }
    ensures ends { OnOk result ((limit ≤ length world.new.moves) ⊎ IsAtStandstill script.now world.new.moves) }
{
    for _turn in world.steps()..limit {
        let Some(choice) = oldest(script, world, &driver.clients) else {
            return Ok(());
        };
        make(alloc, script, world, driver, choice)?;
    }
    Ok(())
}

/// Does what steps did, as far as it can be done, and goes on with the oldest choice of those that have begun, until no
/// such choice is left, or there are this many steps. Returns whether the run is stuck then, with fewer steps.
///
/// # Errors
///
/// `Memory`: memory ran out.
pub fn replay(
    alloc: Global,
    script: &Script,
    world: &mut World,
    driver: &mut Driver,
    steps: &[Step],
    limit: u64,
) -> Result<bool, Memory>
    requires opened { world.old.moves ≡ [] }
    requires replay { IsReplay script.now world.old driver.old }
    ensures replay { OnOk result (IsReplay script.now world.new driver.new) }
    ensures comes { OnOk result (ComesOf script.now steps.now limit world.new.moves) }
    ensures shorter { IfOk result
        (λ is. IsTrue is ↔ ((length world.new.moves < limit) × IsStuckRun script.now world.new.moves)) }
{
    redo_all(alloc, script, world, driver, steps)?;
    go_on(alloc, script, world, driver, limit)?;
    if world.steps() >= limit {
        return Ok(false);
    }
    Ok(is_stuck(script, world, &driver.clients))
}
