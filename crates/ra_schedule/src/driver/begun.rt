//! What is left to do for the clients that have begun, and when a run of theirs is stuck.
ghost use Rattle.std.specs.Prelude.{◌↔◌, IsTrue, IsNone, IfSome};
ghost use Rattle.ra_schedule.specs.Progress.{Tracks};
ghost use Rattle.ra_schedule.specs.Shrinking.{IsOldest, IsAtStandstill, IsStuckRun};

use crate::choice::picking::enabled_step;
use crate::driver::client_progress::Progress;
use crate::{Choice, Script};
use ra_world::World;

/// Returns the oldest choice of the clients that have begun, or `None` if there is none: the first client that is
/// enabled, in the order of the script, or, if no client is, the message under way that was sent first.
pub fn oldest(script: &Script, world: &World, clients: &[Progress]) -> Option<Choice>
    requires { Tracks script.now world.now clients.now }
    ensures some { IfSome result (IsOldest script.now world.now.moves) }
    ensures none { IsNone result → IsAtStandstill script.now world.now.moves }
{
    for place in 0..script.clients() {
        let client = place + 1;
        let progress = clients[place as usize];
        if progress.done > 0 && enabled_step(script, world, client, progress).is_some() {
            return Some(Choice::Client(client));
        }
    }
    if world.under_way() == 0 {
        return None;
    }
    Some(Choice::Message(0))
}

/// Returns whether the run is stuck: none of those that have begun can go on, and some client waits.
pub fn is_stuck(script: &Script, world: &World, clients: &[Progress]) -> bool
    requires { Tracks script.now world.now clients.now }
    ensures { IsTrue result ↔ IsStuckRun script.now world.now.moves }
{
    if let Some(_) = oldest(script, world, clients) {
        return false;
    }
    for progress in clients {
        if progress.waiting {
            return true;
        }
    }
    false
}
