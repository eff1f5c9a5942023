//! What the random choice keeps from turn to turn.
ghost use Rattle.std.specs.Prelude.{◌≡◌, IfOk, IfSome};
ghost use Rattle.ra_schedule.specs.PolicyState.{IsRandomState, IsRandomStateElsewhere, generator_at, generator_in};
ghost use Rattle.ra_schedule.specs.Progress.{Tracks};

use crate::choice::enabled::Enabled;
use crate::driver::client_progress::Progress;
use crate::script::node_clients::{NodeClients, members_at, node_clients_of};
use crate::{Policy, Script};
use ra_stamp::{Mark, Memory};
use ra_world::{Step, World};
// As in Rust, the traits that seed a generator and draw its words are in that crate.
use rand_core::SeedableRng;
use rand_pcg::Lcg128Xsl64;
use std::alloc::Global;

/// What the random choice is made by.
pub struct RandomState {
    /// The one generator of a run.
    pub generator: Lcg128Xsl64,
    /// The clients of each node.
    pub node_clients: Vec<NodeClients>,
    /// Which clients are enabled.
    pub enabled: Enabled,
}

// What it owns is freed here, so that no function that owns one proves how each of its parts is dropped.
impl Drop for RandomState {
    fn drop(self) {
        let RandomState {
            generator: _,
            node_clients: _,
            enabled: _,
        } = self;
    }
}

impl RandomState {
    /// Makes what the random choice begins with, or `None` if the policy has no seed: then nothing is kept, and no
    /// memory taken.
    ///
    /// # Errors
    ///
    /// `Memory`: memory ran out.
    pub fn of(
        alloc: Global,
        policy: &Policy,
        script: &Script,
        world: &World,
        clients: &[Progress],
    ) -> Result<Option<RandomState>, Memory>
        requires { Tracks script.now world.now clients.now }
        ensures generator { IfOk result (λ random. generator_in random ≡ generator_at policy.now 0) }
        ensures random { IfOk result (λ random. IfSome random (IsRandomState script.now world.now.moves)) }
    {
        let generator = match policy {
            Policy::Seeded(seed) | Policy::Faulty { seed, .. } => {
                Lcg128Xsl64::seed_from_u64(*seed)
            }
            _ => return Ok(None),
        };
        let node_clients = node_clients_of(alloc, script)?;
        let enabled = Enabled::of(alloc, script, world, clients)?;
        Ok(Some(RandomState {
            generator,
            node_clients,
            enabled,
        }))
    }
}

/// Notes a step that was made with these marks, if the choice is random. Only at its node something has changed, so
/// that only the clients there are looked at, and those that entered.
pub fn note_step_in(
    random: &mut Option<RandomState>,
    script: &Script,
    world: &World,
    clients: &[Progress],
    step: &Step,
    marks: &[Mark],
)
    requires tracked { Tracks script.now world.now clients.now }
    requires random { IfSome random.old (IsRandomStateElsewhere step.now marks.now script.now world.now.moves) }
    ensures generator { generator_in random.new ≡ generator_in random.old }
    ensures random { IfSome random.new (IsRandomState script.now world.now.moves) }
{
    let Some(random) = random else {
        return;
    };
    let members = members_at(&random.node_clients, step);
    random.enabled.look_at_all(script, world, clients, members);
    random
        .enabled
        .look_at_entered(script, world, clients, marks);
}
