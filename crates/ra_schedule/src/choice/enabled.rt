//! Which clients are enabled, kept from turn to turn.
ghost use Rattle.std.specs.Prelude.{◌≡◌, ◌≢◌, ◌+◌, ◌<◌, ℕ, Bool, All, Contains, length, slice_get, slice_index_or, IfOk};
ghost use Rattle.ra_schedule.specs.Schedule.{Enters};
ghost use Rattle.ra_schedule.specs.Progress.{Tracks};
ghost use Rattle.ra_schedule.specs.Enabled.{CountsFlags, AreFlags, AreRightOrKept, IsFlag, numbers_from};

use crate::Script;
use crate::choice::picking::enabled_step;
use crate::driver::client_progress::Progress;
use ra_stamp::{Mark, Memory};
use ra_world::World;
use std::alloc::Global;

/// Which clients are enabled.
#[derive(Drop)]
pub struct Enabled {
    /// For each client, in the order of the script, whether it is.
    pub flags: Vec<bool>,
    /// How many are.
    pub count: u32,
}

impl Enabled {
    /// Looks which clients are enabled.
    ///
    /// # Errors
    ///
    /// `Memory`: memory ran out.
    pub fn of(
        alloc: Global,
        script: &Script,
        world: &World,
        clients: &[Progress],
    ) -> Result<Enabled, Memory>
        requires { Tracks script.now world.now clients.now }
        ensures flags { IfOk result (λ enabled. AreFlags script.now world.now.moves enabled.flags.items) }
        ensures counted { IfOk result (CountsFlags script.now) }
    {
        let flags = vec![in alloc; false; clients.len()]?;
        let mut enabled = Enabled { flags, count: 0 };
        for place in 0..script.clients() {
            enabled.look_at(script, world, clients, place + 1);
        }
        Ok(enabled)
    }

    /// Returns the enabled client with this number, counted from 0 in the order of the script, or `None` past the last
    /// one.
    pub fn at(&self, script: &Script, number: u32) -> Option<u32>
        requires { length self.now.flags.items ≡ length script.now.clients }
        ensures { result ≡ slice_get (numbers_from 1 self.now.flags.items) number }
    {
        let mut left = number;
        for place in 0..script.clients() {
            if !self.flags[place as usize] {
                continue;
            }
            if left == 0 {
                return Some(place + 1);
            }
            left -= 1;
        }
        None
    }

    /// Looks again whether these clients are enabled.
    pub fn look_at_all(
        &mut self,
        script: &Script,
        world: &World,
        clients: &[Progress],
        members: &[u32],
    )
        requires tracked { Tracks script.now world.now clients.now }
        requires counted { CountsFlags script.now self.old }
        ensures counted { CountsFlags script.now self.new }
        ensures flags { AreRightOrKept script.now world.now.moves self.old.flags.items self.new.flags.items
            (λ client. Contains members.now client → ⊥) }
    {
        for member in members {
            self.look_at(script, world, clients, *member);
        }
    }

    /// Looks again whether the clients that entered by these marks are enabled.
    pub fn look_at_entered(
        &mut self,
        script: &Script,
        world: &World,
        clients: &[Progress],
        marks: &[Mark],
    )
        requires tracked { Tracks script.now world.now clients.now }
        requires counted { CountsFlags script.now self.old }
        ensures counted { CountsFlags script.now self.new }
        ensures flags { AreRightOrKept script.now world.now.moves self.old.flags.items self.new.flags.items
            (λ client. All (λ mark. Enters client mark → ⊥) marks.now) }
    {
        for mark in marks {
            if let Mark::Entered(entry) = mark {
                self.look_at(script, world, clients, entry.client);
            }
        }
    }

    /// Looks again whether a client is enabled, if there is such a client.
    fn look_at(&mut self, script: &Script, world: &World, clients: &[Progress], client: u32)
        requires tracked { Tracks script.now world.now clients.now }
        requires counted { CountsFlags script.now self.old }
        ensures counted { CountsFlags script.now self.new }
        ensures this { (k : ℕ) (d : Bool) → k < length self.old.flags.items → k + 1 ≡ client
            → IsFlag script.now world.now.moves (k + 1) (slice_index_or self.new.flags.items k d) }
        ensures others { (k : ℕ) (d : Bool) → k + 1 ≢ client
            → slice_index_or self.new.flags.items k d ≡ slice_index_or self.old.flags.items k d }
    {
        if 1 <= client && client <= script.clients() {
            let place = client as usize - 1;
            let on = enabled_step(script, world, client, clients[place]).is_some();
            let was = self.flags[place];
            self.count = self.count + u32::from(on) - u32::from(was);
            self.flags[place] = on;
        }
    }
}
