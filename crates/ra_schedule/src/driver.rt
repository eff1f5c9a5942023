//! How far a cluster was driven.
pub mod begun;
pub mod client_progress;
pub mod client_state;
pub mod drive_script;
pub mod replaying;
pub mod showing;
pub mod shrinking;
pub mod until_refused;

ghost use Rattle.std.specs.Prelude.{◌≡◌, ◌+◌, ◌++◌, ◌∷◌, [], ◌<◌, ◌≤◌, ◌^◌, ◌⊎◌, ℕ, List, length, IsTrue, IsNone, IfOk, IfErr, IfSome, IsErrOf, OnOk, OnErr};
ghost use Rattle.ra_world.specs.Traffic.{Move};
ghost use Rattle.ra_world.specs.Run.{IsRun};
ghost use Rattle.ra_world.specs.declared.step.Step.{Step};
ghost use Rattle.ra_schedule.specs.declared.choice.Choice.{Choice};
ghost use Rattle.ra_schedule.specs.declared.error.DriveError.{DriveError};
ghost use Rattle.ra_schedule.specs.Schedule.{StandsFor};
ghost use Rattle.ra_schedule.specs.Progress.{recorded};
ghost use Rattle.ra_schedule.specs.Driving.{IsDriven, IsReady, IsAtEnd, IsMeaning, HasChosen, HasTakenStep, CannotBeMade, IsStoppedAfter, IsHeldUp};

use crate::choice::picking::{Picked, pick};
use crate::choice::random_state::{RandomState, note_step_in};
use crate::driver::client_progress::{Progress, first_entered, first_free, note_move};
use crate::{Choice, Choices, DriveError, Policy, Script};
use ra_stamp::Memory;
use ra_world::{Step, Steps, World};
use std::alloc::Global;

/// What is kept from turn to turn besides the cluster.
#[derive(Drop)]
pub struct Driver {
    /// How far each client is.
    pub clients: Vec<Progress>,
    /// What the random choice is made by, if there is one.
    random: Option<RandomState>,
    /// Each client before this place waits or has nothing left to do, so that most turns need not look at all clients.
    first: u32,
    /// Whether the steps and choices are recorded.
    records: bool,
    /// The steps so far, if they are recorded.
    pub steps: Steps,
    /// The choices that make these steps.
    pub choices: Choices,
}

impl Driver {
    /// Makes what is kept at first, when nothing has happened yet in the cluster.
    ///
    /// # Errors
    ///
    /// `Memory`: memory ran out.
    pub fn open(
        alloc: Global,
        script: &Script,
        policy: &Policy,
        world: &World,
        records: bool,
    ) -> Result<Driver, Memory>
        requires run { IsRun world.now.count world.now.start world.now.moves }
        requires opened { world.now ≡ record { count = script.now.nodes; start = 0; moves = [] } }
        ensures ready { IfOk result (IsReady script.now policy.now world.now) }
        ensures records { IfOk result (λ driver. driver.records ≡ records) }
    {
        let idle = Progress {
            done: 0,
            waiting: false,
        };
        let clients = vec![in alloc; idle; script.clients() as usize]?;
        let random = RandomState::of(alloc, policy, script, world, &clients)?;
        let steps = Steps::new(alloc);
        let choices = Choices::new(alloc);
        Ok(Driver {
            clients,
            random,
            first: 0,
            records,
            steps,
            choices,
        })
    }

    /// Makes turns until no choice is left. At each, the policy makes a choice, and the step that it means is made.
    ///
    /// # Errors
    ///
    /// Those of `drive`.
    pub fn finish(
        &mut self,
        alloc: Global,
        script: &Script,
        policy: &Policy,
        world: &mut World,
        limit: u64,
    ) -> Result<(), DriveError>
        requires opened { world.old.moves ≡ [] }
        requires ready { IsReady script.now policy.now world.old self.old }
        ensures ok { OnOk result (IsAtEnd script.now policy.now world.new self.new × (length world.new.moves ≤ limit)) }
        ensures records { OnOk result (self.new.records ≡ self.old.records) }
        ensures nodes { (world.new.count ≡ script.now.nodes) × (world.new.start ≡ 0) }
        ensures err { IfErr result (IsStoppedAfter script.now policy.now limit world.new.moves) }
        // Memory ran out at a turn within the limit whose choice can be made.
        ensures memory { IsErrOf result DriveError.Memory → IsHeldUp script.now policy.now limit world.new.moves }
    {
        let mut turns = 0;
        while let Some(picked) = &self.next_choice(script, policy, world) {
            if turns == limit {
                return Err(DriveError::TurnLimit);
            }
            self.take_step(alloc, script, world, picked)?;
            turns += 1;
        }
        Ok(())
    }

    /// Returns the choice that the policy makes next, with its meaning, or `None` at the end.
    #[inline(always)]
    fn next_choice(&mut self, script: &Script, policy: &Policy, world: &World) -> Option<Picked>
        requires { IsReady script.now policy.now world.now self.old }
        ensures some { IfSome result (HasChosen script.now policy.now world.now self.old self.new) }
        ensures none { IsNone result → IsAtEnd script.now policy.now world.now self.new }
        ensures records { self.new.records ≡ self.old.records }
    {
        self.first = first_free(script, &self.clients, self.first);
        pick(
            script,
            policy,
            &mut self.random,
            world,
            &self.clients,
            self.first,
        )
    }

    /// Makes the step that a choice means, if there is one. Both are recorded before the step is made, so that there is
    /// memory for the record.
    ///
    /// # Errors
    ///
    /// Those of `drive`, except for `TurnLimit`: no step was made.
    pub fn take_step(
        &mut self,
        alloc: Global,
        script: &Script,
        world: &mut World,
        picked: &Picked,
    ) -> Result<(), DriveError>
        requires driven { IsDriven script.now world.old self.old }
        requires countable { length world.old.moves + 1 < 2 ^ 64 }
        requires meaning { IsMeaning script.now world.old.moves picked.now.choice picked.now.meaning }
        ensures ok { OnOk result (HasTakenStep script.now picked.now.choice world.old self.old world.new self.new) }
        ensures err { IfErr result (CannotBeMade script.now world.old.moves picked.now.choice) }
        ensures same { OnErr result (world.new ≡ world.old) }
        // If the choice can't be made, that is the answer, and not that memory ran out.
        ensures memory { IsErrOf result DriveError.Memory
            → (step : Step) × StandsFor script.now world.old.moves picked.now.choice step }
    {
        let choice = picked.choice;
        let step = match &picked.meaning {
            Ok(step) => step,
            Err(fault) => return Err(*fault),
        };
        keep(
            &mut self.steps,
            &mut self.choices,
            self.records,
            choice,
            step,
        )?;
        let Ok(outcome) = world.step_near(alloc, step, place_in(choice)) else {
            return Err(DriveError::Memory);
        };
        let marks = outcome.marks.as_slice();
        note_move(&mut self.clients, step, marks);
        self.first = first_entered(marks, self.first);
        note_step_in(&mut self.random, script, world, &self.clients, step, marks);
        Ok(())
    }
}

/// Adds a step and its choice to those that are recorded, if any are.
///
/// # Errors
///
/// `Memory`: memory ran out.
fn keep(
    steps: &mut Steps,
    choices: &mut Choices,
    records: bool,
    choice: Choice,
    step: &Step,
) -> Result<(), Memory>
    ensures steps { (moves : List Move) (move : Move) → move.step ≡ step.now → steps.old.items ≡ recorded records moves
        → OnOk result (steps.new.items ≡ recorded records (moves ++ move ∷ [])) }
    ensures choices { IsTrue records → OnOk result (choices.new.items ≡ choices.old.items ++ choice ∷ []) }
{
    if records {
        steps.push(*step)?;
        choices.push(choice)?;
    }
    Ok(())
}

/// Returns the place of the message that a choice names, or 0 if it names a client.
pub fn place_in(choice: Choice) -> u64
    ensures { (place : ℕ) → (choice ≡ Choice.Message place) ⊎ (choice ≡ Choice.Lost place)
        ⊎ (choice ≡ Choice.Repeated place)
        → result ≡ place }
{
    match choice {
        Choice::Message(place) | Choice::Lost(place) | Choice::Repeated(place) => place,
        Choice::Client(_) => 0,
    }
}
