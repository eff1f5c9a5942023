//! Observers, which learn how far a survey of many seeds is.
ghost use Rattle.std.specs.Prelude.{[], ◌∷◌, List, Option, None};
ghost use Rattle.ra_schedule.specs.Telling.{Told, Tells};

use crate::SeedOutcome;

/// Is told of the run by each of many seeds, since all together may take long.
pub trait Observer {
    // Each seed that the observer has learned of, with its outcome, in order, if its contract tells them.
    ghost told: { Self → Option (List Told) } = { λ _. None };

    /// Is called after the run of each seed, in their order, with its outcome.
    fn ended(&mut self, seed: u64, outcome: SeedOutcome)
        ensures { Tells (told self.old) (told self.new) (record { seed = seed; outcome = outcome } ∷ []) };
}

/// The observer that ignores everything.
impl Observer for () {
    fn ended(&mut self, _seed: u64, _outcome: SeedOutcome) {}
}
