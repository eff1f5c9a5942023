//! What is asked of many seeds.
use crate::form::Form;
use ra_schedule::{Ending, Faults, SeedRange};
use ra_script::OutputKind;

/// What is looked for among the runs of many seeds.
#[derive(Clone, Copy)]
pub struct Search {
    /// The end that the run comes to.
    pub ending: Ending,
    /// What is printed of the first run that comes to it.
    pub format: OutputKind,
}

/// Which runs by many seeds are made, and what is looked for among them.
#[derive(Clone, Copy)]
pub struct SurveyTask {
    /// The faults of chance, if it has any.
    pub faults: Option<Faults>,
    /// What is looked for among the runs, if anything is.
    pub find: Option<Search>,
    /// In which form the survey is printed. If something is looked for, it is words.
    pub form: Form,
    /// The seeds, one for each run.
    pub seeds: SeedRange,
}
