use crate::{Faults, SeedRange};

/// Chance under each seed of a range, with faults or without.
#[derive(Clone, Copy)]
pub struct Chances {
    pub seeds: SeedRange,
    pub faults: Option<Faults>,
}
