//! Policies as rows name them, and the calls that drive a cluster by them.
use ra_schedule::{
    Choice, Choices, DriveError, Faults, Policy, Recording, Script, Summary, drive, summarize,
};
use std::alloc::Global;

/// What chooses the next step.
#[derive(Clone, Copy)]
pub enum Chooser {
    Oldest,
    Newest,
    /// Random choices from this seed.
    Seeded(u64),
    /// Random choices with faults from this seed: of 1,000 messages this many are lost, and this many repeated.
    Faulty { seed: u64, lose: u16, repeat: u16 },
    /// These choices.
    Listed(&'static [Choice]),
}

/// Returns the random policy with faults, or `None` if such faults are not allowed.
fn faulty(seed: u64, lose: u16, repeat: u16) -> Option<Policy> {
    match Faults::new(lose, repeat) {
        Some(faults) => Some(Policy::Faulty { seed, faults }),
        None => None,
    }
}

/// Returns the policy that makes these choices.
fn listed(alloc: Global, choices: &[Choice]) -> Option<Policy> {
    let mut list = Choices::new(alloc);
    for choice in choices {
        if list.push(*choice).is_err() {
            return None;
        }
    }
    Some(Policy::Listed(list))
}

/// Returns the policy.
pub fn policy(alloc: Global, chooser: Chooser) -> Option<Policy> {
    match chooser {
        Chooser::Oldest => Some(Policy::Oldest),
        Chooser::Newest => Some(Policy::Newest),
        Chooser::Seeded(seed) => Some(Policy::Seeded(seed)),
        Chooser::Faulty { seed, lose, repeat } => faulty(seed, lose, repeat),
        Chooser::Listed(choices) => listed(alloc, choices),
    }
}

/// Returns what `drive` answers.
pub fn driven(
    alloc: Global,
    script: &Script,
    policy: &Policy,
    limit: u64,
) -> Result<Recording, DriveError> {
    drive(alloc, script, policy, limit)
}

/// Returns what `summarize` answers.
pub fn summed(
    alloc: Global,
    script: &Script,
    policy: &Policy,
    limit: u64,
) -> Result<Summary, DriveError> {
    summarize(alloc, script, policy, limit)
}
