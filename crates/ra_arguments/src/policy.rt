//! The policy that arguments name.
ghost use Rattle.std.specs.Prelude.{◌≡◌, ◌⊎◌, None, IsErr, IfOk, IfErr};
ghost use Rattle.ra_schedule.specs.ChoicesText.{choices_of};
ghost use Rattle.ra_arguments.specs.Named.{IsNamed};

use crate::command_line::PolicyName;
use ra_schedule::{ChoicesError, Policy, read_choices};
use std::alloc::Global;

/// Returns the policy of a name. The choices are read whatever the name, so that a user learns of a wrong word.
///
/// # Errors
///
/// 1. `Choice`: they are no list of choices.
/// 2. `Memory`, which may come before it.
pub fn policy_of(alloc: Global, name: PolicyName, choices: &str) -> Result<Policy, ChoicesError>
    ensures ok { IfOk result (IsNamed name choices.now) }
    ensures choices { choices_of choices.now ≡ None → IsErr result }
    ensures err { IfErr result (λ fault. ((fault ≡ ChoicesError.Choice) × (choices_of choices.now ≡ None))
        ⊎ (fault ≡ ChoicesError.Memory)) }
{
    let choices = read_choices(alloc, choices)?;
    Ok(match name {
        PolicyName::Oldest => Policy::Oldest,
        PolicyName::Newest => Policy::Newest,
        PolicyName::Seeded(seed) => Policy::Seeded(seed),
        PolicyName::Faulty { seed, faults } => Policy::Faulty { seed, faults },
        PolicyName::Listed => Policy::Listed(choices),
    })
}
