//! Which choice the words of a turn make.
ghost use Rattle.std.specs.Prelude.{◌≡◌, ◌+◌, List, [], Some, IsSome, IsNone, IfSome};
ghost use Rattle.rand_pcg.specs.Pcg.{pcg64};
ghost use Rattle.ra_schedule.specs.declared.choice.Choice.{Choice};
ghost use Rattle.ra_schedule.specs.Schedule.{AreChoices, IsNamedBy, Picks, Ends};
ghost use Rattle.ra_schedule.specs.PolicyState.{IsWithoutFault, generator_at, words_drawn, words_for};
ghost use Rattle.ra_schedule.specs.Enabled.{CountsFlags, AreFlags};

use crate::choice::enabled::Enabled;
use crate::{Choice, Policy, Script};
use ra_world::World;
use rand_core::utils::NextWord;
use rand_pcg::Lcg128Xsl64;

/// Draws a word and returns the choice that it names. If there is no choice, it draws none and returns `None`.
fn draw(
    generator: &mut Lcg128Xsl64,
    script: &Script,
    world: &World,
    enabled: &Enabled,
) -> Option<Choice>
    requires flags { AreFlags script.now world.now.moves enabled.now.flags.items }
    requires counted { CountsFlags script.now enabled.now }
    ensures some { IfSome result (IsNamedBy (pcg64 generator.old).0 script.now world.now.moves) }
    ensures named { IfSome result IsWithoutFault }
    ensures none { IsNone result → AreChoices script.now world.now.moves [] }
    ensures drawn { IsSome result → generator.new ≡ (pcg64 generator.old).1 }
    ensures kept { IsNone result → generator.new ≡ generator.old }
{
    // No contract says that the clients and the messages under way together are fewer than 2^64.
    let count = u128::from(enabled.count);
    let choices = count + u128::from(world.under_way());
    if choices == 0 {
        return None;
    }
    let number = u128::from(generator.next_word()) % choices;
    if number < count {
        let client = enabled.at(script, number as u32)?;
        Some(Choice::Client(client))
    } else {
        Some(Choice::Message((number - count) as u64))
    }
}

/// Draws the words of a turn and returns the choice that the policy makes by them. At the end it draws none and returns
/// `None`.
pub fn choose(
    policy: &Policy,
    generator: &mut Lcg128Xsl64,
    script: &Script,
    world: &World,
    enabled: &Enabled,
) -> Option<Choice>
    requires flags { AreFlags script.now world.now.moves enabled.now.flags.items }
    requires counted { CountsFlags script.now enabled.now }
    requires drawn { Some generator.old ≡ generator_at policy.now (words_drawn policy.now world.now.moves) }
    ensures some { IfSome result (Picks script.now policy.now world.now.moves) }
    ensures none { IsNone result → Ends script.now policy.now world.now.moves }
    ensures drawn { IfSome result (λ choice.
        Some generator.new
        ≡ generator_at policy.now (words_drawn policy.now world.now.moves + words_for policy.now choice)) }
{
    let named = draw(generator, script, world, enabled)?;
    let Policy::Faulty { faults, .. } = policy else {
        return Some(named);
    };
    let Choice::Message(place) = named else {
        return Some(named);
    };
    Some(faults.befall(generator.next_word(), place))
}
