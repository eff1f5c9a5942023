//! The losses of the frames that are flagged lost.
ghost use Rattle.std.specs.Prelude.{◌≡◌, ◌++◌, All, map, OnOk};
ghost use Rattle.ra_world.specs.declared.step.Step.{Step};
ghost use Rattle.ra_book.specs.Book.{HasHistory};
ghost use Rattle.ra_book.specs.Settled.{all_lost};

use crate::Book;
use ra_stamp::Memory;
use ra_world::{Step, Steps};

/// Puts the loss of each frame that is flagged lost after the steps, by node and then in order of sending.
pub fn push_losses(steps: &mut Steps, books: &[Book]) -> Result<(), Memory>
    ensures ok { OnOk result (steps.new.items ≡ steps.old.items ++ map (λ m. Step.Lose m) (all_lost books.now)) }
    ensures histories { OnOk result (All HasHistory books.now) }
{
    for book in books {
        for place in 0..book.sent_len() {
            let Some(sent) = book.sent(place) else {
                unreachable!()
            };
            if sent.lost {
                steps.push(Step::Lose(sent.frame.message))?;
            }
        }
    }
    Ok(())
}
