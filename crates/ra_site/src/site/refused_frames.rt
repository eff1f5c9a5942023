//! The frames that a book sent and the post refused.
ghost use Rattle.std.specs.Prelude.{◌≡◌, ◌++◌, ◌∷◌, [], IfOk, OnOk};
ghost use Rattle.ra_site.specs.Losses.{lost_frames};

use crate::{Book, Sent};
use ra_frame::Frame;
use ra_stamp::Memory;
use std::alloc::Global;

/// Returns the frames of a book that are flagged lost, in order of sending. The cost is linear in the frames that it
/// has.
///
/// # Errors
///
/// `Memory`: memory ran out.
pub fn lost_of(alloc: Global, book: &Book) -> Result<Vec<Frame>, Memory>
    ensures { IfOk result (λ lost. lost.items ≡ lost_frames book.now.sent) }
{
    let mut lost = Vec::new(alloc);
    for place in 0..book.sent_len() {
        let Some(sent) = book.sent(place) else {
            unreachable!()
        };
        push_if_lost(&mut lost, &sent)?;
    }
    Ok(lost)
}

/// Puts a frame after these, if it is flagged lost.
fn push_if_lost(lost: &mut Vec<Frame>, sent: &Sent) -> Result<(), Memory>
    ensures { OnOk result (lost.new.items ≡ lost.old.items ++ lost_frames (sent.now ∷ [])) }
{
    if !sent.lost {
        return Ok(());
    }
    lost.reserve(1)?;
    // Field by field, since the proof of a copy of the frame is not told of the type of its message.
    let Frame { clock, message } = sent.frame;
    lost.push_reserved(Frame { clock, message });
    Ok(())
}
