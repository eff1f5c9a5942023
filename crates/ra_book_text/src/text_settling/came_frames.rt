//! What came to the nodes.
ghost use Rattle.std.specs.Prelude.{◌≡◌, ◌++◌, OnOk};
ghost use Rattle.ra_book_text.specs.Texts.{came_by};

use ra_book::BookKind;
use ra_frame::Frame;
use ra_stamp::{Memory, Sequence};

/// A frame that comes, and the number of its line in the text, counted from 1.
#[derive(Clone, Copy)]
pub struct Came {
    pub line: u64,
    pub frame: Frame,
}

/// A list of them.
pub type CameList = Sequence<Came>;

/// Keeps the frame that comes by an event in this line, if one does, in amortized constant time.
pub fn note(came: &mut CameList, line: u64, kind: &BookKind) -> Result<(), Memory>
    ensures { OnOk result (came.new.items ≡ came.old.items ++ came_by line kind.now) }
{
    if let BookKind::Receive(frame) = kind {
        let frame = *frame;
        came.push(Came { line, frame })?;
    }
    Ok(())
}
