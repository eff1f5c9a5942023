ghost use Rattle.std.specs.Prelude.{◌≡◌, List, [], ◌∷◌, ◌++◌};
ghost use Rattle.ra_stamp.specs.declared.entry.Mark as mark;
ghost use Rattle.ra_book.specs.declared.book.grant.Grant as granted;

use ra_stamp::{GhostList, Mark};
use std::marker::Model;

/// Takes the marks of a run in their order, each once. Contracts see the marks that it was told so far, and the grants
/// that it was given, if it takes any. An observer that does not keep the marks has a [`Told`], which takes no memory.
pub trait MarkObserver {
    ghost told: { Self → List mark.Mark };

    ghost granted: { Self → List granted.Grant } = { λ _. [] };

    /// Is called for each mark of the run.
    fn tell(&mut self, mark: &Mark)
        ensures told { told self.new ≡ told self.old ++ mark.now ∷ [] }
        ensures granted { granted self.new ≡ granted self.old };
}

/// The marks that an observer was told, for proofs alone. By itself it is the observer that ignores all.
#[derive(Drop)]
pub struct Told {
    marks: GhostList<Mark>,
}

impl Model for Told {
    ghost use Rattle.std.specs.Prelude.{List};
    ghost use Rattle.ra_stamp.specs.declared.entry.Mark.{Mark};

    ghost Value = { List Mark };

    ghost view = { λ t. t.marks.items };
}

impl Told {
    /// Makes an observer that was told nothing.
    pub fn new() -> Told
        ensures { result ≡ [] }
    {
        Told {
            marks: GhostList::new(),
        }
    }
}

impl MarkObserver for Told {
    ghost told = { λ marks. marks };

    fn tell(&mut self, mark: &Mark) {
        self.marks = self.marks.and(mark);
    }
}
