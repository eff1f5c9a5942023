//! How names are shortened in labels.
use crate::timeline::Timeline;
use ra_stamp::Name;

/// The most letters that the longest name may have if none is shortened.
const WHOLE: usize = 12;

/// The letters that the shortest name keeps.
const LEAST_KEPT: usize = 8;

/// The fewest letters that are left out, since two dots take their place.
const LEAST_CUT: usize = 3;

/// How many letters of each name are left out at its beginning and at its end. All names have them in common, so
/// different names stay different.
#[derive(Clone, Copy)]
pub struct NameCut {
    pub before: usize,
    pub after: usize,
    /// The letters of the longest name.
    pub longest: usize,
}

/// What names have in common.
#[derive(Clone, Copy)]
struct CommonLetters {
    first: Option<Name>,
    before: usize,
    after: usize,
    shortest: usize,
    longest: usize,
}

/// Returns how many letters two names have in common, at their ends or at their beginnings.
fn same_letters(one: &[u8], other: &[u8], at_end: bool) -> usize {
    let most = one.len().min(other.len());
    for place in 0..most {
        let is_same = if at_end {
            one[one.len() - 1 - place] == other[other.len() - 1 - place]
        } else {
            one[place] == other[place]
        };
        if !is_same {
            return place;
        }
    }
    most
}

impl CommonLetters {
    /// Takes a name.
    fn take(&mut self, name: &Name) {
        let other = name.bytes();
        let Some(first) = self.first else {
            *self = CommonLetters {
                first: Some(*name),
                before: other.len(),
                after: other.len(),
                shortest: other.len(),
                longest: other.len(),
            };
            return;
        };
        self.before = self.before.min(same_letters(first.bytes(), other, false));
        self.after = self.after.min(same_letters(first.bytes(), other, true));
        self.shortest = self.shortest.min(other.len());
        self.longest = self.longest.max(other.len());
    }
}

/// Returns how the names of what is drawn are shortened. It is linear in what is drawn.
pub fn name_cut_of(timeline: &Timeline) -> NameCut {
    let mut common = CommonLetters {
        first: None,
        before: 0,
        after: 0,
        shortest: 0,
        longest: 0,
    };
    for path in &timeline.paths.drawn {
        common.take(&path.message.name());
    }
    for row in &timeline.rows {
        if let Some(act) = &row.act
            && let Some(key) = act.key()
        {
            common.take(&key.name);
        }
    }
    let longest = common.longest;
    if longest <= WHOLE {
        return NameCut {
            before: 0,
            after: 0,
            longest,
        };
    }
    let spare = common.shortest.saturating_sub(LEAST_KEPT);
    let mut before = common.before.min(spare);
    if before < LEAST_CUT {
        before = 0;
    }
    let mut after = common.after.min(spare.saturating_sub(before));
    if after < LEAST_CUT {
        after = 0;
    }
    NameCut {
        before,
        after,
        longest,
    }
}

impl NameCut {
    /// Returns what a label has of a name.
    pub fn shown<'a>(&self, name: &'a [u8]) -> &'a [u8] {
        let from = self.before.min(name.len());
        let to = name.len().saturating_sub(self.after).max(from);
        &name[from..to]
    }

    /// Returns how many letters a label has of a name with this many.
    pub fn letters_of(&self, letters: usize) -> usize {
        if self.before == 0 && self.after == 0 {
            letters
        } else {
            letters
                .saturating_sub(self.before.saturating_add(self.after))
                .saturating_add(4)
        }
    }
}
