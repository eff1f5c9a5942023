//! The wrong lines of a mark log: the first for each name, and how many there are for each cause.
ghost use Rattle.std.specs.Prelude.{◌≡◌, ◌<◌, ◌||◌, ◌∷◌, ◌++◌, [], None, not, length, option_to_list, IfOk, IfSome, OnErr, OnOk};
ghost use Rattle.std.specs.Map.{keys_of};
ghost use Rattle.std.specs.Option.{is_some};
ghost use Rattle.std.specs.Str.{bytes_eq};
ghost use Rattle.indexmap.specs.IndexMap.{get};
ghost use Rattle.ra_trace.specs.LeftOut.{cause_place, count_at, first_of_each, is_met};

use crate::MarkCause;
use indexmap::IndexMap;
use ra_stamp::{GhostList, Memory, Name};
use std::alloc::Global;
use std::marker::Model;

/// A wrong line of a mark log.
#[derive(Clone, Copy, Debug, PartialEq, Eq)]
pub struct WrongLine {
    /// Which, counted from 1.
    pub line: u64,
    /// Why.
    pub cause: MarkCause,
    /// The name of its mark, if it is the line of one.
    pub name: Option<Name>,
}

/// How many causes there are.
const CAUSES: usize = 7;

/// The wrong lines of a mark log, as far as they are told: the first for each name, and how many there are for each
/// cause. Contracts see all of them, in order. It grows with the names that have a wrong line.
pub struct WrongLines {
    /// The first for each name, and the first that has none.
    firsts: Vec<WrongLine>,
    /// The names among them, each with the number of its line.
    names: IndexMap<Name, u64>,
    /// How many there are for each cause, in the order of the causes.
    counts: [u64; CAUSES],
    /// Whether one of them has no name.
    has_nameless: bool,
    /// All of them, for proofs alone.
    all: GhostList<WrongLine>,
}

// What it owns is freed here, so that no other crate proves how each of its parts is dropped.
impl Drop for WrongLines {
    fn drop(self) {
        let WrongLines {
            firsts: _,
            names: _,
            counts: _,
            has_nameless: _,
            all: _,
        } = self;
    }
}

impl Model for WrongLines {
    ghost use Rattle.std.specs.Prelude.{List};
    ghost use Rattle.std.specs.Map.{keys_of};
    ghost use Rattle.ra_trace.specs.declared.mark_log.wrong_lines.WrongLine.{WrongLine};
    ghost use Rattle.ra_trace.specs.LeftOutAlong.{AreKept};

    ghost Value = { List WrongLine };

    ghost view = { λ w. w.all.items };

    ghost invariant = { λ w. AreKept w.firsts.items (keys_of w.names.entries) w.counts w.has_nameless w.all.items };
}

/// Returns the place of a cause among all causes.
fn cause_place(cause: MarkCause) -> usize
    ensures place { result ≡ cause_place cause }
    ensures few { result < 7 }
{
    match cause {
        MarkCause::Line => 0,
        MarkCause::NodeBusy => 1,
        MarkCause::NotAbove => 2,
        MarkCause::NotWaiting => 3,
        MarkCause::Held => 4,
        MarkCause::Earlier => 5,
        MarkCause::NotHeld => 6,
    }
}

/// Keeps a wrong line that is the first on its name, or the first that has none.
///
/// # Errors
///
/// `Memory`: nothing is kept.
fn keep_first(
    firsts: &mut Vec<WrongLine>,
    names: &mut IndexMap<Name, u64>,
    has_nameless: &mut bool,
    wrong: &WrongLine,
) -> Result<(), Memory>
    requires { IfSome wrong.now.name (λ name. get bytes_eq names.old name ≡ None) }
    ensures firsts { OnOk result (firsts.new.items ≡ firsts.old.items ++ wrong.now ∷ []) }
    ensures names { OnOk result
        (keys_of names.new.entries ≡ keys_of names.old.entries ++ option_to_list wrong.now.name) }
    ensures nameless { OnOk result (has_nameless.new ≡ (has_nameless.old || not (is_some wrong.now.name))) }
    ensures err { OnErr result ((firsts.new.items ≡ firsts.old.items)
        × (names.new.entries ≡ names.old.entries) × (has_nameless.new ≡ has_nameless.old)) }
{
    firsts.reserve(1)?;
    match wrong.name {
        Some(name) => {
            names.insert(name, wrong.line)?;
        }
        None => *has_nameless = true,
    }
    firsts.push_reserved(*wrong);
    Ok(())
}

impl WrongLines {
    /// Makes those of a log in which no line is wrong.
    pub fn new(alloc: Global) -> WrongLines
        ensures { result ≡ [] }
    {
        WrongLines {
            firsts: Vec::new(alloc),
            names: IndexMap::new(alloc),
            counts: [0; CAUSES],
            has_nameless: false,
            all: GhostList::new(),
        }
    }

    /// Returns whether one of them is on this name, or has none if that is `None`.
    fn is_met(&self, name: &Option<Name>) -> bool
        ensures { result ≡ is_met name.now self.now }
    {
        match name {
            Some(name) => self.names.contains_key(name),
            None => self.has_nameless,
        }
    }

    /// Adds one after the others, and returns whether it is the first on its name, or the first that has none. It takes
    /// constant time on average.
    ///
    /// # Errors
    ///
    /// `Memory`: memory ran out, and they are as before.
    pub fn add(&mut self, wrong: &WrongLine) -> Result<bool, Memory>
        requires { length self.old < 9223372036854775809 }
        ensures added { OnOk result (self.new ≡ self.old ++ wrong.now ∷ []) }
        ensures first { IfOk result (λ is_first. is_first ≡ not (is_met wrong.now.name self.old)) }
        ensures err { OnErr result (self.new ≡ self.old) }
    {
        let is_first = !self.is_met(&wrong.name);
        if is_first {
            keep_first(
                &mut self.firsts,
                &mut self.names,
                &mut self.has_nameless,
                wrong,
            )?;
        }
        self.counts[cause_place(wrong.cause)] += 1;
        self.all = self.all.and(wrong);
        Ok(is_first)
    }

    /// Returns the first one for each name, and the first that has none, in order.
    pub fn firsts(&self) -> &[WrongLine]
        ensures { result.now ≡ first_of_each self.now }
    {
        &self.firsts
    }

    /// Returns how many are wrong for this cause.
    pub fn count(&self, cause: MarkCause) -> u64
        ensures { result ≡ count_at (cause_place cause) self.now }
    {
        self.counts[cause_place(cause)]
    }
}
