ghost use Rattle.std.specs.Prelude.{◌≡◌};
ghost use Rattle.ra_stamp.specs.Mode as spec;

use Mode::{Exclusive, IntentExclusive, IntentShared, Shared, SharedIntentExclusive};
use std::fmt;

/// How a resource is locked. The modes are those of J. N. Gray, R. A. Lorie, G. R. Putzolu and I. L. Traiger,
/// Granularity of locks and degrees of consistency in a shared data base (1976). It prints as its word: `S`, `X`, `IS`,
/// `IX` or `SIX`.
#[derive(Clone, Copy, Debug, PartialEq, Eq, Hash)]
pub enum Mode {
    /// To read it whole.
    Shared,
    /// To change it whole, by itself.
    Exclusive,
    /// To read parts of it, which are locked shared each.
    IntentShared,
    /// To change parts of it, which are locked exclusively each.
    IntentExclusive,
    /// To read it whole, and change parts of it, which are locked exclusively each.
    SharedIntentExclusive,
}

/// Returns whether two modes exclude each other. It does not allocate.
///
/// Nine of the 25 pairs do not: two of `IS`, two of `IX`, two of `S`, and `IS` beside each of `IX`, `S` and `SIX`, in
/// either order.
#[tactic(auto, unfolding(crate::specs::Mode::compatible))]
pub fn conflicts(a: Mode, b: Mode) -> bool
    ensures { result ≡ spec.conflicts a b }
{
    let compatible = match a {
        IntentShared => !matches!(b, Exclusive),
        IntentExclusive => matches!(b, IntentShared | IntentExclusive),
        Shared => matches!(b, IntentShared | Shared),
        SharedIntentExclusive => matches!(b, IntentShared),
        Exclusive => false,
    };
    !compatible
}

impl Mode {
    /// Returns its word: `S`, `X`, `IS`, `IX` or `SIX`. It does not allocate.
    pub fn word(self) -> &'static str
        ensures { result.now ≡ spec.mode_word self }
    {
        match self {
            Shared => "S",
            Exclusive => "X",
            IntentShared => "IS",
            IntentExclusive => "IX",
            SharedIntentExclusive => "SIX",
        }
    }
}

impl fmt::Display for Mode {
    fn fmt<W: fmt::Write>(&self, f: &mut fmt::Formatter<W>) -> fmt::Result {
        f.pad(self.word())
    }
}
