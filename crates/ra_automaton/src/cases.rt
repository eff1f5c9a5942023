//! The cases of `Automaton::receive`, as tables: a row for each case, and what it leads to. They stay tables, and
//! are not folded into a formula, since they are the cases by which the algorithm is specified: a reader can hold
//! the two side by side, and each row is one case of the tests. For a REQUEST there are 205: 5 if the node is idle, and
//! 20 for each own mode, both if it waits and if it is inside. For a REPLY there are 6.
//!
//! A node that waits and one that is inside answer alike. Each of these phases has tables of its own all the same: so
//! each case of the algorithm is a row, and no row depends on the two phases being alike.
//!
//! What the rows come to is proved. Each row of a REQUEST is what `answer_of` computes from whether the modes conflict
//! and how the stamps compare, and `IsAnswer` says what that tells. The contracts of `Automaton::answer` and
//! `Automaton::effect` depend on it and on the clauses on REPLYs. The clause `received` of `Automaton::receive` depends
//! on these contracts: in its field `ok`, `ReceiveStep` has the three rules, `Defers` and `RepliesAtOnce` for a
//! REQUEST, and `TakesReply` for a REPLY.
ghost use Rattle.std.specs.Prelude.{◌≡◌, ◌↔◌, true, false, IsTrue};
ghost use Rattle.ra_stamp.specs.Stamp.{IsEarlier};
ghost use Rattle.ra_automaton.specs.Cases.{is_later, answer_of, IsAnswer};

use Answer::{Defer, Reply};
use Comparison::{HigherNode, HigherNumber, LowerNode, LowerNumber};
use Effect::{Enter, Stray, WaitOn};
use Mode::{Exclusive, IntentExclusive, IntentShared, Shared, SharedIntentExclusive};
use ra_stamp::{Mode, Stamp};

/// What a REQUEST leads to.
#[derive(Clone, Copy)]
pub enum Answer {
    /// The REPLY goes out at once.
    Reply,
    /// The REPLY waits until the node leaves or withdraws.
    Defer,
}

/// What a REPLY leads to.
#[derive(Clone, Copy)]
pub enum Effect {
    /// It is not awaited.
    Stray,
    /// Its sender is awaited no longer, and others are.
    WaitOn,
    /// It is the last.
    Enter,
}

/// How the stamp of a REQUEST compares with that of the node's own request.
#[derive(Clone, Copy)]
pub enum Comparison {
    /// Its number is lower.
    LowerNumber,
    /// The numbers are equal, and its node is lower.
    LowerNode,
    /// The numbers are equal, and its node is higher.
    HigherNode,
    /// Its number is higher.
    HigherNumber,
}

macro_rules! table {
    ($value:expr; $($case:pat => $outcome:expr;)*) => {
        match $value {
            $($case => $outcome,)*
        }
    };
}

/// Returns how the other stamp compares with the node's own. The two are of different nodes.
pub fn compare(other: Stamp, own: Stamp) -> Comparison
    ensures { IsTrue (is_later result) ↔ IsEarlier own other }
{
    if other.seq < own.seq {
        LowerNumber
    } else if other.seq > own.seq {
        HigherNumber
    } else if other.node > own.node {
        HigherNode
    } else {
        LowerNode
    }
}

/// Returns what a REQUEST leads to at an idle node, by the mode that is wanted.
pub fn answer_when_idle(wanted: Mode) -> Answer
    ensures { result ≡ Answer.Reply }
{
    table! { wanted;
        Shared => Reply;
        Exclusive => Reply;
        IntentShared => Reply;
        IntentExclusive => Reply;
        SharedIntentExclusive => Reply;
    }
}

/// Returns what a REQUEST leads to at a node that waits, by its own mode, the mode that is wanted, and how the
/// stamps compare.
#[tactic(auto, using(crate::proofs::Tables::row_tells))]
pub fn answer_when_waiting(own: Mode, wanted: Mode, comparison: Comparison) -> Answer
    ensures { IsAnswer own wanted comparison result }
{
    match own {
        Shared => answer_when_shared_waits(wanted, comparison),
        Exclusive => answer_when_exclusive_waits(wanted, comparison),
        IntentShared => answer_when_intent_shared_waits(wanted, comparison),
        IntentExclusive => answer_when_intent_exclusive_waits(wanted, comparison),
        SharedIntentExclusive => answer_when_shared_intent_exclusive_waits(wanted, comparison),
    }
}

/// Returns what a REQUEST leads to at a node that waits with `S`.
#[tactic(auto, unfolding(ra_stamp::specs::Mode::compatible))]
fn answer_when_shared_waits(wanted: Mode, comparison: Comparison) -> Answer
    ensures { result ≡ answer_of Mode.Shared wanted comparison }
{
    table! { (wanted, comparison);
        (Shared, LowerNumber) => Reply;
        (Shared, LowerNode) => Reply;
        (Shared, HigherNode) => Reply;
        (Shared, HigherNumber) => Reply;
        (Exclusive, LowerNumber) => Reply;
        (Exclusive, LowerNode) => Reply;
        (Exclusive, HigherNode) => Defer;
        (Exclusive, HigherNumber) => Defer;
        (IntentShared, LowerNumber) => Reply;
        (IntentShared, LowerNode) => Reply;
        (IntentShared, HigherNode) => Reply;
        (IntentShared, HigherNumber) => Reply;
        (IntentExclusive, LowerNumber) => Reply;
        (IntentExclusive, LowerNode) => Reply;
        (IntentExclusive, HigherNode) => Defer;
        (IntentExclusive, HigherNumber) => Defer;
        (SharedIntentExclusive, LowerNumber) => Reply;
        (SharedIntentExclusive, LowerNode) => Reply;
        (SharedIntentExclusive, HigherNode) => Defer;
        (SharedIntentExclusive, HigherNumber) => Defer;
    }
}

/// Returns what a REQUEST leads to at a node that waits with `X`.
#[tactic(auto, unfolding(ra_stamp::specs::Mode::compatible))]
fn answer_when_exclusive_waits(wanted: Mode, comparison: Comparison) -> Answer
    ensures { result ≡ answer_of Mode.Exclusive wanted comparison }
{
    table! { (wanted, comparison);
        (Shared, LowerNumber) => Reply;
        (Shared, LowerNode) => Reply;
        (Shared, HigherNode) => Defer;
        (Shared, HigherNumber) => Defer;
        (Exclusive, LowerNumber) => Reply;
        (Exclusive, LowerNode) => Reply;
        (Exclusive, HigherNode) => Defer;
        (Exclusive, HigherNumber) => Defer;
        (IntentShared, LowerNumber) => Reply;
        (IntentShared, LowerNode) => Reply;
        (IntentShared, HigherNode) => Defer;
        (IntentShared, HigherNumber) => Defer;
        (IntentExclusive, LowerNumber) => Reply;
        (IntentExclusive, LowerNode) => Reply;
        (IntentExclusive, HigherNode) => Defer;
        (IntentExclusive, HigherNumber) => Defer;
        (SharedIntentExclusive, LowerNumber) => Reply;
        (SharedIntentExclusive, LowerNode) => Reply;
        (SharedIntentExclusive, HigherNode) => Defer;
        (SharedIntentExclusive, HigherNumber) => Defer;
    }
}

/// Returns what a REQUEST leads to at a node that waits with `IS`.
#[tactic(auto, unfolding(ra_stamp::specs::Mode::compatible))]
fn answer_when_intent_shared_waits(wanted: Mode, comparison: Comparison) -> Answer
    ensures { result ≡ answer_of Mode.IntentShared wanted comparison }
{
    table! { (wanted, comparison);
        (Shared, LowerNumber) => Reply;
        (Shared, LowerNode) => Reply;
        (Shared, HigherNode) => Reply;
        (Shared, HigherNumber) => Reply;
        (Exclusive, LowerNumber) => Reply;
        (Exclusive, LowerNode) => Reply;
        (Exclusive, HigherNode) => Defer;
        (Exclusive, HigherNumber) => Defer;
        (IntentShared, LowerNumber) => Reply;
        (IntentShared, LowerNode) => Reply;
        (IntentShared, HigherNode) => Reply;
        (IntentShared, HigherNumber) => Reply;
        (IntentExclusive, LowerNumber) => Reply;
        (IntentExclusive, LowerNode) => Reply;
        (IntentExclusive, HigherNode) => Reply;
        (IntentExclusive, HigherNumber) => Reply;
        (SharedIntentExclusive, LowerNumber) => Reply;
        (SharedIntentExclusive, LowerNode) => Reply;
        (SharedIntentExclusive, HigherNode) => Reply;
        (SharedIntentExclusive, HigherNumber) => Reply;
    }
}

/// Returns what a REQUEST leads to at a node that waits with `IX`.
#[tactic(auto, unfolding(ra_stamp::specs::Mode::compatible))]
fn answer_when_intent_exclusive_waits(wanted: Mode, comparison: Comparison) -> Answer
    ensures { result ≡ answer_of Mode.IntentExclusive wanted comparison }
{
    table! { (wanted, comparison);
        (Shared, LowerNumber) => Reply;
        (Shared, LowerNode) => Reply;
        (Shared, HigherNode) => Defer;
        (Shared, HigherNumber) => Defer;
        (Exclusive, LowerNumber) => Reply;
        (Exclusive, LowerNode) => Reply;
        (Exclusive, HigherNode) => Defer;
        (Exclusive, HigherNumber) => Defer;
        (IntentShared, LowerNumber) => Reply;
        (IntentShared, LowerNode) => Reply;
        (IntentShared, HigherNode) => Reply;
        (IntentShared, HigherNumber) => Reply;
        (IntentExclusive, LowerNumber) => Reply;
        (IntentExclusive, LowerNode) => Reply;
        (IntentExclusive, HigherNode) => Reply;
        (IntentExclusive, HigherNumber) => Reply;
        (SharedIntentExclusive, LowerNumber) => Reply;
        (SharedIntentExclusive, LowerNode) => Reply;
        (SharedIntentExclusive, HigherNode) => Defer;
        (SharedIntentExclusive, HigherNumber) => Defer;
    }
}

/// Returns what a REQUEST leads to at a node that waits with `SIX`.
#[tactic(auto, unfolding(ra_stamp::specs::Mode::compatible))]
fn answer_when_shared_intent_exclusive_waits(wanted: Mode, comparison: Comparison) -> Answer
    ensures { result ≡ answer_of Mode.SharedIntentExclusive wanted comparison }
{
    table! { (wanted, comparison);
        (Shared, LowerNumber) => Reply;
        (Shared, LowerNode) => Reply;
        (Shared, HigherNode) => Defer;
        (Shared, HigherNumber) => Defer;
        (Exclusive, LowerNumber) => Reply;
        (Exclusive, LowerNode) => Reply;
        (Exclusive, HigherNode) => Defer;
        (Exclusive, HigherNumber) => Defer;
        (IntentShared, LowerNumber) => Reply;
        (IntentShared, LowerNode) => Reply;
        (IntentShared, HigherNode) => Reply;
        (IntentShared, HigherNumber) => Reply;
        (IntentExclusive, LowerNumber) => Reply;
        (IntentExclusive, LowerNode) => Reply;
        (IntentExclusive, HigherNode) => Defer;
        (IntentExclusive, HigherNumber) => Defer;
        (SharedIntentExclusive, LowerNumber) => Reply;
        (SharedIntentExclusive, LowerNode) => Reply;
        (SharedIntentExclusive, HigherNode) => Defer;
        (SharedIntentExclusive, HigherNumber) => Defer;
    }
}

/// Returns what a REQUEST leads to at a node that is inside, likewise.
#[tactic(auto, using(crate::proofs::Tables::row_tells))]
pub fn answer_when_inside(own: Mode, wanted: Mode, comparison: Comparison) -> Answer
    ensures { IsAnswer own wanted comparison result }
{
    match own {
        Shared => answer_when_shared_holds(wanted, comparison),
        Exclusive => answer_when_exclusive_holds(wanted, comparison),
        IntentShared => answer_when_intent_shared_holds(wanted, comparison),
        IntentExclusive => answer_when_intent_exclusive_holds(wanted, comparison),
        SharedIntentExclusive => answer_when_shared_intent_exclusive_holds(wanted, comparison),
    }
}

/// Returns what a REQUEST leads to at a node that is inside with `S`.
#[tactic(auto, unfolding(ra_stamp::specs::Mode::compatible))]
fn answer_when_shared_holds(wanted: Mode, comparison: Comparison) -> Answer
    ensures { result ≡ answer_of Mode.Shared wanted comparison }
{
    table! { (wanted, comparison);
        (Shared, LowerNumber) => Reply;
        (Shared, LowerNode) => Reply;
        (Shared, HigherNode) => Reply;
        (Shared, HigherNumber) => Reply;
        (Exclusive, LowerNumber) => Reply;
        (Exclusive, LowerNode) => Reply;
        (Exclusive, HigherNode) => Defer;
        (Exclusive, HigherNumber) => Defer;
        (IntentShared, LowerNumber) => Reply;
        (IntentShared, LowerNode) => Reply;
        (IntentShared, HigherNode) => Reply;
        (IntentShared, HigherNumber) => Reply;
        (IntentExclusive, LowerNumber) => Reply;
        (IntentExclusive, LowerNode) => Reply;
        (IntentExclusive, HigherNode) => Defer;
        (IntentExclusive, HigherNumber) => Defer;
        (SharedIntentExclusive, LowerNumber) => Reply;
        (SharedIntentExclusive, LowerNode) => Reply;
        (SharedIntentExclusive, HigherNode) => Defer;
        (SharedIntentExclusive, HigherNumber) => Defer;
    }
}

/// Returns what a REQUEST leads to at a node that is inside with `X`.
#[tactic(auto, unfolding(ra_stamp::specs::Mode::compatible))]
fn answer_when_exclusive_holds(wanted: Mode, comparison: Comparison) -> Answer
    ensures { result ≡ answer_of Mode.Exclusive wanted comparison }
{
    table! { (wanted, comparison);
        (Shared, LowerNumber) => Reply;
        (Shared, LowerNode) => Reply;
        (Shared, HigherNode) => Defer;
        (Shared, HigherNumber) => Defer;
        (Exclusive, LowerNumber) => Reply;
        (Exclusive, LowerNode) => Reply;
        (Exclusive, HigherNode) => Defer;
        (Exclusive, HigherNumber) => Defer;
        (IntentShared, LowerNumber) => Reply;
        (IntentShared, LowerNode) => Reply;
        (IntentShared, HigherNode) => Defer;
        (IntentShared, HigherNumber) => Defer;
        (IntentExclusive, LowerNumber) => Reply;
        (IntentExclusive, LowerNode) => Reply;
        (IntentExclusive, HigherNode) => Defer;
        (IntentExclusive, HigherNumber) => Defer;
        (SharedIntentExclusive, LowerNumber) => Reply;
        (SharedIntentExclusive, LowerNode) => Reply;
        (SharedIntentExclusive, HigherNode) => Defer;
        (SharedIntentExclusive, HigherNumber) => Defer;
    }
}

/// Returns what a REQUEST leads to at a node that is inside with `IS`.
#[tactic(auto, unfolding(ra_stamp::specs::Mode::compatible))]
fn answer_when_intent_shared_holds(wanted: Mode, comparison: Comparison) -> Answer
    ensures { result ≡ answer_of Mode.IntentShared wanted comparison }
{
    table! { (wanted, comparison);
        (Shared, LowerNumber) => Reply;
        (Shared, LowerNode) => Reply;
        (Shared, HigherNode) => Reply;
        (Shared, HigherNumber) => Reply;
        (Exclusive, LowerNumber) => Reply;
        (Exclusive, LowerNode) => Reply;
        (Exclusive, HigherNode) => Defer;
        (Exclusive, HigherNumber) => Defer;
        (IntentShared, LowerNumber) => Reply;
        (IntentShared, LowerNode) => Reply;
        (IntentShared, HigherNode) => Reply;
        (IntentShared, HigherNumber) => Reply;
        (IntentExclusive, LowerNumber) => Reply;
        (IntentExclusive, LowerNode) => Reply;
        (IntentExclusive, HigherNode) => Reply;
        (IntentExclusive, HigherNumber) => Reply;
        (SharedIntentExclusive, LowerNumber) => Reply;
        (SharedIntentExclusive, LowerNode) => Reply;
        (SharedIntentExclusive, HigherNode) => Reply;
        (SharedIntentExclusive, HigherNumber) => Reply;
    }
}

/// Returns what a REQUEST leads to at a node that is inside with `IX`.
#[tactic(auto, unfolding(ra_stamp::specs::Mode::compatible))]
fn answer_when_intent_exclusive_holds(wanted: Mode, comparison: Comparison) -> Answer
    ensures { result ≡ answer_of Mode.IntentExclusive wanted comparison }
{
    table! { (wanted, comparison);
        (Shared, LowerNumber) => Reply;
        (Shared, LowerNode) => Reply;
        (Shared, HigherNode) => Defer;
        (Shared, HigherNumber) => Defer;
        (Exclusive, LowerNumber) => Reply;
        (Exclusive, LowerNode) => Reply;
        (Exclusive, HigherNode) => Defer;
        (Exclusive, HigherNumber) => Defer;
        (IntentShared, LowerNumber) => Reply;
        (IntentShared, LowerNode) => Reply;
        (IntentShared, HigherNode) => Reply;
        (IntentShared, HigherNumber) => Reply;
        (IntentExclusive, LowerNumber) => Reply;
        (IntentExclusive, LowerNode) => Reply;
        (IntentExclusive, HigherNode) => Reply;
        (IntentExclusive, HigherNumber) => Reply;
        (SharedIntentExclusive, LowerNumber) => Reply;
        (SharedIntentExclusive, LowerNode) => Reply;
        (SharedIntentExclusive, HigherNode) => Defer;
        (SharedIntentExclusive, HigherNumber) => Defer;
    }
}

/// Returns what a REQUEST leads to at a node that is inside with `SIX`.
#[tactic(auto, unfolding(ra_stamp::specs::Mode::compatible))]
fn answer_when_shared_intent_exclusive_holds(wanted: Mode, comparison: Comparison) -> Answer
    ensures { result ≡ answer_of Mode.SharedIntentExclusive wanted comparison }
{
    table! { (wanted, comparison);
        (Shared, LowerNumber) => Reply;
        (Shared, LowerNode) => Reply;
        (Shared, HigherNode) => Defer;
        (Shared, HigherNumber) => Defer;
        (Exclusive, LowerNumber) => Reply;
        (Exclusive, LowerNode) => Reply;
        (Exclusive, HigherNode) => Defer;
        (Exclusive, HigherNumber) => Defer;
        (IntentShared, LowerNumber) => Reply;
        (IntentShared, LowerNode) => Reply;
        (IntentShared, HigherNode) => Reply;
        (IntentShared, HigherNumber) => Reply;
        (IntentExclusive, LowerNumber) => Reply;
        (IntentExclusive, LowerNode) => Reply;
        (IntentExclusive, HigherNode) => Defer;
        (IntentExclusive, HigherNumber) => Defer;
        (SharedIntentExclusive, LowerNumber) => Reply;
        (SharedIntentExclusive, LowerNode) => Reply;
        (SharedIntentExclusive, HigherNode) => Defer;
        (SharedIntentExclusive, HigherNumber) => Defer;
    }
}

/// A phase without the number and the mode of the request.
#[derive(Clone, Copy)]
pub enum PhaseKind {
    /// The node has no request.
    Idle,
    /// Its request awaits REPLYs.
    Waiting,
    /// Its request is granted.
    Inside,
}

/// Returns what a REPLY leads to. That depends on the phase of the node, on whether the REPLY has the number of its
/// request, on whether it awaits the sender, and on whether it awaits others, too.
pub fn effect_of_reply(phase: PhaseKind, numbered: bool, awaited: bool, others: bool) -> Effect
    ensures enter { result ≡ Effect.Enter
        → (phase ≡ PhaseKind.Waiting) × (numbered ≡ true) × (awaited ≡ true) × (others ≡ false) }
    ensures wait { result ≡ Effect.WaitOn
        → (phase ≡ PhaseKind.Waiting) × (numbered ≡ true) × (awaited ≡ true) × (others ≡ true) }
    ensures stray { result ≡ Effect.Stray
        → phase ≡ PhaseKind.Waiting → numbered ≡ true → awaited ≡ true → ⊥ }
{
    table! { (phase, numbered, awaited, others);
        (PhaseKind::Idle, _, _, _) => Stray;
        (PhaseKind::Inside, _, _, _) => Stray;
        (PhaseKind::Waiting, false, _, _) => Stray;
        (PhaseKind::Waiting, true, false, _) => Stray;
        (PhaseKind::Waiting, true, true, true) => WaitOn;
        (PhaseKind::Waiting, true, true, false) => Enter;
    }
}
