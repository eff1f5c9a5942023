//! The outcomes of a script under many seeds, counted.
ghost use Rattle.std.specs.Prelude.{◌≡◌, ◌<◌, ◌+◌, ◌^◌, ◌++◌, ◌∷◌, ℕ, List, [], length, Some, IfSome};
ghost use Rattle.ra_schedule.specs.Survey.{IsLeastAndMost, Tallies, tally_with};

/// What a run took.
#[derive(Clone, Copy, Debug, PartialEq, Eq)]
pub struct RunCost {
    /// How many turns were made.
    pub turns: u64,
    /// How many messages were sent.
    pub messages: u128,
}

/// The outcome of a script under one seed.
#[derive(Clone, Copy, Debug, PartialEq, Eq)]
pub enum SeedOutcome {
    /// Every operation is done, and nothing waits, is queued or under way.
    Finished(RunCost),
    /// No choice was left before that.
    Stuck(RunCost),
    /// A choice was left after the last turn.
    Limit,
}

/// How many seeds came to an end, and the first of them.
#[derive(Clone, Copy, PartialEq, Eq)]
pub struct Tally {
    pub seeds: u128,
    pub first: u64,
}

/// The least and the most of some numbers.
#[derive(Clone, Copy)]
pub struct Spread {
    pub least: u128,
    pub most: u128,
}

/// The outcomes of a script under many seeds.
#[derive(Clone, Copy)]
pub struct Survey {
    /// Those whose run is finished.
    pub finished: Option<Tally>,
    /// Those whose run ended before that.
    pub stuck: Option<Tally>,
    /// Those whose run had a choice left after the last turn.
    pub limit: Option<Tally>,
    /// How many turns were made by a seed of the first two.
    pub turns: Option<Spread>,
    /// How many messages it sent.
    pub messages: Option<Spread>,
}

/// Counts a seed that is above all that were counted.
fn counted(tally: Option<Tally>, seed: u64) -> Option<Tally>
    requires { IfSome tally (λ t. t.seeds < 2 ^ 64) }
    ensures { result ≡ Some (tally_with tally seed) }
{
    match tally {
        None => Some(Tally {
            seeds: 1,
            first: seed,
        }),
        Some(Tally { seeds, first }) => Some(Tally {
            seeds: seeds + 1,
            first,
        }),
    }
}

/// Takes a number among those whose least and most are kept.
fn widened(spread: Option<Spread>, number: u128) -> Option<Spread>
    ensures { (numbers : List ℕ) → IsLeastAndMost numbers spread → IsLeastAndMost (numbers ++ number ∷ []) result }
{
    match spread {
        None => Some(Spread {
            least: number,
            most: number,
        }),
        Some(Spread { least, most }) => Some(Spread {
            least: least.min(number),
            most: most.max(number),
        }),
    }
}

/// Returns what is known before the first seed.
pub fn no_survey() -> Survey
    ensures { (first : ℕ) → Tallies first [] result }
{
    Survey {
        finished: None,
        stuck: None,
        limit: None,
        turns: None,
        messages: None,
    }
}

/// Counts the outcome of the seed after those that were counted.
pub fn with_outcome(survey: Survey, seed: u64, outcome: SeedOutcome) -> Survey
    requires { (first : ℕ) × (outcomes : List SeedOutcome) × Tallies first outcomes survey
        × (first + length outcomes ≡ seed) }
    ensures { (first : ℕ) (outcomes : List SeedOutcome) → Tallies first outcomes survey → first + length outcomes ≡ seed
        → Tallies first (outcomes ++ outcome ∷ []) result }
{
    match outcome {
        SeedOutcome::Finished(RunCost { turns, messages }) => Survey {
            finished: counted(survey.finished, seed),
            turns: widened(survey.turns, u128::from(turns)),
            messages: widened(survey.messages, messages),
            ..survey
        },
        SeedOutcome::Stuck(RunCost { turns, messages }) => Survey {
            stuck: counted(survey.stuck, seed),
            turns: widened(survey.turns, u128::from(turns)),
            messages: widened(survey.messages, messages),
            ..survey
        },
        SeedOutcome::Limit => Survey {
            limit: counted(survey.limit, seed),
            ..survey
        },
    }
}
