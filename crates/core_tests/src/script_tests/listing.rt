//! The choices of a run, and the first seed that comes to an end.
use crate::script_tests::policies::{Chooser, driven, policy};
use crate::script_tests::scripts::adds_locker;
use crate::world_steps::world_asserting::{assert_same, fail, fail_at};
use Chooser::{Faulty, Newest, Oldest, Seeded};
use Ending::{Finished, Stuck};
use ra_schedule::{
    Chances, Choice, Ending, Observer, Policy, RunCost, Script, SeedOutcome, SeedRange, Shrunk,
    first_seed, shrink, survey,
};
use std::alloc::Global;
use std::process::Abort;
use test_support::{At, part, row};

/// Adds this many clients, alternately at the first and the second node, which lock `r` and unlock it.
fn adds_lockers(alloc: Global, script: &mut Script, clients: u16) -> bool {
    for client in 0..clients {
        if !adds_locker(alloc, script, 1 + client % 2) {
            return false;
        }
    }
    true
}

/// Makes a script of two nodes with this many such clients.
pub fn lockers(alloc: Global, clients: u16) -> Option<Script> {
    match Script::new(alloc, 2) {
        Ok(mut script) => {
            if adds_lockers(alloc, &mut script, clients) {
                Some(script)
            } else {
                None
            }
        }
        Err(_) => None,
    }
}

/// What chooses for four clients, and the choices of the run, or of the one that it is shrunk to.
struct Listed {
    shows: &'static str,
    chooser: Chooser,
    /// Each choice is a letter and a digit.
    choices: &'static str,
}

/// Returns the letter and the number of a choice.
fn letter_and_number(choice: &Choice) -> (u8, u64) {
    match choice {
        Choice::Client(client) => (b'c', u64::from(*client)),
        Choice::Message(place) => (b'm', *place),
        Choice::Lost(place) => (b'l', *place),
        Choice::Repeated(place) => (b'r', *place),
    }
}

/// Returns the words after this one, or a text that is no word if no space is between.
fn next_words(rest: &[u8]) -> &[u8] {
    match rest {
        [] => rest,
        [b' ', next @ ..] => next,
        _ => b"?",
    }
}

/// Returns whether these are the words of the choices, each a letter and a digit.
fn are_words(words: &str, choices: &[Choice]) -> bool {
    let mut rest = words.as_bytes();
    for choice in choices {
        let (letter, number) = letter_and_number(choice);
        match rest {
            [first, digit, others @ ..]
                if *first == letter && u64::from(*digit) == number.saturating_add(48) => {
                rest = next_words(others);
            }
            _ => return false,
        }
    }
    rest.is_empty()
}

/// Asserts that choices have these words.
fn assert_words(rt: &impl Abort, at: At<'_>, choices: &[Choice], words: &str) {
    if !are_words(words, choices) {
        panic!(rt; "{at}: expected {words}, and {choices:?} came");
    }
}

/// Asserts that a policy's run of a script has these choices.
fn assert_chooses(
    rt: &(impl Abort + AllocGlobal),
    at: At<'_>,
    script: &Script,
    policy: &Policy,
    words: &str,
) {
    match driven(rt.alloc(), script, policy, 10_000) {
        Ok(recording) => assert_words(rt, at, recording.choices.as_slice(), words),
        Err(fault) => assert_same(rt, at, &Some(fault), &None),
    }
}

/// Asserts that a run is shrunk to these choices, or is not stuck if the words are `none`.
fn assert_shrunk(rt: &impl Abort, at: At<'_>, shrunk: &Shrunk, words: &str) {
    match &shrunk.choices {
        Some(choices) => assert_words(rt, at, choices.as_slice(), words),
        None => assert_same(rt, at, &"none", &words),
    }
}

/// Asserts that a policy's run of a script is shrunk to these choices.
fn assert_shrinks(
    rt: &(impl Abort + AllocGlobal),
    at: At<'_>,
    script: &Script,
    policy: &Policy,
    words: &str,
) {
    match shrink(rt.alloc(), script, policy, 10_000) {
        Ok(shrunk) => assert_shrunk(rt, at, &shrunk, words),
        Err(fault) => assert_same(rt, at, &Some(fault), &None),
    }
}

/// Asserts that the run of each row has its choices, or is shrunk to them.
fn assert_listed(
    rt: &(impl Abort + AllocGlobal),
    script: &Script,
    rows: &[Listed],
    is_shrunk: bool,
) {
    for each in rows {
        let at = row(each.shows);
        match policy(rt.alloc(), each.chooser) {
            Some(policy) if is_shrunk => assert_shrinks(rt, at, script, &policy, each.choices),
            Some(policy) => assert_chooses(rt, at, script, &policy, each.choices),
            None => fail_at(rt, at, "there is no such policy"),
        }
    }
}

/// Asserts it of four clients.
fn assert_listed_of_four(rt: &(impl Abort + AllocGlobal), rows: &[Listed], is_shrunk: bool) {
    match lockers(rt.alloc(), 4) {
        Some(script) => assert_listed(rt, &script, rows, is_shrunk),
        None => fail(rt, "there is no memory for the script"),
    }
}

/// The choices of runs, by a model.
const CHOICES_OF_A_MODEL: &[Listed] = &[
    Listed {
        shows: "the oldest choices",
        chooser: Oldest,
        choices: "c1 c2 c3 c4 m0 m0 m0 c1 m0 c2 m0 m0 m0 c3 m0 c4",
    },
    Listed {
        shows: "the newest choices",
        chooser: Newest,
        choices: "c1 c2 c3 c4 m1 m0 m0 c1 m1 m0 c2 m1 m0 c3 m0 c4",
    },
    Listed {
        shows: "seed 0",
        chooser: Seeded(0),
        choices: "c4 m0 c2 c1 c3 m1 m0 c4 m0 m0 c1 m0 c2 m0 m0 c3",
    },
    Listed {
        shows: "seed 7",
        chooser: Seeded(7),
        choices: "c4 c2 m0 m0 c4 c3 m0 c1 m0 m0 c3 m1 m0 c2 m0 c1",
    },
    Listed {
        shows: "seed 19",
        chooser: Seeded(19),
        choices: "c4 c3 c1 m1 c2 m1 c3 m0 m0 m0 c4 m1 m0 c1 m0 c2",
    },
    Listed {
        shows: "seed 0 with faults",
        chooser: Faulty {
            seed: 0,
            lose: 100,
            repeat: 300,
        },
        choices: "c4 l0 c1 c2 m0 r0 c3 m1 c1 m1 m0",
    },
    Listed {
        shows: "seed 1 with faults",
        chooser: Faulty {
            seed: 1,
            lose: 100,
            repeat: 300,
        },
        choices: "c4 m0 m0 c1 c3 m0 c2 c4 r0 r0 m2 r2 l1 c1 l3 m1 r1 m2 l1 m0",
    },
    Listed {
        shows: "seed 7 with faults",
        chooser: Faulty {
            seed: 7,
            lose: 100,
            repeat: 300,
        },
        choices: "c4 c2 m0 m0 c3 m0 c1 c4 m1 r0 r0 r1 l3 r1 m0 m0 m0 c3 m1 m1 l0 c2 m0 c1",
    },
];

/// The words were computed by a separate Python model of the algorithm, the policies and the generator PCG XSL RR
/// 128/64, written from the rules in docs/ALGORITHM.md and docs/FORMATS.md. If messages are equal, a choice names the
/// one that was drawn.
#[test]
fn the_choices_of_a_run_are_those_of_a_model(rt: HostRuntime) {
    assert_listed_of_four(&rt, CHOICES_OF_A_MODEL, false);
}

/// The words were computed from those above by a separate Python model, `cases/shrink_model.py`.
#[test]
fn runs_are_shrunk_to_those_of_a_model(rt: HostRuntime) {
    const ROWS: &[Listed] = &[
        Listed {
            shows: "the oldest choices",
            chooser: Oldest,
            choices: "none",
        },
        Listed {
            shows: "seed 0 with faults",
            chooser: Faulty {
                seed: 0,
                lose: 100,
                repeat: 300,
            },
            choices: "c4 l0",
        },
        Listed {
            shows: "seed 1 with faults",
            chooser: Faulty {
                seed: 1,
                lose: 100,
                repeat: 300,
            },
            choices: "c3 l0",
        },
        Listed {
            shows: "seed 7 with faults",
            chooser: Faulty {
                seed: 7,
                lose: 100,
                repeat: 300,
            },
            choices: "none",
        },
    ];
    assert_listed_of_four(&rt, ROWS, true);
}

/// The first seed of a range with which one client of two nodes comes to an end. It takes four turns.
struct First {
    shows: &'static str,
    ending: Ending,
    /// The range of seeds.
    first: u64,
    last: u64,
    /// The most turns that are allowed.
    limit: u64,
    found: Option<u64>,
}

/// The greatest seed.
const GREATEST: u64 = 18_446_744_073_709_551_615;

const FIRST: &[First] = &[
    First {
        shows: "the first of three seeds",
        ending: Finished,
        first: 5,
        last: 7,
        limit: 4,
        found: Some(5),
    },
    First {
        shows: "the greatest seed",
        ending: Finished,
        first: GREATEST,
        last: GREATEST,
        limit: 4,
        found: Some(GREATEST),
    },
    First {
        shows: "no seed gets stuck",
        ending: Stuck,
        first: 5,
        last: 7,
        limit: 4,
        found: None,
    },
    First {
        shows: "a run that is cut off is not finished",
        ending: Finished,
        first: 5,
        last: 7,
        limit: 3,
        found: None,
    },
    First {
        shows: "a run that is cut off is not stuck",
        ending: Stuck,
        first: 5,
        last: 7,
        limit: 3,
        found: None,
    },
    First {
        shows: "no seed",
        ending: Finished,
        first: 7,
        last: 5,
        limit: 4,
        found: None,
    },
];

/// Makes chance without faults under each seed of a range.
fn without_faults(first: u64, last: u64) -> Chances {
    let seeds = SeedRange { first, last };
    Chances {
        seeds,
        faults: None,
    }
}

/// Asserts that the first seed is found for the script of a client.
fn assert_first(rt: &(impl Abort + AllocGlobal), script: &Script) {
    for row in FIRST {
        let chances = without_faults(row.first, row.last);
        let seed = first_seed(rt.alloc(), script, &chances, row.ending, row.limit, &mut ());
        assert_same(rt, part(row.shows, "the first seed"), &seed, &Ok(row.found));
    }
}

#[test]
fn the_first_seed_of_an_end_is_found(rt: HostRuntime) {
    match lockers(rt.alloc(), 1) {
        Some(script) => assert_first(&rt, &script),
        None => fail(&rt, "there is no memory for the script"),
    }
}

/// What an observer was told.
#[derive(Drop)]
struct Told {
    ended: Vec<(u64, SeedOutcome)>,
    is_whole: bool,
}

impl Observer for Told {
    fn ended(&mut self, seed: u64, outcome: SeedOutcome) {
        self.is_whole = self.is_whole && self.ended.push((seed, outcome)).is_ok();
    }
}

/// The outcome for one client of two nodes: it asks, its REQUEST and the REPLY are delivered, and it leaves.
const ONE_LOCK: SeedOutcome = SeedOutcome::Finished(RunCost {
    turns: 4,
    messages: 2,
});

/// Makes an observer that was told nothing.
fn nothing_told(alloc: Global) -> Told {
    Told {
        ended: Vec::new(alloc),
        is_whole: true,
    }
}

/// Asserts that exactly these outcomes were told.
fn assert_told(rt: &impl Abort, label: &str, told: &Told, outcomes: &[(u64, SeedOutcome)]) {
    let came = (told.is_whole, told.ended.as_slice());
    assert_same(rt, row(label), &came, &(true, outcomes));
}

/// The chances that are surveyed and searched.
const CHANCES: Chances = Chances {
    seeds: SeedRange { first: 5, last: 7 },
    faults: None,
};

/// Asserts that a search among the seeds finds the first one or none, and tells these outcomes.
fn assert_told_up_to(
    rt: &(impl Abort + AllocGlobal),
    script: &Script,
    label: &str,
    limit: u64,
    first: Option<u64>,
    outcomes: &[(u64, SeedOutcome)],
) {
    let mut told = nothing_told(rt.alloc());
    let seed = first_seed(rt.alloc(), script, &CHANCES, Finished, limit, &mut told);
    assert_same(rt, row(label), &seed, &Ok(first));
    assert_told(rt, label, &told, outcomes);
}

/// Asserts that a survey and searches tell the outcome of each seed, up to the one that is found.
fn assert_told_each(rt: &(impl Abort + AllocGlobal), script: &Script) {
    const CUT_OFF: &[(u64, SeedOutcome)] = &[
        (5, SeedOutcome::Limit),
        (6, SeedOutcome::Limit),
        (7, SeedOutcome::Limit),
    ];
    let (label, mut told) = ("a survey of three seeds", nothing_told(rt.alloc()));
    let fault = survey(rt.alloc(), script, &CHANCES, 4, &mut told).err();
    assert_same(rt, row(label), &fault, &None);
    assert_told(
        rt,
        label,
        &told,
        &[(5, ONE_LOCK), (6, ONE_LOCK), (7, ONE_LOCK)],
    );
    let label = "a search that finds the first seed";
    assert_told_up_to(rt, script, label, 4, Some(5), &[(5, ONE_LOCK)]);
    let label = "a search that is cut off";
    assert_told_up_to(rt, script, label, 3, None, CUT_OFF);
}

#[test]
fn surveys_and_searches_tell_what_came_of_each_seed(rt: HostRuntime) {
    match lockers(rt.alloc(), 1) {
        Some(script) => assert_told_each(&rt, &script),
        None => fail(&rt, "there is no memory for the script"),
    }
}
