//! How many turns `drive` and `summarize` make, which choice they refuse, and why: the first choice, and one after many
//! others.
use crate::script_tests::listing::lockers;
use crate::script_tests::policies::{Chooser, driven, policy, summed};
use crate::script_tests::scripts::{adds_locks, fault_of_client};
use crate::world_steps::world_asserting::{assert_same, fail, fail_at};
use crate::world_steps::world_calls::step;
use Choice::{Client, Lost, Message, Repeated};
use Chooser::{Faulty, Listed, Newest, Oldest, Seeded};
use DriveError::{BadPlace, NotEnabled, TurnLimit};
use ra_schedule::{Choice, Choices, DriveError, Policy, Recording, Script};
use std::alloc::Global;
use std::process::Abort;
use test_support::{At, row};

/// Makes a script of two nodes: client 1, at node 1, locks `r` ten times, in four turns each time, and client 2 does
/// nothing.
fn ten_locks(rt: &(impl Abort + AllocGlobal)) -> Script {
    let at = row("a script of ten locks");
    match Script::new(rt.alloc(), 2) {
        Ok(mut script) => {
            assert_same(rt, at, &fault_of_client(rt.alloc(), &mut script, 1), &None);
            adds_locks(rt, "a script of ten locks", &mut script, 10);
            assert_same(rt, at, &fault_of_client(rt.alloc(), &mut script, 1), &None);
            script
        }
        Err(fault) => panic!(rt; "{at}: it is refused: {fault}"),
    }
}

/// The choices of a lock: client 1 asks, its REQUEST and the REPLY are delivered, and it leaves.
const LOCK: &[Choice] = &[Client(1), Message(0), Message(0), Client(1)];

/// Adds these choices. Returns whether there was room.
fn adds(choices: &mut Choices, more: &[Choice]) -> bool {
    for choice in more {
        if choices.push(*choice).is_err() {
            return false;
        }
    }
    true
}

/// Returns the policy that makes this many locks, and then these choices.
fn after_locks(alloc: Global, locks: u32, last: &[Choice]) -> Option<Policy> {
    let mut choices = Choices::new(alloc);
    for _ in 0..locks {
        if !adds(&mut choices, LOCK) {
            return None;
        }
    }
    if adds(&mut choices, last) {
        Some(Policy::Listed(choices))
    } else {
        None
    }
}

/// Choices, and why their run does not end.
struct Case {
    shows: &'static str,
    /// How many locks come first.
    locks: u32,
    /// The choices after them.
    choices: &'static [Choice],
    /// The most turns that are allowed.
    limit: u64,
    cause: DriveError,
}

/// Asserts that a policy's run of a script does not end, for this cause, whether its steps are kept or not.
fn assert_leads_to(
    rt: &(impl Abort + AllocGlobal),
    at: At<'_>,
    script: &Script,
    policy: &Policy,
    limit: u64,
    cause: DriveError,
) {
    let fault = driven(rt.alloc(), script, policy, limit).err();
    assert_same(rt, at, &fault, &Some(cause));
    let fault = summed(rt.alloc(), script, policy, limit).err();
    assert_same(rt, at, &fault, &Some(cause));
}

/// Asserts that each case holds.
fn assert_cases(rt: &(impl Abort + AllocGlobal), cases: &[Case]) {
    let script = ten_locks(rt);
    for case in cases {
        let at = row(case.shows);
        match after_locks(rt.alloc(), case.locks, case.choices) {
            Some(policy) => assert_leads_to(rt, at, &script, &policy, case.limit, case.cause),
            None => fail(rt, "there is no memory for the choices"),
        }
    }
}

/// Choices at the beginning of a run, and why each is refused.
const FIRST_CHOICES: &[Case] = &[
    // The client has nothing to do.
    Case {
        shows: "an idle client",
        locks: 0,
        choices: &[Client(2)],
        limit: 1,
        cause: NotEnabled,
    },
    Case {
        shows: "client 0",
        locks: 0,
        choices: &[Client(0)],
        limit: 1,
        cause: BadPlace,
    },
    Case {
        shows: "client 3",
        locks: 0,
        choices: &[Client(3)],
        limit: 1,
        cause: BadPlace,
    },
    Case {
        shows: "no message",
        locks: 0,
        choices: &[Message(0)],
        limit: 1,
        cause: BadPlace,
    },
    Case {
        shows: "no message to lose",
        locks: 0,
        choices: &[Lost(0)],
        limit: 1,
        cause: BadPlace,
    },
    Case {
        shows: "no message to repeat",
        locks: 0,
        choices: &[Repeated(0)],
        limit: 1,
        cause: BadPlace,
    },
    // No turn is left for the choice.
    Case {
        shows: "client 1, no turn",
        locks: 0,
        choices: &[Client(1)],
        limit: 0,
        cause: TurnLimit,
    },
    Case {
        shows: "client 2, no turn",
        locks: 0,
        choices: &[Client(2)],
        limit: 0,
        cause: TurnLimit,
    },
    Case {
        shows: "a message, no turn",
        locks: 0,
        choices: &[Message(0)],
        limit: 0,
        cause: TurnLimit,
    },
];

#[test]
fn the_first_choice_is_refused_for_each_cause(rt: HostRuntime) {
    assert_cases(&rt, FIRST_CHOICES);
}

/// Choices after nine or ten locks, and why the last one is refused.
const LATER_CHOICES: &[Case] = &[
    Case {
        shows: "it waits",
        locks: 9,
        choices: &[Client(1), Client(1)],
        limit: 38,
        cause: NotEnabled,
    },
    Case {
        shows: "is idle",
        locks: 9,
        choices: &[Client(1), Client(2)],
        limit: 38,
        cause: NotEnabled,
    },
    Case {
        shows: "client 0",
        locks: 9,
        choices: &[Client(1), Client(0)],
        limit: 38,
        cause: BadPlace,
    },
    Case {
        shows: "client 3",
        locks: 9,
        choices: &[Client(1), Client(3)],
        limit: 38,
        cause: BadPlace,
    },
    Case {
        shows: "message 1",
        locks: 9,
        choices: &[Client(1), Message(1)],
        limit: 38,
        cause: BadPlace,
    },
    Case {
        shows: "loss of 1",
        locks: 9,
        choices: &[Client(1), Lost(1)],
        limit: 38,
        cause: BadPlace,
    },
    Case {
        shows: "repeat of 1",
        locks: 9,
        choices: &[Client(1), Repeated(1)],
        limit: 38,
        cause: BadPlace,
    },
    Case {
        shows: "no turn left",
        locks: 9,
        choices: &[Client(1), Message(0)],
        limit: 37,
        cause: TurnLimit,
    },
    Case {
        shows: "waits, no turn",
        locks: 9,
        choices: &[Client(1), Client(1)],
        limit: 37,
        cause: TurnLimit,
    },
    Case {
        shows: "no turn for 1",
        locks: 9,
        choices: &[Client(1), Message(1)],
        limit: 37,
        cause: TurnLimit,
    },
    // Everything is done.
    Case {
        shows: "all is done",
        locks: 10,
        choices: &[Client(1)],
        limit: 41,
        cause: NotEnabled,
    },
    Case {
        shows: "no message is left",
        locks: 10,
        choices: &[Message(0)],
        limit: 41,
        cause: BadPlace,
    },
    Case {
        shows: "done, no turn",
        locks: 10,
        choices: &[Client(1)],
        limit: 40,
        cause: TurnLimit,
    },
];

/// After nine locks client 1 asks once more, so that it waits and its REQUEST is under way.
#[test]
fn a_choice_after_many_is_refused_for_each_cause(rt: HostRuntime) {
    assert_cases(&rt, LATER_CHOICES);
}

/// Asserts that a policy's run of a script ends after this many turns and is finished or not, whether its steps are
/// kept or not, and is cut off by one turn less.
fn assert_turns(
    rt: &(impl Abort + AllocGlobal),
    at: At<'_>,
    script: &Script,
    policy: &Policy,
    expected: (u64, bool),
) {
    let (turns, _) = expected;
    match driven(rt.alloc(), script, policy, turns) {
        Ok(made) => assert_same(rt, at, &(made.steps.len(), made.finished), &expected),
        Err(fault) => assert_same(rt, at, &Some(fault), &None),
    }
    match summed(rt.alloc(), script, policy, turns) {
        Ok(summary) => assert_same(rt, at, &(summary.turns, summary.finished), &expected),
        Err(fault) => assert_same(rt, at, &Some(fault), &None),
    }
    if turns > 0 {
        assert_leads_to(rt, at, script, policy, turns - 1, TurnLimit);
    }
}

/// What chooses, how many turns its run of a script has, and whether all is done then.
struct Turns {
    shows: &'static str,
    chooser: Chooser,
    turns: u64,
    finished: bool,
}

/// Asserts that each row's run has as many turns as it says.
fn assert_turns_of_each(rt: &(impl Abort + AllocGlobal), script: &Script, rows: &[Turns]) {
    for each in rows {
        let at = row(each.shows);
        match policy(rt.alloc(), each.chooser) {
            Some(policy) => { assert_turns(rt, at, script, &policy, (each.turns, each.finished)) }
            None => fail_at(rt, at, "there is no such policy"),
        }
    }
}

const NO_FAULTS: Chooser = Faulty {
    seed: 7,
    lose: 0,
    repeat: 0,
};

/// Ten locks take forty turns under each policy.
#[test]
fn each_policy_has_as_many_turns_as_there_may_be(rt: HostRuntime) {
    const ROWS: &[Turns] = &[
        Turns {
            shows: "the oldest choice",
            chooser: Oldest,
            turns: 40,
            finished: true,
        },
        Turns {
            shows: "the newest choice",
            chooser: Newest,
            turns: 40,
            finished: true,
        },
        Turns {
            shows: "seed 7",
            chooser: Seeded(7),
            turns: 40,
            finished: true,
        },
        Turns {
            shows: "seed 7 without faults",
            chooser: NO_FAULTS,
            turns: 40,
            finished: true,
        },
    ];
    let script = ten_locks(&rt);
    assert_turns_of_each(&rt, &script, ROWS);
    match after_locks(rt.alloc(), 10, &[]) {
        Some(listed) => assert_turns(&rt, row("a list of choices"), &script, &listed, (40, true)),
        None => fail(&rt, "there is no memory for the choices"),
    }
}

/// With seed 0, the second random word names the REQUEST, and the third one is 81 modulo 1,000. So it is repeated or
/// lost.
#[test]
fn turns_that_lose_or_repeat_a_message_count(rt: HostRuntime) {
    const ROWS: &[Turns] = &[
        Turns {
            shows: "a repeat",
            chooser: Faulty {
                seed: 0,
                lose: 0,
                repeat: 82,
            },
            turns: 7,
            finished: true,
        },
        Turns {
            shows: "a loss",
            chooser: Faulty {
                seed: 0,
                lose: 82,
                repeat: 0,
            },
            turns: 2,
            finished: false,
        },
    ];
    match lockers(rt.alloc(), 1) {
        Some(script) => assert_turns_of_each(&rt, &script, ROWS),
        None => fail(&rt, "there is no memory for the script"),
    }
}

/// If no client has an operation, no turn has to be left.
#[test]
fn a_script_without_operations_takes_no_turn(rt: HostRuntime) {
    const ROWS: &[Turns] = &[
        Turns {
            shows: "the oldest choice",
            chooser: Oldest,
            turns: 0,
            finished: true,
        },
        Turns {
            shows: "the newest choice",
            chooser: Newest,
            turns: 0,
            finished: true,
        },
        Turns {
            shows: "seed 7",
            chooser: Seeded(7),
            turns: 0,
            finished: true,
        },
        Turns {
            shows: "seed 7 without faults",
            chooser: NO_FAULTS,
            turns: 0,
            finished: true,
        },
        Turns {
            shows: "no choice",
            chooser: Listed(&[]),
            turns: 0,
            finished: true,
        },
    ];
    match Script::new(rt.alloc(), 2) {
        Ok(mut script) => {
            let fault = fault_of_client(rt.alloc(), &mut script, 1);
            assert_same(&rt, row("an idle client"), &fault, &None);
            assert_turns_of_each(&rt, &script, ROWS);
        }
        Err(fault) => assert_same(&rt, row("a script of two nodes"), &Some(fault), &None),
    }
}

/// The REQUEST is repeated, and then a REPLY; the first REPLY delivered lets the client in. No list of choices that a
/// command reads can repeat a message.
const REPEATS: &[Choice] = &[
    Client(1),
    Repeated(0),
    Message(1),
    Message(0),
    Repeated(1),
    Message(2),
    Client(1),
    Lost(1),
    Message(0),
];

/// The steps that these choices make.
const REPEATED: &[&str] = &[
    "ask 1 1 r X",
    "repeat request 1 2 r X 1",
    "deliver request 1 2 r X 1",
    "deliver request 1 2 r X 1",
    "repeat reply 2 1 r 1",
    "deliver reply 2 1 r 1",
    "release 1 1 r",
    "lose reply 2 1 r 1",
    "deliver reply 2 1 r 1",
];

/// Asserts that a run has just these steps, is finished and sent three messages.
fn assert_repeats(rt: &impl Abort, made: &Recording) {
    for place in 0..REPEATED.len() {
        let at = At("choices that repeat messages", "step", place + 1);
        let expected = Some(step(rt, REPEATED[place]));
        assert_same(rt, at, &made.steps.at(place as u64), &expected);
    }
    let came = (
        made.steps.len(),
        made.finished,
        made.report.sent,
        made.report.repeated,
    );
    let at = row("how many steps there are, whether all is done, and what was sent and repeated");
    assert_same(rt, at, &came, &(9, true, 3, 2));
}

#[test]
fn a_choice_repeats_what_is_under_way(rt: HostRuntime) {
    match (lockers(rt.alloc(), 1), policy(rt.alloc(), Listed(REPEATS))) {
        (Some(script), Some(policy)) => match driven(rt.alloc(), &script, &policy, 9) {
            Ok(made) => assert_repeats(&rt, &made),
            Err(fault) => assert_same(&rt, row("the choices"), &Some(fault), &None),
        },
        _ => fail(&rt, "there is no memory for the script and its choices"),
    }
}
