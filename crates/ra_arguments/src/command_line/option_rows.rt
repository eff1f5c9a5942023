//! The options of the commands, each a row of a table, so that the same few lines make them all.
ghost use Rattle.std.specs.Prelude.{◌≡◌, map, false};
ghost use Rattle.clap.specs.Words.{rule_of};
ghost use Rattle.ra_arguments.specs.FileWords.{is_taking, options_after, takes_next as takes_next_by};
ghost use Rattle.ra_arguments.specs.OptionTable.{AreOfCommand, rule_of_row};
ghost use Rattle.ra_arguments.specs.SettleArguments as spec;

use crate::command_line::command_rows::{CommandKind, all_rows};
use clap::builder::ValueParser;
use clap::{Arg, ArgAction};
use std::alloc::Global;

/// The words for the policies.
const POLICIES: &[&str] = &[DEFAULT_POLICY, "newest", "seeded", "faulty", "listed"];

/// The word for the policy if none is given.
const DEFAULT_POLICY: &str = "oldest";

/// The words for the ends of runs.
const ENDINGS: &[&str] = &["finished", "stuck"];

/// An option of a command: its names and help, what it takes, whether it is required, its default, which help may leave
/// out, and what notes say of it.
#[derive(Clone, Copy)]
pub struct OptionRow<'a> {
    name: &'a str,
    short: Option<char>,
    help: &'a str,
    action: ArgAction,
    parser: ValueParser<'a>,
    is_required: bool,
    defaults: &'a [&'a str],
    hides_default: bool,
    /// Which values it takes, as a note says it after 'must be'. A flag takes none.
    values: Option<&'a str>,
    /// The policies with which it has an effect, if it has none with another.
    effect: Option<Effect<'a>>,
}

/// The policies with which an option has an effect, and what a note says with another.
#[derive(Clone, Copy)]
pub struct Effect<'a> {
    policies: &'a [&'a str],
    unused: &'a str,
}

/// An option that takes nothing. Each row has a name and a help of its own.
const FLAG: OptionRow = OptionRow {
    name: "",
    short: None,
    help: "",
    action: ArgAction::SetTrue,
    parser: ValueParser::Bool,
    is_required: false,
    defaults: &[],
    hides_default: false,
    values: None,
    effect: None,
};

/// An option that takes a text.
const TEXT: OptionRow = OptionRow {
    action: ArgAction::Set,
    parser: ValueParser::String,
    ..FLAG
};

/// An option that takes a number of 16 bits, as the parser takes a `u16`.
const SHORT: OptionRow = OptionRow {
    parser: ValueParser::Signed(0, 65535),
    ..TEXT
};

/// An option that takes a number of 64 bits.
const LONG: OptionRow = OptionRow {
    parser: ValueParser::Unsigned(0, 18446744073709551615),
    ..TEXT
};

/// The option of each command that leaves out notes. It is looked for before the arguments are parsed.
const QUIET: OptionRow = OptionRow {
    name: "quiet",
    short: Some('q'),
    help: "Write no notes on standard error",
    ..FLAG
};

/// The option that each command has after all others.
const HELP: OptionRow = OptionRow {
    name: "help",
    short: Some('h'),
    help: "Print help, or a summary with -h",
    action: ArgAction::Help,
    ..FLAG
};

/// The options of the command `answer`.
const ANSWER_OPTIONS: &[OptionRow] = &[
    OptionRow {
        name: "node",
        help: "Answer as this node, 1 to the value of --nodes",
        is_required: true,
        values: Some("1 to the value of --nodes"),
        ..SHORT
    },
    OptionRow {
        name: "nodes",
        help: "Set the number of nodes, 1 to 64",
        is_required: true,
        values: Some("1 to 64"),
        ..SHORT
    },
    QUIET,
    HELP,
];

/// The options of the command `sim`, in the order of help.
const SIM_OPTIONS: &[OptionRow] = &[
    OptionRow {
        name: "policy",
        help: "Choose each step by this policy",
        parser: ValueParser::Names(POLICIES),
        defaults: &[DEFAULT_POLICY],
        values: Some("oldest, newest, seeded, faulty or listed"),
        ..TEXT
    },
    OptionRow {
        name: "seed",
        help: "Set the random seed, 0 to 2^64 - 1",
        defaults: &["0"],
        values: Some("0 to 18446744073709551615"),
        effect: Some(Effect {
            policies: &["seeded", "faulty"],
            unused: "--seed is ignored: only --policy seeded and faulty use it",
        }),
        ..LONG
    },
    OptionRow {
        name: "lose",
        help: "Lose 0 to 1000 of 1000 messages",
        defaults: &["0"],
        values: Some("0 to 1000, of 1000 messages"),
        effect: Some(Effect {
            policies: &["faulty"],
            unused: "--lose is ignored: only --policy faulty uses it",
        }),
        ..SHORT
    },
    OptionRow {
        name: "repeat",
        help: "Repeat 0 to 400 of 1000 messages",
        defaults: &["0"],
        values: Some("0 to 400, of 1000 messages"),
        effect: Some(Effect {
            policies: &["faulty"],
            unused: "--repeat is ignored: only --policy faulty uses it",
        }),
        ..SHORT
    },
    OptionRow {
        name: "choices",
        help: "Make these choices, under listed [default: none]",
        defaults: &[""],
        hides_default: true,
        values: Some(
            "choices with one space between them, each c, m or l and a number of 1 to 9 digits without leading zeros",
        ),
        effect: Some(Effect {
            policies: &["listed"],
            unused: "--choices is ignored: only --policy listed uses it",
        }),
        ..TEXT
    },
    OptionRow {
        name: "seeds",
        help: "Survey the seeds of a range, such as 1..1000",
        values: Some("A..B, such as 1..1000, with two numbers from 0 to 18446744073709551615"),
        ..TEXT
    },
    OptionRow {
        name: "find",
        help: "With --seeds, trace the first finished or stuck run",
        parser: ValueParser::Names(ENDINGS),
        values: Some("finished or stuck"),
        ..TEXT
    },
    OptionRow {
        name: "trace",
        help: "Print the trace in place of marks and totals",
        ..FLAG
    },
    OptionRow {
        name: "sends",
        help: "With --trace, print what each step sends, too",
        ..FLAG
    },
    OptionRow {
        name: "as-choices",
        help: "Print the choices in place of marks and totals",
        ..FLAG
    },
    OptionRow {
        name: "shrink",
        help: "Print the choices of a shorter run that is stuck, too",
        ..FLAG
    },
    OptionRow {
        name: "state",
        help: "Print the final state in place of marks and totals",
        ..FLAG
    },
    OptionRow {
        name: "json",
        help: "With --seeds, print the survey as a JSON object",
        ..FLAG
    },
    QUIET,
    HELP,
];

/// The options of the command `cluster`.
const CLUSTER_OPTIONS: &[OptionRow] = &[
    OptionRow {
        name: "trace",
        help: "Print the trace in place of marks and totals",
        ..FLAG
    },
    OptionRow {
        name: "books",
        help: "Print the books in place of marks and totals",
        ..FLAG
    },
    QUIET,
    HELP,
];

/// The options of the command `settle`.
const SETTLE_OPTIONS: &[OptionRow] = &[
    OptionRow {
        name: "repeats",
        help: "Let frames come more than once",
        ..FLAG
    },
    OptionRow {
        name: "trace",
        help: "Print the trace in place of marks and totals",
        ..FLAG
    },
    OptionRow {
        name: "json",
        help: "Print JSON objects in place of lines of words",
        ..FLAG
    },
    QUIET,
    HELP,
];

/// The options of the command `check`.
const CHECK_OPTIONS: &[OptionRow] = &[
    OptionRow {
        name: "marks",
        help: "Check the mark log of any lock service, not a trace",
        ..FLAG
    },
    OptionRow {
        name: "all",
        help: "With --marks, tell each wrong line, and go on without it",
        ..FLAG
    },
    OptionRow {
        name: "complete",
        help: "Fail, too, if nothing was asked for or something is left",
        ..FLAG
    },
    OptionRow {
        name: "follow",
        help: "Read a text of any length, as it is written",
        ..FLAG
    },
    OptionRow {
        name: "every",
        help: "With --follow, say after each so many lines what came",
        defaults: &["0"],
        hides_default: true,
        values: Some("0 to 18446744073709551615"),
        ..LONG
    },
    OptionRow {
        name: "json",
        help: "Print the verdict as a JSON object on one line",
        ..FLAG
    },
    QUIET,
    HELP,
];

/// The options of the command `draw`: what it reads, and the first and the last line of the part that is drawn.
const DRAW_OPTIONS: &[OptionRow] = &[
    OptionRow {
        name: "marks",
        help: "Draw the mark log of any lock service, not a trace",
        ..FLAG
    },
    OptionRow {
        name: "from",
        help: "Draw from this line on, counted from 1",
        defaults: &["1"],
        values: Some("the number of a line, 1 or more"),
        ..LONG
    },
    OptionRow {
        name: "to",
        help: "Draw up to and including this line [default: the last]",
        defaults: &["18446744073709551615"],
        hides_default: true,
        values: Some("the number of a line, at least that of --from"),
        ..LONG
    },
    QUIET,
    HELP,
];

/// The options of the command `node`.
const NODE_OPTIONS: &[OptionRow] = &[QUIET, HELP];

/// Returns the options of a command, in their order.
pub fn options_of(kind: CommandKind) -> &'static [OptionRow<'static>]
    ensures { AreOfCommand kind (map rule_of_row result.now) }
{
    match kind {
        CommandKind::Answer => ANSWER_OPTIONS,
        CommandKind::Sim => SIM_OPTIONS,
        CommandKind::Check => CHECK_OPTIONS,
        CommandKind::Draw => DRAW_OPTIONS,
        CommandKind::Cluster => CLUSTER_OPTIONS,
        CommandKind::Settle => SETTLE_OPTIONS,
        CommandKind::Node => NODE_OPTIONS,
    }
}

impl<'a> OptionRow<'a> {
    /// Returns the name of the option, without its hyphens. It does not allocate.
    pub fn name(&self) -> &'a str {
        self.name
    }

    /// Returns whether an argument is the option, and it takes nothing and is not help. It does not allocate.
    fn is_flag(&self, argument: &str) -> bool
        ensures { result ≡ spec.is_flag argument.now (rule_of_row self.now) }
    {
        match argument.as_bytes().strip_prefix(b"--") {
            Some(name) => {
                matches!(self.action, ArgAction::SetTrue) && name == self.name.as_bytes()
            }
            None => false,
        }
    }

    /// Returns whether an argument is the option, and the next argument is its value. It does not allocate.
    fn takes_next(&self, argument: &str) -> bool
        ensures { result ≡ takes_next_by argument.now (rule_of_row self.now) }
    {
        match argument.as_bytes().strip_prefix(b"--") {
            Some(name) => matches!(self.action, ArgAction::Set) && name == self.name.as_bytes(),
            None => false,
        }
    }

    /// Returns what there is to say of the option if it is given and has no effect under this policy, or `None` if it
    /// has one. It does not allocate.
    pub fn unused_under(&self, policy: &str) -> Option<&'a str> {
        let effect = self.effect?;
        if effect.policies.contains(&policy) {
            None
        } else {
            Some(effect.unused)
        }
    }
}

/// Returns the options of the command `sim`, in the order of help. It does not allocate.
pub fn sim_options() -> &'static [OptionRow<'static>] {
    options_of(CommandKind::Sim)
}

/// Returns whether an argument is one of these options that takes nothing and is not help. It does not allocate.
pub fn is_flag_among(rows: &[OptionRow<'_>], argument: &str) -> bool
    ensures { result ≡ spec.is_flag_among (map rule_of_row rows.now) argument.now }
{
    for row in rows {
        if row.is_flag(argument) {
            return true;
        }
    }
    false
}

/// Returns whether an argument is one of these options, and the next argument is its value. It does not allocate.
fn is_taking_among(rows: &[OptionRow<'_>], argument: &str) -> bool
    ensures { result ≡ is_taking (map rule_of_row rows.now) argument.now }
{
    for row in rows {
        if row.takes_next(argument) {
            return true;
        }
    }
    false
}

/// Returns whether an argument is an option of a command of this kind, and the next argument is its value. An unknown
/// command has no options. It does not allocate.
pub fn takes_next(kind: Option<CommandKind>, argument: &str) -> bool
    ensures { result ≡ is_taking (options_after kind) argument.now }
{
    match kind {
        Some(kind) => is_taking_among(options_of(kind), argument),
        None => false,
    }
}

/// Returns which values the option takes that an argument names, or `None` if it names none that takes a value. No two
/// commands have an option of one name that takes other values. It does not allocate.
pub fn values_of(argument: &str) -> Option<&'static str> {
    let name = argument.strip_prefix("--")?;
    for row in all_rows() {
        for option in options_of(row.kind) {
            if option.name == name && option.values.is_some() {
                return option.values;
            }
        }
    }
    None
}

/// Makes an option. If it takes one of several words, the text below the options lists them, and its own help leaves
/// them out.
pub fn option_of<'a>(alloc: Global, row: &OptionRow<'a>) -> Arg<'a>
    ensures rule { rule_of result ≡ rule_of_row row.now }
    ensures local { result.global ≡ false }
{
    let option = Arg::new(alloc, row.name)
        .long(row.name)
        .help(row.help)
        .hide_default_value(row.hides_default)
        .hide_possible_values(true)
        .action(row.action)
        .value_parser(row.parser)
        .required(row.is_required)
        .default_values(row.defaults);
    match row.short {
        Some(short) => option.short(short),
        None => option,
    }
}
