//! Why arguments ask for nothing: the first cause.
use clap::Error as ParseError;

/// Why arguments that the parser takes mean nothing.
#[derive(Clone, Copy)]
pub enum UsageCause {
    /// They name no command.
    NoCommand,
    /// The value of `--node` is no number. The parser takes `-0` for one.
    Node,
    /// The value of `--nodes` is no number.
    Nodes,
    /// `--repeat`, or `--lose` and `--repeat` together, are above what there may be.
    Rates,
    /// `--state`, and another option that says what is printed, or `--seeds`.
    State,
    /// `--shrink`, and another option that says what is printed, or perhaps repeats.
    Shrink,
    /// `--as-choices`, and another option that says what is printed, or perhaps repeats.
    AsChoices,
    /// `--sends` without `--trace`.
    Sends,
    /// `--find` without `--seeds`.
    Find,
    /// `--seeds` under a policy that draws nothing.
    SeedsPolicy,
    /// `--seeds`, and an option that prints something of one run, without `--find`.
    OneRun,
    /// `--shrink` with `--find finished`.
    ShrinkFinished,
    /// The value of `--seeds` is not two numbers with two dots between them.
    Seeds,
    /// The first seed of `--seeds` is above the last.
    SeedsOrder,
    /// `--json` without `--seeds`, or with `--find`.
    Json,
    /// `--from` is 0 or above `--to`.
    Part,
    /// `--books` and `--trace`.
    Books,
    /// An argument after `node`.
    OfNode,
    /// An argument after `settle` that is not one of its options.
    OfSettle,
}

/// Why arguments ask for nothing.
#[derive(Drop)]
pub enum UsageFault<'a> {
    /// The parser refuses them with this error.
    Parser(ParseError),
    /// The parser takes them, but they mean nothing.
    Meaning {
        cause: UsageCause,
        /// The value that is wrong, if the cause is the value of one option.
        value: Option<&'a str>,
    },
}

/// Why there is no task.
#[derive(Drop)]
pub enum ArgumentsFault<'a> {
    /// The arguments ask for nothing.
    Usage(UsageFault<'a>),
    /// Memory ran out.
    Memory,
}
