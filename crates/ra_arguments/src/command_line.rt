//! What the arguments of a command line ask for.
pub mod command_rows;
pub mod helps;
pub mod input_kind;
pub mod near_words;
pub mod option_rows;
pub mod option_values;
pub mod search;
pub mod text_tasks;

ghost use Rattle.std.specs.Prelude.{◌≡◌, ◌↔◌, Any, IfOk, IsTrue, MatchResult, map, string_bytes};
ghost use Rattle.clap.specs.Words.{HasKind, found_of, kind_of, rows_of, subcommand_rows_of};
ghost use Rattle.ra_arguments.specs.Arguments.{IsHelpArgument};
ghost use Rattle.ra_arguments.specs.Asked.{AsksForTask, IsArgumentsFault, IsRefusedBy, IsTaken, is_help, meaning_given, refusals};
ghost use Rattle.ra_arguments.specs.Helping.{IsShown, ShowsHelp, helps_of};
ghost use Rattle.ra_arguments.specs.Meanings.{answer_in, chance_of as chance_by, cluster_in, ending_in, form_with, meaning_in, policy_in, policy_named as policy_by_name, printed_by, printed_in, rates_in, repeats_in, search_by, seeds_in, sim_in, survey_by, with_sends as printed_with_sends};

use crate::cluster_output::ClusterOutput;
use crate::command_line::command_rows::matches_of;
use crate::command_line::helps::{
    ANSWER_HELP, CHECK_HELP, CLUSTER_HELP, DRAW_HELP, NODE_HELP, SETTLE_HELP, SIM_HELP,
    STATUS_HELP, SUMMARY_HELP, help_below,
};
use crate::command_line::input_kind::InputKind;
use crate::command_line::option_values::{has_flag, long_number, plain_number, short_number};
use crate::command_line::search::{Search, SurveyTask};
use crate::command_line::text_tasks::{check_task, draw_task, form_of};
use crate::form::Form;
use crate::usage_fault::{ArgumentsFault, UsageCause, UsageFault};
use clap::error::ErrorKind;
use clap::{ArgMatches, Error as ParseError};
use ra_schedule::{Ending, Faults, SeedRange};
use ra_script::OutputKind;
use ra_text::Part;
use std::alloc::{AllocError, Global};

/// Which policy the arguments name.
#[derive(Clone, Copy)]
pub enum PolicyName {
    Oldest,
    Newest,
    /// With its seed.
    Seeded(u64),
    /// With its seed, and how often it loses and repeats a message.
    Faulty { seed: u64, faults: Faults },
    Listed,
}

/// What the arguments of a command line ask for.
#[derive(Drop)]
pub enum Task<'a> {
    /// The command `answer`, with its two numbers.
    Answer {
        node: u16,
        nodes: u16,
    },
    /// The command `sim`, with its policy, the text of the choices, and what is to be printed of the run.
    Sim {
        policy: PolicyName,
        choices: &'a str,
        format: OutputKind,
    },
    /// The command `sim` with many seeds.
    Survey(SurveyTask),
    /// The command `check`, whether the run has to be complete, and in which form the verdict is printed.
    Check {
        complete: bool,
        form: Form,
    },
    /// The command `check --marks`, the same.
    CheckMarks {
        complete: bool,
        form: Form,
    },
    /// The command `check --follow`, with what it reads, after how many lines each time it tells what they come to (0:
    /// never), and the same.
    Follow {
        kind: InputKind,
        every: u64,
        complete: bool,
        form: Form,
    },
    /// The command `check --marks --all`, and whether the run has to be complete.
    CheckAll {
        complete: bool,
    },
    /// The command `draw`, with what it reads, and the part that is drawn.
    Draw {
        kind: InputKind,
        part: Part,
    },
    /// The command `cluster`, with what is to be printed of the run.
    Cluster(ClusterOutput),
    /// A text of help, or the version.
    Help(String),
}

/// Why the arguments of a command line ask for nothing.
#[derive(Clone, Copy)]
pub enum CommandFault {
    /// They are no command line of `ra`.
    Usage,
    /// Memory ran out.
    Memory,
}

/// Returns the task of the command `answer`.
///
/// # Errors
///
/// 1. `Node`: the parser takes the value of `--node`, which is no number.
/// 2. `Nodes`: the same, of `--nodes`.
fn answer_task<'a>(given: &ArgMatches<'a>) -> Result<Task<'a>, UsageCause>
    ensures { IsTaken (answer_in (rows_of (found_of given.now))) result }
{
    let Some(node) = plain_number(given, "node") else {
        return Err(UsageCause::Node);
    };
    let Some(nodes) = plain_number(given, "nodes") else {
        return Err(UsageCause::Nodes);
    };
    Ok(Task::Answer { node, nodes })
}

/// Returns how often messages are lost and repeated, or `None` if there are no such faults.
fn faults_of(sim: &ArgMatches) -> Option<Faults>
    ensures { result ≡ rates_in (rows_of (found_of sim.now)) }
{
    let lose = short_number(sim, "lose")?;
    let repeat = short_number(sim, "repeat")?;
    Faults::new(lose, repeat)
}

/// Returns the policy of a name.
fn policy_named(seed: u64, faults: Faults, name: &str) -> Option<PolicyName>
    ensures { result ≡ policy_by_name seed faults name.now }
{
    match name {
        "oldest" => Some(PolicyName::Oldest),
        "newest" => Some(PolicyName::Newest),
        "seeded" => Some(PolicyName::Seeded(seed)),
        "faulty" => Some(PolicyName::Faulty { seed, faults }),
        "listed" => Some(PolicyName::Listed),
        _ => None,
    }
}

/// Returns the policy that the arguments of the command `sim` name, or `None` if there are no such faults, whatever the
/// policy.
fn policy_name(sim: &ArgMatches) -> Option<PolicyName>
    ensures { result ≡ policy_in (rows_of (found_of sim.now)) }
{
    let seed = long_number(sim, "seed")?;
    let faults = faults_of(sim)?;
    policy_named(seed, faults, sim.get_str("policy")?)
}

/// Returns the seeds of a text, for example of `1..1000`. It does not allocate.
///
/// # Errors
///
/// - `Seeds`: it is no such text.
/// - `SeedsOrder`: the first is above the last.
fn seeds_of(text: &str) -> Result<SeedRange, UsageCause>
    ensures { result ≡ seeds_in text.now }
{
    let Some((first, last)) = text.split_once("..") else {
        return Err(UsageCause::Seeds);
    };
    let Ok(first) = first.parse() else {
        return Err(UsageCause::Seeds);
    };
    let Ok(last) = last.parse() else {
        return Err(UsageCause::Seeds);
    };
    if first <= last {
        Ok(SeedRange { first, last })
    } else {
        Err(UsageCause::SeedsOrder)
    }
}

/// Returns what is to be printed of a run by these flags. It does not allocate.
///
/// # Errors
///
/// The last of the options `--as-choices`, `--shrink` and `--state` that is given, if the flags ask for two things, or
/// for choices when some may be repeats, which no word can say.
fn flagged_format(
    may_repeat: bool,
    traces: bool,
    lists: bool,
    shrinks: bool,
    states: bool,
) -> Result<OutputKind, UsageCause>
    ensures { result ≡ printed_by may_repeat traces lists shrinks states }
{
    match (traces, lists, shrinks, states) {
        (false, false, false, false) => Ok(OutputKind::Lines),
        (true, false, false, false) => Ok(OutputKind::Trace),
        (false, true, false, false) if !may_repeat => Ok(OutputKind::Choices),
        (false, false, true, false) if !may_repeat => Ok(OutputKind::Shrunk),
        (false, false, false, true) => Ok(OutputKind::State),
        (_, _, _, true) => Err(UsageCause::State),
        (_, _, true, _) => Err(UsageCause::Shrink),
        _ => Err(UsageCause::AsChoices),
    }
}

/// Returns what is to be printed if what each step sends is, too. It does not allocate.
///
/// # Errors
///
/// `Sends`: that is asked for, and a trace is not.
fn with_sends(sends: bool, format: OutputKind) -> Result<OutputKind, UsageCause>
    ensures { result ≡ printed_with_sends sends format }
{
    match (sends, format) {
        (false, _) => Ok(format),
        (true, OutputKind::Trace) => Ok(OutputKind::TraceWithSends),
        (true, _) => Err(UsageCause::Sends),
    }
}

/// Returns whether a run under this policy may repeat messages. It does not allocate.
fn may_repeat(policy: &PolicyName, sim: &ArgMatches) -> bool
    ensures { result ≡ repeats_in policy.now (rows_of (found_of sim.now)) }
{
    match short_number(sim, "repeat") {
        Some(repeat) => repeat > 0 && matches!(policy, PolicyName::Faulty { .. }),
        None => false,
    }
}

/// Returns what is to be printed of a run. It does not allocate.
///
/// # Errors
///
/// Those of `flagged_format`, and then those of `with_sends`.
fn format_of(policy: &PolicyName, sim: &ArgMatches) -> Result<OutputKind, UsageCause>
    ensures { result ≡ printed_in policy.now (rows_of (found_of sim.now)) }
{
    let format = flagged_format(
        may_repeat(policy, sim),
        has_flag(sim, "trace"),
        has_flag(sim, "as-choices"),
        has_flag(sim, "shrink"),
        has_flag(sim, "state"),
    )?;
    with_sends(has_flag(sim, "sends"), format)
}

/// Returns the end that the arguments look for, if they do. It does not allocate.
fn ending_of(sim: &ArgMatches) -> Option<Ending>
    ensures { result ≡ ending_in (rows_of (found_of sim.now)) }
{
    match sim.get_str("find") {
        Some("finished") => Some(Ending::Finished),
        Some(_) => Some(Ending::Stuck),
        None => None,
    }
}

/// Returns the faults of a policy of chance, if it has any, or `None` if the policy draws nothing. It does not
/// allocate.
fn chance_of(policy: PolicyName) -> Option<Option<Faults>>
    ensures { result ≡ chance_by policy }
{
    match policy {
        PolicyName::Seeded(_) => Some(None),
        PolicyName::Faulty { faults, .. } => Some(Some(faults)),
        _ => None,
    }
}

/// Returns what is looked for among the runs of many seeds, if an end is given: the trace of such a run is printed,
/// unless choices are asked for. It does not allocate.
///
/// # Errors
///
/// - `State`: the state is asked for.
/// - `ShrinkFinished`: a finished run is to be shrunk.
/// - `OneRun`: another format of one run is asked for, but no end.
fn search_of(ending: Option<Ending>, format: OutputKind) -> Result<Option<Search>, UsageCause>
    ensures { result ≡ search_by ending format }
{
    match (ending, format) {
        (_, OutputKind::State) => Err(UsageCause::State),
        (Some(Ending::Finished), OutputKind::Shrunk) => Err(UsageCause::ShrinkFinished),
        (Some(ending), OutputKind::Choices | OutputKind::Shrunk | OutputKind::TraceWithSends) => {
            Ok(Some(Search { ending, format }))
        }
        (Some(ending), _) => Ok(Some(Search {
            ending,
            format: OutputKind::Trace,
        })),
        (None, OutputKind::Lines) => Ok(None),
        (None, _) => Err(UsageCause::OneRun),
    }
}

/// Returns in which form a survey is printed in which this is looked for, if anything is. It does not allocate.
///
/// # Errors
///
/// `Json`: something is looked for, and objects are asked for.
fn survey_form(form: Form, find: Option<Search>) -> Result<Form, UsageCause>
    ensures { result ≡ form_with form find }
{
    match (form, find) {
        (Form::Json, Some(_)) => Err(UsageCause::Json),
        _ => Ok(form),
    }
}

/// Returns what the command `sim` asks of many seeds: under a policy of chance and, unless an end is looked for, in no
/// format of one run.
///
/// # Errors
///
/// 1. `SeedsPolicy`: the policy draws nothing.
/// 2. Those of `search_of`.
/// 3. Those of `survey_form`.
/// 4. Those of `seeds_of`.
fn survey_task(
    policy: PolicyName,
    seeds: &str,
    ending: Option<Ending>,
    format: OutputKind,
    form: Form,
) -> Result<SurveyTask, UsageCause>
    ensures { result ≡ survey_by policy seeds.now ending format form }
{
    let Some(faults) = chance_of(policy) else {
        return Err(UsageCause::SeedsPolicy);
    };
    let find = search_of(ending, format)?;
    let form = survey_form(form, find)?;
    let seeds = seeds_of(seeds)?;
    Ok(SurveyTask {
        faults,
        find,
        form,
        seeds,
    })
}

/// Returns the task of the command `sim`.
///
/// # Errors
///
/// 1. `Rates`: there are no such faults.
/// 2. Those of `format_of`.
/// 3. Those of `survey_task`, with `--seeds`.
/// 4. `Find`: an end is looked for without `--seeds`.
/// 5. `Json`: an object is asked for without `--seeds`.
fn sim_task<'a>(sim: &ArgMatches<'a>) -> Result<Task<'a>, UsageCause>
    ensures { IsTaken (sim_in (rows_of (found_of sim.now))) result }
{
    let Some(policy) = policy_name(sim) else {
        return Err(UsageCause::Rates);
    };
    let format = format_of(&policy, sim)?;
    let ending = ending_of(sim);
    let form = form_of(sim);
    if let Some(seeds) = sim.get_str("seeds") {
        let survey = survey_task(policy, seeds, ending, format, form)?;
        return Ok(Task::Survey(survey));
    }
    if ending.is_some() {
        return Err(UsageCause::Find);
    }
    if let Form::Json = form {
        return Err(UsageCause::Json);
    }
    // It has a default, so the parser gives it a text.
    let choices = sim.get_str("choices").unwrap_or("");
    Ok(Task::Sim {
        policy,
        choices,
        format,
    })
}

/// Returns the task of the command `cluster`.
///
/// # Errors
///
/// `Books`: it is to print both the trace and the books.
fn cluster_task<'a>(given: &ArgMatches<'a>) -> Result<Task<'a>, UsageCause>
    ensures { IsTaken (cluster_in (rows_of (found_of given.now))) result }
{
    match (has_flag(given, "trace"), has_flag(given, "books")) {
        (false, false) => Ok(Task::Cluster(ClusterOutput::Lines)),
        (true, false) => Ok(Task::Cluster(ClusterOutput::Trace)),
        (false, true) => Ok(Task::Cluster(ClusterOutput::Books)),
        (true, true) => Err(UsageCause::Books),
    }
}

/// Returns the task of a command with these values.
///
/// # Errors
///
/// Those of its command, or `OfNode` or `OfSettle`: the parser takes an argument that `node` or `settle` does not have.
fn task_in<'a>(command: &str, given: &ArgMatches<'a>) -> Result<Task<'a>, UsageCause>
    ensures { IsTaken (meaning_in command.now (rows_of (found_of given.now))) result }
{
    match command {
        "answer" => answer_task(given),
        "sim" => sim_task(given),
        "cluster" => cluster_task(given),
        "check" => Ok(check_task(given)),
        "draw" => draw_task(given),
        "node" => Err(UsageCause::OfNode),
        "settle" => Err(UsageCause::OfSettle),
        _ => Err(UsageCause::NoCommand),
    }
}

/// Returns the task of a command line that the parser takes.
///
/// # Errors
///
/// The first cause why it means nothing.
fn task_of<'a>(matches: &ArgMatches<'a>) -> Result<Task<'a>, UsageCause>
    ensures { IsTaken (meaning_given (subcommand_rows_of matches.now)) result }
{
    let Some((command, given)) = matches.subcommand() else {
        return Err(UsageCause::NoCommand);
    };
    task_in(command, given)
}

/// Returns whether an argument asks for a text of help or for the version. It does not allocate.
fn is_help_argument(argument: &str) -> bool
    ensures { IsTrue result ↔ IsHelpArgument argument.now }
{
    matches!(argument, "--help" | "-h" | "--version" | "-V")
}

/// Returns whether one of the arguments asks for a text of help or for the version. It does not allocate.
fn asks_for_help(arguments: &[String]) -> bool
    ensures { IsTrue result ↔ Any (λ argument. IsHelpArgument (string_bytes argument)) arguments.now }
{
    for argument in arguments {
        if is_help_argument(argument.as_str()) {
            return true;
        }
    }
    false
}

/// Returns the value that is wrong for this cause, or `None` if the cause is not the value of one option. It does not
/// allocate.
fn wrong_value<'a>(matches: &ArgMatches<'a>, cause: UsageCause) -> Option<&'a str> {
    let option = match cause {
        UsageCause::Node => "node",
        UsageCause::Nodes => "nodes",
        UsageCause::Seeds | UsageCause::SeedsOrder => "seeds",
        _ => return None,
    };
    let (_, given) = matches.subcommand()?;
    given.get_str(option)
}

/// Returns the task of the arguments. The first is the program's name.
///
/// # Errors
///
/// `Usage`: they ask for nothing, for this cause. `Memory`: memory ran out.
pub fn parse<'a>(alloc: Global, arguments: &'a [String]) -> Result<Task<'a>, ArgumentsFault<'a>>
    ensures task { MatchResult result (AsksForTask (map string_bytes arguments.now))
        (IsArgumentsFault (map string_bytes arguments.now)) }
    ensures help { IfOk result (ShowsHelp
        (helps_of ANSWER_HELP.now SIM_HELP.now CLUSTER_HELP.now CHECK_HELP.now DRAW_HELP.now NODE_HELP.now
        SETTLE_HELP.now SUMMARY_HELP.now STATUS_HELP.now) (map string_bytes arguments.now)) }
{
    let Ok(parsed) = matches_of(alloc, arguments) else {
        return Err(ArgumentsFault::Memory);
    };
    match parsed {
        Ok(matches) => match task_of(&matches) {
            Ok(task) => Ok(task),
            Err(cause) => Err(ArgumentsFault::Usage(UsageFault::Meaning {
                cause,
                value: wrong_value(&matches, cause),
            })),
        },
        Err(error) => match help_of(alloc, arguments, &error) {
            Ok(task) => Ok(task),
            Err(CommandFault::Usage) => Err(ArgumentsFault::Usage(UsageFault::Parser(error))),
            Err(CommandFault::Memory) => Err(ArgumentsFault::Memory),
        },
    }
}

/// Returns whether the parser stopped for a text of help or the version. It does not allocate.
fn is_help_kind(kind: ErrorKind) -> bool
    ensures { result ≡ is_help kind }
{
    matches!(kind, ErrorKind::DisplayHelp | ErrorKind::DisplayVersion)
}

/// Returns a text of help or the version: the parser's text and, if it is help, the text below it.
///
/// # Errors
///
/// `AllocError`: there was no memory for it.
fn help_text(alloc: Global, arguments: &[String], error: &ParseError) -> Result<String, AllocError>
    ensures { IfOk result (λ text. IsShown
        (helps_of ANSWER_HELP.now SIM_HELP.now CLUSTER_HELP.now CHECK_HELP.now DRAW_HELP.now NODE_HELP.now
        SETTLE_HELP.now SUMMARY_HELP.now STATUS_HELP.now) (map string_bytes arguments.now) (kind_of error.now)
        (string_bytes text)) }
{
    let mut text = format!(in alloc; "{error}")?;
    if let ErrorKind::DisplayHelp = error.kind() {
        text.push_str("\n")?;
        text.push_str(help_below(arguments))?;
        text.push_str("\n")?;
    }
    Ok(text)
}

/// Returns the text of help, or the version, that the arguments ask for, if that is why the parser stopped.
///
/// # Errors
///
/// `Usage`: it stopped for another cause, or no argument asks for help. `Memory`: memory ran out.
fn help_of<'a>(
    alloc: Global,
    arguments: &[String],
    error: &ParseError,
) -> Result<Task<'a>, CommandFault>
    requires { HasKind (refusals (map string_bytes arguments.now)) error.now }
    ensures task { MatchResult result (AsksForTask (map string_bytes arguments.now))
        (IsRefusedBy (map string_bytes arguments.now) error.now) }
    ensures help { IfOk result (ShowsHelp
        (helps_of ANSWER_HELP.now SIM_HELP.now CLUSTER_HELP.now CHECK_HELP.now DRAW_HELP.now NODE_HELP.now
        SETTLE_HELP.now SUMMARY_HELP.now STATUS_HELP.now) (map string_bytes arguments.now)) }
{
    if is_help_kind(error.kind()) {
        if !asks_for_help(arguments) {
            return Err(CommandFault::Usage);
        }
        return match help_text(alloc, arguments, error) {
            Ok(text) => Ok(Task::Help(text)),
            Err(_) => Err(CommandFault::Memory),
        };
    }
    match error.kind() {
        ErrorKind::OutOfMemory => Err(CommandFault::Memory),
        _ => Err(CommandFault::Usage),
    }
}
