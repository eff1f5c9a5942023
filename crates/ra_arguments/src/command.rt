//! The command that arguments ask for.
ghost use Rattle.std.specs.Prelude.{map, string_bytes};
ghost use Rattle.ra_arguments.specs.Asked.{Asks, IsCauseWith};
ghost use Rattle.ra_arguments.specs.Helping.{ShowsHelpOf, helps_of};

use crate::command_line::helps::{
    ANSWER_HELP, CHECK_HELP, CLUSTER_HELP, DRAW_HELP, NODE_HELP, SETTLE_HELP, SIM_HELP,
    STATUS_HELP, SUMMARY_HELP,
};
use crate::command_line::search::{Search, SurveyTask};
use crate::command_line::{CommandFault, PolicyName, Task, parse};
use crate::lone_command::is_command_alone;
use crate::settle_arguments::{SettleTask, settle_arguments};
use crate::usage_fault::{ArgumentsFault, UsageFault};
use ra_script::OutputKind;
use std::alloc::Global;

/// What the arguments of a command line ask for.
#[derive(Drop)]
pub enum Command<'a> {
    /// The command `node`.
    Node,
    /// The command `settle`, and how books are settled.
    Settle(SettleTask),
    /// Another command, or a text of help.
    Task(Task<'a>),
    /// Nothing, and why.
    Unknown(CommandFault),
}

impl<'a> Command<'a> {
    /// Returns whether a run of `sim` is to be shrunk, or one that is looked for. It does not allocate.
    pub fn shrinks(&self) -> bool {
        match self {
            Command::Task(
                Task::Sim { format, .. }
                | Task::Survey(
                    SurveyTask {
                        find: Some(Search { format, .. }),
                        ..
                    },
                ),
            ) => matches!(format, OutputKind::Shrunk),
            _ => false,
        }
    }
}

/// What a command line says.
#[derive(Drop)]
pub struct CommandLine<'a> {
    /// What its arguments ask for.
    pub asked: Command<'a>,
    /// Why they ask for nothing, if that is so.
    pub fault: Option<UsageFault<'a>>,
}

/// Reads the arguments of a command line. The first is the program's name. They are read once: the first cause why they
/// ask for nothing is kept.
pub fn read_command_line<'a>(alloc: Global, arguments: &'a [String]) -> CommandLine<'a>
    ensures asks { Asks (map string_bytes arguments.now) result.asked }
    ensures cause { IsCauseWith (map string_bytes arguments.now) result.asked result.fault }
    ensures help { ShowsHelpOf
        (helps_of ANSWER_HELP.now SIM_HELP.now CLUSTER_HELP.now CHECK_HELP.now DRAW_HELP.now NODE_HELP.now
        SETTLE_HELP.now SUMMARY_HELP.now STATUS_HELP.now) (map string_bytes arguments.now) result.asked }
{
    if is_command_alone(arguments, "node") {
        return CommandLine {
            asked: Command::Node,
            fault: None,
        };
    }
    if let Some(asked) = settle_arguments(arguments) {
        return CommandLine {
            asked: Command::Settle(asked),
            fault: None,
        };
    }
    // It is asked for most often, and needs neither the parser nor memory.
    if is_command_alone(arguments, "sim") {
        return CommandLine {
            asked: Command::Task(Task::Sim {
                policy: PolicyName::Oldest,
                choices: "",
                format: OutputKind::Lines,
            }),
            fault: None,
        };
    }
    match parse(alloc, arguments) {
        Ok(task) => CommandLine {
            asked: Command::Task(task),
            fault: None,
        },
        Err(ArgumentsFault::Usage(fault)) => CommandLine {
            asked: Command::Unknown(CommandFault::Usage),
            fault: Some(fault),
        },
        Err(ArgumentsFault::Memory) => CommandLine {
            asked: Command::Unknown(CommandFault::Memory),
            fault: None,
        },
    }
}

/// Returns what the arguments ask for. The first is the program's name.
pub fn command_of<'a>(alloc: Global, arguments: &'a [String]) -> Command<'a>
    ensures asks { Asks (map string_bytes arguments.now) result }
    ensures help { ShowsHelpOf
        (helps_of ANSWER_HELP.now SIM_HELP.now CLUSTER_HELP.now CHECK_HELP.now DRAW_HELP.now NODE_HELP.now
        SETTLE_HELP.now SUMMARY_HELP.now STATUS_HELP.now) (map string_bytes arguments.now) result }
{
    read_command_line(alloc, arguments).asked
}
