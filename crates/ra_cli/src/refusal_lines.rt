//! The line that is printed for each refusal, as a constant: so it can be printed even if memory is lacking. The words
//! are here and also in the `Display` of the errors of other crates, since no contract says what a `Display` writes.
ghost use Rattle.std.specs.Prelude.{◌≡◌};
ghost use Rattle.ra_cli.specs.Refusals as spec;

use crate::AnswerError;
use crate::error::{RunScriptError, SettleFault};
use ra_arguments::CommandFault;
use ra_book_text::BookFault;
use ra_cluster::ClusterError;
use ra_draw::DrawError;
use ra_schedule::{ChoicesError, DriveError};
use ra_script::{PerformError, ScriptError};
use ra_trace::TraceError;

/// Why a command was not done.
#[derive(Clone, Copy)]
pub enum CommandRefusal {
    Command(CommandFault),
    Answer(AnswerError),
    Choices(ChoicesError),
    Perform(PerformError),
    Check(TraceError),
    Draw(DrawError),
    Cluster(RunScriptError),
    Survey(RunScriptError),
    Settle(SettleFault),
    Node(BookFault),
}

/// Returns the line of a refusal: `refused` and its word. It does not allocate.
pub fn line_of(refusal: CommandRefusal) -> &'static str
    ensures { result.now ≡ spec.refused_line (spec.word_of refusal) }
{
    match refusal {
        CommandRefusal::Command(CommandFault::Usage) => "refused Usage\n",
        CommandRefusal::Command(CommandFault::Memory) => "refused Memory\n",
        CommandRefusal::Answer(why) => answer_line(why),
        CommandRefusal::Choices(ChoicesError::Choice) => "refused Choice\n",
        CommandRefusal::Choices(ChoicesError::Memory) => "refused Memory\n",
        CommandRefusal::Perform(why) => perform_line(why),
        CommandRefusal::Check(TraceError::Read) => "refused Read\n",
        CommandRefusal::Check(TraceError::Limit) => "refused Limit\n",
        CommandRefusal::Check(TraceError::Memory) => "refused Memory\n",
        CommandRefusal::Draw(why) => match why {
            DrawError::Read => "refused Read\n",
            DrawError::Limit => "refused Limit\n",
            DrawError::NoLines { .. } => "refused NoLines\n",
            DrawError::TooLong => "refused TooLong\n",
            DrawError::Memory => "refused Memory\n",
            DrawError::Write => "refused Write\n",
        },
        CommandRefusal::Cluster(why) | CommandRefusal::Survey(why) => run_line(why),
        CommandRefusal::Settle(SettleFault::Read) => "refused Read\n",
        CommandRefusal::Settle(SettleFault::Limit) => "refused Limit\n",
        CommandRefusal::Settle(SettleFault::Memory) => "refused Memory\n",
        CommandRefusal::Node(BookFault::Line) => "refused Line\n",
        CommandRefusal::Node(BookFault::Read) => "refused Read\n",
        CommandRefusal::Node(BookFault::Write) => "refused Write\n",
    }
}

/// Returns the line that says why a text is no script. It does not allocate.
fn script_line(fault: ScriptError) -> &'static str
    ensures { result.now ≡ spec.refused_line (spec.script_word fault) }
{
    match fault {
        ScriptError::Toml => "refused Toml\n",
        ScriptError::Shape => "refused Shape\n",
        ScriptError::Nodes => "refused Nodes\n",
        ScriptError::Clients => "refused Clients\n",
        ScriptError::Op => "refused Op\n",
        ScriptError::NotHeld => "refused NotHeld\n",
        ScriptError::AlreadyHeld => "refused AlreadyHeld\n",
        ScriptError::Limit => "refused Limit\n",
        ScriptError::Memory => "refused Memory\n",
    }
}

/// Returns the line that says why a frame is not answered. It does not allocate.
fn answer_line(fault: AnswerError) -> &'static str
    ensures { result.now ≡ spec.refused_line (spec.answer_word fault) }
{
    match fault {
        AnswerError::BadCount => "refused BadCount\n",
        AnswerError::BadNode => "refused BadNode\n",
        AnswerError::Read => "refused Read\n",
        AnswerError::Line => "refused Line\n",
        AnswerError::Hex => "refused Hex\n",
        AnswerError::Frame(why) => why.refused_line(),
        AnswerError::WrongNode => "refused WrongNode\n",
        AnswerError::Stranger => "refused Stranger\n",
        AnswerError::ClockFull => "refused ClockFull\n",
        AnswerError::Memory => "refused Memory\n",
        AnswerError::Write => "refused Write\n",
    }
}

/// Returns the line that says why a script is not performed. It does not allocate.
fn perform_line(fault: PerformError) -> &'static str
    ensures { result.now ≡ spec.refused_line (spec.perform_word fault) }
{
    match fault {
        PerformError::Read => "refused Read\n",
        PerformError::Script(why) => script_line(why),
        PerformError::Drive(why) => match why {
            DriveError::TurnLimit => "refused TurnLimit\n",
            DriveError::BadPlace => "refused BadPlace\n",
            DriveError::NotEnabled => "refused NotEnabled\n",
            DriveError::Memory => "refused Memory\n",
        },
        PerformError::Choice => "refused Choice\n",
        PerformError::Memory => "refused Memory\n",
        PerformError::Write => "refused Write\n",
    }
}

/// Returns the line that says why a script is not run by threads, or not under many seeds. It does not allocate.
fn run_line(fault: RunScriptError) -> &'static str
    ensures { result.now ≡ spec.refused_line (spec.run_word fault) }
{
    match fault {
        RunScriptError::Read => "refused Read\n",
        RunScriptError::Script(why) => script_line(why),
        RunScriptError::Cluster(why) => match why {
            ClusterError::OutOfOrder => "refused OutOfOrder\n",
            ClusterError::Unreleased => "refused Unreleased\n",
            ClusterError::Fault(_) => "refused Fault\n",
            ClusterError::Settle => "refused Settle\n",
            ClusterError::PlanUnmet => "refused PlanUnmet\n",
            ClusterError::Lost => "refused Lost\n",
            ClusterError::UnderWay => "refused UnderWay\n",
            ClusterError::Memory => "refused Memory\n",
        },
        RunScriptError::Choice => "refused Choice\n",
        RunScriptError::Memory => "refused Memory\n",
    }
}
