//! The commands of `ra`, each a row of a table, so that the same few lines make them all.
ghost use Rattle.std.specs.Prelude.{◌≡◌, map, IfOk, option_map, string_bytes};
ghost use Rattle.clap.specs.Words.{app_of};
ghost use Rattle.ra_arguments.specs.Asked.{IsParsed};
ghost use Rattle.ra_arguments.specs.Helping.{command_called, command_in};
ghost use Rattle.ra_arguments.specs.OptionTable.{IsOfRow, all_labels, label_of_row};

use crate::command_line::near_words::is_near;
use crate::command_line::option_rows::{option_of, options_of};
use clap::{ArgMatches, Command, Error as ParseError};
use std::alloc::{AllocError, Global};

/// The version of the program, and the versions of the formats that it reads. After a release it is the next one with
/// `-dev`, until that is released.
const VERSION: &str = "0.2.0 (frames 1 and 2, traces 1 to 3, books 1 and 2)";

/// Which command it is.
#[derive(Clone, Copy)]
pub enum CommandKind {
    Answer,
    Sim,
    Cluster,
    Check,
    Draw,
    Node,
    Settle,
}

/// What the help of each command says of `FILE`.
const FILES: &str = "\
FILE is read in place of standard input. Several are read one after the other,
as one text, and - is standard input.";

/// A command, its name, what its help says first, and how its arguments are written.
#[derive(Clone, Copy)]
pub struct CommandRow<'a> {
    pub kind: CommandKind,
    name: &'a str,
    about: &'a str,
    usage: &'a str,
}

/// The commands, in the order of help.
const COMMANDS: &[CommandRow] = &[
    CommandRow {
        kind: CommandKind::Answer,
        name: "answer",
        about: "Answer one frame, in hexadecimal digits, as an idle node would",
        usage: "ra answer [OPTIONS] --node <node> --nodes <nodes> [FILE]...",
    },
    CommandRow {
        kind: CommandKind::Sim,
        name: "sim",
        about: "Run a script in a simulated cluster: who asks, enters and leaves",
        usage: "ra sim [OPTIONS] [FILE]...",
    },
    CommandRow {
        kind: CommandKind::Cluster,
        name: "cluster",
        about: "Run a script in a cluster of threads: who asks, enters and leaves",
        usage: "ra cluster [OPTIONS] [FILE]...",
    },
    CommandRow {
        kind: CommandKind::Check,
        name: "check",
        about: "Check the trace of a run, or the mark log of a lock service",
        usage: "ra check [OPTIONS] [FILE]...",
    },
    CommandRow {
        kind: CommandKind::Draw,
        name: "draw",
        about: "Draw the trace of a run, or a mark log, as an SVG file",
        usage: "ra draw [OPTIONS] [FILE]...",
    },
    CommandRow {
        kind: CommandKind::Node,
        name: "node",
        about: "Be one node: read what happens at it, and answer line by line",
        usage: "ra node [OPTIONS] [FILE]...",
    },
    CommandRow {
        kind: CommandKind::Settle,
        name: "settle",
        about: "Settle the books of all nodes into one run of the cluster",
        usage: "ra settle [OPTIONS] [FILE]...",
    },
];

/// Returns the command of a name, or `None`. It does not allocate.
fn row_of(name: &str) -> Option<CommandRow<'static>>
    ensures { option_map (λ row. row.kind) result ≡ command_called name.now }
{
    for row in all_rows() {
        if row.name == name {
            return Some(*row);
        }
    }
    None
}

/// Returns which command has a name, or `None`. It does not allocate.
pub fn kind_called(name: &str) -> Option<CommandKind>
    ensures { result ≡ command_called name.now }
{
    match row_of(name) {
        Some(row) => Some(row.kind),
        None => None,
    }
}

/// Returns the command that the arguments name after the program, or `None`. It does not allocate.
pub fn row_named(arguments: &[String]) -> Option<CommandRow<'static>>
    ensures { option_map (λ row. row.kind) result ≡ command_in (map string_bytes arguments.now) }
{
    match arguments {
        [_, name, ..] => row_of(name.as_str()),
        _ => None,
    }
}

/// Returns the name of the command that the arguments name, or `None`. It does not allocate.
pub fn command_named(arguments: &[String]) -> Option<&'static str> {
    let row = row_named(arguments)?;
    Some(row.name)
}

/// Returns a command whose name is nearly this word, or `None`. It does not allocate.
pub fn command_near(word: &str) -> Option<&'static str> {
    for row in all_rows() {
        if is_near(word.as_bytes(), row.name.as_bytes()) {
            return Some(row.name);
        }
    }
    None
}

/// Returns the commands, in the order of help.
pub fn all_rows() -> &'static [CommandRow<'static>]
    ensures { map label_of_row result.now ≡ all_labels }
{
    COMMANDS
}

/// Makes a command with its options, and without the help below them.
fn command_of<'a>(alloc: Global, row: &CommandRow<'a>) -> Result<Command<'a>, AllocError>
    ensures { IfOk result (λ made. IsOfRow row.now (app_of made)) }
{
    let mut command = Command::new(alloc, row.name)
        .about(row.about)
        .override_usage(row.usage)
        .after_help(FILES)
        .disable_help_flag(true);
    for option in options_of(row.kind) {
        command = command.arg(option_of(alloc, option))?;
    }
    Ok(command)
}

/// Returns what the parser makes of the arguments. The first is the program's name. The parser has of each
/// help what is above the text of `help_below`.
///
/// # Errors
///
/// `AllocError`: memory ran out for the commands and their options.
pub fn matches_of<'a>(
    alloc: Global,
    arguments: &'a [String],
) -> Result<Result<ArgMatches<'a>, ParseError>, AllocError>
    ensures { IfOk result (IsParsed (map string_bytes arguments.now)) }
{
    let mut program = Command::new(alloc, "ra")
        .version(VERSION)
        .about("Simulate, run, check and draw a lock cluster that works by messages alone")
        .disable_help_subcommand(true)
        .subcommand_required(true);
    for row in all_rows() {
        let command = command_of(alloc, row)?;
        program = program.subcommand(command)?;
    }
    Ok(program.try_get_matches_from(arguments))
}
