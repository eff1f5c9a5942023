//! What is said of arguments that are not a command line, on one line. The parser's error has a kind and a text, and
//! nothing more: the option, the value and the nearest word are only in the text, so they are cut out of it.
use crate::notice::Notice;
use clap::Error as ParseError;
use clap::error::ErrorKind;
use ra_arguments::{UsageCause, UsageFault, command_named, command_near, values_of};
use ra_schedule::read_choices;
use ra_text::Note;
use std::alloc::Global;

/// Returns an option that takes a value, with the argument after it, if the parser takes that argument for an option
/// though it is not one, such as a negative number. Otherwise returns `None`.
fn no_option_in(arguments: &[String]) -> Option<(&str, &str)> {
    for place in 2..arguments.len() {
        let next = arguments[place].as_str();
        if let [b'-', letter, ..] = next.as_bytes()
            && !matches!(letter, b'-' | b'h' | b'V')
        {
            let option = arguments[place - 1].as_str();
            if values_of(option).is_some() {
                return Some((option, next));
            }
        }
    }
    None
}

/// Returns what comes before the first occurrence of a mark in a text, and what follows it, or `None`. A call of it is
/// cheaper to prove than one of `split_once`, which promises more.
fn cut_at<'a>(text: &'a str, mark: &str) -> Option<(&'a str, &'a str)> {
    text.split_once(mark)
}

/// Returns what the parser says between two marks, and what follows the second, or `None`.
fn between<'a>(said: &'a str, first: &str, second: &str) -> Option<(&'a str, &'a str)> {
    match cut_at(said, first) {
        Some((_, rest)) => cut_at(rest, second),
        None => None,
    }
}

/// Returns the option whose number the parser finds wrong, and that number, or `None`. It says why after
/// a colon, and otherwise lists the words that an option takes, and the nearest one.
fn wrong_number_in(said: &str) -> Option<(&str, &str)> {
    let (value, rest) = between(said, "invalid value '", "' for '")?;
    let (option, after) = cut_at(rest, " <")?;
    if cut_at(after, ">': ").is_some() {
        Some((option, value))
    } else {
        None
    }
}

/// Adds an option and its value, and what follows.
fn push_wrong(note: &mut Note, option: &str, value: &str, why: &str) {
    note.push(option);
    note.push(" is ");
    note.quoted_text(value);
    note.push(why);
}

/// Adds the wrong value of an option, and which ones it takes, and returns whether the option takes a value.
fn push_range(note: &mut Note, option: &str, value: &str) -> bool {
    let Some(values) = values_of(option) else {
        return false;
    };
    push_wrong(note, option, value, ": must be ");
    note.push(values);
    true
}

/// Adds which values an option takes if a wrong one is given, and returns whether one is.
fn push_value(note: &mut Note, arguments: &[String], said: &str) -> bool {
    let wrong = match no_option_in(arguments) {
        Some(wrong) => Some(wrong),
        None => wrong_number_in(said),
    };
    match wrong {
        Some((option, value)) => push_range(note, option, value),
        None => false,
    }
}

/// Adds what the parser says, without the lines of the usage and what follows them: a tip after a semicolon, and any
/// other line after a space.
fn push_said(note: &mut Note, said: &str) {
    let said = said.strip_prefix("error: ").unwrap_or(said);
    for line in said.lines() {
        if line.starts_with("Usage:") || line.starts_with("For more information") {
            return;
        }
        let line = line.trim();
        let (joint, shown) = match line.strip_prefix("tip: ") {
            Some(tip) => ("; ", tip),
            None if note.is_empty() || line.is_empty() => ("", line),
            None => (" ", line),
        };
        note.push(joint);
        note.shown(shown);
    }
}

/// Adds where to read more.
fn push_see(note: &mut Note, arguments: &[String]) {
    note.push("; see ra ");
    if let Some(name) = command_named(arguments) {
        note.push(name);
        note.push(" ");
    }
    note.push("--help");
}

/// Returns whether an argument is a choice.
pub fn is_choice(alloc: Global, argument: &str) -> bool {
    !argument.is_empty() && read_choices(alloc, argument).is_ok()
}

/// Adds the command that an unknown one may mean, if the parser names none.
fn push_near(note: &mut Note, said: &str) {
    if cut_at(said, "tip: ").is_some() {
        return;
    }
    let Some((word, _)) = between(said, "unrecognized subcommand '", "'") else {
        return;
    };
    if let Some(name) = command_near(word) {
        note.push("; a similar subcommand exists: '");
        note.push(name);
        note.push("'");
    }
}

/// Adds what the parser says, or which numbers an option takes. An unknown command may be nearly a known one.
fn push_parsed(note: &mut Note, arguments: &[String], said: &str) {
    if push_value(note, arguments, said) {
        return;
    }
    push_said(note, said);
    if command_named(arguments).is_none() {
        push_near(note, said);
    }
}

/// Adds what the parser says about the arguments with its error. It stops for help that no argument asks for only at
/// one that has `-h` or `-V` among others.
fn push_error(alloc: Global, note: &mut Note, arguments: &[String], error: &ParseError) {
    if matches!(
        error.kind(),
        ErrorKind::DisplayHelp | ErrorKind::DisplayVersion
    ) {
        push_cause(note, UsageCause::NoCommand, None);
        return;
    }
    match format!(in alloc; "{error}") {
        Ok(said) => push_parsed(note, arguments, said.as_str()),
        Err(_) => note.refuse_if(true),
    }
}

/// Returns what is said of a cause, or `None` if it is the value of one option.
fn cause_text(cause: UsageCause) -> Option<&'static str> {
    Some(match cause {
        UsageCause::NoCommand => "-h and -V must be arguments of their own",
        UsageCause::Rates =>
            "--repeat must be at most 400, and --lose and --repeat together at most 1000",
        UsageCause::State =>
            "--state cannot be used with --trace, --as-choices, --shrink or --seeds",
        UsageCause::Shrink =>
            "--shrink cannot be used with --trace, --as-choices or --state, nor with --policy faulty unless --repeat is 0",
        UsageCause::AsChoices =>
            "--as-choices cannot be used with --trace, nor with --policy faulty unless --repeat is 0",
        UsageCause::Sends => "--sends requires --trace",
        UsageCause::Find => "--find requires --seeds",
        UsageCause::SeedsPolicy => "--seeds requires --policy seeded or faulty",
        UsageCause::OneRun => "--seeds takes --trace, --as-choices or --shrink only with --find",
        UsageCause::ShrinkFinished => "--shrink cannot be used with --find finished",
        UsageCause::Json => "--json requires --seeds, and cannot be used with --find",
        UsageCause::Part => "--from must be at least 1, and at most --to",
        UsageCause::Books => "--books cannot be used with --trace",
        UsageCause::OfNode => "node takes no arguments",
        UsageCause::OfSettle => "settle takes no arguments but --repeats, and --trace or --json",
        UsageCause::Node | UsageCause::Nodes | UsageCause::Seeds | UsageCause::SeedsOrder => {
            return None;
        }
    })
}

/// Adds why the value of one option is wrong.
fn push_wrong_value(note: &mut Note, cause: UsageCause, value: &str) {
    let option = match cause {
        UsageCause::Node => "--node",
        UsageCause::Nodes => "--nodes",
        UsageCause::SeedsOrder => {
            let why = ": the first seed is above the last";
            push_wrong(note, "--seeds", value, why);
            return;
        }
        _ => "--seeds",
    };
    push_range(note, option, value);
}

/// Adds why arguments that the parser takes mean nothing, with the value that is wrong, if the cause is that of one
/// option.
fn push_cause(note: &mut Note, cause: UsageCause, value: Option<&str>) {
    if let Some(text) = cause_text(cause) {
        note.push(text);
    } else if let Some(value) = value {
        push_wrong_value(note, cause, value);
    }
}

/// Returns what there is to say about arguments that are not a command line of `ra`: what is wrong, the nearest word if
/// the parser knows one, and where to read more.
pub fn usage_note(alloc: Global, arguments: &[String], fault: &UsageFault<'_>) -> Notice {
    let mut note = Note::new(alloc);
    match *fault {
        UsageFault::Parser(ref error) => push_error(alloc, &mut note, arguments, error),
        UsageFault::Meaning { cause, value } => push_cause(&mut note, cause, value),
    }
    push_see(&mut note, arguments);
    Notice::of(note)
}
