//! The words of a command line, sorted: those that the parser reads, and those that name files.
ghost use Rattle.std.specs.Prelude.{◌≡◌, IfOk, OnOk, map, string_bytes};
ghost use Rattle.ra_arguments.specs.FileWords as spec;

use crate::command_line::command_rows::{CommandKind, kind_called};
use crate::command_line::option_rows::takes_next;
use std::alloc::{AllocError, Global};

/// How far the words are sorted.
#[derive(Clone, Copy)]
pub enum Place {
    /// Before the program's name.
    Program,
    /// Before the command's name.
    Command,
    /// After the name of a command, or of none that there is. Whether the last word is an option that takes the next.
    Options {
        kind: Option<CommandKind>,
        waits: bool,
    },
    /// After `--`.
    Files,
}

impl Place {
    /// Returns the same place, where no option takes the next word. It does not allocate.
    fn settled(self) -> Place
        ensures { result ≡ spec.settled self }
    {
        match self {
            Place::Options { kind, .. } => Place::Options { kind, waits: false },
            place => place,
        }
    }
}

/// The words of a command line, sorted.
#[derive(Drop)]
pub struct CommandWords<'a> {
    /// What the parser reads: the program's name, the command and its options.
    pub arguments: Vec<String>,
    /// The files to read, one after the other. `-` is standard input, and so is no file at all.
    pub files: Vec<&'a str>,
    /// Whether no notes are to be written.
    pub is_quiet: bool,
}

/// Words that are being sorted.
#[derive(Drop)]
struct Sorting<'a> {
    alloc: Global,
    arguments: Vec<String>,
    files: Vec<&'a str>,
    is_quiet: bool,
    /// Whether the word `help` comes before the command's name.
    helps: bool,
    place: Place,
}

/// Returns whether a word is an option, or several with one hyphen. It does not allocate.
fn is_option(word: &str) -> bool
    ensures { result ≡ spec.is_option word.now }
{
    matches!(word.as_bytes(), [b'-', _, ..])
}

/// Returns whether a word asks for no notes. It does not allocate.
fn asks_for_quiet(word: &str) -> bool
    ensures { result ≡ spec.asks_for_quiet word.now }
{
    matches!(word, "-q" | "--quiet")
}

impl<'a> Sorting<'a> {
    /// Returns how words are sorted if there is none yet. It does not allocate.
    fn new(alloc: Global) -> Sorting<'a>
        ensures { spec.sorted_in result ≡ spec.nothing_sorted }
    {
        Sorting {
            alloc,
            arguments: Vec::new(alloc),
            files: Vec::new(alloc),
            is_quiet: false,
            helps: false,
            place: Place::Program,
        }
    }

    /// Leaves a word to the parser.
    ///
    /// # Errors
    ///
    /// `AllocError`: there is no memory for it.
    fn keep(&mut self, word: &str, place: Place) -> Result<(), AllocError>
        ensures { OnOk result (spec.sorted_in self.new ≡ spec.with_argument word.now place (spec.sorted_in self.old)) }
    {
        let word = String::from_str(self.alloc, word)?;
        self.arguments.push(word)?;
        self.place = place;
        Ok(())
    }

    /// Takes a word for the name of a file.
    ///
    /// # Errors
    ///
    /// `AllocError`: there is no memory for it.
    fn name_file(&mut self, word: &'a str) -> Result<(), AllocError>
        ensures { OnOk result (spec.sorted_in self.new ≡ spec.with_file word.now (spec.sorted_in self.old)) }
    {
        self.files.push(word)?;
        Ok(())
    }

    /// Sorts a word before the command's name.
    ///
    /// # Errors
    ///
    /// `AllocError`: there is no memory for it.
    fn take_first(&mut self, word: &str) -> Result<(), AllocError>
        ensures { OnOk result (spec.sorted_in self.new ≡ spec.before_options word.now (spec.sorted_in self.old)) }
    {
        if is_option(word) {
            return self.keep(word, Place::Command);
        }
        if word == "help" {
            self.helps = true;
            return Ok(());
        }
        let kind = kind_called(word);
        self.keep(word, Place::Options { kind, waits: false })
    }

    /// Sorts a word after the name of a command of this kind, or of none that there is.
    ///
    /// # Errors
    ///
    /// `AllocError`: there is no memory for it.
    fn take_later(
        &mut self,
        kind: Option<CommandKind>,
        waits: bool,
        word: &'a str,
    ) -> Result<(), AllocError>
        ensures { OnOk result (spec.sorted_in self.new
            ≡ spec.among_options kind waits word.now (spec.sorted_in self.old)) }
    {
        if is_option(word) {
            let waits = takes_next(kind, word);
            return self.keep(word, Place::Options { kind, waits });
        }
        if waits {
            return self.keep(word, Place::Options { kind, waits: false });
        }
        self.name_file(word)
    }

    /// Sorts one more word.
    ///
    /// # Errors
    ///
    /// `AllocError`: there is no memory for it.
    fn take(&mut self, word: &'a str) -> Result<(), AllocError>
        ensures { OnOk result (spec.sorted_in self.new ≡ spec.with_word (spec.sorted_in self.old) word.now) }
    {
        match self.place {
            Place::Program => self.keep(word, Place::Command),
            Place::Files => self.name_file(word),
            _ if word == "--" => {
                self.place = Place::Files;
                Ok(())
            }
            place if asks_for_quiet(word) => {
                self.is_quiet = true;
                self.place = place.settled();
                Ok(())
            }
            Place::Command => self.take_first(word),
            Place::Options { kind, waits } => self.take_later(kind, waits, word),
        }
    }
}

/// Sorts the words of a command line, of which the first is the program's name. `-q` and `--quiet` are left out, and of
/// `help`, before the command's name, `--help` is made. What is neither an option, nor its value, nor the command's
/// name, is the name of a file, and so is each word after `--`. It allocates for the arguments and the list of files.
///
/// # Errors
///
/// `AllocError`: there is no memory for the sorted words.
pub fn sort_words<'a>(alloc: Global, words: &'a [String]) -> Result<CommandWords<'a>, AllocError>
    ensures { IfOk result (spec.AreSorted (map string_bytes words.now)) }
{
    let mut sorting = Sorting::new(alloc);
    for word in words {
        sorting.take(word.as_str())?;
    }
    let Sorting {
        mut arguments,
        files,
        is_quiet,
        helps,
        ..
    } = sorting;
    if helps {
        arguments.push(String::from_str(alloc, "--help")?)?;
    }
    Ok(CommandWords {
        arguments,
        files,
        is_quiet,
    })
}
