//! Hints about lines that belong elsewhere.

/// A prefix of lines, and the text for them.
type Hint = (&'static str, &'static str);

/// The hint for a line of a script.
const SCRIPT: &str = "this looks like a script, which ra sim and ra cluster read";

/// The hint for a line of a survey.
const SURVEY: &str =
    "this looks like the output of ra sim --seeds: use --seed and --trace to print the trace of one seed";

/// What is said of a tab in a line.
pub const TAB: &str = "a tab does not separate fields: fields are separated by one space";

/// The hint for a message without its kind.
const KINDS: &str = "expected request or reply after deliver, lose, repeat or send";

/// The hint for a line of a trace in a mark log.
const TRACE: &str = "this looks like a trace, which is read without --marks";

/// The hints for the first line of a trace and for a line of a mark log.
pub const AT_BOTH: &[Hint] = &[
    (
        "\u{feff}",
        "the text begins with a byte order mark, which is not allowed",
    ),
    ("nodes", SCRIPT),
    ("client", SCRIPT),
    ("[[client]]", SCRIPT),
    (
        "none",
        "this looks like the output of ra sim --find, which found no such run and so printed no trace",
    ),
    (
        "book ",
        "this looks like a book, which ra node and ra settle read",
    ),
    (
        "refused ",
        "this looks like a refusal by the command that should have printed the text",
    ),
];

/// Further hints for the first line of a trace.
pub const AT_FIRST: &[Hint] = &[
    ("trace\t", TAB),
    ("trace 1\t", TAB),
    ("trace 2\t", TAB),
    ("trace 3\t", TAB),
    (
        "trace",
        "expected trace VERSION NODES START: version 1, 2 or 3, at most 16 nodes in version 1 and otherwise 64, and the number that each name begins with",
    ),
    (
        "request",
        "this looks like marks, which are read with --marks, without the six totals of ra sim",
    ),
    ("finished ", SURVEY),
    ("stuck ", SURVEY),
    ("limit ", SURVEY),
];

/// Further hints for a line of a mark log.
pub const AT_MARKS: &[Hint] = &[
    ("trace ", TRACE),
    ("ask ", TRACE),
    (
        "requests ",
        "this looks like the six totals of a report, which a mark log does not have",
    ),
];

/// The hints for a later line of a trace.
pub const AT_LATER: &[Hint] = &[
    ("deliver ", KINDS),
    ("lose ", KINDS),
    ("repeat ", KINDS),
    ("send ", KINDS),
];

/// Returns the text of the first hint of these lists whose prefix the line begins with, or `otherwise` if it begins
/// with none of them.
pub fn hint_at<'a>(lists: &[&[Hint]], line: &[u8], otherwise: &'a str) -> &'a str {
    for hints in lists {
        for (prefix, text) in *hints {
            if line.starts_with(prefix.as_bytes()) {
                return text;
            }
        }
    }
    otherwise
}
