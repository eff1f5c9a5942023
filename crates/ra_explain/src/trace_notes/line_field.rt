//! The fields of the lines of traces and mark logs, as notes describe them.
use ra_trace::{Field, Version, client_of, mode_of, name_of, node_of, seq_of, start_of};

/// What each field is called, in the order of `Field`.
pub const NAMES: [&str; 9] = [
    "NODES", "START", "NODE", "FROM", "TO", "CLIENT", "NAME", "MODE", "SEQ",
];

/// Returns what a field may contain in this version, or in each version if the version is not known.
pub fn field_range(field: Field, version: Option<Version>) -> &'static str {
    match field {
        Field::Nodes | Field::Node | Field::From | Field::To => match version {
            Some(Version::One) => "1 to 16 in version 1, without leading zeros",
            Some(_) => "1 to 64, without leading zeros",
            None => "1 to 16 in version 1, otherwise 1 to 64, without leading zeros",
        },
        Field::Mode => match version {
            Some(Version::One) => "S or X in version 1",
            Some(_) => "S, X, IS, IX or SIX",
            None => "S or X in version 1, otherwise S, X, IS, IX or SIX",
        },
        Field::Client => "0 to 4294967295, without leading zeros",
        Field::Name => "1 to 32 characters from A-Z, a-z, 0-9, _, - and .",
        Field::Seq => "1 to 18446744073709551615, without leading zeros",
        Field::Start => "0 to 18446744073709551615, without leading zeros",
    }
}

/// Returns whether a field may be this text in this version, or in version 2 if the version is not known.
pub fn may_be(field: Field, text: &[u8], version: Option<Version>) -> bool {
    let version = version.unwrap_or(Version::Two);
    match field {
        Field::Nodes | Field::Node | Field::From | Field::To => {
            matches!(node_of(text), Some(node) if version.has_node(node))
        }
        Field::Mode => matches!(mode_of(text), Some(mode) if version.has_mode(mode)),
        Field::Client => client_of(text).is_some(),
        Field::Name => name_of(text).is_some(),
        Field::Seq => seq_of(text).is_some(),
        Field::Start => start_of(text).is_some(),
    }
}
