//! Which options arguments give. What they mean, the parser alone tells.

/// Returns whether an argument is the option of a name, or the option, `=` and its value. It does not allocate.
fn is_option(argument: &str, name: &str) -> bool {
    let Some(option) = argument.strip_prefix("--") else {
        return false;
    };
    match option.strip_prefix(name) {
        Some(rest) => rest.is_empty() || rest.starts_with('='),
        None => false,
    }
}

/// Returns whether the arguments give the option of a name. The first argument is the program's name. It does not
/// allocate.
pub fn is_given(arguments: &[String], name: &str) -> bool {
    for place in 1..arguments.len() {
        if is_option(arguments[place].as_str(), name) {
            return true;
        }
    }
    false
}
