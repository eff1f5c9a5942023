//! The values of options, as the parser gives them.
ghost use Rattle.std.specs.Prelude.{◌≡◌};
ghost use Rattle.clap.specs.Words.{found_of, rows_of};
ghost use Rattle.ra_arguments.specs.Meanings.{flag_in, number_in, plain_number_in};

use clap::ArgMatches;

/// Returns the number of 16 bits that an option is given. It does not allocate.
pub fn short_number(given: &ArgMatches, option: &str) -> Option<u16>
    ensures { result ≡ number_in 16 option.now (rows_of (found_of given.now)) }
{
    given.get_one(option)
}

/// Returns the number of 16 bits that an option is given. The parser takes `-0` for 0, and this does not. It does not
/// allocate.
pub fn plain_number(given: &ArgMatches, option: &str) -> Option<u16>
    ensures { result ≡ plain_number_in 16 option.now (rows_of (found_of given.now)) }
{
    let text = given.get_str(option)?;
    match text.parse() {
        Ok(number) => Some(number),
        Err(_) => None,
    }
}

/// Returns the number of 64 bits that an option is given. It does not allocate.
pub fn long_number(given: &ArgMatches, option: &str) -> Option<u64>
    ensures { result ≡ number_in 64 option.now (rows_of (found_of given.now)) }
{
    given.get_one(option)
}

/// Returns whether an option that takes nothing is given. It does not allocate.
pub fn has_flag(given: &ArgMatches, option: &str) -> bool
    ensures { result ≡ flag_in option.now (rows_of (found_of given.now)) }
{
    match given.get_str(option) {
        Some(text) => text == "true",
        None => false,
    }
}
