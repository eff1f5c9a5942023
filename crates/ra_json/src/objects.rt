//! What all objects that are printed have in common.
ghost use Rattle.std.specs.Prelude.{◌≡◌, false, string_bytes, IfOk};
ghost use Rattle.serde_json.specs.View.{view};
ghost use Rattle.serde_json.specs.Written.{has_float};
ghost use Rattle.ra_json.specs.Objects as spec;

use itoa::Buffer;
use ra_stamp::Memory;
use serde_json::{Number, Value};
use std::alloc::{AllocError, Global};

/// Returns the value of a count: a number if it fits in 64 bits, and otherwise a text. It allocates only for a text.
///
/// # Errors
///
/// `AllocError`: there is no memory for the text.
pub fn count_value(alloc: Global, count: u128) -> Result<Value, AllocError>
    ensures { IfOk result (λ value. view value ≡ spec.count count) }
{
    match Number::from_u128(count) {
        Some(number) => Ok(Value::Number(number)),
        None => Value::try_from_str(alloc, Buffer::new().format(count)),
    }
}

/// Returns the line of a value without floats.
///
/// # Errors
///
/// `Memory`: there is none for the line.
pub fn line_of(alloc: Global, value: &Value) -> Result<String, Memory>
    requires { has_float (view value.now) ≡ false }
    ensures { IfOk result (λ line. string_bytes line ≡ spec.line_of (view value.now)) }
{
    let mut line = value.to_string(alloc)?;
    line.push_str("\n")?;
    Ok(line)
}
