ghost use Rattle.std.specs.Prelude.{◌≡◌, IfSome, IsSome};
ghost use Rattle.ra_stamp.specs.Name.{IsName};
ghost use Rattle.ra_schedule.specs.declared.script.Op.{Op};
ghost use Rattle.ra_script.specs.Operation as spec;
ghost use Rattle.ra_script.specs.Operation.{spelling, name_in};

use ra_schedule::Op;
use ra_trace::{mode_of, name_of, split_once};

/// Returns the operation that a string spells, or `None` if it spells none: a word, one space and a name. The word of a
/// mode, `X`, `S`, `IS`, `IX` or `SIX`, locks the name in that mode, and `U` unlocks it. It does not allocate.
pub fn operation(string: &str) -> Option<Op>
    ensures spelled { IfSome result (λ op. (string.now ≡ spelling op) × IsName (name_in op)) }
    ensures all { (op : Op) → string.now ≡ spelling op → IsName (name_in op) → IsSome result }
{
    operation_of(string.as_bytes())
}

/// Returns the operation of the word before the first space and the name after it, or `None` if they say none. It does
/// not allocate. So `SIXX r` is no operation, and neither is `S IX r`: no name has a space.
fn operation_of(text: &[u8]) -> Option<Op>
    ensures { result ≡ spec.op_of text.now }
{
    let (word, name) = split_once(text, b' ')?;
    let name = name_of(name)?;
    if let Some(mode) = mode_of(word) {
        return Some(Op::Lock(name, mode));
    }
    match word {
        b"U" => Some(Op::Unlock(name)),
        _ => None,
    }
}
