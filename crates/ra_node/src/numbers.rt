//! The number to which a node raises its highest numbers when it forgets names.
ghost use Rattle.std.specs.Prelude.{◌≡◌};
ghost use Rattle.std.specs.HashMap.{values};
ghost use Rattle.ra_node.specs.View.{if_counted, greatest_of};

use crate::slot::Slot;
use ra_stamp::Name;
use std::collections::HashMap;

/// Returns the greatest of the start and the slots' highest numbers, without those at 2^64-1, or 0 if none is left.
pub fn common_number(start: u64, slots: &HashMap<Name, Slot>) -> u64
    ensures { result ≡ greatest_of (if_counted start) (values slots.now) }
{
    let mut number = counted(start);
    for slot in slots.values() {
        number = number.max(counted(slot.highest()));
    }
    number
}

/// Returns the number, or 0 if it is 2^64-1, which does not count.
fn counted(number: u64) -> u64
    ensures { result ≡ if_counted number }
{
    if number < u64::MAX { number } else { 0 }
}
