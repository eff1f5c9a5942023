//! Values that are printed.
use std::alloc::Global;
use std::fmt::Display;

/// Returns the text that a value prints, or an empty one if there is no memory for it.
pub fn printed<T: Display>(alloc: Global, value: &T) -> String {
    match value.to_string(alloc) {
        Ok(text) => text,
        Err(_) => String::new(alloc),
    }
}
