//! What a test prints that fails: where it is, what was expected there and what came.
use crate::printing::printed;
use std::alloc::Global;
use std::fmt;
use std::fmt::{Debug, Display};

/// Where a test is: the label of a scene or a row, and the part of it that is tried, such as a step, with its number.
/// Steps are numbered from 1 up. A place that [`part`] or [`row`] made has less.
#[derive(Clone, Copy)]
pub struct At<'a>(pub &'a str, pub &'a str, pub usize);

/// The number of what has none.
const NO_NUMBER: usize = usize::MAX;

/// Returns the place of a part of a scene that needs no number, such as a line.
pub fn part<'a>(label: &'a str, part: &'a str) -> At<'a> {
    At(label, part, NO_NUMBER)
}

/// Returns the place of the row with this label.
pub fn row(label: &str) -> At<'_> {
    part(label, "")
}

impl fmt::Display for At<'_> {
    fn fmt<W: fmt::Write>(&self, f: &mut fmt::Formatter<W>) -> fmt::Result {
        if self.1.is_empty() {
            write!(f, "{}", self.0)
        } else if self.2 == NO_NUMBER {
            write!(f, "{}: {}", self.0, self.1)
        } else {
            write!(f, "{}: {} {}", self.0, self.1, self.2)
        }
    }
}

/// Something else came than was expected at this place.
#[derive(Drop)]
pub struct Difference<'a, T> {
    pub at: At<'a>,
    pub expected: &'a T,
    pub came: &'a T,
}

impl<T: Debug> fmt::Display for Difference<'_, T> {
    fn fmt<W: fmt::Write>(&self, f: &mut fmt::Formatter<W>) -> fmt::Result {
        let (at, expected, came) = (self.at, self.expected, self.came);
        write!(f, "{at}: expected {expected:?}, and {came:?} came")
    }
}

/// Returns the text of a difference, or an empty one if there is no memory for it.
fn difference_text<T: Debug>(alloc: Global, at: At<'_>, expected: &T, came: &T) -> String {
    printed(alloc, &Difference { at, expected, came })
}

/// Returns what a test prints that fails since a value is not printed as the text beside it, of the first such value,
/// or `None` if each is.
pub fn misprint<T: Display>(alloc: Global, rows: &[(T, &str)]) -> Option<String> {
    for (value, text) in rows {
        let came = printed(alloc, value);
        if came.as_str() != *text {
            return Some(difference_text(alloc, row(text), text, &came.as_str()));
        }
    }
    None
}
