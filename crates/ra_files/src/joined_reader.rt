//! A reader over several readers, one after the other.
ghost use Rattle.std.specs.Prelude.{◌≡◌, IfOk};
ghost use Rattle.ra_files.specs.Joined.{joined, left_in};

use crate::input_places::InputPlaces;
use std::alloc::{AllocError, Global};
use std::io;
use std::io::{BufReader, Read};

/// A reader over several readers. It gives what the first gives, up to its end, and then what the next gives. If one
/// fails, that is where it fails, and if it is asked again, it asks that one again. A reader that gave nothing is not
/// asked again, so that a person at a terminal types Ctrl-D once.
#[derive(Drop)]
pub struct JoinedReader<R> {
    parts: Vec<R>,
    /// How many of them are at their end.
    done: usize,
    places: InputPlaces,
}

impl<R: Read> JoinedReader<R> {
    /// Makes one of several readers. What it reads does not allocate, unless one of them does.
    ///
    /// # Errors
    ///
    /// `AllocError`: there is no memory for the places of their lines.
    pub fn new(alloc: Global, parts: Vec<R>) -> Result<JoinedReader<R>, AllocError>
    where
        R: Drop,
        ensures bytes { IfOk result (λ reader. left_in R.remaining reader ≡ joined R.remaining parts.items) }
    {
        let places = InputPlaces::new(alloc, parts.len())?;
        Ok(JoinedReader {
            parts,
            done: 0,
            places,
        })
    }
}

impl<R: Read> Read for JoinedReader<R> {
    ghost remaining = { left_in R.remaining };

    fn read(&mut self, buf: &mut [u8]) -> io::Result<usize> {
        for place in self.done..self.parts.len() {
            match self.parts[place].read(buf) {
                Ok(count) if count > 0 || buf.is_empty() => {
                    self.places.read(&buf[..count]);
                    return Ok(count);
                }
                Ok(_) => {
                    self.done = place + 1;
                    self.places.begin(place + 1);
                }
                Err(error) => {
                    self.places.fail(place, error.kind());
                    return Err(error);
                }
            }
        }
        Ok(0)
    }
}

/// A reader that knows where the lines of its inputs are.
pub trait ReadsInputs {
    /// Returns where the lines of what was read are. It does not allocate.
    fn places(&self) -> &InputPlaces;
}

impl<R> ReadsInputs for JoinedReader<R> {
    fn places(&self) -> &InputPlaces {
        &self.places
    }
}

impl<R: Read + ReadsInputs> ReadsInputs for BufReader<R> {
    fn places(&self) -> &InputPlaces {
        self.get_ref().places()
    }
}
