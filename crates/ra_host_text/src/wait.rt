ghost use Rattle.std.specs.Prelude.{◌≡◌, ◌↔◌, IsSome, IfSome};
ghost use Rattle.ra_host_text.specs.Wait.{IsWait};

use std::marker::Model;

/// For how long a client waits at most, in milliseconds: 0 to 2^53, so that any language with doubles can say it.
/// Contracts see the number.
#[derive(Clone, Copy)]
pub struct Wait {
    milliseconds: u64,
}

impl Model for Wait {
    ghost use Rattle.std.specs.Prelude.{ℕ};
    ghost use Rattle.ra_host_text.specs.Wait.{IsWait};

    ghost Value = { ℕ };

    ghost view = { λ wait. wait.milliseconds };

    ghost invariant = { λ wait. IsWait wait.milliseconds };

    ghost inverse = { λ milliseconds. record { milliseconds = milliseconds } };
}

impl Wait {
    /// The longest time.
    pub const MAX: u64 = 1 << 53;

    /// Returns this time, or `None` if it is above 2^53 milliseconds. It does not allocate.
    pub fn new(milliseconds: u64) -> Option<Wait>
        ensures valid { IsSome result ↔ IsWait milliseconds }
        ensures value { IfSome result (λ wait. wait ≡ milliseconds) }
    {
        if milliseconds <= Wait::MAX {
            Some(Wait { milliseconds })
        } else {
            None
        }
    }

    /// Returns the number of milliseconds, 0 to 2^53. It does not allocate.
    pub fn get(self) -> u64
        ensures value { result ≡ self }
        ensures valid { IsWait result }
    {
        self.milliseconds
    }
}
