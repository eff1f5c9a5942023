ghost use Rattle.std.specs.Prelude.{◌≡◌, ◌<◌, ◌≤◌, ◌↔◌, ◌==◌, List, ℕ, [], ◌∷◌, Some, length, take, IsErrOf, IsOk, IsSome, IfOk, IfSome};
ghost use Rattle.std.specs.List.{AllPass};
ghost use Rattle.std.specs.Ordering.{nat_cmp, as_partial_cmp};
ghost use Rattle.std.specs.Cmp.Lexicographic.{pointwise, slice_cmp};
ghost use Rattle.std.specs.Cmp.{partial_order_from_own_ties};
ghost use Rattle.std.specs.Cmp.Rules.{comparing, hashing};
ghost use Rattle.std.proofs.Common.{rules};
ghost use Rattle.ra_stamp.specs.Name.{IsName, is_name_byte};

use std::cmp::Ordering;
use std::fmt;
use std::hash::{Hash, Hasher};
use std::marker::Model;
use thiserror::Error;

/// Why bytes are not a name.
#[derive(Clone, Copy, Debug, PartialEq, Eq, Error)]
pub enum NameError {
    /// There is no byte.
    Empty,
    /// There are more than 32 bytes.
    TooLong,
    /// A byte is not one of `A` to `Z`, `a` to `z`, `0` to `9`, `_`, `-` and `.`.
    BadByte,
}

impl fmt::Display for NameError {
    fn fmt<W: fmt::Write>(&self, f: &mut fmt::Formatter<W>) -> fmt::Result {
        fmt::Debug::fmt(self, f)
    }
}

/// The name of a resource: 1 to 32 of the bytes `A` to `Z`, `a` to `z`, `0` to `9`, `_`, `-` and `.`. Contracts
/// see the bytes, and names are ordered by them. A name prints as its text.
#[derive(Clone, Copy)]
pub struct Name {
    bytes: [u8; 32],
    // One byte, since messages and steps are kept by the hundred thousand, each with its name.
    len: u8,
}

impl Model for Name {
    ghost use Rattle.std.specs.Prelude.{List, ℕ, length, take};
    ghost use Rattle.std.specs.Coded.{coded_list, coded_ℕ};

    ghost Value = { List ℕ };

    ghost coded = { coded_list coded_ℕ };

    ghost use Rattle.ra_stamp.specs.Name.{IsPadded, padded};

    ghost view = { λ name. take name.len name.bytes };

    ghost invariant = { λ name. IsPadded name.len name.bytes };

    ghost inverse = { λ bytes. record { bytes = padded bytes; len = length bytes } };

    ghost inverse_ok = { λ name h. λ i. record { bytes = h.bytes_is i; len = h.len_is i } };
}

/// Returns whether a name may have the byte.
fn is_name_byte(byte: u8) -> bool
    ensures { result ≡ is_name_byte byte }
{
    byte.is_ascii_alphanumeric() || byte == b'_' || byte == b'-' || byte == b'.'
}

impl Name {
    /// The most bytes that a name may have.
    pub const MAX_LEN: usize = 32;

    /// Makes the name of these bytes. It does not allocate.
    ///
    /// # Errors
    ///
    /// The first that holds:
    ///
    /// 1. `Empty`: there is no byte.
    /// 2. `TooLong`: there are more than 32.
    /// 3. `BadByte`: one of them is not one that a name may have.
    pub fn new(bytes: &[u8]) -> Result<Name, NameError>
        ensures valid { IsOk result ↔ IsName bytes.now }
        ensures value { IfOk result (λ name. name ≡ bytes.now) }
        ensures empty { IsErrOf result NameError.Empty ↔ (bytes.now ≡ []) }
        ensures too_long { IsErrOf result NameError.TooLong ↔ (32 < length bytes.now) }
        ensures bad_byte { IsErrOf result NameError.BadByte
            ↔ ((1 ≤ length bytes.now) × (length bytes.now ≤ 32) × ¬ (AllPass is_name_byte bytes.now)) }
    {
        if bytes.is_empty() {
            return Err(NameError::Empty);
        }
        if bytes.len() > Name::MAX_LEN {
            return Err(NameError::TooLong);
        }
        match Name::of(bytes) {
            Some(name) => Ok(name),
            None => Err(NameError::BadByte),
        }
    }

    /// Makes the name of these bytes, or returns `None` if they are not one. It does not allocate. For what is read
    /// line by line it is faster than [`Name::new`], whose answer has the name and its fault at one place in memory.
    #[inline(always)]
    pub fn of(bytes: &[u8]) -> Option<Name>
        ensures some { IsSome result ↔ IsName bytes.now }
        ensures value { IfSome result (λ name. name ≡ bytes.now) }
    {
        if bytes.is_empty() || bytes.len() > Name::MAX_LEN {
            return None;
        }
        let mut padded = [0; 32];
        for place in 0..bytes.len() {
            let byte = bytes[place];
            if !is_name_byte(byte) {
                return None;
            }
            padded[place] = byte;
        }
        Some(Name {
            bytes: padded,
            len: bytes.len() as u8,
        })
    }

    /// Returns its bytes. It does not allocate.
    pub fn bytes(&self) -> &[u8]
        ensures value { result.now ≡ self.now }
        ensures valid { IsName result.now }
    {
        &self.bytes[..usize::from(self.len)]
    }

    /// Returns it as text. It does not allocate.
    #[tactic(auto, using(crate::proofs::Names::name_is_utf8))]
    pub fn as_str(&self) -> &str
        ensures { result.now ≡ self.now }
    {
        // Each byte of a name is ASCII.
        str::from_utf8(self.bytes()).unwrap()
    }
}

impl PartialEq for Name {
    ghost eq = { pointwise ◌==◌ };

    ghost laws = { Prim.search (comparing, rules) };

    // Whole arrays compare faster than the bytes of a name, and after these bytes there are zeros.
    #[inline(always)]
    fn eq(&self, other: &Name) -> bool {
        self.len == other.len && self.bytes == other.bytes
    }
}

impl Eq for Name {
    ghost laws = { Prim.search (comparing, rules) };
}

impl Hash for Name {
    ghost hash_input = { λ name. name ∷ [] };

    ghost respects_eq = { Prim.search (hashing, rules) };

    // The bytes in one write. A hasher counts them, so nothing is written after them as for a text.
    fn hash<H: Hasher>(&self, state: &mut H) {
        state.write(self.bytes());
    }
}

impl Ord for Name {
    ghost cmp = { slice_cmp nat_cmp };

    ghost total = { Prim.search (comparing, rules) };

    ghost matches_partial_cmp = { Prim.search (comparing, rules) };

    ghost matches_eq = { Prim.search (comparing, rules) };

    fn cmp(&self, other: &Name) -> Ordering {
        self.bytes().cmp(other.bytes())
    }
}

impl PartialOrd for Name {
    ghost partial_cmp = { as_partial_cmp (slice_cmp nat_cmp) };

    ghost laws = { partial_order_from_own_ties (Prim.search (comparing, rules)) (Prim.search (comparing, rules)) };

    fn partial_cmp(&self, other: &Name) -> Option<Ordering> {
        Some(self.cmp(other))
    }
}

impl fmt::Display for Name {
    ghost output = { λ name. Some name };

    fn fmt<W: fmt::Write>(&self, f: &mut fmt::Formatter<W>) -> fmt::Result {
        f.pad(self.as_str())
    }
}

impl fmt::Debug for Name {
    fn fmt<W: fmt::Write>(&self, f: &mut fmt::Formatter<W>) -> fmt::Result {
        fmt::Display::fmt(self, f)
    }
}
