//! Nonces: 128 random bits, which name the start of a host.
ghost use Rattle.std.specs.Prelude.{◌≡◌, ℕ, MatchOption};
ghost use Rattle.ra_text.specs.Drafting.{Adds};
ghost use Rattle.ra_text.specs.Lines.{field};
ghost use Rattle.ra_host_text.specs.Fields as spec;
ghost use Rattle.ra_host_text.specs.HostText.{IsNonce, nonce_text};

use ra_text::Draft;

/// How many bytes a nonce has, each of them two digits.
const BYTES: usize = 16;

/// Returns the digits of a nonce.
fn digits_of(nonce: u128) -> [u8; 2 * BYTES]
    ensures { result ≡ nonce_text nonce }
{
    let bytes = nonce.to_be_bytes();
    let mut digits = [0; 2 * BYTES];
    hex::encode_to_slice(bytes.as_slice(), &mut digits[..]).unwrap();
    digits
}

/// Returns the nonce that 32 hexadecimal digits write, in lower case, or `None` if the text is none. It does not
/// allocate.
pub fn nonce_of(digits: &[u8]) -> Option<u128>
    ensures value { MatchOption result ((nonce : ℕ) → IsNonce nonce → digits.now ≡ nonce_text nonce → ⊥)
        (λ nonce. digits.now ≡ nonce_text nonce) }
    ensures read { result ≡ spec.nonce_of digits.now }
{
    let mut bytes = [0; BYTES];
    if hex::decode_to_slice(digits, &mut bytes[..]).is_err() {
        return None;
    }
    let nonce = u128::from_be_bytes(bytes);
    // Digits in upper case are not those of the nonce.
    if digits_of(nonce).as_slice() == digits {
        Some(nonce)
    } else {
        None
    }
}

/// Adds the digits of a nonce, with the space before them.
pub fn push_nonce(text: &mut Draft, nonce: u128)
    ensures text { Adds text.old (field (nonce_text nonce)) text.new }
    // A nonce has 128 bits.
    ensures fits { IsNonce nonce }
{
    let digits = digits_of(nonce);
    text.push_field(str::from_utf8(digits.as_slice()).unwrap());
}
