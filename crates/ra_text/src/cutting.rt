//! How a text is cut apart.
ghost use Rattle.std.specs.Prelude.{◌≡◌, ◌≢◌, ◌∷◌, ◌++◌, All, IfNone, IfSome};

/// Returns what comes before the first occurrence of a byte in a text, and what follows it. Without an occurrence it
/// returns the whole text and `None`. It does not allocate. The cost is linear in what comes before.
pub fn cut(text: &[u8], byte: u8) -> (&[u8], Option<&[u8]>)
    ensures before { All (λ other. other ≢ byte) result.0.now }
    ensures cut { IfSome result.1 (λ after. text.now ≡ result.0.now ++ byte ∷ after.now) }
    ensures whole { IfNone result.1 (text.now ≡ result.0.now) }
{
    for place in 0..text.len() {
        if text[place] == byte {
            return (&text[..place], Some(&text[place + 1..]));
        }
    }
    (text, None)
}
