//! Cuts a text at its first byte of one kind.
ghost use Rattle.std.specs.Prelude.{◌≡◌, ◌<◌, ◌∷◌, [], MatchOption, length};
ghost use Rattle.scc_script.specs.Grammar.{parts};

/// Returns the text before the first `byte` and the text after it, or `None` if `text` has no such byte.
///
/// The parts of `text` are the first text and the parts of the second, or `text` alone if it has no such byte.
pub fn cut_at(text: &[u8], byte: u8) -> Option<(&[u8], &[u8])>
    ensures parts { MatchOption result (parts byte text.now ≡ text.now ∷ [])
        (λ cut. parts byte text.now ≡ cut.0.now ∷ parts byte cut.1.now) }
    ensures shorter { MatchOption result (length text.now ≡ length text.now)
        (λ cut. length cut.1.now < length text.now) }
{
    for (place, b) in text.iter().enumerate() {
        if *b == byte {
            return Some((&text[..place], &text[place + 1..]));
        }
    }
    None
}
