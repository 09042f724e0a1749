//! Cuts a text into lines.
ghost use Rattle.std.specs.Prelude.{◌≡◌, ◌<◌, ◌∷◌, length};
ghost use Rattle.std.specs.Str.Lines.{strip_carriage_return};
ghost use Rattle.scc_script.specs.Grammar.{lines_of};

use crate::fields::cut_at;

/// Returns the line without its last byte if that is a carriage return, else the line.
pub fn without_return(line: &[u8]) -> &[u8]
    ensures { result.now ≡ strip_carriage_return line.now }
{
    match line {
        [front @ .., b'\r'] => front,
        _ => line,
    }
}

/// Returns the first line of `text`, and the text behind it. `text` must have a byte.
///
/// The line ends with a line feed or with the text. Neither the line feed nor one carriage return before the end is
/// part of the line.
pub fn first_line(text: &[u8]) -> (&[u8], &[u8])
    requires { 0 < length text.now }
    ensures lines { lines_of text.now ≡ result.0.now ∷ lines_of result.1.now }
    ensures shorter { length result.1.now < length text.now }
{
    match cut_at(text, b'\n') {
        Some((line, rest)) => (without_return(line), rest),
        None => (without_return(text), &text[text.len()..]),
    }
}
