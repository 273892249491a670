ghost use Rattle.std.specs.Prelude.{◌≡◌, ◌∷◌, ◌++◌, ◌<◌, List, ℕ, IfOk, length, string_bytes};
ghost use Rattle.script_lines.specs.Language.{Piece, IsPiece, written_as, stands_for, IsWriting, Writes, backslash};
ghost use Rattle.script_lines.specs.Reading as reading;

use metric_names::NoMemory;
use std::alloc::Global;

fn is_letter(byte: u8) -> bool
    ensures { result ≡ reading.is_letter byte }
{
    matches!(byte, b'\\' | b'n' | b's' | b'e')
}

#[tactic(auto, using(crate::proofs::Writings::ends_more, crate::proofs::Writings::ends_all))]
/// Whether the text is a writing: each backslash begins one of the four escapes.
pub(crate) fn is_writing(text: &str) -> bool
    ensures { result ≡ reading.is_writing text.now }
{
    let mut escaped = false;
    for byte in text.as_bytes() {
        if escaped && !is_letter(*byte) {
            return false;
        }
        escaped = !escaped && *byte == b'\\';
    }
    !escaped
}

/// What an escape stands for, of which the backslash is cut off already, and what follows the escape.
fn cut_escape(text: &str) -> (&str, &str)
    requires { IsWriting (backslash ∷ text.now) }
    ensures escape { (piece : Piece) × IsPiece piece × (backslash ∷ text.now ≡ written_as piece ++ result.1.now)
        × (result.0.now ≡ stands_for piece) }
    ensures shorter { length result.1.now < length text.now }
{
    if let Some(rest) = text.strip_prefix('n') {
        ("\n", rest)
    } else if let Some(rest) = text.strip_prefix('s') {
        (" ", rest)
    } else if let Some(rest) = text.strip_prefix('e') {
        ("", rest)
    } else if let Some(rest) = text.strip_prefix('\\') {
        ("\\", rest)
    } else {
        unreachable!()
    }
}

/// The text that is written so, as a line's help and a child's label values are: `\\` stands for a backslash, `\n` for a
/// line feed, `\s` for a blank and `\e` for nothing. Takes memory once.
///
/// Refusal 6 [`NoMemory`], and no other.
pub fn unescape(alloc: Global, written: &str) -> Result<String, NoMemory>
    requires { IsWriting written.now }
    ensures text { IfOk result (λ text. Writes (string_bytes text) written.now) }
    ensures only { IfOk result (λ text. (other : List ℕ) → Writes other written.now → other ≡ string_bytes text) }
{
    let mut text = String::with_capacity(alloc, written.len())?;
    let mut rest = written;
    while let Some((plain, after)) = rest.split_once('\\') {
        let (said, more) = cut_escape(after);
        text.push_str(plain)?;
        text.push_str(said)?;
        rest = more;
    }
    text.push_str(rest)?;
    Ok(text)
}
