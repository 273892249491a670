//! Bytes that C hands in, as texts.
ghost use Rattle.std.specs.Prelude.{◌≡◌, ◌⊎◌, IfOk, IfErr, MatchOption, IsUtf8, All};
ghost use Rattle.dirgwako.specs.Texts.{texts_of};

use std::alloc::Global;
use std::str;

/// A text, if these bytes are one: UTF-8.
pub(crate) fn text(bytes: &[u8]) -> Option<&str>
    ensures { MatchOption result (¬ (IsUtf8 bytes.now)) (λ text. (text.now ≡ bytes.now) × IsUtf8 bytes.now) }
{
    str::from_utf8(bytes).ok()
}

/// Texts, if all these bytes are such.
///
/// # Errors
///
/// 6, out of memory; 36, one of them is not UTF-8.
pub(crate) fn texts<'a>(alloc: Global, bytes: &[&'a [u8]]) -> Result<Vec<&'a str>, u32>
    ensures texts { IfOk result (λ texts. texts_of texts.items ≡ texts_of bytes.now) }
    ensures all { IfOk result (λ _. All IsUtf8 (texts_of bytes.now)) }
    ensures fault { IfErr result (λ answer. (answer ≡ 6) ⊎ ((answer ≡ 36) × ¬ (All IsUtf8 (texts_of bytes.now)))) }
{
    let Ok(mut texts) = Vec::with_capacity(alloc, bytes.len()) else {
        return Err(6);
    };
    for place in 0..bytes.len() {
        let Some(text) = text(bytes[place]) else {
            return Err(36);
        };
        let Ok(()) = texts.push(text) else {
            return Err(6);
        };
    }
    Ok(texts)
}
