ghost use Rattle.std.specs.Prelude.{◌≡◌, [], ◌∷◌, true, MatchOption, flat_map};
ghost use Rattle.metric_names.specs.ByteText.{byte_text};

/// What stands in the text format for a byte that cannot stand as it is: a backslash or a line feed, and where it is `quoted`, in
/// a label's value, a double quote. None: the byte stands as it is.
///
/// Source: Prometheus documentation, "Exposition formats", "Text format details".
#[inline]
pub fn escape(byte: u8, quoted: bool) -> Option<&'static [u8]>
    ensures { MatchOption result (byte_text quoted byte ≡ byte ∷ []) (λ escaped. byte_text quoted byte ≡ escaped.now) }
{
    match byte {
        b'\\' => Some(b"\\\\"),
        b'\n' => Some(b"\\n"),
        b'"' if quoted => Some(b"\\\""),
        _ => None,
    }
}

/// Whether a text is written as it is: no byte of it is escaped.
pub(crate) fn is_verbatim(bytes: &[u8], quoted: bool) -> bool
    ensures { result ≡ true → flat_map (byte_text quoted) bytes.now ≡ bytes.now }
{
    for at in 0..bytes.len() {
        if escape(bytes[at], quoted).is_some() {
            return false;
        }
    }
    true
}
