ghost use Rattle.std.specs.Prelude.{◌≡◌, ◌<◌, true, false, EachIndex, IsTrue, MatchOption, slice_index};
ghost use Rattle.metric_names.specs.Spelling.{name_takes, FirstWrong};

/// Whether a name may have this byte at this place.
fn takes(colon: bool, place: usize, byte: u8) -> bool
    ensures { result ≡ name_takes colon place byte }
{
    match byte {
        b'a'..=b'z' | b'A'..=b'Z' | b'_' => true,
        b'0'..=b'9' => place > 0,
        b':' => colon,
        _ => false,
    }
}

/// The place of the first byte that a name may not have there.
pub fn first_wrong(colon: bool, bytes: &[u8]) -> Option<usize>
    ensures { MatchOption result
        (EachIndex bytes.now (λ k. IsTrue (name_takes colon k (slice_index bytes.now k))))
        (FirstWrong colon bytes.now) }
{
    for (place, byte) in bytes.iter().enumerate() {
        if !takes(colon, place, *byte) {
            return Some(place);
        }
    }
    None
}
