//! The path of a request's target.
ghost use Rattle.std.specs.Prelude.{◌≡◌, ◌==◌, position};
ghost use Rattle.scrape_http.specs.Head.{before_query, from_slash, is_absolute, path_of};

/// The first place of a byte.
fn place_of(bytes: &[u8], sought: u8) -> Option<usize>
    ensures { result ≡ position (λ b. b == sought) bytes.now }
{
    bytes.iter().position(|byte| *byte == sought)
}

/// What stands before the first `?`, or all.
fn before_query(target: &[u8]) -> &[u8]
    ensures { result.now ≡ before_query target.now }
{
    match place_of(target, b'?') {
        Some(at) => &target[..at],
        None => target,
    }
}

/// The first `/` and what stands behind it, or nothing.
fn from_slash(bytes: &[u8]) -> &[u8]
    ensures { result.now ≡ from_slash bytes.now }
{
    match place_of(bytes, b'/') {
        Some(at) => &bytes[at..],
        None => &[],
    }
}

/// Whether the target begins with `http://`, in any case.
fn is_absolute(target: &[u8]) -> bool
    ensures { result ≡ is_absolute target.now }
{
    target.len() >= 7 && target[..7].eq_ignore_ascii_case(b"http://")
}

/// The path of a target.
pub(crate) fn path_of(target: &[u8]) -> &[u8]
    ensures { result.now ≡ path_of target.now }
{
    if is_absolute(target) {
        from_slash(&before_query(target)[7..])
    } else {
        before_query(target)
    }
}
