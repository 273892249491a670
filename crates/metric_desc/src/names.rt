ghost use Rattle.std.specs.Prelude.{◌≡◌, ◌↔◌, ◌++◌, map, Contains, IsTrue};
ghost use Rattle.metric_desc.specs.Desc.{Clash, names_of, suffixes_of};

use crate::desc::Desc;
use crate::kind::Kind;

/// What the names of a family's samples have after the family's name.
pub(crate) fn suffixes(kind: Kind) -> &'static [&'static str]
    ensures { map (λ suffix. suffix.now) result.now ≡ suffixes_of kind }
{
    match kind {
        Kind::Counter | Kind::Gauge => &[""],
        Kind::Histogram => &["", "_bucket", "_sum", "_count"],
    }
}

/// Whether a text is the one text and then the other.
fn is_joined(text: &str, front: &str, back: &str) -> bool
    ensures { IsTrue result ↔ (text.now ≡ front.now ++ back.now) }
{
    match text.strip_prefix(front) {
        Some(rest) => rest == back,
        None => false,
    }
}

/// Whether a text and a suffix are the same as another text and suffix.
fn same_name(a: &str, a_suffix: &str, b: &str, b_suffix: &str) -> bool
    ensures { IsTrue result ↔ (a.now ++ a_suffix.now ≡ b.now ++ b_suffix.now) }
{
    if let Some(rest) = a.strip_prefix(b) {
        is_joined(b_suffix, rest, a_suffix)
    } else if let Some(rest) = b.strip_prefix(a) {
        is_joined(a_suffix, rest, b_suffix)
    } else {
        false
    }
}

/// Whether a family has samples of the name that these two make.
fn has_name(desc: &Desc, name: &str, suffix: &str) -> bool
    ensures { IsTrue result ↔ Contains (names_of desc.now) (name.now ++ suffix.now) }
{
    for own in suffixes(desc.kind()) {
        if same_name(desc.name().as_str(), own, name, suffix) {
            return true;
        }
    }
    false
}

/// Whether the lines of two families take one name. Takes no memory.
pub fn clashes(a: &Desc, b: &Desc) -> bool
    ensures { IsTrue result ↔ Clash a.now b.now }
{
    for suffix in suffixes(a.kind()) {
        if has_name(b, a.name().as_str(), suffix) {
            return true;
        }
    }
    false
}
