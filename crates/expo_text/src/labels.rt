ghost use Rattle.std.specs.Prelude.{◌≡◌, ◌++◌, true, length, zip, All};
ghost use Rattle.std.specs.List.{flat_map};
ghost use Rattle.metric_names.specs.ByteText.{byte_text};
ghost use Rattle.metric_names.specs.LabelName.{IsLabelName};
ghost use Rattle.expo_text.specs.Spelled.{IsSpelledValue};
ghost use Rattle.expo_text.specs.Text.{label_text, labels_text};
ghost use Rattle.expo_text.specs.Walk.{mark, opened, closing};

use crate::sink::Sink;
use metric_names::{LabelName, LabelValue, escape};

/// Writes a text escaped, in runs of bytes that stand as they are.
#[inline(never)]
fn put_escaped<S: Sink>(sink: &mut S, bytes: &[u8], quoted: bool)
    ensures { S.took sink.old sink.new (flat_map (byte_text quoted) bytes.now) }
{
    let mut start = 0;
    for at in 0..bytes.len() {
        if let Some(escaped) = escape(bytes[at], quoted) {
            sink.put(&bytes[start..at]);
            sink.put(escaped);
            start = at + 1;
        }
    }
    sink.put(&bytes[start..]);
}

/// Writes a text escaped; one that is verbatim as it is.
#[inline(always)]
pub(crate) fn put_text<S: Sink>(sink: &mut S, text: &str, verbatim: bool, quoted: bool)
    requires { verbatim ≡ true → flat_map (byte_text quoted) text.now ≡ text.now }
    ensures { S.took sink.old sink.new (flat_map (byte_text quoted) text.now) }
{
    let bytes = text.as_bytes();
    if verbatim {
        sink.put(bytes);
    } else {
        put_escaped(sink, bytes, quoted);
    }
}

/// Writes a label after its brace or its comma.
fn put_label<S: Sink>(sink: &mut S, before: &str, name: &str, value: &LabelValue)
    ensures text { S.took sink.old sink.new (before.now ++ label_text (name.now, value.now)) }
    ensures value { IsSpelledValue value.now }
{
    sink.put(before.as_bytes());
    sink.put(name.as_bytes());
    sink.put(b"=\"");
    put_text(sink, value.as_str(), value.is_verbatim(), true);
    sink.put(b"\"");
}

/// The brace or the comma before the label at a place.
pub(crate) fn mark(place: usize) -> &'static str
    ensures { result.now ≡ mark place }
{
    if place == 0 { "{" } else { "," }
}

/// Writes the brace and the labels of a child, without the brace that ends them.
pub(crate) fn put_opened<S: Sink>(sink: &mut S, names: &[LabelName], values: &[LabelValue])
    requires { length values.now ≡ length names.now }
    ensures text { S.took sink.old sink.new (opened (zip names.now values.now)) }
    ensures names { All IsLabelName names.now }
    ensures values { All IsSpelledValue values.now }
{
    for place in 0..names.len() {
        put_label(sink, mark(place), names[place].as_str(), &values[place]);
    }
}

/// Writes the brace that ends the labels, of which there are `count`; after none, nothing.
fn put_closing<S: Sink>(sink: &mut S, count: usize)
    ensures { S.took sink.old sink.new (closing count) }
{
    if count > 0 {
        sink.put(b"}");
    }
}

/// Writes the labels of a child.
pub(crate) fn put_labels<S: Sink>(sink: &mut S, names: &[LabelName], values: &[LabelValue])
    requires { length values.now ≡ length names.now }
    ensures text { S.took sink.old sink.new (labels_text (zip names.now values.now)) }
    ensures names { All IsLabelName names.now }
    ensures values { All IsSpelledValue values.now }
{
    put_opened(sink, names, values);
    put_closing(sink, names.len());
}
