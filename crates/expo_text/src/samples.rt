ghost use Rattle.std.specs.Prelude.{◌≡◌, ℕ, slice_index, ◌<◌, ◌≤◌, ◌^◌, ◌++◌, [], length, sum, take, zip, codes, decimal, pos};
ghost use Rattle.std.specs.Prelude.{◌-ℤ◌, All};
ghost use Rattle.std.specs.List.{flat_map};
ghost use Rattle.metric_names.specs.LabelName.{IsLabelName};
ghost use Rattle.metric_names.specs.MetricName.{IsMetricName};
ghost use Rattle.expo_text.specs.Order.{IsNumberOf};
ghost use Rattle.expo_text.specs.Spelled.{IsOfWords, IsSpelledValue};
ghost use Rattle.expo_text.specs.Shifted.{shifted, signed_shifted};
ghost use Rattle.expo_text.specs.Shown.{shown_of_number, shown_line};
ghost use Rattle.expo_text.specs.Walk.{series, value_text, bucket_front, bucket_line, bucket_lines};

use crate::front::Front;
use crate::labels::{mark, put_labels, put_opened};
use crate::number::Number;
use crate::shifting::put_shifted;
use crate::sink::Sink;
use bucket_math::cumulate;
use ledger_core::{GaugeTotals, HistTotals};
use metric_desc::{Desc, Kind};
use metric_names::LabelValue;

/// Writes the name and the labels of a sample.
fn put_series<S: Sink>(sink: &mut S, desc: &Desc, values: &[LabelValue], suffix: &str)
    requires { length values.now ≡ length desc.now.labels }
    ensures text { S.took sink.old sink.new (series (desc.now.name ++ suffix.now) (zip desc.now.labels values.now)) }
    ensures names { All IsLabelName desc.now.labels }
    ensures values { All IsSpelledValue values.now }
{
    sink.put(desc.name().as_str().as_bytes());
    sink.put(suffix.as_bytes());
    put_labels(sink, desc.labels(), values);
}

/// Writes a blank, behind which a minus may stand, a shifted number and a line feed.
fn put_value<S: Sink>(sink: &mut S, blank: &str, digits: u8, value: u64)
    requires { digits ≤ 9 }
    ensures { S.took sink.old sink.new (value_text blank.now (shifted digits value)) }
{
    sink.put(blank.as_bytes());
    put_shifted(sink, digits, value);
    sink.put(b"\n");
}

/// Writes the line of a sample whose value has no sign.
fn put_sample<S: Sink>(
    sink: &mut S,
    desc: &Desc,
    values: &[LabelValue],
    suffix: &str,
    digits: u8,
    value: u64,
)
    requires fit { length values.now ≡ length desc.now.labels }
    requires few { digits ≤ 9 }
    ensures text { S.took sink.old sink.new
        (series (desc.now.name ++ suffix.now) (zip desc.now.labels values.now) ++ value_text (codes " ") (shifted digits value)) }
    ensures names { All IsLabelName desc.now.labels }
    ensures values { All IsSpelledValue values.now }
{
    put_series(sink, desc, values, suffix);
    put_value(sink, " ", digits, value);
}

/// Writes what the lines of a child's buckets begin with, up to the bound.
fn put_front<S: Sink>(sink: &mut S, desc: &Desc, values: &[LabelValue])
    requires { length values.now ≡ length desc.now.labels }
    ensures text { S.took sink.old sink.new (bucket_front desc.now.name (zip desc.now.labels values.now)) }
    ensures name { IsMetricName desc.now.name }
    ensures names { All IsLabelName desc.now.labels }
    ensures values { All IsSpelledValue values.now }
{
    sink.put(desc.name().as_str().as_bytes());
    sink.put(b"_bucket");
    put_opened(sink, desc.labels(), values);
    sink.put(mark(values.len()).as_bytes());
    sink.put(b"le=\"");
}

/// Spells what the lines of a child's buckets begin with, up to the bound.
fn spell(front: &mut Front, desc: &Desc, values: &[LabelValue])
    requires { length values.now ≡ length desc.now.labels }
    ensures front { take front.new.filled front.new.places ≡ bucket_front desc.now.name (zip desc.now.labels values.now) }
    ensures names { All IsLabelName desc.now.labels }
    ensures values { All IsSpelledValue values.now }
{
    let _ = desc.labels();
    front.clear();
    put_front(front, desc, values);
}

/// Writes the line of a bucket after its front.
fn put_bucket<S: Sink>(sink: &mut S, front: &[u8], digits: u8, bound: u64, value: u64)
    requires { digits ≤ 9 }
    ensures { S.took sink.old sink.new (bucket_line front.now (shifted digits bound) (decimal value)) }
{
    sink.put(front);
    put_shifted(sink, digits, bound);
    sink.put(b"\"} ");
    sink.put_decimal(value);
    sink.put(b"\n");
}

/// Writes the lines of a histogram's buckets under its bounds.
fn put_buckets<S: Sink>(
    sink: &mut S,
    front: &[u8],
    digits: u8,
    bounds: &[u64],
    cumulated: &[u64; 25],
)
    requires short { length bounds.now ≤ 24 }
    requires few { digits ≤ 9 }
    ensures { S.took sink.old sink.new (bucket_lines front.now digits bounds.now cumulated.now (length bounds.now)) }
{
    for place in 0..bounds.len() {
        put_bucket(sink, front, digits, bounds[place], cumulated[place]);
    }
}

/// Writes the line of the bucket of all values after its front.
fn put_last_bucket<S: Sink>(sink: &mut S, front: &[u8], count: u64)
    ensures { S.took sink.old sink.new (bucket_line front.now (codes "+Inf") (decimal count)) }
{
    sink.put(front);
    sink.put(b"+Inf\"} ");
    sink.put_decimal(count);
    sink.put(b"\n");
}

/// The bounds of a histogram.
fn bounds_of(desc: &Desc) -> &[u64]
    requires { desc.now.kind ≡ Kind.Histogram }
    ensures bounds { result.now ≡ desc.now.bounds }
    ensures few { length result.now ≤ 24 }
    ensures small { (k : ℕ) → k < length desc.now.bounds → slice_index desc.now.bounds k < 2 ^ 64 }
{
    match desc.bounds() {
        Some(bounds) => bounds.as_slice(),
        None => &[],
    }
}

/// The sum and the count of a histogram.
fn sum_and_count(totals: &HistTotals) -> (u64, u64)
    ensures sum { result.0 ≡ totals.now.sum }
    ensures count { result.1 ≡ totals.now.count }
    ensures words { IsOfWords (Number.Histogram totals.now) }
{
    let (sum, count) = (totals.sum, totals.count);
    (sum, count)
}

/// Writes the lines of a histogram.
fn put_histogram<S: Sink>(
    sink: &mut S,
    front: &mut Front,
    desc: &Desc,
    values: &[LabelValue],
    totals: &HistTotals,
)
    requires fit { length values.now ≡ length desc.now.labels }
    requires kind { desc.now.kind ≡ Kind.Histogram }
    requires count { totals.now.count ≡ sum totals.now.buckets }
    ensures text { S.took sink.old sink.new
        (flat_map shown_line (shown_of_number desc.now (zip desc.now.labels values.now) (Number.Histogram totals.now))) }
    ensures names { All IsLabelName desc.now.labels }
    ensures values { All IsSpelledValue values.now }
    ensures words { IsOfWords (Number.Histogram totals.now) }
{
    let (sum, count) = sum_and_count(totals);
    let bounds = bounds_of(desc);
    let digits = desc.digits();
    let cumulated = cumulate(&totals.buckets, bounds.len());
    spell(front, desc, values);
    put_buckets(sink, front.bytes(), digits, bounds, &cumulated);
    put_last_bucket(sink, front.bytes(), count);
    put_sample(sink, desc, values, "_sum", digits, sum);
    put_sample(sink, desc, values, "_count", 0, count);
}

/// The value of a gauge: a blank, with a minus behind it where it is below zero, and how far from zero it is.
fn difference(totals: &GaugeTotals) -> (&'static str, u64)
    ensures value { (digits : ℕ) → result.0.now ++ shifted digits result.1
        ≡ codes " " ++ signed_shifted digits (pos totals.now.up -ℤ pos totals.now.down) }
    ensures words { IsOfWords (Number.Gauge totals.now) }
{
    let (is_below, size) = totals.signed();
    (if is_below { " -" } else { " " }, size)
}

/// Writes the line of a gauge: its ups less its downs.
fn put_gauge<S: Sink>(sink: &mut S, desc: &Desc, values: &[LabelValue], totals: &GaugeTotals)
    requires { length values.now ≡ length desc.now.labels }
    ensures text { S.took sink.old sink.new
        (flat_map shown_line (shown_of_number desc.now (zip desc.now.labels values.now) (Number.Gauge totals.now))) }
    ensures names { All IsLabelName desc.now.labels }
    ensures values { All IsSpelledValue values.now }
    ensures words { IsOfWords (Number.Gauge totals.now) }
{
    let (blank, size) = difference(totals);
    put_series(sink, desc, values, "");
    put_value(sink, blank, desc.digits(), size);
}

/// Writes the line of a counter.
fn put_counter<S: Sink>(sink: &mut S, desc: &Desc, values: &[LabelValue], total: u64)
    requires { length values.now ≡ length desc.now.labels }
    ensures text { S.took sink.old sink.new
        (flat_map shown_line (shown_of_number desc.now (zip desc.now.labels values.now) (Number.Counter total))) }
    ensures names { All IsLabelName desc.now.labels }
    ensures values { All IsSpelledValue values.now }
    ensures words { IsOfWords (Number.Counter total) }
{
    put_sample(sink, desc, values, "", desc.digits(), total);
}

/// Writes the lines of a number in a family.
pub(crate) fn put_number<S: Sink>(
    sink: &mut S,
    front: &mut Front,
    desc: &Desc,
    values: &[LabelValue],
    number: &Number,
)
    requires fit { length values.now ≡ length desc.now.labels }
    requires kind { IsNumberOf desc.now.kind number.now }
    ensures text { S.took sink.old sink.new
        (flat_map shown_line (shown_of_number desc.now (zip desc.now.labels values.now) number.now)) }
    ensures names { All IsLabelName desc.now.labels }
    ensures values { All IsSpelledValue values.now }
    ensures words { IsOfWords number.now }
{
    match number {
        Number::Counter(total) => put_counter(sink, desc, values, *total),
        Number::Histogram(totals) => put_histogram(sink, front, desc, values, totals),
        Number::Gauge(totals) => put_gauge(sink, desc, values, totals),
    }
}
