ghost use Rattle.std.specs.Prelude.{◌≡◌, ◌<◌, ◌++◌, length, codes, All, IsUtf8};
ghost use Rattle.std.specs.List.{flat_map};
ghost use Rattle.metric_names.specs.Escapes.{help_byte};
ghost use Rattle.metric_names.specs.HelpText.{IsHelpText};
ghost use Rattle.metric_names.specs.LabelName.{IsLabelName};
ghost use Rattle.metric_names.specs.MetricName.{IsMetricName};
ghost use Rattle.expo_text.specs.Scraped.{Child};
ghost use Rattle.expo_text.specs.Order.{IsFamily, IsNumberOf, IsScrape};
ghost use Rattle.expo_text.specs.Spelled.{IsSpelledChild, IsSpelledDesc, IsSpelledIfPrinted};
ghost use Rattle.expo_text.specs.Shown.{shown_of_child, shown_line, shown_group_of, shown_group_text, shown_text};
ghost use Rattle.expo_text.specs.Text.{help_line, kind_text, type_line};

use crate::front::Front;
use crate::labels::put_text;
use crate::samples::put_number;
use crate::scrape::{ChildScrape, FamilyScrape, Scrape};
use crate::sink::Sink;
use metric_desc::{Desc, Kind};
use metric_names::HelpText;

/// Writes the line of a help that is not empty.
fn put_help_line<S: Sink>(sink: &mut S, name: &str, help: &HelpText)
    ensures { S.took sink.old sink.new (codes "# HELP " ++ name.now ++ codes " " ++ flat_map help_byte help.now ++ codes "\n") }
{
    sink.put(b"# HELP ");
    sink.put(name.as_bytes());
    sink.put(b" ");
    put_text(sink, help.as_str(), help.is_verbatim(), false);
    sink.put(b"\n");
}

/// Writes the line of a family's help, and nothing where the help is empty.
fn put_help<S: Sink>(sink: &mut S, desc: &Desc)
    ensures text { S.took sink.old sink.new (help_line desc.now.name desc.now.help) }
    ensures help { IsHelpText desc.now.help }
    ensures utf8 { IsUtf8 desc.now.help }
{
    let help = desc.help();
    if !help.as_str().is_empty() {
        put_help_line(sink, desc.name().as_str(), help);
    }
}

/// The word for a kind.
fn word(kind: Kind) -> &'static [u8]
    ensures { result.now ≡ kind_text kind }
{
    match kind {
        Kind::Counter => b"counter",
        Kind::Histogram => b"histogram",
        Kind::Gauge => b"gauge",
    }
}

/// Writes the line of a family's type.
fn put_type<S: Sink>(sink: &mut S, desc: &Desc)
    ensures text { S.took sink.old sink.new (type_line desc.now) }
    ensures name { IsMetricName desc.now.name }
{
    sink.put(b"# TYPE ");
    sink.put(desc.name().as_str().as_bytes());
    sink.put(b" ");
    sink.put(word(desc.kind()));
    sink.put(b"\n");
}

/// Writes the lines of a child.
fn put_child<S: Sink>(sink: &mut S, front: &mut Front, desc: &Desc, child: &ChildScrape)
    requires fit { length child.now.values ≡ length desc.now.labels }
    requires kind { IsNumberOf desc.now.kind child.now.number }
    ensures text { S.took sink.old sink.new (flat_map shown_line (shown_of_child desc.now child.now)) }
    ensures names { All IsLabelName desc.now.labels }
    ensures spelled { IsSpelledChild child.now }
{
    put_number(sink, front, desc, &child.values, &child.number);
}

/// Writes the lines of a family's children.
fn put_children<S: Sink>(sink: &mut S, front: &mut Front, desc: &Desc, children: &[ChildScrape])
    requires fit { All (λ (child : Child). length child.values ≡ length desc.now.labels) children.now }
    requires numbers { All (λ (child : Child). IsNumberOf desc.now.kind child.number) children.now }
    ensures text { S.took sink.old sink.new (flat_map shown_line (flat_map (shown_of_child desc.now) children.now)) }
    ensures names { 0 < length children.now → All IsLabelName desc.now.labels }
    ensures spelled { All IsSpelledChild children.now }
{
    for child in children {
        put_child(sink, front, desc, child);
    }
}

/// Writes the help, the type and the samples of a family with children.
fn put_lines<S: Sink>(sink: &mut S, front: &mut Front, desc: &Desc, children: &[ChildScrape])
    requires fit { All (λ (child : Child). length child.values ≡ length desc.now.labels) children.now }
    requires numbers { All (λ (child : Child). IsNumberOf desc.now.kind child.number) children.now }
    requires some { 0 < length children.now }
    ensures text { S.took sink.old sink.new (shown_group_of desc.now children.now (flat_map (shown_of_child desc.now)
        children.now)) }
    ensures spelled { IsSpelledDesc desc.now }
    ensures children { All IsSpelledChild children.now }
{
    let _ = desc.labels();
    let _ = desc.digits();
    put_help(sink, desc);
    put_type(sink, desc);
    put_children(sink, front, desc, children);
}

/// Writes the group of a family; nothing where it has no children.
fn put_group<S: Sink>(sink: &mut S, front: &mut Front, family: &FamilyScrape)
    requires { IsFamily family.now }
    ensures text { S.took sink.old sink.new (shown_group_text family.now) }
    ensures spelled { IsSpelledIfPrinted family.now }
{
    if !family.children.is_empty() {
        put_lines(sink, front, &family.desc, &family.children);
    }
}

/// Writes the groups of a scrape. What the front holds before is of no matter.
pub(crate) fn put_groups<S: Sink>(sink: &mut S, front: &mut Front, scrape: &Scrape)
    ensures text { S.took sink.old sink.new (shown_text scrape.now) }
    ensures spelled { All IsSpelledIfPrinted scrape.now.families }
    ensures ordered { IsScrape scrape.now }
{
    for family in scrape.families() {
        put_group(sink, front, family);
    }
}
