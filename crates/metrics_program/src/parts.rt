//! What the parts of a line say: descriptors and label values.
ghost use Rattle.std.specs.Prelude.{◌≡◌, ℕ, List, [], IfErr, IfOk, OnOk};
ghost use Rattle.metric_desc.specs.declared.kind.Kind.TheVariants as Kinds;
ghost use Rattle.script_lines.specs.Language.{AreLabels, AreBounds, AreValues, IsWriting, Writes};
ghost use Rattle.metrics_program.specs.Parts.{IsDescribed, AreRead, AreGoodLabels, AreGoodParts, IsGoodHelp, IsGoodValue};
ghost use Rattle.metrics_program.specs.Parts.{IsLabelsRefusal, IsHelpRefusal, IsValueRefusal, AreValuesRefused, IsPartsRefusal};
ghost use Rattle.metrics_program.specs.Parts.{IsPlainRefusal, IsHistogramRefusal};

use crate::line_fault::LineFault;
use metric_desc::Desc;
use metric_names::{HelpText, LabelName, LabelValue, MetricName};
use script_lines::{bounds_of, labels_of, unescape, values_of};
use std::alloc::Global;

/// The names of a line's labels.
fn read_labels(alloc: Global, labels: &str) -> Result<Vec<LabelName>, LineFault>
    ensures read { IfOk result (λ names. AreLabels labels.now names.items) }
    ensures good { OnOk result (AreGoodLabels labels.now) }
    ensures fault { IfErr result (IsLabelsRefusal labels.now) }
{
    let Ok(words) = labels_of(alloc, labels) else {
        return Err(LineFault::NoMemory);
    };
    let Ok(mut names) = Vec::with_capacity(alloc, words.len()) else {
        return Err(LineFault::NoMemory);
    };
    for word in &words {
        match LabelName::read(alloc, word) {
            Ok(name) => {
                if names.push(name).is_err() {
                    return Err(LineFault::NoMemory);
                }
            }
            Err(fault) => return Err(LineFault::Label(fault)),
        }
    }
    Ok(names)
}

/// The help of a line.
fn read_help(alloc: Global, help: &str) -> Result<HelpText, LineFault>
    requires { IsWriting help.now }
    ensures read { IfOk result (λ text. Writes text help.now) }
    ensures good { OnOk result (IsGoodHelp help.now) }
    ensures fault { IfErr result (IsHelpRefusal help.now) }
{
    let Ok(text) = unescape(alloc, help) else {
        return Err(LineFault::NoMemory);
    };
    match HelpText::read(alloc, text.as_str()) {
        Ok(help) => Ok(help),
        Err(fault) => Err(LineFault::Help(fault)),
    }
}

/// One label value of a line.
fn read_value(alloc: Global, written: &str) -> Result<LabelValue, LineFault>
    requires { IsWriting written.now }
    ensures read { IfOk result (λ value. Writes value written.now) }
    ensures good { OnOk result (IsGoodValue written.now) }
    ensures fault { IfErr result (IsValueRefusal written.now) }
{
    let Ok(text) = unescape(alloc, written) else {
        return Err(LineFault::NoMemory);
    };
    match LabelValue::read(alloc, text.as_str()) {
        Ok(value) => Ok(value),
        Err(fault) => Err(LineFault::Value(fault)),
    }
}

/// The label values of a line's child.
pub(crate) fn read_values(alloc: Global, values: &str) -> Result<Vec<LabelValue>, LineFault>
    requires { (words : List (List ℕ)) × AreValues values.now words }
    ensures read { IfOk result (λ read. AreRead values.now read.items) }
    ensures fault { IfErr result (AreValuesRefused values.now) }
{
    let Ok(words) = values_of(alloc, values) else {
        return Err(LineFault::NoMemory);
    };
    let Ok(mut read) = Vec::with_capacity(alloc, words.len()) else {
        return Err(LineFault::NoMemory);
    };
    for word in &words {
        match read_value(alloc, word) {
            Ok(value) => {
                if read.push(value).is_err() {
                    return Err(LineFault::NoMemory);
                }
            }
            Err(fault) => return Err(fault),
        }
    }
    Ok(read)
}

/// What a line says of a family, but for its kind and bounds, as it is written.
#[derive(Clone, Copy)]
pub(crate) struct Parts<'a> {
    pub(crate) name: &'a str,
    pub(crate) labels: &'a str,
    pub(crate) help: &'a str,
}

/// The same, read.
#[derive(Drop)]
struct Read {
    name: MetricName,
    labels: Vec<LabelName>,
    help: HelpText,
}

/// Reads the name, the labels and the help, in this order.
fn read_parts(alloc: Global, parts: Parts<'_>) -> Result<Read, LineFault>
    requires { IsWriting parts.help.now }
    ensures name { IfOk result (λ read. read.name ≡ parts.entry.name.now) }
    ensures labels { IfOk result (λ read. AreLabels parts.entry.labels.now read.labels.items) }
    ensures help { IfOk result (λ read. Writes read.help parts.entry.help.now) }
    ensures good { OnOk result (AreGoodParts parts.entry.name.now parts.entry.labels.now parts.entry.help.now) }
    ensures fault { IfErr result (IsPartsRefusal parts.entry.name.now parts.entry.labels.now parts.entry.help.now) }
{
    let name = match MetricName::read(alloc, parts.name) {
        Ok(name) => name,
        Err(fault) => return Err(LineFault::Name(fault)),
    };
    let labels = match read_labels(alloc, parts.labels) {
        Ok(labels) => labels,
        Err(fault) => return Err(fault),
    };
    match read_help(alloc, parts.help) {
        Ok(help) => Ok(Read { name, labels, help }),
        Err(fault) => Err(fault),
    }
}

/// The descriptor of a family of counters.
pub(crate) fn counter_of(alloc: Global, parts: Parts<'_>) -> Result<Desc, LineFault>
    requires { IsWriting parts.help.now }
    ensures read { IfOk result (IsDescribed Kinds.Counter parts.entry.name.now parts.entry.labels.now parts.entry.help.now
        (λ bounds. bounds ≡ [])) }
    ensures fault { IfErr result (IsPlainRefusal parts.entry.name.now parts.entry.labels.now parts.entry.help.now) }
{
    let read = match read_parts(alloc, parts) {
        Ok(read) => read,
        Err(fault) => return Err(fault),
    };
    match Desc::counter(read.name, read.help, read.labels) {
        Ok(desc) => Ok(desc),
        Err(fault) => Err(LineFault::Labels(fault)),
    }
}

/// The descriptor of a family of gauges.
pub(crate) fn gauge_of(alloc: Global, parts: Parts<'_>) -> Result<Desc, LineFault>
    requires { IsWriting parts.help.now }
    ensures read { IfOk result (IsDescribed Kinds.Gauge parts.entry.name.now parts.entry.labels.now parts.entry.help.now
        (λ bounds. bounds ≡ [])) }
    ensures fault { IfErr result (IsPlainRefusal parts.entry.name.now parts.entry.labels.now parts.entry.help.now) }
{
    let read = match read_parts(alloc, parts) {
        Ok(read) => read,
        Err(fault) => return Err(fault),
    };
    match Desc::gauge(read.name, read.help, read.labels) {
        Ok(desc) => Ok(desc),
        Err(fault) => Err(LineFault::Labels(fault)),
    }
}

/// The descriptor of a family of histograms.
pub(crate) fn histogram_of(alloc: Global, parts: Parts<'_>, bounds: &str) -> Result<Desc, LineFault>
    requires help { IsWriting parts.help.now }
    requires bounds { (numbers : List ℕ) × AreBounds bounds.now numbers }
    ensures read { IfOk result (IsDescribed Kinds.Histogram parts.entry.name.now parts.entry.labels.now parts.entry.help.now
        (AreBounds bounds.now)) }
    ensures fault { IfErr result
        (IsHistogramRefusal parts.entry.name.now parts.entry.labels.now parts.entry.help.now bounds.now) }
{
    let read = match read_parts(alloc, parts) {
        Ok(read) => read,
        Err(fault) => return Err(fault),
    };
    let Ok(numbers) = bounds_of(alloc, bounds) else {
        return Err(LineFault::NoMemory);
    };
    match Desc::histogram(read.name, read.help, read.labels, &numbers) {
        Ok(desc) => Ok(desc),
        Err(fault) => Err(LineFault::Histogram(fault)),
    }
}
