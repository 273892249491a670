ghost use Rattle.std.specs.Prelude.{◌≡◌, ◌≢◌, ◌↔◌, ◌<◌, ◌≤◌, [], ◌++◌, map, IfOk, IfErr, IsSome, IfSome};
ghost use Rattle.std.specs.String.{string_bytes};
ghost use Rattle.metric_desc.specs.Labels.{AreLabels, IsLabelsFault};
ghost use Rattle.metric_desc.specs.Histogram.{IsHistogram, IsHistogramFault};
ghost use Rattle.metric_desc.specs.Desc.{IsDescOf, names_of};

use crate::digits::{MAX_DIGITS, TooManyDigits};
use crate::histogram_fault::HistogramFault;
use crate::kind::{Kind, Shape};
use crate::labels::{LabelsFault, check_labels, has_le};
use crate::names::suffixes;
use bucket_math::Bounds;
use metric_names::{HelpText, LabelName, MetricName, NoMemory};
use std::alloc::Global;
use std::marker::Model;

/// The descriptor of a family: its kind, its name, its help, the names of its labels, at most 8 and no two the same, of a
/// histogram its bounds, and by how many decimal digits a text shifts its numbers, at most 9.
///
/// Contracts see it as a `Descriptor`, the record of these.
#[derive(Debug)]
pub struct Desc {
    name: MetricName,
    help: HelpText,
    labels: Vec<LabelName>,
    shape: Shape,
    digits: u8,
}

// Written out, so that it is proved once: a derived drop is proved anew, with the drops of all its parts, in each crate that lets
// a descriptor go.
impl Drop for Desc {
    fn drop(self) {
        let Desc {
            name: _,
            help: _,
            labels: _,
            shape: _,
            digits: _,
        } = self;
    }
}

impl Model for Desc {
    ghost use Rattle.std.specs.Prelude.{◌≤◌};
    ghost use Rattle.metric_desc.specs.Desc.{Descriptor, IsDescOf};
    ghost use Rattle.metric_desc.specs.Desc.{kind_of, bounds_of};

    ghost Value = { Descriptor };

    ghost view = { λ d. record {
      name = d.name;
      help = d.help;
      labels = d.labels.items;
      kind = kind_of d.shape;
      bounds = bounds_of d.shape;
      digits = d.digits;
    } };

    ghost invariant = { λ d. IsDescOf (kind_of d.shape) d.labels.items (bounds_of d.shape) × (d.digits ≤ 9) };
}

impl Desc {
    /// The descriptor of a family of counters. Takes no memory.
    ///
    /// Refusals, in the order in which they are tried: 9 `TooManyLabels`, 7 `DuplicateLabel`.
    pub fn counter(
        name: MetricName,
        help: HelpText,
        labels: Vec<LabelName>,
    ) -> Result<Desc, LabelsFault>
        ensures made { IfOk result (λ desc. desc ≡ record {
          name = name;
          help = help;
          labels = labels.items;
          kind = Kind.Counter;
          bounds = [];
          digits = 0;
        }) }
        ensures labels_ok { IfOk result (λ desc. AreLabels desc.labels) }
        ensures fault { IfErr result (IsLabelsFault labels.items) }
    {
        check_labels(&labels)?;
        Ok(Desc {
            name,
            help,
            labels,
            shape: Shape::Counter,
            digits: 0,
        })
    }

    /// The descriptor of a family of gauges. Takes no memory.
    ///
    /// Refusals, in the order in which they are tried: 9 `TooManyLabels`, 7 `DuplicateLabel`.
    pub fn gauge(
        name: MetricName,
        help: HelpText,
        labels: Vec<LabelName>,
    ) -> Result<Desc, LabelsFault>
        ensures made { IfOk result (λ desc. desc ≡ record {
          name = name;
          help = help;
          labels = labels.items;
          kind = Kind.Gauge;
          bounds = [];
          digits = 0;
        }) }
        ensures labels_ok { IfOk result (λ desc. AreLabels desc.labels) }
        ensures fault { IfErr result (IsLabelsFault labels.items) }
    {
        check_labels(&labels)?;
        Ok(Desc {
            name,
            help,
            labels,
            shape: Shape::Gauge,
            digits: 0,
        })
    }

    /// The descriptor of a family of histograms with these bounds. Takes no memory.
    ///
    /// Refusals, in the order in which they are tried: 9 `TooManyLabels`, 7 `DuplicateLabel`, 8 `LeOnHistogram`,
    /// 10 `BadBounds`.
    pub fn histogram(
        name: MetricName,
        help: HelpText,
        labels: Vec<LabelName>,
        bounds: &[u64],
    ) -> Result<Desc, HistogramFault>
        ensures made { IfOk result (λ desc. desc ≡ record {
          name = name;
          help = help;
          labels = labels.items;
          kind = Kind.Histogram;
          bounds = bounds.now;
          digits = 0;
        }) }
        ensures histogram_ok { IfOk result (λ desc. IsHistogram desc.labels desc.bounds) }
        ensures fault { IfErr result (IsHistogramFault labels.items bounds.now) }
    {
        check_labels(&labels).map_err(HistogramFault::Labels)?;
        if has_le(&labels) {
            return Err(HistogramFault::LeOnHistogram);
        }
        let bounds = Bounds::from_slice(bounds).map_err(HistogramFault::Bounds)?;
        Ok(Desc {
            name,
            help,
            labels,
            shape: Shape::Histogram(bounds),
            digits: 0,
        })
    }

    /// The same descriptor, whose family's numbers a text shifts by so many decimal digits: of 6 digits 2250401 is shown as
    /// `2.250401`. Its names stay, and so do its bounds, which are of the same unit as its numbers. Takes no memory.
    ///
    /// Refusal 43 [`TooManyDigits`] of more than 9, and no other. The descriptor is dropped then.
    pub fn with_digits(self, digits: u8) -> Result<Desc, TooManyDigits>
        ensures made { IfOk result (λ desc. desc ≡ record self { digits = digits }) }
        ensures few { IfOk result (λ _. digits ≤ 9) }
        ensures fault { IfErr result (λ _. 9 < digits) }
    {
        if digits > MAX_DIGITS {
            return Err(TooManyDigits);
        }
        let mut desc = self;
        desc.digits = digits;
        Ok(desc)
    }

    /// The name of the family.
    pub fn name(&self) -> &MetricName
        ensures { result.now ≡ self.now.name }
    {
        &self.name
    }

    /// The help of the family. It may be empty.
    pub fn help(&self) -> &HelpText
        ensures { result.now ≡ self.now.help }
    {
        &self.help
    }

    /// The names of the labels, in the order in which children give their values.
    pub fn labels(&self) -> &[LabelName]
        ensures labels { result.now ≡ self.now.labels }
        ensures labels_ok { AreLabels self.now.labels }
        ensures desc_ok { IsDescOf self.now.kind self.now.labels self.now.bounds }
    {
        &self.labels
    }

    /// The kind of the family.
    pub fn kind(&self) -> Kind
        ensures { result ≡ self.now.kind }
    {
        match self.shape {
            Shape::Counter => Kind::Counter,
            Shape::Histogram(_) => Kind::Histogram,
            Shape::Gauge => Kind::Gauge,
        }
    }

    /// The bounds of a histogram, and of another family none.
    pub fn bounds(&self) -> Option<&Bounds>
        ensures histogram { IsSome result ↔ (self.now.kind ≡ Kind.Histogram) }
        ensures bounds { IfSome result (λ bounds. bounds.now ≡ self.now.bounds) }
        ensures others { self.now.kind ≢ Kind.Histogram → self.now.bounds ≡ [] }
    {
        match &self.shape {
            Shape::Histogram(bounds) => Some(bounds),
            Shape::Counter | Shape::Gauge => None,
        }
    }

    /// By how many decimal digits a text shifts the family's numbers; 0 where it was not said.
    pub fn digits(&self) -> u8
        ensures digits { result ≡ self.now.digits }
        ensures few { result ≤ 9 }
    {
        self.digits
    }

    /// The names that the family's lines take: its own, which of a histogram only the HELP and TYPE lines have, and of a
    /// histogram also its own with `_bucket`, `_sum` and `_count`, those of its samples, in this order.
    ///
    /// Refusal 6 [`NoMemory`], and no other.
    pub fn names(&self) -> Result<Vec<String>, NoMemory>
        ensures { IfOk result (λ names. map string_bytes names.items ≡ names_of self.now) }
    {
        let all = suffixes(self.kind());
        let mut names = Vec::with_capacity(self.allocator(), all.len())?;
        for suffix in all {
            names.push(self.name_with(suffix)?)?;
        }
        Ok(names)
    }

    /// An equal descriptor, in memory of its own.
    ///
    /// Refusal 6 [`NoMemory`], and no other.
    pub fn copy(&self) -> Result<Desc, NoMemory>
        ensures { IfOk result (λ desc. desc ≡ self.now) }
    {
        let name = self.name.copy()?;
        let help = self.help.copy()?;
        let labels = copied(self.allocator(), self.labels())?;
        Ok(Desc {
            name,
            help,
            labels,
            shape: self.shape,
            digits: self.digits,
        })
    }

    fn allocator(&self) -> Global {
        *self.labels.allocator()
    }

    fn name_with(&self, suffix: &str) -> Result<String, NoMemory>
        ensures { IfOk result (λ name. string_bytes name ≡ self.now.name ++ suffix.now) }
    {
        let mut name = String::from_str(self.allocator(), self.name.as_str())?;
        name.push_str(suffix)?;
        Ok(name)
    }
}

fn copied(alloc: Global, labels: &[LabelName]) -> Result<Vec<LabelName>, NoMemory>
    ensures { IfOk result (λ copies. copies.items ≡ labels.now) }
{
    let mut copies = Vec::with_capacity(alloc, labels.len())?;
    for label in labels {
        copies.push(label.copy()?)?;
    }
    Ok(copies)
}
