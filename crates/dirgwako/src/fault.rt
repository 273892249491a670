//! Why metrics are refused that are registered by plain texts.
ghost use Rattle.std.specs.Prelude.{◌≡◌};
ghost use Rattle.dirgwako.specs.Refused.{family_refusal_number, child_refusal_number, metric_refusal_number};

use metric_desc::{HistogramFault, LabelsFault, TooManyDigits};
use metric_names::{HelpTextFault, LabelNameFault, LabelValueFault, MetricNameFault};
use registry_state::{FamilyId, RegisterFault};
use scrape_page::PageChildFault;
use thiserror::Error;

/// Why a family is not registered. Nothing has changed then.
#[derive(Clone, Copy, Debug, PartialEq, Eq, Error)]
pub enum FamilyRefusal {
    /// Refusals 1, 2, 3 and 6 of the name.
    #[error("{}: {}", .0.number(), .0)]
    Name(MetricNameFault),
    /// Refusals 3, 5 and 6 of the help.
    #[error("{}: {}", .0.number(), .0)]
    Help(HelpTextFault),
    /// Refusals 1 to 4 and 6 of the label's name at the place `at`, from 0.
    #[error("{}: label {}: {}", .fault.number(), .at, .fault)]
    Label { at: usize, fault: LabelNameFault },
    /// Refusals 9 and 7 of the labels of a counter or a gauge.
    #[error("{}: {}", .0.number(), .0)]
    Labels(LabelsFault),
    /// Refusals 9, 7, 8 and 10 of the labels and the bounds of a histogram.
    #[error("{}: {}", .0.number(), .0)]
    Histogram(HistogramFault),
    /// Refusal 43: a text shifts numbers by at most 9 digits.
    #[error("{}: {}", .0.number(), .0)]
    Digits(TooManyDigits),
    /// Refusals 19, 23 and 6 of the registry.
    #[error("{}: {}", .0.number(), .0)]
    Register(RegisterFault),
}

impl FamilyRefusal {
    /// The refusal's number.
    pub fn number(&self) -> u8
        ensures { result ≡ family_refusal_number self.now }
    {
        match self {
            FamilyRefusal::Name(fault) => fault.number(),
            FamilyRefusal::Help(fault) => fault.number(),
            FamilyRefusal::Label { at: _, fault } => fault.number(),
            FamilyRefusal::Labels(fault) => fault.number(),
            FamilyRefusal::Histogram(fault) => fault.number(),
            FamilyRefusal::Digits(fault) => fault.number(),
            FamilyRefusal::Register(fault) => fault.number(),
        }
    }
}

/// Why there is no handle of a family for some label values. Nothing has changed then, but that after 28 the child is in the
/// other family, and that after 6 a page may have a board more.
#[derive(Clone, Copy, Debug, PartialEq, Eq, Error)]
pub enum ChildRefusal {
    /// Refusal 20: the family is of a registry of another id.
    #[error("20: the family is of another registry")]
    OtherRegistry,
    /// Refusals 3 and 6 of the label value at the place `at`, from 0.
    #[error("{}: value {}: {}", .fault.number(), .at, .fault)]
    Value { at: usize, fault: LabelValueFault },
    /// Refusals 20, 21, 22 and 6 of the registry, and 46 of a page.
    #[error("{}: {}", .0.number(), .0)]
    Child(PageChildFault),
    /// Refusal 28: the registry's family of this number is of another kind. So a family is told that is of another registry of
    /// the same id, where the kinds differ.
    #[error("28: the family is of another kind")]
    OtherKind,
}

impl ChildRefusal {
    /// The refusal's number.
    pub fn number(&self) -> u8
        ensures { result ≡ child_refusal_number self.now }
    {
        match self {
            ChildRefusal::OtherRegistry => 20,
            ChildRefusal::Value { at: _, fault } => fault.number(),
            ChildRefusal::Child(fault) => fault.number(),
            ChildRefusal::OtherKind => 28,
        }
    }
}

/// Why there is no metric without labels.
#[derive(Clone, Copy, Debug, PartialEq, Eq, Error)]
pub enum MetricRefusal {
    /// Its family is not registered, and nothing has changed.
    #[error(transparent)]
    Family(FamilyRefusal),
    /// Its family is registered, which stands from now on without a child: there is no slot for one (22), or no memory (6).
    #[error("{fault}")]
    Child {
        family: FamilyId,
        fault: ChildRefusal,
    },
}

impl MetricRefusal {
    /// The refusal's number.
    pub fn number(&self) -> u8
        ensures { result ≡ metric_refusal_number self.now }
    {
        match self {
            MetricRefusal::Family(fault) => fault.number(),
            MetricRefusal::Child { family: _, fault } => fault.number(),
        }
    }
}
