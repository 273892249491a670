ghost use Rattle.std.specs.Prelude.{◌≡◌, ◌↔◌, ◌<◌, IsTrue, Contains, MatchOption, IfErr, OnOk};
ghost use Rattle.metric_desc.specs.Histogram.{le};
ghost use Rattle.metric_desc.specs.Labels.{AreDistinct, AreLabels, FirstDuplicate, IsLabelsFault, number_of};

use metric_names::LabelName;
use thiserror::Error;

/// The most labels of a family.
pub const MAX_LABELS: usize = 8;

/// Why label names cannot be those of a family.
#[derive(Clone, Copy, Debug, PartialEq, Eq, Error)]
pub enum LabelsFault {
    /// Refusal 9: more than 8 labels.
    #[error("a family has at most 8 labels")]
    TooManyLabels,
    /// Refusal 7: the label at the place `at`, from 0, is the first that stands before it too.
    #[error("the label at {at} stands before it too")]
    DuplicateLabel { at: usize },
}

impl LabelsFault {
    /// The refusal's number.
    pub fn number(&self) -> u8
        ensures { result ≡ number_of self.now }
    {
        match self {
            LabelsFault::DuplicateLabel { .. } => 7,
            LabelsFault::TooManyLabels => 9,
        }
    }
}

fn contains(labels: &[LabelName], name: &LabelName) -> bool
    ensures { IsTrue result ↔ Contains labels.now name.now }
{
    for label in labels {
        if label.as_str() == name.as_str() {
            return true;
        }
    }
    false
}

fn first_duplicate(labels: &[LabelName]) -> Option<usize>
    ensures { MatchOption result (AreDistinct labels.now) (FirstDuplicate labels.now) }
{
    for (at, label) in labels.iter().enumerate() {
        if contains(&labels[..at], label) {
            return Some(at);
        }
    }
    None
}

/// Whether these can be the labels of a family. Refusals: 9, 7.
pub(crate) fn check_labels(labels: &[LabelName]) -> Result<(), LabelsFault>
    ensures ok { OnOk result (AreLabels labels.now) }
    ensures fault { IfErr result (IsLabelsFault labels.now) }
{
    if labels.len() > MAX_LABELS {
        return Err(LabelsFault::TooManyLabels);
    }
    match first_duplicate(labels) {
        Some(at) => Err(LabelsFault::DuplicateLabel { at }),
        None => Ok(()),
    }
}

/// Whether a label is `le`, which the buckets' samples of a histogram have of their own.
pub(crate) fn has_le(labels: &[LabelName]) -> bool
    ensures { IsTrue result ↔ Contains labels.now le }
{
    for label in labels {
        if label.as_str() == "le" {
            return true;
        }
    }
    false
}
