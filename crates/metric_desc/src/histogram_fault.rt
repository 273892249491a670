ghost use Rattle.std.specs.Prelude.{◌≡◌};
ghost use Rattle.metric_desc.specs.Histogram.{number_of};

use crate::labels::LabelsFault;
use bucket_math::BadBounds;
use thiserror::Error;

/// Why there is no descriptor of a histogram.
#[derive(Clone, Copy, Debug, PartialEq, Eq, Error)]
pub enum HistogramFault {
    /// Refusals 9 and 7 of the labels.
    #[error(transparent)]
    Labels(LabelsFault),
    /// Refusal 8: a label is `le`, which the buckets' samples have of their own.
    #[error("a histogram has no label `le`")]
    LeOnHistogram,
    /// Refusal 10 of the bounds.
    #[error(transparent)]
    Bounds(BadBounds),
}

impl HistogramFault {
    /// The refusal's number.
    pub fn number(&self) -> u8
        ensures { result ≡ number_of self.now }
    {
        match self {
            HistogramFault::Labels(fault) => fault.number(),
            HistogramFault::LeOnHistogram => 8,
            HistogramFault::Bounds(fault) => fault.number(),
        }
    }
}
