ghost use Rattle.std.specs.Prelude.{◌≡◌, IfOk, IfErr};
ghost use Rattle.metric_names.specs.MetricName.{IsMetricNameFault, number_of};

use crate::no_memory::NoMemory;
use crate::spelling::first_wrong;
use std::alloc::Global;
use std::marker::Model;
use thiserror::Error;

/// The most bytes of a metric name.
pub const LIMIT: usize = 128;

/// Why a text is no metric name.
#[derive(Clone, Copy, Debug, PartialEq, Eq, Error)]
pub enum MetricNameFault {
    /// Refusal 1: the text has 0 bytes.
    #[error("a metric name has at least one byte")]
    Empty,
    /// Refusal 3: the text has more than `limit` bytes.
    #[error("a metric name has at most {limit} bytes")]
    TooLong { limit: usize },
    /// Refusal 2: the byte at the place `at`, from 0, is the first that a metric name has not there.
    #[error("the byte at {at} cannot stand there in a metric name")]
    BadByte { at: usize },
    /// Refusal 6: a growth was refused.
    #[error("out of memory")]
    NoMemory,
}

impl MetricNameFault {
    /// The refusal's number.
    pub fn number(&self) -> u8
        ensures { result ≡ number_of self.now }
    {
        match self {
            MetricNameFault::Empty => 1,
            MetricNameFault::BadByte { .. } => 2,
            MetricNameFault::TooLong { .. } => 3,
            MetricNameFault::NoMemory => 6,
        }
    }
}

/// The name of a metric: `[a-zA-Z_:][a-zA-Z0-9_:]*`, 1 to 128 bytes.
///
/// Contracts see it as its bytes. Source: Prometheus documentation, "Data model", "Metric names".
#[derive(Debug, Drop)]
pub struct MetricName {
    text: String,
}

impl Model for MetricName {
    ghost use Rattle.std.specs.Prelude.{ℕ, List};
    ghost use Rattle.std.specs.String.{string_bytes};
    ghost use Rattle.metric_names.specs.MetricName.{IsMetricName};

    ghost Value = { List ℕ };

    ghost view = { λ n. string_bytes n.text };

    ghost invariant = { λ n. IsMetricName (string_bytes n.text) };
}

impl MetricName {
    ghost use Rattle.metric_names.specs.MetricName.{IsMetricName};

    /// Reads a metric name. Takes memory for its bytes.
    ///
    /// Refusals, in the order in which they are tried: 1 `Empty`, 3 `TooLong`, 2 `BadByte`, 6 `NoMemory`.
    pub fn read(alloc: Global, text: &str) -> Result<MetricName, MetricNameFault>
        ensures text { IfOk result (λ name. name ≡ text.now) }
        ensures grammar { IfOk result IsMetricName }
        ensures fault { IfErr result (IsMetricNameFault text.now) }
    {
        if text.is_empty() {
            return Err(MetricNameFault::Empty);
        }
        if text.len() > LIMIT {
            return Err(MetricNameFault::TooLong { limit: LIMIT });
        }
        if let Some(at) = first_wrong(true, text.as_bytes()) {
            return Err(MetricNameFault::BadByte { at });
        }
        let text = String::from_str(alloc, text).map_err(|_| MetricNameFault::NoMemory)?;
        Ok(MetricName { text })
    }

    /// The name as text.
    pub fn as_str(&self) -> &str
        ensures text { result.now ≡ self.now }
        ensures grammar { IsMetricName self.now }
    {
        self.text.as_str()
    }

    /// An equal name, in memory of its own.
    ///
    /// Refusal 6 [`NoMemory`], and no other.
    pub fn copy(&self) -> Result<MetricName, NoMemory>
        ensures { IfOk result (λ name. name ≡ self.now) }
    {
        let text = self.text.clone()?;
        Ok(MetricName { text })
    }
}
