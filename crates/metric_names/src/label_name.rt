ghost use Rattle.std.specs.Prelude.{◌≡◌, IfOk, IfErr};
ghost use Rattle.metric_names.specs.LabelName.{IsLabelNameFault, is_reserved, number_of};

use crate::no_memory::NoMemory;
use crate::spelling::first_wrong;
use std::alloc::Global;
use std::marker::Model;
use thiserror::Error;

/// The most bytes of a label name.
pub const LIMIT: usize = 128;

/// Why a text is no label name.
#[derive(Clone, Copy, Debug, PartialEq, Eq, Error)]
pub enum LabelNameFault {
    /// Refusal 1: the text has 0 bytes.
    #[error("a label name has at least one byte")]
    Empty,
    /// Refusal 3: the text has more than `limit` bytes.
    #[error("a label name has at most {limit} bytes")]
    TooLong { limit: usize },
    /// Refusal 2: the byte at the place `at`, from 0, is the first that a label name has not there.
    #[error("the byte at {at} cannot stand there in a label name")]
    BadByte { at: usize },
    /// Refusal 4: the text begins with `__`.
    #[error("a label name does not begin with two underscores")]
    Reserved,
    /// Refusal 6: a growth was refused.
    #[error("out of memory")]
    NoMemory,
}

impl LabelNameFault {
    /// The refusal's number.
    pub fn number(&self) -> u8
        ensures { result ≡ number_of self.now }
    {
        match self {
            LabelNameFault::Empty => 1,
            LabelNameFault::BadByte { .. } => 2,
            LabelNameFault::TooLong { .. } => 3,
            LabelNameFault::Reserved => 4,
            LabelNameFault::NoMemory => 6,
        }
    }
}

/// The name of a label: `[a-zA-Z_][a-zA-Z0-9_]*`, 1 to 128 bytes, without `__` in front.
///
/// Contracts see it as its bytes. Source: Prometheus documentation, "Data model", "Metric labels".
#[derive(Debug, Drop)]
pub struct LabelName {
    text: String,
}

impl Model for LabelName {
    ghost use Rattle.std.specs.Prelude.{ℕ, List};
    ghost use Rattle.std.specs.String.{string_bytes};
    ghost use Rattle.metric_names.specs.LabelName.{IsLabelName};

    ghost Value = { List ℕ };

    ghost view = { λ n. string_bytes n.text };

    ghost invariant = { λ n. IsLabelName (string_bytes n.text) };
}

/// Whether the name is one of Prometheus's own.
fn starts_reserved(bytes: &[u8]) -> bool
    ensures { result ≡ is_reserved bytes.now }
{
    bytes.len() > 1 && bytes[0] == b'_' && bytes[1] == b'_'
}

impl LabelName {
    ghost use Rattle.metric_names.specs.LabelName.{IsLabelName};

    /// Reads a label name. Takes memory for its bytes.
    ///
    /// Refusals, in the order in which they are tried: 1 `Empty`, 3 `TooLong`, 2 `BadByte`,
    /// 4 `Reserved`, 6 `NoMemory`.
    pub fn read(alloc: Global, text: &str) -> Result<LabelName, LabelNameFault>
        ensures text { IfOk result (λ name. name ≡ text.now) }
        ensures grammar { IfOk result IsLabelName }
        ensures fault { IfErr result (IsLabelNameFault text.now) }
    {
        if text.is_empty() {
            return Err(LabelNameFault::Empty);
        }
        if text.len() > LIMIT {
            return Err(LabelNameFault::TooLong { limit: LIMIT });
        }
        if let Some(at) = first_wrong(false, text.as_bytes()) {
            return Err(LabelNameFault::BadByte { at });
        }
        if starts_reserved(text.as_bytes()) {
            return Err(LabelNameFault::Reserved);
        }
        let text = String::from_str(alloc, text).map_err(|_| LabelNameFault::NoMemory)?;
        Ok(LabelName { text })
    }

    /// The name as text.
    pub fn as_str(&self) -> &str
        ensures text { result.now ≡ self.now }
        ensures grammar { IsLabelName self.now }
    {
        self.text.as_str()
    }

    /// An equal name, in memory of its own.
    ///
    /// Refusal 6 [`NoMemory`], and no other.
    pub fn copy(&self) -> Result<LabelName, NoMemory>
        ensures { IfOk result (λ name. name ≡ self.now) }
    {
        let text = self.text.clone()?;
        Ok(LabelName { text })
    }
}
