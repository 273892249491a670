ghost use Rattle.std.specs.Prelude.{◌≡◌, true, IfOk, IfErr, IsUtf8};
ghost use Rattle.metric_names.specs.LabelValue.{IsLabelValueFault, number_of};

use crate::escaping::is_verbatim;
use crate::no_memory::NoMemory;
use std::alloc::Global;
use std::marker::Model;
use thiserror::Error;

/// The most bytes of a label value.
pub const LIMIT: usize = 256;

/// Why a text is no label value.
#[derive(Clone, Copy, Debug, PartialEq, Eq, Error)]
pub enum LabelValueFault {
    /// Refusal 3: the text has more than `limit` bytes.
    #[error("a label value has at most {limit} bytes")]
    TooLong { limit: usize },
    /// Refusal 6: a growth was refused.
    #[error("out of memory")]
    NoMemory,
}

impl LabelValueFault {
    /// The refusal's number.
    pub fn number(&self) -> u8
        ensures { result ≡ number_of self.now }
    {
        match self {
            LabelValueFault::TooLong { .. } => 3,
            LabelValueFault::NoMemory => 6,
        }
    }
}

/// The value of a label: any text of at most 256 bytes. It may be empty.
///
/// Contracts see it as its bytes. Source: Prometheus documentation, "Data model", "Metric labels".
#[derive(Debug, Drop)]
pub struct LabelValue {
    text: String,
    // whether the text format has it as it is
    verbatim: bool,
}

impl Model for LabelValue {
    ghost use Rattle.std.specs.Prelude.{ℕ, List};
    ghost use Rattle.std.specs.String.{string_bytes};
    ghost use Rattle.std.specs.Prelude.{◌≡◌, true};
    ghost use Rattle.metric_names.specs.LabelValue.{IsLabelValue};
    ghost use Rattle.metric_names.specs.Escapes.{EscLabel};

    ghost Value = { List ℕ };

    ghost view = { λ v. string_bytes v.text };

    ghost invariant = { λ v. IsLabelValue (string_bytes v.text)
        × (v.verbatim ≡ true → EscLabel (string_bytes v.text) (string_bytes v.text)) };
}

impl LabelValue {
    ghost use Rattle.metric_names.specs.LabelValue.{IsLabelValue};
    ghost use Rattle.metric_names.specs.Escapes.{EscLabel, IsWrittenAlone};

    /// Reads a label value. Takes memory for its bytes, and none where it is empty.
    ///
    /// Refusals, in the order in which they are tried: 3 `TooLong`, 6 `NoMemory`.
    pub fn read(alloc: Global, text: &str) -> Result<LabelValue, LabelValueFault>
        ensures text { IfOk result (λ value. value ≡ text.now) }
        ensures grammar { IfOk result IsLabelValue }
        ensures fault { IfErr result (IsLabelValueFault text.now) }
    {
        if text.len() > LIMIT {
            return Err(LabelValueFault::TooLong { limit: LIMIT });
        }
        let verbatim = is_verbatim(text.as_bytes(), true);
        let text = String::from_str(alloc, text).map_err(|_| LabelValueFault::NoMemory)?;
        Ok(LabelValue { text, verbatim })
    }

    /// The value as text.
    pub fn as_str(&self) -> &str
        ensures text { result.now ≡ self.now }
        ensures grammar { IsLabelValue self.now }
        ensures utf8 { IsUtf8 self.now }
        ensures written { IsWrittenAlone EscLabel self.now }
    {
        self.text.as_str()
    }

    /// Whether the text format has the value as it is, since no byte of it is escaped.
    pub fn is_verbatim(&self) -> bool
        ensures { result ≡ true → EscLabel self.now self.now }
    {
        self.verbatim
    }

    /// An equal value, in memory of its own.
    ///
    /// Refusal 6 [`NoMemory`], and no other.
    pub fn copy(&self) -> Result<LabelValue, NoMemory>
        ensures { IfOk result (λ value. value ≡ self.now) }
    {
        let text = self.text.clone()?;
        let verbatim = self.verbatim;
        Ok(LabelValue { text, verbatim })
    }
}
