ghost use Rattle.std.specs.Prelude.{◌≡◌, [], true, slice_index, IfOk, IfErr, IsUtf8};
ghost use Rattle.metric_names.specs.HelpText.{IsHelpTextFault, is_blank, number_of};

use crate::escaping::is_verbatim;
use crate::no_memory::NoMemory;
use std::alloc::Global;
use std::marker::Model;
use thiserror::Error;

/// The most bytes of a help text.
pub const LIMIT: usize = 1024;

/// Why a text is no help text.
#[derive(Clone, Copy, Debug, PartialEq, Eq, Error)]
pub enum HelpTextFault {
    /// Refusal 3: the text has more than `limit` bytes.
    #[error("a help text has at most {limit} bytes")]
    TooLong { limit: usize },
    /// Refusal 5: the text begins or ends with a blank or a tab.
    #[error("a help text neither begins nor ends with a blank or a tab")]
    EdgeBlank,
    /// Refusal 6: a growth was refused.
    #[error("out of memory")]
    NoMemory,
}

impl HelpTextFault {
    /// The refusal's number.
    pub fn number(&self) -> u8
        ensures { result ≡ number_of self.now }
    {
        match self {
            HelpTextFault::TooLong { .. } => 3,
            HelpTextFault::EdgeBlank => 5,
            HelpTextFault::NoMemory => 6,
        }
    }
}

/// The help of a metric: any text of at most 1,024 bytes that neither begins nor ends with a blank
/// or a tab. It may be empty.
///
/// Contracts see it as its bytes. Source: Prometheus documentation, "Exposition formats".
#[derive(Debug, Drop)]
pub struct HelpText {
    text: String,
    // whether the text format has it as it is
    verbatim: bool,
}

impl Model for HelpText {
    ghost use Rattle.std.specs.Prelude.{ℕ, List};
    ghost use Rattle.std.specs.String.{string_bytes};
    ghost use Rattle.std.specs.Prelude.{◌≡◌, true};
    ghost use Rattle.metric_names.specs.HelpText.{IsHelpText};
    ghost use Rattle.metric_names.specs.Escapes.{EscHelp};

    ghost Value = { List ℕ };

    ghost view = { λ h. string_bytes h.text };

    ghost invariant = { λ h. IsHelpText (string_bytes h.text)
        × (h.verbatim ≡ true → EscHelp (string_bytes h.text) (string_bytes h.text)) };
}

fn is_blank_at(bytes: &[u8], place: usize) -> bool
    ensures { result ≡ is_blank (slice_index bytes.now place) }
{
    matches!(bytes.get(place), Some(b' ' | b'\t'))
}

impl HelpText {
    ghost use Rattle.metric_names.specs.HelpText.{IsHelpText};
    ghost use Rattle.metric_names.specs.Escapes.{EscHelp, IsWrittenAlone};

    /// The empty help. Takes no memory.
    pub fn empty(alloc: Global) -> HelpText
        ensures { result ≡ [] }
    {
        HelpText {
            text: String::new(alloc),
            verbatim: true,
        }
    }

    /// Reads a help text. Takes memory for its bytes, and none where it is empty.
    ///
    /// Refusals, in the order in which they are tried: 3 `TooLong`, 5 `EdgeBlank`, 6 `NoMemory`.
    pub fn read(alloc: Global, text: &str) -> Result<HelpText, HelpTextFault>
        ensures text { IfOk result (λ help. help ≡ text.now) }
        ensures grammar { IfOk result IsHelpText }
        ensures fault { IfErr result (IsHelpTextFault text.now) }
    {
        if text.len() > LIMIT {
            return Err(HelpTextFault::TooLong { limit: LIMIT });
        }
        let bytes = text.as_bytes();
        if is_blank_at(bytes, 0) || is_blank_at(bytes, bytes.len().saturating_sub(1)) {
            return Err(HelpTextFault::EdgeBlank);
        }
        let verbatim = is_verbatim(bytes, false);
        let text = String::from_str(alloc, text).map_err(|_| HelpTextFault::NoMemory)?;
        Ok(HelpText { text, verbatim })
    }

    /// The help as text. In the text format no other help is written as this one is.
    ///
    /// Source: Prometheus documentation, "Exposition formats", "Text format details".
    pub fn as_str(&self) -> &str
        ensures text { result.now ≡ self.now }
        ensures grammar { IsHelpText self.now }
        ensures utf8 { IsUtf8 self.now }
        ensures written { IsWrittenAlone EscHelp self.now }
    {
        self.text.as_str()
    }

    /// Whether the text format has the help as it is, since no byte of it is escaped.
    pub fn is_verbatim(&self) -> bool
        ensures { result ≡ true → EscHelp self.now self.now }
    {
        self.verbatim
    }

    /// An equal help, in memory of its own.
    ///
    /// Refusal 6 [`NoMemory`], and no other.
    pub fn copy(&self) -> Result<HelpText, NoMemory>
        ensures { IfOk result (λ help. help ≡ self.now) }
    {
        let text = self.text.clone()?;
        let verbatim = self.verbatim;
        Ok(HelpText { text, verbatim })
    }
}
