//! The text of a scrape, by itself and printed.
ghost use Rattle.std.specs.Prelude.{◌≡◌, IfErr, IfOk, Ok, Err};
ghost use Rattle.scrape_http.specs.declared.source.NoScrape.TheVariants as none;
ghost use Rattle.dirgwako.specs.Printing.{IsText, IsTextFault, ShowsText, text_fault_number, print_fault_number};

use crate::shared::{FromShared, Shared};
use expo_text::render;
use scrape_http::{NoScrape, ScrapeFrom};
use scrape_server::scrape_again;
use std::sync::Wait;
use thiserror::Error;

/// Why there is no text.
#[derive(Clone, Copy, Debug, PartialEq, Eq, Error)]
pub enum TextFault {
    /// Refusal 6: there is no memory, for the scrape or for its text.
    #[error("6: out of memory")]
    NoMemory,
    /// Refusal 14: the scan was given up, and so was each that was asked for after it.
    #[error("14: the scan was given up")]
    Contended,
}

impl TextFault {
    /// The refusal's number.
    pub fn number(&self) -> u8
        ensures { result ≡ text_fault_number self.now }
    {
        match self {
            TextFault::NoMemory => 6,
            TextFault::Contended => 14,
        }
    }
}

/// Why a scrape is not printed, or not whole.
#[derive(Clone, Copy, Debug, PartialEq, Eq, Error)]
pub enum PrintFault {
    /// There is no text.
    #[error(transparent)]
    Text(TextFault),
    /// Standard output failed.
    #[error("standard output failed")]
    Output,
}

impl PrintFault {
    /// The refusal's number; of standard output's failure there is none.
    pub fn number(&self) -> Option<u8>
        ensures { result ≡ print_fault_number self.now }
    {
        match self {
            PrintFault::Text(fault) => Some(fault.number()),
            PrintFault::Output => None,
        }
    }
}

/// The text of a source's scrape.
pub(crate) fn text_from<S: ScrapeFrom>(source: &mut S) -> Result<Vec<u8>, TextFault>
    ensures text { IfOk result (λ bytes. IsText S.gave S.again source.old source.new bytes.items) }
    ensures fault { IfErr result (IsTextFault S.gave S.again source.old source.new) }
{
    match scrape_again(source) {
        Ok(scrape) => match render(&scrape) {
            Ok(text) => Ok(text),
            Err(_) => Err(TextFault::NoMemory),
        },
        Err(NoScrape::NoMemory) => Err(TextFault::NoMemory),
        Err(NoScrape::Contended) => Err(TextFault::Contended),
    }
}

/// Scrapes what is shared, a registry or a page behind its lock, and gives the text of the scrape, in the text exposition format
/// 0.0.4: [`render`]. A scrape of a registry that was given up is asked for up to three times more; a page asks each board again
/// by itself.
///
/// # Errors
///
/// 6 [`TextFault::NoMemory`]; 14 [`TextFault::Contended`].
pub fn scrape_text<R: Wait, X: Shared>(rt: &R, registry: &X) -> Result<Vec<u8>, TextFault>
    ensures shows { IfOk result (λ bytes. ShowsText X.shows bytes.items) }
{
    text_from(&mut FromShared {
        rt,
        shared: registry,
    })
}

/// Prints [`scrape_text`] on standard output.
///
/// # Errors
///
/// [`PrintFault::Text`], 6 and 14; [`PrintFault::Output`].
pub fn print_scrape<R: Wait + Print, X: Shared>(rt: &R, registry: &X) -> Result<(), PrintFault> {
    let text = match scrape_text(rt, registry) {
        Ok(text) => text,
        Err(fault) => return Err(PrintFault::Text(fault)),
    };
    print_text(rt, &text)
}

/// Prints a text on standard output.
pub(crate) fn print_text<R: Print>(rt: &R, text: &[u8]) -> Result<(), PrintFault> {
    match rt.write_all(text) {
        Ok(()) => Ok(()),
        Err(_) => Err(PrintFault::Output),
    }
}
