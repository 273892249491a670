//! A registry at its end.
ghost use Rattle.std.specs.Prelude.{IfOk, IfErr};
ghost use Rattle.registry_state.specs.Kept.{IsKept};
ghost use Rattle.snapshot_scan.specs.Scanners.{recorded_in};
ghost use Rattle.dirgwako.specs.Printing.{IsText, IsTextFault, IsLastText, IsLastFault};

use crate::printing::{PrintFault, TextFault, print_text, text_from};
use expo_text::Scrape;
use metric_registry::Registry;
use registry_state::RegistryState;
use scrape_http::{NoScrape, ScrapeFrom};
use scrape_server::MakesScrapes;
use snapshot_scan::Scanner;

/// What makes scrapes, as a source of them that is owned.
#[derive(Drop)]
pub(crate) struct Owned<X: MakesScrapes> {
    pub(crate) state: X,
}

impl<X: MakesScrapes> ScrapeFrom for Owned<X> {
    ghost again = { X.again };

    ghost gave = { λ before after answer. X.made before.state after.state answer };

    fn scrape(&mut self) -> Result<Scrape, NoScrape> {
        self.state.scrape()
    }

    fn again(&self) -> usize {
        self.state.again()
    }
}

/// The text of a scrape of a registry that nobody shares, and the registry after it ([`RegistryState`], as it is behind a lock;
/// or what else makes scrapes). A scrape that was given up is asked for up to [`MakesScrapes::again`] times more.
///
/// # Errors
///
/// 6 [`TextFault::NoMemory`]; 14 [`TextFault::Contended`]. The registry comes back with either, and can be asked again.
pub fn text_of<X: MakesScrapes + Drop>(state: X) -> Result<(Vec<u8>, X), (TextFault, X)>
    ensures text { IfOk result (λ made. IsText X.made X.again state made.1 made.0.items) }
    ensures fault { IfErr result (λ refused. IsTextFault X.made X.again state refused.1 refused.0) }
{
    let mut owned = Owned { state };
    let made = text_from(&mut owned);
    let Owned { state } = owned;
    match made {
        Ok(text) => Ok((text, state)),
        Err(fault) => Err((fault, state)),
    }
}

/// [`text_of`] a registry that no thread shares any more: the text of a last scrape, and what stood behind the lock, its journal,
/// the scrapes that it keeps, and its families. What stood there before the last scrape no clause says.
///
/// # Errors
///
/// 6 [`TextFault::NoMemory`]; 14 [`TextFault::Contended`], while recorders still count. What stood behind the lock comes with
/// either, to be asked again by [`text_of`].
pub fn last_text<'a, const N: usize, const C: usize, const H: usize, const G: usize>(
    registry: Registry<'a, N, C, H, G>,
) -> Result<
    (Vec<u8>, RegistryState<Scanner<'a, N, C, H, G>, N, C, H, G>),
    (
        TextFault,
        RegistryState<Scanner<'a, N, C, H, G>, N, C, H, G>,
    ),
>
    ensures text { IfOk result (λ last. IsLastText last.0.items last.1) }
    ensures fault { IfErr result (λ refused. IsLastFault refused.0 refused.1) }
    ensures kept { IfErr result (λ refused. IsKept N C H G (recorded_in refused.1.source) refused.1.journal refused.1.window
        refused.1.state) }
{
    // A look into the journal tells the proof what is kept.
    match text_of(registry.into_state()) {
        Ok((text, state)) => {
            let _ = state.journal();
            Ok((text, state))
        }
        Err((fault, state)) => {
            let _ = state.journal();
            Err((fault, state))
        }
    }
}

/// Prints [`last_text`] on standard output.
///
/// # Errors
///
/// [`PrintFault::Text`], 6 and 14; [`PrintFault::Output`].
pub fn print_last<R: Print, const N: usize, const C: usize, const H: usize, const G: usize>(
    rt: &R,
    registry: Registry<'_, N, C, H, G>,
) -> Result<(), PrintFault> {
    print_of(rt, registry.into_state())
}

/// Prints [`text_of`] a registry or a page that nobody shares on standard output, as a service does at its end: that of a page
/// behind its lock is `registry.into_crew()`.
///
/// # Errors
///
/// [`PrintFault::Text`], 6 and 14; [`PrintFault::Output`].
pub fn print_of<R: Print, X: MakesScrapes + Drop>(rt: &R, state: X) -> Result<(), PrintFault> {
    match text_of(state) {
        Ok((text, _state)) => print_text(rt, &text),
        Err((fault, _state)) => Err(PrintFault::Text(fault)),
    }
}
