//! Registries of one thread, and what is registered.
use metric_desc::{Desc, Kind};
use metric_names::{HelpText, LabelName, LabelValue, MetricName};
use registry_state::RegistryState;
use snapshot_scan::PlainSource;
use std::alloc::Global;
use std::test::Fail;

/// A source of one thread, of a counter, a histogram and a gauge.
pub(crate) type OnePlain = PlainSource<1, 1, 1>;

/// A registry over a source of as many slots.
pub(crate) type Over<S> = RegistryState<S, 1, 1, 1, 1>;

/// A registry of one thread.
pub(crate) type Plain = Over<OnePlain>;

/// A descriptor of this kind and name, with these labels and no help. The bounds of a histogram are 10 and 20.
pub(crate) fn desc(alloc: Global, kind: Kind, name: &str, labels: &[&str]) -> Result<Desc, Fail> {
    let name = MetricName::read(alloc, name)?;
    let help = HelpText::empty(alloc);
    let mut names = Vec::new(alloc);
    for label in labels {
        names.push(LabelName::read(alloc, label)?)?;
    }
    Ok(match kind {
        Kind::Counter => Desc::counter(name, help, names)?,
        Kind::Histogram => Desc::histogram(name, help, names, &[10, 20])?,
        Kind::Gauge => Desc::gauge(name, help, names)?,
    })
}

/// Label values of these texts.
pub(crate) fn values(alloc: Global, texts: &[&str]) -> Result<Vec<LabelValue>, Fail> {
    let mut values = Vec::new(alloc);
    for text in texts {
        values.push(LabelValue::read(alloc, text)?)?;
    }
    Ok(values)
}
