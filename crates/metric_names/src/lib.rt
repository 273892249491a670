//! The names and texts of a metric: [`MetricName`], [`LabelName`], [`HelpText`] and [`LabelValue`]; and how a byte of them is
//! written in the text format, [`escape`].
//!
//! A value of one of these types is in its grammar, which the `read` call tested once.
//! The grammars are those of the Prometheus documentation, "Data model" and "Exposition formats".
#![tactic(auto)]

mod escaping;
mod help_text;
mod label_name;
mod label_value;
mod metric_name;
mod no_memory;
mod spelling;

pub use escaping::escape;
pub use help_text::{HelpText, HelpTextFault};
pub use label_name::{LabelName, LabelNameFault};
pub use label_value::{LabelValue, LabelValueFault};
pub use metric_name::{MetricName, MetricNameFault};
pub use no_memory::NoMemory;
