//! What a family of metrics is: its kind, its name, its help, the names of its labels, of a histogram its bounds, and by how
//! many decimal digits a text shifts its numbers.
#![tactic(auto)]

mod desc;
mod digits;
mod histogram_fault;
mod kind;
mod labels;
mod names;

pub use desc::Desc;
pub use digits::{MAX_DIGITS, TooManyDigits};
pub use histogram_fault::HistogramFault;
pub use kind::Kind;
pub use labels::{LabelsFault, MAX_LABELS};
pub use names::clashes;
