//! Why a script's line is refused.
ghost use Rattle.std.specs.Prelude.{◌≡◌};
ghost use Rattle.metrics_program.specs.LineFault.{number_of};

use ledger_core::OpFault;
use metric_desc::{HistogramFault, LabelsFault};
use metric_names::{HelpTextFault, LabelNameFault, LabelValueFault, MetricNameFault, NoMemory};
use registry_state::{BadWindow, ChildFault, RegisterFault, ScrapeFault};
use std::alloc::{AllocError, AllocFailed};
use worker_pool::PoolFault;

/// Why a script's line is refused.
#[derive(Clone, Copy)]
pub enum LineFault {
    /// Refusal 27: the line is not in the script's language.
    BadLine,
    /// Refusals 1, 2, 3 and 6 of a metric's name.
    Name(MetricNameFault),
    /// Refusals 1 to 4 and 6 of a label's name.
    Label(LabelNameFault),
    /// Refusals 3, 5 and 6 of a help.
    Help(HelpTextFault),
    /// Refusals 7 and 9 of the labels of a counter or a gauge.
    Labels(LabelsFault),
    /// Refusals 7 to 10 of the labels and bounds of a histogram.
    Histogram(HistogramFault),
    /// Refusals 3 and 6 of a label's value.
    Value(LabelValueFault),
    /// Refusals 19, 23 and 6 of a family.
    Register(RegisterFault),
    /// Refusal 20: no family of that name.
    NoSuchFamily,
    /// Refusals 21, 22 and 6 of a child.
    Child(ChildFault),
    /// Refusal 28: no child of that number, or one of another kind.
    NoSuchChild,
    /// Refusals 12, 15, 30 and 6 of a `go`.
    Pool(PoolFault),
    /// Refusals 6 and 14 of a scrape.
    Scrape(ScrapeFault),
    /// Refusal 31: no count of scrapes that may be kept.
    Window(BadWindow),
    /// Refusal 6: a growth was refused.
    NoMemory,
}

impl LineFault {
    /// The refusal's number.
    pub fn number(&self) -> u8
        ensures { result ≡ number_of self.now }
    {
        match self {
            LineFault::BadLine => 27,
            LineFault::Name(fault) => fault.number(),
            LineFault::Label(fault) => fault.number(),
            LineFault::Help(fault) => fault.number(),
            LineFault::Labels(fault) => fault.number(),
            LineFault::Histogram(fault) => fault.number(),
            LineFault::Value(fault) => fault.number(),
            LineFault::Register(fault) => fault.number(),
            LineFault::NoSuchFamily => 20,
            LineFault::Child(fault) => fault.number(),
            LineFault::NoSuchChild => 28,
            LineFault::Pool(fault) => fault.number(),
            LineFault::Scrape(fault) => fault.number(),
            LineFault::Window(fault) => fault.number(),
            LineFault::NoMemory => 6,
        }
    }
}

impl From<NoMemory> for LineFault {
    ghost use Rattle.std.specs.Prelude.{◌≡◌};
    ghost use Rattle.metrics_program.specs.declared.line_fault.LineFault.{LineFault};

    ghost from_gives = { λ _ fault. fault ≡ LineFault.NoMemory };

    fn from(_error: NoMemory) -> LineFault {
        LineFault::NoMemory
    }
}

impl From<AllocError> for LineFault {
    ghost use Rattle.std.specs.Prelude.{◌≡◌};
    ghost use Rattle.metrics_program.specs.declared.line_fault.LineFault.{LineFault};

    ghost from_gives = { λ _ fault. fault ≡ LineFault.NoMemory };

    fn from(_error: AllocError) -> LineFault {
        LineFault::NoMemory
    }
}

impl<T: Drop> From<AllocFailed<T>> for LineFault {
    ghost use Rattle.std.specs.Prelude.{◌≡◌};
    ghost use Rattle.metrics_program.specs.declared.line_fault.LineFault.{LineFault};

    ghost from_gives = { λ _ fault. fault ≡ LineFault.NoMemory };

    fn from(_error: AllocFailed<T>) -> LineFault {
        LineFault::NoMemory
    }
}
