//! How many slots are used.
ghost use Rattle.std.specs.Prelude.{◌≡◌, ◌<◌, ◌-◌, ◌^◌};
ghost use Rattle.registry_state.specs.Held.{used_of, IsOneMore};

use metric_desc::Kind;

/// How many slots of each kind are used: the least ones are.
#[derive(Clone, Copy, Drop)]
pub(crate) struct Used {
    pub(crate) counters: usize,
    pub(crate) hists: usize,
    pub(crate) gauges: usize,
}

impl Used {
    /// No slot is used.
    pub(crate) const NONE: Used = Used {
        counters: 0,
        hists: 0,
        gauges: 0,
    };

    /// How many slots of a kind are used.
    pub(crate) fn of(self, kind: Kind) -> usize
        ensures { result ≡ used_of self.counters self.hists self.gauges kind }
    {
        match kind {
            Kind::Counter => self.counters,
            Kind::Histogram => self.hists,
            Kind::Gauge => self.gauges,
        }
    }

    /// One slot of a kind more is used.
    pub(crate) fn with_one_more(self, kind: Kind) -> Used
        requires { used_of self.counters self.hists self.gauges kind < 2 ^ 64 - 1 }
        ensures { IsOneMore kind (used_of self.counters self.hists self.gauges)
            (used_of result.counters result.hists result.gauges) }
    {
        let mut used = self;
        match kind {
            Kind::Counter => used.counters += 1,
            Kind::Histogram => used.hists += 1,
            Kind::Gauge => used.gauges += 1,
        }
        used
    }
}
