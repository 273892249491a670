//! Families whose numbers are counted in one unit and shown in another, a power of ten as large.
ghost use Rattle.std.specs.Prelude.{◌≡◌, ◌≤◌, [], Result, IfErr, IfOk};
ghost use Rattle.metric_desc.specs.declared.kind.Kind.TheVariants as Kinds;
ghost use Rattle.registry_state.specs.declared.handle.Handle.TheVariants as Handles;
ghost use Rattle.dirgwako.specs.Refused.{TellsName};
ghost use Rattle.dirgwako.specs.Registering.{AsksFamily, AsksMetric, shifted_family_of};

use crate::asking::ask_family;
use crate::family::{CounterFamily, GaugeFamily, HistogramFamily, Shape};
use crate::fault::{FamilyRefusal, MetricRefusal};
use crate::refused::Refused;
use crate::registers::Registers;
use crate::registrar::Registrar;
use ledger_core::Histogram;

/// Microseconds are shown as seconds.
const SECONDS: u8 = 6;

impl<S: Registers> Registrar<S> {
    /// A family of counters with labels, whose numbers the text shows shifted by `digits` decimal digits, at most 9: by 6 digits
    /// 2250401 is shown as `2.250401`. [`Registrar::counter_of`] gives its children.
    ///
    /// # Errors
    ///
    /// Those of [`Registrar::counter_family`], in its order, and before those of the registry [`FamilyRefusal::Digits`], 43.
    /// Nothing has changed then.
    pub fn counter_family_shifted(
        &mut self,
        name: &str,
        help: &str,
        labels: &[&str],
        digits: u8,
    ) -> Result<CounterFamily, Refused<FamilyRefusal>>
        ensures made { IfOk result (λ family. AsksFamily S.registered self.old.at self.new.at
            (shifted_family_of Kinds.Counter name.now help.now labels.now [] digits) (Result.Ok family.id)) }
        ensures registry { IfOk result (λ family. family.registry ≡ S.id_in self.new.at) }
        ensures names { IfOk result (λ family. TellsName name.now family.name.bytes) }
        ensures few { IfOk result (λ _. digits ≤ 9) }
        ensures fault { IfErr result (λ refused. AsksFamily S.registered self.old.at self.new.at
            (shifted_family_of Kinds.Counter name.now help.now labels.now [] digits) (Result.Err refused.fault)) }
        ensures named { IfErr result (λ refused. TellsName name.now refused.name.bytes) }
    {
        let shape = Shape::Counter;
        let id = ask_family(&mut self.at, self.alloc, shape, name, help, labels, digits)?;
        Ok(CounterFamily::of(self.at.id(), id, name))
    }

    /// A family of gauges with labels, whose numbers the text shows shifted by `digits` decimal digits, at most 9: by 6 digits
    /// 2250401 is shown as `2.250401`. [`Registrar::gauge_of`] gives its children.
    ///
    /// # Errors
    ///
    /// Those of [`Registrar::gauge_family`], in its order, and before those of the registry [`FamilyRefusal::Digits`], 43.
    /// Nothing has changed then.
    pub fn gauge_family_shifted(
        &mut self,
        name: &str,
        help: &str,
        labels: &[&str],
        digits: u8,
    ) -> Result<GaugeFamily, Refused<FamilyRefusal>>
        ensures made { IfOk result (λ family. AsksFamily S.registered self.old.at self.new.at
            (shifted_family_of Kinds.Gauge name.now help.now labels.now [] digits) (Result.Ok family.id)) }
        ensures registry { IfOk result (λ family. family.registry ≡ S.id_in self.new.at) }
        ensures names { IfOk result (λ family. TellsName name.now family.name.bytes) }
        ensures few { IfOk result (λ _. digits ≤ 9) }
        ensures fault { IfErr result (λ refused. AsksFamily S.registered self.old.at self.new.at
            (shifted_family_of Kinds.Gauge name.now help.now labels.now [] digits) (Result.Err refused.fault)) }
        ensures named { IfErr result (λ refused. TellsName name.now refused.name.bytes) }
    {
        let shape = Shape::Gauge;
        let id = ask_family(&mut self.at, self.alloc, shape, name, help, labels, digits)?;
        Ok(GaugeFamily::of(self.at.id(), id, name))
    }

    /// A family of histograms with labels, whose bounds and sums the text shows shifted by `digits` decimal digits, at most 9.
    /// The bounds are of the unit of the numbers. [`Registrar::histogram_of`] gives its children.
    ///
    /// # Errors
    ///
    /// Those of [`Registrar::histogram_family`], in its order, and before those of the registry [`FamilyRefusal::Digits`], 43.
    /// Nothing has changed then.
    pub fn histogram_family_shifted(
        &mut self,
        name: &str,
        help: &str,
        labels: &[&str],
        bounds: &[u64],
        digits: u8,
    ) -> Result<HistogramFamily, Refused<FamilyRefusal>>
        ensures made { IfOk result (λ family. AsksFamily S.registered self.old.at self.new.at
            (shifted_family_of Kinds.Histogram name.now help.now labels.now bounds.now digits) (Result.Ok family.id)) }
        ensures registry { IfOk result (λ family. family.registry ≡ S.id_in self.new.at) }
        ensures names { IfOk result (λ family. TellsName name.now family.name.bytes) }
        ensures few { IfOk result (λ _. digits ≤ 9) }
        ensures fault { IfErr result (λ refused. AsksFamily S.registered self.old.at self.new.at
            (shifted_family_of Kinds.Histogram name.now help.now labels.now bounds.now digits) (Result.Err refused.fault)) }
        ensures named { IfErr result (λ refused. TellsName name.now refused.name.bytes) }
    {
        let shape = Shape::Histogram(bounds);
        let id = ask_family(&mut self.at, self.alloc, shape, name, help, labels, digits)?;
        Ok(HistogramFamily::of(self.at.id(), id, name))
    }

    /// A histogram without labels that is told microseconds and shown in seconds, with these bounds, in microseconds: at most 24,
    /// rising, none over 2^48 - 1, which is some nine years. [`seconds_default`](crate::seconds_default) has those that
    /// Prometheus' libraries have.
    ///
    /// # Errors
    ///
    /// Those of [`Registrar::histogram`].
    pub fn histogram_seconds(
        &mut self,
        name: &str,
        help: &str,
        bounds: &[u64],
    ) -> Result<Histogram, Refused<MetricRefusal>>
        ensures made { IfOk result
            (λ handle. AsksMetric S.id_in S.registered S.gave self.old.at self.new.at
            (shifted_family_of Kinds.Histogram name.now help.now [] bounds.now 6) (Result.Ok (Handles.Histogram handle))) }
        ensures fault { IfErr result
            (λ refused. AsksMetric S.id_in S.registered S.gave self.old.at self.new.at
            (shifted_family_of Kinds.Histogram name.now help.now [] bounds.now 6) (Result.Err refused.fault)) }
        ensures named { IfErr result (λ refused. TellsName name.now refused.name.bytes) }
    {
        let family = self.histogram_family_shifted(name, help, &[], bounds, SECONDS)?;
        match self.histogram_of(&family, &[]) {
            Ok(handle) => Ok(handle),
            Err(refused) => Err(refused.of_metric(family.id)),
        }
    }
}
