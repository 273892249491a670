//! Metrics are registered by plain texts.
ghost use Rattle.std.specs.Prelude.{◌≡◌, [], Result, IfErr, IfOk};
ghost use Rattle.metric_desc.specs.declared.kind.Kind.TheVariants as Kinds;
ghost use Rattle.registry_state.specs.declared.handle.Handle.TheVariants as Handles;
ghost use Rattle.dirgwako.specs.Registering.{AsksFamily, AsksChild, AsksMetric, family_of};
ghost use Rattle.dirgwako.specs.Refused.{TellsName};
ghost use Rattle.dirgwako.specs.Texts.{texts_of};

use crate::asking::{ask_family, ask_handle};
use crate::family::{CounterFamily, GaugeFamily, HistogramFamily, Shape};
use crate::fault::{ChildRefusal, FamilyRefusal, MetricRefusal};
use crate::paged::{BehindPage, OnPage};
use crate::refused::Refused;
use crate::registers::{Behind, Registers};
use ledger_core::{Counter, Gauge, Histogram};
use metric_registry::Registry;
use page_crew::{PageCrew, PageRegistry};
use registry_state::Handle;
use std::alloc::Global;
use std::sync::Wait;

/// Registers metrics by plain texts. [`Registrar::new`] makes one of a registry, [`Registrar::page`] and
/// [`Registrar::shared_page`] one of a page.
///
/// All numbers are whole. A name tells their unit, `job_bytes`, or the unit in which a text shows them, shifted: counted in
/// microseconds and shown in seconds, `answer_seconds` ([`Registrar::histogram_seconds`]).
#[derive(Drop)]
pub struct Registrar<S> {
    /// What registers them.
    pub at: S,
    pub(crate) alloc: Global,
}

impl<
    'a,
    'b,
    R: Wait + AllocGlobal,
    const N: usize,
    const C: usize,
    const H: usize,
    const G: usize,
> Registrar<Behind<'a, 'b, R, N, C, H, G>> {
    /// That of a registry.
    pub fn new(
        rt: &'a R,
        registry: &'a Registry<'b, N, C, H, G>,
    ) -> Registrar<Behind<'a, 'b, R, N, C, H, G>>
        ensures { result.at.registry ≡ registry.entry }
    {
        Registrar {
            at: Behind { rt, registry },
            alloc: rt.alloc(),
        }
    }
}

impl<const N: usize, const C: usize, const H: usize, const G: usize> Registrar<OnPage<N, C, H, G>> {
    /// That of a page, whose families go into the group 0. `registrar.at.group` is the group of the families to come, and may be
    /// changed at any time.
    pub fn page(alloc: Global, crew: PageCrew<N, C, H, G>) -> Registrar<OnPage<N, C, H, G>>
        ensures { result.at ≡ record { crew = crew.entry; group = 0 } }
    {
        Registrar {
            at: OnPage { crew, group: 0 },
            alloc,
        }
    }
}

impl<
    'a,
    R: Wait + AllocGlobal,
    const N: usize,
    const C: usize,
    const H: usize,
    const G: usize,
> Registrar<BehindPage<'a, R, N, C, H, G>> {
    /// That of a page behind its lock, whose families go into the group 0. `registrar.at.group` is the group of the families to
    /// come, and may be changed at any time.
    pub fn shared_page(
        rt: &'a R,
        registry: &'a PageRegistry<N, C, H, G>,
    ) -> Registrar<BehindPage<'a, R, N, C, H, G>>
        ensures registry { result.at.registry ≡ registry.entry }
        ensures group { result.at.group ≡ 0 }
    {
        Registrar {
            at: BehindPage {
                rt,
                registry,
                group: 0,
            },
            alloc: rt.alloc(),
        }
    }
}

impl<S: Registers> Registrar<S> {
    /// That of whatever registers families.
    pub fn of(alloc: Global, at: S) -> Registrar<S>
        ensures { result.at ≡ at }
    {
        Registrar { at, alloc }
    }

    /// What registers them, given back whole.
    pub fn into_inner(self) -> S
        ensures { result ≡ self.at }
    {
        let Registrar { at, alloc: _ } = self;
        at
    }

    /// A family of counters with labels. [`Registrar::counter_of`] gives its children.
    ///
    /// # Errors
    ///
    /// The first that is so: [`FamilyRefusal::Name`], 1, 3, 2, 6; [`FamilyRefusal::Help`], 3, 5, 6; [`FamilyRefusal::Label`] with
    /// the label's place, 1, 3, 2, 4, 6; [`FamilyRefusal::Labels`], 9, 7; [`FamilyRefusal::Register`], 19, 23, 6. Nothing has
    /// changed then.
    pub fn counter_family(
        &mut self,
        name: &str,
        help: &str,
        labels: &[&str],
    ) -> Result<CounterFamily, Refused<FamilyRefusal>>
        ensures made { IfOk result
            (λ family. AsksFamily S.registered self.old.at self.new.at (family_of Kinds.Counter name.now help.now labels.now [])
            (Result.Ok family.id)) }
        ensures registry { IfOk result (λ family. family.registry ≡ S.id_in self.new.at) }
        ensures names { IfOk result (λ family. TellsName name.now family.name.bytes) }
        ensures fault { IfErr result
            (λ refused. AsksFamily S.registered self.old.at self.new.at (family_of Kinds.Counter name.now help.now labels.now [])
            (Result.Err refused.fault)) }
        ensures named { IfErr result (λ refused. TellsName name.now refused.name.bytes) }
    {
        let shape = Shape::Counter;
        let id = ask_family(&mut self.at, self.alloc, shape, name, help, labels, 0)?;
        Ok(CounterFamily::of(self.at.id(), id, name))
    }

    /// The counter of these label values, which is made where there is none. A thread that counts is given it, and asks no more.
    ///
    /// # Errors
    ///
    /// The first that is so: [`ChildRefusal::OtherRegistry`], 20, the family is of a registry of another id;
    /// [`ChildRefusal::Value`] with the value's place, 3, 6; [`ChildRefusal::Child`], 21, of a page 46, 22, 6. Nothing has
    /// changed then; but of a page, after 6, there may be a board more, and a part of the family there, without children, which
    /// no text shows. Of two registries of one id: [`ChildRefusal::Child`], 20, and [`ChildRefusal::OtherKind`], 28, after which
    /// a child of another kind may have been made.
    pub fn counter_of(
        &mut self,
        family: &CounterFamily,
        values: &[&str],
    ) -> Result<Counter, Refused<ChildRefusal>>
        ensures given { IfOk result (λ handle. AsksChild S.id_in S.gave self.old.at self.new.at family.now.registry family.now.id
            (texts_of values.now) Kinds.Counter (Result.Ok (Handles.Counter handle))) }
        ensures fault { IfErr result (λ refused. AsksChild S.id_in S.gave self.old.at self.new.at family.now.registry
            family.now.id
            (texts_of values.now) Kinds.Counter (Result.Err refused.fault)) }
        ensures named { IfErr result (λ refused. refused.name ≡ family.now.name) }
    {
        match ask_handle(&mut self.at, self.alloc, family.registry, family.id, values) {
            Ok(Handle::Counter(handle)) => Ok(handle),
            Ok(_) => Err(Refused {
                fault: ChildRefusal::OtherKind,
                name: family.name,
            }),
            Err(fault) => Err(Refused {
                fault,
                name: family.name,
            }),
        }
    }

    /// A counter without labels.
    ///
    /// # Errors
    ///
    /// [`MetricRefusal::Family`], as [`Registrar::counter_family`] of no labels; then [`MetricRefusal::Child`], 22 or 6: the
    /// family stands, without a child.
    pub fn counter(&mut self, name: &str, help: &str) -> Result<Counter, Refused<MetricRefusal>>
        ensures made { IfOk result
            (λ handle. AsksMetric S.id_in S.registered S.gave self.old.at self.new.at
            (family_of Kinds.Counter name.now help.now [] []) (Result.Ok (Handles.Counter handle))) }
        ensures fault { IfErr result
            (λ refused. AsksMetric S.id_in S.registered S.gave self.old.at self.new.at
            (family_of Kinds.Counter name.now help.now [] []) (Result.Err refused.fault)) }
        ensures named { IfErr result (λ refused. TellsName name.now refused.name.bytes) }
    {
        let family = self.counter_family(name, help, &[])?;
        match self.counter_of(&family, &[]) {
            Ok(handle) => Ok(handle),
            Err(refused) => Err(refused.of_metric(family.id)),
        }
    }

    /// A family of gauges with labels. [`Registrar::gauge_of`] gives its children.
    ///
    /// # Errors
    ///
    /// The first that is so: [`FamilyRefusal::Name`], 1, 3, 2, 6; [`FamilyRefusal::Help`], 3, 5, 6; [`FamilyRefusal::Label`] with
    /// the label's place, 1, 3, 2, 4, 6; [`FamilyRefusal::Labels`], 9, 7; [`FamilyRefusal::Register`], 19, 23, 6. Nothing has
    /// changed then.
    pub fn gauge_family(
        &mut self,
        name: &str,
        help: &str,
        labels: &[&str],
    ) -> Result<GaugeFamily, Refused<FamilyRefusal>>
        ensures made { IfOk result
            (λ family. AsksFamily S.registered self.old.at self.new.at (family_of Kinds.Gauge name.now help.now labels.now [])
            (Result.Ok family.id)) }
        ensures registry { IfOk result (λ family. family.registry ≡ S.id_in self.new.at) }
        ensures names { IfOk result (λ family. TellsName name.now family.name.bytes) }
        ensures fault { IfErr result
            (λ refused. AsksFamily S.registered self.old.at self.new.at (family_of Kinds.Gauge name.now help.now labels.now [])
            (Result.Err refused.fault)) }
        ensures named { IfErr result (λ refused. TellsName name.now refused.name.bytes) }
    {
        let shape = Shape::Gauge;
        let id = ask_family(&mut self.at, self.alloc, shape, name, help, labels, 0)?;
        Ok(GaugeFamily::of(self.at.id(), id, name))
    }

    /// The gauge of these label values, which is made where there is none. A thread that counts is given it, and asks no more.
    ///
    /// # Errors
    ///
    /// The first that is so: [`ChildRefusal::OtherRegistry`], 20, the family is of a registry of another id;
    /// [`ChildRefusal::Value`] with the value's place, 3, 6; [`ChildRefusal::Child`], 21, of a page 46, 22, 6. Nothing has
    /// changed then; but of a page, after 6, there may be a board more, and a part of the family there, without children, which
    /// no text shows. Of two registries of one id: [`ChildRefusal::Child`], 20, and [`ChildRefusal::OtherKind`], 28, after which
    /// a child of another kind may have been made.
    pub fn gauge_of(
        &mut self,
        family: &GaugeFamily,
        values: &[&str],
    ) -> Result<Gauge, Refused<ChildRefusal>>
        ensures given { IfOk result (λ handle. AsksChild S.id_in S.gave self.old.at self.new.at family.now.registry family.now.id
            (texts_of values.now) Kinds.Gauge (Result.Ok (Handles.Gauge handle))) }
        ensures fault { IfErr result (λ refused. AsksChild S.id_in S.gave self.old.at self.new.at family.now.registry
            family.now.id
            (texts_of values.now) Kinds.Gauge (Result.Err refused.fault)) }
        ensures named { IfErr result (λ refused. refused.name ≡ family.now.name) }
    {
        match ask_handle(&mut self.at, self.alloc, family.registry, family.id, values) {
            Ok(Handle::Gauge(handle)) => Ok(handle),
            Ok(_) => Err(Refused {
                fault: ChildRefusal::OtherKind,
                name: family.name,
            }),
            Err(fault) => Err(Refused {
                fault,
                name: family.name,
            }),
        }
    }

    /// A gauge without labels.
    ///
    /// # Errors
    ///
    /// [`MetricRefusal::Family`], as [`Registrar::gauge_family`] of no labels; then [`MetricRefusal::Child`], 22 or 6: the family
    /// stands, without a child.
    pub fn gauge(&mut self, name: &str, help: &str) -> Result<Gauge, Refused<MetricRefusal>>
        ensures made { IfOk result
            (λ handle. AsksMetric S.id_in S.registered S.gave self.old.at self.new.at
            (family_of Kinds.Gauge name.now help.now [] []) (Result.Ok (Handles.Gauge handle))) }
        ensures fault { IfErr result
            (λ refused. AsksMetric S.id_in S.registered S.gave self.old.at self.new.at
            (family_of Kinds.Gauge name.now help.now [] []) (Result.Err refused.fault)) }
        ensures named { IfErr result (λ refused. TellsName name.now refused.name.bytes) }
    {
        let family = self.gauge_family(name, help, &[])?;
        match self.gauge_of(&family, &[]) {
            Ok(handle) => Ok(handle),
            Err(refused) => Err(refused.of_metric(family.id)),
        }
    }

    /// A family of histograms with labels with these bounds: at most 24, rising, none over 2^48 - 1. [`Registrar::histogram_of`]
    /// gives its children.
    ///
    /// # Errors
    ///
    /// The first that is so: [`FamilyRefusal::Name`], 1, 3, 2, 6; [`FamilyRefusal::Help`], 3, 5, 6; [`FamilyRefusal::Label`] with
    /// the label's place, 1, 3, 2, 4, 6; [`FamilyRefusal::Histogram`], 9, 7, 8, 10; [`FamilyRefusal::Register`], 19, 23, 6.
    /// Nothing has changed then.
    pub fn histogram_family(
        &mut self,
        name: &str,
        help: &str,
        labels: &[&str],
        bounds: &[u64],
    ) -> Result<HistogramFamily, Refused<FamilyRefusal>>
        ensures made { IfOk result
            (λ family. AsksFamily S.registered self.old.at self.new.at
            (family_of Kinds.Histogram name.now help.now labels.now bounds.now) (Result.Ok family.id)) }
        ensures registry { IfOk result (λ family. family.registry ≡ S.id_in self.new.at) }
        ensures names { IfOk result (λ family. TellsName name.now family.name.bytes) }
        ensures fault { IfErr result
            (λ refused. AsksFamily S.registered self.old.at self.new.at
            (family_of Kinds.Histogram name.now help.now labels.now bounds.now) (Result.Err refused.fault)) }
        ensures named { IfErr result (λ refused. TellsName name.now refused.name.bytes) }
    {
        let shape = Shape::Histogram(bounds);
        let id = ask_family(&mut self.at, self.alloc, shape, name, help, labels, 0)?;
        Ok(HistogramFamily::of(self.at.id(), id, name))
    }

    /// The histogram of these label values, which is made where there is none. A thread that counts is given it, and asks no
    /// more.
    ///
    /// # Errors
    ///
    /// The first that is so: [`ChildRefusal::OtherRegistry`], 20, the family is of a registry of another id;
    /// [`ChildRefusal::Value`] with the value's place, 3, 6; [`ChildRefusal::Child`], 21, of a page 46, 22, 6. Nothing has
    /// changed then; but of a page, after 6, there may be a board more, and a part of the family there, without children, which
    /// no text shows. Of two registries of one id: [`ChildRefusal::Child`], 20, and [`ChildRefusal::OtherKind`], 28, after which
    /// a child of another kind may have been made.
    pub fn histogram_of(
        &mut self,
        family: &HistogramFamily,
        values: &[&str],
    ) -> Result<Histogram, Refused<ChildRefusal>>
        ensures given { IfOk result (λ handle. AsksChild S.id_in S.gave self.old.at self.new.at family.now.registry family.now.id
            (texts_of values.now) Kinds.Histogram (Result.Ok (Handles.Histogram handle))) }
        ensures fault { IfErr result (λ refused. AsksChild S.id_in S.gave self.old.at self.new.at family.now.registry
            family.now.id
            (texts_of values.now) Kinds.Histogram (Result.Err refused.fault)) }
        ensures named { IfErr result (λ refused. refused.name ≡ family.now.name) }
    {
        match ask_handle(&mut self.at, self.alloc, family.registry, family.id, values) {
            Ok(Handle::Histogram(handle)) => Ok(handle),
            Ok(_) => Err(Refused {
                fault: ChildRefusal::OtherKind,
                name: family.name,
            }),
            Err(fault) => Err(Refused {
                fault,
                name: family.name,
            }),
        }
    }

    /// A histogram without labels with these bounds: at most 24, rising, none over 2^48 - 1.
    ///
    /// # Errors
    ///
    /// [`MetricRefusal::Family`], as [`Registrar::histogram_family`] of no labels; then [`MetricRefusal::Child`], 22 or 6: the
    /// family stands, without a child.
    pub fn histogram(
        &mut self,
        name: &str,
        help: &str,
        bounds: &[u64],
    ) -> Result<Histogram, Refused<MetricRefusal>>
        ensures made { IfOk result
            (λ handle. AsksMetric S.id_in S.registered S.gave self.old.at self.new.at
            (family_of Kinds.Histogram name.now help.now [] bounds.now) (Result.Ok (Handles.Histogram handle))) }
        ensures fault { IfErr result
            (λ refused. AsksMetric S.id_in S.registered S.gave self.old.at self.new.at
            (family_of Kinds.Histogram name.now help.now [] bounds.now) (Result.Err refused.fault)) }
        ensures named { IfErr result (λ refused. TellsName name.now refused.name.bytes) }
    {
        let family = self.histogram_family(name, help, &[], bounds)?;
        match self.histogram_of(&family, &[]) {
            Ok(handle) => Ok(handle),
            Err(refused) => Err(refused.of_metric(family.id)),
        }
    }
}
