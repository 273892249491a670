//! All that is seen of a registry.
use crate::helpers::{Over, Plain, values};
use expo_text::Scrape;
use ledger_core::{GaugeTotals, HistTotals};
use metric_desc::Desc;
use metric_names::LabelValue;
use metric_registry::Registry;
use registry_state::{ChildFault, FamilyId, Handle, Journal, RegisterFault, ScrapeFault};
use snapshot_scan::{Scanner, Snapshot};
use std::alloc::Global;
use std::sync::Wait;
use std::test::Fail;

/// A registry, shared or not, as it is used and looked at. To look at it takes no memory.
pub(crate) trait Looked {
    /// Registers a family.
    fn register(&mut self, desc: Desc) -> Result<FamilyId, RegisterFault>;

    /// The child of these label values.
    fn child(&mut self, family: FamilyId, values: &[LabelValue]) -> Result<Handle, ChildFault>;

    /// Makes a scrape.
    fn scrape(&mut self) -> Result<Scrape, ScrapeFault>;

    /// The family of this name.
    fn family_named(&self, name: &str) -> Option<FamilyId>;

    /// Its journal, unless that is behind a lock.
    fn entries(&self) -> Option<&Journal<1, 1, 1, 1>>;
}

impl Looked for Plain {
    fn register(&mut self, desc: Desc) -> Result<FamilyId, RegisterFault> {
        Plain::register(self, desc)
    }

    fn child(&mut self, family: FamilyId, values: &[LabelValue]) -> Result<Handle, ChildFault> {
        Plain::child(self, family, values)
    }

    fn scrape(&mut self) -> Result<Scrape, ScrapeFault> {
        Plain::scrape(self)
    }

    fn family_named(&self, name: &str) -> Option<FamilyId> {
        self.family(name)
    }

    fn entries(&self) -> Option<&Journal<1, 1, 1, 1>> {
        Some(self.journal())
    }
}

impl Looked for Over<Scanner<'_, 1, 1, 1, 1>> {
    fn register(&mut self, desc: Desc) -> Result<FamilyId, RegisterFault> {
        Over::<Scanner<'_, 1, 1, 1, 1>>::register(self, desc)
    }

    fn child(&mut self, family: FamilyId, values: &[LabelValue]) -> Result<Handle, ChildFault> {
        Over::<Scanner<'_, 1, 1, 1, 1>>::child(self, family, values)
    }

    fn scrape(&mut self) -> Result<Scrape, ScrapeFault> {
        Over::<Scanner<'_, 1, 1, 1, 1>>::scrape(self)
    }

    fn family_named(&self, name: &str) -> Option<FamilyId> {
        self.family(name)
    }

    fn entries(&self) -> Option<&Journal<1, 1, 1, 1>> {
        Some(self.journal())
    }
}

/// A registry behind its lock, and the runtime that waits for it.
#[derive(Drop)]
pub(crate) struct Behind<'a, 'b, T: Wait> {
    pub(crate) rt: &'a T,
    pub(crate) registry: &'a Registry<'b, 1, 1, 1, 1>,
}

impl<T: Wait> Looked for Behind<'_, '_, T> {
    fn register(&mut self, desc: Desc) -> Result<FamilyId, RegisterFault> {
        self.registry.register(self.rt, desc)
    }

    fn child(&mut self, family: FamilyId, values: &[LabelValue]) -> Result<Handle, ChildFault> {
        self.registry.child(self.rt, family, values)
    }

    fn scrape(&mut self) -> Result<Scrape, ScrapeFault> {
        self.registry.scrape(self.rt)
    }

    fn family_named(&self, name: &str) -> Option<FamilyId> {
        self.registry.family(self.rt, name)
    }

    fn entries(&self) -> Option<&Journal<1, 1, 1, 1>> {
        None
    }
}

/// A scrape that is kept, whole.
#[derive(Clone, Copy, Debug, PartialEq, Eq)]
pub(crate) struct Moment {
    pub(crate) lists: u64,
    pub(crate) counter: u64,
    pub(crate) hist: HistTotals,
    pub(crate) gauge: GaugeTotals,
}

/// What is seen of a registry: the numbers of its families `a` and `b`, those of their children that were made, how many entries
/// its journal has, how many scrapes it keeps, and the first two of them.
#[derive(Clone, Copy, Debug, PartialEq, Eq)]
pub(crate) struct Seen {
    pub(crate) families: [Option<usize>; 2],
    pub(crate) children: [Option<Handle>; 2],
    pub(crate) entries: usize,
    pub(crate) kept: usize,
    pub(crate) scrapes: [Option<Moment>; 2],
}

/// What it takes to look at a registry: the label values of its children, how many of them were made, that of `a` first, and room
/// for a scrape.
#[derive(Drop)]
pub(crate) struct Look {
    pub(crate) values: Vec<LabelValue>,
    pub(crate) made: usize,
    out: Snapshot<1, 1, 1, 1>,
}

impl Look {
    /// The children have the label value `x`, and none was made.
    pub(crate) fn new(alloc: Global) -> Result<Look, Fail> {
        Ok(Look {
            values: values(alloc, &["x"])?,
            made: 0,
            out: Snapshot::new(alloc)?,
        })
    }

    /// The kept scrape of this number.
    fn moment(&mut self, journal: &Journal<1, 1, 1, 1>, number: usize) -> Option<Moment> {
        let kept = journal.kept();
        if number >= kept.len() {
            return None;
        }
        kept.read(number, &mut self.out);
        Some(Moment {
            lists: self.out.vector()[0],
            counter: self.out.counter(0),
            hist: self.out.hist(0),
            gauge: self.out.gauge_totals(0),
        })
    }

    /// The number of the family of this name, and its child, where that is one of those that were made.
    fn family<L: Looked>(
        &self,
        registry: &mut L,
        name: &str,
        child: usize,
    ) -> (Option<usize>, Option<Handle>) {
        let Some(family) = registry.family_named(name) else {
            return (None, None);
        };
        if child >= self.made {
            return (Some(family.number()), None);
        }
        let found = registry.child(family, &self.values);
        (Some(family.number()), found.ok())
    }

    /// What is seen of a registry.
    pub(crate) fn at<L: Looked>(&mut self, registry: &mut L) -> Seen {
        let (a, child_of_a) = self.family(registry, "a", 0);
        let (b, child_of_b) = self.family(registry, "b", 1);
        let mut seen = Seen {
            families: [a, b],
            children: [child_of_a, child_of_b],
            entries: 0,
            kept: 0,
            scrapes: [None, None],
        };
        if let Some(journal) = registry.entries() {
            seen.entries = journal.len();
            seen.kept = journal.kept().len();
            seen.scrapes = [self.moment(journal, 0), self.moment(journal, 1)];
        }
        seen
    }
}
