//! The handles that C holds: two words each, zeros where it holds nothing. C takes no struct with type parameters, so each is
//! one of its own.
ghost use Rattle.std.specs.Prelude.{◌≡◌, ◌≢◌, IsNone, IsSome, MatchOption, Some};
ghost use Rattle.std.specs.declared.option.Option.{Option};
ghost use Rattle.std.specs.Coded.{coded_option};
ghost use denote.Param.{number};
ghost use Rattle.dirgwako_c.specs.Held.{holds};
ghost use Rattle.dirgwako_c.specs.declared.geometry.TheConstants.{WORKERS, COUNTERS, HISTOGRAMS, GAUGES};
ghost use Rattle.dirgwako_c.specs.declared.held.HeldRecorder.{HeldRecorder};
ghost use Rattle.dirgwako_c.specs.declared.held.HeldRegistry.{HeldRegistry};
ghost use Rattle.dirgwako_c.specs.declared.held.HeldScraper.{HeldScraper};
ghost use Rattle.dirgwako_c.specs.contracts.held.HeldRecorder.{the_row as recorder_row};
ghost use Rattle.dirgwako_c.specs.contracts.held.HeldRegistry.{the_row as registry_row};
ghost use Rattle.dirgwako_c.specs.contracts.held.HeldScraper.{the_row as scraper_row};

use crate::geometry::{COUNTERS, GAUGES, HISTOGRAMS, WORKERS};
use crate::handle::Handle;
use crate::held::{HeldRecorder, HeldRegistry, HeldScraper};
use std::alloc::Global;
use std::marker::Model;
use std::mem::replace;

/// What C holds of a registry.
#[repr(C)]
pub struct RegistryHandle {
    at: *mut u8,
    live: u64,
    pub ghost value: { Option (HeldRegistry WORKERS COUNTERS HISTOGRAMS GAUGES) } by { coded_option (registry_row (number WORKERS)
        (number COUNTERS) (number HISTOGRAMS) (number GAUGES)).coded },
    ghost empty: { live ≡ 0 → IsNone value },
    ghost full: { live ≢ 0 → IsSome value },
}

impl Model for RegistryHandle {
    ghost also_owns = { λ h. holds (registry_row (number WORKERS) (number COUNTERS) (number HISTOGRAMS) (number GAUGES)) h.at
        h.value };
}

// It may go to another thread, as what it holds may.
unsafe impl Send for RegistryHandle {}

type Registry = HeldRegistry<WORKERS, COUNTERS, HISTOGRAMS, GAUGES>;

impl RegistryHandle {
    fn of(handle: Handle<Registry>) -> RegistryHandle
        ensures { result.value ≡ handle.value }
    {
        let Handle { at, live } = handle;
        RegistryHandle {
            at: at as *mut u8,
            live,
        }
    }

    fn into_handle(self) -> Handle<Registry>
        ensures { result.value ≡ self.value }
    {
        let RegistryHandle { at, live } = self;
        Handle {
            at: at as *mut Registry,
            live,
        }
    }

    /// Takes it out.
    pub fn take(&mut self, alloc: Global) -> Option<Box<Registry>>
        ensures taken { MatchOption result (IsNone self.old.value) (λ b. self.old.value ≡ Some b.value) }
        ensures left { IsNone self.new.value }
    {
        let was = replace(self, RegistryHandle::of(Handle::empty()));
        was.into_handle().into_option(alloc)
    }

    /// Puts one in, in the place of what was there.
    pub fn put(&mut self, alloc: Global, b: Box<Registry>)
        ensures { self.new.value ≡ Some b.value }
    {
        let was = replace(self, RegistryHandle::of(Handle::full(b)));
        let _old = was.into_handle().into_option(alloc);
    }
}

/// What C holds of a recorder.
#[repr(C)]
pub struct RecorderHandle {
    at: *mut u8,
    live: u64,
    pub ghost value: { Option (HeldRecorder WORKERS COUNTERS HISTOGRAMS GAUGES) } by { coded_option (recorder_row (number WORKERS)
        (number COUNTERS) (number HISTOGRAMS) (number GAUGES)).coded },
    ghost empty: { live ≡ 0 → IsNone value },
    ghost full: { live ≢ 0 → IsSome value },
}

impl Model for RecorderHandle {
    ghost also_owns = { λ h. holds (recorder_row (number WORKERS) (number COUNTERS) (number HISTOGRAMS) (number GAUGES)) h.at
        h.value };
}

// It may go to another thread, as what it holds may.
unsafe impl Send for RecorderHandle {}

type Recorder = HeldRecorder<WORKERS, COUNTERS, HISTOGRAMS, GAUGES>;

impl RecorderHandle {
    fn of(handle: Handle<Recorder>) -> RecorderHandle
        ensures { result.value ≡ handle.value }
    {
        let Handle { at, live } = handle;
        RecorderHandle {
            at: at as *mut u8,
            live,
        }
    }

    fn into_handle(self) -> Handle<Recorder>
        ensures { result.value ≡ self.value }
    {
        let RecorderHandle { at, live } = self;
        Handle {
            at: at as *mut Recorder,
            live,
        }
    }

    /// Takes it out.
    pub fn take(&mut self, alloc: Global) -> Option<Box<Recorder>>
        ensures taken { MatchOption result (IsNone self.old.value) (λ b. self.old.value ≡ Some b.value) }
        ensures left { IsNone self.new.value }
    {
        let was = replace(self, RecorderHandle::of(Handle::empty()));
        was.into_handle().into_option(alloc)
    }

    /// Puts one in, in the place of what was there.
    pub fn put(&mut self, alloc: Global, b: Box<Recorder>)
        ensures { self.new.value ≡ Some b.value }
    {
        let was = replace(self, RecorderHandle::of(Handle::full(b)));
        let _old = was.into_handle().into_option(alloc);
    }
}

/// What C holds of a scraper.
#[repr(C)]
pub struct ScraperHandle {
    at: *mut u8,
    live: u64,
    pub ghost value: { Option (HeldScraper WORKERS COUNTERS HISTOGRAMS GAUGES) } by { coded_option (scraper_row (number WORKERS)
        (number COUNTERS) (number HISTOGRAMS) (number GAUGES)).coded },
    ghost empty: { live ≡ 0 → IsNone value },
    ghost full: { live ≢ 0 → IsSome value },
}

impl Model for ScraperHandle {
    ghost also_owns = { λ h. holds (scraper_row (number WORKERS) (number COUNTERS) (number HISTOGRAMS) (number GAUGES)) h.at
        h.value };
}

// It may go to another thread, as what it holds may.
unsafe impl Send for ScraperHandle {}

type Scraper = HeldScraper<WORKERS, COUNTERS, HISTOGRAMS, GAUGES>;

impl ScraperHandle {
    fn of(handle: Handle<Scraper>) -> ScraperHandle
        ensures { result.value ≡ handle.value }
    {
        let Handle { at, live } = handle;
        ScraperHandle {
            at: at as *mut u8,
            live,
        }
    }

    fn into_handle(self) -> Handle<Scraper>
        ensures { result.value ≡ self.value }
    {
        let ScraperHandle { at, live } = self;
        Handle {
            at: at as *mut Scraper,
            live,
        }
    }

    /// Takes it out.
    pub fn take(&mut self, alloc: Global) -> Option<Box<Scraper>>
        ensures taken { MatchOption result (IsNone self.old.value) (λ b. self.old.value ≡ Some b.value) }
        ensures left { IsNone self.new.value }
    {
        let was = replace(self, ScraperHandle::of(Handle::empty()));
        was.into_handle().into_option(alloc)
    }

    /// Puts one in, in the place of what was there.
    pub fn put(&mut self, alloc: Global, b: Box<Scraper>)
        ensures { self.new.value ≡ Some b.value }
    {
        let was = replace(self, ScraperHandle::of(Handle::full(b)));
        let _old = was.into_handle().into_option(alloc);
    }
}
