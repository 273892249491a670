//! What the server counts of itself.
ghost use Rattle.std.specs.Prelude.{◌≡◌, ◌<◌, [], ◌∷◌, codes, length, IfOk, IfSome, All};
ghost use Rattle.registry_state.specs.Calls.{IsGiven, WasMade, changed};
ghost use Rattle.registry_state.specs.Journal.{Registered};
ghost use Rattle.registry_state.specs.Replay.{nothing, IsNew};
ghost use Rattle.registry_state.specs.declared.handle.Handle.TheVariants as handle;
ghost use Rattle.metrics_program.specs.Counted.{AreSix, list_for, replies_in};
ghost use Rattle.metrics_program.specs.Families.{AreRegistered, bytes_family, counter_for, replies_family};
ghost use Rattle.metrics_program.specs.Services.{IsSameBoard};

use crate::board::{Registry, Snapshot};
use ledger_core::{Counter, Histogram, Op};
use metric_desc::Desc;
use metric_names::{HelpText, LabelName, LabelValue, MetricName, NoMemory};
use registry_state::{FamilyId, Handle};
use scrape_http::{Served, Status};
use std::alloc::Global;

/// The handles of the server's own metrics: the counters of `scrape_requests_total`, one for each status, and the histogram
/// `scrape_reply_bytes`.
#[derive(Clone, Copy)]
pub(crate) struct Metrics {
    pub(crate) success: Counter,
    pub(crate) bad_request: Counter,
    pub(crate) not_found: Counter,
    pub(crate) method_not_allowed: Counter,
    pub(crate) too_large: Counter,
    pub(crate) unavailable: Counter,
    pub(crate) bytes: Histogram,
}

/// The label of replies. There is none for want of memory alone; so below.
fn code_label(alloc: Global) -> Option<Vec<LabelName>>
    ensures { IfSome result (λ labels. labels.items ≡ codes "code" ∷ []) }
{
    let code = LabelName::read(alloc, "code").ok()?;
    Vec::from_array(alloc, [code]).ok()
}

/// The family of replies, by their code.
fn replies_desc(alloc: Global) -> Option<Desc>
    ensures { IfSome result (λ desc. desc ≡ replies_family) }
{
    let name = MetricName::read(alloc, "scrape_requests_total").ok()?;
    let help = HelpText::read(alloc, "Replies by status.").ok()?;
    Desc::counter(name, help, code_label(alloc)?).ok()
}

/// The family of the bytes of replies.
fn bytes_desc(alloc: Global) -> Option<Desc>
    ensures { IfSome result (λ desc. desc ≡ bytes_family) }
{
    let name = MetricName::read(alloc, "scrape_reply_bytes").ok()?;
    let help = HelpText::read(alloc, "Bytes of each reply.").ok()?;
    Desc::histogram(name, help, Vec::new(alloc), &[100, 1_000, 10_000]).ok()
}

/// The counter of replies of this code, of which there is none yet.
fn counter_of(
    alloc: Global,
    registry: &mut Registry<'_>,
    family: FamilyId,
    code: &str,
) -> Option<Counter>
    requires new { All (λ it. IsNew it (code.now ∷ [])) registry.old.state.families }
    ensures made { IfSome result (λ counter. WasMade 64 8 16 registry.old registry.new family.number (code.now ∷ [])
        (handle.Counter counter)) }
    ensures inside { IfSome result (λ counter. counter.slot < 64) }
{
    let value = [LabelValue::read(alloc, code).ok()?];
    match registry.child(family, &value) {
        Ok(Handle::Counter(counter)) => Some(counter),
        _ => None,
    }
}

/// Registers the family of the bytes of replies, and gives the histogram of its one child.
fn histogram_of(alloc: Global, registry: &mut Registry<'_>) -> Option<Histogram>
    ensures given { IfSome result (λ histogram. IsGiven 64 8 16 (changed (Registered bytes_family) registry.old) registry.new
        (length registry.old.state.families) [] (handle.Histogram histogram)) }
    ensures same { IfSome result (λ _. IsSameBoard registry.old registry.new) }
{
    let Ok(family) = registry.register(bytes_desc(alloc)?) else {
        return None;
    };
    match registry.child(family, &[]) {
        Ok(Handle::Histogram(histogram)) => Some(histogram),
        _ => None,
    }
}

/// Registers both families, and makes their children.
fn registered(alloc: Global, registry: &mut Registry<'_>) -> Option<Metrics>
    requires nothing { registry.old.state ≡ nothing }
    ensures six { IfSome result AreSix }
    ensures registered { IfSome result (AreRegistered registry.new.id registry.new.state.families) }
    ensures same { IfSome result (λ _. IsSameBoard registry.old registry.new) }
{
    let Ok(family) = registry.register(replies_desc(alloc)?) else {
        return None;
    };
    Some(Metrics {
        success: counter_of(alloc, registry, family, "200")?,
        bad_request: counter_of(alloc, registry, family, "400")?,
        not_found: counter_of(alloc, registry, family, "404")?,
        method_not_allowed: counter_of(alloc, registry, family, "405")?,
        too_large: counter_of(alloc, registry, family, "431")?,
        unavailable: counter_of(alloc, registry, family, "503")?,
        bytes: histogram_of(alloc, registry)?,
    })
}

impl Metrics {
    /// Registers both families of a registry that has none, and makes their children.
    pub(crate) fn new(alloc: Global, registry: &mut Registry<'_>) -> Result<Metrics, NoMemory>
        requires nothing { registry.old.state ≡ nothing }
        ensures six { IfOk result AreSix }
        ensures registered { IfOk result (AreRegistered registry.new.id registry.new.state.families) }
        ensures same { IfOk result (λ _. IsSameBoard registry.old registry.new) }
    {
        match registered(alloc, registry) {
            Some(metrics) => Ok(metrics),
            None => Err(NoMemory),
        }
    }

    /// The counter of the replies of this status.
    fn counter(&self, status: Status) -> Counter
        ensures { result ≡ counter_for self.now status }
    {
        match status {
            Status::Success => self.success,
            Status::BadRequest => self.bad_request,
            Status::NotFound => self.not_found,
            Status::MethodNotAllowed => self.method_not_allowed,
            Status::TooLarge => self.too_large,
            Status::Unavailable => self.unavailable,
        }
    }

    /// The one list that counts a reply: its status, and its bytes.
    pub(crate) fn list(&self, served: Served) -> [Op; 2]
        ensures { result ≡ list_for self.now served }
    {
        let value = served.sent as u64;
        [
            Op::Inc {
                counter: self.counter(served.status).slot,
                by: 1,
            },
            Op::Observe {
                hist: self.bytes.slot,
                place: self.bytes.bounds.place(value),
                value,
            },
        ]
    }

    /// How many replies there were, of all statuses.
    pub(crate) fn replies(&self, settled: &Snapshot) -> u64
        requires { AreSix self.now }
        ensures { result ≡ replies_in self.now settled.now.totals }
    {
        settled.counter(self.success.slot)
            + settled.counter(self.bad_request.slot)
            + settled.counter(self.not_found.slot)
            + settled.counter(self.method_not_allowed.slot)
            + settled.counter(self.too_large.slot)
            + settled.counter(self.unavailable.slot)
    }
}
