//! The tour of docs/REGISTRY.md: families, children, operations, a scrape and its text.
use crate::asserts::{need, same};
use expo_text::render;
use ledger_core::{Counter, Histogram, Op};
use metric_desc::Desc;
use metric_names::{HelpText, LabelName, LabelValue, MetricName};
use registry_state::{FamilyId, Handle, RegistryState};
use snapshot_scan::PlainSource;
use std::alloc::Global;
use std::process::Abort;

/// A registry over a source of two counters, a histogram and a gauge.
type Service = RegistryState<PlainSource<2, 1, 1>, 1, 2, 1, 1>;

/// Counters by a label.
fn requests(rt: &impl Abort, alloc: Global) -> Desc {
    let name = need(rt, MetricName::read(alloc, "http_requests_total"));
    let mut labels = Vec::new(alloc);
    need(rt, labels.push(need(rt, LabelName::read(alloc, "code"))));
    need(rt, Desc::counter(name, HelpText::empty(alloc), labels))
}

/// Histograms with bounds and a help.
fn sizes(rt: &impl Abort, alloc: Global) -> Desc {
    let name = need(rt, MetricName::read(alloc, "request_size_bytes"));
    let help = need(rt, HelpText::read(alloc, "The size of a request."));
    need(rt, Desc::histogram(name, help, Vec::new(alloc), &[10, 20]))
}

/// The counter of this code.
fn coded(
    rt: &impl Abort,
    service: &mut Service,
    alloc: Global,
    family: FamilyId,
    code: &str,
) -> Counter {
    let mut values = Vec::new(alloc);
    need(rt, values.push(need(rt, LabelValue::read(alloc, code))));
    match need(rt, service.child(family, &values)) {
        Handle::Counter(counter) => counter,
        _ => rt.panic("no counter"),
    }
}

/// The one histogram of a family without labels.
fn sized(rt: &impl Abort, service: &mut Service, family: FamilyId) -> Histogram {
    match need(rt, service.child(family, &[])) {
        Handle::Histogram(histogram) => histogram,
        _ => rt.panic("no histogram"),
    }
}

/// Registers, makes and counts.
fn serve(rt: &impl Abort, service: &mut Service, alloc: Global) {
    let size = need(rt, service.register(sizes(rt, alloc)));
    let request = need(rt, service.register(requests(rt, alloc)));
    let failed = coded(rt, service, alloc, request, "500");
    let served = coded(rt, service, alloc, request, "200");
    let bytes = sized(rt, service, size);
    need(
        rt,
        service.apply(&[
            Op::Inc {
                counter: served.slot,
                by: 3,
            },
            Op::Inc {
                counter: failed.slot,
                by: 1,
            },
        ]),
    );
    for value in [10, 15, 30] {
        need(
            rt,
            service.apply(&[Op::Observe {
                hist: bytes.slot,
                place: bytes.bounds.place(value),
                value,
            }]),
        );
    }
}

/// What the scrape is in the end.
const SHOWN: &str = "# TYPE http_requests_total counter\n\
     http_requests_total{code=\"200\"} 3\n\
     http_requests_total{code=\"500\"} 1\n\
     # HELP request_size_bytes The size of a request.\n\
     # TYPE request_size_bytes histogram\n\
     request_size_bytes_bucket{le=\"10\"} 1\n\
     request_size_bytes_bucket{le=\"20\"} 2\n\
     request_size_bytes_bucket{le=\"+Inf\"} 3\n\
     request_size_bytes_sum 55\n\
     request_size_bytes_count 3\n";

/// A registry that keeps 64 scrapes.
fn new_service(rt: &impl Abort, alloc: Global) -> Service {
    let source = need(rt, PlainSource::new(alloc));
    match Service::new(alloc, source, 7, 64) {
        Ok(service) => service,
        Err(_) => rt.panic("no registry"),
    }
}

#[test]
fn tour(rt: HostRuntime) {
    let rt = &rt;
    let mut service = new_service(rt, rt.alloc());
    serve(rt, &mut service, rt.alloc());
    let text = need(rt, render(&need(rt, service.scrape())));
    same(rt, text.as_slice(), SHOWN.as_bytes());
}
