//! What refusals are told as, with their numbers.
use super::naming::ask_counter;
use crate::asserts::{need, same};
use dirgwako::{
    ChildRefusal, FamilyRefusal, Kind, LabelNameFault, MetricNameFault, MetricRefusal, NoBoard,
    OpenFault, PageChildFault, PageCrew, PageCrewFault, PrintFault, Registrar, TextFault,
};
use std::fmt::Display;
use std::process::Abort;

/// It is told so.
fn is_told(rt: &(impl Abort + AllocGlobal), fault: &impl Display, expected: &str) {
    let told = need(rt, format!(in rt.alloc(); "{fault}"));
    same(rt, told.as_str(), expected);
}

/// A refusal is told with its number, its place and its kind; so are those that no test can reach.
#[test]
fn refusals_tell_their_numbers(rt: HostRuntime) {
    let rt = &rt;
    let byte = FamilyRefusal::Name(MetricNameFault::BadByte { at: 2 });
    let at_two = "2: the byte at 2 cannot stand there in a metric name";
    is_told(rt, &MetricRefusal::Family(byte), at_two);
    let (at, fault) = (1, LabelNameFault::Reserved);
    let label = FamilyRefusal::Label { at, fault };
    let reserved = "4: label 1: a label name does not begin with two underscores";
    is_told(rt, &label, reserved);
    let kind = Kind::Histogram;
    let full = ChildRefusal::Child(PageChildFault::Full { kind, slots: 8 });
    is_told(
        rt,
        &full,
        "22: all 8 Histogram slots of each board are used",
    );
    is_told(
        rt,
        &NoBoard::Geometry,
        "13: 1 to 32 workers, at most 256 counters, 32 histograms, 64 gauges and 3 scrapers",
    );
    is_told(
        rt,
        &PageCrewFault::Board(NoBoard::NoMemory),
        "6: out of memory",
    );
    is_told(rt, &OpenFault::Opened, "32: the crew was opened before");
    is_told(rt, &TextFault::Contended, "14: the scan was given up");
    let (none, given_up) = (TextFault::NoMemory, TextFault::Contended);
    same(rt, (none.number(), given_up.number()), (6, 14));
    same(rt, PrintFault::Text(given_up).number(), Some(14));
    same(rt, PrintFault::Output.number(), None);
}

/// A refusal tells the name that was asked for, but none of over 128 bytes.
#[test]
fn refusals_tell_names(rt: HostRuntime) {
    let (rt, alloc) = (&rt, rt.alloc());
    let (crew, _recorders) = need(rt, PageCrew::<1, 1, 0, 0>::new(alloc, 7, 1));
    let mut metrics = Registrar::page(alloc, crew);
    let Err(refused) = ask_counter(&mut metrics, "a-b") else {
        rt.panic("a name that is none")
    };
    let told = "2: the byte at 1 cannot stand there in a metric name (a-b)";
    is_told(rt, &refused, told);
    let family = need(rt, metrics.gauge_family("g", "", &["l"]));
    let Err(refused) = metrics.gauge_of(&family, &["x"]) else {
        rt.panic("a gauge of a board without gauges")
    };
    is_told(
        rt,
        &refused,
        "22: all 0 Gauge slots of each board are used (g)",
    );
    let long = need(rt, "x".repeat(alloc, 129));
    let Err(refused) = ask_counter(&mut metrics, long.as_str()) else {
        rt.panic("a name that is too long")
    };
    same(rt, (refused.number(), refused.name.as_str()), (3, ""));
}
