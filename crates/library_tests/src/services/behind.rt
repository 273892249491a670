//! A page behind its lock, by one thread: what no clause tells of a page that others share.
use super::naming::{ask_child, ask_counter, child, counter, counters};
use crate::asserts::{need, same, there};
use dirgwako::{
    BadWindow, ChildRefusal, Counter, FamilyRefusal, Kind, MetricRefusal, NoBoard, PageChildFault,
    PageCrew, PageRecorder, PageRegistry, RegisterFault, Registrar, scrape_text,
};
use std::alloc::Global;
use std::process::Abort;
use std::sync::Wait;

/// The id of the first board of the page of id 6.
const FIRST: u64 = 6 * 128;

/// A page over boards of three counters behind its lock.
type Pages = PageRegistry<1, 3, 0, 0>;

/// One, and its one recorder.
fn locked(rt: &impl Abort, alloc: Global) -> (Pages, PageRecorder<1, 3, 0, 0>) {
    let (crew, mut recorders) = need(rt, PageCrew::new(alloc, 6, 64));
    (Pages::lock(crew), there(rt, recorders.pop()))
}

/// A scrape's text is this.
fn shows(rt: &(impl Wait + Abort), pages: &Pages, expected: &str) {
    let text = need(rt, scrape_text(rt, pages));
    same(rt, text.as_slice(), expected.as_bytes());
}

/// Families of two groups are on two boards, what was registered is found, and each scrape has what was counted last.
#[test]
fn groups_behind_a_lock(rt: HostRuntime) {
    let (rt, alloc) = (&rt, rt.alloc());
    let (pages, mut recorder) = locked(rt, alloc);
    same(rt, pages.add_board(rt), Ok(1));
    let mut metrics = Registrar::shared_page(rt, &pages);
    let a = counter(rt, &mut metrics, "a");
    metrics.at.group = 1;
    let b = counter(rt, &mut metrics, "b");
    let at = |registry: u64| Counter { registry, slot: 0 };
    same(rt, (a, b), (at(FIRST), at(FIRST + 1)));
    let number = |name: &str| pages.family(rt, name).map(|family| family.number());
    same(
        rt,
        (number("a"), number("b"), number("c")),
        (Some(0), Some(1), None),
    );
    shows(rt, &pages, "# TYPE a counter\na 0\n# TYPE b counter\nb 0\n");
    need(rt, recorder.inc(&a, 3));
    shows(rt, &pages, "# TYPE a counter\na 3\n# TYPE b counter\nb 0\n");
    need(rt, recorder.inc(&b, 4));
    shows(rt, &pages, "# TYPE a counter\na 3\n# TYPE b counter\nb 4\n");
}

/// How many scrapes each of two boards keeps.
fn kept(rt: &impl Abort, crew: &PageCrew<1, 3, 0, 0>) -> (usize, usize) {
    let boards = crew.page().boards();
    let of = |number: usize| there(rt, boards.get(number)).kept().len();
    (of(0), of(1))
}

/// A window of no scrape, and of over 1,024 (31); then each board keeps as many as it was told, also one that came later.
#[test]
fn a_window_behind_a_lock(rt: HostRuntime) {
    let (rt, alloc) = (&rt, rt.alloc());
    let (pages, _recorder) = locked(rt, alloc);
    for window in [0, 1_025] {
        same(rt, pages.set_window(rt, window), Err(BadWindow));
    }
    same(rt, pages.set_window(rt, 2), Ok(()));
    same(rt, pages.add_board(rt), Ok(1));
    for _scrape in 0..3usize {
        shows(rt, &pages, "");
    }
    let mut crew = pages.into_crew();
    same(rt, kept(rt, &crew), (2, 2));
    same(rt, crew.set_window(1), Ok(()));
    same(rt, kept(rt, &crew), (1, 1));
    same(rt, crew.set_window(0), Err(BadWindow));
    need(rt, crew.scrape());
    same(rt, kept(rt, &crew), (1, 1));
}

/// A name that is taken (19), a gauge where boards have none (22), and the 257th child of a family (46), which is on the last of
/// 86 boards.
#[test]
fn refused_behind_a_lock(rt: HostRuntime) {
    let (rt, alloc) = (&rt, rt.alloc());
    let (pages, _recorder) = locked(rt, alloc);
    let mut metrics = Registrar::shared_page(rt, &pages);
    let family = counters(rt, &mut metrics, "a", &["l"]);
    let clash = FamilyRefusal::Register(RegisterFault::Clash { with: 0 });
    let refused = ask_counter(&mut metrics, "a").err();
    let clash = MetricRefusal::Family(clash);
    same(rt, refused.map(|refused| refused.fault), Some(clash));
    let kind = Kind::Gauge;
    let full = ChildRefusal::Child(PageChildFault::Full { kind, slots: 0 });
    let gauges = need(rt, metrics.gauge_family("g", "", &[]));
    let refused = metrics.gauge_of(&gauges, &[]).err();
    same(rt, refused.map(|refused| refused.fault), Some(full));
    for length in 0..256usize {
        let value = need(rt, "x".repeat(alloc, length));
        child(rt, &mut metrics, &family, &[value.as_str()]);
    }
    let many = ChildRefusal::Child(PageChildFault::TooManyChildren);
    same(rt, ask_child(&mut metrics, &family, &["y"]), Err(many));
    let crew = pages.into_crew();
    same(rt, (crew.first(), crew.page().boards().len()), (FIRST, 86));
}

/// The 97th board (44).
#[test]
fn boards_behind_a_lock(rt: HostRuntime) {
    let (rt, alloc) = (&rt, rt.alloc());
    let (pages, _recorder) = locked(rt, alloc);
    for number in 1..96usize {
        same(rt, pages.add_board(rt), Ok(number));
    }
    same(rt, pages.add_board(rt), Err(NoBoard::TooManyBoards));
}
