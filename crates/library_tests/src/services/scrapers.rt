//! Scrapers of a page beside its owner: each shows what the owner shows, whatever it has missed meanwhile.
use super::naming::{ask_child, child, counter, counters};
use crate::asserts::{need, same, there};
use dirgwako::{
    Counter, OnPage, PageCrew, PageRecorder, PageRegistry, PageScraper, Registrar, render,
};
use std::process::Abort;
use std::thread::join;

/// A page over boards of two counters, for two threads.
type Two = PageCrew<2, 2, 0, 0>;

/// What registers on it.
type Names = Registrar<OnPage<2, 2, 0, 0>>;

/// What scrapes it.
type Scraper = PageScraper<2, 2, 0, 0>;

/// What counts on it.
type Counts = PageRecorder<2, 2, 0, 0>;

/// A scrape's text is this.
fn shows(rt: &impl Abort, scraper: &mut Scraper, expected: &str) {
    let text = need(rt, render(&need(rt, scraper.scrape())));
    same(rt, text.as_slice(), expected.as_bytes());
}

/// The text of the owner, and that of each scraper, is this.
fn all_show(rt: &impl Abort, names: &mut Names, scrapers: &mut [Scraper], expected: &str) {
    let text = need(rt, render(&need(rt, names.at.crew.scrape())));
    same(rt, text.as_slice(), expected.as_bytes());
    for place in 0..scrapers.len() {
        shows(rt, &mut scrapers[place], expected);
    }
}

/// Families and children on two boards, which two scrapers hear of, the second of them late.
#[test]
fn scrapers_beside_the_owner(rt: HostRuntime) {
    let (rt, alloc) = (&rt, rt.alloc());
    let (crew, mut recorders, mut scrapers) = need(rt, Two::with_scrapers(alloc, 8, 1, 2));
    same(rt, scrapers.len(), 2);
    let mut recorder = there(rt, recorders.pop());
    let mut names = Registrar::page(alloc, crew);
    all_show(rt, &mut names, &mut scrapers, "");
    let a = counters(rt, &mut names, "a", &["l"]);
    let x = child(rt, &mut names, &a, &["x"]);
    need(rt, recorder.inc(&x, 3));
    let one = "# TYPE a counter\na{l=\"x\"} 3\n";
    all_show(rt, &mut names, &mut scrapers, one);
    let y = child(rt, &mut names, &a, &["y"]);
    let z = child(rt, &mut names, &a, &["z"]);
    same(rt, (y.registry, z.registry), (1_024, 1_025));
    same(rt, child(rt, &mut names, &a, &["x"]).slot, 0);
    need(rt, recorder.inc(&y, 4));
    need(rt, recorder.inc(&z, 5));
    let three = "# TYPE a counter\na{l=\"x\"} 3\na{l=\"y\"} 4\na{l=\"z\"} 5\n";
    shows(rt, &mut scrapers[0], three);
    names.at.group = 1;
    let b = counter(rt, &mut names, "b");
    same(rt, b.registry, 1_025);
    same(rt, names.at.crew.add_board(), Ok(2));
    need(rt, recorder.inc(&b, 6));
    need(rt, recorder.inc(&x, 1));
    same(rt, ask_child(&mut names, &a, &[]).is_err(), true);
    let all = "# TYPE a counter\na{l=\"x\"} 4\na{l=\"y\"} 4\na{l=\"z\"} 5\n# TYPE b counter\nb 6\n";
    all_show(rt, &mut names, &mut scrapers, all);
    same(rt, scrapers[1].page().boards().len(), 3);
}

/// More than three scrapers there are not (13), nor a window of none, which is told before it (31).
#[test]
fn too_many_scrapers(rt: HostRuntime) {
    let (rt, alloc) = (&rt, rt.alloc());
    let many = Two::with_scrapers(alloc, 8, 1, 4).err();
    same(rt, many.map(|why| why.number()), Some(13));
    let none = Two::with_scrapers(alloc, 8, 0, 4).err();
    same(rt, none.map(|why| why.number()), Some(31));
}

/// A scraper hears of what is registered behind the page's lock.
#[test]
fn scrapers_beside_a_lock(rt: HostRuntime) {
    let (rt, alloc) = (&rt, rt.alloc());
    let (crew, mut recorders, mut scrapers) = need(rt, Two::with_scrapers(alloc, 8, 1, 1));
    let (mut recorder, mut scraper) = (there(rt, recorders.pop()), there(rt, scrapers.pop()));
    same(rt, crew.scrapers(), 1);
    let pages = PageRegistry::lock(crew);
    let mut names = Registrar::shared_page(rt, &pages);
    let a = counters(rt, &mut names, "a", &["l"]);
    let x = child(rt, &mut names, &a, &["x"]);
    let _y = child(rt, &mut names, &a, &["y"]);
    let z = child(rt, &mut names, &a, &["z"]);
    need(rt, recorder.inc(&x, 3));
    need(rt, recorder.inc(&z, 5));
    let three = "# TYPE a counter\na{l=\"x\"} 3\na{l=\"y\"} 0\na{l=\"z\"} 5\n";
    shows(rt, &mut scraper, three);
    same(rt, pages.into_crew().scrapers(), 1);
}

/// The number in the line of this name.
fn number_of(rt: &impl Abort, text: &str, name: &str) -> u64 {
    for line in text.lines() {
        if let Some((first, number)) = line.split_once(' ') {
            if first == name {
                return need(rt, number.parse());
            }
        }
    }
    0
}

/// Scrapes again and again, and no scrape shows more of `b` than of `a`, which is counted before it.
fn scrapes(rt: &impl Abort, scraper: &mut Scraper) {
    for _ in 0..300usize {
        if let Ok(scrape) = scraper.scrape() {
            let text = need(rt, render(&scrape));
            let text = need(rt, std::str::from_utf8(&text));
            let (a, b) = (number_of(rt, text, "a"), number_of(rt, text, "b"));
            assert!(rt; b <= a);
        }
    }
}

/// Counts `a` before `b`, again and again.
fn counts(rt: &impl Abort, recorder: &mut Counts, a: &Counter, b: &Counter) {
    for _ in 0..2_000usize {
        need(rt, recorder.inc(a, 1));
        need(rt, recorder.inc(b, 1));
    }
}

/// Registers further children, for which boards come.
fn registers(rt: &(impl Abort + AllocGlobal), names: &mut Names) {
    let family = counters(rt, names, "c", &["l"]);
    for length in 0..24usize {
        let value = need(rt, "x".repeat(rt.alloc(), length));
        let _handle = child(rt, names, &family, &[value.as_str()]);
    }
}

/// Two threads scrape while the owner registers, and two others count.
#[test]
fn scrapers_in_threads(rt: HostRuntime) {
    let (rt, alloc) = (&rt, rt.alloc());
    let (crew, mut recorders, mut scrapers) = need(rt, Two::with_scrapers(alloc, 8, 1, 2));
    let (mut one, mut other) = (there(rt, recorders.pop()), there(rt, recorders.pop()));
    let (mut first, mut second) = (there(rt, scrapers.pop()), there(rt, scrapers.pop()));
    let mut names = Registrar::page(alloc, crew);
    let a = counter(rt, &mut names, "a");
    let b = counter(rt, &mut names, "b");
    same(rt, (a.registry, b.registry), (1_024, 1_024));
    join(
        rt,
        || join(rt, || scrapes(rt, &mut first), || scrapes(rt, &mut second)),
        || {
            join(
                rt,
                || registers(rt, &mut names),
                || join(
                    rt,
                    || counts(rt, &mut one, &a, &b),
                    || counts(rt, &mut other, &a, &b),
                ),
            )
        },
    );
    let text = need(rt, render(&need(rt, names.at.crew.scrape())));
    let text = need(rt, std::str::from_utf8(&text));
    same(
        rt,
        (number_of(rt, text, "a"), number_of(rt, text, "b")),
        (4_000, 4_000),
    );
    shows(rt, &mut first, text);
    shows(rt, &mut second, text);
}
