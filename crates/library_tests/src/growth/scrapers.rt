//! Scrapers of a page: what takes memory. Each call that is refused is made again, and then they show what the owner shows; but
//! of a family that took a part before its child was refused, and of what came later, they are told nothing.
use crate::asserts::{again, same, there};
use dirgwako::{CounterFamily, NoScrape, OnPage, PageCrew, PageScraper, Registrar, render};
use std::process::Abort;
use std::test::Fail;

/// A page over boards of one counter, for one thread.
type Small = PageCrew<1, 1, 0, 0>;

/// What registers on it.
type Names = Registrar<OnPage<1, 1, 0, 0>>;

/// What scrapes it.
type Scraper = PageScraper<1, 1, 0, 0>;

/// A family by a label, which is registered again where there was no memory.
fn family(rt: &impl Abort, names: &mut Names, name: &str) -> Result<CounterFamily, Fail> {
    match names.counter_family(name, "", &["l"]) {
        Ok(family) => Ok(family),
        Err(fault) => {
            same(rt, fault.number(), 6);
            again(names.counter_family(name, "", &["l"]))
        }
    }
}

/// How many parts all families have.
fn parts(names: &Names) -> usize {
    let mut many = 0usize;
    for family in names.at.crew.page().families() {
        many = many.saturating_add(family.parts().len());
    }
    many
}

/// A child of it is made; whether scrapers are told of it.
fn child(
    rt: &impl Abort,
    names: &mut Names,
    family: &CounterFamily,
    value: &str,
) -> Result<bool, Fail> {
    let before = parts(names);
    let Err(fault) = names.counter_of(family, &[value]) else {
        return Ok(true);
    };
    same(rt, fault.number(), 6);
    let is_told = parts(names) == before;
    let _counter = again(names.counter_of(family, &[value]))?;
    Ok(is_told)
}

/// A scraper shows this, at once or when it is asked again.
fn shows(rt: &impl Abort, scraper: &mut Scraper, expected: &[u8]) -> Result<(), Fail> {
    let scrape = match scraper.scrape() {
        Ok(scrape) => scrape,
        Err(fault) => {
            same(rt, fault, NoScrape::NoMemory);
            again(scraper.scrape())?
        }
    };
    let text = match render(&scrape) {
        Ok(text) => text,
        Err(_) => again(render(&scrape))?,
    };
    same(rt, text.as_slice(), expected);
    Ok(())
}

/// A page with two scrapers, families on two boards of which the second comes for a child, and scrapes in between.
#[test]
fn growth_scrapers(rt: HostRuntime) -> Result<(), Fail> {
    let (rt, alloc) = (&rt, rt.alloc());
    let (crew, _recorders, mut scrapers) = match Small::with_scrapers(alloc, 9, 1, 2) {
        Ok(made) => made,
        Err(fault) => {
            same(rt, fault.number(), 6);
            again(Small::with_scrapers(alloc, 9, 1, 2))?
        }
    };
    let (mut second, mut first) = (there(rt, scrapers.pop()), there(rt, scrapers.pop()));
    let mut names = Registrar::page(alloc, crew);
    let a = family(rt, &mut names, "a")?;
    let has_x = child(rt, &mut names, &a, "x")?;
    same(rt, has_x, true);
    let one = b"# TYPE a counter\na{l=\"x\"} 0\n".as_slice();
    shows(rt, &mut first, one)?;
    let has_y = child(rt, &mut names, &a, "y")?;
    let b = family(rt, &mut names, "b")?;
    let has_z = child(rt, &mut names, &b, "z")?;
    let two = b"# TYPE a counter\na{l=\"x\"} 0\na{l=\"y\"} 0\n".as_slice();
    let all =
        b"# TYPE a counter\na{l=\"x\"} 0\na{l=\"y\"} 0\n# TYPE b counter\nb{l=\"z\"} 0\n".as_slice();
    let (many, told) = match (has_y, has_z) {
        (false, _) => (0, one),
        (true, false) => (0, two),
        (true, true) => (2, all),
    };
    same(rt, names.at.crew.scrapers(), many);
    shows(rt, &mut first, told)?;
    shows(rt, &mut second, told)
}
