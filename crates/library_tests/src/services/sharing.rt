//! A page that threads share behind its lock: some register, one scrapes, and one serves, while it is counted.
use super::clients::{GET, Step, play};
use super::naming::{child, counters};
use crate::asserts::{need, same, there};
use dirgwako::{
    Answered, PageCrew, PageRecorder, PageRegistry, Registrar, listen, port_of, print_of,
    scrape_text, serve,
};
use std::alloc::Global;
use std::net::{Net, TcpListener, TcpStream};
use std::process::Abort;
use std::sync::Wait;
use std::thread::{Threads, join};
use std::time::{Clock, Duration};

/// A page over boards of one counter, for one thread.
type OneEach = PageCrew<1, 1, 0, 0>;

/// It behind its lock.
type Pages = PageRegistry<1, 1, 0, 0>;

/// What counts on it.
type Counts = PageRecorder<1, 1, 0, 0>;

/// How many children a thread asks for.
const CHILDREN: usize = 24;

/// Asks for children, for each of which a board comes, and adds one to each.
fn registers(rt: &(impl Wait + Abort + AllocGlobal), pages: &Pages, recorder: &mut Counts) {
    let mut metrics = Registrar::shared_page(rt, pages);
    let family = counters(rt, &mut metrics, "a", &["l"]);
    for length in 0..CHILDREN {
        let value = need(rt, "x".repeat(rt.alloc(), length));
        let child = child(rt, &mut metrics, &family, &[value.as_str()]);
        need(rt, recorder.inc(&child, 1));
    }
}

/// Scrapes until all children are there, each text no shorter than the one before.
fn scrapes(rt: &(impl Wait + Abort), pages: &Pages) {
    let mut longest = 0;
    for _ in 0..400usize {
        if let Ok(text) = scrape_text(rt, pages) {
            assert!(rt; longest <= text.len());
            longest = text.len();
        }
    }
}

/// The page is served, and the reply has its text.
fn serves<T>(rt: &T, alloc: Global, pages: &Pages)
where
    T: Abort + Clock + Threads + Wait + Sync + Net<Listener = TcpListener, Stream = TcpStream>,
{
    let listener = need(rt, listen(rt, 0));
    let port = need(rt, port_of(&listener));
    let (answered, got) = join(
        rt,
        || serve(rt, &listener, pages, Duration::from_secs(5), 1),
        || play(rt, alloc, port, &[Step::Ask(GET)]),
    );
    let (replies, faults) = (1, 0);
    same(rt, need(rt, answered), Answered { replies, faults });
    let text = need(rt, scrape_text(rt, pages));
    let reply = there(rt, got.get(0));
    assert!(rt; reply.as_slice().ends_with(text.as_slice()));
}

/// A thread registers and counts while another scrapes, and then the page is served.
#[test]
fn threads_share_a_page(rt: HostRuntime) {
    let (rt, alloc) = (&rt, rt.alloc());
    let (crew, mut recorders) = need(rt, OneEach::new(alloc, 5, 2));
    let mut recorder = there(rt, recorders.pop());
    let pages = Pages::lock(crew);
    same(rt, pages.id(), 640);
    join(
        rt,
        || registers(rt, &pages, &mut recorder),
        || scrapes(rt, &pages),
    );
    serves(rt, alloc, &pages);
    same(rt, need(rt, pages.add_board(rt)), CHILDREN);
    let crew = pages.into_crew();
    same(rt, crew.page().boards().len(), CHILDREN + 1);
    need(rt, print_of(rt, crew));
}
