//! What threads were answered by one registry, and what stands behind its lock in the end.
ghost use Rattle.snapshot_update.specs.Workers.{IsWorkerOf};

use crate::asserts::{done, need, same, there};
use crate::crew::{ID, last_worker};
use crate::helpers::desc;
use crate::locked::{Two, TwoBoard, TwoCrew, TwoWorker, made_counter, registry_of};
use expo_text::{Number, Scrape, render};
use ledger_core::Counter;
use metric_desc::Kind;
use registry_state::{FamilyId, Handle, RegisterFault, RegistryState, ScrapeFault};
use snapshot_scan::{Scanner, Snapshot};
use snapshot_update::CountFault;
use std::alloc::Global;
use std::process::Abort;
use std::sync::Wait;
use std::thread::{Threads, join};

/// The text of all families, when both workers have counted 500 times on each counter.
const ALL: &[u8] =
    b"# TYPE a counter\na 1000\n# TYPE b counter\nb 1000\n# TYPE c counter\nc 1000\n# TYPE d counter\nd 1000\n";

/// What stands behind the lock of a registry.
type State<'a> = RegistryState<Scanner<'a, 2, 4, 1, 1>, 2, 4, 1, 1>;

/// The name of a family that a thread registered, its number, and its one child.
type Counted = (&'static str, FamilyId, Counter);

/// What a thread was given.
#[derive(Drop)]
struct Given {
    counted: Vec<Counted>,
    scrapes: Vec<Scrape>,
}

/// Scrapes eight times, and keeps what it is given.
fn scrape_often(rt: &(impl Wait + Abort), registry: &Two<'_>, scrapes: &mut Vec<Scrape>) {
    for _ in 0..8 {
        match registry.scrape(rt) {
            Ok(scrape) => need(rt, scrapes.push(scrape)),
            Err(ScrapeFault::Contended(_)) => {}
            Err(fault) => need(rt, Err(fault)),
        }
    }
}

/// Registers two families and makes their children, and scrapes before and after each of them.
fn ask(
    rt: &(impl Wait + Abort),
    alloc: Global,
    registry: &Two<'_>,
    names: [&'static str; 2],
) -> Given {
    let mut given = Given {
        counted: Vec::new(alloc),
        scrapes: Vec::new(alloc),
    };
    for name in names {
        scrape_often(rt, registry, &mut given.scrapes);
        let (family, counter) = made_counter(rt, alloc, registry, name);
        need(rt, given.counted.push((name, family, counter)));
        scrape_often(rt, registry, &mut given.scrapes);
    }
    given
}

/// Counts 500 times on each counter.
fn count(board: &TwoBoard, mut worker: TwoWorker) -> Result<(), CountFault>
    requires { IsWorkerOf board.now worker }
{
    for k in 0..2_000usize {
        let counter = Counter {
            registry: ID,
            slot: k % 4,
        };
        worker.inc(board, &counter, 1)?;
    }
    Ok(())
}

/// How a worker ended, and what the thread beside it was given.
type Side = (Result<(), CountFault>, Given);

/// A worker counts, while another thread asks.
fn count_and_ask(
    rt: &(impl Threads + Wait + Abort + Sync),
    alloc: Global,
    board: &TwoBoard,
    registry: &Two<'_>,
    worker: TwoWorker,
    names: [&'static str; 2],
) -> Side
    requires { IsWorkerOf board.now worker }
{
    join(
        rt,
        || -> Result<(), CountFault>
            requires { IsWorkerOf board.now worker }
        { count(board, worker) },
        || -> Given { ask(rt, alloc, registry, names) },
    )
}

/// Two workers and two threads that ask, at once.
fn two_sides(
    rt: &(impl Threads + Wait + Abort + Sync),
    alloc: Global,
    board: &TwoBoard,
    registry: &Two<'_>,
    workers: (TwoWorker, TwoWorker),
) -> (Side, Side)
    requires { IsWorkerOf board.now workers.0 × IsWorkerOf board.now workers.1 }
{
    let (first, second) = workers;
    join(
        rt,
        || -> Side
            requires { IsWorkerOf board.now first }
        { count_and_ask(rt, alloc, board, registry, first, ["a", "c"]) },
        || -> Side
            requires { IsWorkerOf board.now second }
        { count_and_ask(rt, alloc, board, registry, second, ["b", "d"]) },
    )
}

/// What was registered and made stands in the journal: asked for again, a child gives its handle, and a descriptor is refused for
/// its family. The journal does not grow.
fn all_stand(rt: &impl Abort, alloc: Global, state: &mut State<'_>, counted: &[Counted]) {
    let before = state.journal().len();
    for (name, family, counter) in counted {
        let again = state.register(done(rt, desc(alloc, Kind::Counter, name, &[])));
        let with = family.number();
        same(rt, again, Err(RegisterFault::Clash { with }));
        same(rt, state.family(name), Some(*family));
        let handle = need(rt, state.child(*family, &[]));
        same(rt, handle, Handle::Counter(*counter));
        same(rt, counter.registry, ID);
    }
    same(rt, state.journal().len(), before);
}

/// The slot of the counter of this name.
fn slot_of(counted: &[Counted], name: &str) -> Option<usize> {
    for it in counted {
        if it.0 == name {
            return Some(it.2.slot);
        }
    }
    None
}

/// Each number of the scrape is that of its slot in the snapshot.
fn is_shown(
    rt: &impl Abort,
    one: &Given,
    other: &Given,
    scrape: &Scrape,
    kept: &Snapshot<2, 4, 1, 1>,
) {
    for family in scrape.families() {
        let name = family.desc.name().as_str();
        let slot = slot_of(&one.counted, name).or(slot_of(&other.counted, name));
        let slot = there(rt, slot);
        for child in family.children.as_slice() {
            assert!(rt; slot < 4);
            same(rt, child.number, Number::Counter(kept.counter(slot)));
        }
    }
}

/// The kept scrapes are exactly those that were given, in order of their vectors: from the least ones on, the next one of the
/// thread whose next one is the kept one.
fn all_kept(
    rt: &impl Abort,
    state: &State<'_>,
    snapshot: &mut Snapshot<2, 4, 1, 1>,
    one: &Given,
    other: &Given,
) {
    let kept = state.kept();
    same(rt, kept.len(), one.scrapes.len() + other.scrapes.len());
    let (mut i, mut j) = (0usize, 0usize);
    for k in 0..kept.len() {
        kept.read(k, snapshot);
        let scrape = match (one.scrapes.get(i), other.scrapes.get(j)) {
            (Some(scrape), _) if scrape.vector() == snapshot.vector() => {
                i += 1;
                scrape
            }
            (_, Some(scrape)) => {
                j += 1;
                scrape
            }
            _ => rt.panic("more was kept than was given"),
        };
        same(rt, scrape.vector(), snapshot.vector());
        is_shown(rt, one, other, scrape, snapshot);
    }
}

/// Threads use a registry, of which nothing is left but what stood behind its lock: all that was given. The last scrape is the
/// first thread's, and shows all families with all that was counted.
fn hands_on(
    rt: &(impl Abort + Threads + Wait + Sync),
    alloc: Global,
    board: &TwoBoard,
    registry: Two<'_>,
    workers: (TwoWorker, TwoWorker),
)
    requires { IsWorkerOf board.now workers.0 × IsWorkerOf board.now workers.1 }
{
    let ((first, mut one), (second, other)) = two_sides(rt, alloc, board, &registry, workers);
    same(rt, (first, second), (Ok(()), Ok(())));
    same(
        rt,
        (one.scrapes.is_empty(), other.scrapes.is_empty()),
        (false, false),
    );
    let last = need(rt, registry.scrape(rt));
    same(rt, need(rt, render(&last)).as_slice(), ALL);
    need(rt, one.scrapes.push(last));
    let mut state = registry.into_state();
    all_stand(rt, alloc, &mut state, &one.counted);
    all_stand(rt, alloc, &mut state, &other.counted);
    let mut snapshot = need(rt, Snapshot::new(alloc));
    all_kept(rt, &state, &mut snapshot, &one, &other);
}

#[test]
fn registry_hands_on(rt: HostRuntime) {
    let rt = &rt;
    let mut crew = need(rt, TwoCrew::new(rt.alloc(), ID, 1));
    let registry = registry_of(rt, rt.alloc(), &crew.board, &mut crew.readers, 65);
    let second = last_worker(rt, &crew.board, &mut crew.workers);
    let first = last_worker(rt, &crew.board, &mut crew.workers);
    hands_on(rt, rt.alloc(), &crew.board, registry, (first, second));
}
