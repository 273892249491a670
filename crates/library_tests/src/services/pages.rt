//! Lists and exact totals of a page's recorders, for which C has calls of its own.
use super::naming::counter;
use crate::asserts::{need, same, there};
use dirgwako::{
    CountFault, Counter, PageCrew, PublishFault, Registrar, SettleFault, Snapshot, counter_total,
    inc, render, settle_board,
};

/// A page over boards of one counter, for one thread.
type OneEach = PageCrew<1, 1, 0, 0>;

/// The id of the first board of the page of id 7.
const FIRST: u64 = 7 * 128;

/// A list by handles of two boards is no version (47), nor one by those of no board of the page (16), and a list of nothing is
/// none; exact totals are those of each board, and of no board there are none. A board that is scraped alone shows its own
/// families.
#[test]
fn lists_and_totals(rt: HostRuntime) {
    let (rt, alloc) = (&rt, rt.alloc());
    let (crew, mut recorders) = need(rt, OneEach::new(alloc, 7, 1));
    let mut metrics = Registrar::page(alloc, crew);
    let a = counter(rt, &mut metrics, "a");
    let b = counter(rt, &mut metrics, "b");
    same(rt, (a.registry, b.registry), (FIRST, FIRST + 1));
    let mut recorder = there(rt, recorders.pop());
    let apart = recorder.publish(&[inc(&a, 1), inc(&b, 1)]);
    same(rt, apart, Err(PublishFault::TwoBoards));
    same(rt, PublishFault::TwoBoards.number(), 47);
    let (registry, slot) = (FIRST + 2, 0);
    let other = recorder.publish(&[inc(&Counter { registry, slot }, 1)]);
    let fault = PublishFault::Count(CountFault::WrongRegistry);
    same(rt, (other, fault.number()), (Err(fault), 16));
    same(rt, recorder.publish(&[]), Ok(()));
    need(rt, recorder.publish(&[inc(&a, 2), inc(&a, 5)]));
    need(rt, recorder.publish(&[inc(&b, 6)]));
    let mut recorders = need(rt, Vec::from_array(alloc, [recorder]));
    let mut crew = metrics.into_inner().crew;
    let totals = need(rt, crew.settle(&mut recorders));
    let of_a = there(rt, totals.on(a.registry));
    same(
        rt,
        (of_a.vector()[0], counter_total(of_a, &a)),
        (1, Some(7)),
    );
    let of_b = there(rt, totals.on(b.registry));
    same(
        rt,
        (of_b.vector()[0], counter_total(of_b, &b)),
        (1, Some(6)),
    );
    same(rt, totals.on(FIRST + 2).is_none(), true);
    let mut out = need(rt, Snapshot::new(alloc));
    need(rt, settle_board(&mut recorders, FIRST + 1, &mut out));
    same(rt, counter_total(&out, &b), Some(6));
    let none = settle_board(&mut recorders, FIRST + 2, &mut out);
    same(
        rt,
        none.map_err(|fault| (fault.missing, fault.number())),
        Err((0, 18)),
    );
    let nobody = crew.settle(&mut []).map(|_| ());
    let board = FIRST;
    same(rt, nobody, Err(SettleFault::NotAll { board, missing: 0 }));
    assert!(rt; crew.page().boards().len() == 2);
    let text = need(rt, render(&need(rt, crew.scrape_board(1))));
    same(rt, text.as_slice(), b"# TYPE b counter\nb 6\n".as_slice());
}
