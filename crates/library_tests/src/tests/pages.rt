//! A page takes boards that are fresh. C makes its boards by itself, and none of them is refused by 45.
use crate::asserts::{done, need, same};
use crate::helpers::desc;
use metric_desc::Kind;
use registry_state::RegistryState;
use scrape_page::{BoardFault, Page};
use snapshot_scan::PlainSource;
use std::alloc::Global;
use std::process::Abort;

/// A source of one thread, of a counter alone.
type SmallSource = PlainSource<1, 0, 0>;

/// A registry of it.
type Small = RegistryState<SmallSource, 1, 1, 0, 0>;

/// A registry of this id that keeps one scrape, and has a family where it is used.
fn small(rt: &impl Abort, alloc: Global, id: u64, is_used: bool) -> Small {
    let Ok(mut made) = Small::new(alloc, need(rt, SmallSource::new(alloc)), id, 1) else {
        rt.panic("no registry")
    };
    if is_used {
        let desc = done(rt, desc(alloc, Kind::Counter, "a", &[]));
        need(rt, made.register(desc));
    }
    made
}

/// What comes of a further board, in the words of a test: its number, or why it is refused, and the id of the board that comes
/// back.
fn asked(
    page: &mut Page<SmallSource, 1, 1, 0, 0>,
    board: Small,
) -> Result<usize, (BoardFault, u64)> {
    match page.add_board(board) {
        Ok(number) => Ok(number),
        Err(refused) => Err((refused.fault, refused.board.id())),
    }
}

/// A board has the id of one that is there, and one has a family (45). Each comes back, and the page takes the next one.
#[test]
fn stale_boards(rt: HostRuntime) {
    let (rt, alloc, stale) = (&rt, rt.alloc(), BoardFault::NotFresh);
    same(rt, stale.number(), 45);
    match Page::new(alloc, small(rt, alloc, 1, true)) {
        Ok(_) => rt.panic("the board is taken"),
        Err(refused) => same(rt, (refused.fault, refused.board.id()), (stale, 1)),
    }
    let Ok(mut page) = Page::new(alloc, small(rt, alloc, 1, false)) else {
        rt.panic("no page")
    };
    same(
        rt,
        asked(&mut page, small(rt, alloc, 1, false)),
        Err((stale, 1)),
    );
    same(
        rt,
        asked(&mut page, small(rt, alloc, 2, true)),
        Err((stale, 2)),
    );
    same(rt, page.boards().len(), 1);
    same(rt, asked(&mut page, small(rt, alloc, 2, false)), Ok(1));
    same(rt, page.into_boards().len(), 2);
}
