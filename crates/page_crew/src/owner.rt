//! A page with all who work on its boards.
ghost use Rattle.std.specs.Prelude.{◌≡◌, ◌+◌, ◌<◌, ◌≤◌, length};
ghost use Rattle.register_rule.specs.Faults.{IsBoardSize};
ghost use Rattle.registry_state.specs.Faults.{IsWindow};
ghost use Rattle.page_crew.specs.Boards.{AreNumbered};
ghost use Rattle.page_crew.specs.Rings.{HaveRoom};

use crate::appointing::{Appointed, appoint};
use crate::fault::{NoBoard, PageCrewFault};
use crate::news::PageNews;
use crate::opening::{NewBoard, new_board};
use crate::page_recorder::PageRecorder;
use crate::page_scraper::PageScraper;
use crate::rings::{Open, give, open_rings};
use crate::shared_recorder::SharedRecorder;
use crate::shared_scanner::SharedScanner;
use rtrb::Producer;
use scrape_page::{BoardFault, Page};
use std::alloc::Global;

/// A page, over boards of one geometry, with a worker of each board for each of its `N` recorders. Boards come when they are
/// needed.
pub struct PageCrew<const N: usize, const C: usize, const H: usize, const G: usize> {
    pub(crate) alloc: Global,
    pub(crate) first: u64,
    pub(crate) window: usize,
    pub(crate) page: Page<SharedScanner<N, C, H, G>, N, C, H, G>,
    pub(crate) rings: Vec<Producer<SharedRecorder<N, C, H, G>>>,
    pub(crate) news: Vec<Producer<Box<PageNews<N, C, H, G>>>>,
    ghost numbered: { AreNumbered first page.boards },
    ghost low: { first + 96 < 18446744073709551616 },
    ghost kept: { IsWindow window },
    ghost count: { length rings.items ≡ N },
    ghost room: { HaveRoom (length page.boards) rings.items },
    ghost size: { IsBoardSize N C H G 1 },
    ghost readers: { length news.items ≤ 3 },
}

impl<const N: usize, const C: usize, const H: usize, const G: usize> Drop for PageCrew<N, C, H, G> {
    fn drop(self) {
        let PageCrew {
            alloc: _,
            first: _,
            window: _,
            page: _,
            rings: _,
            news: _,
        } = self;
    }
}

/// The most scrapes that a board keeps.
const MAX_WINDOW: usize = 1024;

/// The most scrapers of a page: a board has 4 readers.
const MAX_SCRAPERS: usize = 3;

impl<const N: usize, const C: usize, const H: usize, const G: usize> PageCrew<N, C, H, G> {
    ghost use Rattle.std.specs.Prelude.{◌*◌, [], IfErr, IfOk};
    ghost use Rattle.page_crew.specs.Opened.{IsPageCrewFault, IsNotOpened};
    ghost use Rattle.page_crew.specs.Told.{news_of, AreAppointed};
    ghost use Rattle.page_crew.specs.Owned.{first_of, page_of, IsOpened};

    /// A page of one board, without families, and `N` recorders, in the order of their numbers. Each board keeps `window`
    /// scrapes. The first board has the id 128 times `id`, and the others follow it, so pages of different ids never share a
    /// board's id; boards that are made otherwise keep away from these. A recorder takes its workers at its first call.
    ///
    /// # Errors
    ///
    /// 31 [`PageCrewFault::BadWindow`], the window is not 1 to 1,024; then [`PageCrewFault::Board`]: 13 [`NoBoard::Geometry`]; 6
    /// [`NoBoard::NoMemory`].
    pub fn new(
        alloc: Global,
        id: u32,
        window: usize,
    ) -> Result<(PageCrew<N, C, H, G>, Vec<PageRecorder<N, C, H, G>>), PageCrewFault>
        ensures opened { IfOk result (λ r. IsOpened (128 * id) window r.0 r.1.items) }
        ensures fault { IfErr result (IsPageCrewFault N C H G window) }
        ensures alone { IfOk result (λ r. news_of r.0 ≡ []) }
    {
        match PageCrew::with_scrapers(alloc, id, window, 0) {
            Ok((crew, recorders, _scrapers)) => Ok((crew, recorders)),
            Err(why) => Err(why),
        }
    }

    /// The same with so many scrapers, 0 to 3: each has a page of its own, over a reader of each board that nobody else has. Each
    /// scrape of theirs shows what they are told by then: all that is registered, while [`PageCrew::scrapers`] is as many.
    ///
    /// # Errors
    ///
    /// 31 [`PageCrewFault::BadWindow`], the window is not 1 to 1,024; then [`PageCrewFault::Board`]: 13 [`NoBoard::Geometry`],
    /// also where there would be over 3 scrapers; 6 [`NoBoard::NoMemory`].
    pub fn with_scrapers(
        alloc: Global,
        id: u32,
        window: usize,
        scrapers: usize,
    ) -> Result<
        (
            PageCrew<N, C, H, G>,
            Vec<PageRecorder<N, C, H, G>>,
            Vec<PageScraper<N, C, H, G>>,
        ),
        PageCrewFault,
    >
        ensures opened { IfOk result (λ r. IsOpened (128 * id) window r.0 r.1.items) }
        ensures scrapers { IfOk result (λ r. AreAppointed scrapers r.0 r.2.items) }
        ensures fault { IfErr result (IsNotOpened N C H G (1 + scrapers) window) }
    {
        if window < 1 || window > MAX_WINDOW {
            return Err(PageCrewFault::BadWindow);
        }
        if scrapers > MAX_SCRAPERS {
            return Err(PageCrewFault::Board(NoBoard::Geometry));
        }
        let first = 128 * id as u64;
        let NewBoard {
            registry,
            recorders,
            others,
        } = match new_board(alloc, first, window, scrapers) {
            Ok(made) => made,
            Err(why) => return Err(PageCrewFault::Board(why)),
        };
        let Ok(
            Open {
                mut rings,
                recorders: seats,
            },
        ) = open_rings(alloc, first)
        else {
            return Err(PageCrewFault::Board(NoBoard::NoMemory));
        };
        let Ok(
            Appointed {
                rings: news,
                scrapers,
            },
        ) = appoint(alloc, others)
        else {
            return Err(PageCrewFault::Board(NoBoard::NoMemory));
        };
        let page = match Page::new(alloc, registry) {
            Ok(page) => page,
            Err(refused) => match refused.fault {
                BoardFault::NoMemory => return Err(PageCrewFault::Board(NoBoard::NoMemory)),
                BoardFault::TooManyBoards | BoardFault::NotFresh => unreachable!(),
            },
        };
        give(&mut rings, recorders);
        let crew = PageCrew {
            alloc,
            first,
            window,
            page,
            rings,
            news,
        };
        Ok((crew, seats, scrapers))
    }

    /// The id of the page's first board; the others follow it.
    pub fn first(&self) -> u64
        ensures { result ≡ first_of self.now }
    {
        self.first
    }

    /// How many scrapers are told what comes: as many as were made with it; but none any more after a family took a part on a
    /// further board for a child that found no memory (6).
    pub fn scrapers(&self) -> usize
        ensures { result ≡ length (news_of self.now) }
    {
        self.news.len()
    }

    /// The page, which gets no further board then.
    pub fn into_page(self) -> Page<SharedScanner<N, C, H, G>, N, C, H, G>
        ensures { result ≡ page_of self.entry }
    {
        let PageCrew {
            alloc: _,
            first: _,
            window: _,
            page,
            rings: _,
            news: _,
        } = self;
        page
    }
}
