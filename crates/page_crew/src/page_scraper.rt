//! What a thread scrapes a page with, beside its owner.
ghost use Rattle.std.specs.Prelude.{◌≡◌, [], OnErr, OnOk};
ghost use Rattle.page_crew.specs.Following.{ScrapesByScraper};

use crate::doing::do_news;
use crate::news::PageNews;
use crate::shared_scanner::SharedScanner;
use expo_text::Scrape;
use metric_names::NoMemory;
use registry_state::RegistryState;
use rtrb::Consumer;
use scrape_http::NoScrape;
use scrape_page::{BoardFault, Page};
use scrape_server::MakesScrapes;
use std::alloc::Global;

/// A scraper of a page: a page of its own, over a reader of each board that nobody else has. It may move to a thread of its own,
/// and takes no lock: the owner and other scrapers go on meanwhile, and share nothing with it but the boards' words and its ring.
///
/// What the owner registers it is told by that ring, which it empties before each scrape. It makes the same calls on its own
/// page, in the same order.
#[derive(Drop)]
pub struct PageScraper<const N: usize, const C: usize, const H: usize, const G: usize> {
    page: Page<SharedScanner<N, C, H, G>, N, C, H, G>,
    news: Consumer<Box<PageNews<N, C, H, G>>>,
    held: Option<PageNews<N, C, H, G>>,
}

impl<const N: usize, const C: usize, const H: usize, const G: usize> PageScraper<N, C, H, G> {
    ghost use Rattle.std.specs.Prelude.{◌∷◌, ◌++◌, IfOk};
    ghost use Rattle.rtrb.specs.Ring.{received, known_items, SameConsumer};
    ghost use Rattle.registry_state.specs.Replay.{nothing};
    ghost use Rattle.page_crew.specs.News.{unboxed, IsDone, IsBegun};
    ghost use Rattle.page_crew.specs.Following.{page_in, news_in, held_in, HasFollowed, HasCaughtUp, IsBehind};

    /// One with a page of this board, which hears what came by this ring.
    ///
    /// Refusal 6 [`NoMemory`], and no other.
    pub(crate) fn new(
        alloc: Global,
        board: RegistryState<SharedScanner<N, C, H, G>, N, C, H, G>,
        news: Consumer<Box<PageNews<N, C, H, G>>>,
    ) -> Result<PageScraper<N, C, H, G>, NoMemory>
        requires { board.state ≡ nothing }
        ensures page { IfOk result (λ s. page_in s ≡ record { boards = board.entry ∷ []; families = [] }) }
        ensures news { IfOk result (λ s. news_in s ≡ news.entry) }
        ensures held { IfOk result (λ s. held_in s ≡ []) }
    {
        match Page::new(alloc, board) {
            Ok(page) => Ok(PageScraper {
                page,
                news,
                held: None,
            }),
            Err(refused) => match refused.fault {
                BoardFault::NoMemory => Err(NoMemory),
                BoardFault::TooManyBoards | BoardFault::NotFresh => unreachable!(),
            },
        }
    }

    /// Its page, as the last call that caught up, or began to, has left it.
    pub fn page(&self) -> &Page<SharedScanner<N, C, H, G>, N, C, H, G>
        ensures { result.now ≡ page_in self.now }
    {
        &self.page
    }

    // Does what was told, or holds it.
    fn follow(&mut self, news: PageNews<N, C, H, G>) -> Result<(), NoMemory>
        requires { held_in self.old ≡ [] }
        ensures done { OnOk result (IsDone news.entry (page_in self.old) (page_in self.new)) }
        ensures none { OnOk result (held_in self.new ≡ []) }
        ensures begun { OnErr result (IsBegun news.entry (page_in self.old) (page_in self.new)) }
        ensures held { OnErr result (held_in self.new ≡ news.entry ∷ []) }
        ensures news { news_in self.new ≡ news_in self.old }
    {
        match do_news(&mut self.page, news) {
            Ok(()) => Ok(()),
            Err(back) => {
                self.held = Some(back);
                Err(NoMemory)
            }
        }
    }

    // Does what it holds.
    fn follow_held(&mut self) -> Result<(), NoMemory>
        ensures caught_up { OnOk result (HasFollowed self.old self.new (page_in self.new)) }
        ensures none { OnOk result (held_in self.new ≡ []) }
        ensures behind { OnErr result (IsBehind self.old self.new) }
    {
        match self.held.take() {
            Some(news) => self.follow(news),
            None => Ok(()),
        }
    }

    // Takes what came, and does it.
    fn follow_all(&mut self) -> Result<(), NoMemory>
        requires { held_in self.old ≡ [] }
        ensures caught_up { OnOk result (HasCaughtUp self.old self.new (page_in self.new)) }
        ensures behind { OnErr result (IsBehind self.old self.new) }
    {
        for _news in 0..self.news.slots() {
            let news = Box::into_inner(self.news.pop_known());
            self.follow(news)?;
        }
        Ok(())
    }

    /// Takes all that the owner has told it since, and does it on its own page. [`PageScraper::scrape`] begins with this.
    ///
    /// # Errors
    ///
    /// 6 [`NoMemory`]. A beginning is done then, and the rest is done at the next call: nothing is lost.
    pub fn catch_up(&mut self) -> Result<(), NoMemory>
        ensures caught_up { OnOk result (HasCaughtUp self.old self.new (page_in self.new)) }
        ensures behind { OnErr result (IsBehind self.old self.new) }
    {
        self.follow_held()?;
        self.follow_all()
    }

    /// Catches up, and makes one scrape of all boards, shown as one: [`Page::scrape`].
    ///
    /// # Errors
    ///
    /// 6 [`NoScrape::NoMemory`], also where it did not catch up; 14 [`NoScrape::Contended`].
    pub fn scrape(&mut self) -> Result<Scrape, NoScrape>
        ensures { ScrapesByScraper self.old self.new result }
    {
        match self.catch_up() {
            Ok(()) => self.page.scrape(),
            Err(NoMemory) => Err(NoScrape::NoMemory),
        }
    }
}

impl<const N: usize, const C: usize, const H: usize, const G: usize> MakesScrapes
    for PageScraper<N, C, H, G> {
    ghost again = { 0 };

    ghost made = { ScrapesByScraper };

    fn scrape(&mut self) -> Result<Scrape, NoScrape> {
        PageScraper::scrape(self)
    }

    /// The page asks each board again by itself, and is not asked again.
    fn again(&self) -> usize {
        0
    }
}
