//! Scrapes of a page by its owner, and how many of them its boards keep.
ghost use Rattle.page_crew.specs.Owned.{ScrapesByCrew};

use crate::owner::PageCrew;
use expo_text::Scrape;
use registry_state::BadWindow;
use scrape_http::NoScrape;
use scrape_server::MakesScrapes;

impl<const N: usize, const C: usize, const H: usize, const G: usize> PageCrew<N, C, H, G> {
    ghost use Rattle.std.specs.Prelude.{◌≡◌, ◌<◌, length, OnErr, OnOk};
    ghost use Rattle.registry_state.specs.Faults.{IsWindow};
    ghost use Rattle.scrape_page.specs.Scraping.{BoardAloneScrapes};
    ghost use Rattle.scrape_page.specs.Unshown.{Unshown};
    ghost use Rattle.page_crew.specs.Shared.{recorded_in, quit_in, gave_in, gave_up_in};
    ghost use Rattle.page_crew.specs.Told.{news_of};
    ghost use Rattle.page_crew.specs.Owned.{page_of, PageDid, KeepsFromNow, IsUnchanged};

    /// One scrape of all boards, shown as one: [`scrape_page::Page::scrape`].
    ///
    /// # Errors
    ///
    /// 14 [`NoScrape::Contended`]; 6 [`NoScrape::NoMemory`]. The boards before it have kept their scrapes then, and those behind
    /// it are as they were.
    pub fn scrape(&mut self) -> Result<Scrape, NoScrape>
        ensures scraped { ScrapesByCrew self.old self.new result }
        ensures untold { news_of self.new ≡ news_of self.old }
    {
        self.page.scrape()
    }

    /// One scrape of the board of this number alone: [`scrape_page::Page::scrape_board`].
    ///
    /// # Errors
    ///
    /// 14 [`NoScrape::Contended`]; 6 [`NoScrape::NoMemory`].
    pub fn scrape_board(&mut self, number: usize) -> Result<Scrape, NoScrape>
        requires { number < length (page_of self.old).boards }
        ensures untold { news_of self.new ≡ news_of self.old }
        ensures scraped { PageDid self.old self.new (λ a b.
            BoardAloneScrapes N C H G recorded_in quit_in gave_in gave_up_in number a b result) }
    {
        self.page.scrape_board(number)
    }

    /// Keeps a scrape of the board of this number alone: [`scrape_page::Page::keep_board`].
    ///
    /// # Errors
    ///
    /// 14 [`NoScrape::Contended`]; 6 [`NoScrape::NoMemory`].
    pub fn keep_board(&mut self, number: usize) -> Result<(), NoScrape>
        requires { number < length (page_of self.old).boards }
        ensures untold { news_of self.new ≡ news_of self.old }
        ensures scraped { PageDid self.old self.new (λ a b.
            Unshown (BoardAloneScrapes N C H G recorded_in quit_in gave_in gave_up_in number) a b result) }
    {
        self.page.keep_board(number)
    }

    /// Keeps `window` scrapes of each board from now on, also of those that come later. Where more were kept, the oldest ones are
    /// dropped. It takes no memory.
    ///
    /// # Errors
    ///
    /// 31 [`BadWindow`] unless `window` is 1 to 1,024. Nothing has changed then.
    pub fn set_window(&mut self, window: usize) -> Result<(), BadWindow>
        ensures window { OnOk result (IsWindow window) }
        ensures set { OnOk result (KeepsFromNow window self.old self.new) }
        ensures refused { OnErr result (¬ (IsWindow window)) }
        ensures unchanged { OnErr result (IsUnchanged self.old self.new) }
        ensures untold { news_of self.new ≡ news_of self.old }
    {
        self.page.set_window(window)?;
        self.window = window;
        Ok(())
    }
}

impl<const N: usize, const C: usize, const H: usize, const G: usize> MakesScrapes
    for PageCrew<N, C, H, G> {
    ghost again = { 0 };

    ghost made = { ScrapesByCrew };

    fn scrape(&mut self) -> Result<Scrape, NoScrape> {
        PageCrew::scrape(self)
    }

    /// The page asks each board again by itself, and is not asked again.
    fn again(&self) -> usize {
        0
    }
}
