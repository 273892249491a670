//! Scrapes of a page, and how many of them its boards keep.
ghost use Rattle.std.specs.Prelude.{◌<◌, ◌≤◌, length, All, IfOk};
ghost use Rattle.scrape_page.specs.Framed.{AreFrames};
ghost use Rattle.scrape_page.specs.Scraping.{PageScrapes};

use crate::each::{scrape_board, scrape_each};
use crate::family::PageFamily;
use crate::keeping::keep_again;
use crate::page::Page;
use crate::windows::set_each;
use expo_text::Scrape;
use metric_names::NoMemory;
use registry_state::BadWindow;
use scrape_http::NoScrape;
use scrape_merge::{Frames, merge};
use scrape_server::MakesScrapes;
use snapshot_scan::Source;
use std::alloc::Global;

/// The most scrapes that a board keeps (`IsWindow`).
const MAX_WINDOW: usize = 1_024;

/// The memory of a scrape of these families, in this order of their numbers, and of so many numbers in its vector.
///
/// Refusal 6 [`NoMemory`], and no other.
fn frames_of(
    alloc: Global,
    numbers: usize,
    families: &[PageFamily],
    order: &[usize],
) -> Result<Frames, NoMemory>
    requires { All (λ number. number < length families.now) order.now }
    ensures numbers { IfOk result (λ frames. numbers ≤ frames.numbers) }
    ensures frames { IfOk result (λ frames. AreFrames families.now order.now frames.families) }
{
    let mut frames = Frames::new(alloc, order.len(), numbers)?;
    for number in order {
        let family = &families[*number];
        // The children of a family of one part are taken as they are.
        let room = if family.parts.len() <= 1 {
            None
        } else {
            Some(family.children)
        };
        frames.push(&family.desc, room)?;
    }
    Ok(frames)
}

impl<S: Source<N, C, H, G>, const N: usize, const C: usize, const H: usize, const G: usize> Page<
    S,
    N,
    C,
    H,
    G,
> {
    ghost use Rattle.std.specs.Prelude.{◌≡◌, OnErr, OnOk};
    ghost use Rattle.registry_state.specs.Faults.{IsWindow};
    ghost use Rattle.scrape_page.specs.Scraping.{BoardAloneScrapes, PageScrapes};
    ghost use Rattle.scrape_page.specs.Unshown.{Unshown};
    ghost use Rattle.scrape_page.specs.Windows.{page_with_window};

    /// One scrape of all boards. Each board is asked for one, again up to three times where its scan was given up, and they are
    /// shown as one: families by name, children by their values, whichever board they are on. What is on one board is of one
    /// moment; between boards none is claimed. The memory of the merge is taken before the first scan.
    ///
    /// # Errors
    ///
    /// 14 [`NoScrape::Contended`] where a board's scan was given up four times; 6 [`NoScrape::NoMemory`]. The boards before it
    /// have kept their scrapes then, and those behind it are as they were.
    pub fn scrape(&mut self) -> Result<Scrape, NoScrape>
        ensures { PageScrapes N C H G S.recorded S.quit S.gave S.gave_up self.old self.new result }
    {
        let alloc = *self.families.allocator();
        let Some(numbers) = N.checked_mul(self.boards.len()) else {
            return Err(NoScrape::NoMemory);
        };
        let Ok(frames) = frames_of(alloc, numbers, &self.families, &self.order) else {
            return Err(NoScrape::NoMemory);
        };
        // A look at the boards tells the proof how large one is.
        let _boards = self.boards.as_slice();
        match scrape_each(alloc, &mut self.boards) {
            Ok(parts) => Ok(merge(frames, parts)),
            Err(why) => Err(why),
        }
    }

    /// One scrape of the board of this number alone, which is asked again up to three times where its scan was given up, and
    /// keeps the scrape: the numbers of its children, all of one moment. The other boards are not asked.
    ///
    /// # Errors
    ///
    /// 14 [`NoScrape::Contended`] where the scan was given up four times; 6 [`NoScrape::NoMemory`].
    pub fn scrape_board(&mut self, number: usize) -> Result<Scrape, NoScrape>
        requires { number < length self.old.boards }
        ensures { BoardAloneScrapes N C H G S.recorded S.quit S.gave S.gave_up number self.old self.new result }
    {
        // A look at the boards tells the proof how large one is.
        let _boards = self.boards.as_slice();
        scrape_board(&mut self.boards[number])
    }

    /// Keeps a scrape of the board of this number alone, as [`Page::scrape_board`] does, and gives nobody what it shows: its
    /// numbers are the newest that the board keeps.
    ///
    /// # Errors
    ///
    /// 14 [`NoScrape::Contended`] where the scan was given up four times; 6 [`NoScrape::NoMemory`].
    pub fn keep_board(&mut self, number: usize) -> Result<(), NoScrape>
        requires { number < length self.old.boards }
        ensures { Unshown (BoardAloneScrapes N C H G S.recorded S.quit S.gave S.gave_up number) self.old self.new result }
    {
        // A look at the boards tells the proof how large one is.
        let _boards = self.boards.as_slice();
        keep_again(&mut self.boards[number])
    }

    /// Keeps `window` scrapes of each board from now on. Where more were kept, the oldest ones are dropped. It takes no memory. A
    /// board that comes later keeps as many as it did: [`Page::add_board`].
    ///
    /// # Errors
    ///
    /// 31 [`BadWindow`] unless `window` is 1 to 1,024. Nothing has changed then, on any board.
    pub fn set_window(&mut self, window: usize) -> Result<(), BadWindow>
        ensures window { OnOk result (IsWindow window) }
        ensures set { OnOk result (self.new ≡ page_with_window window self.old) }
        ensures refused { OnErr result (¬ (IsWindow window)) }
        ensures unchanged { OnErr result (self.new ≡ self.old) }
    {
        if window < 1 || window > MAX_WINDOW {
            return Err(BadWindow);
        }
        set_each(&mut self.boards, window);
        Ok(())
    }
}

impl<
    S: Source<N, C, H, G>,
    const N: usize,
    const C: usize,
    const H: usize,
    const G: usize,
> MakesScrapes for Page<S, N, C, H, G> {
    ghost again = { 0 };

    ghost made = { PageScrapes N C H G S.recorded S.quit S.gave S.gave_up };

    fn scrape(&mut self) -> Result<Scrape, NoScrape> {
        Page::scrape(self)
    }

    /// A page is not asked again: it has asked each board again by itself, and the boards before one that gives up have scanned
    /// by then.
    fn again(&self) -> usize {
        0
    }
}
