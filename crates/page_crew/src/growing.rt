//! A page's owner makes boards.
ghost use Rattle.std.specs.Prelude.{◌≡◌};

use crate::fault::NoBoard;
use crate::news::{board_news, tell};
use crate::opening::{NewBoard, new_board};
use crate::owner::PageCrew;
use crate::rings::give;
use scrape_page::BoardFault;

/// The most boards of a page.
const MOST: usize = 96;

impl<const N: usize, const C: usize, const H: usize, const G: usize> PageCrew<N, C, H, G> {
    ghost use Rattle.std.specs.Prelude.{◌≡◌, ◌<◌, length, IfErr, IfOk, OnErr, OnOk};
    ghost use Rattle.page_crew.specs.Opened.{IsNoBoard};
    ghost use Rattle.page_crew.specs.Owned.{page_of, IsGrown, IsUnchanged};
    ghost use Rattle.page_crew.specs.Told.{news_of, HasToldBoard};

    /// Makes a further board, behind those that are there, and gives each recorder its worker of it: it has it from its next call
    /// by a handle of this board on. Each scraper is told of it, and has a reader of its own of it. Answers the number of the
    /// board.
    ///
    /// # Errors
    ///
    /// 44 [`NoBoard::TooManyBoards`], 96 are there; 13 [`NoBoard::Geometry`]; 6 [`NoBoard::NoMemory`]. Nothing has changed then.
    pub fn add_board(&mut self) -> Result<usize, NoBoard>
        ensures number { IfOk result (λ number. number ≡ length (page_of self.old).boards) }
        ensures grown { OnOk result (IsGrown self.old self.new) }
        ensures few { OnOk result (length (page_of self.old).boards < 96) }
        ensures fault { IfErr result (IsNoBoard N C H G (length (page_of self.old).boards)) }
        ensures unchanged { OnErr result (IsUnchanged self.old self.new) }
        ensures told { OnOk result (HasToldBoard self.old self.new) }
        ensures untold { OnErr result (news_of self.new ≡ news_of self.old) }
    {
        let number = self.page.boards().len();
        if number >= MOST {
            return Err(NoBoard::TooManyBoards);
        }
        let NewBoard {
            registry,
            recorders,
            others,
        } = new_board(
            self.alloc,
            self.first + number as u64,
            self.window,
            self.news.len(),
        )?;
        let Ok(news) = board_news(self.alloc, &self.news, others) else {
            return Err(NoBoard::NoMemory);
        };
        match self.page.add_board(registry) {
            Ok(number) => {
                give(&mut self.rings, recorders);
                tell(&mut self.news, news);
                Ok(number)
            }
            Err(refused) => match refused.fault {
                BoardFault::NoMemory => Err(NoBoard::NoMemory),
                BoardFault::TooManyBoards | BoardFault::NotFresh => unreachable!(),
            },
        }
    }
}
