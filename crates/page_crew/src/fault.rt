//! Why there is no board, why changes are not published, and why a page has no exact totals.
ghost use Rattle.std.specs.Prelude.{◌≡◌};

use snapshot_update::CountFault;
use thiserror::Error;

/// Why no board is made.
#[derive(Clone, Copy, Debug, PartialEq, Eq, Error)]
pub enum NoBoard {
    /// Refusal 44: the page has 96 boards.
    #[error("44: 96 boards are there")]
    TooManyBoards,
    /// Refusal 13: workers or slots are out of range.
    #[error("13: 1 to 32 workers, at most 256 counters, 32 histograms, 64 gauges and 3 scrapers")]
    Geometry,
    /// Refusal 6: there is no memory.
    #[error("6: out of memory")]
    NoMemory,
}

impl NoBoard {
    ghost use Rattle.page_crew.specs.Opened.{no_board_number};

    /// The refusal's number.
    pub fn number(&self) -> u8
        ensures { result ≡ no_board_number self.now }
    {
        match self {
            NoBoard::TooManyBoards => 44,
            NoBoard::Geometry => 13,
            NoBoard::NoMemory => 6,
        }
    }
}

/// Why there is no page with those who work on it.
#[derive(Clone, Copy, Debug, PartialEq, Eq, Error)]
pub enum PageCrewFault {
    /// Refusal 31: the window is not 1 to 1,024.
    #[error("31: the window is not 1 to 1,024 scrapes")]
    BadWindow,
    /// The first board is not made: refusal 13 or 6.
    #[error(transparent)]
    Board(NoBoard),
}

impl PageCrewFault {
    ghost use Rattle.page_crew.specs.Opened.{page_crew_fault_number};

    /// The refusal's number.
    pub fn number(&self) -> u8
        ensures { result ≡ page_crew_fault_number self.now }
    {
        match self {
            PageCrewFault::BadWindow => 31,
            PageCrewFault::Board(why) => why.number(),
        }
    }
}

/// Why several changes are not published. No number has changed then.
#[derive(Clone, Copy, Debug, PartialEq, Eq, Error)]
pub enum PublishFault {
    /// Refusal 47: the changes are of two boards, which are never one version.
    #[error("47: the changes are of two boards, which are never one version")]
    TwoBoards,
    /// Refusals 16, 15, 11 and 12.
    #[error("{}: {}", .0.number(), .0)]
    Count(CountFault),
}

impl PublishFault {
    ghost use Rattle.page_crew.specs.Publishing.{publish_fault_number};

    /// The refusal's number.
    pub fn number(&self) -> u8
        ensures { result ≡ publish_fault_number self.now }
    {
        match self {
            PublishFault::TwoBoards => 47,
            PublishFault::Count(fault) => fault.number(),
        }
    }
}

/// Why a page has no exact totals.
#[derive(Clone, Copy, Debug, PartialEq, Eq, Error)]
pub enum SettleFault {
    /// Refusal 18: on a board there is not the recorder of each worker at its place.
    #[error("18: board {board}: worker {missing} is missing, or not at its place")]
    NotAll {
        /// The id of the first such board.
        board: u64,
        /// The least place at which not the recorder of that worker is; `N` where there is one too many.
        missing: usize,
    },
    /// Refusal 6: there is no memory.
    #[error("6: out of memory")]
    NoMemory,
}

impl SettleFault {
    ghost use Rattle.page_crew.specs.Settling.{settle_fault_number};

    /// The refusal's number.
    pub fn number(&self) -> u8
        ensures { result ≡ settle_fault_number self.now }
    {
        match self {
            SettleFault::NotAll { .. } => 18,
            SettleFault::NoMemory => 6,
        }
    }
}
