//! Why a page refuses.
ghost use Rattle.std.specs.Prelude.{◌≡◌};
ghost use Rattle.scrape_page.specs.Faults.{board_fault_number, family_fault_number, child_fault_number};

use metric_desc::Kind;
use thiserror::Error;

/// Why a board is not taken.
#[derive(Clone, Copy, Debug, PartialEq, Eq, Error)]
pub enum BoardFault {
    /// Refusal 44: 96 boards are there.
    #[error("96 boards are there")]
    TooManyBoards,
    /// Refusal 45: a family is registered on it, or its id is that of a board that is there.
    #[error("the board has a family, or the id of another board")]
    NotFresh,
    /// Refusal 6: a growth was refused.
    #[error("out of memory")]
    NoMemory,
}

impl BoardFault {
    /// The refusal's number.
    pub fn number(&self) -> u8
        ensures { result ≡ board_fault_number self.now }
    {
        match self {
            BoardFault::TooManyBoards => 44,
            BoardFault::NotFresh => 45,
            BoardFault::NoMemory => 6,
        }
    }
}

/// Why a family is not registered.
#[derive(Clone, Copy, Debug, PartialEq, Eq, Error)]
pub enum PageFamilyFault {
    /// Refusal 19: a name is shared with the lines of this family of the page, by number, the least such.
    #[error("a name is shared with the lines of family {with}, counted from 0 as they were registered")]
    Clash { with: usize },
    /// Refusal 23: 128 families are there.
    #[error("128 families are there")]
    TooManyFamilies,
    /// Refusal 6: a growth was refused.
    #[error("out of memory")]
    NoMemory,
}

impl PageFamilyFault {
    /// The refusal's number.
    pub fn number(&self) -> u8
        ensures { result ≡ family_fault_number self.now }
    {
        match self {
            PageFamilyFault::Clash { .. } => 19,
            PageFamilyFault::TooManyFamilies => 23,
            PageFamilyFault::NoMemory => 6,
        }
    }
}

/// Why there is no child.
#[derive(Clone, Copy, Debug, PartialEq, Eq, Error)]
pub enum PageChildFault {
    /// Refusal 20: there is no family of this number.
    #[error("there is no such family")]
    NoSuchFamily,
    /// Refusal 21: the family has `want` labels, and `got` values were given.
    #[error("{got} label values for {want} labels")]
    LabelCount { want: usize, got: usize },
    /// Refusal 46: the family has 256 children.
    #[error("the family has 256 children")]
    TooManyChildren,
    /// Refusal 22: every slot of this kind is used, on every board.
    #[error("all {slots} {kind:?} slots of each board are used")]
    Full { kind: Kind, slots: usize },
    /// Refusal 6: a growth was refused.
    #[error("out of memory")]
    NoMemory,
}

impl PageChildFault {
    /// The refusal's number.
    pub fn number(&self) -> u8
        ensures { result ≡ child_fault_number self.now }
    {
        match self {
            PageChildFault::NoSuchFamily => 20,
            PageChildFault::LabelCount { .. } => 21,
            PageChildFault::TooManyChildren => 46,
            PageChildFault::Full { .. } => 22,
            PageChildFault::NoMemory => 6,
        }
    }
}
