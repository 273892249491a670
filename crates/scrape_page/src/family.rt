//! Families of a page, and their parts.
ghost use Rattle.std.specs.Prelude.{◌≡◌};

use metric_desc::Desc;
use registry_state::FamilyId;
use std::marker::Model;
use std::sync::Arc;

/// A part of a family: the board that it is on, by its number, and the family there.
#[derive(Clone, Copy, Debug, PartialEq, Eq)]
pub struct Part {
    /// The board's number: how many boards came before it.
    pub board: usize,
    /// The family of the board's registry.
    pub family: FamilyId,
}

/// A family of a page, by its number alone: a family of another page is taken for the one of that number, and refused (20) only
/// where there are not so many.
#[repr(C)]
#[derive(Clone, Copy, Debug, PartialEq, Eq)]
pub struct PageFamilyId {
    pub(crate) number: usize,
}

impl PageFamilyId {
    /// The family of this number.
    pub fn of(number: usize) -> PageFamilyId
        ensures { result.number ≡ number }
    {
        PageFamilyId { number }
    }

    /// The family's number: how many families were registered before it.
    pub fn number(&self) -> usize
        ensures { result ≡ self.now.number }
    {
        self.number
    }
}

/// A family of a page: its descriptor, which is shared, its group, the number of its group's board, its parts, and how many
/// children it has on all boards.
///
/// Contracts see it as a `PageFamily`, the record of these.
#[derive(Drop)]
pub struct PageFamily {
    pub(crate) desc: Arc<Desc>,
    pub(crate) group: u64,
    pub(crate) home: usize,
    pub(crate) parts: Vec<Part>,
    pub(crate) children: usize,
}

impl Model for PageFamily {
    ghost use Rattle.std.specs.Arc.{arc_value};
    ghost use Rattle.scrape_page.specs.Families.{PageFamily as PageFamilyModel};

    ghost Value = { PageFamilyModel };

    ghost view = { λ f. record {
      desc = arc_value f.desc;
      group = f.group;
      home = f.home;
      parts = f.parts.items;
      children = f.children;
    } };
}

impl PageFamily {
    /// What the family is.
    pub fn desc(&self) -> &Desc
        ensures { result.now ≡ self.now.desc }
    {
        &self.desc
    }

    /// Its group.
    pub fn group(&self) -> u64
        ensures { result ≡ self.now.group }
    {
        self.group
    }

    /// The number of the board that its group is on.
    pub fn home(&self) -> usize
        ensures { result ≡ self.now.home }
    {
        self.home
    }

    /// Its parts, in the order in which it took them.
    pub fn parts(&self) -> &[Part]
        ensures { result.now ≡ self.now.parts }
    {
        &self.parts
    }

    /// How many children it has, on all boards.
    pub fn children(&self) -> usize
        ensures { result ≡ self.now.children }
    {
        self.children
    }
}
