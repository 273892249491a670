ghost use Rattle.std.specs.Prelude.{◌≡◌, IfSome, IfNone};

use crate::checked::is_scrape;
use crate::number::Number;
use metric_desc::Desc;
use metric_names::LabelValue;
use std::alloc::Global;
use std::marker::Model;
use std::sync::Arc;

/// A child of a family: the values of its labels, in the order of the family's labels, and its number. The values are shared,
/// so that a scrape of them copies no text.
///
/// Contracts see it as a `Child`, the record of the two.
#[derive(Debug, Drop)]
pub struct ChildScrape {
    pub values: Arc<Vec<LabelValue>>,
    pub number: Number,
}

impl Model for ChildScrape {
    ghost use Rattle.std.specs.Arc.{arc_value};
    ghost use Rattle.expo_text.specs.Scraped.{Child};

    ghost Value = { Child };

    ghost view = { λ c. record { values = (arc_value c.values).items; number = c.number } };
}

/// A family: its descriptor, which is shared, so that a scrape of it copies no text, and its children.
///
/// Contracts see it as a `Family`, the record of the two.
#[derive(Debug, Drop)]
pub struct FamilyScrape {
    pub desc: Arc<Desc>,
    pub children: Vec<ChildScrape>,
}

impl Model for FamilyScrape {
    ghost use Rattle.std.specs.Arc.{arc_value};
    ghost use Rattle.expo_text.specs.Scraped.{Family};

    ghost Value = { Family };

    ghost view = { λ f. record { desc = arc_value f.desc; children = f.children.items } };
}

/// All families at one moment, in the order of the text.
///
/// Families stand in strict byte order of their names, at most 128 of them, and the lines of no two take one name.
/// Children stand in strict order of their label values, compared one by one in byte order, at most 256 of a family.
/// Each has as many values as its family has labels and a number of its family's kind, and the count of a histogram is
/// the sum of its buckets. Contracts see it as a `Scraped`, the record of its vector and its families.
#[derive(Debug)]
pub struct Scrape {
    vector: Vec<u64>,
    families: Vec<FamilyScrape>,
}

impl Drop for Scrape {
    fn drop(self) {
        let Scrape {
            vector: _,
            families: _,
        } = self;
    }
}

impl Model for Scrape {
    ghost use Rattle.expo_text.specs.Scraped.{Scraped};
    ghost use Rattle.expo_text.specs.Order.{IsScrape};

    ghost Value = { Scraped };

    ghost view = { λ s. record { vector = s.vector.items; families = s.families.items } };

    ghost invariant = { λ s. IsScrape (record { vector = s.vector.items; families = s.families.items }) };
}

impl Scrape {
    ghost use Rattle.expo_text.specs.Order.{IsScrape};

    /// A scrape of these families, at this vector: how many lists of operations each worker had published.
    /// Takes no memory.
    pub fn new(vector: Vec<u64>, families: Vec<FamilyScrape>) -> Scrape
        requires { IsScrape (record { vector = vector.items; families = families.items }) }
        ensures { result ≡ record { vector = vector.items; families = families.items } }
    {
        Scrape { vector, families }
    }

    /// A scrape of these families, at this vector: how many lists of operations each worker had published. `None` where they
    /// are no families of a scrape: more than 128, not in strict order of their names, two whose lines take one name, or one
    /// with more than 256 children, children not in strict order, too many or too few values, a number of another kind, or a
    /// histogram whose count is not the sum of its buckets.
    ///
    /// Takes no memory. Looks in each pair of families, of which there are at most 8,128, for a name that the lines of both take;
    /// families, and the children of each, are otherwise compared only with the next.
    pub fn checked(vector: Vec<u64>, families: Vec<FamilyScrape>) -> Option<Scrape>
        ensures some { IfSome result (λ scrape. scrape ≡ record { vector = vector.items; families = families.items }) }
        ensures none { IfNone result (¬ (IsScrape (record { vector = vector.items; families = families.items }))) }
    {
        if !is_scrape(&families) {
            return None;
        }
        Some(Scrape::new(vector, families))
    }

    /// How many lists of operations each worker had published.
    pub fn vector(&self) -> &[u64]
        ensures { result.now ≡ self.now.vector }
    {
        &self.vector
    }

    /// The vector, and the families, in the order of the text. Takes no memory.
    pub fn into_parts(self) -> (Vec<u64>, Vec<FamilyScrape>)
        ensures vector { result.0.items ≡ self.vector }
        ensures families { result.1.items ≡ self.families }
        ensures ordered { IsScrape self }
    {
        let Scrape { vector, families } = self;
        (vector, families)
    }

    /// The allocator that the families were made with.
    pub(crate) fn allocator(&self) -> Global {
        *self.families.allocator()
    }

    /// The families, in the order of the text.
    pub fn families(&self) -> &[FamilyScrape]
        ensures families { result.now ≡ self.now.families }
        ensures ordered { IsScrape self.now }
    {
        &self.families
    }
}
