//! What a page's owner asks of the page.
ghost use Rattle.std.specs.Prelude.{◌≡◌};

use crate::fault::NoBoard;
use crate::news::{child_news, family_news, tell};
use crate::owner::PageCrew;
use crate::shared_scanner::SharedScanner;
use metric_desc::{Desc, Kind};
use metric_names::LabelValue;
use registry_state::Handle;
use scrape_page::{Page, PageChildFault, PageFamilyFault, PageFamilyId};

impl<const N: usize, const C: usize, const H: usize, const G: usize> PageCrew<N, C, H, G> {
    ghost use Rattle.std.specs.Prelude.{◌≡◌, ◌≢◌, ◌<◌, ℕ, [], length, slice_get, All, IfErr, IfOk, IsSomeAnd, MatchOption};
    ghost use Rattle.std.specs.Prelude.{OnErr, OnOk};
    ghost use Rattle.registry_state.specs.Calls.{IsInside};
    ghost use Rattle.registry_state.specs.Replay.{slots};
    ghost use Rattle.scrape_page.specs.Rooms.{IsHome};
    ghost use Rattle.scrape_page.specs.Faults.{AreApart, IsPageFamilyFault, IsPageChildFault};
    ghost use Rattle.scrape_page.specs.Calls.{AddsFamily, IsGivenOnPage, LeavesPage};
    ghost use Rattle.scrape_page.specs.declared.fault.PageChildFault.TheVariants.{Full};
    ghost use Rattle.page_crew.specs.Told.{news_of, parts_in, HasToldFamily, HasToldChild, HasToldFurther, HasToldGiven};
    ghost use Rattle.page_crew.specs.Told.{HasToldBoards, HasToldRefused};
    ghost use Rattle.page_crew.specs.Owned.{page_of, PageDid, IsUnchanged, IsGivenByCrew, IsGivenFurther, IsRefusedByCrew};
    ghost use Rattle.page_crew.specs.Owned.{IsRefusedFurther};

    /// Registers a family in a group: [`Page::register`]. Each scraper is told of it.
    ///
    /// # Errors
    ///
    /// 19 [`PageFamilyFault::Clash`]; 23 [`PageFamilyFault::TooManyFamilies`]; 6 [`PageFamilyFault::NoMemory`]. Nothing has
    /// changed then.
    pub fn register(&mut self, desc: Desc, group: u64) -> Result<PageFamilyId, PageFamilyFault>
        ensures number { IfOk result (λ family. family.number ≡ length (page_of self.old).families) }
        ensures accepted { OnOk result (AreApart (page_of self.old).families desc × (length (page_of self.old).families < 128)) }
        ensures registered { OnOk result (PageDid self.old self.new (λ a b. (home : ℕ) × IsHome C H G a desc.kind group home
            × AddsFamily a b desc group home)) }
        ensures fault { IfErr result (IsPageFamilyFault (page_of self.old).families desc) }
        ensures unchanged { OnErr result (IsUnchanged self.old self.new) }
        ensures told { OnOk result (HasToldFamily self.old self.new desc group) }
        ensures untold { OnErr result (news_of self.new ≡ news_of self.old) }
    {
        let Ok(news) = family_news(self.alloc, &self.news, &desc, group) else {
            return Err(self.page.family_refusal(&desc));
        };
        match self.page.register(desc, group) {
            Ok(family) => {
                tell(&mut self.news, news);
                Ok(family)
            }
            Err(why) => Err(why),
        }
    }

    /// The family of this name, if there is one.
    pub fn family(&self, name: &str) -> Option<PageFamilyId>
        ensures { MatchOption result (All (λ it. it.desc.name ≢ name.now) (page_of self.now).families)
            (λ family. IsSomeAnd (slice_get (page_of self.now).families family.number) (λ it. it.desc.name ≡ name.now)) }
    {
        self.page.family(name)
    }

    /// The page.
    pub fn page(&self) -> &Page<SharedScanner<N, C, H, G>, N, C, H, G>
        ensures { result.now ≡ page_of self.now }
    {
        &self.page
    }

    // How many children the family of this number has.
    fn children_of(&self, family: PageFamilyId) -> usize
        ensures { MatchOption (slice_get (page_of self.now).families family.number) (result ≡ 0) (λ it. result ≡ it.children) }
    {
        match self.page.families().get(family.number()) {
            Some(it) => it.children(),
            None => 0,
        }
    }

    // The child of these values, as the page gives it. If it is made, each scraper is told of it.
    fn ask(&mut self, family: PageFamilyId, values: &[LabelValue]) -> Result<Handle, PageChildFault>
        ensures given { IfOk result (λ handle. PageDid self.old self.new
            (λ a b. IsGivenOnPage C H G a b family.number values.now handle)) }
        ensures inside { IfOk result (IsInside C H G) }
        ensures fault { IfErr result (IsPageChildFault C H G (page_of self.old) family.number values.now) }
        ensures leaves { IfErr result (λ why. PageDid self.old self.new (λ a b. LeavesPage C H G a b family.number why)) }
        ensures told { IfOk result (HasToldChild self.old self.new family.number values.now) }
        ensures untold { OnErr result (news_of self.new ≡ news_of self.old) }
    {
        let Ok(news) = child_news(self.alloc, &self.news, family, values) else {
            return self.page.child_there(family, values);
        };
        let before = self.children_of(family);
        match self.page.child(family, values) {
            Ok(handle) => {
                if self.children_of(family) == before {
                    return Ok(handle);
                }
                tell(&mut self.news, news);
                Ok(handle)
            }
            Err(why) => Err(why),
        }
    }

    // A board is made, where one may come, and the page is asked again.
    fn ask_further(
        &mut self,
        family: PageFamilyId,
        values: &[LabelValue],
        kind: Kind,
        slots: usize,
    ) -> Result<Handle, PageChildFault>
        requires full { IsPageChildFault C H G (page_of self.old) family.number values.now (Full kind slots) }
        ensures given { IfOk result (IsGivenFurther self.old self.new family.number values.now) }
        ensures inside { IfOk result (IsInside C H G) }
        ensures fault { IfErr result (IsRefusedFurther self.old self.new family.number kind slots) }
        ensures told { IfOk result (HasToldFurther self.old self.new family.number values.now) }
        ensures untold { OnErr result (HasToldBoards self.old self.new family.number) }
    {
        if slots == 0 {
            return Err(PageChildFault::Full { kind, slots });
        }
        match self.add_board() {
            Ok(_) => self.ask(family, values),
            Err(NoBoard::TooManyBoards) => Err(PageChildFault::Full { kind, slots }),
            Err(NoBoard::NoMemory) => Err(PageChildFault::NoMemory),
            Err(NoBoard::Geometry) => unreachable!(),
        }
    }

    // The child of these values, also on a further board.
    fn give_child(
        &mut self,
        family: PageFamilyId,
        values: &[LabelValue],
    ) -> Result<Handle, PageChildFault>
        ensures given { IfOk result (IsGivenByCrew self.old self.new family.number values.now) }
        ensures inside { IfOk result (IsInside C H G) }
        ensures fault { IfErr result (IsRefusedByCrew self.old self.new family.number values.now) }
        ensures told { IfOk result (HasToldGiven self.old self.new family.number values.now) }
        ensures untold { OnErr result (HasToldBoards self.old self.new family.number) }
    {
        match self.ask(family, values) {
            Err(PageChildFault::Full { kind, slots }) => {
                self.ask_further(family, values, kind, slots)
            }
            answer => answer,
        }
    }

    // How many parts the family of this number has.
    fn parts_of(&self, family: PageFamilyId) -> usize
        ensures { result ≡ parts_in (page_of self.now) family.number }
    {
        match self.page.families().get(family.number()) {
            Some(it) => it.parts().len(),
            None => 0,
        }
    }

    // Where the family has other parts than it had before a child was refused, no scraper is told anything from now on.
    fn keep_in_step(&mut self, family: PageFamilyId, before: usize)
        ensures unchanged { IsUnchanged self.old self.new }
        ensures same { parts_in (page_of self.old) family.number ≡ before → news_of self.new ≡ news_of self.old }
        ensures gone { parts_in (page_of self.old) family.number ≢ before → news_of self.new ≡ [] }
    {
        if self.parts_of(family) != before {
            self.news.clear();
        }
    }

    /// The handle of the child of these values, as [`Page::child`] gives it; but where every slot of the kind is used on every
    /// board, a further board is made, and the child is made on it. Each recorder meets the board at its first call by the
    /// handle, and each scraper is told of the board, and of a child that is made.
    ///
    /// # Errors
    ///
    /// 20, 21, 46 and 6 as [`Page::child`]; 22 [`PageChildFault::Full`] only where 96 boards are there, or a board has no slot of
    /// the kind at all. After 6 there may be one board more, on which nothing is counted, and a part of the family on a further
    /// board, which no text shows. No scraper is told anything after such a part ([`PageCrew::scrapers`] is 0 then): of boards,
    /// families and children each shows what it was told.
    pub fn child(
        &mut self,
        family: PageFamilyId,
        values: &[LabelValue],
    ) -> Result<Handle, PageChildFault>
        ensures given { IfOk result (IsGivenByCrew self.old self.new family.number values.now) }
        ensures inside { IfOk result (IsInside C H G) }
        ensures fault { IfErr result (IsRefusedByCrew self.old self.new family.number values.now) }
        ensures told { IfOk result (HasToldGiven self.old self.new family.number values.now) }
        ensures untold { OnErr result (HasToldRefused self.old self.new family.number) }
    {
        let before = self.parts_of(family);
        match self.give_child(family, values) {
            Ok(handle) => Ok(handle),
            Err(why) => {
                self.keep_in_step(family, before);
                Err(why)
            }
        }
    }
}
