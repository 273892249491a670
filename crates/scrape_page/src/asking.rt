//! What a page answers where it gets no memory.
ghost use Rattle.std.specs.Prelude.{◌≡◌};

use crate::family::PageFamilyId;
use crate::fault::{PageChildFault, PageFamilyFault};
use crate::naming::may_register;
use crate::page::Page;
use crate::seeking::{Sought, seek_of};
use metric_desc::Desc;
use metric_names::LabelValue;
use registry_state::Handle;
use snapshot_scan::Source;

impl<S: Source<N, C, H, G>, const N: usize, const C: usize, const H: usize, const G: usize> Page<
    S,
    N,
    C,
    H,
    G,
> {
    ghost use Rattle.std.specs.Prelude.{◌≡◌, ◌<◌, slice_get, All, IfErr, IfOk, IsSomeAnd};
    ghost use Rattle.registry_state.specs.Calls.{IsInside};
    ghost use Rattle.scrape_page.specs.Faults.{IsMissing, IsPageFamilyFault, IsPageChildFault};
    ghost use Rattle.scrape_page.specs.Calls.{IsGivenOnPage};
    ghost use Rattle.scrape_page.specs.Sought.{IsSought};

    /// Why [`Page::register`] would refuse this family if there were no memory: 19, 23 or 6. For a caller that needs memory of
    /// its own first.
    pub fn family_refusal(&self, desc: &Desc) -> PageFamilyFault
        ensures { IsPageFamilyFault self.now.families desc.now result }
    {
        match may_register(&self.families, desc) {
            Ok(()) => PageFamilyFault::NoMemory,
            Err(fault) => fault,
        }
    }

    // What there is of the child of these values of the family of this number.
    pub(crate) fn seek(
        &self,
        number: usize,
        values: &[LabelValue],
    ) -> Result<Sought, PageChildFault>
        ensures sought { IfOk result (λ sought. IsSomeAnd (slice_get self.now.families number)
            (IsSought C H G self.now.boards values.now sought)) }
        ensures fault { IfErr result (IsPageChildFault C H G self.now number values.now) }
    {
        match self.families.get(number) {
            Some(family) => seek_of(&self.boards, family, values),
            None => Err(PageChildFault::NoSuchFamily),
        }
    }

    /// What [`Page::child`] would answer if there were no memory: the handle of the child of these values, if it is there. For a
    /// caller that needs memory of its own first.
    ///
    /// # Errors
    ///
    /// 20 [`PageChildFault::NoSuchFamily`]; 21 [`PageChildFault::LabelCount`]; then, of a child that is not there, 46
    /// [`PageChildFault::TooManyChildren`], 22 [`PageChildFault::Full`] and 6 [`PageChildFault::NoMemory`].
    pub fn child_there(
        &self,
        family: PageFamilyId,
        values: &[LabelValue],
    ) -> Result<Handle, PageChildFault>
        ensures given { IfOk result (IsGivenOnPage C H G self.now self.now family.number values.now) }
        ensures inside { IfOk result (IsInside C H G) }
        ensures fault { IfErr result (IsPageChildFault C H G self.now family.number values.now) }
    {
        let number = family.number;
        match self.seek(number, values)? {
            Sought::There(handle) => Ok(handle),
            Sought::Room(_part) => Err(PageChildFault::NoMemory),
            Sought::Full(kind) => {
                let _place = self.further(number, kind, values)?;
                Err(PageChildFault::NoMemory)
            }
        }
    }
}
