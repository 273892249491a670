//! A scraper does what it is told, on its page.
ghost use Rattle.std.specs.Prelude.{◌≡◌, IfErr, OnErr, OnOk};
ghost use Rattle.page_crew.specs.News.{TakesBoard, TakesFamily, TakesChild, IsDone, IsBegun};
ghost use Rattle.page_crew.specs.declared.news.PageNews.TheVariants.{Board, Family, Child};

use crate::news::PageNews;
use crate::shared_scanner::SharedScanner;
use metric_desc::Desc;
use metric_names::LabelValue;
use registry_state::RegistryState;
use scrape_page::{BoardFault, Page, PageChildFault, PageFamilyFault, PageFamilyId};

/// The page takes a board. Where there is no memory, the board is handed back.
fn do_board<const N: usize, const C: usize, const H: usize, const G: usize>(
    page: &mut Page<SharedScanner<N, C, H, G>, N, C, H, G>,
    board: RegistryState<SharedScanner<N, C, H, G>, N, C, H, G>,
) -> Result<(), PageNews<N, C, H, G>>
    ensures done { OnOk result (TakesBoard board.entry page.old page.new) }
    ensures back { IfErr result (λ news. news ≡ Board board.entry) }
    ensures begun { OnErr result (IsBegun (Board board.entry) page.old page.new) }
{
    match page.add_board(board) {
        Ok(_) => Ok(()),
        Err(refused) => match refused.fault {
            BoardFault::NoMemory => Err(PageNews::Board(refused.board)),
            _ => Ok(()),
        },
    }
}

/// The page registers a family. Where there is no memory, what was told is handed back.
fn do_family<const N: usize, const C: usize, const H: usize, const G: usize>(
    page: &mut Page<SharedScanner<N, C, H, G>, N, C, H, G>,
    desc: Desc,
    group: u64,
) -> Result<(), PageNews<N, C, H, G>>
    ensures done { OnOk result (TakesFamily desc group page.old page.new) }
    ensures back { IfErr result (λ news. news ≡ Family desc group) }
    ensures begun { OnErr result (IsBegun (Family desc group) page.old page.new) }
{
    let Ok(copy) = desc.copy() else {
        return match page.family_refusal(&desc) {
            PageFamilyFault::NoMemory => Err(PageNews::Family { desc, group }),
            PageFamilyFault::Clash { with: _ } => Ok(()),
            PageFamilyFault::TooManyFamilies => Ok(()),
        };
    };
    match page.register(copy, group) {
        Ok(_) => Ok(()),
        Err(PageFamilyFault::NoMemory) => Err(PageNews::Family { desc, group }),
        Err(PageFamilyFault::Clash { with: _ }) => Ok(()),
        Err(PageFamilyFault::TooManyFamilies) => Ok(()),
    }
}

/// The page makes a child. Where there is no memory, what was told is handed back.
fn do_child<const N: usize, const C: usize, const H: usize, const G: usize>(
    page: &mut Page<SharedScanner<N, C, H, G>, N, C, H, G>,
    family: PageFamilyId,
    values: Vec<LabelValue>,
) -> Result<(), PageNews<N, C, H, G>>
    ensures done { OnOk result (TakesChild family.number values.items page.old page.new) }
    ensures back { IfErr result (λ news. news ≡ Child family values) }
    ensures begun { OnErr result (IsBegun (Child family values) page.old page.new) }
{
    match page.child(family, &values) {
        Ok(_) => Ok(()),
        Err(PageChildFault::NoMemory) => Err(PageNews::Child { family, values }),
        Err(_) => Ok(()),
    }
}

/// The page does what was told. Where there is no memory, that is handed back.
pub(crate) fn do_news<const N: usize, const C: usize, const H: usize, const G: usize>(
    page: &mut Page<SharedScanner<N, C, H, G>, N, C, H, G>,
    news: PageNews<N, C, H, G>,
) -> Result<(), PageNews<N, C, H, G>>
    ensures done { OnOk result (IsDone news.entry page.old page.new) }
    ensures back { IfErr result (λ back. back ≡ news.entry) }
    ensures begun { OnErr result (IsBegun news.entry page.old page.new) }
{
    match news {
        PageNews::Board(registry) => do_board(page, registry),
        PageNews::Family { desc, group } => do_family(page, desc, group),
        PageNews::Child { family, values } => do_child(page, family, values),
    }
}
