//! Pages are taken.
ghost use Rattle.std.specs.Prelude.{◌≡◌, ◌≤◌, [], length, vec_capacity, IfErr, OnOk};
ghost use Rattle.isp_page.specs.Steps.{IsNoDamage};
ghost use Rattle.isp_space.specs.Changes.{MayChange};
ghost use Rattle.isp_space.specs.Spaces.{Space, free_pages};
ghost use Rattle.isp_rtree.specs.Making.{HasSpace};
ghost use Rattle.isp_rinsert.specs.Applying.{AreTaken, TakesPages};
ghost use Rattle.isp_rinsert.specs.Calls.{most_taken};

use isp_format::PageNo;
use isp_page::{Pages, StoreFault};
use isp_space::take_page;

/// Takes so many pages, into a list that has room for them.
pub(crate) fn take_pages<P: Pages>(
    pages: &mut P,
    count: usize,
    news: &mut Vec<PageNo>,
) -> Result<(), StoreFault>
    requires can { MayChange P.Pages 35 pages.old }
    requires few { count ≤ most_taken }
    requires none { news.old.items ≡ [] }
    requires room { count ≤ vec_capacity news.old }
    ensures takes { TakesPages P.Pages news.new.items pages.old pages.new result }
    ensures count { OnOk result (length news.new.items ≡ count) }
    ensures taken { P.tells → (s : Space) → HasSpace P.Pages pages.old s
        → count ≤ free_pages (P.shape pages.old).pages s
        → OnOk result (AreTaken P.Pages count s news.new.items pages.old pages.new) }
    ensures sound { P.tells → (s : Space) → HasSpace P.Pages pages.old s
        → count ≤ free_pages (P.shape pages.old).pages s → IfErr result IsNoDamage }
{
    for _page in 0..count {
        let p = take_page(pages)?;
        news.push_reserved(p);
    }
    Ok(())
}
