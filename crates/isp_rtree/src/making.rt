//! A tree is made.
ghost use Rattle.std.specs.Prelude.{◌≡◌, ◌<◌, [], ◌∷◌, ℕ, true, IfErr, IfOk, OnOk};
ghost use Rattle.isp_format.specs.HeadValues.{header_in};
ghost use Rattle.isp_format.specs.Header.{header_of};
ghost use Rattle.isp_format.specs.Ranges.{page_of};
ghost use Rattle.isp_page.specs.Steps.{IsNoDamage};
ghost use Rattle.isp_space.specs.Changes.{ChangesPages, MayChange};
ghost use Rattle.isp_space.specs.Spaces.{Space, free_pages};
ghost use Rattle.isp_rtree.specs.Making.{CreatesTree, HasSpace, IsCreated, empty_header};

use isp_format::{CONTENT_PLACE, Head, Page, PageNo, RTREE_KIND, set_head};
use isp_page::{Pages, StoreFault, replace};
use isp_space::take_page;

/// Makes a tree of that owner, without entries, on a page that is taken for it: one leaf with sequence number 0 and no right
/// link.
///
/// # Errors
///
/// As of `take_page` of isp_space.
pub fn create<P: Pages>(pages: &mut P, owner: u32) -> Result<PageNo, StoreFault>
    requires can { MayChange P.Pages 3 pages.old }
    ensures creates { CreatesTree P.Pages pages.old pages.new result }
    ensures made { P.tells → (s : Space) → HasSpace P.Pages pages.old s
        → 0 < free_pages (P.shape pages.old).pages s
        → IfOk result (λ p. IsCreated P.Pages pages.old pages.new owner s p.0) }
    ensures sound { P.tells → (s : Space) → HasSpace P.Pages pages.old s
        → 0 < free_pages (P.shape pages.old).pages s → IfErr result IsNoDamage }
{
    let p = take_page(pages)?;
    make_leaf(pages, p, owner)?;
    Ok(p)
}

// Writes the header of a leaf without entries.
fn make_leaf<P: Pages>(pages: &mut P, p: PageNo, owner: u32) -> Result<(), StoreFault>
    requires can { MayChange P.Pages 1 pages.old }
    requires page { p.0 < (P.shape pages.old).pages }
    ensures changes { ChangesPages P.Pages (p.0 ∷ []) IsNoDamage pages.old pages.new result }
    ensures header { P.tells → OnOk result (header_of (page_of (P.contents pages.new) p.0)
        ≡ empty_header owner p.0) }
{
    let mut page = Page::zeros();
    pages.read(p, &mut page)?;
    let mut new = page;
    set_head(&mut new, &empty_head(owner, p));
    replace(pages, p, &page, &new)?;
    Ok(())
}

// The header of a leaf without entries.
fn empty_head(owner: u32, own: PageNo) -> Head
    ensures { header_in result ≡ empty_header owner own.0 }
{
    Head {
        kind: RTREE_KIND,
        level: 0,
        count: 0,
        owner,
        next: PageNo(0),
        prev: PageNo(0),
        ssn: 0,
        own,
        used: CONTENT_PLACE as u32,
    }
}
