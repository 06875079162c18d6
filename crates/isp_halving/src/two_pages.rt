//! A page that is taken, and writing on it and on another one.
ghost use Rattle.std.specs.Prelude.{◌≡◌, ◌+◌, ◌<◌, ◌≤◌, [], ◌∷◌, ℕ, List, true, false, is_none, length, IfErr, IfOk, IfSome, OnOk};
ghost use Rattle.isp_format.specs.Ranges.{page_of};
ghost use Rattle.isp_format.specs.Rules.{space_number};
ghost use Rattle.isp_halving.specs.Calls.{HasSpace, IsOutside, NamesTreeOrSpace};
ghost use Rattle.isp_halving.specs.Standing.{IsWritten, MayWrite, TakesFor};
ghost use Rattle.isp_page.specs.Calls.{Continues};
ghost use Rattle.isp_page.specs.Steps.{IsNoDamage};
ghost use Rattle.isp_page.specs.Touched.{is_page};
ghost use Rattle.isp_space.specs.Changes.{ChangesOf, ChangesPages, MayChange};
ghost use Rattle.isp_space.specs.Spaces.{Space, free_pages};

use crate::Entry;
use isp_division::Halves;
use isp_format::{Page, PageNo};
use isp_levels::broken;
use isp_page::{Pages, StoreFault, replace};
use isp_space::take_page;

// Takes a page, and reads the one that is to be divided into `into`.
pub(crate) fn take_for<P: Pages>(
    pages: &mut P,
    page: PageNo,
    into: &mut Page,
) -> Result<PageNo, StoreFault>
    requires can { MayChange P.Pages 2 pages.old }
    requires page { page.0 < (P.shape pages.old).pages }
    ensures kept { Continues P.Pages pages.old pages.new result }
    ensures changes { IfOk result (λ right. ChangesOf P.Pages (space_number ∷ right.0 ∷ []) pages.old pages.new) }
    ensures inside { IfOk result (λ right. right.0 < (P.shape pages.old).pages) }
    ensures names { IfErr result (NamesTreeOrSpace (P.shape pages.old).pages) }
    ensures taken { P.tells → (s : Space) → HasSpace P.Pages pages.old s → IsOutside page.0 s
        → 0 < free_pages (P.shape pages.old).pages s
        → IfOk result (λ right. TakesFor P.Pages pages.old pages.new page.0 into.new s right) }
    ensures sound { P.tells → (s : Space) → HasSpace P.Pages pages.old s
        → 0 < free_pages (P.shape pages.old).pages s → IfErr result IsNoDamage }
{
    let right = take_page(pages)?;
    pages.read(page, into)?;
    Ok(right)
}

// Writes on two pages, the right one first. The bytes of the other one are given.
pub(crate) fn write_two<P: Pages>(
    pages: &mut P,
    page: PageNo,
    old: &Page,
    right: PageNo,
    left_part: &Page,
    right_part: &Page,
) -> Result<(), StoreFault>
    requires can { MayWrite P.Pages (right.0 ∷ page.0 ∷ []) pages.old }
    requires page { page.0 < (P.shape pages.old).pages }
    requires right { right.0 < (P.shape pages.old).pages }
    ensures changes { ChangesPages P.Pages (right.0 ∷ page.0 ∷ []) IsNoDamage pages.old pages.new result }
    ensures left { P.tells → is_page right.0 page.0 ≡ false
        → old.now.bytes ≡ page_of (P.contents pages.old) page.0
        → OnOk result (page_of (P.contents pages.new) page.0 ≡ left_part.now.bytes) }
    ensures right { P.tells → is_page right.0 page.0 ≡ false
        → OnOk result (page_of (P.contents pages.new) right.0 ≡ right_part.now.bytes) }
{
    let mut fresh = Page::zeros();
    pages.read(right, &mut fresh)?;
    replace(pages, right, &fresh, right_part)?;
    replace(pages, page, old, left_part)?;
    Ok(())
}

// Writes the parts of a page, if there are any, and answers the entry for the right one.
pub(crate) fn write_parts<P: Pages>(
    pages: &mut P,
    page: PageNo,
    old: &Page,
    right: PageNo,
    parts: Option<Halves>,
) -> Result<Entry, StoreFault>
    requires can { MayWrite P.Pages (right.0 ∷ page.0 ∷ []) pages.old }
    requires page { page.0 < (P.shape pages.old).pages }
    requires right { right.0 < (P.shape pages.old).pages }
    ensures kept { Continues P.Pages pages.old pages.new result }
    ensures changes { IfOk result (λ entry. ChangesOf P.Pages (right.0 ∷ page.0 ∷ []) pages.old pages.new) }
    ensures page { IfOk result (λ entry. entry.page.0 ≡ right.0) }
    ensures names { IfErr result (NamesTreeOrSpace (P.shape pages.old).pages) }
    ensures parts { P.tells → is_page right.0 page.0 ≡ false
        → old.now.bytes ≡ page_of (P.contents pages.old) page.0
        → IfOk result (λ entry. IfSome parts (λ h. IsWritten (P.contents pages.new) page.0 h entry)) }
    ensures sound { is_none parts ≡ false → IfErr result IsNoDamage }
{
    match parts {
        Some(
            Halves {
                left,
                right: behind,
                key,
            },
        ) => {
            write_two(pages, page, old, right, &left, &behind)?;
            Ok(Entry { key, page: right })
        }
        None => Err(broken(page)),
    }
}
