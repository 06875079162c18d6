//! Giving pages back.
ghost use Rattle.std.specs.Prelude.{◌≡◌, ◌+◌, ◌<◌, ◌≤◌, ◌||◌, [], ◌∷◌, List, ℕ, true, false, is_none, ◌^◌, length, IfErr, IfSome, OnOk};
ghost use Rattle.isp_format.specs.Empty.{first_fresh};
ghost use Rattle.isp_format.specs.Ranges.{page_of};
ghost use Rattle.isp_format.specs.Rules.{space_number};
ghost use Rattle.isp_format.specs.Space.{IsSpacePage, SpacePage};
ghost use Rattle.isp_page.specs.Calls.{Continues};
ghost use Rattle.isp_page.specs.State.{HasRoom, most_changed};
ghost use Rattle.isp_page.specs.Steps.{IsNoDamage};
ghost use Rattle.isp_page.specs.Touched.{Grows, KeepsPages, is_page};
ghost use Rattle.isp_format.specs.SpaceValues.{page_in};
ghost use Rattle.isp_space.specs.Giving.{IsGiven, IsRelinked, with_chain, with_given};
ghost use Rattle.isp_space.specs.Spaces.{IsSpace, NamesSpace, Space, first_of};

use crate::space::{read_numbers, write_numbers};
use isp_format::{CHAIN_RULE, Head, Page, PageNo, SPACE_PAGE, SpaceNumbers, head, set_head};
use isp_page::{Pages, StoreFault, replace};

/// Gives a chain of pages back: so many, each with a link to the next, from the first to the last. They stand before the free
/// chain then, so the first of them is the next one to be taken. Page 0 and the last page's link change, and nothing else,
/// however long the chain is.
///
/// # Errors
///
/// Disk; or Damaged, with page 0 and rule 4, where page 0 says no space, or rule 5, where more pages would be free than there
/// are numbers.
pub fn give_chain<P: Pages>(
    pages: &mut P,
    first: PageNo,
    last: PageNo,
    count: u32,
) -> Result<(), StoreFault>
    requires usable { P.usable pages.old ≡ true }
    requires last { (first_fresh ≤ last.0) × (last.0 < (P.shape pages.old).pages) }
    requires begun { (P.mini pages.old).is_begun ≡ true }
    requires room { length (P.mini pages.old).changed + 2 ≤ most_changed }
    ensures kept { Continues P.Pages pages.old pages.new result }
    ensures others { P.tells → OnOk result (KeepsPages
        (λ q. is_page last.0 q || is_page space_number q)
        (P.contents pages.old) (P.contents pages.new)) }
    ensures grown { OnOk result (Grows (last.0 ∷ 0 ∷ []) (P.mini pages.old) (P.mini pages.new)) }
    ensures given { P.tells → (s : Space) (chain : List ℕ)
        → IsSpace (P.shape pages.old).pages (P.contents pages.old) s
        → IsGiven (P.contents pages.old) s first.0 last.0 count chain
        → OnOk result (IsSpace (P.shape pages.new).pages (P.contents pages.new)
        (with_chain chain s)) }
    ensures link { P.tells → (s : Space)
        → IsSpace (P.shape pages.old).pages (P.contents pages.old) s
        → OnOk result (IsRelinked (first_of s.free)
        (page_of (P.contents pages.old) last.0) (page_of (P.contents pages.new) last.0)) }
    ensures sound { P.tells → (s : Space) (chain : List ℕ)
        → IsSpace (P.shape pages.old).pages (P.contents pages.old) s
        → IsGiven (P.contents pages.old) s first.0 last.0 count chain → IfErr result IsNoDamage }
    ensures names { IfErr result NamesSpace }
{
    let mut page = Page::zeros();
    let numbers = read_numbers(pages, &mut page)?;
    match given_numbers(&numbers, first, count) {
        Some(given) => {
            let next = PageNo(numbers.free_head);
            splice(pages, last, next, &page, &given)?;
            Ok(())
        }
        None => Err(StoreFault::Damaged {
            page: SPACE_PAGE,
            rule: CHAIN_RULE,
        }),
    }
}

// The numbers of page 0 once so many pages from that one on are given back.
fn given_numbers(numbers: &SpaceNumbers, first: PageNo, count: u32) -> Option<SpaceNumbers>
    ensures numbers { IfSome result (λ given.
        page_in given ≡ with_given first.0 count (page_in numbers.now)) }
    ensures some { numbers.now.free_count + count < 2 ^ 32 → is_none result ≡ false }
{
    match numbers.free_count.checked_add(count) {
        Some(free_count) => Some(SpaceNumbers {
            free_head: first.0,
            free_count,
            ..*numbers
        }),
        None => None,
    }
}

// Sets the link of the last page, and then the numbers of page 0, whose bytes are given.
fn splice<P: Pages>(
    pages: &mut P,
    last: PageNo,
    next: PageNo,
    page: &Page,
    given: &SpaceNumbers,
) -> Result<(), StoreFault>
    requires usable { P.usable pages.old ≡ true }
    requires last { (first_fresh ≤ last.0) × (last.0 < (P.shape pages.old).pages) }
    requires begun { (P.mini pages.old).is_begun ≡ true }
    requires room { length (P.mini pages.old).changed + 2 ≤ most_changed }
    ensures kept { Continues P.Pages pages.old pages.new result }
    ensures others { P.tells → OnOk result (KeepsPages
        (λ q. is_page last.0 q || is_page space_number q)
        (P.contents pages.old) (P.contents pages.new)) }
    ensures grown { OnOk result (Grows (last.0 ∷ 0 ∷ []) (P.mini pages.old) (P.mini pages.new)) }
    ensures link { P.tells → OnOk result (IsRelinked next.0
        (page_of (P.contents pages.old) last.0) (page_of (P.contents pages.new) last.0)) }
    ensures says { P.tells → (was : SpacePage)
        → IsSpacePage (page_of (P.contents pages.old) space_number) was
        → page.now.bytes ≡ page_of (P.contents pages.old) space_number
        → OnOk result (IsSpacePage (page_of (P.contents pages.new) space_number) (page_in given.now)) }
    ensures sound { IfErr result IsNoDamage }
{
    link(pages, last, next)?;
    write_numbers(pages, page, given)?;
    Ok(())
}

// Sets the link of a page.
fn link<P: Pages>(pages: &mut P, p: PageNo, next: PageNo) -> Result<(), StoreFault>
    requires usable { P.usable pages.old ≡ true }
    requires page { p.0 < (P.shape pages.old).pages }
    requires begun { (P.mini pages.old).is_begun ≡ true }
    requires room { HasRoom p.0 (P.mini pages.old) }
    ensures kept { Continues P.Pages pages.old pages.new result }
    ensures sound { IfErr result IsNoDamage }
    ensures others { P.tells → OnOk result
        (KeepsPages (is_page p.0) (P.contents pages.old) (P.contents pages.new)) }
    ensures grown { OnOk result (Grows (p.0 ∷ []) (P.mini pages.old) (P.mini pages.new)) }
    ensures link { P.tells → OnOk result (IsRelinked next.0
        (page_of (P.contents pages.old) p.0) (page_of (P.contents pages.new) p.0)) }
{
    let mut page = Page::zeros();
    pages.read(p, &mut page)?;
    let new = relinked(&page, next);
    replace(pages, p, &page, &new)?;
    Ok(())
}

// The page with another link.
fn relinked(page: &Page, next: PageNo) -> Page
    ensures { IsRelinked next.0 page.now.bytes result.bytes }
{
    let mut new = *page;
    let h = Head { next, ..head(page) };
    set_head(&mut new, &h);
    new
}
