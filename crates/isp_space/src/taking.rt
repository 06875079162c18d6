//! Taking a page that is free.
ghost use Rattle.std.specs.Prelude.{◌≡◌, ◌+◌, ◌<◌, ◌≤◌, ◌&&◌, ◌||◌, [], ◌∷◌, true, nat_le, nat_lt, length, IfErr, IfOk, OnOk};
ghost use Rattle.isp_format.specs.Empty.{first_fresh};
ghost use Rattle.isp_format.specs.Header.{header_of};
ghost use Rattle.isp_format.specs.Ranges.{page_of};
ghost use Rattle.isp_format.specs.HeadValues.{header_in};
ghost use Rattle.isp_format.specs.Rules.{space_number};
ghost use Rattle.isp_page.specs.Calls.{Continues};
ghost use Rattle.isp_page.specs.State.{HasRoom, most_changed};
ghost use Rattle.isp_page.specs.Steps.{IsNoDamage};
ghost use Rattle.isp_page.specs.Touched.{Grows, KeepsPages, is_page};
ghost use Rattle.isp_format.specs.SpaceValues.{page_in};
ghost use Rattle.isp_space.specs.Spaces.{IsSpace, NamesSpace, Space, fresh_header, free_pages, next_free, space_page, taken, without_first};

use crate::space::{read_numbers, write_numbers};
use isp_format::{
    CHAIN_RULE, FIRST_FRESH, FREE_KIND, Head, Page, PageNo, SPACE_PAGE, SpaceNumbers, head,
    set_head,
};
use isp_page::{Pages, StoreFault, replace};

/// Takes a page that is free: the first of the free chain, else the first never used. Its header says a free page with its
/// own number and nothing else; the bytes behind it stay.
///
/// # Errors
///
/// Disk; or Damaged, with page 0 and rule 4 or 5, or with the free page and rule 5, where the space is none or no page is
/// free.
pub fn take_page<P: Pages>(pages: &mut P) -> Result<PageNo, StoreFault>
    requires usable { P.usable pages.old ≡ true }
    requires begun { (P.mini pages.old).is_begun ≡ true }
    requires room { length (P.mini pages.old).changed + 2 ≤ most_changed }
    ensures kept { Continues P.Pages pages.old pages.new result }
    ensures others { P.tells → IfOk result (λ p. KeepsPages
        (λ q. is_page space_number q || is_page p.0 q)
        (P.contents pages.old) (P.contents pages.new)) }
    ensures grown { IfOk result (λ p. Grows (space_number ∷ p.0 ∷ []) (P.mini pages.old) (P.mini pages.new)) }
    ensures inside { IfOk result (λ p. p.0 < (P.shape pages.old).pages) }
    ensures header { P.tells → IfOk result (λ p.
        header_of (page_of (P.contents pages.new) p.0) ≡ fresh_header p.0) }
    ensures taken { P.tells → (s : Space)
        → IsSpace (P.shape pages.old).pages (P.contents pages.old) s
        → 0 < free_pages (P.shape pages.old).pages s
        → OnOk result (IsSpace (P.shape pages.new).pages (P.contents pages.new) (taken s)) }
    ensures page { P.tells → (s : Space)
        → IsSpace (P.shape pages.old).pages (P.contents pages.old) s
        → 0 < free_pages (P.shape pages.old).pages s → IfOk result (λ p. p.0 ≡ next_free s) }
    ensures sound { P.tells → (s : Space)
        → IsSpace (P.shape pages.old).pages (P.contents pages.old) s
        → 0 < free_pages (P.shape pages.old).pages s → IfErr result IsNoDamage }
    ensures names { IfErr result NamesSpace }
{
    let mut page = Page::zeros();
    let numbers = read_numbers(pages, &mut page)?;
    let (p, left) = next_page(pages, &numbers)?;
    write_numbers(pages, &page, &left)?;
    clear_head(pages, p)?;
    Ok(p)
}

// The page that is taken next, and the numbers of page 0 once it is.
fn next_page<P: Pages>(
    pages: &mut P,
    numbers: &SpaceNumbers,
) -> Result<(PageNo, SpaceNumbers), StoreFault>
    requires usable { P.usable pages.old ≡ true }
    requires from { first_fresh ≤ numbers.now.fresh }
    requires to { numbers.now.fresh ≤ (P.shape pages.old).pages }
    ensures kept { Continues P.Pages pages.old pages.new result }
    ensures contents { P.tells → OnOk result (P.contents pages.new ≡ P.contents pages.old) }
    ensures mini { OnOk result (P.mini pages.new ≡ P.mini pages.old) }
    ensures inside { IfOk result (λ next. next.0.0 < (P.shape pages.old).pages) }
    ensures behind { IfOk result (λ next. first_fresh ≤ next.0.0) }
    ensures page { P.tells → (s : Space)
        → IsSpace (P.shape pages.old).pages (P.contents pages.old) s
        → page_in numbers.now ≡ space_page s → IfOk result (λ next. next.0.0 ≡ next_free s) }
    ensures left { P.tells → (s : Space)
        → IsSpace (P.shape pages.old).pages (P.contents pages.old) s
        → page_in numbers.now ≡ space_page s
        → IfOk result (λ next. page_in next.1 ≡ space_page (taken s)) }
    ensures sound { P.tells → (s : Space)
        → IsSpace (P.shape pages.old).pages (P.contents pages.old) s
        → page_in numbers.now ≡ space_page s
        → 0 < free_pages (P.shape pages.old).pages s → IfErr result IsNoDamage }
    ensures names { IfErr result NamesSpace }
{
    if numbers.free_count == 0 {
        first_fresh(pages, numbers)
    } else {
        first_free(pages, numbers)
    }
}

// The same where the free chain is empty.
fn first_fresh<P: Pages>(
    pages: &mut P,
    numbers: &SpaceNumbers,
) -> Result<(PageNo, SpaceNumbers), StoreFault>
    requires usable { P.usable pages.old ≡ true }
    requires to { numbers.now.fresh ≤ (P.shape pages.old).pages }
    ensures kept { Continues P.Pages pages.old pages.new result }
    ensures same { pages.new ≡ pages.old }
    ensures next { IfOk result (λ next.
        (next.0.0 ≡ numbers.now.fresh) × (next.0.0 < (P.shape pages.old).pages)) }
    ensures left { IfOk result (λ next. page_in next.1
        ≡ (let n = page_in numbers.now in record n { fresh = n.fresh + 1 })) }
    ensures refused { IfErr result (λ e. (P.shape pages.old).pages ≤ numbers.now.fresh) }
    ensures names { IfErr result NamesSpace }
{
    if numbers.fresh < pages.pages() {
        let fresh = numbers.fresh + 1;
        Ok((PageNo(numbers.fresh), SpaceNumbers { fresh, ..*numbers }))
    } else {
        Err(StoreFault::Damaged {
            page: SPACE_PAGE,
            rule: CHAIN_RULE,
        })
    }
}

// The same where the free chain has a page.
fn first_free<P: Pages>(
    pages: &mut P,
    numbers: &SpaceNumbers,
) -> Result<(PageNo, SpaceNumbers), StoreFault>
    requires usable { P.usable pages.old ≡ true }
    requires to { numbers.now.fresh ≤ (P.shape pages.old).pages }
    requires some { 0 < numbers.now.free_count }
    ensures kept { Continues P.Pages pages.old pages.new result }
    ensures contents { P.tells → OnOk result (P.contents pages.new ≡ P.contents pages.old) }
    ensures mini { OnOk result (P.mini pages.new ≡ P.mini pages.old) }
    ensures next { IfOk result (λ next. next.0.0 ≡ numbers.now.free_head) }
    ensures inside { IfOk result (λ next.
        (first_fresh ≤ next.0.0) × (next.0.0 < numbers.now.fresh)) }
    ensures left { P.tells → IfOk result (λ next. page_in next.1
        ≡ without_first (header_of (page_of (P.contents pages.old) numbers.now.free_head)).next
        (page_in numbers.now)) }
    ensures sound { first_fresh ≤ numbers.now.free_head → numbers.now.free_head < numbers.now.fresh
        → IfErr result IsNoDamage }
    ensures names { IfErr result NamesSpace }
{
    let first = numbers.free_head;
    if !is_inside(first, numbers.fresh) {
        return Err(StoreFault::Damaged {
            page: SPACE_PAGE,
            rule: CHAIN_RULE,
        });
    }
    let mut page = Page::zeros();
    pages.read(PageNo(first), &mut page)?;
    let left = SpaceNumbers {
        free_head: head(&page).next.0,
        free_count: numbers.free_count - 1,
        ..*numbers
    };
    Ok((PageNo(first), left))
}

// Whether the page may be one of the free chain.
fn is_inside(page: u32, fresh: u32) -> bool
    ensures { result ≡ (nat_le first_fresh page && nat_lt page fresh) }
{
    FIRST_FRESH <= page && page < fresh
}

// Writes the header of a free page.
fn clear_head<P: Pages>(pages: &mut P, p: PageNo) -> Result<(), StoreFault>
    requires usable { P.usable pages.old ≡ true }
    requires page { p.0 < (P.shape pages.old).pages }
    requires begun { (P.mini pages.old).is_begun ≡ true }
    requires room { HasRoom p.0 (P.mini pages.old) }
    ensures kept { Continues P.Pages pages.old pages.new result }
    ensures sound { IfErr result IsNoDamage }
    ensures others { P.tells → OnOk result
        (KeepsPages (is_page p.0) (P.contents pages.old) (P.contents pages.new)) }
    ensures grown { OnOk result (Grows (p.0 ∷ []) (P.mini pages.old) (P.mini pages.new)) }
    ensures header { P.tells → OnOk result
        (header_of (page_of (P.contents pages.new) p.0) ≡ fresh_header p.0) }
{
    let mut page = Page::zeros();
    pages.read(p, &mut page)?;
    let mut new = page;
    set_head(&mut new, &free_head(p));
    replace(pages, p, &page, &new)?;
    Ok(())
}

// The header of a free page of that number.
fn free_head(p: PageNo) -> Head
    ensures { header_in result ≡ fresh_header p.0 }
{
    Head {
        kind: FREE_KIND,
        level: 0,
        count: 0,
        owner: 0,
        next: PageNo(0),
        prev: PageNo(0),
        ssn: 0,
        own: p,
        used: 0,
    }
}
