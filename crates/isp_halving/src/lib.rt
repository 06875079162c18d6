//! One page of a clustered tree in two, an entry put, a root raised: over a store of pages. How the levels of the tree hang
//! together is none of this crate's business.
#![tactic(auto)]

ghost use Rattle.std.specs.Prelude.{◌≡◌, ◌+◌, ◌<◌, ◌≤◌, [], ◌∷◌, ℕ, List, true, false, is_none, length, nat_lt, IfErr, IfOk, IfSome, OnOk};
ghost use Rattle.isp_cells.specs.LeafPages.{IsLeaf};
ghost use Rattle.isp_cells.specs.Rows.{with_put};
ghost use Rattle.isp_format.specs.Inner.{IsInnerPage, Name, most_names};
ghost use Rattle.isp_format.specs.Leaf.{Stored, most_slot};
ghost use Rattle.isp_format.specs.Ranges.{page_of};
ghost use Rattle.isp_format.specs.Rules.{space_number};
ghost use Rattle.isp_growth.specs.Entries.{with_name};
ghost use Rattle.isp_halving.specs.Calls.{HasSpace, IsOutside, NamesTreeOrSpace};
ghost use Rattle.isp_halving.specs.Halved.{HalvesInner, HalvesLeaf, RaisesInner, RaisesLeaf};
ghost use Rattle.isp_levels.specs.Dividing.{is_divided};
ghost use Rattle.isp_levels.specs.Walks.{NamesAny, ReadsPage};
ghost use Rattle.isp_page.specs.Calls.{Continues};
ghost use Rattle.isp_page.specs.Steps.{IsNoDamage};
ghost use Rattle.isp_space.specs.Changes.{ChangesOf, ChangesPages, MayChange};
ghost use Rattle.isp_space.specs.Spaces.{Space, free_pages};

mod parts;
mod two_pages;

use isp_division::{entry_put, moved, raised};
use isp_format::{MOST_NAMES, Page, PageNo};
use isp_levels::{broken, count_of};
use isp_page::{Pages, StoreFault, replace};
use parts::{leaf_parts, node_parts};
use two_pages::{take_for, write_parts, write_two};

/// An entry for the page above: the key from which on a page has keys, and that page.
#[derive(Clone, Copy)]
pub struct Entry {
    pub key: i64,
    pub page: PageNo,
}

/// Puts a row into a leaf that has no room for it: the leaf keeps the left part of the rows, and a page that is taken gets the
/// right part. Answers the entry for that page.
///
/// # Errors
///
/// Disk; Damaged, with that page and rule 7, where it is no leaf or isn't divided by the row, or as of `take_page` of isp_space.
pub fn divide_leaf<P: Pages>(
    pages: &mut P,
    page: PageNo,
    key: i64,
    row: &[u8],
) -> Result<Entry, StoreFault>
    requires can { MayChange P.Pages 3 pages.old }
    requires page { page.0 < (P.shape pages.old).pages }
    requires row { length row.now ≤ most_slot }
    ensures kept { Continues P.Pages pages.old pages.new result }
    ensures changes { IfOk result (λ entry. ChangesOf P.Pages (space_number ∷ entry.page.0 ∷ page.0 ∷ []) pages.old pages.new) }
    ensures inside { IfOk result (λ entry. entry.page.0 < (P.shape pages.old).pages) }
    ensures names { IfErr result (NamesTreeOrSpace (P.shape pages.old).pages) }
    ensures halves { P.tells → (table next : ℕ) (rows : List Stored) (s : Space)
        → IsLeaf (page_of (P.contents pages.old) page.0) table page.0 next rows
        → is_divided (with_put key row.now rows) ≡ true → HasSpace P.Pages pages.old s → IsOutside page.0 s
        → 0 < free_pages (P.shape pages.old).pages s
        → IfOk result (λ entry. HalvesLeaf P.Pages pages.new table page.0 next (with_put key row.now rows) s entry) }
    ensures sound { P.tells → (table next : ℕ) (rows : List Stored) (s : Space)
        → IsLeaf (page_of (P.contents pages.old) page.0) table page.0 next rows
        → is_divided (with_put key row.now rows) ≡ true → HasSpace P.Pages pages.old s → IsOutside page.0 s
        → 0 < free_pages (P.shape pages.old).pages s → IfErr result IsNoDamage }
{
    let mut old = Page::zeros();
    let right = take_for(pages, page, &mut old)?;
    let parts = leaf_parts(&old, page, key, row, right);
    let entry = write_parts(pages, page, &old, right, parts)?;
    Ok(entry)
}

/// Puts an entry into a full page above the leaves: it keeps the left half of the entries, and a page that is taken gets the right
/// half. Answers the entry for that page.
///
/// # Errors
///
/// Disk; Damaged, with that page and rule 7, where it is no full page so high above the leaves, or as of `take_page` of isp_space.
pub fn divide_inner<P: Pages>(
    pages: &mut P,
    page: PageNo,
    level: u8,
    new: Entry,
) -> Result<Entry, StoreFault>
    requires can { MayChange P.Pages 3 pages.old }
    requires page { page.0 < (P.shape pages.old).pages }
    ensures kept { Continues P.Pages pages.old pages.new result }
    ensures changes { IfOk result (λ entry. ChangesOf P.Pages (space_number ∷ entry.page.0 ∷ page.0 ∷ []) pages.old pages.new) }
    ensures inside { IfOk result (λ entry. entry.page.0 < (P.shape pages.old).pages) }
    ensures names { IfErr result (NamesTreeOrSpace (P.shape pages.old).pages) }
    ensures halves { P.tells → (table : ℕ) (names : List Name) (s : Space)
        → IsInnerPage (page_of (P.contents pages.old) page.0) table page.0 level names
        → length names ≡ most_names → HasSpace P.Pages pages.old s → IsOutside page.0 s
        → 0 < free_pages (P.shape pages.old).pages s
        → IfOk result (λ entry. HalvesInner P.Pages pages.new table page.0 level (with_name (new.key, new.page.0) names) s entry) }
    ensures sound { P.tells → (table : ℕ) (names : List Name) (s : Space)
        → IsInnerPage (page_of (P.contents pages.old) page.0) table page.0 level names
        → length names ≡ most_names → HasSpace P.Pages pages.old s → IsOutside page.0 s
        → 0 < free_pages (P.shape pages.old).pages s → IfErr result IsNoDamage }
{
    let mut old = Page::zeros();
    let right = take_for(pages, page, &mut old)?;
    let parts = node_parts(&old, page, level, new, right);
    let entry = write_parts(pages, page, &old, right, parts)?;
    Ok(entry)
}

/// Whether a page so high above the leaves has room for one more entry.
///
/// # Errors
///
/// Disk; or Damaged, with that page and rule 7, where it is no page so high above the leaves.
pub fn has_entry_room<P: Pages>(pages: &mut P, page: PageNo, level: u8) -> Result<bool, StoreFault>
    requires usable { P.usable pages.old ≡ true }
    requires page { page.0 < (P.shape pages.old).pages }
    ensures reads { ReadsPage P.Pages page.0 pages.old pages.new result }
    ensures room { P.tells → (table : ℕ) (names : List Name)
        → IsInnerPage (page_of (P.contents pages.old) page.0) table page.0 level names
        → IfOk result (λ there. there ≡ nat_lt (length names) most_names) }
    ensures sound { P.tells → (table : ℕ) (names : List Name)
        → IsInnerPage (page_of (P.contents pages.old) page.0) table page.0 level names → IfErr result IsNoDamage }
{
    let mut p = Page::zeros();
    pages.read(page, &mut p)?;
    match count_of(&p, page.0, level) {
        Some(count) => Ok(count < MOST_NAMES as usize),
        None => Err(broken(page)),
    }
}

/// Puts an entry into a page above the leaves that has room for it, in the order of the keys.
///
/// # Errors
///
/// Disk; or Damaged, with that page and rule 7, where it is no page so high above the leaves, or is full.
pub fn put_entry<P: Pages>(
    pages: &mut P,
    page: PageNo,
    level: u8,
    new: Entry,
) -> Result<(), StoreFault>
    requires can { MayChange P.Pages 1 pages.old }
    requires page { page.0 < (P.shape pages.old).pages }
    ensures changes { ChangesPages P.Pages (page.0 ∷ []) (NamesAny (P.shape pages.old).pages) pages.old pages.new result }
    ensures put { P.tells → (table : ℕ) (names : List Name)
        → IsInnerPage (page_of (P.contents pages.old) page.0) table page.0 level names → length names < most_names
        → OnOk result (IsInnerPage (page_of (P.contents pages.new) page.0) table page.0 level (with_name (new.key, new.page.0) names)) }
    ensures sound { P.tells → (table : ℕ) (names : List Name)
        → IsInnerPage (page_of (P.contents pages.old) page.0) table page.0 level names → length names < most_names
        → IfErr result IsNoDamage }
{
    let mut old = Page::zeros();
    pages.read(page, &mut old)?;
    match with_entry(&old, page, level, new) {
        Some(put) => {
            replace(pages, page, &old, &put)?;
            Ok(())
        }
        None => Err(broken(page)),
    }
}

// The page with an entry more, where it stands so high above the leaves and has room for it.
fn with_entry(old: &Page, page: PageNo, level: u8, new: Entry) -> Option<Page>
    ensures put { (table : ℕ) (names : List Name) → IsInnerPage old.now.bytes table page.0 level names
        → length names < most_names
        → IfSome result (λ p. IsInnerPage p.bytes table page.0 level (with_name (new.key, new.page.0) names)) }
    ensures some { (table : ℕ) (names : List Name) → IsInnerPage old.now.bytes table page.0 level names
        → length names < most_names → is_none result ≡ false }
{
    match count_of(old, page.0, level) {
        Some(count) => {
            if count < MOST_NAMES as usize {
                Some(entry_put(old, count as u16, new.key, new.page))
            } else {
                None
            }
        }
        None => None,
    }
}

/// Raises a root that stands so high: what stands on its page moves to a page that is taken, and the root's page has one entry,
/// which leads there. Answers that page.
///
/// # Errors
///
/// Disk; or Damaged, as of `take_page` of isp_space.
pub fn raise<P: Pages>(pages: &mut P, root: PageNo, level: u8) -> Result<PageNo, StoreFault>
    requires can { MayChange P.Pages 3 pages.old }
    requires page { root.0 < (P.shape pages.old).pages }
    requires level { level < 255 }
    ensures kept { Continues P.Pages pages.old pages.new result }
    ensures changes { IfOk result (λ to. ChangesOf P.Pages (space_number ∷ to.0 ∷ root.0 ∷ []) pages.old pages.new) }
    ensures inside { IfOk result (λ to. to.0 < (P.shape pages.old).pages) }
    ensures names { IfErr result (NamesTreeOrSpace (P.shape pages.old).pages) }
    ensures leaf { P.tells → (table next : ℕ) (rows : List Stored) (s : Space)
        → level ≡ 0 → IsLeaf (page_of (P.contents pages.old) root.0) table root.0 next rows
        → HasSpace P.Pages pages.old s → IsOutside root.0 s → 0 < free_pages (P.shape pages.old).pages s
        → IfOk result (λ to. RaisesLeaf P.Pages pages.new table root.0 next rows s to) }
    ensures inner { P.tells → (table : ℕ) (names : List Name) (s : Space)
        → IsInnerPage (page_of (P.contents pages.old) root.0) table root.0 level names
        → HasSpace P.Pages pages.old s → IsOutside root.0 s → 0 < free_pages (P.shape pages.old).pages s
        → IfOk result (λ to. RaisesInner P.Pages pages.new table root.0 level names s to) }
    ensures sound { P.tells → (s : Space) → HasSpace P.Pages pages.old s
        → 0 < free_pages (P.shape pages.old).pages s → IfErr result IsNoDamage }
{
    let mut old = Page::zeros();
    let to = take_for(pages, root, &mut old)?;
    write_two(
        pages,
        root,
        &old,
        to,
        &raised(&old, level + 1, to),
        &moved(&old, to),
    )?;
    Ok(to)
}
