//! The parts of a page that is divided, in memory.
ghost use Rattle.std.specs.Prelude.{◌≡◌, ◌≤◌, ℕ, List, true, false, is_none, length, IfSome};
ghost use Rattle.isp_cells.specs.LeafPages.{IsLeaf};
ghost use Rattle.isp_cells.specs.Rows.{with_put};
ghost use Rattle.isp_division.specs.Entries.{AreNodeHalves};
ghost use Rattle.isp_division.specs.Halves.{AreHalves};
ghost use Rattle.isp_format.specs.Inner.{IsInnerPage, Name, most_names};
ghost use Rattle.isp_format.specs.Leaf.{Stored, most_slot};
ghost use Rattle.isp_growth.specs.Entries.{with_name};
ghost use Rattle.isp_levels.specs.Dividing.{is_divided};

use crate::Entry;
use isp_cells::leaf_end;
use isp_division::{Halves, entry_halves, halves_with};
use isp_format::{MOST_NAMES, Page, PageNo};
use isp_levels::count_of;

// The parts of a leaf once a row is put into it, where it is one and is divided.
pub(crate) fn leaf_parts(
    old: &Page,
    page: PageNo,
    key: i64,
    row: &[u8],
    right: PageNo,
) -> Option<Halves>
    requires row { length row.now ≤ most_slot }
    ensures parts { (table next : ℕ) (rows : List Stored) → IsLeaf old.now.bytes table page.0 next rows
        → is_divided (with_put key row.now rows) ≡ true
        → IfSome result (λ h. AreHalves h table page.0 right.0 next (with_put key row.now rows)) }
    ensures some { (table next : ℕ) (rows : List Stored) → IsLeaf old.now.bytes table page.0 next rows
        → is_divided (with_put key row.now rows) ≡ true → is_none result ≡ false }
{
    match leaf_end(old, page.0) {
        Some(used) => halves_with(old, used, key, row, right),
        None => None,
    }
}

// The halves of a page above the leaves once an entry is put into it, where it is one and is full.
pub(crate) fn node_parts(
    old: &Page,
    page: PageNo,
    level: u8,
    new: Entry,
    right: PageNo,
) -> Option<Halves>
    ensures parts { (table : ℕ) (names : List Name) → IsInnerPage old.now.bytes table page.0 level names
        → length names ≡ most_names
        → IfSome result (λ h. AreNodeHalves h table page.0 right.0 level (with_name (new.key, new.page.0) names)) }
    ensures some { (table : ℕ) (names : List Name) → IsInnerPage old.now.bytes table page.0 level names
        → length names ≡ most_names → is_none result ≡ false }
{
    match count_of(old, page.0, level) {
        Some(count) => {
            if count == MOST_NAMES as usize {
                Some(entry_halves(old, new.key, new.page, right))
            } else {
                None
            }
        }
        None => None,
    }
}
