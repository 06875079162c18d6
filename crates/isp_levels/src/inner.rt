//! Entries in the bytes of a page above the leaves.
ghost use Rattle.std.specs.Prelude.{◌≡◌, ◌+◌, ◌≤◌, ℕ, List, Some, int_le, length, if◌then◌else◌, IfSome};
ghost use Rattle.std.specs.Int.{cast_signed, w64};
ghost use Rattle.isp_format.specs.Header.{header_of, number_in};
ghost use Rattle.isp_format.specs.Inner.{IsInnerPage, Name, child_place, most_names, name_size};
ghost use Rattle.isp_format.specs.Ranges.{page_bytes};
ghost use Rattle.isp_cells.specs.LeafPages.{SaysTree};
ghost use Rattle.isp_levels.specs.Inners.{number_of, page_in_name};
ghost use Rattle.isp_levels.specs.Levels.{pick};

use isp_format::{
    CHILD_PLACE, CONTENT_PLACE, INNER_KIND, MOST_NAMES, NAME_BYTES, Page, PageNo, get_i64, get_u32,
    head,
};

/// Whether the entry that stands there begins at the key or before it.
pub fn is_from(p: &Page, at: usize, key: i64) -> bool
    requires inside { at + name_size ≤ page_bytes }
    ensures { result ≡ int_le (cast_signed w64 (number_in 8 p.now.bytes at)) key }
{
    get_i64(p, at) <= key
}

// The page of that entry, if it begins there; else the one so far.
fn better(p: &Page, at: usize, key: i64, so_far: Option<PageNo>) -> Option<PageNo>
    requires inside { at + name_size ≤ page_bytes }
    ensures { number_of result ≡ (if int_le (cast_signed w64 (number_in 8 p.now.bytes at)) key
        then Some (number_in 4 p.now.bytes (at + child_place)) else number_of so_far) }
{
    if is_from(p, at, key) {
        Some(PageNo(get_u32(p, at + CHILD_PLACE)))
    } else {
        so_far
    }
}

/// The page of the last of so many entries that begins at the key or before it.
pub(crate) fn picked(p: &Page, count: usize, key: i64) -> Option<PageNo>
    requires most { count ≤ most_names }
    ensures { (table own level : ℕ) (names : List Name)
        → IsInnerPage p.now.bytes table own level names
        → count ≡ length names → number_of result ≡ page_in_name (pick key names) }
{
    let mut found = None;
    let mut at = CONTENT_PLACE;
    for _x in 0..count {
        found = better(p, at, key, found);
        at += NAME_BYTES;
    }
    found
}

/// How many entries the page has, if its header says a page so high above the leaves with that number.
pub fn count_of(p: &Page, own: u32, level: u8) -> Option<usize>
    ensures most { IfSome result (λ count. count ≤ most_names) }
    ensures count { (table : ℕ) (names : List Name) → IsInnerPage p.now.bytes table own level names
        → result ≡ Some (length names) }
    ensures says { IfSome result (λ count. SaysTree own (header_of p.now.bytes)) }
{
    let h = head(p);
    if h.kind == INNER_KIND && h.level == level && h.own.0 == own && h.count <= MOST_NAMES {
        Some(h.count as usize)
    } else {
        None
    }
}
