//! A leaf's bytes with one row exchanged, in memory.
ghost use Rattle.std.specs.Prelude.{◌≡◌, ◌+◌, ◌-◌, ◌≤◌, ◌++◌, ◌<◌, ℕ, ℤ, List, All, Some, IfSome, is_none, nat_le, not, length, true, false};
ghost use Rattle.std.specs.List.{flat_map};
ghost use Rattle.isp_disk.specs.Moments.{image_of, slice};
ghost use Rattle.isp_format.specs.Header.{header_of};
ghost use Rattle.isp_format.specs.Kinds.{content_place};
ghost use Rattle.isp_format.specs.Leaf.{IsStored, Stored, mark_byte, most_slot, stored_bytes, stored_head};
ghost use Rattle.isp_format.specs.Ranges.{page_bytes};
ghost use Rattle.isp_cells.specs.Cells.{IsPlaceWithin, IsWithin, count_of, end_of, marked_in, place_in};
ghost use Rattle.isp_cells.specs.Rows.{bytes_in, can_drop, can_rewrite, exchanged, find, has_key, is_fitting, marked_at, rewritten, with_put, with_row, without};
ghost use Rattle.isp_cells.specs.LeafPages.{IsLeaf};

use crate::cells::{Cell, Place, piece, place_of};
use isp_format::{
    Head, LENGTH_PLACE, MARK_PLACE, PAGE_BYTES, Page, SLOT_PLACE, STORED_HEAD, count_of, head,
    put_bytes, put_u16, put_u64, set_head,
};

// The page with a piece in the place of the bytes from `at` to `end`, and behind it what stood from there to `used`.
fn spliced(old: &Page, at: usize, end: usize, used: usize, put: &[u8], count: u16) -> Page
    requires from { content_place ≤ at }
    requires order { (at ≤ end) × (end ≤ used) }
    requires to { used ≤ page_bytes }
    requires fits { at + length put.now + (used - end) ≤ page_bytes }
    ensures leaf { (table own next : ℕ) (before mid after rows : List Stored)
        → IsLeaf old.now.bytes table own next (before ++ (mid ++ after))
        → at ≡ content_place + bytes_in before → end ≡ at + bytes_in mid
        → used ≡ end + bytes_in after
        → put.now ≡ flat_map stored_bytes rows → All IsStored rows
        → count ≡ length (before ++ (rows ++ after))
        → IsLeaf result.bytes table own next (before ++ (rows ++ after)) }
{
    let mut new = *old;
    put_bytes(&mut new, at + put.len(), piece(old, end, used - end));
    put_bytes(&mut new, at, put);
    let h = Head {
        count,
        used: (at + put.len() + (used - end)) as u32,
        ..head(old)
    };
    set_head(&mut new, &h);
    new
}

// The byte of a mark.
fn mark_byte(marked: bool) -> u8
    ensures { result ≡ mark_byte marked }
{
    if marked { 1 } else { 0 }
}

/// A row as it stands on a leaf, in a slot of its length and that of the bytes behind it, at the front of a page.
pub fn spelled(key: i64, marked: bool, row: &[u8], rest: &[u8]) -> Page
    requires slot { length row.now + length rest.now ≤ page_bytes - stored_head }
    ensures { slice (image_of result.bytes) 0 (stored_head + (length row.now + length rest.now))
        ≡ stored_bytes (record { key = key; marked = marked; row = row.now; rest = rest.now }) }
{
    let mut p = Page::zeros();
    put_u64(&mut p, 0, key.cast_unsigned());
    put_bytes(&mut p, MARK_PLACE, &[mark_byte(marked)]);
    put_u16(&mut p, SLOT_PLACE, (row.len() + rest.len()) as u16);
    put_u16(&mut p, LENGTH_PLACE, row.len() as u16);
    put_bytes(&mut p, STORED_HEAD, row);
    put_bytes(&mut p, STORED_HEAD + row.len(), rest);
    p
}

/// Where a place ends: behind the row that stands there, if one does.
pub fn place_end(at: usize, here: Option<Cell>) -> usize
    requires { at + stored_head + 65535 < 18446744073709551616 }
    ensures { result ≡ end_of at here }
{
    match here {
        Some(cell) => at + STORED_HEAD + usize::from(cell.slot),
        None => at,
    }
}

/// Whether a row of so many bytes has room at a place.
pub fn is_room(place: Place, used: usize, size: usize) -> bool
    requires within { IsPlaceWithin used place }
    requires inside { used ≤ page_bytes }
    requires size { size ≤ most_slot }
    ensures { result ≡ nat_le (place.at + stored_head + size + (used - end_of place.at place.here))
        page_bytes }
{
    let behind = used - place_end(place.at, place.here);
    place.at + STORED_HEAD + size + behind <= PAGE_BYTES
}

/// How many rows there are once a row stands at a place.
pub fn count_with(old: &Page, place: Place) -> u16
    ensures { (others : ℕ) → (header_of old.now.bytes).count ≡ count_of place.here + others
        → others < 65535 → result ≡ 1 + others }
{
    let count = count_of(old);
    match place.here {
        Some(_) => count,
        None => count.saturating_add(1),
    }
}

// The same once none stands there.
fn count_without(old: &Page, place: Place) -> u16
    ensures { (others : ℕ) → (header_of old.now.bytes).count ≡ count_of place.here + others
        → result ≡ others }
{
    let count = count_of(old);
    match place.here {
        Some(_) => count.saturating_sub(1),
        None => count,
    }
}

// The page once a row is put at the place of its key, where it has room.
fn put_at(old: &Page, used: usize, key: i64, place: Place, row: &[u8]) -> Option<Page>
    requires within { IsPlaceWithin used place }
    requires inside { used ≤ page_bytes }
    requires row { length row.now ≤ most_slot }
    ensures page { (table own next : ℕ) (rows : List Stored)
        → IsLeaf old.now.bytes table own next rows
        → used ≡ content_place + length (flat_map stored_bytes rows)
        → place ≡ place_in key content_place rows
        → IfSome result (λ new. IsLeaf new.bytes table own next (with_put key row.now rows)) }
    ensures some { nat_le (place.at + stored_head + length row.now
        + (used - end_of place.at place.here)) page_bytes ≡ true
        → is_none result ≡ false }
{
    if !is_room(place, used, row.len()) {
        return None;
    }
    let end = place_end(place.at, place.here);
    let count = count_with(old, place);
    let whole = spelled(key, false, row, piece(old, 0, 0));
    let put = piece(&whole, 0, STORED_HEAD + row.len());
    Some(spliced(old, place.at, end, used, put, count))
}

/// The page of a leaf once a row is put into it, where it is one and the row has room.
pub fn put_in(old: &Page, used: usize, key: i64, row: &[u8]) -> Option<Page>
    requires from { content_place ≤ used }
    requires inside { used ≤ page_bytes }
    requires row { length row.now ≤ most_slot }
    ensures page { (table own next : ℕ) (rows : List Stored)
        → IsLeaf old.now.bytes table own next rows
        → used ≡ content_place + length (flat_map stored_bytes rows)
        → IfSome result (λ new. IsLeaf new.bytes table own next (with_put key row.now rows)) }
    ensures some { (table own next : ℕ) (rows : List Stored)
        → IsLeaf old.now.bytes table own next rows
        → used ≡ content_place + length (flat_map stored_bytes rows)
        → is_fitting key (length row.now) rows ≡ true
        → is_none result ≡ false }
{
    match place_of(old, used, key) {
        Some(place) => put_at(old, used, key, place, row),
        None => None,
    }
}

// The page once the row of a place is taken out.
fn drop_at(old: &Page, used: usize, place: Place) -> Page
    requires within { IsPlaceWithin used place }
    requires inside { used ≤ page_bytes }
    ensures { (table own next : ℕ) (key : ℤ) (rows : List Stored)
        → IsLeaf old.now.bytes table own next rows
        → used ≡ content_place + length (flat_map stored_bytes rows)
        → place ≡ place_in key content_place rows
        → IsLeaf result.bytes table own next (without key rows) }
{
    let end = place_end(place.at, place.here);
    let count = count_without(old, place);
    spliced(old, place.at, end, used, piece(old, 0, 0), count)
}

// Whether a marked row stands at the place.
fn is_marked(place: Place) -> bool
    ensures { result ≡ marked_in place.here }
{
    match place.here {
        Some(cell) => cell.marked,
        None => false,
    }
}

/// The page of a leaf once the row of a key is taken out, where it is one and has that row marked.
pub fn drop_in(old: &Page, used: usize, key: i64) -> Option<Page>
    requires from { content_place ≤ used }
    requires inside { used ≤ page_bytes }
    ensures page { (table own next : ℕ) (rows : List Stored)
        → IsLeaf old.now.bytes table own next rows
        → used ≡ content_place + length (flat_map stored_bytes rows)
        → IfSome result (λ new. IsLeaf new.bytes table own next (without key rows)) }
    ensures some { (table own next : ℕ) (rows : List Stored)
        → IsLeaf old.now.bytes table own next rows
        → used ≡ content_place + length (flat_map stored_bytes rows)
        → is_none result ≡ not (can_drop key rows) }
{
    match place_of(old, used, key) {
        Some(place) => {
            if is_marked(place) {
                Some(drop_at(old, used, place))
            } else {
                None
            }
        }
        None => None,
    }
}

// The page once a row is written into the slot of the one that stands at a place.
fn rewrite_at(
    old: &Page,
    used: usize,
    key: i64,
    at: usize,
    cell: Cell,
    row: &[u8],
    marked: bool,
) -> Page
    requires within { IsWithin at used cell }
    requires from { content_place ≤ at }
    requires inside { used ≤ page_bytes }
    requires row { length row.now ≤ cell.slot }
    ensures { (table own next : ℕ) (rows : List Stored) (s : Stored)
        → IsLeaf old.now.bytes table own next rows
        → used ≡ content_place + length (flat_map stored_bytes rows)
        → record { at = at; here = Some cell } ≡ place_in key content_place rows
        → find key rows ≡ Some s
        → IsLeaf result.bytes table own next (exchanged key (Some (rewritten row.now marked s))
        rows) }
{
    let slot = usize::from(cell.slot);
    let rest = piece(old, at + STORED_HEAD + row.len(), slot - row.len());
    let whole = spelled(key, marked, row, rest);
    let put = piece(&whole, 0, STORED_HEAD + slot);
    spliced(old, at, at + STORED_HEAD + slot, used, put, count_of(old))
}

// The same where the row stands at the place and its slot holds the new one.
fn rewrite_place(
    old: &Page,
    used: usize,
    key: i64,
    place: Place,
    row: &[u8],
    marked: bool,
) -> Option<Page>
    requires within { IsPlaceWithin used place }
    requires inside { used ≤ page_bytes }
    ensures page { (table own next : ℕ) (rows : List Stored)
        → IsLeaf old.now.bytes table own next rows
        → used ≡ content_place + length (flat_map stored_bytes rows)
        → place ≡ place_in key content_place rows
        → IfSome result (λ new. IsLeaf new.bytes table own next (with_row key row.now marked rows)) }
    ensures some { (rows : List Stored) → place ≡ place_in key content_place rows
        → is_none result ≡ not (can_rewrite key (length row.now) rows) }
{
    match place.here {
        Some(cell) => {
            if row.len() <= usize::from(cell.slot) {
                Some(rewrite_at(old, used, key, place.at, cell, row, marked))
            } else {
                None
            }
        }
        None => None,
    }
}

/// The page of a leaf once a row is written into the slot of its key, where it is one and has that key and room in its slot.
pub fn rewrite_in(old: &Page, used: usize, key: i64, row: &[u8], marked: bool) -> Option<Page>
    requires from { content_place ≤ used }
    requires inside { used ≤ page_bytes }
    ensures page { (table own next : ℕ) (rows : List Stored)
        → IsLeaf old.now.bytes table own next rows
        → used ≡ content_place + length (flat_map stored_bytes rows)
        → IfSome result (λ new. IsLeaf new.bytes table own next (with_row key row.now marked rows)) }
    ensures some { (table own next : ℕ) (rows : List Stored)
        → IsLeaf old.now.bytes table own next rows
        → used ≡ content_place + length (flat_map stored_bytes rows)
        → is_none result ≡ not (can_rewrite key (length row.now) rows) }
{
    match place_of(old, used, key) {
        Some(place) => rewrite_place(old, used, key, place, row, marked),
        None => None,
    }
}

// The page once the row that stands at a place is marked.
fn mark_place(old: &Page, used: usize, key: i64, place: Place) -> Option<Page>
    requires within { IsPlaceWithin used place }
    requires inside { used ≤ page_bytes }
    ensures page { (table own next : ℕ) (rows : List Stored)
        → IsLeaf old.now.bytes table own next rows
        → used ≡ content_place + length (flat_map stored_bytes rows)
        → place ≡ place_in key content_place rows
        → IfSome result (λ new. IsLeaf new.bytes table own next (marked_at key rows)) }
    ensures some { (rows : List Stored) → place ≡ place_in key content_place rows
        → is_none result ≡ not (has_key key rows) }
{
    match place.here {
        Some(cell) => {
            let row = piece(old, place.at + STORED_HEAD, usize::from(cell.length));
            Some(rewrite_at(old, used, key, place.at, cell, row, true))
        }
        None => None,
    }
}

/// The page of a leaf once the row of a key is marked, where it is one and has that key.
pub fn mark_in(old: &Page, used: usize, key: i64) -> Option<Page>
    requires from { content_place ≤ used }
    requires inside { used ≤ page_bytes }
    ensures page { (table own next : ℕ) (rows : List Stored)
        → IsLeaf old.now.bytes table own next rows
        → used ≡ content_place + length (flat_map stored_bytes rows)
        → IfSome result (λ new. IsLeaf new.bytes table own next (marked_at key rows)) }
    ensures some { (table own next : ℕ) (rows : List Stored)
        → IsLeaf old.now.bytes table own next rows
        → used ≡ content_place + length (flat_map stored_bytes rows)
        → is_none result ≡ not (has_key key rows) }
{
    match place_of(old, used, key) {
        Some(place) => mark_place(old, used, key, place),
        None => None,
    }
}
