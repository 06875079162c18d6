//! A leaf in two.
ghost use Rattle.std.specs.Prelude.{◌≡◌, ◌+◌, ◌*◌, ◌<◌, ◌≤◌, ℕ, List, ◌∷◌, None, Some, false, true, All, nat_le, if◌then◌else◌, is_none, length, IfSome};
ghost use Rattle.std.specs.List.{flat_map};
ghost use Rattle.isp_disk.specs.Moments.{image_of};
ghost use Rattle.isp_format.specs.Kinds.{clustered_owner, content_place};
ghost use Rattle.isp_format.specs.Leaf.{IsStored, Stored, most_slot, slot_of, slot_place, stored_bytes, stored_head};
ghost use Rattle.isp_format.specs.Numbers.{number_at};
ghost use Rattle.isp_format.specs.Ranges.{page_bytes};
ghost use Rattle.isp_cells.specs.Cells.{IsPlaceWithin, Stand, place_in};
ghost use Rattle.isp_cells.specs.LeafPages.{IsLeaf};
ghost use Rattle.isp_cells.specs.Rows.{with_put};
ghost use Rattle.isp_levels.specs.Dividing.{is_divided, leaf_room};
ghost use Rattle.isp_division.specs.Halves.{AreHalves, cut_in};
ghost use Rattle.isp_division.specs.Packing.{most_content};

use crate::packing::{Content, joined, packed, part};
use isp_cells::{Place, count_with, piece, place_end, place_of, spelled};
use isp_format::{
    CONTENT_PLACE, Head, LEAF_KIND, PAGE_BYTES, Page, PageNo, SLOT_PLACE, STORED_HEAD, be_u16,
    get_i64, head,
};

/// Where the content of a leaf is divided: behind so many bytes, which are so many rows.
#[derive(Clone, Copy)]
pub(crate) struct Cut {
    pub at: usize,
    pub rows: u16,
}

/// A page in two, and the first key of the right part.
pub struct Halves {
    pub left: Page,
    pub right: Page,
    pub key: i64,
}

// The size of the slot of the row that stands there.
fn slot_at(c: &Content, at: usize) -> usize
    requires { at + stored_head ≤ most_content }
    ensures small { result < 65536 }
    ensures slot { result ≡ number_at 2 (image_of c.now.bytes) (at + slot_place) }
{
    let slot = [c.bytes[at + SLOT_PLACE], c.bytes[at + SLOT_PLACE + 1]];
    usize::from(be_u16(&slot))
}

// How many bytes the row that stands there takes, if it ends at `used` or before.
fn size_at(c: &Content, at: usize, used: usize) -> Option<usize>
    requires inside { used ≤ most_content }
    ensures within { IfSome result (λ size. (stored_head ≤ size) × (at + size ≤ used)) }
    ensures stands { (s : Stored) (rows : List Stored)
        → Stand (image_of c.now.bytes) at used (s ∷ rows)
        → result ≡ Some (stored_head + slot_of s) }
{
    if used < STORED_HEAD || at > used - STORED_HEAD {
        return None;
    }
    let size = STORED_HEAD + slot_at(c, at);
    if size <= used - at { Some(size) } else { None }
}

// A cut that leaves no more on the left than a page holds.
fn cut_at(at: usize, rows: u16) -> Option<Cut>
    ensures { result ≡ (if nat_le at leaf_room then Some (record { at = at; rows = rows })
        else None) }
{
    if at <= PAGE_BYTES - CONTENT_PLACE {
        Some(Cut { at, rows })
    } else {
        None
    }
}

// Where the content of a leaf that is divided is cut, if rows stand there.
fn cut_of(c: &Content, used: usize) -> Option<Cut>
    requires inside { used ≤ most_content }
    ensures within { IfSome result (λ cut. (cut.at ≤ used) × (used ≤ 2 * cut.at)
        × (cut.at ≤ leaf_room)) }
    ensures cut { (rows : List Stored) → Stand (image_of c.now.bytes) 0 used rows → leaf_room < used
        → used ≤ leaf_room + (stored_head + most_slot) → result ≡ Some (cut_in rows) }
{
    let mut at = 0;
    let mut rows = 0;
    while at < used {
        let Some(size) = size_at(c, at, used) else {
            return None;
        };
        at += size;
        rows += 1;
        if used <= 2 * at {
            return cut_at(at, rows);
        }
    }
    None
}

// A leaf of such rows.
fn leaf_page(owner: u32, own: PageNo, next: PageNo, count: u16, content: &[u8]) -> Page
    requires { length content.now ≤ leaf_room }
    ensures { (table : ℕ) (rows : List Stored) → owner ≡ clustered_owner table
        → content.now ≡ flat_map stored_bytes rows → All IsStored rows → count ≡ length rows
        → IsLeaf result.bytes table own.0 next.0 rows }
{
    let h = Head {
        kind: LEAF_KIND,
        level: 0,
        count,
        owner,
        next,
        prev: PageNo(0),
        ssn: 0,
        own,
        used: (CONTENT_PLACE + content.len()) as u32,
    };
    packed(&h, content)
}

// The parts of a leaf with so much content, so many rows.
fn parted(old: &Page, c: &Content, size: usize, cut: Cut, count: u16, right: PageNo) -> Halves
    requires within { (cut.at ≤ size) × (size ≤ 2 * cut.at) × (cut.at ≤ leaf_room) }
    requires inside { size ≤ most_content }
    ensures { (table own next : ℕ) (rows all : List Stored) → IsLeaf old.now.bytes table own next rows
        → Stand (image_of c.now.bytes) 0 size all → count ≡ length all → cut ≡ cut_in all
        → leaf_room < size → AreHalves result table own right.0 next all }
{
    let h = head(old);
    let rest = count.saturating_sub(cut.rows);
    let left = leaf_page(h.owner, h.own, right, cut.rows, part(c, 0, cut.at));
    let behind = leaf_page(h.owner, right, h.next, rest, part(c, cut.at, size - cut.at));
    let key = get_i64(&behind, CONTENT_PLACE);
    Halves {
        left,
        right: behind,
        key,
    }
}

// The parts of a leaf once a row is put at the place of its key.
fn halves_at(
    old: &Page,
    used: usize,
    key: i64,
    place: Place,
    row: &[u8],
    right: PageNo,
) -> Option<Halves>
    requires within { IsPlaceWithin used place }
    requires inside { used ≤ page_bytes }
    requires row { length row.now ≤ most_slot }
    ensures halves { (table own next : ℕ) (rows : List Stored)
        → IsLeaf old.now.bytes table own next rows
        → used ≡ content_place + length (flat_map stored_bytes rows)
        → place ≡ place_in key content_place rows
        → is_divided (with_put key row.now rows) ≡ true
        → IfSome result (λ h. AreHalves h table own right.0 next (with_put key row.now rows)) }
    ensures some { (table own next : ℕ) (rows : List Stored)
        → IsLeaf old.now.bytes table own next rows
        → used ≡ content_place + length (flat_map stored_bytes rows)
        → place ≡ place_in key content_place rows
        → is_divided (with_put key row.now rows) ≡ true
        → is_none result ≡ false }
{
    let end = place_end(place.at, place.here);
    let whole = spelled(key, false, row, piece(old, 0, 0));
    let put = piece(&whole, 0, STORED_HEAD + row.len());
    let c = joined(old, place.at, end, used, put);
    let size = place.at - CONTENT_PLACE + (put.len() + (used - end));
    let count = count_with(old, place);
    match cut_of(&c, size) {
        Some(cut) => Some(parted(old, &c, size, cut, count, right)),
        None => None,
    }
}

/// The parts of a leaf once a row is put into it, where it is one and is divided.
pub fn halves_with(old: &Page, used: usize, key: i64, row: &[u8], right: PageNo) -> Option<Halves>
    requires from { content_place ≤ used }
    requires inside { used ≤ page_bytes }
    requires row { length row.now ≤ most_slot }
    ensures halves { (table own next : ℕ) (rows : List Stored)
        → IsLeaf old.now.bytes table own next rows
        → used ≡ content_place + length (flat_map stored_bytes rows)
        → is_divided (with_put key row.now rows) ≡ true
        → IfSome result (λ h. AreHalves h table own right.0 next (with_put key row.now rows)) }
    ensures some { (table own next : ℕ) (rows : List Stored)
        → IsLeaf old.now.bytes table own next rows
        → used ≡ content_place + length (flat_map stored_bytes rows)
        → is_divided (with_put key row.now rows) ≡ true
        → is_none result ≡ false }
{
    match place_of(old, used, key) {
        Some(place) => halves_at(old, used, key, place, row, right),
        None => None,
    }
}
