//! Rows in the bytes of a leaf, and where they stand.
ghost use Rattle.std.specs.Prelude.{◌≡◌, ◌+◌, ◌≤◌, ◌∷◌, List, Some, None, IfSome, int_lt, if◌then◌else◌};
ghost use Rattle.std.specs.Int.{cast_signed, w64};
ghost use Rattle.std.specs.Ordering.{int_eq};
ghost use Rattle.isp_disk.specs.Moments.{image_of, slice};
ghost use Rattle.isp_format.specs.Header.{number_in};
ghost use Rattle.isp_format.specs.Kinds.{content_place};
ghost use Rattle.isp_format.specs.Leaf.{Stored};
ghost use Rattle.isp_format.specs.Ranges.{page_bytes};
ghost use Rattle.isp_cells.specs.Cells.{IsPlaceWithin, IsWithin, Stand, cell_of, place_in};

use isp_format::{
    CONTENT_PLACE, LENGTH_PLACE, MARK_PLACE, Page, SLOT_PLACE, STORED_HEAD, get_i64, get_u16,
};

/// A row on a leaf without its key and its bytes.
#[derive(Clone, Copy)]
pub struct Cell {
    pub marked: bool,
    pub slot: u16,
    pub length: u16,
}

/// Where the row of a key stands or would stand, and the row that stands there with that key.
#[derive(Clone, Copy)]
pub struct Place {
    pub at: usize,
    pub here: Option<Cell>,
}

/// So many bytes of the page from `at` on.
pub fn piece(p: &Page, at: usize, size: usize) -> &[u8]
    requires inside { at + size ≤ page_bytes }
    ensures { result.now ≡ slice (image_of p.now.bytes) at size }
{
    &p.bytes[at..at + size]
}

/// The row that stands there and ends at `used` or before it, if one does.
pub fn cell_at(p: &Page, at: usize, used: usize) -> Option<Cell>
    requires inside { used ≤ page_bytes }
    ensures within { IfSome result (λ cell. IsWithin at used cell) }
    ensures stands { (s : Stored) (rows : List Stored)
        → Stand (image_of p.now.bytes) at used (s ∷ rows) → result ≡ Some (cell_of s) }
{
    if used < STORED_HEAD || at > used - STORED_HEAD {
        return None;
    }
    let cell = Cell {
        marked: p.bytes[at + MARK_PLACE] == 1,
        slot: get_u16(p, at + SLOT_PLACE),
        length: get_u16(p, at + LENGTH_PLACE),
    };
    if usize::from(cell.slot) <= used - STORED_HEAD - at && cell.length <= cell.slot {
        Some(cell)
    } else {
        None
    }
}

// Whether the key that stands there is below this one.
fn is_below(p: &Page, at: usize, key: i64) -> bool
    requires inside { at + 8 ≤ page_bytes }
    ensures { result ≡ int_lt (cast_signed w64 (number_in 8 p.now.bytes at)) key }
{
    get_i64(p, at) < key
}

// Whether it is this one.
fn is_key(p: &Page, at: usize, key: i64) -> bool
    requires inside { at + 8 ≤ page_bytes }
    ensures { result ≡ int_eq (cast_signed w64 (number_in 8 p.now.bytes at)) key }
{
    get_i64(p, at) == key
}

// The cell, if its key is that one.
fn only_if(is: bool, cell: Cell) -> Option<Cell>
    ensures { result ≡ (if is then Some cell else None) }
{
    if is { Some(cell) } else { None }
}

/// Where the row of a key stands or would stand among the rows of a leaf, if rows stand there.
pub fn place_of(p: &Page, used: usize, key: i64) -> Option<Place>
    requires from { content_place ≤ used }
    requires inside { used ≤ page_bytes }
    ensures within { IfSome result (λ place. IsPlaceWithin used place) }
    ensures place { (rows : List Stored) → Stand (image_of p.now.bytes) content_place used rows
        → result ≡ Some (place_in key content_place rows) }
{
    let mut at = CONTENT_PLACE;
    while at < used {
        let Some(cell) = cell_at(p, at, used) else {
            return None;
        };
        if !is_below(p, at, key) {
            let here = only_if(is_key(p, at, key), cell);
            return Some(Place { at, here });
        }
        at += STORED_HEAD + usize::from(cell.slot);
    }
    Some(Place { at, here: None })
}
