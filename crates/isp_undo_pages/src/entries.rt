//! Old images in the bytes of an undo page, in memory. The newest is read from its end, where its length stands too.
ghost use Rattle.std.specs.Prelude.{◌≡◌, ◌==◌, ◌&&◌, ◌+◌, ◌-◌, ◌<◌, ◌≤◌, ◌++◌, [], ◌∷◌, ℕ, List, Some, IfSome, is_none, take, true, false, FitsSigned, length};
ghost use Rattle.std.specs.Int.{w64};
ghost use Rattle.std.specs.List.{flat_map};
ghost use Rattle.isp_disk.specs.Moments.{image_of, put, slice};
ghost use Rattle.isp_format.specs.Header.{header_of, number_in};
ghost use Rattle.isp_format.specs.Kinds.{HasHead, content_place, undo_kind};
ghost use Rattle.isp_format.specs.Leaf.{key_bytes, most_slot};
ghost use Rattle.isp_format.specs.Ranges.{page_bytes};
ghost use Rattle.isp_format.specs.Undo.{IsImage, IsUndoPage, OldImage, image_bytes, image_head};
ghost use Rattle.isp_format.specs.HeadValues.{header_in};
ghost use Rattle.isp_undo_pages.specs.Entries.{IsBuf, IsEntry, IsSpotWithin, image_in, spot_behind};

use crate::buf::UndoBuf;
use isp_format::{
    CONTENT_PLACE, Head, IMAGE_HEAD, IMAGE_KEY_PLACE, IMAGE_KIND_PLACE, IMAGE_LENGTH_PLACE,
    IMAGE_ROW_PLACE, MOST_SLOT, PAGE_BYTES, Page, PageNo, UNDO_KIND, get_i64, get_u16, get_u32,
    head, put_bytes, put_u16, put_u32, put_u64, set_head,
};

/// Where an entry stands, and how long its row is.
#[derive(Clone, Copy)]
pub struct Spot {
    pub at: usize,
    pub len: usize,
}

/// Where the entries of an undo page end, if the page's header says one with that number.
pub fn used_of(p: &Page, own: u32) -> Option<usize>
    ensures within { IfSome result (λ used. (content_place ≤ used) × (used ≤ page_bytes)) }
    ensures used { (before next : ℕ) (images : List OldImage)
        → IsUndoPage p.now.bytes own before next images
        → result ≡ Some (content_place + length (flat_map image_bytes images)) }
    ensures only { IfSome result (λ used. HasHead p.now.bytes undo_kind 0 0 own
        × ((header_of p.now.bytes).used ≡ used)) }
{
    let h = head(p);
    let used = h.used as usize;
    if is_undo(&h, own) && CONTENT_PLACE <= used && used <= PAGE_BYTES {
        Some(used)
    } else {
        None
    }
}

// Whether the header says an undo page with that number.
fn is_undo(h: &Head, own: u32) -> bool
    ensures { let h = header_in h.now in result
        ≡ ((h.kind == undo_kind) && (h.level == 0) && (h.owner == 0) && (h.own == own)) }
{
    h.kind == UNDO_KIND && h.level == 0 && h.owner == 0 && h.own.0 == own
}

/// Where the newest entry of an undo page stands, if an entry ends where they all end.
pub fn newest(p: &Page, used: usize) -> Option<Spot>
    requires from { content_place ≤ used }
    requires to { used ≤ page_bytes }
    ensures within { IfSome result (IsSpotWithin used) }
    ensures spot { (own before next : ℕ) (images : List OldImage) (image : OldImage)
        → IsUndoPage p.now.bytes own before next (images ++ image ∷ [])
        → used ≡ content_place + length (flat_map image_bytes (images ++ image ∷ []))
        → result ≡ Some (spot_behind images image) }
    ensures only { IfSome result (λ spot.
        (number_in 2 p.now.bytes (used - 2) ≡ image_head + spot.len)
        × (spot.at + image_head + spot.len ≡ used)) }
{
    if used < CONTENT_PLACE + IMAGE_HEAD {
        return None;
    }
    spot_of(used, usize::from(get_u16(p, used - 2)))
}

// The entry of so many bytes that ends there, if there may be one.
fn spot_of(used: usize, whole: usize) -> Option<Spot>
    requires { content_place ≤ used }
    ensures within { IfSome result (IsSpotWithin used) }
    ensures spot { (at len : ℕ) → content_place ≤ at → len ≤ most_slot
        → whole ≡ image_head + len → used ≡ at + image_head + len
        → result ≡ Some (record { at = at; len = len }) }
    ensures only { IfSome result (λ spot. (whole ≡ image_head + spot.len)
        × (spot.at + image_head + spot.len ≡ used)) }
{
    if whole < IMAGE_HEAD || whole > used - CONTENT_PLACE || whole > IMAGE_HEAD + MOST_SLOT {
        None
    } else {
        Some(Spot {
            at: used - whole,
            len: whole - IMAGE_HEAD,
        })
    }
}

/// Reads the entry of a spot.
pub fn read_entry(p: &Page, spot: Spot, into: &mut UndoBuf)
    requires within { IsSpotWithin page_bytes spot }
    ensures image { (image : OldImage) → IsEntry (image_of p.now.bytes) spot.at image → spot.len ≡ length image.row
        → image_in into.new ≡ image }
    ensures len { into.new.len ≡ spot.len }
{
    into.table = get_u32(p, spot.at);
    into.key = get_i64(p, spot.at + IMAGE_KEY_PLACE);
    into.kind = p.bytes[spot.at + IMAGE_KIND_PLACE];
    into.len = spot.len as u16;
    copy_row(p, spot.at + IMAGE_ROW_PLACE, spot.len, &mut into.bytes);
}

// Copies so many bytes of the page to the front.
fn copy_row(p: &Page, at: usize, len: usize, into: &mut [u8; MOST_SLOT])
    requires inside { at + len ≤ page_bytes }
    requires most { len ≤ most_slot }
    ensures { take len into.new ≡ slice (image_of p.now.bytes) at len }
{
    let row = piece(p, at, len);
    into[..len].copy_from_slice(row);
}

// So many bytes of the page from a place on.
fn piece(p: &Page, at: usize, len: usize) -> &[u8]
    requires inside { at + len ≤ page_bytes }
    ensures piece { result.now ≡ slice (image_of p.now.bytes) at len }
    ensures len { length result.now ≡ len }
{
    &p.bytes[at..at + len]
}

/// The page with this link to the next one, and with its entries up to that place.
pub fn cut(p: &Page, next: PageNo, used: usize) -> Page
    requires { used ≤ page_bytes }
    ensures { (own before was : ℕ) (images gone : List OldImage)
        → IsUndoPage p.now.bytes own before was (images ++ gone)
        → used ≡ content_place + length (flat_map image_bytes images)
        → IsUndoPage result.bytes own before next.0 images }
{
    let mut new = *p;
    let h = Head {
        next,
        used: used as u32,
        ..head(p)
    };
    set_head(&mut new, &h);
    new
}

/// The page with one more entry, where its entries end at that place and it has room.
pub fn with_entry(p: &Page, used: usize, old: &UndoBuf) -> Page
    requires from { content_place ≤ used }
    requires room { used + image_head + old.now.len ≤ page_bytes }
    requires buf { IsBuf old.now }
    ensures { (own before next : ℕ) (images : List OldImage)
        → IsUndoPage p.now.bytes own before next images
        → used ≡ content_place + length (flat_map image_bytes images)
        → IsUndoPage result.bytes own before next (images ++ image_in old.now ∷ []) }
{
    let mut new = *p;
    put_entry(&mut new, used, old);
    let h = Head {
        used: (used + IMAGE_HEAD) as u32 + u32::from(old.len),
        ..head(p)
    };
    set_head(&mut new, &h);
    new
}

// Puts the bytes of an entry over those that stand there.
fn put_entry(p: &mut Page, at: usize, old: &UndoBuf)
    requires room { at + image_head + old.now.len ≤ page_bytes }
    requires buf { IsBuf old.now }
    ensures bytes { image_of p.new.bytes
        ≡ put (image_of p.old.bytes) at (image_bytes (image_in old.now)) }
    ensures size { length p.new.bytes ≡ length p.old.bytes }
    ensures fits { IsImage (image_in old.now) }
{
    let row = row_of(old);
    put_u32(p, at, old.table);
    put_key(p, at + IMAGE_KEY_PLACE, key_of(old));
    put_bytes(p, at + IMAGE_KIND_PLACE, &[old.kind]);
    put_u16(p, at + IMAGE_LENGTH_PLACE, old.len);
    put_bytes(p, at + IMAGE_ROW_PLACE, row);
    put_u16(
        p,
        at + IMAGE_ROW_PLACE + row.len(),
        IMAGE_HEAD as u16 + old.len,
    );
}

// The row of an old image.
fn row_of(old: &UndoBuf) -> &[u8]
    requires { IsBuf old.now }
    ensures row { result.now ≡ (image_in old.now).row }
    ensures len { length result.now ≡ old.now.len }
{
    &old.bytes[..usize::from(old.len)]
}

/// How many bytes the entry of an old image takes.
pub fn entry_size(old: &UndoBuf) -> usize
    requires { IsBuf old.now }
    ensures size { result ≡ length (image_bytes (image_in old.now)) }
    ensures len { result ≡ image_head + old.now.len }
{
    let row = row_of(old);
    IMAGE_HEAD + row.len()
}

// The key of an old image.
fn key_of(old: &UndoBuf) -> i64
    ensures key { result ≡ old.now.key }
    ensures fits { FitsSigned w64 old.now.key }
{
    old.key
}

// Puts a key.
fn put_key(p: &mut Page, at: usize, key: i64)
    requires { at + 8 ≤ page_bytes }
    ensures put { image_of p.new.bytes ≡ put (image_of p.old.bytes) at (key_bytes key) }
    ensures size { length p.new.bytes ≡ length p.old.bytes }
    ensures fits { FitsSigned w64 key }
{
    put_u64(p, at, key.cast_unsigned());
}

/// The page as an undo page without an entry, behind that one.
pub fn fresh(p: &Page, own: PageNo, before: PageNo) -> Page
    ensures { IsUndoPage result.bytes own.0 before.0 0 [] }
{
    let mut new = *p;
    let h = Head {
        kind: UNDO_KIND,
        level: 0,
        count: 0,
        owner: 0,
        next: PageNo(0),
        prev: before,
        ssn: 0,
        own,
        used: CONTENT_PLACE as u32,
    };
    set_head(&mut new, &h);
    new
}
