//! A page above the leaves with one entry more, or in two; and a root that is raised.
ghost use Rattle.std.specs.Prelude.{◌≡◌, ◌+◌, ◌-◌, ◌*◌, ◌<◌, ◌≤◌, [], ◌∷◌, ℕ, suc, List, All, length};
ghost use Rattle.std.specs.List.{flat_map};
ghost use Rattle.isp_disk.specs.Moments.{image_of, slice};
ghost use Rattle.isp_format.specs.Inner.{IsInnerPage, IsName, Name, most_names, name_bytes, name_size};
ghost use Rattle.isp_format.specs.Kinds.{HasHead, clustered_owner, content_place};
ghost use Rattle.isp_format.specs.Leaf.{Stored};
ghost use Rattle.isp_format.specs.Ranges.{page_bytes};
ghost use Rattle.isp_cells.specs.LeafPages.{IsLeaf};
ghost use Rattle.isp_levels.specs.Levels.{least_key};
ghost use Rattle.isp_growth.specs.Entries.{up_to, with_name};
ghost use Rattle.isp_division.specs.Entries.{AreNodeHalves};

use crate::halves::Halves;
use crate::packing::{Content, joined, packed, part};
use isp_cells::piece;
use isp_format::{
    CHILD_PLACE, CONTENT_PLACE, Head, INNER_KIND, MOST_NAMES, NAME_BYTES, Page, PageNo, get_i64,
    head, put_u32, put_u64, set_head,
};
use isp_levels::is_from;

/// How many entries stay on the left page of two.
const LEFT_NAMES: usize = 169;

// How many of the entries begin at the key or before it, from the first on.
fn count_up_to(p: &Page, count: usize, key: i64) -> usize
    requires most { count ≤ most_names }
    ensures few { result ≤ count }
    ensures up_to { (table own level : ℕ) (names : List Name)
        → IsInnerPage p.now.bytes table own level names → count ≡ length names
        → result ≡ length (up_to key names) }
{
    let mut before = 0;
    while before < count {
        if !is_from(p, CONTENT_PLACE + NAME_BYTES * before, key) {
            return before;
        }
        before += 1;
    }
    before
}

// An entry as it stands on a page, at the front of a page.
fn spelled_entry(key: i64, page: u32) -> Page
    ensures { slice (image_of result.bytes) 0 name_size ≡ name_bytes (key, page) }
{
    let mut p = Page::zeros();
    put_u64(&mut p, 0, key.cast_unsigned());
    put_u32(&mut p, CHILD_PLACE, page);
    p
}

// The content of a page once an entry is put into it.
fn with_entry(old: &Page, count: usize, key: i64, page: PageNo) -> Content
    requires most { count ≤ most_names }
    ensures { (table own level : ℕ) (names : List Name)
        → IsInnerPage old.now.bytes table own level names → count ≡ length names
        → slice (image_of result.bytes) 0 (name_size * length (with_name (key, page.0) names))
        ≡ flat_map name_bytes (with_name (key, page.0) names) }
{
    let before = count_up_to(old, count, key);
    let at = CONTENT_PLACE + NAME_BYTES * before;
    let whole = spelled_entry(key, page.0);
    joined(
        old,
        at,
        at,
        CONTENT_PLACE + NAME_BYTES * count,
        piece(&whole, 0, NAME_BYTES),
    )
}

// A page above the leaves of such entries.
fn inner_page(owner: u32, level: u8, own: PageNo, count: u16, content: &[u8]) -> Page
    requires { length content.now ≤ page_bytes - content_place }
    ensures { (table : ℕ) (names : List Name) → owner ≡ clustered_owner table
        → content.now ≡ flat_map name_bytes names → All IsName names → count ≡ length names
        → length names ≤ most_names → IsInnerPage result.bytes table own.0 level names }
{
    let h = Head {
        kind: INNER_KIND,
        level,
        count,
        owner,
        next: PageNo(0),
        prev: PageNo(0),
        ssn: 0,
        own,
        used: (CONTENT_PLACE + content.len()) as u32,
    };
    packed(&h, content)
}

/// The page with an entry more, where it has room for it.
pub fn entry_put(old: &Page, count: u16, key: i64, page: PageNo) -> Page
    requires few { count < most_names }
    ensures { (table own level : ℕ) (names : List Name)
        → IsInnerPage old.now.bytes table own level names → count ≡ length names
        → IsInnerPage result.bytes table own level (with_name (key, page.0) names) }
{
    let h = head(old);
    let c = with_entry(old, count as usize, key, page);
    let size = NAME_BYTES * (count as usize + 1);
    inner_page(h.owner, h.level, h.own, count + 1, part(&c, 0, size))
}

/// The halves of a full page with an entry more.
pub fn entry_halves(old: &Page, key: i64, page: PageNo, right: PageNo) -> Halves
    ensures { (table own level : ℕ) (names : List Name)
        → IsInnerPage old.now.bytes table own level names → length names ≡ most_names
        → AreNodeHalves result table own right.0 level (with_name (key, page.0) names) }
{
    let h = head(old);
    let c = with_entry(old, MOST_NAMES as usize, key, page);
    let size = NAME_BYTES * LEFT_NAMES;
    let rest = NAME_BYTES * (MOST_NAMES as usize + 1) - size;
    let left = inner_page(
        h.owner,
        h.level,
        h.own,
        LEFT_NAMES as u16,
        part(&c, 0, size),
    );
    let behind = inner_page(
        h.owner,
        h.level,
        right,
        MOST_NAMES + 1 - LEFT_NAMES as u16,
        part(&c, size, rest),
    );
    let key = get_i64(&behind, CONTENT_PLACE);
    Halves {
        left,
        right: behind,
        key,
    }
}

/// What stands on a page, as it stands on another one.
pub fn moved(old: &Page, own: PageNo) -> Page
    ensures leaf { (table was next : ℕ) (rows : List Stored)
        → IsLeaf old.now.bytes table was next rows → IsLeaf result.bytes table own.0 next rows }
    ensures inner { (table was level : ℕ) (names : List Name)
        → IsInnerPage old.now.bytes table was level names
        → IsInnerPage result.bytes table own.0 level names }
{
    let mut new = *old;
    set_head(&mut new, &Head { own, ..head(old) });
    new
}

/// A root that stands one level above the page that stood there, which moved.
pub fn raised(old: &Page, level: u8, child: PageNo) -> Page
    ensures { (kind below table own : ℕ) → HasHead old.now.bytes kind below (clustered_owner table) own
        → IsInnerPage result.bytes table own level ((least_key, child.0) ∷ []) }
{
    let h = head(old);
    let whole = spelled_entry(i64::MIN, child.0);
    inner_page(h.owner, level, h.own, 1, piece(&whole, 0, NAME_BYTES))
}
