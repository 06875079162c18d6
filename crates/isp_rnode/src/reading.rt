//! Reading a page of an R-tree.

ghost use Rattle.std.specs.Prelude.{◌≡◌, ◌↔◌, ◌+◌, ◌*◌, ◌<◌, ◌≤◌, ◌≤ℤ◌, Some, IfOk, IsTrue, length, slice_get};
ghost use Rattle.isp_format.specs.Header.{header_of};
ghost use Rattle.isp_format.specs.Ranges.{page_bytes};
ghost use Rattle.isp_mbr.specs.Boxes.{IsBox};
ghost use Rattle.isp_rnode.specs.Nodes.{IsReadable, box_in, box_size, entry_place, entry_size, node_of, signed_in, to_in, to_size};

use isp_forest::{Entry, To};
use isp_format::{
    CONTENT_PLACE, MOST_FANOUT, Page, PageNo, RTREE_KIND, count_of, get_i32, get_i64, get_u32,
    get_u64, kind_of, level_of,
};
use isp_mbr::Box4;
use std::alloc::{AllocError, Global};

/// How many bytes an entry has.
pub(crate) const ENTRY_SIZE: usize = BOX_SIZE + TO_SIZE;

/// How many of them its box has.
pub(crate) const BOX_SIZE: usize = 16;

/// How many say where it leads.
const TO_SIZE: usize = 16;

/// How many entries a page holds at most: as many as the greatest fan-out.
const MOST_ENTRIES: usize = MOST_FANOUT as usize;

/// Whether a page can be read as a node: its kind is 6, it has at most 120 entries, and the corners of each one's box are
/// in order.
pub fn readable(p: &Page) -> bool
    ensures { IsTrue result ↔ IsReadable p.now.bytes }
{
    let count = usize::from(count_of(p));
    if kind_of(p) != RTREE_KIND || count > MOST_ENTRIES {
        return false;
    }
    for i in 0..count {
        if !is_box(p, CONTENT_PLACE + ENTRY_SIZE * i) {
            return false;
        }
    }
    true
}

/// How many entries the page has.
pub fn entry_count(p: &Page) -> usize
    ensures { result ≡ length (node_of p.now.bytes).entries }
{
    usize::from(count_of(p))
}

/// The entry with that index, read where it stands.
pub fn entry(p: &Page, i: usize) -> Entry
    requires readable { IsReadable p.now.bytes }
    requires inside { i < length (node_of p.now.bytes).entries }
    ensures { slice_get (node_of p.now.bytes).entries i ≡ Some result }
{
    let at = place_of(p, i);
    Entry {
        b: box_at(p, at),
        to: to_at(p, at + BOX_SIZE),
    }
}

/// The entries of the page, in their order. The error is want of memory.
pub fn entries(alloc: Global, p: &Page) -> Result<Vec<Entry>, AllocError>
    requires { IsReadable p.now.bytes }
    ensures { IfOk result (λ v. v.items ≡ (node_of p.now.bytes).entries) }
{
    let count = entry_count(p);
    let mut entries = Vec::with_capacity(alloc, count)?;
    for i in 0..count {
        entries.push(entry(p, i))?;
    }
    Ok(entries)
}

// Where the entry stands, whose box is in order.
fn place_of(p: &Page, i: usize) -> usize
    requires readable { IsReadable p.now.bytes }
    requires inside { i < length (node_of p.now.bytes).entries }
    ensures place { result ≡ entry_place i }
    ensures within { result + entry_size ≤ page_bytes }
    ensures ordered { IsBox (box_in p.now.bytes result) }
{
    CONTENT_PLACE + ENTRY_SIZE * i
}

// The box that stands there.
#[tactic(auto, unfolding(crate::specs::Nodes::box_in, crate::specs::Nodes::signed_in))]
fn box_at(p: &Page, at: usize) -> Box4
    requires inside { at + box_size ≤ page_bytes }
    requires ordered { IsBox (box_in p.now.bytes at) }
    ensures { result ≡ box_in p.now.bytes at }
{
    Box4 {
        x1: get_i32(p, at),
        y1: get_i32(p, at + 4),
        x2: get_i32(p, at + 8),
        y2: get_i32(p, at + 12),
    }
}

// Whether the corners that stand there are in order.
#[tactic(auto, unfolding(crate::specs::Nodes::box_in))]
fn is_box(p: &Page, at: usize) -> bool
    requires { at + box_size ≤ page_bytes }
    ensures { IsTrue result ↔ IsBox (box_in p.now.bytes at) }
{
    is_ordered(p, at, at + 8) && is_ordered(p, at + 4, at + 12)
}

// Whether the number at the first place is at most the one at the other.
#[tactic(auto, unfolding(crate::specs::Nodes::signed_in))]
fn is_ordered(p: &Page, low: usize, high: usize) -> bool
    requires low { low + 4 ≤ page_bytes }
    requires high { high + 4 ≤ page_bytes }
    ensures { IsTrue result ↔ (signed_in p.now.bytes low ≤ℤ signed_in p.now.bytes high) }
{
    get_i32(p, low) <= get_i32(p, high)
}

// Where an entry leads, by what stands there.
#[tactic(auto, unfolding(crate::specs::Nodes::to_in))]
fn to_at(p: &Page, at: usize) -> To
    requires { at + to_size ≤ page_bytes }
    ensures { result ≡ to_in (header_of p.now.bytes).level p.now.bytes at }
{
    if level_of(p) == 0 {
        To::Row {
            key: get_i64(p, at),
            number: get_u64(p, at + 8),
        }
    } else {
        To::Child(PageNo(get_u32(p, at)))
    }
}
