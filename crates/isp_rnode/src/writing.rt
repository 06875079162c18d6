//! Writing the entries of a page of an R-tree.

ghost use Rattle.std.specs.Prelude.{◌≡◌, ◌==◌, ◌+◌, ◌≤◌, ℕ, suc, is_none, length};
ghost use Rattle.std.specs.Int.{cast_unsigned, w32, w64};
ghost use Rattle.isp_base.specs.Lists.{Has};
ghost use Rattle.isp_disk.specs.Moments.{image_of, put};
ghost use Rattle.isp_format.specs.Header.{header_bytes, header_of};
ghost use Rattle.isp_format.specs.Numbers.{bytes_of};
ghost use Rattle.isp_forest.specs.declared.entry.Entry.{Entry};
ghost use Rattle.isp_forest.specs.declared.entry.To.TheVariants.{Child, Row};
ghost use Rattle.isp_forest.specs.Tree.{Node, child_of};
ghost use Rattle.isp_mbr.specs.Boxes.{IsBox};
ghost use Rattle.isp_format.specs.Kinds.{content_place, rtree_kind};
ghost use Rattle.isp_format.specs.Ranges.{page_bytes};
ghost use Rattle.isp_rnode.specs.Nodes.{IsNode, IsReadable, StandFrom, box_bytes, box_in, box_size, child_bytes, entries_bytes, entry_bytes, entry_in, entry_size, most_entries, node_of, row_bytes, signed_in, to_bytes, to_in, to_size, with_count};

use crate::reading::{BOX_SIZE, ENTRY_SIZE};
use isp_forest::{Entry, To};
use isp_format::{CONTENT_PLACE, Page, PageNo, head, put_bytes, put_u32, put_u64, set_head};
use isp_mbr::Box4;

/// Replaces the entries of the page, and in its header their number and where they end. All other bytes stay.
pub fn set_entries(p: &mut Page, entries: &[Entry])
    requires most { length entries.now ≤ most_entries }
    requires kinds { (e : Entry) → Has entries.now e
        → is_none (child_of e) ≡ ((header_of p.old.bytes).level == 0) }
    ensures bytes { (place : ℕ) → image_of p.new.bytes place
        ≡ put (put (image_of p.old.bytes) content_place (entries_bytes entries.now))
        0 (header_bytes (with_count (length entries.now) (header_of p.old.bytes))) place }
    ensures head { header_of p.new.bytes ≡ with_count (length entries.now) (header_of p.old.bytes) }
    ensures node { node_of p.new.bytes ≡ record (node_of p.old.bytes) { entries = entries.now } }
    ensures readable { (header_of p.old.bytes).kind ≡ rtree_kind → IsReadable p.new.bytes }
    ensures kept { (owner q : ℕ) (node : Node) → IsNode owner q node p.old.bytes
        → IsNode owner q (record node { entries = entries.now }) p.new.bytes }
{
    let mut h = head(p);
    put_entries(p, entries);
    h.count = entries.len() as u16;
    h.used = (CONTENT_PLACE + ENTRY_SIZE * entries.len()) as u32;
    set_head(p, &h);
}

// Puts the entries one behind the other.
fn put_entries(p: &mut Page, entries: &[Entry])
    requires most { length entries.now ≤ most_entries }
    requires kinds { (e : Entry) → Has entries.now e
        → is_none (child_of e) ≡ ((header_of p.old.bytes).level == 0) }
    ensures put { (place : ℕ) → image_of p.new.bytes place
        ≡ put (image_of p.old.bytes) content_place (entries_bytes entries.now) place }
    ensures stand { StandFrom (header_of p.old.bytes).level p.new.bytes entries.now }
    ensures ordered { (e : Entry) → Has entries.now e → IsBox e.b }
{
    for (i, e) in entries.iter().enumerate() {
        put_entry(p, CONTENT_PLACE + ENTRY_SIZE * i, e);
    }
}

// Puts an entry. It is read back on a page of a level that has such entries.
fn put_entry(p: &mut Page, at: usize, e: &Entry)
    requires { at + entry_size ≤ page_bytes }
    ensures put { (place : ℕ) → image_of p.new.bytes place
        ≡ put (image_of p.old.bytes) at (entry_bytes e.now) place }
    ensures back { (level : ℕ) → is_none (child_of e.now) ≡ (level == 0)
        → entry_in level p.new.bytes at ≡ e.now }
    ensures ordered { IsBox e.now.b }
{
    put_box(p, at, &e.b);
    match e.to {
        To::Row { key, number } => put_row(p, at + BOX_SIZE, key, number),
        To::Child(page) => put_child(p, at + BOX_SIZE, page),
    }
}

// Puts the corners of a box.
fn put_box(p: &mut Page, at: usize, b: &Box4)
    requires { at + box_size ≤ page_bytes }
    ensures put { (place : ℕ) → image_of p.new.bytes place
        ≡ put (image_of p.old.bytes) at (box_bytes b.now) place }
    ensures back { box_in p.new.bytes at ≡ b.now }
    ensures ordered { IsBox b.now }
{
    put_i32(p, at, b.x1);
    put_i32(p, at + 4, b.y1);
    put_i32(p, at + 8, b.x2);
    put_i32(p, at + 12, b.y2);
}

// Puts a signed number, as two's complement.
fn put_i32(p: &mut Page, at: usize, number: i32)
    requires { at + 4 ≤ page_bytes }
    ensures put { (place : ℕ) → image_of p.new.bytes place
        ≡ put (image_of p.old.bytes) at (bytes_of 4 (cast_unsigned w32 number)) place }
    ensures back { signed_in p.new.bytes at ≡ number }
{
    put_u32(p, at, number.cast_unsigned());
}

// Puts the key of a row and the number of its entry.
fn put_row(p: &mut Page, at: usize, key: i64, number: u64)
    requires { at + to_size ≤ page_bytes }
    ensures put { (place : ℕ) → image_of p.new.bytes place
        ≡ put (image_of p.old.bytes) at (row_bytes key number) place }
    ensures back { to_in 0 p.new.bytes at ≡ Row key number }
{
    put_u64(p, at, key.cast_unsigned());
    put_u64(p, at + 8, number);
}

// Puts the number of a page, and zeros behind it.
fn put_child(p: &mut Page, at: usize, page: PageNo)
    requires { at + to_size ≤ page_bytes }
    ensures put { (place : ℕ) → image_of p.new.bytes place
        ≡ put (image_of p.old.bytes) at (child_bytes page.0) place }
    ensures back { (level : ℕ) → to_in (suc level) p.new.bytes at ≡ Child page }
{
    put_u32(p, at, page.0);
    put_bytes(p, at + 4, &[0; 12]);
}
