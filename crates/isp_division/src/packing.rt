//! Content of pages that is put together in memory: what stands on a page with a piece more, and a page with such content.
ghost use Rattle.std.specs.Prelude.{◌≡◌, ◌+◌, ◌-◌, ◌≤◌, ◌++◌, ℕ, length};
ghost use Rattle.isp_disk.specs.Moments.{image_of, put, slice};
ghost use Rattle.isp_format.specs.Header.{header_of};
ghost use Rattle.isp_format.specs.HeadValues.{header_in};
ghost use Rattle.isp_format.specs.Kinds.{content_place};
ghost use Rattle.isp_format.specs.Leaf.{most_slot, stored_head};
ghost use Rattle.isp_format.specs.Ranges.{page_bytes};
ghost use Rattle.isp_division.specs.Packing.{most_content};

use isp_cells::piece;
use isp_format::{CONTENT_PLACE, Head, Page, put_bytes, set_head};

/// How many bytes are kept of a content: those of a full page and of one row or entry more, and some to spare.
pub(crate) const CONTENT_BYTES: usize = 5_120;

/// The content of a page, which may be too long for it.
#[derive(Clone, Copy)]
pub(crate) struct Content {
    pub bytes: [u8; CONTENT_BYTES],
}

// Puts a piece over what stands in the content from `at` on.
fn put_piece(c: &mut Content, at: usize, piece: &[u8])
    requires { at + length piece.now ≤ most_content }
    ensures { (place : ℕ) → image_of c.new.bytes place ≡ put (image_of c.old.bytes) at piece.now place }
{
    c.bytes[at..at + piece.len()].copy_from_slice(piece);
}

/// What stands on a page up to `at`, then a piece, and then what stands there from `end` to `used`.
pub(crate) fn joined(old: &Page, at: usize, end: usize, used: usize, piece_put: &[u8]) -> Content
    requires from { content_place ≤ at }
    requires order { (at ≤ end) × (end ≤ used) }
    requires to { used ≤ page_bytes }
    requires fits { length piece_put.now ≤ stored_head + most_slot }
    ensures { slice (image_of result.bytes) 0
        (at - content_place + (length piece_put.now + (used - end)))
        ≡ slice (image_of old.now.bytes) content_place (at - content_place)
        ++ (piece_put.now ++ slice (image_of old.now.bytes) end (used - end)) }
{
    let mut c = Content {
        bytes: [0; CONTENT_BYTES],
    };
    let first = at - CONTENT_PLACE;
    put_piece(&mut c, 0, piece(old, CONTENT_PLACE, first));
    put_piece(&mut c, first, piece_put);
    put_piece(&mut c, first + piece_put.len(), piece(old, end, used - end));
    c
}

/// So many bytes of the content from `at` on.
pub(crate) fn part(c: &Content, at: usize, size: usize) -> &[u8]
    requires inside { at + size ≤ most_content }
    ensures { result.now ≡ slice (image_of c.now.bytes) at size }
{
    &c.bytes[at..at + size]
}

/// A page with this header and content.
pub(crate) fn packed(h: &Head, content: &[u8]) -> Page
    requires { length content.now ≤ page_bytes - content_place }
    ensures head { header_of result.bytes ≡ header_in h.now }
    ensures content { slice (image_of result.bytes) content_place (length content.now)
        ≡ content.now }
{
    let mut p = Page::zeros();
    put_bytes(&mut p, CONTENT_PLACE, content);
    set_head(&mut p, h);
    p
}
