//! Reading and writing the header at the front of a page.
ghost use Rattle.std.specs.Prelude.{◌≡◌, ℕ, length};
ghost use Rattle.isp_disk.specs.Moments.{image_of, put};
ghost use Rattle.isp_format.specs.Header.{header_bytes, header_of};
ghost use Rattle.isp_format.specs.HeadValues.{header_in};

use crate::header::Head;
use crate::numbers::{get_u16, get_u32, get_u64, put_kind, put_u16, put_u32, put_u64};
use crate::page::Page;
use isp_base::PageNo;

/// The kind of the page.
pub fn kind_of(p: &Page) -> u8
    ensures { result ≡ (header_of p.now.bytes).kind }
{
    p.bytes[0]
}

/// How far the page is above the leaves of its tree.
pub fn level_of(p: &Page) -> u8
    ensures { result ≡ (header_of p.now.bytes).level }
{
    p.bytes[1]
}

/// How many entries the page has.
pub fn count_of(p: &Page) -> u16
    ensures { result ≡ (header_of p.now.bytes).count }
{
    get_u16(p, 2)
}

/// The header of the page.
pub fn head(p: &Page) -> Head
    ensures { header_in result ≡ header_of p.now.bytes }
{
    Head {
        kind: kind_of(p),
        level: level_of(p),
        count: count_of(p),
        owner: get_u32(p, 4),
        next: PageNo(get_u32(p, 8)),
        prev: PageNo(get_u32(p, 12)),
        ssn: get_u64(p, 16),
        own: PageNo(get_u32(p, 24)),
        used: get_u32(p, 28),
    }
}

/// Puts this header at the front of the page. The other bytes stay.
pub fn set_head(p: &mut Page, h: &Head)
    ensures bytes { (place : ℕ) → image_of p.new.bytes place
        ≡ put (image_of p.old.bytes) 0 (header_bytes (header_in h.now)) place }
    ensures size { length p.new.bytes ≡ length p.old.bytes }
    ensures head { header_of p.new.bytes ≡ header_in h.now }
{
    put_kind(p, h.kind, h.level);
    put_u16(p, 2, h.count);
    put_u32(p, 4, h.owner);
    put_u32(p, 8, h.next.0);
    put_u32(p, 12, h.prev.0);
    put_u64(p, 16, h.ssn);
    put_u32(p, 24, h.own.0);
    put_u32(p, 28, h.used);
}
