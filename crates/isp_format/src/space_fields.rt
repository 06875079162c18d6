//! What page 0 says, read from its bytes and written into them.
ghost use Rattle.std.specs.Prelude.{◌≡◌, ℕ, length};
ghost use Rattle.isp_disk.specs.Moments.{image_of, put};
ghost use Rattle.isp_format.specs.Kinds.{content_place};
ghost use Rattle.isp_format.specs.Space.{FitsSpace, IsSpacePage, SpacePage, space_bytes};
ghost use Rattle.isp_format.specs.SpaceValues.{numbers_in, page_in};

use crate::numbers::{get_u32, get_u64, put_u32, put_u64};
use crate::page::Page;

/// The numbers of page 0.
#[derive(Clone, Copy)]
pub struct SpaceNumbers {
    /// The first page of the free chain, 0 where it is empty.
    pub free_head: u32,
    /// How many pages the free chain has.
    pub free_count: u32,
    /// The first page never used.
    pub fresh: u32,
    /// How many tables there are.
    pub tables: u32,
    /// The number of the next entry of an R-tree.
    pub entries: u64,
    /// How many bytes were put into clustered trees.
    pub bytes: u64,
}

/// The numbers that stand in the fields' places.
pub fn space_numbers(p: &Page) -> SpaceNumbers
    ensures stand { page_in result ≡ numbers_in p.now.bytes }
    ensures says { (s : SpacePage) → IsSpacePage p.now.bytes s → page_in result ≡ s }
{
    SpaceNumbers {
        free_head: get_u32(p, 64),
        free_count: get_u32(p, 68),
        fresh: get_u32(p, 72),
        tables: get_u32(p, 76),
        entries: get_u64(p, 80),
        bytes: get_u64(p, 88),
    }
}

/// Puts the fields into their places. Every other byte stays.
pub fn set_space_numbers(p: &mut Page, f: &SpaceNumbers)
    ensures bytes { (place : ℕ) → image_of p.new.bytes place
        ≡ put (image_of p.old.bytes) content_place (space_bytes (page_in f.now)) place }
    ensures fits { FitsSpace (page_in f.now) }
    ensures says { (was : SpacePage) → IsSpacePage p.old.bytes was
        → IsSpacePage p.new.bytes (page_in f.now) }
    ensures size { length p.new.bytes ≡ length p.old.bytes }
{
    put_u32(p, 64, f.free_head);
    put_u32(p, 68, f.free_count);
    put_u32(p, 72, f.fresh);
    put_u32(p, 76, f.tables);
    put_u64(p, 80, f.entries);
    put_u64(p, 88, f.bytes);
}
