//! What a finished mini-transaction leaves to the log, and its pages unpinned.
ghost use Rattle.std.specs.Prelude.{◌≡◌, ℕ, ◌-◌, ◌+◌, ◌≤◌, ◌++◌, [], false, All, Some, drop, length, take};
ghost use Rattle.isp_format.specs.Log.{range_bytes, range_head, transaction_bytes};
ghost use Rattle.isp_format.specs.Ranges.{Contents};
ghost use Rattle.isp_frames.specs.Cached.{with_pool};
ghost use Rattle.isp_frames.specs.Held.{AreApart, now_over};
ghost use Rattle.isp_mini.specs.Extents.{AreExtents, IsExtent, largest_body, range_in, ranges_in};
ghost use Rattle.isp_pool.specs.Frames.{frame_at, page_of as page_in, with_frame};
ghost use Rattle.isp_store.specs.Running.{AreFrames, IsPinnedIn, IsUnpinned};

use isp_disk::World;
use isp_format::Page;
use isp_frames::Cache;
use isp_mini::{Body, Extent};
use isp_pool::Pool;

/// Spells the mini-transaction that changed these extents: of each page the bytes that stand in its frame now.
pub(crate) fn spell(pool: &Pool, extents: &[Extent], body: &mut Body)
    requires apart { AreApart pool.now.frames }
    requires pinned { All (IsPinnedIn pool.now) extents.now }
    requires extents { AreExtents extents.now }
    ensures { (placed : Contents) → body.new
        ≡ transaction_bytes (ranges_in (now_over pool.now.frames placed) extents.now) }
{
    body.begin(extents.len() as u16);
    for extent in extents {
        spell_range(pool, extent, body);
    }
}

// Spells the range of one page.
fn spell_range(pool: &Pool, extent: &Extent, body: &mut Body)
    requires apart { AreApart pool.now.frames }
    requires pinned { IsPinnedIn pool.now extent.now }
    requires extent { IsExtent extent.now }
    requires room { length body.old + range_head + (extent.now.end - extent.now.at) ≤ largest_body }
    ensures { (placed : Contents) → body.new
        ≡ body.old ++ range_bytes (range_in (now_over pool.now.frames placed) extent.now) }
{
    let page = pool.page(frame_of(pool, extent));
    body.push(extent.page, extent.at, bytes_of(page, extent));
}

// The bytes of an extent in its page.
fn bytes_of<'a>(page: &'a Page, extent: &Extent) -> &'a [u8]
    requires extent { IsExtent extent.now }
    ensures bytes { result.now
        ≡ take (extent.now.end - extent.now.at) (drop extent.now.at page.now.bytes) }
    ensures size { length result.now ≡ extent.now.end - extent.now.at }
{
    &page.bytes[extent.at as usize..extent.end as usize]
}

// The frame with the page of an extent.
fn frame_of(pool: &Pool, extent: &Extent) -> usize
    requires { IsPinnedIn pool.now extent.now }
    ensures { page_in (frame_at pool.now result) ≡ Some extent.now.page }
{
    let Some(frame) = pool.find(extent.page) else {
        unreachable!()
    };
    frame
}

/// Unpins the pages of these extents, which are all that are pinned.
pub(crate) fn unpin_all<W: World>(cache: &mut Cache<W>, extents: &[Extent])
    requires { AreFrames cache.old.stable.pages cache.old.pool extents.now }
    ensures pool { IsUnpinned cache.old.stable.pages cache.old.pool cache.new.pool [] }
    ensures others { cache.new ≡ with_pool cache.old cache.new.pool }
{
    for extent in extents {
        unpin_page(cache, extent);
    }
}

// Unpins the page of an extent.
fn unpin_page<W: World>(cache: &mut Cache<W>, extent: &Extent)
    requires { IsPinnedIn cache.old.pool extent.now }
    ensures pool { (i : ℕ) × (page_in (frame_at cache.old.pool i) ≡ Some extent.now.page)
        × (cache.new.pool ≡ with_frame cache.old.pool i (λ f. record f { pinned = false })) }
    ensures others { cache.new ≡ with_pool cache.old cache.new.pool }
{
    cache.unpin(extent.page);
}
