//! Bytes put into a page, by the mini-transaction that is begun.
ghost use Rattle.std.specs.Prelude.{◌≡◌, ◌≢◌, ℕ, ◌*◌, ◌+◌, ◌<◌, ◌≤◌, [], Some, OnOk, length};
ghost use Rattle.isp_disk.specs.Moments.{put};
ghost use Rattle.isp_format.specs.Ranges.{page_bytes};
ghost use Rattle.isp_frames.specs.Cached.{now};
ghost use Rattle.isp_mini.specs.Extents.{largest_body, with_extent};
ghost use Rattle.isp_page.specs.State.{most_changed};
ghost use Rattle.isp_pool.specs.Frames.{frame_at, page_of as page_in};
ghost use Rattle.isp_stable.specs.File.{HasRoomFor};
ghost use Rattle.isp_store.specs.Running.{IsHeldAfter, IsRunning, StaysRunning};

use crate::cleaning::find_room;
use isp_disk::{Failed, World};
use isp_format::PageNo;
use isp_frames::Cache;
use isp_mini::Changes;

/// Puts bytes into a page from `at` on, and pins it, so that it isn't evicted before they are in the log. The log has room for
/// the mini-transaction.
pub(crate) fn put_bytes<W: World>(
    cache: &mut Cache<W>,
    changes: &mut Changes,
    p: PageNo,
    at: u16,
    bytes: &[u8],
) -> Result<(), Failed>
    requires running { IsRunning W.World cache.old changes.old }
    requires page { p.0 < cache.old.stable.pages }
    requires some { 1 ≤ length bytes.now }
    requires inside { at + length bytes.now ≤ page_bytes }
    requires most { length (with_extent p at (at + length bytes.now) changes.old) ≤ most_changed }
    requires log { HasRoomFor cache.old.stable largest_body }
    ensures kept { StaysRunning W.World cache.old cache.new changes.new result }
    ensures changes { OnOk result (changes.new
        ≡ with_extent p at (at + length bytes.now) changes.old) }
    ensures contents { W.tells → OnOk result (now W.World cache.new
        ≡ put (now W.World cache.old) (p.0 * page_bytes + at) bytes.now) }
    ensures held { OnOk result (IsHeldAfter p cache.old.pool cache.new.pool) }
    ensures untouched { (i : ℕ) → page_in (frame_at cache.old.pool i) ≡ Some p
        → cache.new.stable ≡ cache.old.stable }
{
    cache.change(p, at, bytes)?;
    cache.pin(p);
    changes.note(p, at, bytes.len() as u16);
    Ok(())
}

/// Puts bytes into a page from `at` on, and pins it. The first change of a mini-transaction finds room in the log.
pub(crate) fn change_page<W: World>(
    cache: &mut Cache<W>,
    changes: &mut Changes,
    p: PageNo,
    at: u16,
    bytes: &[u8],
) -> Result<(), Failed>
    requires running { IsRunning W.World cache.old changes.old }
    requires page { p.0 < cache.old.stable.pages }
    requires some { 1 ≤ length bytes.now }
    requires inside { at + length bytes.now ≤ page_bytes }
    requires most { length (with_extent p at (at + length bytes.now) changes.old) ≤ most_changed }
    ensures kept { StaysRunning W.World cache.old cache.new changes.new result }
    ensures changes { OnOk result (changes.new
        ≡ with_extent p at (at + length bytes.now) changes.old) }
    ensures contents { W.tells → OnOk result (now W.World cache.new
        ≡ put (now W.World cache.old) (p.0 * page_bytes + at) bytes.now) }
    ensures held { OnOk result (IsHeldAfter p cache.old.pool cache.new.pool) }
    ensures untouched { changes.old ≢ [] → (i : ℕ) → page_in (frame_at cache.old.pool i) ≡ Some p
        → cache.new.stable ≡ cache.old.stable }
{
    if !changes.is_empty() {
        return put_bytes(cache, changes, p, at, bytes);
    }
    find_room(cache)?;
    put_bytes(cache, changes, p, at, bytes)
}
