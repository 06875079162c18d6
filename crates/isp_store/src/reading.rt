//! A page read.
ghost use Rattle.std.specs.Prelude.{◌≡◌, ℕ, ◌<◌, List, Some, OnOk};
ghost use Rattle.isp_format.specs.Ranges.{page_of};
ghost use Rattle.isp_frames.specs.Cached.{now};
ghost use Rattle.isp_mini.specs.declared.changes.Extent.{Extent};
ghost use Rattle.isp_pool.specs.Frames.{frame_at, page_of as page_in};
ghost use Rattle.isp_store.specs.Running.{IsHeldAfter, IsRunning, StaysRunning};

use isp_disk::{Failed, World};
use isp_format::{Page, PageNo};
use isp_frames::Cache;

/// Fills `into` with the page, which comes into a frame if it isn't there.
pub(crate) fn read_page<W: World>(
    cache: &mut Cache<W>,
    p: PageNo,
    into: &mut Page,
) -> Result<(), Failed>
    requires running { (extents : List Extent) × IsRunning W.World cache.old extents }
    requires page { p.0 < cache.old.stable.pages }
    ensures kept { (extents : List Extent) → IsRunning W.World cache.old extents
        → StaysRunning W.World cache.old cache.new extents result }
    ensures page { W.tells → OnOk result (into.new.bytes ≡ page_of (now W.World cache.old) p.0) }
    ensures contents { W.tells → OnOk result (now W.World cache.new ≡ now W.World cache.old) }
    ensures held { OnOk result (IsHeldAfter p cache.old.pool cache.new.pool) }
    ensures untouched { (i : ℕ) → page_in (frame_at cache.old.pool i) ≡ Some p
        → cache.new.stable ≡ cache.old.stable }
{
    cache.read(p, into)?;
    prove!(0 < cache.pool().frames());
    Ok(())
}
