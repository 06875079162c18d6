//! One range of the log put into its page.
ghost use Rattle.std.specs.Prelude.{◌≡◌, ℕ, ◌<◌, List, IfOk, Some};
ghost use Rattle.isp_format.specs.Log.{Transaction};
ghost use Rattle.isp_format.specs.Ranges.{Contents};
ghost use Rattle.isp_frames.specs.Cached.{IsCached};
ghost use Rattle.isp_replay.specs.Putting.{IsPut, IsReady, KeepsFrames, PutsOn, way_left};

use crate::fault::ReplayFault;
use isp_disk::World;
use isp_format::PAGE_BYTES;
use isp_frames::Cache;

/// Puts the range at a place of the log into its page, and answers the place of the next one; None at the end of the log.
pub(crate) fn put_next<W: World>(
    cache: &mut Cache<W>,
    from: u64,
    bytes: &mut [u8; PAGE_BYTES],
) -> Result<Option<u64>, ReplayFault>
    requires ready { IsReady W.World cache.old }
    requires cached { W.tells → IsCached W.World cache.old }
    ensures put { W.tells → (before : Contents) (batches : List (List Transaction))
        → IsPut W.World before batches cache.old (Some from)
        → PutsOn W.World (λ next. next) before batches cache.old cache.new result }
    ensures onward { IfOk result (λ next. way_left next < way_left (Some from)) }
    ensures kept { KeepsFrames W.World cache.old cache.new result }
{
    let Some(range) = cache.read_range(from, bytes)? else {
        return Ok(None);
    };
    if range.page.0 >= cache.stable().pages() {
        return Err(ReplayFault::NoSuchPage);
    }
    let bytes = &bytes[..usize::from(range.len)];
    cache.change(range.page, range.at, bytes)?;
    Ok(Some(range.next))
}
