//! Pages written in place, and the log emptied, while no change is open.
ghost use Rattle.std.specs.Prelude.{◌≡◌, ◌+◌, ◌<◌, [], IfOk, OnOk};
ghost use Rattle.isp_frames.specs.Cached.{IsCheckpoint, now};
ghost use Rattle.isp_frames.specs.Held.{CleansSome, IsCleaned};
ghost use Rattle.isp_mini.specs.Extents.{largest_body};
ghost use Rattle.isp_stable.specs.File.{HasRoomFor};
ghost use Rattle.isp_store.specs.Running.{IsRunning, StandsAlike, StaysRunning};

use isp_disk::{Failed, World};
use isp_frames::Cache;
use isp_mini::LARGEST_BODY;

/// Writes all dirty pages in place and empties the log. No change is open.
pub(crate) fn checkpoint_pages<W: World>(cache: &mut Cache<W>) -> Result<(), Failed>
    requires { IsRunning W.World cache.old [] }
    ensures kept { StaysRunning W.World cache.old cache.new [] result }
    ensures checkpoint { OnOk result (IsCheckpoint W.World cache.new) }
    ensures alike { W.tells → OnOk result (StandsAlike W.World cache.old cache.new) }
    ensures cleaned { OnOk result (IsCleaned cache.old.pool cache.new.pool) }
{
    prove!(0 < cache.pool().frames());
    cache.checkpoint()
}

/// Writes up to 64 dirty pages in place, the least recently used first. Answers how many. No change is open.
pub(crate) fn clean_pages<W: World>(cache: &mut Cache<W>) -> Result<u32, Failed>
    requires { IsRunning W.World cache.old [] }
    ensures kept { StaysRunning W.World cache.old cache.new [] result }
    ensures contents { W.tells → OnOk result (now W.World cache.new ≡ now W.World cache.old) }
    ensures cleaned { IfOk result (CleansSome cache.old.pool cache.new.pool) }
{
    cache.clean_some()
}

/// Finds room in the log for the largest body: where there is none, all pages are written in place and the log is emptied.
pub(crate) fn find_room<W: World>(cache: &mut Cache<W>) -> Result<(), Failed>
    requires { IsRunning W.World cache.old [] }
    ensures kept { StaysRunning W.World cache.old cache.new [] result }
    ensures log { OnOk result (HasRoomFor cache.new.stable largest_body) }
    ensures alike { W.tells → OnOk result (StandsAlike W.World cache.old cache.new) }
    ensures cleaned { OnOk result (IsCleaned cache.old.pool cache.new.pool) }
{
    if cache.stable().has_room(LARGEST_BODY) {
        return Ok(());
    }
    checkpoint_pages(cache)
}
