//! The end of a mini-transaction.
ghost use Rattle.std.specs.Prelude.{◌≡◌, ◌≢◌, ◌++◌, [], ◌∷◌, OnOk};
ghost use Rattle.isp_frames.specs.Cached.{now};
ghost use Rattle.isp_mini.specs.Extents.{ranges_in};
ghost use Rattle.isp_stable.specs.File.{HasBatches, IsFile};
ghost use Rattle.isp_store.specs.Running.{IsRunning, LeavesFrames, StaysLogging};

use crate::logging::{spell, unpin_all};
use isp_disk::{Failed, World};
use isp_frames::Cache;
use isp_mini::{Body, Changes};

/// Appends what the mini-transaction changed to the log, as one batch, and unpins its pages.
pub(crate) fn log_changes<W: World>(
    cache: &mut Cache<W>,
    changes: &mut Changes,
    body: &mut Body,
) -> Result<(), Failed>
    requires running { IsRunning W.World cache.old changes.old }
    requires some { changes.old ≢ [] }
    ensures kept { StaysLogging W.World cache.old cache.new [] result }
    ensures changes { OnOk result (changes.new ≡ []) }
    ensures contents { W.tells → now W.World cache.new ≡ now W.World cache.old }
    ensures logged { W.tells → (file : IsFile W.World cache.old.stable)
        → OnOk result (HasBatches W.World cache.new.stable
        (file.batches ++ (ranges_in (now W.World cache.old) changes.old ∷ []) ∷ [])) }
    ensures frames { LeavesFrames cache.old.pool cache.new.pool }
{
    spell(cache.pool(), changes.extents(), body);
    cache.append(body.as_slice())?;
    unpin_all(cache, changes.extents());
    changes.clear();
    Ok(())
}
