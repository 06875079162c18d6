//! The redo log put into the pages.
ghost use Rattle.std.specs.Prelude.{None, OnOk};
ghost use Rattle.isp_format.specs.Contents.{StandsFor};
ghost use Rattle.isp_frames.specs.Cached.{IsCheckpoint, now};
ghost use Rattle.isp_replay.specs.Putting.{IsFresh, KeepsFrames, PutsOn, Replays};
ghost use Rattle.isp_stable.specs.File.{IsFile, StandsOnly, placed};

use crate::fault::ReplayFault;
use crate::putting::put_next;
use isp_disk::World;
use isp_format::PAGE_BYTES;
use isp_frames::Cache;
use isp_page::StoreFault;

/// Puts the ranges of the log into their pages, one after the other, writes all pages in place and empties the log. The
/// contents are those that the file stood for, and at each stop within it the file stands for them. Over a world that tells
/// nothing, a range of a page that the file doesn't have is Damaged, rule 3; a file that was tested has none.
pub fn replay<W: World>(cache: &mut Cache<W>) -> Result<(), StoreFault>
    requires { IsFresh W.World cache.old }
    ensures checkpoint { OnOk result (IsCheckpoint W.World cache.new) }
    ensures stood { W.tells
        → OnOk result (StandsFor (W.image cache.old.stable.world) (now W.World cache.new)) }
    ensures stops { W.tells → StandsOnly W.World cache.old.stable cache.new.stable.world
        (StandsFor (W.image cache.old.stable.world)) }
    ensures kept { Replays W.World cache.old cache.new result }
{
    put_ranges(cache)?;
    match cache.checkpoint() {
        Ok(()) => Ok(()),
        Err(_) => Err(StoreFault::Disk),
    }
}

// Puts the ranges of the log into their pages.
fn put_ranges<W: World>(cache: &mut Cache<W>) -> Result<(), ReplayFault>
    requires { IsFresh W.World cache.old }
    ensures put { W.tells → (file : IsFile W.World cache.old.stable)
        → PutsOn W.World (λ done. None) (placed W.World cache.old.stable) file.batches
        cache.old cache.new result }
    ensures kept { KeepsFrames W.World cache.old cache.new result }
{
    let mut bytes = [0; PAGE_BYTES];
    let mut ahead = Some(0);
    'putting: while let Some(from) = ahead {
        ahead = put_next(cache, from, &mut bytes)?;
    }
    Ok(())
}
