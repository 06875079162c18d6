//! A batch of pages is written whole or not at all.
ghost use Rattle.std.specs.Prelude.{◌≤◌, OnOk, length, map};
ghost use Rattle.isp_disk.specs.Moments.{LeavesOnly, Quiet};
ghost use Rattle.isp_disk.specs.Phases.{EndsQuiet, WritesIn};
ghost use Rattle.isp_doublewrite.specs.Batches.{BatchLeft, FitsBatch, IsBatchDone, IsPlaced, IsStaged, TakesBatch, number_of, whole_page};
ghost use Rattle.isp_doublewrite.specs.Places.{page_places, staged_places};
ghost use Rattle.isp_format.specs.Doublewrite.{most_copies};

use crate::places::{all_bytes, set_gate, write_number};
use isp_disk::{Failed, World};
use isp_format::{COUNT_PLACE, Page, PageNo, copy_place, number_place, page_place};

/// Writes 1 to 64 pages in place, by way of copies. A stop at any moment leaves, with the copies laid over the pages, none
/// of the batch or all of it, and every other byte outside the doublewrite area as it was. After it they are durable.
pub fn write_batch<W: World>(world: &mut W, batch: &[(PageNo, Page)]) -> Result<(), Failed>
    requires quiet { Quiet (W.pending world.old) }
    requires fits { FitsBatch (map number_of batch.now) }
    requires takes { W.tells → TakesBatch (map number_of batch.now) (W.image world.old) }
    ensures done { W.tells → OnOk result (IsBatchDone (map whole_page batch.now)
        (map number_of batch.now) (W.image world.old) (W.image world.new)) }
    ensures stops { W.tells → LeavesOnly W.clock W.left_since world.old world.new (BatchLeft
        (map whole_page batch.now) (map number_of batch.now)
        (W.image world.old) (W.printed world.old)) }
    ensures ends { EndsQuiet W.World world.old world.new result }
{
    stage(world, batch)?;
    set_gate(world, 1)?;
    place(world, batch)?;
    set_gate(world, 0)?;
    Ok(())
}

// Writes the list and the copies.
fn stage<W: World>(world: &mut W, batch: &[(PageNo, Page)]) -> Result<(), Failed>
    requires quiet { Quiet (W.pending world.old) }
    requires most { length batch.now ≤ most_copies }
    ensures staged { W.tells
        → OnOk result (IsStaged (length batch.now) (map whole_page batch.now) (W.image world.new)) }
    ensures wrote { WritesIn W.World staged_places world.old world.new result }
{
    write_number(world, COUNT_PLACE, batch.len() as u32)?;
    for (k, (number, page)) in batch.iter().enumerate() {
        write_number(world, number_place(k), number.0)?;
        world.write(copy_place(k), all_bytes(page))?;
    }
    world.sync()?; // before the gate makes them count
    Ok(())
}

// Writes the pages in place.
fn place<W: World>(world: &mut W, batch: &[(PageNo, Page)]) -> Result<(), Failed>
    requires quiet { Quiet (W.pending world.old) }
    ensures placed { W.tells → OnOk result (IsPlaced (map whole_page batch.now)
        (W.image world.old) (W.image world.new)) }
    ensures wrote { WritesIn W.World (page_places (map number_of batch.now))
        world.old world.new result }
{
    for (number, page) in batch {
        world.write(page_place(number.0), all_bytes(page))?;
    }
    world.sync()?; // before the copies count no more
    Ok(())
}
