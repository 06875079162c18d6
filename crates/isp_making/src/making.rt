//! An empty file made.
ghost use Rattle.std.specs.Prelude.{◌≢◌, OnOk};
ghost use Rattle.isp_disk.specs.Moments.{Agree, Quiet, either, no_place};
ghost use Rattle.isp_disk.specs.Phases.{EndsQuiet, Phase, WritesIn};
ghost use Rattle.isp_format.specs.Control.{IsFanout, IsPages, made_gate};
ghost use Rattle.isp_making.specs.Making.{IsMade, LeavesMaking};
ghost use Rattle.isp_making.specs.Places.{IsWritten, content_places, file_places, made_place};

use crate::places::set_gate;
use isp_disk::{Failed, World};
use isp_format::{
    DOUBLEWRITE_GATE, FIRST_FRESH, LOG_PLACE, MADE_GATE, control_bytes, first_page, page_place,
};

/// Makes an empty file of so many pages, with this fan-out for its R-trees. The file is one once its made-gate is on the
/// disk, which is written when all else is durable, and before that only to close it where it is 1. Pages past the first
/// sixteen are left as they read.
pub fn make<W: World>(world: &mut W, pages: u32, fanout: u32) -> Result<(), Failed>
    requires pages { IsPages pages }
    requires fanout { IsFanout fanout }
    ensures made { W.tells → OnOk result (IsMade pages fanout (W.image world.new)) }
    ensures others { Agree file_places (W.image world.old) (W.image world.new) }
    ensures stops { W.tells → LeavesMaking W.World pages fanout
        (either (W.pending world.old) made_place) world.old world.new }
    ensures closed { W.tells → W.image world.old made_gate ≢ 1
        → LeavesMaking W.World pages fanout (W.pending world.old) world.old world.new }
    ensures ends { EndsQuiet W.World world.old world.new result }
{
    world.sync()?; // so that nothing is pending
    close_gate(world)?;
    write_contents(world, pages, fanout)?;
    set_gate(world, 1)?;
    Ok(())
}

// Closes the made-gate where it is open. A stop within a write may leave any byte, so a gate that is closed is left alone.
fn close_gate<W: World>(world: &mut W) -> Result<(), Failed>
    requires { Quiet (W.pending world.old) }
    ensures closed { W.tells → OnOk result (W.image world.new made_gate ≢ 1) }
    ensures untouched { W.tells → W.image world.old made_gate ≢ 1
        → Phase W.World world.old world.new no_place }
    ensures wrote { WritesIn W.World made_place world.old world.new result }
{
    let mut gate = [0];
    world.read(MADE_GATE as u64, &mut gate)?;
    if gate[0] != 1 {
        return Ok(());
    }
    set_gate(world, 0)?;
    Ok(())
}

// Writes all but the made-gate, and makes it durable.
fn write_contents<W: World>(world: &mut W, pages: u32, fanout: u32) -> Result<(), Failed>
    requires { Quiet (W.pending world.old) }
    ensures written { W.tells → OnOk result (IsWritten pages fanout (W.image world.new)) }
    ensures wrote { WritesIn W.World content_places world.old world.new result }
{
    world.write(0, &control_bytes(pages, fanout))?;
    world.write(DOUBLEWRITE_GATE, &[0])?;
    world.write(LOG_PLACE, &[0])?;
    for number in 0..FIRST_FRESH {
        world.write(page_place(number), &first_page(number).bytes)?;
    }
    world.sync()?; // before the made-gate makes it a file
    Ok(())
}
