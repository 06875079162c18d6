//! The two kinds of writes of the log, each with the sync behind it.

ghost use Rattle.std.specs.Prelude.{◌≡◌, ◌+◌, ◌<◌, length, OnOk};
ghost use Rattle.isp_disk.specs.Moments.{Quiet, in_range, put};
ghost use Rattle.isp_disk.specs.Phases.{IsWrite, WritesIn};
ghost use Rattle.isp_format.specs.Doublewrite.{area_place};
ghost use Rattle.isp_format.specs.Log.{batch_head};
ghost use Rattle.isp_format.specs.Numbers.{bytes_of};
ghost use Rattle.isp_redo.specs.Changes.{HasBody};

use isp_disk::{Failed, World};
use isp_format::{BATCH_HEAD, u32_bytes};

// Writes the length of a body.
fn write_size<W: World>(world: &mut W, at: u64, size: u32) -> Result<(), Failed>
    ensures written { W.tells
        → OnOk result (W.image world.new ≡ put (W.image world.old) at (bytes_of 4 size)) }
    ensures write { IsWrite W.World at 4 world.old world.new result }
{
    world.write(at, &u32_bytes(size))
}

/// Writes the length of a body, the body and a closed gate behind the gate at a place of the disk, and syncs.
pub fn lay_body<W: World>(world: &mut W, at: u64, body: &[u8]) -> Result<(), Failed>
    requires quiet { Quiet (W.pending world.old) }
    requires inside { at + batch_head + length body.now < area_place }

    ensures laid { W.tells → OnOk result (HasBody (W.image world.new) at body.now) }
    ensures wrote { WritesIn W.World (in_range (at + 1) (length body.now + batch_head))
        world.old world.new result }
{
    write_size(world, at + 1, body.len() as u32)?;
    world.write(at + BATCH_HEAD, body)?;
    world.write(at + BATCH_HEAD + body.len() as u64, &[0])?;
    world.sync()?;
    Ok(())
}

/// Writes the gate at a place of the disk, and syncs.
pub fn set_gate<W: World>(world: &mut W, at: u64, gate: u8) -> Result<(), Failed>
    requires quiet { Quiet (W.pending world.old) }

    ensures gate { W.tells → OnOk result (W.image world.new at ≡ gate) }
    ensures wrote { WritesIn W.World (in_range at 1) world.old world.new result }
{
    world.write(at, &[gate])?;
    world.sync()?;
    Ok(())
}
