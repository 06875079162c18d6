//! The writing of the file's made-gate.
ghost use Rattle.std.specs.Prelude.{◌≡◌, [], ◌∷◌, OnOk};
ghost use Rattle.isp_disk.specs.Moments.{Quiet, put};
ghost use Rattle.isp_disk.specs.Phases.{WritesIn};
ghost use Rattle.isp_format.specs.Control.{made_gate};
ghost use Rattle.isp_making.specs.Places.{made_place};

use isp_disk::{Failed, World};
use isp_format::MADE_GATE;

/// Writes the made-gate, and makes it durable.
pub(crate) fn set_gate<W: World>(world: &mut W, gate: u8) -> Result<(), Failed>
    requires { Quiet (W.pending world.old) }
    ensures written { W.tells
        → OnOk result (W.image world.new ≡ put (W.image world.old) made_gate (gate ∷ [])) }
    ensures wrote { WritesIn W.World made_place world.old world.new result }
{
    world.write(MADE_GATE as u64, &[gate])?;
    world.sync()?;
    Ok(())
}
