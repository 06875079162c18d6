//! Whether a file was made: its byte 63.

ghost use Rattle.std.specs.Prelude.{◌≡◌, ◌==◌, IfOk};
ghost use Rattle.isp_format.specs.Control.{made_gate};
ghost use Rattle.isp_run.specs.Files.{LooksOnly};

use isp_disk::{Failed, World};
use isp_format::MADE_GATE;

/// Whether the made-gate is 1. Nothing but that byte is read.
pub fn is_made<W: World>(world: &mut W) -> Result<bool, Failed>
    ensures gate { W.tells → IfOk result (λ made. made ≡ (W.image world.old made_gate == 1)) }
    ensures looks { LooksOnly W.World world.old world.new result }
{
    let mut gate = [0];
    world.read(MADE_GATE as u64, &mut gate)?;
    Ok(gate[0] == 1)
}
