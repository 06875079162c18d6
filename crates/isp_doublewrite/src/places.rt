//! What is written: pages whole, numbers, and the gate.
ghost use Rattle.std.specs.Prelude.{◌≡◌, ◌^◌, ◌<◌, [], ◌∷◌, OnOk, length};
ghost use Rattle.isp_disk.specs.Moments.{Quiet, put};
ghost use Rattle.isp_disk.specs.Phases.{IsWrite, WritesIn};
ghost use Rattle.isp_doublewrite.specs.Places.{gate_place};
ghost use Rattle.isp_format.specs.Doublewrite.{doublewrite_gate};
ghost use Rattle.isp_format.specs.Numbers.{bytes_of};
ghost use Rattle.isp_format.specs.Ranges.{page_bytes};

use isp_disk::{Failed, World};
use isp_format::{DOUBLEWRITE_GATE, Page, u32_bytes};

/// The bytes of a page.
pub(crate) fn all_bytes(page: &Page) -> &[u8]
    ensures value { result.now ≡ page.now.bytes }
    ensures size { length result.now ≡ page_bytes }
{
    &page.bytes
}

/// Writes a number in four bytes.
pub(crate) fn write_number<W: World>(world: &mut W, at: u64, number: u32) -> Result<(), Failed>
    ensures written { W.tells
        → OnOk result (W.image world.new ≡ put (W.image world.old) at (bytes_of 4 number)) }
    ensures write { IsWrite W.World at 4 world.old world.new result }
    ensures fits { number < 256 ^ 4 }
{
    world.write(at, &u32_bytes(number))?;
    Ok(())
}

/// Writes the gate, and makes it durable.
pub(crate) fn set_gate<W: World>(world: &mut W, gate: u8) -> Result<(), Failed>
    requires { Quiet (W.pending world.old) }
    ensures written { W.tells
        → OnOk result (W.image world.new ≡ put (W.image world.old) doublewrite_gate (gate ∷ [])) }
    ensures wrote { WritesIn W.World gate_place world.old world.new result }
{
    world.write(DOUBLEWRITE_GATE, &[gate])?;
    world.sync()?;
    Ok(())
}
