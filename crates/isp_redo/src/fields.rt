//! Reads of the log's fields.

ghost use Rattle.std.specs.Prelude.{◌≡◌, ◌^◌, ◌<◌, ◌≤◌, ◌++◌, length, IfOk, OnOk};
ghost use Rattle.isp_disk.specs.Moments.{Quiet, slice};
ghost use Rattle.isp_disk.specs.Phases.{OnlyReads};
ghost use Rattle.isp_format.specs.Log.{count_size, log_bytes, log_of, range_head};
ghost use Rattle.isp_format.specs.Numbers.{bytes_of};

use isp_disk::{Failed, World};
use isp_format::{LOG_PLACE, RangeHead, be_u16, be_u32, range_head};

/// Fills the piece with the bytes of the log from a place on.
pub fn read_at<W: World>(world: &mut W, at: u64, into: &mut [u8]) -> Result<(), Failed>
    requires quiet { Quiet (W.pending world.old) }
    requires place { at ≤ log_bytes }
    ensures bytes { W.tells
        → OnOk result (into.new ≡ slice (log_of (W.image world.old)) at (length into.old)) }
    ensures reads { OnlyReads W.World world.old world.new result }
{
    world.read(LOG_PLACE + at, into)
}

/// The gate at a place.
pub fn read_gate<W: World>(world: &mut W, at: u64) -> Result<u8, Failed>
    requires quiet { Quiet (W.pending world.old) }
    requires place { at ≤ log_bytes }
    ensures gate { W.tells → IfOk result (λ gate. log_of (W.image world.old) at ≡ gate) }
    ensures reads { OnlyReads W.World world.old world.new result }
{
    let mut bytes = [0u8; 1];
    read_at(world, at, &mut bytes)?;
    Ok(bytes[0])
}

/// The length of the body of a batch.
pub fn read_size<W: World>(world: &mut W, at: u64) -> Result<u32, Failed>
    requires quiet { Quiet (W.pending world.old) }
    requires place { at ≤ log_bytes }
    ensures size { W.tells
        → IfOk result (λ size. slice (log_of (W.image world.old)) at 4 ≡ bytes_of 4 size) }
    ensures few { IfOk result (λ size. size < 256 ^ 4) }
    ensures reads { OnlyReads W.World world.old world.new result }
{
    let mut bytes = [0u8; 4];
    read_at(world, at, &mut bytes)?;
    Ok(be_u32(&bytes))
}

/// How many ranges a mini-transaction has.
pub fn read_count<W: World>(world: &mut W, at: u64) -> Result<u16, Failed>
    requires quiet { Quiet (W.pending world.old) }
    requires place { at ≤ log_bytes }
    ensures count { W.tells
        → IfOk result (λ count. slice (log_of (W.image world.old)) at count_size ≡ bytes_of 2 count) }
    ensures few { IfOk result (λ count. count < 256 ^ 2) }
    ensures reads { OnlyReads W.World world.old world.new result }
{
    let mut bytes = [0u8; 2];
    read_at(world, at, &mut bytes)?;
    Ok(be_u16(&bytes))
}

/// The header of a range.
pub fn read_header<W: World>(world: &mut W, at: u64) -> Result<RangeHead, Failed>
    requires quiet { Quiet (W.pending world.old) }
    requires place { at ≤ log_bytes }
    ensures header { W.tells → IfOk result (λ header. slice (log_of (W.image world.old)) at range_head
        ≡ bytes_of 4 header.page ++ (bytes_of 2 header.at ++ bytes_of 2 header.len)) }
    ensures few { IfOk result (λ header.
        (header.page < 256 ^ 4) × (header.at < 256 ^ 2) × (header.len < 256 ^ 2)) }
    ensures reads { OnlyReads W.World world.old world.new result }
{
    let mut bytes = [0u8; 8];
    read_at(world, at, &mut bytes)?;
    Ok(range_head(&bytes))
}
