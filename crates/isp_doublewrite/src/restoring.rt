//! Copies that count are laid over their pages.
ghost use Rattle.std.specs.Prelude.{◌≤◌, IfOk, OnOk, length};
ghost use Rattle.isp_disk.specs.Moments.{LeavesOnly, Quiet};
ghost use Rattle.isp_disk.specs.Phases.{EndsQuiet, WritesIn};
ghost use Rattle.isp_doublewrite.specs.Batches.{IsPlaced};
ghost use Rattle.isp_doublewrite.specs.Lists.{HasNumbers};
ghost use Rattle.isp_doublewrite.specs.Places.{page_places};
ghost use Rattle.isp_doublewrite.specs.Restores.{IsRestored, RestoreLeft};
ghost use Rattle.isp_format.specs.Doublewrite.{copies_from, most_copies};

use crate::list::{is_copy_list, read_gate, read_list};
use crate::places::set_gate;
use isp_disk::{Failed, World};
use isp_format::{MOST_COPIES, PAGE_BYTES, copy_place, page_place};

/// What became of the copies.
#[derive(Clone, Copy, Debug, PartialEq, Eq)]
pub enum Restored {
    /// The gate isn't 1: no copy counts.
    Nothing,
    /// The copies were laid over their pages, and count no more.
    Laid,
    /// The list of copies breaks its rule. Nothing was written.
    Bad,
}

/// Lays the copies over their pages, if they count, of a file of so many pages. A stop at any moment leaves the same pages
/// with the copies laid over them, and every other byte as it was.
pub fn restore<W: World>(world: &mut W, pages: u32) -> Result<Restored, Failed>
    requires { Quiet (W.pending world.old) }
    ensures done { W.tells
        → IfOk result (IsRestored pages (W.image world.old) (W.image world.new)) }
    ensures stops { W.tells → LeavesOnly W.clock W.left_since world.old world.new
        (RestoreLeft pages (W.image world.old) (W.printed world.old)) }
    ensures ends { EndsQuiet W.World world.old world.new result }
{
    if read_gate(world)? != 1 {
        return Ok(Restored::Nothing);
    }
    let mut numbers = [0; MOST_COPIES];
    let count = read_list(world, &mut numbers)?;
    if !is_copy_list(count, &numbers, pages) {
        return Ok(Restored::Bad);
    }
    lay(world, &numbers[..count as usize])?;
    set_gate(world, 0)?;
    Ok(Restored::Laid)
}

// Writes the copies of these pages in place.
fn lay<W: World>(world: &mut W, numbers: &[u32]) -> Result<(), Failed>
    requires quiet { Quiet (W.pending world.old) }
    requires most { length numbers.now ≤ most_copies }
    requires numbers { W.tells → HasNumbers (W.image world.old) numbers.now }
    ensures placed { W.tells → OnOk result (IsPlaced
        (copies_from (W.image world.old) 0 (length numbers.now))
        (W.image world.old) (W.image world.new)) }
    ensures wrote { WritesIn W.World (page_places numbers.now) world.old world.new result }
{
    let mut page = [0; PAGE_BYTES];
    for (k, number) in numbers.iter().enumerate() {
        world.read(copy_place(k), &mut page)?;
        world.write(page_place(*number), &page)?;
    }
    world.sync()?; // before the copies count no more
    Ok(())
}
