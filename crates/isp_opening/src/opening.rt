//! A file opened.
ghost use Rattle.std.specs.Prelude.{◌≡◌, IfErr, IfOk, OnOk};
ghost use Rattle.isp_disk.specs.Moments.{LeavesOnly, Quiet};
ghost use Rattle.isp_disk.specs.Phases.{EndsQuiet, LeftOfPhase};
ghost use Rattle.isp_doublewrite.specs.Restores.{RestoreLeft};
ghost use Rattle.isp_format.specs.Control.{IsControl, pages_in};
ghost use Rattle.isp_opening.specs.Finding.{AreInPlace, disk_part, fault_of, file_of};
ghost use Rattle.isp_opening.specs.Opening.{IsOpened, KeepsWorld, RefusesWith, world_after};

use crate::rules::{FileParts, OpenFault, test_rules};
use isp_disk::{Failed, World};
use isp_doublewrite::{Restored, restore};
use isp_format::{COPIES_RULE, SPACE_PAGE};
use isp_page::StoreFault;
use isp_stable::Stable;

/// Opens a file: makes it durable as it reads, tests the first three page rules by reads alone, and lays the copies
/// that count over their pages. The world comes back with the fault, which no print has.
pub fn open<W: World>(world: W) -> Result<Stable<W>, (StoreFault, W)>
    ensures opened { IfOk result (IsOpened W.World world) }
    ensures refused { IfErr result (λ e. RefusesWith W.World world e.0 e.1) }
    ensures kept { KeepsWorld W.World world (world_after result) }
{
    let mut world = world;
    match open_file(&mut world) {
        Ok(found) => Ok(file_of(world, found)),
        Err(fault) => Err((fault_of(fault), world)),
    }
}

// The file that was found in a world.
fn file_of<W: World>(world: W, found: FileParts) -> Stable<W>
    ensures { result ≡ file_of world found }
{
    let control = found.control;
    Stable::new(world, found.log, control.pages, control.fanout)
}

// The fault of a store of pages. Page 0 has the blocks in which the rules show.
fn fault_of(fault: OpenFault) -> StoreFault
    ensures { result ≡ fault_of fault }
{
    match fault {
        OpenFault::Disk => StoreFault::Disk,
        OpenFault::Broken(rule) => StoreFault::Damaged {
            page: SPACE_PAGE,
            rule,
        },
    }
}

// Opens the file of a world, and answers what it has.
fn open_file<W: World>(world: &mut W) -> Result<FileParts, OpenFault>
    ensures opened { IfOk result (λ found. IsOpened W.World world.old (file_of world.new found)) }
    ensures refused { IfErr result (λ e. RefusesWith W.World world.old (fault_of e) world.new) }
    ensures kept { KeepsWorld W.World world.old world.new }
{
    make_durable(world)?;
    let found = test_rules(world)?;
    lay_copies(world, found.control.pages)?;
    Ok(found)
}

// Makes the file durable as it reads.
fn make_durable<W: World>(world: &mut W) -> Result<(), Failed>
    ensures left { LeavesOnly W.clock W.left_since world.old world.new
        (LeftOfPhase W.World world.old (W.pending world.old)) }
    ensures same { W.image world.new ≡ W.image world.old }
    ensures ends { EndsQuiet W.World world.old world.new result }
{
    world.sync()
}

// Lays the copies that count over their pages, of a file of so many pages.
fn lay_copies<W: World>(world: &mut W, pages: u32) -> Result<(), OpenFault>
    requires quiet { Quiet (W.pending world.old) }
    requires control { W.tells → IsControl (W.image world.old)
        × (pages_in (W.image world.old) ≡ pages) }
    ensures laid { W.tells → OnOk result (AreInPlace (W.image world.old) (W.image world.new)) }
    ensures refused { IfErr result (λ e. RefusesWith W.World world.old (fault_of e) world.new) }
    ensures stops { W.tells → LeavesOnly W.clock W.left_since world.old world.new
        (RestoreLeft pages (W.image world.old) (W.printed world.old)) }
    ensures ends { EndsQuiet W.World world.old world.new (disk_part result) }
{
    match restore(world, pages)? {
        Restored::Nothing | Restored::Laid => Ok(()),
        Restored::Bad => Err(OpenFault::Broken(COPIES_RULE)),
    }
}
