//! An empty file made.

ghost use Rattle.std.specs.Prelude.{◌≡◌, ◌≢◌, Some};
ghost use Rattle.isp_format.specs.Control.{IsFanout, IsPages, made_gate};
ghost use Rattle.isp_run.specs.Causes.{CountsAt};
ghost use Rattle.isp_run.specs.Files.{ByGate, IsMadeFile, IsMakeStatus};
ghost use Rattle.isp_words.specs.declared.Command.TheVariants as commands;

use crate::gate::is_made;
use crate::status::Status;
use isp_disk::World;
use isp_store::Store;

/// Makes an empty file, where none was made.
pub fn make_file<W: World>(world: W, pages: u32, fanout: u32) -> (Status, W)
    requires pages { IsPages pages }
    requires fanout { IsFanout fanout }
    ensures statuses { IsMakeStatus result.0 }
    ensures gate { W.tells → ByGate (Some (commands.Make pages fanout)) (W.image world) result.0 }
    ensures made { W.tells → result.0 ≡ Status.Done → IsMadeFile pages fanout (W.image result.1) }
    ensures silent { W.printed result.1 ≡ W.printed world }
    ensures already { result.0 ≡ Status.AlreadyMade → W.image result.1 ≡ W.image world }
    ensures disk_fault { CountsAt Status.DiskFault result.0
        (W.disk_faults world) (W.disk_faults result.1) }
    ensures print_fault { W.print_faults result.1 ≡ W.print_faults world }
{
    let mut world = world;
    let status = make_on(&mut world, pages, fanout);
    (status, world)
}

fn make_on<W: World>(world: &mut W, pages: u32, fanout: u32) -> Status
    requires pages { IsPages pages }
    requires fanout { IsFanout fanout }
    ensures statuses { IsMakeStatus result }
    ensures gate { W.tells → ByGate (Some (commands.Make pages fanout)) (W.image world.old) result }
    ensures made { W.tells → result ≡ Status.Done → IsMadeFile pages fanout (W.image world.new) }
    ensures silent { W.printed world.new ≡ W.printed world.old }
    ensures already { result ≡ Status.AlreadyMade → W.image world.new ≡ W.image world.old }
    ensures disk_fault { CountsAt Status.DiskFault result
        (W.disk_faults world.old) (W.disk_faults world.new) }
    ensures print_fault { W.print_faults world.new ≡ W.print_faults world.old }
{
    match is_made(world) {
        Ok(true) => Status::AlreadyMade,
        Ok(false) => match Store::make(world, pages, fanout) {
            Ok(()) => Status::Done,
            Err(_) => Status::DiskFault,
        },
        Err(_) => Status::DiskFault,
    }
}
