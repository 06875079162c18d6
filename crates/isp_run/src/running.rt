//! A script run on a file.

ghost use Rattle.std.specs.Prelude.{◌≡◌, ◌≤◌, ℕ, false, true, [], All, Some};
ghost use Rattle.isp_opening.specs.Opening.{BreaksFirst};
ghost use Rattle.isp_run.specs.Causes.{CountsAt, Takes};
ghost use Rattle.isp_run.specs.Files.{ByGate, IsBefore, IsDamage, IsRunStatus, IsScriptStatus, IsTidy, NeverWorks, TakesNothing, status_of};
ghost use Rattle.isp_run.specs.Ran.{FrontOf, IsRead, RanOf};
ghost use Rattle.isp_run.specs.Reading.{HasScript};
ghost use Rattle.isp_run.specs.Working.{HasWorked, RunsOn};
ghost use Rattle.isp_script.specs.BadLines.{IsBadLine};
ghost use Rattle.isp_sessions.specs.Plays.{HasSlot};
ghost use Rattle.isp_store.specs.State.{contents, mini, shape};
ghost use Rattle.isp_words.specs.Commands.{least_frames, most_frames};
ghost use Rattle.isp_words.specs.declared.Command.TheVariants as commands;

use crate::gate::is_made;
use crate::read::{Found, find_script};
use crate::status::Status;
use crate::stop::Stop;
use isp_disk::{Source, World};
use isp_page::{Fault, StoreFault};
use isp_serial::Script;
use isp_sessions::play;
use isp_store::Store;
use std::alloc::Global;

/// Runs the script of the source on the file, with so many pages in memory.
pub fn run_file<S: Source, W: World>(
    alloc: Global,
    script: &mut S,
    world: W,
    frames: u32,
) -> (Status, W)
    requires least { least_frames ≤ frames }
    requires most { frames ≤ most_frames }
    ensures statuses { IsRunStatus result.0 }
    ensures gate { W.tells → ByGate (Some (commands.Run frames)) (W.image world) result.0 }
    ensures serial { S.tells → W.tells → result.0 ≡ Status.Done → RanOf (S.left script.old)
        (W.printed world) (W.printed result.1) (W.image world) (W.image result.1) }
    ensures tidy { W.tells → result.0 ≡ Status.Done → IsTidy (W.image result.1) }
    ensures end { S.tells → result.0 ≡ Status.Done → S.left script.new ≡ [] }
    ensures front { S.tells → W.tells → FrontOf (S.left script.old) (S.left script.new)
        (W.printed world) (W.printed result.1) (W.image world) }
    ensures before { W.tells → IsBefore (W.image world) result.0
        → (W.image result.1 ≡ W.image world) × (W.printed result.1 ≡ W.printed world) }
    ensures untouched { TakesNothing result.0 → script.new ≡ script.old }
    ensures taken { S.tells → Takes 16777217 (S.left script.old) (S.left script.new) }
    ensures bad { (line : ℕ) → result.0 ≡ Status.BadScript line → S.tells
        → IsBadLine (S.left script.old) line }
    ensures good { IsRead result.0 → S.tells → HasScript (S.left script.old) }
    ensures damaged { W.tells → IsDamage (W.image world) result.0 }
    ensures broken { W.tells → (rule : ℕ) → BreaksFirst rule (W.image world)
        → NeverWorks rule result.0 }
    ensures read_fault { CountsAt Status.ReadFault result.0 (S.faults script.old) (S.faults script.new) }
    ensures disk_fault { CountsAt Status.DiskFault result.0 (W.disk_faults world) (W.disk_faults result.1) }
    ensures print_fault { CountsAt Status.PrintFault result.0 (W.print_faults world) (W.print_faults result.1) }
{
    let mut world = world;
    match is_made(&mut world) {
        Ok(true) => run_script(alloc, script, world, frames),
        Ok(false) => (Status::NotMade, world),
        Err(_) => (Status::DiskFault, world),
    }
}

// The same, on a file whose made-gate is 1.
fn run_script<S: Source, W: World>(
    alloc: Global,
    script: &mut S,
    world: W,
    frames: u32,
) -> (Status, W)
    requires least { least_frames ≤ frames }
    requires most { frames ≤ most_frames }
    ensures statuses { IsScriptStatus result.0 }
    ensures serial { S.tells → W.tells → result.0 ≡ Status.Done → RanOf (S.left script.old)
        (W.printed world) (W.printed result.1) (W.image world) (W.image result.1) }
    ensures tidy { W.tells → result.0 ≡ Status.Done → IsTidy (W.image result.1) }
    ensures end { S.tells → result.0 ≡ Status.Done → S.left script.new ≡ [] }
    ensures front { S.tells → W.tells → FrontOf (S.left script.old) (S.left script.new)
        (W.printed world) (W.printed result.1) (W.image world) }
    ensures before { W.tells → IsBefore (W.image world) result.0
        → (W.image result.1 ≡ W.image world) × (W.printed result.1 ≡ W.printed world) }
    ensures taken { S.tells → Takes 16777217 (S.left script.old) (S.left script.new) }
    ensures bad { (line : ℕ) → result.0 ≡ Status.BadScript line → S.tells
        → IsBadLine (S.left script.old) line }
    ensures good { IsRead result.0 → S.tells → HasScript (S.left script.old) }
    ensures damaged { W.tells → IsDamage (W.image world) result.0 }
    ensures broken { W.tells → (rule : ℕ) → BreaksFirst rule (W.image world)
        → NeverWorks rule result.0 }
    ensures read_fault { CountsAt Status.ReadFault result.0 (S.faults script.old) (S.faults script.new) }
    ensures disk_fault { CountsAt Status.DiskFault result.0 (W.disk_faults world) (W.disk_faults result.1) }
    ensures print_fault { CountsAt Status.PrintFault result.0 (W.print_faults world) (W.print_faults result.1) }
{
    match find_script(alloc, script) {
        Ok(Found::Script(read)) => run_on(alloc, &read, world, frames),
        Ok(Found::Bad { line }) => (Status::BadScript { line }, world),
        Err(Stop::Fault) => (Status::ReadFault, world),
        Err(Stop::Memory) => (Status::OutOfMemory, world),
    }
}

// Opens the file, runs the script on it, and closes it.
fn run_on<W: World>(alloc: Global, script: &Script, world: W, frames: u32) -> (Status, W)
    requires slots { All HasSlot script.now.sessions }
    requires least { least_frames ≤ frames }
    requires most { frames ≤ most_frames }
    ensures runs { RunsOn W.World script.now world result.0 result.1 }
{
    match Store::start(alloc, world, frames as usize) {
        Ok(store) => work(alloc, script, store),
        Err((fault, world)) => (status_of(fault), world),
    }
}

// The status of a fault.
fn status_of(fault: Fault) -> Status
    ensures { result ≡ status_of fault }
{
    match fault {
        Fault::Memory => Status::OutOfMemory,
        Fault::Store(StoreFault::Disk) => Status::DiskFault,
        Fault::Store(StoreFault::Print) => Status::PrintFault,
        Fault::Store(StoreFault::Damaged { page, rule }) => Status::Damaged { page, rule },
    }
}

// Runs the script on an open file, and puts all pages in their places.
fn work<W: World>(alloc: Global, script: &Script, store: Store<W>) -> (Status, W)
    requires slots { All HasSlot script.now.sessions }
    requires usable { store.is_usable ≡ true }
    requires none { (mini W.World store).is_begun ≡ false }
    ensures worked { HasWorked W.World script.now store.stable.world (contents W.World store)
        (shape W.World store) result.0 result.1 }
{
    let (status, store) = work_on(alloc, script, store);
    (status, store.into_world())
}

fn work_on<W: World>(alloc: Global, script: &Script, store: Store<W>) -> (Status, Store<W>)
    requires slots { All HasSlot script.now.sessions }
    requires usable { store.is_usable ≡ true }
    requires none { (mini W.World store).is_begun ≡ false }
    ensures worked { HasWorked W.World script.now store.stable.world (contents W.World store)
        (shape W.World store) result.0 result.1.stable.world }
{
    match play(alloc, script, store) {
        (Ok(()), store) => {
            let mut store = store;
            match store.checkpoint() {
                Ok(()) => (Status::Done, store),
                Err(fault) => (status_of(Fault::Store(fault)), store),
            }
        }
        (Err(fault), store) => (status_of(fault), store),
    }
}
