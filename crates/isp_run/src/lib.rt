//! The top call: the words are read, and a file is made, or a script is run on it and its answers are printed.
//!
//! - `making`: an empty file is made.
//! - `running`: a script is run on a file.
//! - `gate`: whether a file was made.
//! - `read`, `input`: the script of a source.
#![tactic(auto)]

ghost use Rattle.std.specs.Prelude.{◌≡◌, ◌≢◌, ◌↔◌, ℕ, List, None, [], map, string_bytes};
ghost use Rattle.isp_disk.specs.Outside.{Rose};
ghost use Rattle.isp_format.specs.Control.{made_gate};
ghost use Rattle.isp_chained.specs.Chained.{IsKeptFile};
ghost use Rattle.isp_opening.specs.Opening.{BreaksFirst};
ghost use Rattle.isp_plain.specs.Tables.{Table};
ghost use Rattle.isp_run.specs.Asking.{OnMake, OnRun};
ghost use Rattle.isp_run.specs.Causes.{CountsAt, Takes};
ghost use Rattle.isp_run.specs.Files.{ByGate, IsBefore, IsDamage, IsMadeFile, IsTidy, NeverWorks, TakesNothing};
ghost use Rattle.isp_run.specs.Ran.{FrontOf, IsDue, IsRead, RanOf};
ghost use Rattle.isp_run.specs.Reading.{HasScript};
ghost use Rattle.isp_script.specs.BadLines.{IsBadLine};
ghost use Rattle.isp_words.specs.Commands.{command_of};

mod gate;
mod input;
mod making;
mod read;
mod running;
mod status;
mod stop;

use isp_disk::{Source, World};
use isp_words::{Command, command_of};
use making::make_file;
use running::run_file;
pub use status::Status;
use std::alloc::Global;

/// Runs the command of the words on the database file that is the world's disk.
///
/// `FILE make --pages N --fanout M` makes an empty file of N pages (64 to 65,536 of 4,096 bytes) whose R-trees have at most M
/// entries a page (4 to 120). `FILE run [--frames F]` reads a script from the source to its end, runs it on the tables that the
/// file has, prints a line for each answer, and leaves in the file what was committed; F pages (64 to 4,096, else 256) are held
/// in memory at a time.
///
/// The statuses are tested in this order: the words (`Usage`), byte 63 of the file (`NotMade`, `AlreadyMade`), the source
/// (`ReadFault`), the script (`BadScript`), the opening of the file (`Damaged` with the rules 1 to 3), the work (`Damaged` with a
/// later rule, `PrintFault`). A call of the disk may fail at any place behind the words (`DiskFault`), and memory be wanted at any
/// place of a `run`. The world comes back with each of them.
pub fn run<S: Source, W: World>(
    alloc: Global,
    words: &[String],
    script: &mut S,
    world: W,
) -> (Status, W)
    // The words alone say whether it is `Usage`.
    ensures usage { (result.0 ≡ Status.Usage) ↔ (command_of (map string_bytes words.now) ≡ None) }

    // Byte 63 alone says whether the file was made.
    ensures gate { W.tells → ByGate (command_of (map string_bytes words.now)) (W.image world) result.0 }

    // `make`: an empty file of this shape, and nothing printed.
    ensures made { W.tells → OnMake (command_of (map string_bytes words.now)) (λ pages fanout.
        result.0 ≡ Status.Done → IsMadeFile pages fanout (W.image result.1)) }
    ensures silent { OnMake (command_of (map string_bytes words.now)) (λ pages fanout.
        (W.printed result.1 ≡ W.printed world) × (script.new ≡ script.old)) }
    ensures makes { W.tells → OnMake (command_of (map string_bytes words.now)) (λ pages fanout.
        W.image world made_gate ≢ 1 → (Rose (W.disk_faults world) (W.disk_faults result.1) → ⊥)
        → result.0 ≡ Status.Done) }

    // The headline: what was printed is the lines of answers to the script, and these are serial, from the tables that the
    // file stood for to those that it stands for now.
    ensures serial { S.tells → W.tells → OnRun (command_of (map string_bytes words.now)) (
        result.0 ≡ Status.Done → RanOf (S.left script.old)
        (W.printed world) (W.printed result.1) (W.image world) (W.image result.1)) }
    ensures end { S.tells → OnRun (command_of (map string_bytes words.now)) (
        result.0 ≡ Status.Done → S.left script.new ≡ []) }

    // What is done leaves each page in its place, and the log empty.
    ensures tidy { W.tells → result.0 ≡ Status.Done → IsTidy (W.image result.1) }

    // Whatever the status, what was printed is a front of such lines, and nothing before any work.
    ensures front { S.tells → W.tells → FrontOf (S.left script.old) (S.left script.new)
        (W.printed world) (W.printed result.1) (W.image world) }
    ensures before { W.tells → IsBefore (W.image world) result.0
        → (W.image result.1 ≡ W.image world) × (W.printed result.1 ≡ W.printed world) }
    ensures untouched { TakesNothing result.0 → script.new ≡ script.old }
    ensures taken { S.tells → Takes 16777217 (S.left script.old) (S.left script.new) }

    // Each other status has its cause.
    ensures bad { (line : ℕ) → result.0 ≡ Status.BadScript line → S.tells → IsBadLine (S.left script.old) line }
    ensures good { OnRun (command_of (map string_bytes words.now)) (
        IsRead result.0 → S.tells → HasScript (S.left script.old)) }
    ensures damaged { W.tells → IsDamage (W.image world) result.0 }
    ensures broken { W.tells → OnRun (command_of (map string_bytes words.now)) (
        (rule : ℕ) → BreaksFirst rule (W.image world) → NeverWorks rule result.0) }
    ensures read_fault { CountsAt Status.ReadFault result.0 (S.faults script.old) (S.faults script.new) }
    ensures disk_fault { CountsAt Status.DiskFault result.0 (W.disk_faults world) (W.disk_faults result.1) }
    ensures print_fault { CountsAt Status.PrintFault result.0 (W.print_faults world) (W.print_faults result.1) }

    // Good words, a good script and a kept file, with no fault of the source or the world, are done, or find no memory.
    ensures complete { S.tells → W.tells → OnRun (command_of (map string_bytes words.now)) (
        (tables : List Table) → IsKeptFile (W.image world) tables → HasScript (S.left script.old)
        → (Rose (S.faults script.old) (S.faults script.new) → ⊥)
        → (Rose (W.disk_faults world) (W.disk_faults result.1) → ⊥)
        → (Rose (W.print_faults world) (W.print_faults result.1) → ⊥) → IsDue result.0) }
{
    match command_of(words) {
        None => (Status::Usage, world),
        Some(Command::Make { pages, fanout }) => make_file(world, pages, fanout),
        Some(Command::Run { frames }) => run_file(alloc, script, world, frames),
    }
}
