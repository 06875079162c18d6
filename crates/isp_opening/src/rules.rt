//! The first three page rules, tested by reads alone.
ghost use Rattle.std.specs.Prelude.{◌≡◌, IfErr, IfOk, IfSome};
ghost use Rattle.isp_disk.specs.Moments.{Quiet};
ghost use Rattle.isp_disk.specs.Phases.{OnlyReads};
ghost use Rattle.isp_format.specs.ControlValues.{FindsControl, IsPossible};
ghost use Rattle.isp_opening.specs.Finding.{IsBroken, KeepsRules, disk_part};
ghost use Rattle.isp_opening.specs.declared.rules.OpenFault.TheVariants.{Disk};

use isp_disk::{Failed, World};
use isp_doublewrite::check_copies;
use isp_format::{CONTROL_BYTES, CONTROL_RULE, COPIES_RULE, Control, LOG_RULE, control_in};
use isp_redo::Log;

/// What a file that keeps the rules has.
#[derive(Clone, Copy)]
pub struct FileParts {
    pub control: Control,
    pub log: Log,
}

/// Why a file isn't opened.
#[derive(Clone, Copy)]
pub enum OpenFault {
    /// A call of the disk failed.
    Disk,
    /// The page rule of this number is broken.
    Broken(u32),
}

impl From<Failed> for OpenFault {
    ghost from_gives = { λ _ e. e ≡ Disk };

    fn from(_: Failed) -> OpenFault {
        OpenFault::Disk
    }
}

/// Reads the control block. None exactly where it breaks the first page rule: where it isn't one of this version, or the
/// file wasn't made whole.
fn read_control<W: World>(world: &mut W) -> Result<Option<Control>, Failed>
    requires { Quiet (W.pending world.old) }
    ensures found { W.tells → IfOk result (FindsControl (W.image world.old)) }
    ensures possible { IfOk result (λ control. IfSome control IsPossible) }
    ensures reads { OnlyReads W.World world.old world.new result }
{
    let mut block = [0; CONTROL_BYTES];
    world.read(0, &mut block)?;
    Ok(control_in(&block))
}

/// Tests the control block, the list of copies and the log. The first of the rules that is broken is named.
pub fn test_rules<W: World>(world: &mut W) -> Result<FileParts, OpenFault>
    requires { Quiet (W.pending world.old) }
    ensures kept { W.tells → IfOk result (KeepsRules (W.image world.old)) }
    ensures possible { IfOk result (λ found. IsPossible found.control) }
    ensures broken { W.tells → IfErr result (IsBroken (W.image world.old)) }
    ensures reads { OnlyReads W.World world.old world.new (disk_part result) }
{
    let Some(control) = read_control(world)? else {
        return Err(OpenFault::Broken(CONTROL_RULE));
    };
    if !check_copies(world, control.pages)? {
        return Err(OpenFault::Broken(COPIES_RULE));
    }
    match Log::scan(world, control.pages)? {
        Some(log) => Ok(FileParts { control, log }),
        None => Err(OpenFault::Broken(LOG_RULE)),
    }
}
