//! The script of a source.

ghost use Rattle.std.specs.Prelude.{◌≡◌, [], IfOk};
ghost use Rattle.isp_run.specs.Causes.{HasStops, Takes};
ghost use Rattle.isp_run.specs.Reading.{HaveSlots, IsFound, IsGood};

use crate::input::read_bytes;
use crate::stop::Stop;
use isp_disk::Source;
use isp_script::{ScriptError, read_script};
use isp_serial::Script;
use std::alloc::{AllocError, Global};

/// What bytes are: a script, or none, and then their first bad line, which is counted from 1, or 0 where there are too
/// many bytes.
#[derive(Drop)]
pub enum Found {
    Script(Script),
    Bad { line: u64 },
}

/// What the bytes of the source are, which is read to its end.
pub fn find_script<S: Source>(alloc: Global, source: &mut S) -> Result<Found, Stop>
    ensures found { S.tells → IfOk result (λ found. IsFound (S.left source.old) found) }
    ensures end { S.tells → IfOk result (λ found. IsGood found → S.left source.new ≡ []) }
    ensures taken { S.tells → Takes 16777217 (S.left source.old) (S.left source.new) }
    ensures cause { HasStops (S.faults source.old) (S.faults source.new) result }
    ensures slots { IfOk result HaveSlots }
{
    let bytes = read_bytes(alloc, source)?;
    let found = found_in(alloc, bytes.as_slice())?;
    Ok(found)
}

fn found_in(alloc: Global, bytes: &[u8]) -> Result<Found, AllocError>
    ensures found { IfOk result (λ found. IsFound bytes.now found) }
    ensures slots { IfOk result HaveSlots }
{
    match read_script(alloc, bytes) {
        Ok(script) => Ok(Found::Script(script)),
        Err(ScriptError::Bad { line }) => Ok(Found::Bad { line }),
        Err(ScriptError::OutOfMemory) => Err(AllocError),
    }
}
