//! The script's bytes.

ghost use Rattle.std.specs.Prelude.{◌-◌, ◌≡◌, ◌<◌, ◌≤◌, ◌++◌, [], ℕ, true, false, length, IfOk, MatchBool, vec_len};
ghost use Rattle.isp_disk.specs.Outside.{Gives};
ghost use Rattle.isp_run.specs.Causes.{HasStops, Takes};

use crate::stop::Stop;
use isp_disk::Source;
use std::alloc::{AllocError, Global};

// No more bytes are read: one more than a script may have.
const MOST_BYTES: usize = 16_777_217;

// The bytes are asked for in pieces of so many.
const PIECE_BYTES: usize = 4_096;

/// All bytes of the source, to its end, or the first 16,777,217 of them.
pub fn read_bytes<S: Source>(alloc: Global, source: &mut S) -> Result<Vec<u8>, Stop>
    ensures bytes { S.tells → IfOk result (λ bytes. S.left source.old ≡ bytes.items ++ S.left source.new) }
    ensures end { S.tells → IfOk result (λ bytes. length bytes.items < 16777217 → S.left source.new ≡ []) }
    ensures most { IfOk result (λ bytes. length bytes.items ≤ 16777217) }
    ensures taken { S.tells → Takes 16777217 (S.left source.old) (S.left source.new) }
    ensures cause { HasStops (S.faults source.old) (S.faults source.new) result }
{
    let mut bytes = Vec::new(alloc);
    let mut piece = [0u8; PIECE_BYTES];
    while bytes.len() < MOST_BYTES {
        if read_piece(source, &mut bytes, &mut piece)? {
            return Ok(bytes);
        }
    }
    Ok(bytes)
}

// Adds the next bytes of the source, and says whether it is at its end.
fn read_piece<S: Source>(
    source: &mut S,
    bytes: &mut Vec<u8>,
    piece: &mut [u8; PIECE_BYTES],
) -> Result<bool, Stop>
    requires { length bytes.old.items < 16777217 }
    ensures bytes { S.tells → IfOk result (λ _. bytes.old.items ++ S.left source.old ≡ bytes.new.items ++ S.left source.new) }
    ensures end { S.tells → IfOk result (λ is_end. is_end ≡ true → S.left source.new ≡ []) }
    ensures more { IfOk result (λ is_end. is_end ≡ false → length bytes.old.items < length bytes.new.items) }
    ensures most { IfOk result (λ _. length bytes.new.items ≤ 16777217) }
    ensures taken { S.tells → Takes (16777217 - length bytes.old.items) (S.left source.old) (S.left source.new) }
    ensures cause { HasStops (S.faults source.old) (S.faults source.new) result }
{
    let room = (MOST_BYTES - bytes.len()).min(PIECE_BYTES);
    let count = next(source, &mut piece[..room])?;
    bytes.extend_from_slice(&piece[..count])?;
    Ok(count == 0)
}

fn next<S: Source>(source: &mut S, piece: &mut [u8]) -> Result<usize, Stop>
    requires { 0 < length piece.old }
    ensures few { IfOk result (λ count. count ≤ length piece.new) }
    ensures given { S.tells → IfOk result (λ count. Gives (S.left source.old) count piece.new (S.left source.new)) }
    ensures taken { S.tells → Takes (length piece.old) (S.left source.old) (S.left source.new) }
    ensures cause { HasStops (S.faults source.old) (S.faults source.new) result }
{
    match source.next(piece) {
        Ok(count) => Ok(count),
        Err(_) => Err(Stop::Fault),
    }
}
