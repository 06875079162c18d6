//! What a stop within a call leaves, computed from the calls that a world in memory keeps.
ghost use Rattle.std.specs.Prelude.{◌≡◌, ◌+◌, ◌<◌, ◌≤◌, ◌++◌, [], ◌∷◌, List, ℕ, Bool, true, false, if◌then◌else◌, nat_lt, filter, length, take, slice_index_or, slice_set, IfOk, OnOk};
ghost use Rattle.isp_disk.specs.InMemory.{LogState, held_after};
ghost use Rattle.isp_disk.specs.Kept.{AreInside, IsInside, event_with};
ghost use Rattle.isp_disk.specs.Moments.{image_of, put};
ghost use Rattle.isp_disk.specs.Stops.{AreBelow, bytes_behind, image_after, last_writes, placed, printed_after, put_writes, still_pending, torn_behind, writes_of, written_by};

use crate::call_log::{CallKind, CallLog};
use std::alloc::{AllocError, Global};

/// Puts the bytes over those that stand there.
pub(crate) fn put_over(image: &mut Vec<u8>, at: usize, bytes: &[u8])
    requires { at + length bytes.now ≤ length image.old.items }
    ensures size { length image.new.items ≡ length image.old.items }
    ensures put { (place : ℕ) → image_of image.new.items place ≡ put (image_of image.old.items) at bytes.now place }
{
    image[at..at + bytes.len()].copy_from_slice(bytes);
}

// Does a call again on the bytes of a disk.
fn replay(image: &mut Vec<u8>, kind: CallKind, is_ok: bool, bytes: &[u8])
    requires { IsInside (length image.old.items) (event_with kind is_ok bytes.now) }
    ensures size { length image.new.items ≡ length image.old.items }
    ensures bytes { (place : ℕ) → image_of image.new.items place
        ≡ image_after (image_of image.old.items) (event_with kind is_ok bytes.now) place }
{
    if let CallKind::Write { at } = kind {
        if is_ok {
            put_over(image, at as usize, bytes);
        }
    }
}

/// The bytes of a disk that began with `first`, behind so many calls.
pub(crate) fn image_behind(
    alloc: Global,
    first: &[u8],
    log: &CallLog,
    made: usize,
) -> Result<Vec<u8>, AllocError>
    requires made { made ≤ length log.now.calls }
    requires inside { AreInside (length first.now) log.now.calls }
    ensures image { IfOk result (λ image. image.items ≡ bytes_behind first.now log.now.calls made) }
    ensures size { IfOk result (λ image. length image.items ≡ length first.now) }
    ensures bytes { IfOk result (λ image. (place : ℕ) → image_of image.items place
        ≡ (held_after first.now (take made log.now.calls)).image place) }
{
    let mut image = first.to_vec(alloc)?;
    for i in 0..made {
        let (kind, is_ok, bytes) = log.call(i);
        replay(&mut image, kind, is_ok, bytes);
    }
    Ok(image)
}

// Adds what a print printed.
fn print_again(
    printed: &mut Vec<u8>,
    kind: CallKind,
    is_ok: bool,
    bytes: &[u8],
) -> Result<(), AllocError>
    ensures { OnOk result (printed.new.items
        ≡ printed_after printed.old.items (event_with kind is_ok bytes.now)) }
{
    match kind {
        CallKind::Print if is_ok => printed.extend_from_slice(bytes),
        _ => Ok(()),
    }
}

/// What was printed by so many calls.
pub(crate) fn printed_behind(
    alloc: Global,
    log: &CallLog,
    made: usize,
) -> Result<Vec<u8>, AllocError>
    requires { made ≤ length log.now.calls }
    ensures { IfOk result (λ printed. (first : List ℕ) → printed.items
        ≡ (held_after first (take made log.now.calls)).printed) }
{
    let mut printed = Vec::new(alloc);
    for i in 0..made {
        let (kind, is_ok, bytes) = log.call(i);
        print_again(&mut printed, kind, is_ok, bytes)?;
    }
    Ok(printed)
}

// Adds the write of a byte so many places behind `at`, if that is below the size.
fn push_below(
    writes: &mut Vec<(usize, u8)>,
    at: u64,
    count: usize,
    byte: u8,
    size: usize,
) -> Result<(), AllocError>
    ensures { OnOk result (writes.new.items
        ≡ writes.old.items ++ filter (λ write. nat_lt write.0 size) ((at + count, byte) ∷ [])) }
{
    match (at as usize).checked_add(count) {
        Some(place) if place < size => writes.push((place, byte))?,
        _ => {}
    }
    Ok(())
}

// Adds the writes of these bytes from `at` on, as far as they are below the size.
fn push_placed(
    writes: &mut Vec<(usize, u8)>,
    at: u64,
    bytes: &[u8],
    size: usize,
) -> Result<(), AllocError>
    ensures { OnOk result (writes.new.items
        ≡ writes.old.items ++ filter (λ write. nat_lt write.0 size) (placed at bytes.now)) }
{
    for (i, byte) in bytes.iter().enumerate() {
        push_below(writes, at, i, *byte, size)?;
    }
    Ok(())
}

// Keeps the pending writes behind one more call.
fn follow(
    writes: &mut Vec<(usize, u8)>,
    kind: CallKind,
    is_ok: bool,
    bytes: &[u8],
    size: usize,
) -> Result<(), AllocError>
    ensures { OnOk result (writes.new.items
        ≡ still_pending size writes.old.items (event_with kind is_ok bytes.now)) }
{
    match kind {
        CallKind::Write { at } => push_placed(writes, at, bytes, size),
        CallKind::Sync if is_ok => {
            writes.clear();
            Ok(())
        }
        _ => Ok(()),
    }
}

// Adds the writes of the call in which the stop comes.
fn follow_last(
    writes: &mut Vec<(usize, u8)>,
    kind: CallKind,
    bytes: &[u8],
    size: usize,
) -> Result<(), AllocError>
    ensures { OnOk result ((is_ok : Bool) → writes.new.items
        ≡ writes.old.items ++ writes_of size (event_with kind is_ok bytes.now)) }
{
    match kind {
        CallKind::Write { at } => push_placed(writes, at, bytes, size),
        _ => Ok(()),
    }
}

/// What was written since the last good sync before the call behind so many others, up to and with that call, as far
/// as it is below the size.
pub(crate) fn written_by(
    alloc: Global,
    log: &CallLog,
    made: usize,
    size: usize,
) -> Result<Vec<(usize, u8)>, AllocError>
    requires { made < length log.now.calls }
    ensures { IfOk result (λ writes. writes.items ≡ written_by size log.now.calls made) }
{
    let mut writes = Vec::new(alloc);
    for i in 0..made {
        let (kind, is_ok, bytes) = log.call(i);
        follow(&mut writes, kind, is_ok, bytes, size)?;
    }
    let (kind, _, bytes) = log.call(made);
    follow_last(&mut writes, kind, bytes, size)?;
    Ok(writes)
}

// Takes a write where its place has none yet.
fn take_first(
    taken: &mut Vec<(usize, u8)>,
    seen: &mut Vec<bool>,
    write: (usize, u8),
) -> Result<(), AllocError>
    requires { write.0 < length seen.old.items }
    ensures taken { OnOk result (taken.new.items
        ≡ (if slice_index_or seen.old.items write.0 false then taken.old.items else taken.old.items ++ write ∷ [])) }
    ensures seen { OnOk result (seen.new.items ≡ slice_set seen.old.items write.0 true) }
{
    let place = write.0;
    let is_seen = seen[place];
    seen[place] = true;
    if is_seen {
        return Ok(());
    }
    taken.push(write)?;
    Ok(())
}

/// Each place once, at its last write.
pub(crate) fn last_writes(
    alloc: Global,
    writes: &[(usize, u8)],
    size: usize,
) -> Result<Vec<(usize, u8)>, AllocError>
    requires { AreBelow size writes.now }
    ensures { IfOk result (λ last. last.items ≡ last_writes writes.now) }
{
    let mut seen = vec![in alloc; false; size]?;
    let mut last = Vec::new(alloc);
    for i in 0..writes.len() {
        take_first(&mut last, &mut seen, writes[writes.len() - 1 - i])?;
    }
    last.reverse();
    Ok(last)
}

// What the write at this index leaves, if the first so many are kept.
fn torn(index: usize, kept: u64, byte: u8, fill: u8) -> u8
    ensures { result ≡ (if nat_lt index kept then byte else fill) }
{
    if (index as u64) < kept { byte } else { fill }
}

/// Puts the first so many writes over the bytes, and this byte at the places of the others.
pub(crate) fn put_writes(image: &mut Vec<u8>, writes: &[(usize, u8)], kept: u64, fill: u8)
    requires { AreBelow (length image.old.items) writes.now }
    ensures { image.new.items ≡ put_writes (torn_behind kept fill writes.now) image.old.items }
{
    for (i, (place, byte)) in writes.iter().enumerate() {
        image[*place] = torn(i, kept, *byte, fill);
    }
}
