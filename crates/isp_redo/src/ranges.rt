//! The ranges of the log, one after the other.

ghost use Rattle.std.specs.Prelude.{◌≡◌, ◌+◌, ◌*◌, ◌<◌, ◌≤◌, ℕ, List, IfOk, IfSome, OnOk, nat_lt, nat_le, take, ◌&&◌};
ghost use Rattle.std.specs.Option.{option_map};
ghost use Rattle.isp_disk.specs.Moments.{Quiet, slice};
ghost use Rattle.isp_disk.specs.Phases.{OnlyReads};
ghost use Rattle.isp_format.specs.Control.{most_pages};
ghost use Rattle.isp_format.specs.Log.{log_bytes, log_of};
ghost use Rattle.isp_format.specs.Ranges.{Range, page_bytes};
ghost use Rattle.isp_redo.specs.Places.{GoesOn, IsAt, IsFurther, LeadsOn, LiesInPage, TakesRange, most_left, place_of};

use crate::fields::{read_at, read_count, read_gate, read_header, read_size};
use isp_disk::{Failed, World};
use isp_format::{BATCH_HEAD, COUNT_BYTES, LOG_BYTES, PAGE_BYTES, PageNo, RANGE_HEAD, RangeHead};

// One more than how many ranges a mini-transaction may have.
const MOST_LEFT: u64 = 65_536;

/// A range of the log: its page, its place there and its length, in bytes, and the number that tells the place of the
/// range behind it.
#[derive(Clone, Copy, Debug, PartialEq, Eq)]
pub struct LogRange {
    pub page: PageNo,
    pub at: u16,
    pub len: u16,
    pub next: u64,
}

/// A place between ranges: a place of the log, how many ranges of its mini-transaction lie ahead, and the end of the body.
#[derive(Clone, Copy, Debug, PartialEq, Eq)]
pub struct LogPlace {
    pub at: u64,
    pub left: u64,
    pub end: u64,
}

// The place that a number tells.
fn unpack(n: u64) -> LogPlace
    ensures { result ≡ place_of n }
{
    LogPlace {
        at: n % LOG_BYTES,
        left: n / LOG_BYTES % MOST_LEFT,
        end: n / (LOG_BYTES * MOST_LEFT) % LOG_BYTES,
    }
}

// The number that tells a place.
fn pack(place: LogPlace) -> u64
    requires at { place.at < log_bytes }
    requires left { place.left < most_left }
    requires end { place.end < log_bytes }
    ensures { place_of result ≡ place }
{
    place.at + place.left * LOG_BYTES + place.end * (LOG_BYTES * MOST_LEFT)
}

// The place behind a gate that stands at the end of a body, if the gate is open.
fn next_batch<W: World>(world: &mut W, end: u64) -> Result<Option<LogPlace>, Failed>
    requires quiet { Quiet (W.pending world.old) }
    requires place { end < log_bytes }
    ensures leads { W.tells → (pages : ℕ) → pages ≤ most_pages → IfOk result (λ next.
        LeadsOn pages (log_of (W.image world.old))
        (record { at = end; left = 0; end = end }) next) }
    ensures onward { IfOk result (λ next. GoesOn (record { at = end; left = 0; end = end }) next) }
    ensures reads { OnlyReads W.World world.old world.new result }
{
    if read_gate(world, end)? != 1 {
        return Ok(None);
    }
    if LOG_BYTES - end < BATCH_HEAD + 1 {
        return Ok(None);
    }
    let size = u64::from(read_size(world, end + 1)?);
    if size > LOG_BYTES - end - BATCH_HEAD - 1 {
        return Ok(None);
    }
    Ok(Some(LogPlace {
        at: end + BATCH_HEAD,
        left: 0,
        end: end + BATCH_HEAD + size,
    }))
}

// The place behind the count of a mini-transaction.
fn next_transaction<W: World>(world: &mut W, at: u64, end: u64) -> Result<Option<LogPlace>, Failed>
    requires quiet { Quiet (W.pending world.old) }
    requires places { (at < end) × (end < log_bytes) }
    ensures leads { W.tells → (pages : ℕ) → pages ≤ most_pages → IfOk result (λ next.
        LeadsOn pages (log_of (W.image world.old)) (record { at = at; left = 0; end = end }) next) }
    ensures onward { IfOk result (λ next. GoesOn (record { at = at; left = 0; end = end }) next) }
    ensures reads { OnlyReads W.World world.old world.new result }
{
    if end - at < COUNT_BYTES {
        return Ok(None);
    }
    let count = read_count(world, at)?;
    Ok(Some(LogPlace {
        at: at + COUNT_BYTES,
        left: u64::from(count),
        end,
    }))
}

// The next place where no range of a mini-transaction lies ahead: behind the next count, or behind the next open gate.
fn onward<W: World>(world: &mut W, at: u64, end: u64) -> Result<Option<LogPlace>, Failed>
    requires quiet { Quiet (W.pending world.old) }
    requires places { (at ≤ end) × (end < log_bytes) }
    ensures leads { W.tells → (pages : ℕ) → pages ≤ most_pages → IfOk result (λ next.
        LeadsOn pages (log_of (W.image world.old)) (record { at = at; left = 0; end = end }) next) }
    ensures onward { IfOk result (λ next. GoesOn (record { at = at; left = 0; end = end }) next) }
    ensures reads { OnlyReads W.World world.old world.new result }
{
    if at == end {
        next_batch(world, end)
    } else {
        next_transaction(world, at, end)
    }
}

// Whether a range with this header has a byte and ends within its page.
fn lies_in_page(header: RangeHead) -> bool
    ensures { result ≡ (nat_lt 0 header.len && nat_le (header.at + header.len) page_bytes) }
{
    header.len > 0 && usize::from(header.at) + usize::from(header.len) <= PAGE_BYTES
}

// Fills the front of a page with so many bytes of the log.
fn fill<W: World>(
    world: &mut W,
    at: u64,
    len: u16,
    into: &mut [u8; PAGE_BYTES],
) -> Result<(), Failed>
    requires quiet { Quiet (W.pending world.old) }
    requires places { (at ≤ log_bytes) × (len ≤ page_bytes) }
    ensures bytes { W.tells
        → OnOk result (take len into.new ≡ slice (log_of (W.image world.old)) at len) }
    ensures reads { OnlyReads W.World world.old world.new result }
{
    read_at(world, at, &mut into[..usize::from(len)])?;
    Ok(())
}

// The range at a place where one lies ahead.
fn take<W: World>(
    world: &mut W,
    place: LogPlace,
    into: &mut [u8; PAGE_BYTES],
) -> Result<Option<LogRange>, Failed>
    requires quiet { Quiet (W.pending world.old) }
    requires places { (place.at ≤ place.end) × (place.end < log_bytes) }
    requires left { (0 < place.left) × (place.left < most_left) }
    ensures found { W.tells → (pages : ℕ) → pages ≤ most_pages → (ranges : List Range)
        → IsAt pages (log_of (W.image world.old)) place ranges
        → IfOk result (λ found.
        TakesRange pages (log_of (W.image world.old)) ranges into.new found) }
    ensures in_page { IfOk result (λ found. LiesInPage found) }
    ensures onward { IfOk result (λ found.
        GoesOn place (option_map (λ range. place_of range.next) found)) }
    ensures reads { OnlyReads W.World world.old world.new result }
{
    if place.end - place.at < RANGE_HEAD {
        return Ok(None);
    }
    let header = read_header(world, place.at)?;
    let len = u64::from(header.len);
    if !lies_in_page(header) {
        return Ok(None);
    }
    if len > place.end - place.at - RANGE_HEAD {
        return Ok(None);
    }
    fill(world, place.at + RANGE_HEAD, header.len, into)?;
    Ok(Some(LogRange {
        page: PageNo(header.page),
        at: header.at,
        len: header.len,
        next: pack(LogPlace {
            at: place.at + RANGE_HEAD + len,
            left: place.left - 1,
            end: place.end,
        }),
    }))
}

/// The range of the log at a place, with its bytes at the front of `into`; None exactly at the end of the log. The place
/// is 0 for the first range, and else the `next` of the range before it, which lies further on in the log.
pub fn read_range<W: World>(
    world: &mut W,
    from: u64,
    into: &mut [u8; PAGE_BYTES],
) -> Result<Option<LogRange>, Failed>
    requires quiet { Quiet (W.pending world.old) }
    ensures found { W.tells → (pages : ℕ) → pages ≤ most_pages → (ranges : List Range)
        → IsAt pages (log_of (W.image world.old)) (place_of from) ranges
        → IfOk result (λ found.
        TakesRange pages (log_of (W.image world.old)) ranges into.new found) }
    ensures in_page { IfOk result (λ found. LiesInPage found) }
    ensures onward { IfOk result (λ found. IsFurther from found) }
    ensures reads { OnlyReads W.World world.old world.new result }
{
    let mut place = unpack(from);
    if place.at > place.end {
        return Ok(None);
    }
    'seeking: while place.left == 0 {
        match onward(world, place.at, place.end)? {
            Some(next) => place = next,
            None => return Ok(None),
        }
    }
    take(world, place, into)
}
