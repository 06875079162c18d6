//! The log read from its beginning to its end.

ghost use Rattle.std.specs.Prelude.{◌≡◌, ◌+◌, ◌<◌, ◌≤◌, ◌&&◌, nat_le, nat_lt, IfOk, IfSome};
ghost use Rattle.isp_disk.specs.Moments.{Quiet};
ghost use Rattle.isp_disk.specs.Phases.{OnlyReads};
ghost use Rattle.isp_format.specs.Control.{most_pages};
ghost use Rattle.isp_format.specs.Log.{log_bytes, log_of};
ghost use Rattle.isp_format.specs.Ranges.{page_bytes};
ghost use Rattle.isp_redo.specs.Reading.{FindsBatch, FindsBody, FindsEnd, FindsRange, FindsTransaction, IsOnward, StepsOn};

use crate::fields::{read_count, read_gate, read_header, read_size};
use isp_disk::{Failed, World};
use isp_format::{BATCH_HEAD, COUNT_BYTES, LOG_BYTES, PAGE_BYTES, RANGE_HEAD, RangeHead};

/// What stands at the place of a gate: the log's end, a batch that ends at the next gate's place, or a batch that breaks
/// its rule.
#[derive(Clone, Copy, Debug, PartialEq, Eq)]
pub enum Step {
    End,
    Batch(u64),
    Broken,
}

// Whether a range with this header lies in a page of the file, and is one.
fn is_range(header: RangeHead, pages: u32) -> bool
    ensures { result ≡ (nat_lt header.page pages && nat_lt 0 header.len
        && nat_le (header.at + header.len) page_bytes) }
{
    header.page < pages
        && header.len > 0
        && u64::from(header.at) + u64::from(header.len) <= PAGE_BYTES as u64
}

// The place behind the range at a place, if one is there that ends by the end.
fn range_end<W: World>(world: &mut W, at: u64, end: u64, pages: u32) -> Result<Option<u64>, Failed>
    requires quiet { Quiet (W.pending world.old) }
    requires few { pages ≤ most_pages }
    requires places { (at ≤ end) × (end < log_bytes) }
    ensures found { W.tells
        → IfOk result (λ next. FindsRange pages (log_of (W.image world.old)) at end next) }
    ensures onward { IfOk result (λ next. IsOnward at end next) }
    ensures reads { OnlyReads W.World world.old world.new result }
{
    if end - at < RANGE_HEAD {
        return Ok(None);
    }
    let header = read_header(world, at)?;
    let len = u64::from(header.len);
    if !is_range(header, pages) || len > end - at - RANGE_HEAD {
        return Ok(None);
    }
    Ok(Some(at + RANGE_HEAD + len))
}

// The place behind the mini-transaction at a place, if one is there that ends by the end.
fn transaction_end<W: World>(
    world: &mut W,
    at: u64,
    end: u64,
    pages: u32,
) -> Result<Option<u64>, Failed>
    requires quiet { Quiet (W.pending world.old) }
    requires few { pages ≤ most_pages }
    requires places { (at ≤ end) × (end < log_bytes) }
    ensures found { W.tells
        → IfOk result (λ next. FindsTransaction pages (log_of (W.image world.old)) at end next) }
    ensures onward { IfOk result (λ next. IsOnward at end next) }
    ensures reads { OnlyReads W.World world.old world.new result }
{
    if end - at < COUNT_BYTES {
        return Ok(None);
    }
    let count = read_count(world, at)?;
    let mut place = at + COUNT_BYTES;
    for _range in 0..count {
        match range_end(world, place, end, pages)? {
            Some(next) => place = next,
            None => return Ok(None),
        }
    }
    Ok(Some(place))
}

// The end, if the bytes from a place to it are mini-transactions, one or more.
fn body_end<W: World>(world: &mut W, at: u64, end: u64, pages: u32) -> Result<Option<u64>, Failed>
    requires quiet { Quiet (W.pending world.old) }
    requires few { pages ≤ most_pages }
    requires places { (at ≤ end) × (end < log_bytes) }
    ensures found { W.tells
        → IfOk result (λ next. FindsBody pages (log_of (W.image world.old)) at end next) }
    ensures end { IfOk result (λ next. IfSome next (λ next. next ≡ end)) }
    ensures reads { OnlyReads W.World world.old world.new result }
{
    if at == end {
        return Ok(None);
    }
    let mut place = at;
    'transactions: while place < end {
        match transaction_end(world, place, end, pages)? {
            Some(next) => place = next,
            None => return Ok(None),
        }
    }
    Ok(Some(end))
}

// What stands at the place of a gate.
fn batch_at<W: World>(world: &mut W, at: u64, pages: u32) -> Result<Step, Failed>
    requires quiet { Quiet (W.pending world.old) }
    requires few { pages ≤ most_pages }
    requires place { at < log_bytes }
    ensures found { W.tells
        → IfOk result (λ step. FindsBatch pages (log_of (W.image world.old)) at step) }
    ensures onward { IfOk result (λ step. StepsOn at step) }
    ensures reads { OnlyReads W.World world.old world.new result }
{
    if read_gate(world, at)? != 1 {
        return Ok(Step::End);
    }
    if LOG_BYTES - at < BATCH_HEAD + 1 {
        return Ok(Step::Broken);
    }
    let size = u64::from(read_size(world, at + 1)?);
    if size > LOG_BYTES - at - BATCH_HEAD - 1 {
        return Ok(Step::Broken);
    }
    match body_end(world, at + BATCH_HEAD, at + BATCH_HEAD + size, pages)? {
        Some(next) => Ok(Step::Batch(next)),
        None => Ok(Step::Broken),
    }
}

/// The place of the closed gate that ends the log; None exactly where a batch whose gate is open breaks its rule: it and
/// the gate behind it lie in the log, and its body is mini-transactions with ranges in pages below `pages`.
pub fn scan_end<W: World>(world: &mut W, pages: u32) -> Result<Option<u64>, Failed>
    requires quiet { Quiet (W.pending world.old) }
    requires few { pages ≤ most_pages }
    ensures found { W.tells → IfOk result (λ end. FindsEnd pages (log_of (W.image world.old)) end) }
    ensures inside { IfOk result (λ end. IfSome end (λ end. end < log_bytes)) }
    ensures reads { OnlyReads W.World world.old world.new result }
{
    let mut end = 0u64;
    'batches: while end < LOG_BYTES {
        match batch_at(world, end, pages)? {
            Step::End => return Ok(Some(end)),
            Step::Batch(next) => end = next,
            Step::Broken => return Ok(None),
        }
    }
    Ok(None)
}
