//! The log of a file, over a disk in memory.

use isp_disk::{Failed, MemWorld, World};
use isp_format::PAGE_BYTES;
use isp_redo::{Log, read_range};
use std::test::Fail;

/// Where the log begins.
const LOG: u64 = 266_240;

/// A disk that has the front of the log.
const SIZE: u64 = 266_304;

/// A range of a log: its page, its place there and its first byte.
type Told = (u32, u16, u8);

/// The first bytes of a log, and its ranges; None where it can't be read to its end.
type Row = (&'static [u8], Option<&'static [Told]>);

const ROWS: [Row; 17] = [
    (&[], Some(&[])),
    // A gate that is not 1 is closed, whatever stands behind it.
    (
        &[0, 0, 0, 0, 11, 0, 1, 0, 0, 0, 20, 0, 64, 0, 1, 7],
        Some(&[]),
    ),
    (
        &[9, 0, 0, 0, 11, 0, 1, 0, 0, 0, 20, 0, 64, 0, 1, 7],
        Some(&[]),
    ),
    (
        &[1, 0, 0, 0, 11, 0, 1, 0, 0, 0, 20, 0, 64, 0, 1, 7],
        Some(&[(20, 64, 7)]),
    ),
    // Two mini-transactions in one body, the first of them without a range.
    (
        &[1, 0, 0, 0, 13, 0, 0, 0, 1, 0, 0, 0, 63, 15, 255, 0, 1, 8],
        Some(&[(63, 4_095, 8)]),
    ),
    // Two batches.
    (
        &[
            1, 0, 0, 0, 11, 0, 1, 0, 0, 0, 20, 0, 64, 0, 1, 7, 1, 0, 0, 0, 11, 0, 1, 0, 0, 0, 21,
            0, 0, 0, 1, 6,
        ],
        Some(&[(20, 64, 7), (21, 0, 6)]),
    ),
    // An empty body.
    (&[1, 0, 0, 0, 0], None),
    // A body of one byte; a count with no range behind it; a header cut short; a range cut short.
    (&[1, 0, 0, 0, 1, 0], None),
    (&[1, 0, 0, 0, 2, 0, 1], None),
    (&[1, 0, 0, 0, 9, 0, 1, 0, 0, 0, 20, 0, 64, 0], None),
    (&[1, 0, 0, 0, 10, 0, 1, 0, 0, 0, 20, 0, 64, 0, 1, 7], None),
    // A byte behind the last mini-transaction.
    (
        &[1, 0, 0, 0, 12, 0, 1, 0, 0, 0, 20, 0, 64, 0, 1, 7, 0],
        None,
    ),
    // A page at the file's end; a range past its page's end.
    (&[1, 0, 0, 0, 11, 0, 1, 0, 0, 0, 64, 0, 64, 0, 1, 7], None),
    (
        &[1, 0, 0, 0, 12, 0, 1, 0, 0, 0, 20, 15, 255, 0, 2, 7, 7],
        None,
    ),
    // A range of no byte, and a length that takes the gate behind the batch past the log's end, by one byte or by many.
    (&[1, 0, 0, 0, 10, 0, 1, 0, 0, 0, 20, 0, 64, 0, 0], None),
    (&[1, 0, 15, 255, 251, 0, 0], None),
    (&[1, 255, 255, 255, 255, 0, 0], None),
];

/// Whether the log tells these ranges and no others.
fn has_ranges(world: &mut MemWorld, wanted: &[Told]) -> Result<bool, Failed> {
    let mut into = [0; PAGE_BYTES];
    let mut from = 0;
    for told in wanted {
        world.sync()?;
        match read_range(world, from, &mut into)? {
            Some(range) => {
                if (range.page.0, range.at, into[0]) != *told {
                    return Ok(false);
                }
                from = range.next;
            }
            None => return Ok(false),
        }
    }
    world.sync()?;
    let last = read_range(world, from, &mut into)?;
    Ok(last.is_none())
}

/// Whether a log that begins with these bytes tells what is told with it.
fn tells(world: &mut MemWorld, row: Row) -> Result<bool, Failed> {
    let (bytes, wanted) = row;
    world.write(LOG, &[0; 40])?;
    world.write(LOG, bytes)?;
    world.sync()?;
    let log = Log::scan(world, 64)?;
    match wanted {
        Some(ranges) => {
            if log.is_none() {
                return Ok(false);
            }
            has_ranges(world, ranges)
        }
        None => Ok(log.is_none()),
    }
}

/// Whether each log of the table does.
fn all_tell(world: &mut MemWorld) -> Result<bool, Failed> {
    for row in ROWS {
        if !tells(world, row)? {
            return Ok(false);
        }
    }
    Ok(true)
}

#[test]
fn logs_and_what_they_tell(rt: HostRuntime) -> Result<(), Fail> {
    let mut world = MemWorld::new(rt.alloc(), SIZE, &[], &[], 400, 4_000)?;
    let all = all_tell(&mut world)?;
    assert!(rt; all);
    Ok(())
}

/// A mini-transaction with a byte of page 20 and two of page 63.
const BODY: [u8; 21] = [
    0, 2, 0, 0, 0, 20, 0, 64, 0, 1, 7, 0, 0, 0, 63, 15, 254, 0, 2, 6, 5,
];

/// Whether a batch is appended to an empty log, and the log emptied.
fn appends_and_empties(world: &mut MemWorld) -> Result<bool, Failed> {
    let mut log = Log { end: 0 };
    world.sync()?;
    log.append(world, &BODY)?;
    let filled = has_ranges(world, &[(20, 64, 7), (63, 4_094, 6)])?;
    if !filled || log.end != 26 {
        return Ok(false);
    }
    world.sync()?;
    log.reset(world)?;
    let emptied = has_ranges(world, &[])?;
    Ok(emptied && log.end == 0)
}

#[test]
fn a_log_is_filled_and_emptied(rt: HostRuntime) -> Result<(), Fail> {
    let mut world = MemWorld::new(rt.alloc(), SIZE, &[], &[], 100, 4_000)?;
    let done = appends_and_empties(&mut world)?;
    assert!(rt; done);
    Ok(())
}

/// The end of a log and the length of a body, and whether it fits. The log has 1,048,576 bytes.
const EDGES: [(u64, usize, bool); 6] = [
    (0, 1_048_570, true),
    (0, 1_048_571, false),
    (1_048_570, 0, true),
    (1_048_570, 1, false),
    (1_048_571, 0, false),
    (u64::MAX, 0, false),
];

/// Whether each of them fits or not as is told with it.
fn edges_are_as_told() -> bool {
    for (end, len, fits) in EDGES {
        let log = Log { end };
        if log.fits(len) != fits {
            return false;
        }
    }
    true
}

#[test]
fn the_edge_of_the_log(rt: HostRuntime) {
    assert!(rt; edges_are_as_told());
}
