//! Files opened over a disk in memory.

use crate::disks::{Piece, disk_with, has};
use isp_disk::MemWorld;
use isp_opening::open;
use isp_page::StoreFault;
use isp_stable::Stable;
use std::alloc::Global;
use std::test::Fail;

/// Pages, fan-out and the end of the log of a file, or why it isn't opened.
type Opened = Result<(u32, u32, u64), StoreFault>;

const NO_CONTROL: Opened = Err(StoreFault::Damaged { page: 0, rule: 1 });

const BAD_COPIES: Opened = Err(StoreFault::Damaged { page: 0, rule: 2 });

const NO_LOG: Opened = Err(StoreFault::Damaged { page: 0, rule: 3 });

/// A list of copies with a page that the file doesn't have.
const BAD_LIST: Piece = (1_024, &[0, 0, 0, 1, 0, 0, 0, 64]);

/// A log with an empty body.
const BAD_LOG: Piece = (266_240, &[1, 0, 0, 0, 0]);

/// A log with a byte of page 20.
const LOG: Piece = (
    266_240,
    &[1, 0, 0, 0, 11, 0, 1, 0, 0, 0, 20, 0, 64, 0, 1, 7],
);

/// A log with a byte of page 64.
const LOG_PAST_THE_END: Piece = (
    266_240,
    &[1, 0, 0, 0, 11, 0, 1, 0, 0, 0, 64, 0, 64, 0, 1, 7],
);

const NOT_MADE: Piece = (63, &[0]);

const OPEN: Piece = (512, &[1]);

/// Pieces over a file of 64 pages with fan-out 4, and what is found of it.
type Row = (&'static [Piece], Opened);

static ROWS: [Row; 20] = [
    // The control block: its name, its numbers and its made-gate.
    (&[], Ok((64, 4, 0))),
    (&[(8, &[0, 1, 0, 0, 0, 0, 0, 120])], Ok((65_536, 120, 0))),
    (&[(7, b"2")], NO_CONTROL),
    (&[(0, b"J")], NO_CONTROL),
    (&[(8, &[0, 0, 0, 63])], NO_CONTROL),
    (&[(8, &[0, 1, 0, 1])], NO_CONTROL),
    (&[(12, &[0, 0, 0, 3])], NO_CONTROL),
    (&[(12, &[0, 0, 0, 121])], NO_CONTROL),
    (&[NOT_MADE], NO_CONTROL),
    (&[(63, &[2])], NO_CONTROL),
    // A list of copies counts under a gate that is 1 alone.
    (&[BAD_LIST, (512, &[9])], Ok((64, 4, 0))),
    (&[BAD_LIST, OPEN], BAD_COPIES),
    (&[OPEN], BAD_COPIES),
    // So does a batch of the log.
    (&[LOG], Ok((64, 4, 16))),
    (&[LOG, (266_240, &[9])], Ok((64, 4, 0))),
    (&[BAD_LOG], NO_LOG),
    (&[LOG_PAST_THE_END], NO_LOG),
    (&[LOG_PAST_THE_END, (8, &[0, 0, 0, 65])], Ok((65, 4, 16))),
    // The first broken rule is named.
    (&[BAD_LIST, OPEN, BAD_LOG], BAD_COPIES),
    (&[BAD_LIST, OPEN, BAD_LOG, NOT_MADE], NO_CONTROL),
];

/// Where the log of a file ends: at 0 or 16, by the greatest body that it has room for, or elsewhere.
fn end_of(file: &Stable<MemWorld>) -> u64 {
    if file.has_room(1_048_570) {
        0
    } else if file.has_room(1_048_554) && !file.has_room(1_048_555) {
        16
    } else {
        9_999
    }
}

fn opened(world: MemWorld) -> Opened {
    match open(world) {
        Ok(file) => {
            let seen = (file.pages(), file.fanout(), end_of(&file));
            let _world = file.into_world();
            Ok(seen)
        }
        Err((fault, _world)) => Err(fault),
    }
}

fn are_opened(alloc: Global, rows: &[Row]) -> Result<bool, Fail> {
    for (pieces, wanted) in rows {
        let world = disk_with(alloc, *pieces)?;
        if opened(world) != *wanted {
            return Ok(false);
        }
    }
    Ok(true)
}

#[test]
fn the_first_rule_that_is_broken_is_named(rt: HostRuntime) -> Result<(), Fail> {
    let good = are_opened(rt.alloc(), &ROWS)?;
    assert!(rt; good);
    Ok(())
}

/// Whether page 5 has the copy's bytes, those beside it are as they were, and no copy counts.
fn is_laid(image: &[u8]) -> bool {
    // Page 5 is at 1,314,816 and five pages more.
    let page = match image.get(1_335_296..1_339_392) {
        Some(page) => page.iter().all(|byte| *byte == 7),
        None => false,
    };
    page && has(image, 1_335_295, &[0, 7])
        && has(image, 1_339_391, &[7, 0])
        && has(image, 512, &[0])
}

/// Whether the file on a disk is opened with its copy laid.
fn opens_laid(world: MemWorld) -> bool {
    match open(world) {
        Ok(stable) => is_laid(stable.into_world().image()),
        Err((_fault, _world)) => false,
    }
}

/// The copy of page 5.
static COPY: [Piece; 3] = [
    (1_024, &[0, 0, 0, 1, 0, 0, 0, 5]),
    (4_096, &[7; 4_096]),
    OPEN,
];

#[test]
fn copies_that_count_are_laid_over_their_pages(rt: HostRuntime) -> Result<(), Fail> {
    let world = disk_with(rt.alloc(), &COPY)?;
    assert!(rt; opens_laid(world));
    Ok(())
}
