//! A pool of three frames, worked out by hand.
ghost use Rattle.std.specs.Prelude.{◌+◌, ◌≤◌, length};

use isp_format::{Page, PageNo};
use isp_pool::Pool;
use std::test::Fail;

/// What is done with a page.
#[derive(Clone, Copy)]
enum Call {
    Read,
    Used,
    Pin,
    Unpin,
    Clean,
    Change,
}

/// A call with its page; the victim after it, the last dirty frame, and how many are dirty; and what the frames hold. A
/// frame's page is a thousand more where it is dirty, two thousand more where it is pinned; a free one has 0.
type Row = (Call, u32, Option<usize>, Option<usize>, u32, [u32; 3]);

// All pages but 3 fall into one chain.
static ROWS: [Row; 16] = [
    (Call::Read, 5, Some(1), None, 0, [5, 0, 0]),
    (Call::Read, 8, Some(2), None, 0, [5, 8, 0]),
    (Call::Read, 11, Some(0), None, 0, [5, 8, 11]),
    (Call::Used, 5, Some(1), None, 0, [5, 8, 11]),
    (Call::Pin, 8, Some(2), None, 0, [5, 2_008, 11]),
    (Call::Change, 8, Some(2), None, 1, [5, 3_008, 11]),
    (Call::Change, 5, Some(2), Some(0), 2, [1_005, 3_008, 11]),
    (Call::Pin, 11, Some(0), Some(0), 2, [1_005, 3_008, 2_011]),
    (Call::Pin, 5, None, None, 2, [3_005, 3_008, 2_011]),
    (Call::Unpin, 8, Some(1), Some(1), 2, [3_005, 1_008, 2_011]),
    (Call::Clean, 8, Some(1), None, 1, [3_005, 8, 2_011]),
    (Call::Read, 14, Some(1), None, 1, [3_005, 14, 2_011]),
    (Call::Unpin, 5, Some(0), Some(0), 1, [1_005, 14, 2_011]),
    (Call::Read, 17, Some(0), Some(0), 1, [1_005, 14, 2_011]),
    (Call::Clean, 5, Some(0), None, 0, [5, 14, 2_011]),
    (Call::Read, 3, Some(1), None, 0, [3, 14, 2_011]),
];

/// Where the pages are at the end.
static PLACES: [(u32, Option<usize>); 7] = [
    (3, Some(0)),
    (14, Some(1)),
    (11, Some(2)),
    (5, None),
    (8, None),
    (17, None),
    (2, None),
];

/// Reads a page, all of whose bytes are 3, into the victim's frame, where that is clean; else nothing.
fn read(pool: &mut Pool, p: PageNo) {
    match pool.find(p) {
        Some(_) => {}
        None => {
            if let Some(frame) = pool.victim() {
                if !pool.is_dirty(frame) {
                    pool.load(frame, p, &Page { bytes: [3; 4_096] });
                }
            }
        }
    }
}

fn change(pool: &mut Pool, p: PageNo, at: u16, bytes: &[u8])
    requires { at + length bytes.now ≤ 4096 }
{
    if let Some(frame) = pool.find(p) {
        pool.change(frame, at, bytes);
    }
}

fn make(pool: &mut Pool, call: Call, p: PageNo) {
    match call {
        Call::Read => read(pool, p),
        Call::Change => change(pool, p, 10, &[7, 8]),
        Call::Used => {
            if let Some(frame) = pool.find(p) {
                pool.used(frame);
            }
        }
        Call::Pin => {
            if let Some(frame) = pool.find(p) {
                pool.pin(frame);
            }
        }
        Call::Unpin => {
            if let Some(frame) = pool.find(p) {
                pool.unpin(frame);
            }
        }
        Call::Clean => {
            if let Some(frame) = pool.find(p) {
                pool.clean(frame);
            }
        }
    }
}

/// What a frame holds, as the rows tell it.
fn told(pool: &Pool, frame: usize) -> u32 {
    if frame >= pool.frames() {
        return 9_999;
    }
    let flags = match (pool.is_dirty(frame), pool.is_pinned(frame)) {
        (false, false) => 0,
        (true, false) => 1_000,
        (false, true) => 2_000,
        (true, true) => 3_000,
    };
    match pool.holds(frame) {
        Some(PageNo(p)) => flags + p % 1_000,
        None => flags,
    }
}

/// Whether the pool answers and holds what the row says, after its call.
fn holds(pool: &mut Pool, row: &Row) -> bool {
    make(pool, row.0, PageNo(row.1));
    pool.victim() == row.2
        && pool.last_dirty() == row.3
        && pool.dirty_count() == row.4
        && [told(pool, 0), told(pool, 1), told(pool, 2)] == row.5
}

fn hold_all(pool: &mut Pool, rows: &[Row]) -> bool {
    for row in rows {
        if !holds(pool, row) {
            return false;
        }
    }
    true
}

fn are_found(pool: &mut Pool, places: &[(u32, Option<usize>)]) -> bool {
    for (p, frame) in places {
        if pool.find(PageNo(*p)) != *frame {
            return false;
        }
    }
    true
}

#[test]
fn calls_by_hand(rt: HostRuntime) -> Result<(), Fail> {
    let mut pool = Pool::new(rt.alloc(), 3)?;
    assert!(rt; hold_all(&mut pool, &ROWS) && are_found(&mut pool, &PLACES));
    Ok(())
}

fn bytes_at(pool: &Pool, p: PageNo) -> [u8; 6] {
    match pool.find(p) {
        Some(frame) => {
            let page = pool.page(frame);
            [
                page.bytes[9],
                page.bytes[10],
                page.bytes[11],
                page.bytes[12],
                page.bytes[4_094],
                page.bytes[4_095],
            ]
        }
        None => [0; 6],
    }
}

fn changes_bytes(pool: &mut Pool) -> bool {
    read(pool, PageNo(20));
    change(pool, PageNo(20), 10, &[7, 8]);
    change(pool, PageNo(20), 4_095, &[9]);
    change(pool, PageNo(20), 12, &[]);
    bytes_at(pool, PageNo(20)) == [3, 7, 8, 3, 3, 9]
}

#[test]
fn bytes_by_hand(rt: HostRuntime) -> Result<(), Fail> {
    let mut pool = Pool::new(rt.alloc(), 1)?;
    assert!(rt; changes_bytes(&mut pool));
    Ok(())
}
