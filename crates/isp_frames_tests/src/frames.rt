//! Frames over a disk in memory, worked out by hand.
ghost use Rattle.std.specs.Prelude.{◌≡◌, ℕ, ◌<◌, true, false, count_by, length, Some};
ghost use Rattle.isp_frames.specs.Held.{AreBelow, NonePinned};
ghost use Rattle.isp_pool.specs.Frames.{frame_at, is_pinned};
ghost use Rattle.isp_pool.specs.declared.frames.Frame.{Frame};

use crate::disks::{SIZE, Untold, has};
use isp_disk::{MemWorld, World};
use isp_format::{PAGE_BYTES, Page, PageNo};
use isp_frames::Cache;
use isp_pool::Pool;
use isp_redo::Log;
use isp_stable::Stable;
use std::alloc::Global;
use std::test::Fail;

/// What is done with the frames.
#[derive(Clone, Copy)]
enum Call {
    Read(u32),
    Change(u32),
    CleanSome,
    CleanAll,
    Checkpoint,
}

/// The call, what it answers, how many calls of the disk it makes, and the pages in the frames after it. A page is a thousand
/// more where its frame is dirty; a free frame has 0.
type Row = (Call, u64, u64, [u32; 3]);

static ROWS: [Row; 17] = [
    (Call::Read(1), 11, 1, [1, 0, 0]),
    (Call::Read(2), 12, 1, [1, 2, 0]),
    (Call::Read(3), 13, 1, [1, 2, 3]),
    (Call::Change(2), 0, 0, [1, 1_002, 3]),
    (Call::Read(3), 13, 0, [1, 1_002, 3]),
    (Call::Read(1), 11, 0, [1, 1_002, 3]),
    // Page 2 was used longest ago. It is written as a batch of one, in ten calls, before page 4 is read.
    (Call::Read(4), 14, 11, [1, 4, 3]),
    (Call::Read(2), 12, 1, [1, 4, 2]),
    (Call::CleanSome, 0, 0, [1, 4, 2]),
    (Call::Change(1), 0, 0, [1_001, 4, 2]),
    (Call::Change(4), 0, 0, [1_001, 1_004, 2]),
    (Call::CleanSome, 2, 13, [1, 4, 2]),
    (Call::Change(4), 0, 0, [1, 1_004, 2]),
    (Call::CleanAll, 0, 10, [1, 4, 2]),
    (Call::CleanAll, 0, 0, [1, 4, 2]),
    // The log is emptied besides: its first gate, and a sync.
    (Call::Change(2), 0, 0, [1, 4, 1_002]),
    (Call::Checkpoint, 0, 12, [1, 4, 2]),
];

/// Three free frames over a file of 128 pages with something in its log, of which page n, if it is one of the first seven,
/// has 10 + n as its second byte and else zeros.
fn three_frames(alloc: Global) -> Result<Cache<Untold>, Fail> {
    let pool = Pool::new(alloc, 3)?;
    let batch = Vec::with_capacity(alloc, 64)?;
    let mut world = MemWorld::new(alloc, SIZE, &[], &[], 1_000, 200_000)?;
    for number in 0..7u8 {
        world.write(1_314_817 + u64::from(number) * 4_096, &[10 + number])?;
    }
    let stable = Stable::new(Untold { world }, Log { end: 16 }, 128, 4);
    Ok(Cache::new(stable, pool, batch))
}

/// The disk of a cache that is done with.
fn disk_of(cache: Cache<Untold>) -> MemWorld {
    let Untold { world } = cache.into_world();
    world
}

/// Whether a frame is free, or holds a page below a number and is unpinned.
fn is_ready_at(pool: &Pool, frame: usize, pages: u32) -> bool
    requires { frame < length pool.now.frames }
    ensures below { result ≡ true → (f : Frame) → frame_at pool.now frame ≡ Some f
        → f.page.0 < pages }
    ensures unpinned { result ≡ true → is_pinned (frame_at pool.now frame) ≡ false }
{
    if pool.is_pinned(frame) {
        return false;
    }
    match pool.holds(frame) {
        Some(number) => number.0 < pages,
        None => true,
    }
}

/// Whether each frame is so.
fn is_ready(pool: &Pool, pages: u32) -> bool
    ensures below { result ≡ true → AreBelow pages pool.now.frames }
    ensures unpinned { result ≡ true → NonePinned pool.now }
    ensures some { result ≡ true → count_by is_pinned pool.now.frames < length pool.now.frames }
{
    for frame in 0..pool.frames() {
        if !is_ready_at(pool, frame, pages) {
            return false;
        }
    }
    true
}

/// Makes a call. The second byte of the page that it reads, or the count that it answers, 0 where it answers neither, or None
/// where it fails.
fn make(cache: &mut Cache<Untold>, call: Call) -> Option<u64> {
    let pages = cache.stable().pages();
    if !is_ready(cache.pool(), pages) || cache.batch_room() < 64 {
        return None;
    }
    match call {
        Call::Read(number) => {
            if number >= pages {
                return None;
            }
            let mut page = Page {
                bytes: [0; PAGE_BYTES],
            };
            match cache.read(PageNo(number), &mut page) {
                Ok(()) => Some(u64::from(page.bytes[1])),
                Err(_) => None,
            }
        }
        Call::Change(number) => {
            if number >= pages {
                return None;
            }
            match cache.change(PageNo(number), 0, &[7]) {
                Ok(()) => Some(0),
                Err(_) => None,
            }
        }
        Call::CleanSome => match cache.clean_some() {
            Ok(cleaned) => Some(u64::from(cleaned)),
            Err(_) => None,
        },
        Call::CleanAll => match cache.clean_all() {
            Ok(()) => Some(0),
            Err(_) => None,
        },
        Call::Checkpoint => match cache.checkpoint() {
            Ok(()) => Some(0),
            Err(_) => None,
        },
    }
}

/// The page in a frame, as the rows tell it.
fn told(pool: &Pool, frame: usize) -> u32 {
    if frame >= pool.frames() {
        return 9_999;
    }
    let dirty = if pool.is_dirty(frame) { 1_000 } else { 0 };
    match pool.holds(frame) {
        Some(PageNo(number)) => dirty + number % 1_000,
        None => dirty,
    }
}

/// Whether a call answers, makes and leaves what the row says.
fn holds(cache: &mut Cache<Untold>, row: &Row) -> bool {
    let before = cache.stable().world().world.calls();
    let answer = make(cache, row.0);
    let made = cache.stable().world().world.calls().checked_sub(before);
    let pool = cache.pool();
    answer == Some(row.1)
        && made == Some(row.2)
        && [told(pool, 0), told(pool, 1), told(pool, 2)] == row.3
}

fn hold_all(cache: &mut Cache<Untold>, rows: &[Row]) -> bool {
    for row in rows {
        if !holds(cache, row) {
            return false;
        }
    }
    true
}

/// Whether pages 1, 2 and 4 have their change on the disk, and page 3 has none.
fn are_written(image: &[u8]) -> bool {
    has(image, 1_318_912, &[7, 11])
        && has(image, 1_323_008, &[7, 12])
        && has(image, 1_327_104, &[0, 13])
        && has(image, 1_331_200, &[7, 14])
}

#[test]
fn calls_by_hand(rt: HostRuntime) -> Result<(), Fail> {
    let mut cache = three_frames(rt.alloc())?;
    let held = hold_all(&mut cache, &ROWS);
    let disk = disk_of(cache);
    assert!(rt; held && are_written(disk.image()));
    Ok(())
}
