//! Logs replayed over a disk in memory.

use crate::disks::{Piece, disk_with, has};
use isp_disk::MemWorld;
use isp_format::Page;
use isp_frames::Cache;
use isp_opening::open;
use isp_page::StoreFault;
use isp_pool::Pool;
use isp_replay::replay;
use std::alloc::Global;
use std::test::Fail;

/// The bytes of page 1 from place 63 on; a batch with four bytes of it from place 64 on and the first byte of page 2; and
/// one with three bytes of page 1 from place 66 on.
static LOGGED: [Piece; 2] = [
    (1_318_975, &[9, 9, 9, 9, 9, 9, 9]),
    (
        266_240,
        &[
            1, 0, 0, 0, 23, 0, 2, 0, 0, 0, 1, 0, 64, 0, 4, 7, 7, 7, 7, 0, 0, 0, 2, 0, 0, 0, 1, 6,
            1, 0, 0, 0, 13, 0, 1, 0, 0, 0, 1, 0, 66, 0, 3, 5, 5, 5,
        ],
    ),
];

/// What a start on a world answers that opens its file and replays the log, and the world after it.
fn started(alloc: Global, world: MemWorld) -> Result<(Result<(), StoreFault>, MemWorld), Fail> {
    let pool = Pool::new(alloc, 64)?;
    let batch = Vec::with_capacity(alloc, 64)?;
    match open(world) {
        Ok(stable) => {
            let mut cache = Cache::new(stable, pool, batch);
            let done = replay(&mut cache);
            Ok((done, cache.into_world()))
        }
        Err((fault, world)) => Ok((Err(fault), world)),
    }
}

/// Whether the pages have the bytes of the log, the later ones over the earlier, and the log is empty.
fn is_replayed(image: &[u8]) -> bool {
    has(image, 1_318_975, &[9, 7, 7, 5, 5, 5, 9, 0])
        && has(image, 1_323_007, &[0, 6, 0])
        && has(image, 266_240, &[0])
}

#[test]
fn later_ranges_stand_over_earlier_ones(rt: HostRuntime) -> Result<(), Fail> {
    let world = disk_with(rt.alloc(), &LOGGED)?;
    let (first, world) = started(rt.alloc(), world)?;
    let before = world.calls();
    let replayed = first.is_ok() && is_replayed(world.image());
    // Started again, five calls open the file, and one reads the closed gate at the front of the log.
    let (second, world) = started(rt.alloc(), world)?;
    let again = second.is_ok() && is_replayed(world.image());
    assert!(rt; replayed && again && world.calls().checked_sub(before) == Some(6));
    Ok(())
}
