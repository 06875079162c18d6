//! An empty file, made on a disk in memory.

use isp_disk::{Failed, MemWorld, World};
use isp_making::make;
use std::test::Fail;

/// A disk that has the first sixteen pages.
const SIZE: u64 = 1_380_352;

/// Places that are written over by the making, or not.
const BEFORE: [u64; 10] = [
    0, 16, 62, 64, 511, 512, 266_240, 266_241, 1_314_900, 1_380_351,
];

/// Places and their bytes after it, where those before had 7.
const AFTER: [(u64, u8); 22] = [
    // The name, 4,660 pages, fan-out 5, zeros, the made-gate.
    (0, b'I'),
    (7, b'1'),
    (10, 18),
    (11, 52),
    (15, 5),
    (16, 0),
    (62, 0),
    (63, 1),
    (64, 7),
    // The gates.
    (511, 7),
    (512, 0),
    (266_240, 0),
    (266_241, 7),
    // Page 0: its kind, the first page never used, and none of what stood there.
    (1_314_816, 1),
    (1_314_891, 16),
    (1_314_900, 0),
    // Page 1 and page 15: kind and own number.
    (1_318_912, 2),
    (1_318_939, 1),
    (1_376_256, 3),
    (1_376_283, 15),
    (1_380_351, 0),
    (1_376_255, 0),
];

/// Writes 7 at each of these places.
fn scatter(world: &mut MemWorld) -> Result<(), Failed> {
    for place in BEFORE {
        world.write(place, &[7])?;
    }
    Ok(())
}

/// Whether the disk has the bytes of a made file.
fn has_bytes(world: &mut MemWorld) -> Result<bool, Failed> {
    let mut found = [0];
    for (place, wanted) in AFTER {
        world.read(place, &mut found)?;
        if found != [wanted] {
            return Ok(false);
        }
    }
    Ok(true)
}

/// Whether a file is made where another one was, by as many calls.
fn is_made(world: &mut MemWorld) -> Result<bool, Failed> {
    make(world, 64, 4)?;
    // The first sync, the read of the made-gate, the control block and two gates, sixteen pages, a sync, the gate, a sync.
    if (world.calls(), world.syncs()) != (24, 3) {
        return Ok(false);
    }
    scatter(world)?;
    make(world, 4_660, 5)?;
    // And the old file's gate is closed, with a sync.
    if (world.calls(), world.syncs()) != (60, 7) {
        return Ok(false);
    }
    has_bytes(world)
}

#[test]
fn a_made_file_reads_as_its_layout(rt: HostRuntime) -> Result<(), Fail> {
    let mut world = MemWorld::new(rt.alloc(), SIZE, &[], &[], 100, 200_000)?;
    let made = is_made(&mut world)?;
    assert!(rt; made);
    Ok(())
}
