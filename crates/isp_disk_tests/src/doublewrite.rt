//! The doublewrite area of a file, over a disk in memory.
ghost use Rattle.std.specs.Prelude.{◌<◌};

use isp_disk::{Failed, MemWorld, World};
use isp_doublewrite::{Restored, check_copies, restore, write_batch};
use isp_format::{PAGE_BYTES, Page, PageNo};
use std::alloc::Global;
use std::test::Fail;

/// The front of the control block of a file of 64 pages: its name, 64, fan-out 4.
const FRONT: [u8; 16] = *b"ISPFILE1\0\0\0\x40\0\0\0\x04";

/// A disk that has the first seven pages.
const SIZE: u64 = 1_343_488;

/// A list of copies from its count on, whether it keeps its rule, and what becomes of the copies.
type Row = (&'static [u8], bool, Restored);

const ROWS: [Row; 5] = [
    // None, a page past the end, a page twice, 65 copies; one page.
    (&[0, 0, 0, 0], false, Restored::Bad),
    (&[0, 0, 0, 1, 0, 0, 0, 64], false, Restored::Bad),
    (&[0, 0, 0, 2, 0, 0, 0, 7, 0, 0, 0, 7], false, Restored::Bad),
    (&[0, 0, 0, 65], false, Restored::Bad),
    (&[0, 0, 0, 1, 0, 0, 0, 6], true, Restored::Laid),
];

/// Whether the copies keep their rule, and what becomes of them, where the gate has this byte.
fn told(world: &mut MemWorld, gate: u8) -> Result<(bool, Restored), Failed> {
    world.write(512, &[gate])?;
    world.sync()?;
    let kept = check_copies(world, 64)?;
    let restored = restore(world, 64)?;
    Ok((kept, restored))
}

/// Whether each list of the table counts for nothing behind a closed gate, and behind an open one is as is told with it.
fn all_are_as_told(world: &mut MemWorld) -> Result<bool, Failed> {
    for (list, kept, restored) in ROWS {
        world.write(1_024, list)?;
        let closed = told(world, 0)?;
        let opened = told(world, 1)?;
        if closed != (true, Restored::Nothing) || opened != (kept, restored) {
            return Ok(false);
        }
    }
    Ok(true)
}

/// The byte of the disk at a place.
fn byte_at(world: &mut MemWorld, place: u64) -> Result<u8, Failed> {
    let mut into = [0];
    world.read(place, &mut into)?;
    Ok(into[0])
}

/// Whether the first copy, which begins with 7, is laid over page 6 by the last list of the table.
fn copy_is_laid(world: &mut MemWorld) -> Result<bool, Failed> {
    world.write(4_096, &[7])?;
    if !all_are_as_told(world)? {
        return Ok(false);
    }
    // Page 6 is at 1,314,816 and six pages more.
    let first = byte_at(world, 1_339_392)?;
    let gate = byte_at(world, 512)?;
    Ok(first == 7 && gate == 0)
}

#[test]
fn lists_and_what_becomes_of_them(rt: HostRuntime) -> Result<(), Fail> {
    let mut world = MemWorld::new(rt.alloc(), SIZE, &FRONT, &[], 200, 40_000)?;
    let all = copy_is_laid(&mut world)?;
    assert!(rt; all);
    Ok(())
}

/// A world with a file of 64 empty pages, in which page 5 was written.
fn with_page(alloc: Global, page: Page) -> Result<MemWorld, Fail> {
    let mut world = MemWorld::new(alloc, SIZE, &FRONT, &[], 64, 100_000)?;
    write_batch(&mut world, &[(PageNo(5), page)])?;
    Ok(world)
}

/// Places of the disk and their bytes with page 5 of the byte 7: its copy is the first, and its own place is at 1,314,816
/// and five pages more.
const BYTES: [(u64, u8); 10] = [
    (512, 0),
    (1_027, 1),
    (1_031, 5),
    (4_095, 0),
    (4_096, 7),
    (8_191, 7),
    (1_335_295, 0),
    (1_335_296, 7),
    (1_339_391, 7),
    (1_339_392, 0),
];

/// Whether the disk has these bytes.
fn has_bytes(world: &mut MemWorld) -> Result<bool, Failed> {
    for (place, wanted) in BYTES {
        let found = byte_at(world, place)?;
        if found != wanted {
            return Ok(false);
        }
    }
    Ok(true)
}

#[test]
fn a_batch_of_one_is_in_place(rt: HostRuntime) -> Result<(), Fail> {
    let page = Page {
        bytes: [7; PAGE_BYTES],
    };
    let mut world = with_page(rt.alloc(), page)?;
    // The count, a number and a copy, a sync; the gate, the page and the gate, each with one.
    let calls = (world.calls(), world.syncs());
    let done = has_bytes(&mut world)?;
    assert!(rt; done && calls == (10, 4));
    Ok(())
}
