//! A disk in memory: what a stop leaves of it, worked out by hand.
use isp_disk::{MemWorld, World};
use std::alloc::{AllocError, Global};
use std::test::Fail;

#[derive(Clone, Copy)]
enum Step {
    Read,
    Write(u64, &'static [u8]),
    Sync,
    Print(&'static [u8]),
}

/// A stop: the call, how many bytes are kept, the image with `?` at the others, and what was printed.
type Stop = (u64, u64, &'static [u8], &'static [u8]);

struct Case {
    first: &'static [u8],
    size: u64,
    failing: &'static [u64],
    steps: &'static [(Step, bool)],
    image: &'static [u8],
    stops: &'static [Stop],
}

const CASES: [Case; 4] = [
    // Two writes that overlap.
    Case {
        first: b"abcdef",
        size: 6,
        failing: &[],
        steps: &[
            (Step::Write(1, b"XY"), true),
            (Step::Write(2, b"ZZ"), true),
            (Step::Sync, true),
            (Step::Read, true),
        ],
        image: b"aXZZef",
        stops: &[
            (1, 0, b"a??def", b""),
            (1, 1, b"aX?def", b""),
            (1, 2, b"aXYdef", b""),
            (2, 0, b"a???ef", b""),
            (2, 1, b"aX??ef", b""),
            (2, 2, b"aXZ?ef", b""),
            (2, 9, b"aXZZef", b""),
            (3, 1, b"aX??ef", b""),
            (4, 0, b"aXZZef", b""),
        ],
    },
    // A sync between, and a print that adds no image.
    Case {
        first: b"abcd",
        size: 4,
        failing: &[],
        steps: &[
            (Step::Write(0, b"PQ"), true),
            (Step::Sync, true),
            (Step::Print(b"hi"), true),
            (Step::Write(1, b"R"), true),
        ],
        image: b"PRcd",
        stops: &[
            (2, 1, b"P?cd", b""),
            (3, 0, b"PQcd", b""),
            (4, 0, b"P?cd", b"hi"),
            (4, 1, b"PRcd", b"hi"),
        ],
    },
    // A write that fails, and one over a byte that it was to write.
    Case {
        first: b"abcd",
        size: 4,
        failing: &[1],
        steps: &[
            (Step::Write(1, b"XY"), false),
            (Step::Read, true),
            (Step::Write(2, b"Z"), true),
            (Step::Print(b"hi"), true),
            (Step::Write(0, b"K"), true),
        ],
        image: b"KbZd",
        stops: &[
            (1, 0, b"a??d", b""),
            (1, 2, b"aXYd", b""),
            (2, 1, b"aX?d", b""),
            (3, 1, b"aX?d", b""),
            (3, 2, b"aXZd", b""),
            (4, 2, b"aXZd", b""),
            (5, 2, b"?XZd", b"hi"),
            (5, 3, b"KXZd", b"hi"),
        ],
    },
    // A sync that fails, and a write that ends past the size.
    Case {
        first: b"ab",
        size: 4,
        failing: &[2],
        steps: &[
            (Step::Write(0, b"Z"), true),
            (Step::Sync, false),
            (Step::Write(3, b"xy"), false),
            (Step::Sync, true),
        ],
        image: b"Zb\0\0",
        stops: &[
            (2, 0, b"?b\0\0", b""),
            (3, 1, b"Zb\0?", b""),
            (4, 2, b"Zb\0x", b""),
        ],
    },
];

fn done(world: &mut MemWorld, step: Step) -> bool {
    let answer = match step {
        Step::Read => world.read(0, &mut [0]),
        Step::Write(at, bytes) => world.write(at, bytes),
        Step::Sync => world.sync(),
        Step::Print(bytes) => world.print(bytes),
    };
    answer.is_ok()
}

/// Whether the steps are answered so.
fn goes_through(world: &mut MemWorld, steps: &[(Step, bool)]) -> bool {
    let mut is_so = true;
    for (step, is_good) in steps {
        if done(world, *step) != *is_good {
            is_so = false;
        }
    }
    is_so
}

/// Whether this stop is left.
fn leaves(alloc: Global, world: &MemWorld, stop: &Stop) -> Result<bool, AllocError> {
    let (call, kept, image, printed) = *stop;
    if call == 0 || call > world.calls() {
        return Ok(false);
    }
    let left = world.image_at(alloc, call, kept, b'?')?;
    let told = world.printed_at(alloc, call)?;
    Ok(left.as_slice() == image && told.as_slice() == printed)
}

fn leaves_all(alloc: Global, world: &MemWorld, stops: &[Stop]) -> Result<bool, AllocError> {
    for stop in stops {
        let is_left = leaves(alloc, world, stop)?;
        if !is_left {
            return Ok(false);
        }
    }
    Ok(true)
}

fn comes_out(alloc: Global, case: &Case) -> Result<bool, AllocError> {
    if case.first.len() as u64 > case.size {
        return Ok(false);
    }
    let mut world = MemWorld::new(alloc, case.size, case.first, case.failing, 9, 99)?;
    let goes = goes_through(&mut world, case.steps);
    let is_left = leaves_all(alloc, &world, case.stops)?;
    Ok(goes && is_left && world.image() == case.image)
}

fn all_come_out(alloc: Global) -> Result<bool, AllocError> {
    for case in &CASES {
        let is_so = comes_out(alloc, case)?;
        if !is_so {
            return Ok(false);
        }
    }
    Ok(true)
}

#[test]
fn a_disk_in_memory_leaves_the_images_of_a_stop(rt: HostRuntime) -> Result<(), Fail> {
    let is_so = all_come_out(rt.alloc())?;
    assert!(rt; is_so);
    Ok(())
}

/// The call behind this number is a write, or isn't.
fn is_write(world: &MemWorld, call: u64) -> bool {
    call > 0 && call <= world.calls() && world.is_write(call)
}

/// Memory for five calls and two bytes: no room is left for two bytes more, so that call has no number.
fn counts(world: &mut MemWorld) -> bool {
    let steps = [
        (Step::Write(1, b"X"), true),
        (Step::Sync, true),
        (Step::Sync, false),
        (Step::Write(0, b"PQ"), false),
        (Step::Print(b"p"), true),
        (Step::Read, true),
        (Step::Sync, false),
    ];
    let goes = goes_through(world, &steps);
    let counted = world.calls() == 5 && world.syncs() == 1;
    let writes = is_write(world, 1) && !is_write(world, 2) && !is_write(world, 4);
    goes && counted && writes && world.printed() == b"p".as_slice()
}

#[test]
fn a_disk_in_memory_counts_its_calls(rt: HostRuntime) -> Result<(), Fail> {
    let mut world = MemWorld::new(rt.alloc(), 4, b"abcd", &[3], 5, 2)?;
    let is_so = counts(&mut world);
    assert!(rt; is_so);
    Ok(())
}

fn reads_past_the_end(world: &mut MemWorld) -> bool {
    let mut piece = [7; 6];
    let answer = world.read(1, &mut piece);
    answer == Ok(()) && piece == *b"bcd\0\0\0"
}

#[test]
fn zeros_stand_past_the_end(rt: HostRuntime) -> Result<(), Fail> {
    let mut world = MemWorld::new(rt.alloc(), 4, b"abcd", &[], 5, 2)?;
    let is_so = reads_past_the_end(&mut world);
    assert!(rt; is_so);
    Ok(())
}
