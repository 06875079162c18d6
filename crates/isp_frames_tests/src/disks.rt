//! Disks in memory with a file on them.
ghost use Rattle.std.specs.Prelude.{[]};
ghost use Rattle.isp_disk.specs.Moments.{no_place};

use isp_disk::{Failed, MemWorld, World};
use std::alloc::Global;
use std::test::Fail;

/// A disk that ends behind the first seven pages.
pub(crate) const SIZE: u64 = 1_343_488;

/// Bytes at a place of the disk.
pub(crate) type Piece = (u64, &'static [u8]);

/// The control block of a file of 64 pages with fan-out 4.
const CONTROL: [u8; 64] =
    *b"ISPFILE1\0\0\0\x40\0\0\0\x04\0\0\0\0\0\0\0\0\0\0\0\0\0\0\0\0\0\0\0\0\0\0\0\0\0\0\0\0\0\0\0\0\0\0\0\0\0\0\0\0\0\0\0\0\0\0\0\x01";

/// A disk with that control block, and these pieces over it.
pub(crate) fn disk_with(alloc: Global, pieces: &[Piece]) -> Result<MemWorld, Fail> {
    let mut world = MemWorld::new(alloc, SIZE, &CONTROL, &[], 200, 100_000)?;
    for (at, piece) in pieces {
        world.write(*at, *piece)?;
    }
    Ok(world)
}

/// Whether the bytes from a place on are these.
pub(crate) fn has(image: &[u8], at: usize, wanted: &[u8]) -> bool {
    match image.get(at..) {
        Some(bytes) => bytes.starts_with(wanted),
        None => false,
    }
}

/// A disk in memory that tells none of its bytes. Over it no call asks for a file, or for a log that covers what was
/// changed.
#[derive(Drop)]
pub(crate) struct Untold {
    pub world: MemWorld,
}

impl World for Untold {
    ghost tells = { ⊥ };

    ghost printed = { λ w. [] };

    ghost image = { λ w place. 0 };

    ghost pending = { λ w. no_place };

    ghost clock = { λ w. 0 };

    ghost left_since = { λ w t left told. ⊥ };

    ghost disk_faults = { λ w. w.world.disk_faults };

    ghost print_faults = { λ w. w.world.print_faults };

    ghost counts_now = { λ w t left none. absurd none };

    ghost only_now = { λ w left told none. absurd none };

    fn read(&mut self, at: u64, into: &mut [u8]) -> Result<(), Failed> {
        self.world.read(at, into)
    }

    fn write(&mut self, at: u64, bytes: &[u8]) -> Result<(), Failed> {
        self.world.write(at, bytes)
    }

    fn sync(&mut self) -> Result<(), Failed> {
        self.world.sync()
    }

    fn print(&mut self, bytes: &[u8]) -> Result<(), Failed> {
        self.world.print(bytes)
    }
}
