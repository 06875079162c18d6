//! A world in memory that counts.
ghost use Rattle.std.specs.Prelude.{◌≡◌, [], false};
ghost use Rattle.isp_disk.specs.Moments.{no_place};

use isp_disk::{Failed, MemWorld, World};

/// A world in memory, and how many bytes were written to its disk. It tells no bytes.
#[derive(Drop)]
pub(crate) struct CountedWorld {
    pub world: MemWorld,
    pub written: u64,
}

impl World for CountedWorld {
    ghost use Rattle.std.proofs.Common.{rules};

    ghost tells = { ⊥ };

    ghost printed = { λ w. [] };

    ghost image = { λ w place. 0 };

    ghost pending = { λ w. no_place };

    ghost clock = { λ w. 0 };

    ghost left_since = { λ w t left told. ⊥ };

    ghost disk_faults = { λ w. w.world.disk_faults };

    ghost print_faults = { λ w. w.world.print_faults };

    ghost counts_now = { λ w t left none. absurd none };

    ghost only_now = { λ w left told none. absurd none };

    fn read(&mut self, at: u64, into: &mut [u8]) -> Result<(), Failed> {
        self.world.read(at, into)
    }

    fn write(&mut self, at: u64, bytes: &[u8]) -> Result<(), Failed> {
        self.written = self.written.saturating_add(bytes.len() as u64);
        self.world.write(at, bytes)
    }

    fn sync(&mut self) -> Result<(), Failed> {
        self.world.sync()
    }

    fn print(&mut self, bytes: &[u8]) -> Result<(), Failed> {
        self.world.print(bytes)
    }
}
