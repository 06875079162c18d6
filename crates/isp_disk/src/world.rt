//! The world as the program sees it, and the one answer of a call that didn't come about.
ghost use Rattle.std.specs.Prelude.{◌≡◌, ◌≤◌, [], List, ℕ, length, OnOk};
ghost use Rattle.isp_disk.specs.InMemory.{counted};
ghost use Rattle.isp_disk.specs.Moments.{Image, Region, Agree, During, Elapses, Keeps, Quiet, Touches, in_range, no_place, put, slice};
ghost use Rattle.isp_disk.specs.Outside.{HasCause, Prints, Rose};

/// A call of the outside failed. The count of faults that rose says where.
#[derive(Clone, Copy, Debug, PartialEq, Eq)]
pub struct Failed;

/// The disk that the program writes, and the printer beside it: one trait, so that one moment fixes both what is on
/// the disk and what was printed by then. Of a world that doesn't tell its bytes no clause says what they are.
pub trait World {
    /// That what is read, written and printed is said of its bytes: a fact of the type, and not of a value.
    ghost tells: { Type 0 };

    /// The bytes that were printed. They mean nothing where `tells` doesn't hold.
    ghost printed: { Self → List ℕ };

    /// The bytes of the disk as they read, 0 past its end. They mean nothing where `tells` doesn't hold.
    ghost image: { Self → Image };

    /// Where bytes were written since the last good sync.
    ghost pending: { Self → Region };

    /// The time, as a number that doesn't fall.
    ghost clock: { Self → ℕ };

    /// What a stop since that time might have left, within a call or between two: the bytes of the disk and what was
    /// printed by then.
    ghost left_since: { Self → ℕ → Image → List ℕ → Type 0 };

    /// How often a call of the disk has failed. Only a failed call of the disk raises it.
    ghost disk_faults: { Self → ℕ };

    /// How often a print has failed. Only a failed print raises it.
    ghost print_faults: { Self → ℕ };

    /// Fills the piece with the bytes from `at` on, 0 past the end. At a failure the piece may hold anything.
    fn read(&mut self, at: u64, into: &mut [u8]) -> Result<(), Failed>
        ensures bytes { tells → OnOk result (into.new ≡ slice (image self.old) at (length into.old)) }
        ensures disk { Keeps (image self.old) (pending self.old) (image self.new) (pending self.new) }
        ensures printed { printed self.new ≡ printed self.old }
        ensures time { Elapses (clock self.old) (clock self.new) (left_since self.old) (left_since self.new)
            (During (image self.old) (pending self.old) no_place (printed self.old) []) }
        ensures cause { HasCause (disk_faults self.old) (disk_faults self.new) result }
        ensures printer { print_faults self.new ≡ print_faults self.old };

    /// Writes these bytes from `at` on. Until a good sync a stop may leave anything there, also where the call fails.
    fn write(&mut self, at: u64, bytes: &[u8]) -> Result<(), Failed>
        ensures written { tells → OnOk result (image self.new ≡ put (image self.old) at bytes.now) }
        ensures disk { Touches (image self.old) (pending self.old) at (length bytes.now)
            (image self.new) (pending self.new) }
        ensures printed { printed self.new ≡ printed self.old }
        ensures time { Elapses (clock self.old) (clock self.new) (left_since self.old) (left_since self.new)
            (During (image self.old) (pending self.old) (in_range at (length bytes.now)) (printed self.old) []) }
        ensures cause { HasCause (disk_faults self.old) (disk_faults self.new) result }
        ensures printer { print_faults self.new ≡ print_faults self.old };

    /// After it a stop leaves the bytes as they read. At a failure nothing is known to be on the disk that wasn't.
    fn sync(&mut self) -> Result<(), Failed>
        ensures durable { OnOk result (Quiet (pending self.new)) }
        ensures disk { Keeps (image self.old) (pending self.old) (image self.new) (pending self.new) }
        ensures printed { printed self.new ≡ printed self.old }
        ensures time { Elapses (clock self.old) (clock self.new) (left_since self.old) (left_since self.new)
            (During (image self.old) (pending self.old) no_place (printed self.old) []) }
        ensures cause { HasCause (disk_faults self.old) (disk_faults self.new) result }
        ensures printer { print_faults self.new ≡ print_faults self.old };

    /// Prints these bytes behind those from before. At a failure a part of them was printed, from their first
    /// byte on.
    fn print(&mut self, bytes: &[u8]) -> Result<(), Failed>
        ensures printed { tells → Prints (printed self.old) bytes.now (printed self.new) result }
        ensures disk { Keeps (image self.old) (pending self.old) (image self.new) (pending self.new) }
        ensures time { Elapses (clock self.old) (clock self.new) (left_since self.old) (left_since self.new)
            (During (image self.old) (pending self.old) no_place (printed self.old) bytes.now) }
        ensures cause { HasCause (print_faults self.old) (print_faults self.new) result }
        ensures disk_count { disk_faults self.new ≡ disk_faults self.old };

    /// What a stop now may leave is left since any earlier time.
    ghost counts_now: { (world : Self) (t : ℕ) (left : Image) → tells → t ≤ clock world
        → Agree (pending world) (image world) left → left_since world t left (printed world) };

    /// Since now nothing else is left.
    ghost only_now: { (world : Self) (left : Image) (told : List ℕ)
        → left_since world (clock world) left told
        → Agree (pending world) (image world) left × (told ≡ printed world) };
}

// A count of faults after one more, which stays at its last value.
pub(crate) fn count_fault(faults: u64) -> u64
    ensures counted { result ≡ counted faults }
    ensures later { faults ≤ result }
    ensures rose { Rose faults result }
{
    faults.saturating_add(1)
}
