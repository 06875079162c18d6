//! The list of copies, as it is read, and its rule.
ghost use Rattle.std.specs.Prelude.{◌≡◌, ◌↔◌, ◌≤◌, ◌==◌, IsTrue, IfOk, OnOk, length, min, take};
ghost use Rattle.isp_disk.specs.Moments.{Quiet};
ghost use Rattle.isp_disk.specs.Phases.{OnlyReads};
ghost use Rattle.isp_doublewrite.specs.Lists.{IsNumbers, are_good, is_copy_list};
ghost use Rattle.isp_format.specs.Doublewrite.{HasCopies, copy_count, doublewrite_gate, most_copies};

use isp_disk::{Failed, World};
use isp_format::{COUNT_PLACE, DOUBLEWRITE_GATE, LIST_BYTES, MOST_COPIES, copy_numbers};

/// Whether the copies keep their rule: where the gate is 1, the list has 1 to 64 numbers, each below `pages` and none
/// twice. Nothing is written.
pub fn check_copies<W: World>(world: &mut W, pages: u32) -> Result<bool, Failed>
    requires { Quiet (W.pending world.old) }
    ensures kept { W.tells
        → IfOk result (λ kept. IsTrue kept ↔ HasCopies pages (W.image world.old)) }
    ensures reads { OnlyReads W.World world.old world.new result }
{
    if read_gate(world)? != 1 {
        return Ok(true);
    }
    let mut numbers = [0; MOST_COPIES];
    let count = read_list(world, &mut numbers)?;
    Ok(is_copy_list(count, &numbers, pages))
}

/// Reads the gate.
pub(crate) fn read_gate<W: World>(world: &mut W) -> Result<u8, Failed>
    requires { Quiet (W.pending world.old) }
    ensures gate { W.tells → IfOk result (λ gate. gate ≡ W.image world.old doublewrite_gate) }
    ensures reads { OnlyReads W.World world.old world.new result }
{
    let mut gate = [0];
    world.read(DOUBLEWRITE_GATE, &mut gate)?;
    Ok(gate[0])
}

/// Reads the page numbers of the 64 copies, and answers how many of them count.
pub(crate) fn read_list<W: World>(world: &mut W, numbers: &mut [u32]) -> Result<u32, Failed>
    requires quiet { Quiet (W.pending world.old) }
    requires all { length numbers.old ≡ most_copies }
    ensures count { W.tells → IfOk result (λ count. count ≡ copy_count (W.image world.old)) }
    ensures numbers { W.tells → OnOk result (IsNumbers (W.image world.old) numbers.new) }
    ensures reads { OnlyReads W.World world.old world.new result }
{
    let mut list = [0; LIST_BYTES];
    world.read(COUNT_PLACE, &mut list)?;
    Ok(copy_numbers(&list, numbers))
}

/// Whether so many of the numbers are a list of copies.
pub(crate) fn is_copy_list(count: u32, numbers: &[u32], pages: u32) -> bool
    requires { length numbers.now ≡ most_copies }
    ensures { result ≡ is_copy_list pages count (take (min count most_copies) numbers.now) }
{
    if count == 0 || count as usize > MOST_COPIES {
        return false;
    }
    are_good(&numbers[..count as usize], pages)
}

// Whether the numbers are below the number of pages, and none stands twice.
fn are_good(numbers: &[u32], pages: u32) -> bool
    ensures { result ≡ are_good pages numbers.now }
{
    let mut rest = numbers;
    while let [first, others @ ..] = rest {
        if *first >= pages || others.contains(first) {
            return false;
        }
        rest = others;
    }
    true
}
