//! The list of copies in the doublewrite area.
ghost use Rattle.std.specs.Prelude.{◌≡◌, ◌+◌, ◌*◌, ◌<◌, ℕ, length, slice_index};
ghost use Rattle.isp_format.specs.Doublewrite.{most_copies};
ghost use Rattle.isp_format.specs.Header.{number_in};

use crate::sizes::LIST_BYTES;
use byteorder::{BigEndian, ByteOrder};

/// Fills `numbers` with the page numbers of all copies, from the bytes of their number and of the list, and answers how
/// many of them count.
pub fn copy_numbers(list: &[u8; LIST_BYTES], numbers: &mut [u32]) -> u32
    requires all { length numbers.old ≡ most_copies }
    ensures count { result ≡ number_in 4 list.now 0 }
    ensures all { length numbers.new ≡ most_copies }
    ensures numbers { (k : ℕ) → k < most_copies
        → slice_index numbers.new k ≡ number_in 4 list.now (4 + 4 * k) }
{
    BigEndian::read_u32_into(&list[4..], numbers);
    BigEndian::read_u32(list)
}
