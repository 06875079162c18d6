//! Where a page and a copy lie in the file.
ghost use Rattle.std.specs.Prelude.{◌≡◌, ◌+◌, ◌*◌, ◌<◌};
ghost use Rattle.isp_format.specs.Doublewrite.{copies_place, list_place, most_copies, page_place};
ghost use Rattle.isp_format.specs.Ranges.{page_bytes};

use crate::sizes::{AREA_PLACE, COPIES_PLACE, LIST_PLACE, PAGE_BYTES};

/// The place of a page.
pub fn page_place(number: u32) -> u64
    ensures { result ≡ page_place number }
{
    AREA_PLACE + number as u64 * PAGE_BYTES as u64
}

/// The place of a copy.
pub fn copy_place(k: usize) -> u64
    requires { k < most_copies }
    ensures { result ≡ copies_place + page_bytes * k }
{
    COPIES_PLACE + PAGE_BYTES as u64 * k as u64
}

/// The place of a copy's page number.
pub fn number_place(k: usize) -> u64
    requires { k < most_copies }
    ensures { result ≡ list_place + 4 * k }
{
    LIST_PLACE + 4 * k as u64
}
