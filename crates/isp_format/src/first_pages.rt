//! The pages that every file has, as they are in an empty one.
ghost use Rattle.std.specs.Prelude.{◌≡◌, ◌+◌, ◌*◌, ◌<◌, ℕ, length};
ghost use Rattle.isp_disk.specs.Moments.{image_of};
ghost use Rattle.isp_format.specs.Empty.{empty_contents, first_fresh, first_header, first_kind};
ghost use Rattle.isp_format.specs.HeadValues.{header_in};
ghost use Rattle.isp_format.specs.Ranges.{page_bytes};

use crate::header::Head;
use crate::heads::set_head;
use crate::kinds::{CATALOGUE_KIND, SPACE_KIND, UNDO_DIRECTORY_KIND};
use crate::numbers::put_u32;
use crate::page::Page;
use crate::sizes::{FIRST_FRESH, FRESH_PLACE};
use isp_base::PageNo;

/// One of the pages that every file has.
pub fn first_page(number: u32) -> Page
    requires { number < first_fresh }
    ensures bytes { (place : ℕ) → place < page_bytes
        → image_of result.bytes place ≡ empty_contents (number * page_bytes + place) }
    ensures size { length result.bytes ≡ page_bytes }
{
    let mut page = Page::zeros();
    set_head(&mut page, &first_head(number));
    if number != 0 {
        return page;
    }
    put_u32(&mut page, FRESH_PLACE, FIRST_FRESH);
    page
}

// The kind of one of these pages.
fn first_kind(number: u32) -> u8
    ensures { result ≡ first_kind number }
{
    match number {
        0 => SPACE_KIND,
        1 => UNDO_DIRECTORY_KIND,
        _ => CATALOGUE_KIND,
    }
}

// The header of one of these pages.
fn first_head(number: u32) -> Head
    ensures { header_in result ≡ first_header number }
{
    Head {
        kind: first_kind(number),
        level: 0,
        count: 0,
        owner: 0,
        next: PageNo(0),
        prev: PageNo(0),
        ssn: 0,
        own: PageNo(number),
        used: 0,
    }
}
