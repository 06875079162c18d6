//! The pages of a tree above its leaves, and the numbers of page 0, compared.
ghost use Rattle.std.specs.Prelude.{◌≡◌, ◌<◌, ◌≤◌, true, OnOk};

use isp_format::{
    CHILD_PLACE, CONTENT_PLACE, NAME_BYTES, Page, PageNo, SPACE_PAGE, get_i64, get_u32,
    space_numbers,
};
use isp_levels::count_of;
use isp_page::{Pages, StoreFault};

/// An entry of a page above the leaves: a key, and the page that has the keys from there on.
pub(crate) type Entry = (i64, u32);

// Whether that one is the first of these.
fn is_entry(p: &Page, place: usize, entry: Option<&Entry>) -> bool
    requires inside { place < 336 }
{
    let at = CONTENT_PLACE + NAME_BYTES * place;
    match entry {
        Some((key, page)) => get_i64(p, at) == *key && get_u32(p, at + CHILD_PLACE) == *page,
        None => false,
    }
}

// Whether so many entries are these.
fn are_entries(p: &Page, count: usize, entries: &[Entry]) -> bool
    requires most { count ≤ 336 }
{
    for place in 0..count {
        if !is_entry(p, place, entries.get(place)) {
            return false;
        }
    }
    count == entries.len()
}

/// Whether a page stands so high above the leaves and has these entries and no others.
pub(crate) fn has_entries<P: Pages>(
    pages: &mut P,
    page: PageNo,
    level: u8,
    entries: &[Entry],
) -> Result<bool, StoreFault>
    requires usable { P.usable pages.old ≡ true }
    requires page { page.0 < (P.shape pages.old).pages }
    ensures usable { OnOk result (P.usable pages.new ≡ true) }
    ensures shape { OnOk result (P.shape pages.new ≡ P.shape pages.old) }
{
    let mut p = Page::zeros();
    pages.read(page, &mut p)?;
    match count_of(&p, page.0, level) {
        Some(count) => Ok(are_entries(&p, count, entries)),
        None => Ok(false),
    }
}

/// How many entries a page has that stands right above the leaves.
pub(crate) fn entries_of<P: Pages>(pages: &mut P, page: PageNo) -> Result<Option<usize>, StoreFault>
    requires usable { P.usable pages.old ≡ true }
    requires page { page.0 < (P.shape pages.old).pages }
    ensures usable { OnOk result (P.usable pages.new ≡ true) }
    ensures shape { OnOk result (P.shape pages.new ≡ P.shape pages.old) }
{
    let mut p = Page::zeros();
    pages.read(page, &mut p)?;
    Ok(count_of(&p, page.0, 1))
}

/// The first page never used, and how many bytes were put.
pub(crate) fn fresh_and_bytes<P: Pages>(pages: &mut P) -> Result<(u32, u64), StoreFault>
    requires usable { P.usable pages.old ≡ true }
    requires page { 0 < (P.shape pages.old).pages }
    ensures usable { OnOk result (P.usable pages.new ≡ true) }
    ensures shape { OnOk result (P.shape pages.new ≡ P.shape pages.old) }
{
    let mut p = Page::zeros();
    pages.read(PageNo(SPACE_PAGE), &mut p)?;
    let numbers = space_numbers(&p);
    Ok((numbers.fresh, numbers.bytes))
}
