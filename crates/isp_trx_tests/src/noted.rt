//! Undo chains, free pages, and old rows put back, from the bytes of pages.
ghost use Rattle.std.specs.Prelude.{◌<◌, OnOk};
ghost use Rattle.isp_format.specs.Undo.{undo_slots};
ghost use Rattle.isp_trx_tests.specs.Ready.{IsReady};

use crate::seen::{Row, Rows, row_of, set_row};
use isp_format::{CONTENT_PLACE, PAGE_BYTES, Page, PageNo, get_u16, get_u64, head, space_numbers};
use isp_page::{Pages, StoreFault};
use isp_undo_pages::slot_in;

/// The first pages of a file.
pub(crate) type File = [Page; 24];

/// A page of a chain, and where its entries end.
pub(crate) type Used = (u32, u32);

/// Reads the first pages.
pub(crate) fn read_file<P: Pages>(pages: &mut P) -> Result<File, StoreFault>
    requires { IsReady P.Pages pages.old }
    ensures { OnOk result (IsReady P.Pages pages.new) }
{
    let mut page = Page::zeros();
    let mut file = [page; 24];
    for number in 0..24_u8 {
        pages.read(PageNo(u32::from(number)), &mut page)?;
        file[usize::from(number)] = page;
    }
    Ok(file)
}

// A page of them, an empty one where it isn't among them.
fn page_of(file: &File, page: u32) -> Page {
    file.get(page as usize).copied().unwrap_or(Page::zeros())
}

/// Whether these are the pages of the chain of a slot, linked both ways.
pub(crate) fn has_chain(file: &File, slot: u32, chain: &[Used]) -> bool
    requires { slot < undo_slots }
{
    let ends = slot_in(&page_of(file, 1), slot);
    let mut next = ends.first.0;
    let mut before = 0;
    for page in chain {
        let h = head(&page_of(file, page.0));
        if page.0 != next || h.used != page.1 || h.prev.0 != before {
            return false;
        }
        next = h.next.0;
        before = page.0;
    }
    next == 0 && ends.last.0 == before
}

/// Whether these are the pages of the free chain, in its order.
pub(crate) fn has_free(file: &File, chain: &[u32]) -> bool {
    let numbers = space_numbers(&page_of(file, 0));
    let mut next = numbers.free_head;
    for page in chain {
        if *page != next {
            return false;
        }
        next = head(&page_of(file, *page)).next.0;
    }
    next == 0 && numbers.free_count as usize == chain.len()
}

// The row of an entry, without a mark: an entry is its table, its key, its kind, the row with its length, and its own length.
fn old_row(entry: &[u8]) -> Option<Row> {
    if entry.len() < 17 || entry[12] != 1 {
        return None;
    }
    Some(row_of(&entry[15..entry.len() - 2]))
}

// Puts the row of the entry back that ends there; where the entry begins, 0 where there is none.
fn put_one(p: &Page, end: usize, rows: &mut Rows) -> usize {
    if end < CONTENT_PLACE + 17 || end > PAGE_BYTES {
        return 0;
    }
    let size = usize::from(get_u16(p, end - 2));
    if size < 17 || size > end - CONTENT_PLACE {
        return 0;
    }
    let from = end - size;
    let key = get_u64(p, from + 4);
    set_row(rows, key as usize, old_row(&p.bytes[from..end]));
    from
}

// Puts the rows of a page back, the newest first; how many there are.
fn put_page(p: &Page, rows: &mut Rows) -> usize {
    let mut end = head(p).used as usize;
    for count in 0..238_usize {
        if end <= CONTENT_PLACE {
            return count;
        }
        end = put_one(p, end, rows);
    }
    0
}

/// Puts the old rows of a slot back, the newest first; how many there are.
pub(crate) fn put_back(file: &File, slot: u32, rows: &mut Rows) -> usize
    requires { slot < undo_slots }
{
    let mut page = slot_in(&page_of(file, 1), slot).last.0;
    let mut count = 0_usize;
    for _ in 0..24 {
        if page == 0 {
            break;
        }
        let p = page_of(file, page);
        count = count.saturating_add(put_page(&p, rows));
        page = head(&p).prev.0;
    }
    count
}
