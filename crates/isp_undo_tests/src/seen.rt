//! What stands in the pages, compared.
ghost use Rattle.std.specs.Prelude.{◌≡◌, ◌<◌, ◌≤◌, ◌+◌, true, length, OnOk};
ghost use Rattle.isp_format.specs.Undo.{undo_slots};

use crate::acts::image;
use isp_format::{PAGE_BYTES, Page, PageNo, head, space_numbers};
use isp_page::{Pages, StoreFault};
use isp_undo::{UndoBuf, is_begun, last};
use isp_undo_pages::slot_in;

/// A chain's page and where its entries end.
pub(crate) type Used = (u32, u32);

// Whether these bytes stand on the page from that place on.
fn stand(p: &Page, at: usize, bytes: &[u8]) -> bool {
    if at > PAGE_BYTES || bytes.len() > PAGE_BYTES - at {
        return false;
    }
    let there = &p.bytes[at..at + bytes.len()];
    there == bytes
}

/// Whether these bytes stand on a page of the file from that place on.
pub(crate) fn has_bytes<P: Pages>(
    pages: &mut P,
    page: u32,
    at: usize,
    bytes: &[u8],
) -> Result<bool, StoreFault>
    requires usable { P.usable pages.old ≡ true }
    ensures usable { OnOk result (P.usable pages.new ≡ true) }
    ensures mini { OnOk result (P.mini pages.new ≡ P.mini pages.old) }
    ensures shape { OnOk result (P.shape pages.new ≡ P.shape pages.old) }
{
    if page >= pages.pages() {
        return Ok(false);
    }
    let mut p = Page::zeros();
    pages.read(PageNo(page), &mut p)?;
    Ok(stand(&p, at, bytes))
}

// The next page of a page of the file, and where what it holds ends.
fn next_and_used<P: Pages>(pages: &mut P, page: u32) -> Result<Used, StoreFault>
    requires usable { P.usable pages.old ≡ true }
    ensures usable { OnOk result (P.usable pages.new ≡ true) }
    ensures mini { OnOk result (P.mini pages.new ≡ P.mini pages.old) }
    ensures shape { OnOk result (P.shape pages.new ≡ P.shape pages.old) }
{
    if page >= pages.pages() {
        return Ok((0, 0));
    }
    let mut p = Page::zeros();
    pages.read(PageNo(page), &mut p)?;
    let h = head(&p);
    Ok((h.next.0, h.used))
}

// The first of these pages, 0 for none.
fn first_of(chain: &[Used]) -> u32 {
    match chain.first() {
        Some(page) => page.0,
        None => 0,
    }
}

/// Whether these pages are linked one to the next, end at these places, and the last one has none behind it.
pub(crate) fn has_pages<P: Pages>(pages: &mut P, chain: &[Used]) -> Result<bool, StoreFault>
    requires usable { P.usable pages.old ≡ true }
    ensures usable { OnOk result (P.usable pages.new ≡ true) }
    ensures mini { OnOk result (P.mini pages.new ≡ P.mini pages.old) }
    ensures shape { OnOk result (P.shape pages.new ≡ P.shape pages.old) }
{
    let mut expected = first_of(chain);
    for page in chain {
        let (next, used) = next_and_used(pages, page.0)?;
        if page.0 != expected || used != page.1 {
            return Ok(false);
        }
        expected = next;
    }
    Ok(expected == 0)
}

/// Whether these are the pages of the free chain, in its order.
pub(crate) fn has_free<P: Pages>(pages: &mut P, chain: &[u32]) -> Result<bool, StoreFault>
    requires usable { P.usable pages.old ≡ true }
    ensures usable { OnOk result (P.usable pages.new ≡ true) }
    ensures mini { OnOk result (P.mini pages.new ≡ P.mini pages.old) }
    ensures shape { OnOk result (P.shape pages.new ≡ P.shape pages.old) }
{
    let _count = pages.pages();
    let mut p = Page::zeros();
    pages.read(PageNo(0), &mut p)?;
    let numbers = space_numbers(&p);
    let mut expected = numbers.free_head;
    for page in chain {
        let (next, _used) = next_and_used(pages, *page)?;
        if *page != expected {
            return Ok(false);
        }
        expected = next;
    }
    Ok(expected == 0 && numbers.free_count as usize == chain.len())
}

// Whether the image is that of a key with so many bytes.
fn is_image(buf: &UndoBuf, key: i64, len: u16) -> bool {
    if len > 1_000 || buf.len != len {
        return false;
    }
    let expected = image(key, len);
    if buf.table != expected.table || buf.key != key || buf.kind != expected.kind {
        return false;
    }
    let got = &buf.bytes[..usize::from(len)];
    let row = &expected.bytes[..usize::from(len)];
    got == row
}

/// Whether the newest image of the slot is this one, and there is none where it is none; and whether the slot has a chain.
pub(crate) fn has_last<P: Pages>(
    pages: &mut P,
    slot: u32,
    newest: Option<(i64, u16)>,
    begun: bool,
) -> Result<bool, StoreFault>
    requires usable { P.usable pages.old ≡ true }
    requires slot { slot < undo_slots }
    ensures usable { OnOk result (P.usable pages.new ≡ true) }
    ensures mini { OnOk result (P.mini pages.new ≡ P.mini pages.old) }
    ensures shape { OnOk result (P.shape pages.new ≡ P.shape pages.old) }
{
    let mut buf = image(0, 0);
    let there = last(pages, slot, &mut buf)?;
    let is_begun = is_begun(pages, slot)?;
    let same = match newest {
        Some((key, len)) => there && is_image(&buf, key, len),
        None => !there,
    };
    Ok(same && is_begun == begun)
}

/// How many pages the chain of a slot has.
pub(crate) fn count_of_slot<P: Pages>(pages: &mut P, slot: u32) -> Result<u32, StoreFault>
    requires usable { P.usable pages.old ≡ true }
    requires slot { slot < undo_slots }
    ensures usable { OnOk result (P.usable pages.new ≡ true) }
    ensures mini { OnOk result (P.mini pages.new ≡ P.mini pages.old) }
    ensures shape { OnOk result (P.shape pages.new ≡ P.shape pages.old) }
{
    let _count = pages.pages();
    let mut p = Page::zeros();
    pages.read(PageNo(1), &mut p)?;
    let mut at = slot_in(&p, slot).first.0;
    for count in 0..128 {
        if at == 0 {
            return Ok(count);
        }
        let (next, _used) = next_and_used(pages, at)?;
        at = next;
    }
    Ok(128)
}
