//! Worked headers and fields, and pages in memory once through each call.
ghost use Rattle.std.specs.Prelude.{◌≡◌, false, OnOk};

use isp_format::{
    Head, PAGE_BYTES, Page, PageNo, get_i32, get_i64, get_u16, get_u32, get_u64, head, set_head,
};
use isp_page::{Fault, MemPages, Pages, StoreFault, replace};
use std::alloc::{AllocError, Global};
use std::test::Fail;

/// A page with these bytes at its end.
fn ending_with(bytes: &[u8; 8]) -> Page {
    let mut page = Page {
        bytes: [0; PAGE_BYTES],
    };
    page.bytes[4_088..].copy_from_slice(bytes);
    page
}

fn has_fields(page: &Page) -> bool {
    get_u16(page, 4_088) == 65_534
        && get_u32(page, 4_088) == 4_294_836_482
        && get_i32(page, 4_088) == -130_814
        && get_u64(page, 4_088) == 18_446_182_231_908_287_750
        && get_i64(page, 4_088) == -561_841_801_263_866
        && get_u16(page, 4_094) == 1_286
}

#[test]
fn fields_have_their_highest_byte_first(rt: HostRuntime) {
    let is_so = has_fields(&ending_with(&[255, 254, 1, 2, 3, 4, 5, 6]));
    assert!(rt; is_so);
}

const HEAD: Head = Head {
    kind: 6,
    level: 1,
    count: 258,
    owner: 65,
    next: PageNo(3),
    prev: PageNo(16_909_060),
    ssn: 72_623_859_790_382_856,
    own: PageNo(17),
    used: 96,
};

/// Its header, and the byte behind it.
const HEAD_BYTES: [u8; 33] = [
    6, 1, 1, 2, 0, 0, 0, 65, 0, 0, 0, 3, 1, 2, 3, 4, 1, 2, 3, 4, 5, 6, 7, 8, 0, 0, 0, 17, 0, 0, 0,
    96, 7,
];

fn takes_its_header(page: &mut Page) -> bool {
    set_head(page, &HEAD);
    &page.bytes[..33] == HEAD_BYTES.as_slice() && head(page) == HEAD
}

#[test]
fn a_header_has_its_bytes(rt: HostRuntime) {
    let mut page = Page {
        bytes: [7; PAGE_BYTES],
    };
    let is_so = takes_its_header(&mut page);
    assert!(rt; is_so);
}

/// Whether a page of an empty file has this kind and number, and no entry.
fn is_empty_page(store: &mut MemPages, number: u32, kind: u8, own: u32) -> bool {
    let mut page = Page {
        bytes: [9; PAGE_BYTES],
    };
    if number >= store.pages() || store.read(PageNo(number), &mut page).is_err() {
        return false;
    }
    let head = head(&page);
    head.kind == kind && head.own == PageNo(own) && head.next == PageNo(0) && head.used == 0
}

/// The number of a page, its kind, its own number.
const FIRST_PAGES: [(u32, u8, u32); 6] = [
    (0, 1, 0),
    (1, 2, 1),
    (2, 3, 2),
    (15, 3, 15),
    (16, 0, 0),
    (63, 0, 0),
];

fn is_empty_file(store: &mut MemPages) -> bool {
    let mut is_so = store.pages() == 64 && store.fanout() == 4;
    for (number, kind, own) in &FIRST_PAGES {
        if !is_empty_page(store, *number, *kind, *own) {
            is_so = false;
        }
    }
    is_so
}

#[test]
fn pages_in_memory_begin_as_an_empty_file(rt: HostRuntime) -> Result<(), Fail> {
    let mut store = MemPages::new(rt.alloc(), 64, 4, 0)?;
    let is_so = is_empty_file(&mut store);
    assert!(rt; is_so);
    Ok(())
}

/// Changes and exchanges page 63 in one mini-transaction, which is made durable.
fn change(store: &mut MemPages, new: &Page) -> Result<(), StoreFault>
    requires pages { store.old.shape.pages ≡ 64 }
    requires none { store.old.mini.is_begun ≡ false }
    ensures pages { store.new.shape.pages ≡ 64 }
    ensures none { OnOk result (store.new.mini.is_begun ≡ false) }
{
    let mut old = Page {
        bytes: [0; PAGE_BYTES],
    };
    store.begin();
    store.change(PageNo(63), 0, b"ab")?;
    store.change(PageNo(63), 1, b"cd")?;
    store.read(PageNo(63), &mut old)?;
    replace(store, PageNo(63), &old, new)?;
    replace(store, PageNo(63), new, new)?;
    store.finish()?;
    store.flush()
}

/// A page that begins with `acd` and ends with `yz`, 7 between.
fn exchanged() -> Page {
    let mut page = Page {
        bytes: [7; PAGE_BYTES],
    };
    page.bytes[..3].copy_from_slice(b"acd");
    page.bytes[4_094..].copy_from_slice(b"yz");
    page
}

fn keeps_the_page(store: &mut MemPages, new: &Page) -> Result<bool, StoreFault>
    requires pages { store.old.shape.pages ≡ 64 }
    requires none { store.old.mini.is_begun ≡ false }
{
    let mut page = Page {
        bytes: [9; PAGE_BYTES],
    };
    change(store, new)?;
    let cleaned = store.clean_some()?;
    store.read(PageNo(63), &mut page)?;
    Ok(cleaned == 0 && page == *new)
}

#[test]
fn a_page_in_memory_is_exchanged(rt: HostRuntime) -> Result<(), Fail> {
    let mut store = MemPages::new(rt.alloc(), 64, 4, 0)?;
    let is_so = keeps_the_page(&mut store, &exchanged())?;
    assert!(rt; is_so);
    Ok(())
}

/// Room for eight bytes: of the four behind the first five none is told.
fn tells(store: &mut MemPages) -> bool {
    let first = store.print(b"12345") == Ok(());
    let refused = store.print(b"6789") == Err(StoreFault::Print);
    let rest = store.print(b"678") == Ok(());
    first && refused && rest && store.printed() == b"12345678".as_slice()
}

#[test]
fn pages_in_memory_tell_what_has_room(rt: HostRuntime) -> Result<(), Fail> {
    let mut store = MemPages::new(rt.alloc(), 64, 4, 8)?;
    let is_so = tells(&mut store);
    assert!(rt; is_so);
    Ok(())
}

fn is_told(alloc: Global, fault: Fault, text: &str) -> Result<bool, AllocError> {
    let told = format!(in alloc; "{}", fault)?;
    Ok(told.as_str() == text)
}

#[test]
fn faults_are_told(rt: HostRuntime) -> Result<(), Fail> {
    let damaged = Fault::from(StoreFault::Damaged { page: 5, rule: 4 });
    let is_so = is_told(rt.alloc(), damaged, "page 5 breaks rule 4")?;
    assert!(rt; is_so);
    Ok(())
}
