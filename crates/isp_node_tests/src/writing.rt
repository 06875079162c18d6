//! Pages of entries, written and read back, and pages that can't be read.
use crate::making::{are_children, are_rows, page_of};
use isp_forest::{Entry, To};
use isp_format::{Head, Page, PageNo, head};
use isp_mbr::Box4;
use isp_rnode::{entries, entry, entry_count, readable, set_entries};
use std::alloc::{AllocError, Global};
use std::test::Fail;

/// How many entries a page holds at most.
const MOST: u8 = 120;

/// Where that many entries end.
const END: usize = 3_904;

/// The bytes of the second entry of a leaf, and of an inner page.
static ROW: [u8; 32] = [
    255, 255, 255, 254, 255, 255, 255, 253, 0, 0, 0, 1, 0, 0, 0, 3, 255, 255, 255, 255, 255, 255,
    255, 253, 0, 0, 1, 0, 0, 0, 0, 1,
];

static CHILD: [u8; 32] = [
    255, 255, 255, 254, 255, 255, 255, 253, 0, 0, 0, 1, 0, 0, 0, 3, 0, 0, 255, 254, 0, 0, 0, 0, 0,
    0, 0, 0, 0, 0, 0, 0,
];

// The box of that entry: it has numbers on both sides of 0.
fn box_of(place: u8) -> Option<Box4> {
    let i = i32::from(place);
    Box4::new(-1 - i, -2 - i, i, 2 * i + 1)
}

// So many entries of a leaf.
fn rows(alloc: Global) -> Result<Vec<Entry>, AllocError> {
    let mut rows = Vec::new(alloc);
    for place in 0..MOST {
        if let Some(b) = box_of(place) {
            let to = To::Row {
                key: -2 - i64::from(place),
                number: 1_099_511_627_776 + u64::from(place),
            };
            rows.push(Entry { b, to })?;
        }
    }
    Ok(rows)
}

// So many entries of an inner page.
fn children(alloc: Global) -> Result<Vec<Entry>, AllocError> {
    let mut children = Vec::new(alloc);
    for place in 0..MOST {
        if let Some(b) = box_of(place) {
            let to = To::Child(PageNo(65_535 - u32::from(place)));
            children.push(Entry { b, to })?;
        }
    }
    Ok(children)
}

// Whether the page has these entries, read at once and one by one, and its header the other fields that it had.
fn has_entries(alloc: Global, p: &Page, list: &[Entry]) -> Result<bool, AllocError> {
    if !readable(p) || entry_count(p) != list.len() {
        return Ok(false);
    }
    let all = entries(alloc, p)?;
    if all.as_slice() != list {
        return Ok(false);
    }
    for i in 0..list.len() {
        if entry(p, i) != list[i] {
            return Ok(false);
        }
    }
    Ok(true)
}

// Whether the header has this level and 120 entries, and its other fields as they were.
fn has_head(p: &Page, level: u8) -> bool {
    let wanted = Head {
        kind: 6,
        level,
        count: 120,
        owner: 65,
        next: PageNo(20),
        prev: PageNo(0),
        ssn: 9,
        own: PageNo(19),
        used: 3_904,
    };
    head(p) == wanted
}

// Whether the free bytes of the header and those behind the last entry are as they were.
fn is_free_kept(p: &Page) -> bool {
    p.bytes[32..64].iter().all(|b| *b == 7) && p.bytes[END..].iter().all(|b| *b == 7)
}

fn are_rows_written(alloc: Global) -> Result<bool, AllocError> {
    let list = rows(alloc)?;
    let mut p = page_of(0);
    if list.len() != usize::from(MOST) || !are_rows(&list) {
        return Ok(false);
    }
    set_entries(&mut p, &list);
    let has = has_entries(alloc, &p, &list)?;
    Ok(has && has_head(&p, 0) && is_free_kept(&p) && &p.bytes[96..128] == ROW.as_slice())
}

fn are_children_written(alloc: Global) -> Result<bool, AllocError> {
    let list = children(alloc)?;
    let mut p = page_of(1);
    if list.len() != usize::from(MOST) || !are_children(&list) {
        return Ok(false);
    }
    set_entries(&mut p, &list);
    let has = has_entries(alloc, &p, &list)?;
    Ok(has && has_head(&p, 1) && is_free_kept(&p) && &p.bytes[96..128] == CHILD.as_slice())
}

#[test]
fn rows_are_written(rt: HostRuntime) -> Result<(), Fail> {
    let written = are_rows_written(rt.alloc())?;
    assert!(rt; written);
    Ok(())
}

#[test]
fn children_are_written(rt: HostRuntime) -> Result<(), Fail> {
    let written = are_children_written(rt.alloc())?;
    assert!(rt; written);
    Ok(())
}

/// A byte of a page of 120 rows that makes it one that can't be read.
static SPOILT: [(usize, u8); 4] = [
    // another kind
    (0, 5),
    // 121 entries
    (3, 121),
    // the first corner past the second one, by x in the first entry and by y in the last
    (72, 128),
    (3_876, 127),
];

fn are_refused(alloc: Global) -> Result<bool, AllocError> {
    let list = rows(alloc)?;
    let mut p = page_of(0);
    if list.len() != usize::from(MOST) || !are_rows(&list) {
        return Ok(false);
    }
    set_entries(&mut p, &list);
    for (place, byte) in SPOILT {
        let was = p.bytes[place];
        p.bytes[place] = byte;
        if readable(&p) {
            return Ok(false);
        }
        p.bytes[place] = was;
    }
    Ok(readable(&p))
}

#[test]
fn spoilt_pages_are_not_readable(rt: HostRuntime) -> Result<(), Fail> {
    let refused = are_refused(rt.alloc())?;
    assert!(rt; refused);
    Ok(())
}
