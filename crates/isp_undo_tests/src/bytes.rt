//! Images as bytes.
ghost use Rattle.std.specs.Prelude.{◌≡◌, true, OnOk};
ghost use Rattle.isp_page.specs.State.{none_begun};
ghost use Rattle.isp_undo_pages.specs.Entries.{IsBuf};

use crate::acts::{image, push_one, take_one};
use crate::seen::{has_bytes, has_pages};
use isp_page::{Fault, MemPages, Pages, StoreFault};
use isp_undo::UndoBuf;
use std::alloc::Global;

// The row of key 5, POINT(5 5) with the number 4, and that of key 2, POINT(2 -3) with the number 1.
const FIVE: [u8; 19] = [0, 0, 0, 0, 0, 0, 0, 4, 0, 9, 1, 0, 0, 0, 5, 0, 0, 0, 5];

const TWO: [u8; 19] = [
    0, 0, 0, 0, 0, 0, 0, 1, 0, 9, 1, 0, 0, 0, 2, 255, 255, 255, 253,
];

// The image of a row of 19 bytes.
fn row_image(key: i64, row: &[u8; 19]) -> UndoBuf
    ensures { IsBuf result }
{
    let mut bytes = [0; 1_000];
    bytes[..19].copy_from_slice(row);
    UndoBuf {
        table: 1,
        key,
        kind: 1,
        len: 19,
        bytes,
    }
}

// Key 1 of table 1, absent, in slot 1: one entry of 17 bytes, and both ends of the slot's chain.
const ONE: [u8; 17] = [0, 0, 0, 1, 0, 0, 0, 0, 0, 0, 0, 1, 0, 0, 0, 0, 17];

const ENDS: [u8; 8] = [0, 0, 0, 17, 0, 0, 0, 17];

fn one_entry<P: Pages>(pages: &mut P) -> Result<bool, StoreFault>
    requires usable { P.usable pages.old ≡ true }
    requires none { P.mini pages.old ≡ none_begun }
{
    take_one(pages)?;
    push_one(pages, 1, &image(1, 0))?;
    let used = has_pages(pages, &[(17, 81)])?;
    let entry = has_bytes(pages, 17, 64, &ONE)?;
    let ends = has_bytes(pages, 1, 72, &ENDS)?;
    Ok(used && entry && ends)
}

// Two rows and a key without one.
const THREE: [u8; 89] = [
    0, 0, 0, 1, 0, 0, 0, 0, 0, 0, 0, 5, 1, 0, 19, 0, 0, 0, 0, 0, 0, 0, 4, 0, 9, 1, 0, 0, 0, 5, 0,
    0, 0, 5, 0, 36, 0, 0, 0, 1, 0, 0, 0, 0, 0, 0, 0, 2, 1, 0, 19, 0, 0, 0, 0, 0, 0, 0, 1, 0, 9, 1,
    0, 0, 0, 2, 255, 255, 255, 253, 0, 36, 0, 0, 0, 1, 0, 0, 0, 0, 0, 0, 0, 6, 0, 0, 0, 0, 17,
];

fn three_entries<P: Pages>(pages: &mut P) -> Result<bool, StoreFault>
    requires usable { P.usable pages.old ≡ true }
    requires none { P.mini pages.old ≡ none_begun }
{
    take_one(pages)?;
    push_one(pages, 1, &row_image(5, &FIVE))?;
    push_one(pages, 1, &row_image(2, &TWO))?;
    push_one(pages, 1, &image(6, 0))?;
    let used = has_pages(pages, &[(17, 153)])?;
    let entries = has_bytes(pages, 17, 64, &THREE)?;
    Ok(used && entries)
}

fn is_one(alloc: Global) -> Result<bool, Fault> {
    let mut pages = MemPages::new(alloc, 128, 4, 0)?;
    let is = one_entry(&mut pages)?;
    Ok(is)
}

fn is_three(alloc: Global) -> Result<bool, Fault> {
    let mut pages = MemPages::new(alloc, 128, 4, 0)?;
    let is = three_entries(&mut pages)?;
    Ok(is)
}

#[test]
fn one_entry_is_spelled(rt: HostRuntime) {
    assert!(rt; is_one(rt.alloc()) == Ok(true));
}

#[test]
fn rows_are_spelled(rt: HostRuntime) {
    assert!(rt; is_three(rt.alloc()) == Ok(true));
}
