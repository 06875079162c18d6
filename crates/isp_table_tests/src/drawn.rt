//! Some hundreds of acts under drawn keys, beside the rows that there are then.
ghost use Rattle.std.specs.Prelude.{◌≡◌, ◌<◌, ◌≤◌, true, OnOk};
ghost use Rattle.isp_page.specs.State.{none_begun};

use crate::acts::{Act, do_one, make};
use crate::scans::scan;
use crate::seen::{Seen, finds, seen};
use isp_format::PageNo;
use isp_page::{Fault, MemPages, Pages, StoreFault};
use std::alloc::Global;

/// From how many keys one is drawn.
const KEYS: usize = 256;

/// A row or none for each of the keys, which rise.
type Rows = [Option<Seen>; KEYS];

/// A number below `end` for this place, as SplitMix draws them (Steele, Lea and Flood 2014).
fn drawn(at: u32, place: u32, end: u64) -> u64
    requires { 0 < end }
    ensures { result < end }
{
    let seed = u64::from(at)
        .wrapping_mul(16)
        .wrapping_add(u64::from(place));
    let first = seed.wrapping_mul(0x9E37_79B9_7F4A_7C15);
    let second = (first ^ first >> 30).wrapping_mul(0xBF58_476D_1CE4_E5B9);
    let third = (second ^ second >> 27).wrapping_mul(0x94D0_49BB_1331_11EB);
    (third >> 32) % end
}

// The key with that number. Number 0 has the least key of 64 bits.
fn key_of(number: u8) -> i64 {
    if number == 0 {
        i64::MIN
    } else {
        (i64::from(number) - 100) * 3
    }
}

// An act on a row that is there: it is rewritten, with a mark or without, put into a larger slot, marked, or dropped.
fn act_on(row: Seen, kind: u64, len: u16) -> Act {
    if len > row.slot {
        Act::Put(row.key, len)
    } else if kind == 0 {
        Act::Rewrite(row.key, len, true)
    } else if kind < 3 {
        Act::Rewrite(row.key, len, false)
    } else if row.marked {
        Act::Drop(row.key)
    } else {
        Act::Mark(row.key)
    }
}

// The act at that place of the run, on a key whose row is this one.
fn drawn_act(at: u32, key: i64, row: Option<Seen>) -> Act {
    let len = drawn(at, 1, 1_001) as u16;
    match row {
        Some(row) => act_on(row, drawn(at, 2, 6), len),
        None => Act::Put(key, len),
    }
}

// What is there after an act on a key whose row was this one.
fn row_after(row: Option<Seen>, act: Act) -> Option<Seen> {
    match (act, row) {
        (Act::Put(key, len), _) => Some(seen!(key, len)),
        (Act::Rewrite(key, len, marked), Some(was)) => Some(Seen {
            key,
            len,
            marked,
            slot: was.slot,
        }),
        (Act::Mark(_), Some(was)) => Some(Seen {
            marked: true,
            ..was
        }),
        _ => None,
    }
}

// Does the act at that place of the run.
fn do_next<P: Pages>(
    pages: &mut P,
    root: PageNo,
    rows: &mut Rows,
    at: u32,
) -> Result<(), StoreFault>
    requires usable { P.usable pages.old ≡ true }
    requires none { P.mini pages.old ≡ none_begun }
    requires page { root.0 < (P.shape pages.old).pages }
    ensures usable { OnOk result (P.usable pages.new ≡ true) }
    ensures none { OnOk result (P.mini pages.new ≡ none_begun) }
    ensures shape { OnOk result (P.shape pages.new ≡ P.shape pages.old) }
{
    let number = drawn(at, 0, 256) as u8;
    let row = rows[number as usize];
    let act = drawn_act(at, key_of(number), row);
    do_one(pages, root, act)?;
    rows[number as usize] = row_after(row, act);
    Ok(())
}

// Does so many acts.
fn do_drawn<P: Pages>(
    pages: &mut P,
    root: PageNo,
    rows: &mut Rows,
    count: u32,
) -> Result<(), StoreFault>
    requires usable { P.usable pages.old ≡ true }
    requires none { P.mini pages.old ≡ none_begun }
    requires page { root.0 < (P.shape pages.old).pages }
    ensures usable { OnOk result (P.usable pages.new ≡ true) }
    ensures shape { OnOk result (P.shape pages.new ≡ P.shape pages.old) }
{
    for at in 0..count {
        do_next(pages, root, rows, at)?;
    }
    Ok(())
}

// Whether each key is found with its row, or isn't there.
fn finds_each<P: Pages>(
    alloc: Global,
    pages: &mut P,
    root: PageNo,
    rows: &Rows,
) -> Result<bool, Fault>
    requires usable { P.usable pages.old ≡ true }
    requires page { root.0 < (P.shape pages.old).pages }
    ensures usable { OnOk result (P.usable pages.new ≡ true) }
    ensures shape { OnOk result (P.shape pages.new ≡ P.shape pages.old) }
{
    for number in 0..=255_u8 {
        let found = finds(alloc, pages, root, key_of(number), rows[number as usize])?;
        if !found {
            return Ok(false);
        }
    }
    Ok(true)
}

// The rows that there are, one behind the other, and how many.
fn listed(rows: &Rows) -> ([Seen; KEYS], usize) {
    let mut list = [seen!(0, 0); KEYS];
    let mut count = 0_usize;
    for row in rows {
        if let Some(seen) = row {
            if count < KEYS {
                list[count] = *seen;
                count += 1;
            }
        }
    }
    (list, count)
}

// Whether a scan has these rows, on more leaves than a lone one.
fn is_scanned<P: Pages>(
    alloc: Global,
    pages: &mut P,
    root: PageNo,
    rows: &Rows,
) -> Result<bool, Fault>
    requires usable { P.usable pages.old ≡ true }
    requires page { root.0 < (P.shape pages.old).pages }
{
    let (list, count) = listed(rows);
    match list.get(..count) {
        Some(all) => {
            let scanned = scan(alloc, pages, root, all)?;
            Ok(scanned.is_some_and(|scanned| scanned.leaves > 30) && count > 100)
        }
        None => Ok(false),
    }
}

fn is_so<P: Pages>(alloc: Global, pages: &mut P, count: u32) -> Result<bool, Fault>
    requires usable { P.usable pages.old ≡ true }
    requires none { P.mini pages.old ≡ none_begun }
{
    let mut rows = [None; KEYS];
    let root = make(pages)?;
    do_drawn(pages, root, &mut rows, count)?;
    let found = finds_each(alloc, pages, root, &rows)?;
    let scanned = is_scanned(alloc, pages, root, &rows)?;
    Ok(found && scanned)
}

fn is_drawn(alloc: Global) -> Result<bool, Fault> {
    let mut pages = MemPages::new(alloc, 256, 4, 0)?;
    let so = is_so(alloc, &mut pages, 800)?;
    Ok(so)
}

#[test]
fn drawn_acts_leave_their_rows(rt: HostRuntime) {
    assert!(rt; is_drawn(rt.alloc()) == Ok(true));
}
