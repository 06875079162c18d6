//! The boxes of entries.
ghost use Rattle.std.specs.Prelude.{◌≡◌, ◌<◌, ◌==◌, ◌∷◌, [], length, map, IfOk};
ghost use Rattle.isp_forest.specs.Steps.{names, reboxed, widened};
ghost use Rattle.isp_forest.specs.Tree.{child_in, least};
ghost use Rattle.isp_laws.specs.DivisionLaws.{boxes_of, picked};

use isp_base::PageNo;
use isp_forest::{Entry, To};
use isp_mbr::{Box4, union};
use std::alloc::{AllocError, Global};

/// Gives the entry that names a page this box.
pub(crate) fn rebox(entries: &mut Vec<Entry>, child: PageNo, b: &Box4)
    ensures { entries.new.items ≡ map (reboxed child.0 b.now) entries.old.items }
{
    for e in entries.iter_mut() {
        *e = reboxed(*e, child, b);
    }
}

// The entry with this box, if it names that page.
fn reboxed(e: Entry, child: PageNo, b: &Box4) -> Entry
    ensures { result ≡ reboxed child.0 b.now e }
{
    if leads_to(e.to, child) {
        Entry { b: *b, to: e.to }
    } else {
        e
    }
}

/// Lets the entry that names a page grow round the box.
pub fn widen(entries: &mut Vec<Entry>, child: PageNo, b: &Box4)
    ensures { entries.new.items ≡ map (widened (child.0 ∷ []) b.now) entries.old.items }
{
    for e in entries.iter_mut() {
        *e = widened(*e, child, b);
    }
}

// The entry grown round the box, if it names that page.
fn widened(e: Entry, child: PageNo, b: &Box4) -> Entry
    ensures { result ≡ widened (child.0 ∷ []) b.now e }
{
    if leads_to(e.to, child) {
        Entry {
            b: union(&e.b, b),
            to: e.to,
        }
    } else {
        e
    }
}

// Whether an entry names that page.
fn leads_to(to: To, child: PageNo) -> bool
    ensures { result ≡ names (λ q. q == child.0) (child_in to) }
{
    match to {
        To::Child(page) => page.0 == child.0,
        To::Row { .. } => false,
    }
}

/// The boxes of the entries. The error is want of memory.
pub(crate) fn boxes_of(alloc: Global, entries: &[Entry]) -> Result<Vec<Box4>, AllocError>
    ensures { IfOk result (λ boxes. boxes.items ≡ boxes_of entries.now) }
{
    let mut boxes = Vec::with_capacity(alloc, entries.len())?;
    for e in entries {
        boxes.push(e.b)?;
    }
    Ok(boxes)
}

/// The entries at these places. The error is want of memory.
pub(crate) fn picked(
    alloc: Global,
    entries: &[Entry],
    places: &[usize],
) -> Result<Vec<Entry>, AllocError>
    ensures { IfOk result (λ some. some.items ≡ picked entries.now places.now) }
{
    let mut some = Vec::with_capacity(alloc, places.len())?;
    for place in places {
        if let Some(e) = entries.get(*place) {
            some.push(*e)?;
        }
    }
    Ok(some)
}

/// The least box round the entries, of which there is one at least.
pub fn least(entries: &[Entry]) -> Box4
    requires { 0 < length entries.now }
    ensures { result ≡ least entries.now }
{
    let mut round = entries[0].b;
    let mut i = entries.len();
    'round: while i > 1 {
        i -= 1;
        round = union(&entries[i].b, &round);
    }
    round
}
