//! The plan.
ghost use Rattle.std.specs.Prelude.{◌≡◌, ◌<◌, ◌≤◌, ◌+◌, ◌*◌, ◌++◌, ◌∷◌, [], length, reverse, IfOk, OnOk};
ghost use Rattle.isp_format.specs.Control.{IsFanout};
ghost use Rattle.isp_rplan.specs.Plans.{AreDivided, IsPlan, IsPlanned, carry_of, least_fill, new_entry, with_carry};
ghost use Rattle.isp_rplan.specs.declared.steps.Carry.TheVariants.{Added};

use crate::boxes::{boxes_of, least, picked, rebox, widen};
use crate::steps::{Carry, Moves, PathPage, Planned};
use isp_base::PageNo;
use isp_forest::{Entry, To};
use isp_mbr::Box4;
use isp_split::split;
use std::alloc::{AllocError, Global};

/// What is made of the pages of a path, which are given from the root down, where an entry with the box `b` is added to the last
/// one: the entries for the pages of the path grow round the box, and from the leaf up a page with more entries than the fan-out
/// is divided by the quadratic split (Guttman 1984), where the parent's entry for it gets the least box and a new entry is added
/// to the parent. It is given from the root down too. The error is want of memory.
pub fn plan(
    alloc: Global,
    path: Vec<PathPage>,
    b: &Box4,
    fanout: u32,
) -> Result<Vec<Planned>, AllocError>
    requires { IsFanout fanout }
    ensures { IfOk result (λ steps. IsPlan fanout b.now (reverse path.items) (Added b.now) (reverse steps.items)) }
{
    let mut pages = path;
    let mut steps = Vec::with_capacity(alloc, pages.len())?;
    let mut carry = Carry::Added(*b);
    'up: while let Some(page) = pages.pop() {
        let (step, next) = plan_page(alloc, page, carry, b, fanout as usize)?;
        steps.insert(0, step)?;
        carry = next;
    }
    Ok(steps)
}

// What is made of a page, and what goes up from it.
fn plan_page(
    alloc: Global,
    page: PathPage,
    carry: Carry,
    b: &Box4,
    fanout: usize,
) -> Result<(Planned, Carry), AllocError>
    requires { IsFanout fanout }
    ensures planned { IfOk result (λ step. IsPlanned fanout page carry step.0) }
    ensures carry { IfOk result (λ step. step.1 ≡ carry_of b.now step.0) }
{
    let PathPage {
        page,
        head,
        mut entries,
    } = page;
    put_carry(&mut entries, carry)?;
    if entries.len() <= fanout {
        let whole = Planned {
            page,
            head,
            stays: entries,
            moves: None,
        };
        return Ok((whole, Carry::Grown(page, *b)));
    }
    let round = least(&entries);
    let (stays, entries) = divided(alloc, &entries, fanout)?;
    let next = Carry::Divided(page, least(&stays), least(&entries));
    let step = Planned {
        page,
        head,
        stays,
        moves: Some(Moves { entries, round }),
    };
    Ok((step, next))
}

// Changes the entries of a page by what comes from below.
fn put_carry(entries: &mut Vec<Entry>, carry: Carry) -> Result<(), AllocError>
    ensures { OnOk result (entries.new.items ≡ with_carry carry entries.old.items) }
{
    match carry {
        Carry::Added(b) => push_new(entries, &b),
        Carry::Grown(child, b) => {
            widen(entries, child, &b);
            Ok(())
        }
        Carry::Divided(child, left, right) => {
            rebox(entries, child, &left);
            push_new(entries, &right)
        }
    }
}

// Adds an entry that leads nowhere yet.
fn push_new(entries: &mut Vec<Entry>, b: &Box4) -> Result<(), AllocError>
    ensures { OnOk result (entries.new.items ≡ entries.old.items ++ new_entry b.now ∷ []) }
{
    entries.push(Entry {
        b: *b,
        to: To::Child(PageNo(0)),
    })?;
    Ok(())
}

// The two parts of the entries of a page that overflows: those that stay and those that move.
fn divided(
    alloc: Global,
    entries: &[Entry],
    fanout: usize,
) -> Result<(Vec<Entry>, Vec<Entry>), AllocError>
    requires fanout { IsFanout fanout }
    requires over { fanout < length entries.now }
    ensures divided { IfOk result (λ parts. AreDivided fanout entries.now parts.0.items parts.1.items) }
    ensures some { IfOk result (λ parts. (0 < length parts.0.items) × (0 < length parts.1.items)) }
{
    let boxes = boxes_of(alloc, entries)?;
    let (first, second) = split(alloc, boxes.as_slice(), least_fill(fanout))?;
    let stays = picked(alloc, entries, first.as_slice())?;
    let moves = picked(alloc, entries, second.as_slice())?;
    Ok((stays, moves))
}

// How many entries a part has at least.
fn least_fill(fanout: usize) -> usize
    requires { IsFanout fanout }
    ensures value { result ≡ least_fill fanout }
    ensures some { 1 ≤ result }
    ensures enough { 2 * result ≤ fanout + 1 }
{
    let fill = 2 * fanout / 5;
    if fill < 2 { 2 } else { fill }
}
