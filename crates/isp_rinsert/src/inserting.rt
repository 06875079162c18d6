//! An entry is put into a tree.
ghost use Rattle.std.specs.Prelude.{◌≡◌, ◌<◌, ℕ, List, length, true, IfErr, IfOk};
ghost use Rattle.isp_mbr.specs.Corners.{Corners};
ghost use Rattle.isp_page.specs.Steps.{IsNoDamage, IsNoDamageOrLacks};
ghost use Rattle.isp_space.specs.Changes.{MayChange};
ghost use Rattle.isp_space.specs.Spaces.{Space};
ghost use Rattle.isp_forest.specs.Tree.{Tree};
ghost use Rattle.isp_rtree.specs.Paths.{BeginsInside, numbers_of};
ghost use Rattle.isp_rinsert.specs.Calls.{ChangesTree, InsertsInto, most_inserted};
ghost use Rattle.isp_rinsert.specs.Inserting.{CanInsert, IsInserted};
ghost use Rattle.isp_rinsert.specs.Preparing.{IsPrepared, IsReady};

use crate::preparing::{Prepared, prepare};
use crate::taking::take_pages;
use crate::writing::write_all;
use isp_forest::To;
use isp_format::PageNo;
use isp_mbr::Box4;
use isp_page::{Fault, Pages, StoreFault};
use isp_rsettle::{Outcome, Parted, Raised, pages_needed, settle};
use isp_rtree::Growth;
use isp_space::draw_number;
use std::alloc::Global;

/// What an insert changed: the number of the new entry; the entry for each page of the path but the root, from the root down, by
/// its boxes before and after; the page that a raised root's content moved to, with the box round all of it; and the pages that
/// were divided, from the leaf up.
#[derive(Debug, Drop)]
pub struct Changes {
    pub number: u64,
    pub growths: Vec<Growth>,
    pub raised: Option<Raised>,
    pub divisions: Vec<Parted>,
}

/// Puts an entry for the row of that key, with the box `b`, on the last page of a path that stands. The boxes on the way grow
/// round it, and from the leaf up each page with more entries than the fan-out is divided by the quadratic split, the root after
/// its content moved to a page of its own. A page whose bytes stay isn't changed.
///
/// # Errors
///
/// Want of memory, before a page is changed; Disk; or Damaged, with the page that shows it and rule 9, as of `path_stands`, where
/// the path ends above the leaves, or the root's sequence number is 2^62 or more; or with page 0 and rule 4 or 5, or a free page
/// and rule 5, as of `take_page` and `draw_number` of isp_space.
pub fn insert<P: Pages>(
    alloc: Global,
    pages: &mut P,
    path: &[PageNo],
    b: &Box4,
    key: i64,
) -> Result<Changes, Fault>
    requires can { MayChange P.Pages most_inserted pages.old }
    requires some { 0 < length path.now }
    requires inside { BeginsInside (P.shape pages.old).pages (numbers_of path.now) }
    ensures changes { InsertsInto P.Pages pages.old pages.new result }
    ensures inserted { P.tells → (owner root : ℕ) (tree : Tree) (s : Space)
        → CanInsert P.Pages pages.old owner root tree s (numbers_of path.now)
        → IfOk result (λ changes. IsInserted P.Pages pages.old pages.new owner root tree s
        (numbers_of path.now) b.now key changes) }
    ensures sound { P.tells → (owner root : ℕ) (tree : Tree) (s : Space)
        → CanInsert P.Pages pages.old owner root tree s (numbers_of path.now)
        → IfErr result IsNoDamageOrLacks }
{
    let work = prepare(alloc, pages, path, b)?;
    let changes = apply(pages, work, key)?;
    Ok(changes)
}

// Carries a plan out.
fn apply<P: Pages>(pages: &mut P, work: Prepared, key: i64) -> Result<Changes, StoreFault>
    requires can { MayChange P.Pages most_inserted pages.old }
    requires ready { (path : List ℕ) × IsReady (P.shape pages.old).pages path work }
    ensures changes { ChangesTree P.Pages pages.old pages.new result }
    ensures inserted { P.tells → (owner root : ℕ) (tree : Tree) (s : Space) (path : List ℕ) (b : Corners)
        → CanInsert P.Pages pages.old owner root tree s path
        → IsPrepared (P.shape pages.old).fanout owner tree path b work
        → IfOk result (λ changes. IsInserted P.Pages pages.old pages.new owner root tree s path b
        key changes) }
    ensures sound { P.tells → (owner root : ℕ) (tree : Tree) (s : Space) (path : List ℕ) (b : Corners)
        → CanInsert P.Pages pages.old owner root tree s path
        → IsPrepared (P.shape pages.old).fanout owner tree path b work
        → IfErr result IsNoDamage }
{
    let Prepared {
        owner,
        counter,
        growths,
        steps,
        mut news,
        room,
    } = work;
    let number = draw_number(pages)?;
    let count = pages_needed(steps.as_slice());
    take_pages(pages, count, &mut news)?;
    let to = To::Row { key, number };
    let Outcome {
        writes,
        raised,
        parted,
    } = settle(steps, news.as_slice(), counter, to, room);
    write_all(pages, owner, writes.as_slice())?;
    Ok(Changes {
        number,
        growths,
        raised,
        divisions: parted,
    })
}
