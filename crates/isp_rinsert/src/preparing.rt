//! An insert is planned.
ghost use Rattle.std.specs.Prelude.{◌≡◌, ◌<◌, ◌≤◌, ℕ, List, length, reverse, true, IfErr, IfOk};
ghost use Rattle.isp_format.specs.Control.{IsFanout};
ghost use Rattle.isp_mbr.specs.Boxes.{IsBox};
ghost use Rattle.isp_page.specs.Steps.{IsNoDamageOrLacks};
ghost use Rattle.isp_space.specs.Spaces.{most_counted};
ghost use Rattle.isp_forest.specs.Place.{Stands};
ghost use Rattle.isp_forest.specs.Tree.{Tree, counter};
ghost use Rattle.isp_rplan.specs.Plans.{IsPlan};
ghost use Rattle.isp_rplan.specs.declared.steps.Carry.TheVariants.{Added};
ghost use Rattle.isp_rtree.specs.Calls.{HasTree};
ghost use Rattle.isp_rtree.specs.Paths.{BeginsInside, numbers_of};
ghost use Rattle.isp_rinsert.specs.Calls.{ReadsTree};
ghost use Rattle.isp_rinsert.specs.Preparing.{IsPrepared, IsReady, IsWay};

use crate::way::{Way, read_way};
use isp_format::PageNo;
use isp_mbr::{Box4, area};
use isp_page::{Fault, Pages};
use isp_rplan::{Planned, plan};
use isp_rsettle::Room;
use isp_rtree::{Growth, growths};
use std::alloc::{AllocError, Global};

/// How many pages an insert takes at most.
const MOST_TAKEN: usize = 18;

/// An insert that can be carried out without memory.
#[derive(Drop)]
pub(crate) struct Prepared {
    pub owner: u32,
    pub counter: u64,
    pub growths: Vec<Growth>,
    pub steps: Vec<Planned>,
    pub news: Vec<PageNo>,
    pub room: Room,
}

/// Reads the pages of the path and plans the insert, with all memory that it needs.
pub(crate) fn prepare<P: Pages>(
    alloc: Global,
    pages: &mut P,
    path: &[PageNo],
    b: &Box4,
) -> Result<Prepared, Fault>
    requires usable { P.usable pages.old ≡ true }
    requires some { 0 < length path.now }
    requires inside { BeginsInside (P.shape pages.old).pages (numbers_of path.now) }
    ensures reads { ReadsTree P.Pages pages.old pages.new result }
    ensures ready { IfOk result (IsReady (P.shape pages.old).pages (numbers_of path.now)) }
    ensures prepared { P.tells → (owner root : ℕ) (tree : Tree) → HasTree P.Pages pages.old owner root tree
        → Stands tree (numbers_of path.now)
        → IfOk result (IsPrepared (P.shape pages.old).fanout owner tree (numbers_of path.now) b.now) }
    ensures sound { P.tells → (owner root : ℕ) (tree : Tree) → HasTree P.Pages pages.old owner root tree
        → Stands tree (numbers_of path.now) → counter tree < most_counted
        → IfErr result IsNoDamageOrLacks }
{
    let grown = growths(alloc, pages, path, b)?;
    let way = read_way(alloc, pages, path)?;
    let fanout = pages.fanout();
    let work = planned(alloc, way, grown, b, fanout)?;
    Ok(work)
}

// Plans on lists alone.
fn planned(
    alloc: Global,
    way: Way,
    growths: Vec<Growth>,
    b: &Box4,
    fanout: u32,
) -> Result<Prepared, AllocError>
    requires fanout { IsFanout fanout }
    requires way { (pages : ℕ) × (path : List ℕ) × IsWay pages path way }
    requires counter { way.counter < most_counted }
    ensures ready { (pages : ℕ) (path : List ℕ) → IsWay pages path way → IfOk result (IsReady pages path) }
    ensures plan { IfOk result (λ w. IsPlan fanout b.now (reverse way.pages.items) (Added b.now)
        (reverse w.steps.items)) }
    ensures owner { IfOk result (λ w. w.owner ≡ way.owner) }
    ensures counter { IfOk result (λ w. w.counter ≡ way.counter) }
    ensures growths { IfOk result (λ w. w.growths.items ≡ growths.items) }
    ensures ordered { IsBox b.now }
{
    let _area = area(b);
    let Way {
        owner,
        counter,
        pages,
    } = way;
    let room = Room::new(alloc, pages.len())?;
    let news = Vec::with_capacity(alloc, MOST_TAKEN)?;
    let steps = plan(alloc, pages, b, fanout)?;
    Ok(Prepared {
        owner,
        counter,
        growths,
        steps,
        news,
        room,
    })
}
