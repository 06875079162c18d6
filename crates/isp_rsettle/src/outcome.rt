//! What a plan comes to.
ghost use Rattle.std.specs.Prelude.{◌≤◌, IfOk};
ghost use Rattle.isp_rsettle.specs.Settling.{HasRoomFor};

use isp_base::PageNo;
use isp_forest::Entry;
use isp_mbr::Box4;
use isp_rplan::NodeHead;
use std::alloc::{AllocError, Global};

/// A page as it is to be written.
#[derive(Debug, Drop)]
pub struct Settled {
    pub page: PageNo,
    pub head: NodeHead,
    pub entries: Vec<Entry>,
}

/// A page that was divided: the page that stays, the new page, and the boxes of both.
#[derive(Clone, Copy, Debug, PartialEq, Eq)]
pub struct Parted {
    pub old: PageNo,
    pub new: PageNo,
    pub old_box: Box4,
    pub new_box: Box4,
}

/// The page that takes the content of a raised root, and the box round all of it.
#[derive(Clone, Copy, Debug, PartialEq, Eq)]
pub struct Raised {
    pub page: PageNo,
    pub round: Box4,
}

/// What becomes of a plan: the pages as they are to be written, the page of a raised root's content, and what was divided, from
/// the leaf up.
#[derive(Debug, Drop)]
pub struct Outcome {
    pub writes: Vec<Settled>,
    pub raised: Option<Raised>,
    pub parted: Vec<Parted>,
}

/// Room for an outcome, so that a plan is settled without memory.
#[derive(Debug, Drop)]
pub struct Room {
    pub writes: Vec<Settled>,
    pub parted: Vec<Parted>,
    pub root: Vec<Entry>,
}

impl Room {
    /// Room for a plan of so many pages. The error is want of memory.
    pub fn new(alloc: Global, pages: usize) -> Result<Room, AllocError>
        requires { pages ≤ 17 }
        ensures { IfOk result (HasRoomFor pages) }
    {
        Ok(Room {
            writes: Vec::with_capacity(alloc, 2 * pages + 1)?,
            parted: Vec::with_capacity(alloc, pages)?,
            root: Vec::with_capacity(alloc, 2)?,
        })
    }
}
