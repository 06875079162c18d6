//! The pages of a path, and what is made of each.

use isp_base::PageNo;
use isp_forest::Entry;
use isp_mbr::Box4;

/// What the header of a page says of it in its tree: its level, 0 at a leaf; its sequence number; its right link, page 0 where it
/// has none.
#[derive(Clone, Copy, Debug, PartialEq, Eq)]
pub struct NodeHead {
    pub level: u8,
    pub ssn: u64,
    pub next: PageNo,
}

/// A page of a path, with its entries.
#[derive(Debug, Drop)]
pub struct PathPage {
    pub page: PageNo,
    pub head: NodeHead,
    pub entries: Vec<Entry>,
}

/// What is made of a page: the entries that stay on it, and what moves to a new page, if it is divided. A new entry among them
/// leads nowhere yet.
#[derive(Debug, Drop)]
pub struct Planned {
    pub page: PageNo,
    pub head: NodeHead,
    pub stays: Vec<Entry>,
    pub moves: Option<Moves>,
}

/// The entries that move to a new page, and the box round all entries of the page before it was divided, which is what the page
/// below a raised root gets.
#[derive(Debug, Drop)]
pub struct Moves {
    pub entries: Vec<Entry>,
    pub round: Box4,
}

/// What comes to a page from below.
#[derive(Clone, Copy)]
pub enum Carry {
    /// An entry with this box is new.
    Added(Box4),
    /// The page below stays whole, and its box grows round this one.
    Grown(PageNo, Box4),
    /// The page below is divided, and these are the boxes of its parts.
    Divided(PageNo, Box4, Box4),
}
