//! What stands on a page of an R-tree.

use isp_base::PageNo;
use isp_mbr::Box4;
use std::vec::Vec;

/// Where an entry leads.
#[derive(Clone, Copy, Debug, PartialEq, Eq)]
pub enum To {
    /// A page one level below.
    Child(PageNo),
    /// A row, by its key, and the number that tells this entry from all others.
    Row { key: i64, number: u64 },
}

/// A box, and what lies in it (Guttman 1984).
#[derive(Clone, Copy, Debug, PartialEq, Eq)]
pub struct Entry {
    pub b: Box4,
    pub to: To,
}

/// What a visit sees of a page: its level (0 at a leaf), its sequence number, the page to its right or page 0 where there
/// is none, the tree's counter, and the entries in their order (Kornacker, Mohan and Hellerstein 1997).
#[derive(Debug, Drop)]
pub struct Seen {
    pub level: u8,
    pub ssn: u64,
    pub next: PageNo,
    pub counter: u64,
    pub entries: Vec<Entry>,
}
