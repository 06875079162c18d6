//! The header of a page, as a value.

use isp_base::PageNo;

/// What the first 32 bytes of a page say of it.
#[derive(Clone, Copy, Debug, PartialEq, Eq)]
pub struct Head {
    /// 0 free, 1 space, 2 undo directory, 3 catalogue, 4 clustered leaf, 5 clustered inner, 6 R-tree, 7 undo.
    pub kind: u8,
    /// How far the page is above the leaves of its tree.
    pub level: u8,
    /// How many entries it has.
    pub count: u16,
    /// 32 times the number of its tree's table and the index of the column, 0 for the clustered tree; 0 where the page
    /// is of no tree.
    pub owner: u32,
    /// The page to the right, or the next of its chain. 0 is none.
    pub next: PageNo,
    /// The page before it. 0 is none.
    pub prev: PageNo,
    /// The sequence number of a page of an R-tree (Kornacker, Mohan and Hellerstein 1997).
    pub ssn: u64,
    /// Its own number.
    pub own: PageNo,
    /// Where what it holds ends, in bytes.
    pub used: u32,
}
