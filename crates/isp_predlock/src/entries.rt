//! What a search is, and what is told of it.

use isp_base::PageNo;
use isp_mbr::{Box4, Predicate};

/// The number by which the table knows a search. It may be taken again once the search was released.
#[derive(Clone, Copy, Debug, PartialEq, Eq)]
pub struct SearchId(pub usize);

/// A search as it begins: whose it is and of which of its statements, the table and the column of the tree that it goes over,
/// and what it looks for.
#[derive(Clone, Copy, Debug, PartialEq, Eq)]
pub struct Sought {
    pub session: u32,
    pub statement: u64,
    pub table: u32,
    pub column: u32,
    pub predicate: Predicate,
}

/// A search as it is told of, on a page or in the way of an entry.
#[derive(Clone, Copy, Debug, PartialEq, Eq)]
pub struct On {
    pub search: SearchId,
    pub session: u32,
    pub predicate: Predicate,
}

/// The entry of a page for one of its children, by its boxes before and after an entry is added below it. They are the same
/// where the box doesn't grow.
#[derive(Clone, Copy, Debug, PartialEq, Eq)]
pub struct Growing {
    pub parent: PageNo,
    pub child: PageNo,
    pub old: Box4,
    pub new: Box4,
}

/// A search that percolates to a page.
#[derive(Clone, Copy, Debug, PartialEq, Eq)]
pub struct Percolation {
    pub search: SearchId,
    pub session: u32,
    pub page: PageNo,
}

/// An entry that a session wants to place on a leaf, by its box.
#[derive(Clone, Copy, Debug, PartialEq, Eq)]
pub struct Placing {
    pub session: u32,
    pub leaf: PageNo,
    pub b: Box4,
}
