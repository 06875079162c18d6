//! What a spatial search asks of a row's box.

use crate::Box4;

/// What a search asks of a row's box, the row's box first: `MBRCovers(row, q)` and so on of the MySQL 8.0 manual.
#[derive(Clone, Copy, Debug, PartialEq, Eq)]
pub enum Test {
    /// The row's box covers `q`.
    Covers,
    /// `q` covers the row's box.
    Within,
    /// The two have a point in common.
    Intersects,
    /// The two have no point in common.
    Disjoint,
    /// The two are one box.
    Equals,
}

/// A test against a box: what a search looks for, and what a lock on a predicate covers.
#[derive(Clone, Copy, Debug, PartialEq, Eq)]
pub struct Predicate {
    pub test: Test,
    pub q: Box4,
}
