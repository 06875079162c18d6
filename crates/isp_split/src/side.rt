//! The two groups of a division.

/// One of the two groups of a division: the first stays on the old page, the second goes to the new one.
#[derive(Clone, Copy)]
pub enum Side {
    First,
    Second,
}
