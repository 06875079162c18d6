//! What a step finds.

use isp_plain::{Refusal, Rows};

/// What a statement found among the rows that it read at once.
#[derive(Drop)]
pub enum Found {
    /// The rows that hold: of its answer, with their new values, or to be deleted.
    Rows(Rows),
    /// One of the rows would get too large.
    TooLarge,
}

/// What was found of the next key.
#[derive(Clone, Copy, PartialEq, Eq)]
pub enum Looked {
    /// There is no next row.
    Over,
    /// The key is free.
    Free,
    /// It is taken, and the statement is refused so.
    Taken(Refusal),
}

/// What became of the next row.
#[derive(Clone, Copy, PartialEq, Eq)]
pub enum Changed {
    /// There is no next row.
    Over,
    /// It was written, or deleted.
    Done,
    /// There was no room for it.
    Full,
}
