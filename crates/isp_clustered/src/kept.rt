//! What calls answer of rows and leaves.

use isp_base::Bytes;
use isp_format::PageNo;
use sqlite_items::Items;

/// A row as it stands in a tree.
#[derive(Debug, Drop)]
pub struct Kept {
    /// Its bytes.
    pub row: Bytes,
    /// Whether it is marked as deleted.
    pub marked: bool,
    /// How many bytes it may have where it stands.
    pub slot: u16,
}

/// A row with its key.
#[derive(Debug, Drop)]
pub struct KeptRow {
    pub key: i64,
    pub kept: Kept,
}

/// Rows in the order of their keys, which contracts see as the list of them.
pub type KeptRows = Items<KeptRow>;

/// A leaf of a tree.
#[derive(Debug, Drop)]
pub struct Leaf {
    /// Where it stands.
    pub page: PageNo,
    /// All its rows, which may be none.
    pub rows: KeptRows,
    /// The page of the leaf to its right.
    pub next: Option<PageNo>,
}
