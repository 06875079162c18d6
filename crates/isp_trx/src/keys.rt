//! Keys of tables.

/// A key of a table, which is named by its number.
#[derive(Clone, Copy, Debug, PartialEq, Eq)]
pub struct RowKey {
    pub table: u32,
    pub key: i64,
}
