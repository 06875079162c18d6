//! An old image, as calls take it and give it.

use isp_format::MOST_SLOT;

/// The kind of a row with its mark, the highest there is.
pub const MARKED_KIND: u8 = 2;

/// What stood at a key of a table before it was changed: of kind 0 nothing, of kind 1 a row, of kind 2 a row with its mark. The
/// row is the first `len` of the bytes.
#[derive(Clone, Copy)]
pub struct UndoBuf {
    pub table: u32,
    pub key: i64,
    pub kind: u8,
    pub len: u16,
    pub bytes: [u8; MOST_SLOT],
}
