//! How many bytes a row's spelling has.
ghost use Rattle.std.specs.Prelude.{◌≡◌, ℕ, ℤ, List, length, min};
ghost use Rattle.isp_plain.specs.RowBytes.{row_bytes};
ghost use Rattle.isp_row.specs.RowSpelling.{Spells};

use isp_plain::{Row, Schema, row_size};

/// The number of bytes that spell the row in a table of this schema, or 65,536 where that is less.
pub fn size(schema: &Schema, row: &Row) -> usize
    ensures size { result ≡ min (row_bytes schema.now row.now) 65536 }
    ensures spelled { (key : ℤ) (bytes numbers : List ℕ)
        → Spells schema.now key bytes row.now numbers → result ≡ min (length bytes) 65536 }
{
    row_size(schema, row)
}
