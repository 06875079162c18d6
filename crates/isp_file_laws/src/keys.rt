//! Rows by key.

ghost use Rattle.isp_file_laws.specs.Laws.{GetSeesRow, RowIsSeen, RowStands, RowsAreShort};

/// The row of now at a key is what is seen of the row that the file has there.
pub fn law_row_is_seen()
    ensures { RowIsSeen }
{}

/// There is one exactly where the tree's row of the key isn't marked.
pub fn law_get_sees_row()
    ensures { GetSeesRow }
{}

/// A row of now stands in its table's tree, unmarked.
pub fn law_row_stands()
    ensures { RowStands }
{}

/// No row of a tree is longer than a slot may be.
pub fn law_rows_are_short()
    ensures { RowsAreShort }
{}
