//! Rows by key.

ghost use Rattle.isp_changes.specs.RowLaws.{KeysRise, RowsKept, RowsMapped, RowsWithNew, RowsWithRows, SameRows};

/// Two lists of rows whose keys rise, with the same row at each key, are one list.
pub fn law_same_rows()
    ensures { SameRows }
{}

/// A row that is put or taken out.
pub fn law_rows_with_new()
    ensures { RowsWithNew }
{}

/// The rows that INSERT adds.
pub fn law_rows_with_rows()
    ensures { RowsWithRows }
{}

/// The rows that UPDATE writes.
pub fn law_rows_mapped()
    ensures { RowsMapped }
{}

/// The rows that DELETE leaves.
pub fn law_rows_kept()
    ensures { RowsKept }
{}

/// Every statement leaves tables whose keys rise.
pub fn law_keys_rise()
    ensures { KeysRise }
{}
