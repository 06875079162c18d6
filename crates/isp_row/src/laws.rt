//! What holds of all spellings of rows.
ghost use Rattle.isp_row.specs.Laws.{BytesAreOneRow, RowIsOneSpelling};

/// Bytes spell one row of a schema at most, with one list of entry numbers.
pub fn law_bytes_are_one_row()
    ensures { BytesAreOneRow }
{}

/// A row with its entry numbers is spelled by one list of bytes at most.
pub fn law_row_is_one_spelling()
    ensures { RowIsOneSpelling }
{}
