//! What holds of all texts.

ghost use Rattle.isp_sql.specs.Laws.{OneMeaning, ReadAsWritten};

/// A text is one statement at most.
pub fn law_one_meaning()
    ensures { OneMeaning }
{}

/// Reading a text from left to right finds the statement that it is by the grammar, and nothing where it is none.
pub fn law_read_as_written()
    ensures { ReadAsWritten }
{}
