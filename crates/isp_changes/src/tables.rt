//! Tables by place and key.

ghost use Rattle.isp_changes.specs.TableLaws.{ChangeInTables, SameTables};

/// A change changes one row of one table, and nothing else.
pub fn law_change_in_tables()
    ensures { ChangeInTables }
{}

/// Two lists of tables with the same definitions and the same row at each place and key are one list.
pub fn law_same_tables()
    ensures { SameTables }
{}
