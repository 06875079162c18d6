//! Rows and tables of statements.

ghost use Rattle.isp_bound_rows.specs.Laws.{CreateInSetup, CreateMakesTable, InsertPutsRows, NamedStands, UpdateSetsRows};

/// The rows of INSERT are rows of its table, small enough and with texts on one line.
pub fn law_insert_puts_rows()
    ensures { InsertPutsRows }
{}

/// A row of its table with the new values of UPDATE is one, under the same key.
pub fn law_update_sets_rows()
    ensures { UpdateSetsRows }
{}

/// The table of CREATE has a new name and is within the limits of a definition.
pub fn law_create_makes_table()
    ensures { CreateMakesTable }
{}

/// Columns that are found by a name are those of the table of that name.
pub fn law_named_stands()
    ensures { NamedStands }
{}

/// Tables are made in the setup alone.
pub fn law_create_in_setup()
    ensures { CreateInSetup }
{}
