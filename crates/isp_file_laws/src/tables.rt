//! The tables of a kept file.

ghost use Rattle.isp_file_laws.specs.Laws.{CommittedIsPlain, KeptIsPlain, ShownAreRows, TablesAreDefined};

/// The tables of now have texts on one line and keys that rise, each row at its own.
pub fn law_kept_is_plain()
    ensures { KeptIsPlain }
{}

/// So have the committed ones.
pub fn law_committed_is_plain()
    ensures { CommittedIsPlain }
{}

/// Each row of now is one of its table's columns.
pub fn law_shown_are_rows()
    ensures { ShownAreRows }
{}

/// Each table is one of a definition within the limits.
pub fn law_tables_are_defined()
    ensures { TablesAreDefined }
{}
