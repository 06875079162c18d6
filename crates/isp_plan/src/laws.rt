//! What holds of statements that are bound, and of the whole language.

ghost use Rattle.isp_serial.specs.Alone.{IsFaithful};
ghost use Rattle.isp_plan.specs.Fitting.{BoundFits};
ghost use Rattle.isp_plan.specs.Meaning.{whole};

/// The whole language is faithful: what its texts are said to do to transactions is what the statements that they mean
/// do, no transaction begins in the setup, and no line feed is put into a table.
pub fn law_whole_is_faithful()
    ensures { IsFaithful whole }
{}

/// Each statement that is bound fits the tables that it is bound to: its table is there, its columns are the table's own,
/// and each value is one that its column can hold or be compared with.
pub fn law_bound_fits()
    ensures { BoundFits }
{}
