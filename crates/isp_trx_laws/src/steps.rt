//! The steps of a statement.

ghost use Rattle.isp_trx_laws.specs.Laws.{StageBegins, StageCreates, StageUndoes, StageWrites};

/// A statement begins with nothing noted.
pub fn law_stage_begins()
    ensures { StageBegins }
{}

/// A change of a row, written in the file.
pub fn law_stage_writes()
    ensures { StageWrites }
{}

/// The newest image put back, in the file.
pub fn law_stage_undoes()
    ensures { StageUndoes }
{}

/// A table more.
pub fn law_stage_creates()
    ensures { StageCreates }
{}
