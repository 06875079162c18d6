//! A statement step by step.

ghost use Rattle.isp_changes.specs.StageLaws.{EndsAsDone, ReadsByKey, ReadsInPieces, StepsBegin, StepsFall, StepsLead, StepsStand};
ghost use Rattle.isp_changes.specs.Worked.{WorkedSteps};

/// A statement begins on its way to what it does.
pub fn law_steps_begin()
    ensures { StepsBegin }
{}

/// Each step stays on the way, on tables whose keys rise.
pub fn law_steps_stand()
    ensures { StepsStand }
{}

/// Only a step that asks for room and finds none leads elsewhere, to a full file.
pub fn law_steps_lead()
    ensures { StepsLead }
{}

/// The steps end.
pub fn law_steps_fall()
    ensures { StepsFall }
{}

/// A statement that is ready answers and leaves what it does, or found the file full and leaves the tables.
pub fn law_ends_as_done()
    ensures { EndsAsDone }
{}

/// A scan may read leaf by leaf.
pub fn law_reads_in_pieces()
    ensures { ReadsInPieces }
{}

/// A condition that names a key needs the row at that key alone.
pub fn law_reads_by_key()
    ensures { ReadsByKey }
{}

/// A table of three rows, by computation.
pub fn law_worked_steps()
    ensures { WorkedSteps }
{}
