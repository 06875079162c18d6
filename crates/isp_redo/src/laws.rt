//! Laws about the log, as functions that do nothing.

ghost use Rattle.isp_redo.specs.Laws.{AllLieAhead, OneLog};

/// A log has one list of batches, and one end.
pub fn law_one_log()
    ensures { OneLog }
{}

/// At place 0 all ranges of the log lie ahead of `read_range`.
pub fn law_all_ranges_lie_ahead()
    ensures { AllLieAhead }
{}
