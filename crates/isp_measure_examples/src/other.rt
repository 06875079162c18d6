//! Undo entries of sessions that undo nothing, counted too.

ghost use Rattle.isp_measure_examples.specs.UndoCounted.{UndoCountedIsNoMeasure};

/// So counted, the first row of an INSERT leaves all numbers as they are, and that of an UPDATE raises them.
pub fn law_undo_counted_is_no_measure()
    ensures { UndoCountedIsNoMeasure }
{}
