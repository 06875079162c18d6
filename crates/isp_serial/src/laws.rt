//! Laws about the definitions, as functions that do nothing.

ghost use Rattle.isp_serial.specs.Laws.{AloneAnswers, AloneIsSerial, FullDecides};
ghost use Rattle.isp_serial.specs.Spelling.{SpelledOnce};

/// Printed bytes spell one list of answers at the most.
pub fn law_spelled_once()
    ensures { SpelledOnce }
{}

/// In a faithful language the answers of a session that runs alone are serial, from the tables that it begins on.
pub fn law_alone_is_serial()
    ensures { AloneIsSerial }
{}

/// Each of these answers can be shown, none is a deadlock's, and those of a full file are where the file was full.
pub fn law_alone_answers()
    ensures { AloneAnswers }
{}

/// Which statements find the file full decides the answers, of each statement by itself.
pub fn law_full_decides()
    ensures { FullDecides }
{}
