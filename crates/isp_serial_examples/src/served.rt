//! A run that is serial.

ghost use Rattle.isp_serial_examples.specs.ServedRuns.{OvertakingIsSerial, WrongAnswersAreNone};

/// What is answered where a split overtakes a search is serial, from the five points to the seven.
pub fn law_overtaking_is_serial()
    ensures { OvertakingIsSerial }
{}

/// The machine doesn't answer what a wrong one does whose answers aren't serial.
pub fn law_wrong_answers_are_none()
    ensures { WrongAnswersAreNone }
{}
