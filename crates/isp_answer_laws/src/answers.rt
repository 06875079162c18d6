//! True answers.

ghost use Rattle.isp_answer_laws.specs.TrueAnswers.{AnswersAreTrue};

/// What a session is told is what its statement does on the plain tables that it saw.
pub fn law_answers_are_true()
    ensures { AnswersAreTrue }
{}
