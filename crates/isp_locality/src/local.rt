//! What depends on other rows alone.

ghost use Rattle.isp_locality.specs.LocalLaws.{AnswersAreFramed, ReplaysAreFramed, StatementsAreLocal};

/// A statement that has nothing to do with a set of keys answers the same on tables that differ there, and leaves what stands there.
pub fn law_statements_are_local()
    ensures { StatementsAreLocal }
{}

/// So does one answer that is done again.
pub fn law_answers_are_framed()
    ensures { AnswersAreFramed }
{}

/// And so do the answers of a transaction.
pub fn law_replays_are_framed()
    ensures { ReplaysAreFramed }
{}
