//! Waits, deadlocks and victims, as lines tell them.

ghost use Rattle.isp_order_lines.specs.Told.{AnswersAreNumbered, DeadlocksAreLeast, LinesTellWhoWaits, NoCycleIsTold, VictimsAreAnswered, VictimsAreNamed};

/// After every event, who waits for whom is what the lines tell.
pub fn law_lines_tell_who_waits()
    ensures { LinesTellWhoWaits }
{}

/// So the lines tell of nobody, after an event, who waits in a circle.
pub fn law_no_cycle_is_told()
    ensures { NoCycleIsTold }
{}

/// The line of a deadlock shows a least cycle of the waits that the lines before it tell, and the stated victim.
pub fn law_deadlocks_are_least()
    ensures { DeadlocksAreLeast }
{}

/// The victims that lines tell are the sessions that a line names and that no line behind it answers.
pub fn law_victims_are_named()
    ensures { VictimsAreNamed }
{}

/// An answer is a deadlock's exactly where the lines before it name its session as a victim and it got no answer since.
pub fn law_victims_are_answered()
    ensures { VictimsAreAnswered }
{}

/// A session's answers are numbered from 1 on, one by one.
pub fn law_answers_are_numbered()
    ensures { AnswersAreNumbered }
{}
