//! The language and the ways.

ghost use Rattle.isp_ways.specs.Ways.{LanguageIsServable, WaysAreSound};

/// Texts mean statements by the names and columns of tables alone, and on tables as CREATE makes them these can be served.
pub fn law_language_is_servable()
    ensures { LanguageIsServable }
{}

/// The path of each statement finds every row of which its condition holds.
pub fn law_ways_are_sound()
    ensures { WaysAreSound }
{}
