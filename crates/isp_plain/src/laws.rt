//! Laws about the definitions, as functions that do nothing.

ghost use Rattle.isp_plain.specs.Laws.{RepliesAreLines};

/// Where no text in the tables has a line feed, each reply's text is one line; and a statement without one leaves such
/// tables.
pub fn law_replies_are_lines()
    ensures { RepliesAreLines }
{}
